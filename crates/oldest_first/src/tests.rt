//! A row that is empty, full and in between.
// kept: two tests have the shape of two of `in_turn`; a helper for both would need a crate of its own.
use crate::OldestFirst;
use crate::rows::ordering::CAPACITY;
use broadcast::Broadcast;
use message::{EpochChange, Message};
use std::test::Fail;

fn from(sender: u8) -> Message {
    Message::Epoch(EpochChange { sender, epoch: 1 })
}

// The sender of the message at a position.
fn sender_at(row: &OldestFirst, position: u64) -> Option<u8> {
    row.message_at(position)
        .ok()
        .map(|message| message.sender())
}

#[test]
fn an_empty_row_refuses_to_order_and_to_read(rt: HostRuntime) -> Result<(), Fail> {
    let mut row = OldestFirst::new(rt.alloc())?;
    assert!(rt; row.order().is_err());
    assert_eq!(rt; sender_at(&row, 0), None);
    assert!(rt; row.ordered_count() == 0 && row.waiting_count() == 0);
    Ok(())
}

#[test]
fn a_row_takes_128_messages_and_no_more_until_it_is_cleared(rt: HostRuntime) -> Result<(), Fail> {
    let mut row = OldestFirst::new(rt.alloc())?;
    for _ in 0..CAPACITY {
        row.offer(from(1))?;
    }
    assert!(rt; row.offer(from(1)).is_err());
    assert_eq!(rt; row.order()?, 0);
    assert_eq!(rt; row.order()?, 1);
    assert!(rt; row.offer(from(1)).is_err());
    assert!(rt; row.ordered_count() == 2 && row.waiting_count() == 126);
    row.clear();
    assert!(rt; row.ordered_count() == 0 && row.waiting_count() == 0);
    assert!(rt; row.offer(from(1)).is_ok());
    Ok(())
}

#[test]
fn the_oldest_is_ordered_first(rt: HostRuntime) -> Result<(), Fail> {
    let mut row = OldestFirst::new(rt.alloc())?;
    row.offer(from(9))?;
    row.offer(from(1))?;
    assert_eq!(rt; row.order()?, 0);
    row.offer(from(0))?;
    assert_eq!(rt; row.order()?, 1);
    assert_eq!(rt; row.order()?, 2);
    assert_eq!(rt; sender_at(&row, 0), Some(9));
    assert_eq!(rt; sender_at(&row, 1), Some(1));
    assert_eq!(rt; sender_at(&row, 2), Some(0));
    assert_eq!(rt; sender_at(&row, 3), None);
    Ok(())
}
