//! Lines that are empty, full, shared and taken in turn. A message is known by its epoch.
// kept: two tests have the shape of two of `oldest_first`; a helper for both would need a crate of its own.
use crate::InTurn;
use crate::lines::ordering::CAPACITY;
use broadcast::Broadcast;
use message::{EpochChange, Message};
use std::process::Abort;
use std::test::Fail;

fn from(sender: u8, epoch: u64) -> Message {
    Message::Epoch(EpochChange { sender, epoch })
}

// Offers a message of each sender, with epochs from 1.
fn offer_from(lines: &mut InTurn, senders: &[u8]) -> Result<(), Fail> {
    for (epoch, sender) in (1u64..).zip(senders) {
        lines.offer(from(*sender, epoch))?;
    }
    Ok(())
}

// Orders as many messages as there are epochs, and compares.
fn check_order(rt: &impl Abort, lines: &mut InTurn, epochs: &[u64]) -> Result<(), Fail> {
    for epoch in epochs {
        let position = lines.order()?;
        assert_eq!(rt; lines.message_at(position)?.epoch(), *epoch);
    }
    Ok(())
}

#[test]
fn empty_lines_refuse_to_order_and_to_read(rt: HostRuntime) -> Result<(), Fail> {
    let mut lines = InTurn::new(rt.alloc())?;
    assert!(rt; lines.order().is_err());
    assert!(rt; lines.message_at(0).is_err());
    assert!(rt; lines.ordered_count() == 0 && lines.waiting_count() == 0);
    Ok(())
}

#[test]
fn the_lines_take_128_messages_and_no_more_until_they_are_cleared(
    rt: HostRuntime,
) -> Result<(), Fail> {
    let mut lines = InTurn::new(rt.alloc())?;
    for _ in 0..CAPACITY {
        lines.offer(from(1, 1))?;
    }
    assert!(rt; lines.offer(from(2, 1)).is_err());
    assert_eq!(rt; lines.order()?, 0);
    assert_eq!(rt; lines.order()?, 1);
    assert!(rt; lines.offer(from(2, 1)).is_err());
    assert!(rt; lines.ordered_count() == 2 && lines.waiting_count() == 126);
    lines.clear();
    assert!(rt; lines.ordered_count() == 0 && lines.waiting_count() == 0);
    assert!(rt; lines.offer(from(2, 1)).is_ok());
    Ok(())
}

#[test]
fn lines_take_turns_and_empty_ones_are_passed_over(rt: HostRuntime) -> Result<(), Fail> {
    let mut lines = InTurn::new(rt.alloc())?;
    offer_from(&mut lines, &[1, 1, 2, 8, 0])?;
    // senders 8 and 0 share line 0
    check_order(&rt, &mut lines, &[4, 1, 3, 5, 2])?;
    assert_eq!(rt; lines.waiting_count(), 0);
    Ok(())
}

#[test]
fn one_line_goes_by_age_and_a_clear_gives_line_0_the_turn(rt: HostRuntime) -> Result<(), Fail> {
    let mut lines = InTurn::new(rt.alloc())?;
    offer_from(&mut lines, &[17, 1, 9])?;
    check_order(&rt, &mut lines, &[1, 2, 3])?;
    lines.clear();
    offer_from(&mut lines, &[2, 0])?;
    check_order(&rt, &mut lines, &[2, 1])
}
