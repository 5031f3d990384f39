//! A log being made: messages of several servers go through both broadcasts, are ordered, and are judged (docs/judging.md).
#![tactic(auto)]

use broadcast::{Broadcast, Full};
use in_turn::InTurn;
use journal::{Judgement, judge};
use message::{EpochChange, Message, Notes, Transaction};
use oldest_first::OldestFirst;
use replica::{CELLS, replay};
use statement::{Missing, Operation, Statement};
use std::io;

/// A transaction of one statement.
fn work(
    sender: u8,
    epoch: u64,
    client: u8,
    job: u32,
    cell: u64,
    operation: Operation,
    answer: u64,
) -> Result<Message, Missing> {
    let statement = Statement::new(cell, operation)?;
    let empty = Notes::new();
    let notes = empty.with(statement, answer).unwrap_or(empty);
    Ok(Message::Transaction(Transaction {
        sender,
        epoch,
        client,
        job,
        notes,
    }))
}

/// A server's wish to end an epoch.
fn suspicion(sender: u8, epoch: u64) -> Message {
    Message::Epoch(EpochChange { sender, epoch })
}

/// Offers the messages in this order.
fn offer_all<B: Broadcast>(broadcast: &mut B, messages: &[Message]) -> Result<(), Full> {
    for message in messages {
        broadcast.offer(*message)?;
    }
    Ok(())
}

/// Orders every message that waits.
fn order_all<B: Broadcast>(broadcast: &mut B) {
    for _ in 0..broadcast.waiting_count() {
        let _ = broadcast.order();
    }
}

/// Prints the cells in which two states differ.
fn show_changes(rt: &impl Print, before: &[u64; CELLS], after: &[u64; CELLS]) -> io::Result<()> {
    for (c, (was, is)) in before.iter().zip(after).enumerate() {
        if was != is {
            println!(rt; "   cell {c}: {was} -> {is}")?;
        }
    }
    Ok(())
}

/// The cells after a message, so judged.
fn cells_after(cells: [u64; CELLS], message: &Message, judgement: Judgement) -> [u64; CELLS] {
    match (judgement, message) {
        (Judgement::Committed, Message::Transaction(transaction)) => replay(
            cells,
            transaction.notes.statements(),
        ),
        _ => cells,
    }
}

/// Prints each position of the log with its message, its judgement and the cells that it changed.
fn show_log<B: Broadcast>(rt: &impl Print, broadcast: &B) -> anyhow::Result<()> {
    let mut cells = [0u64; CELLS];
    // kept: a broadcast lends its messages by position, with no iterator, and each position is printed.
    for position in 0..broadcast.ordered_count() {
        let message = broadcast.message_at(position)?;
        let judgement = judge(broadcast, position)?;
        println!(rt; "{position}: {message} -> {judgement}")?;
        let after = cells_after(cells, message, judgement);
        show_changes(rt, &cells, &after)?;
        cells = after;
    }
    Ok(())
}

/// The messages through one broadcast.
fn tour<B: Broadcast>(
    rt: &impl Print,
    broadcast: &mut B,
    messages: &[Message],
) -> anyhow::Result<()> {
    offer_all(broadcast, messages)?;
    order_all(broadcast);
    show_log(rt, broadcast)
}

/// An afternoon of three servers, through both broadcasts.
fn afternoon(rt: &HostRuntime) -> anyhow::Result<()> {
    let messages = [
        work(1, 1, 0, 7, 5, Operation::Add(3), 3)?,
        suspicion(2, 1),
        work(1, 1, 1, 1, 5, Operation::Set(9), 3)?,
        suspicion(3, 1),
        work(2, 2, 0, 7, 5, Operation::Add(3), 6)?,
        work(2, 2, 1, 1, 6, Operation::Join(3), 1)?,
    ];
    println!(rt; "== oldest first")?;
    let mut oldest = OldestFirst::new(rt.alloc())?;
    tour(rt, &mut oldest, &messages)?;
    println!(rt; "== in turn")?;
    let mut turns = InTurn::new(rt.alloc())?;
    tour(rt, &mut turns, &messages)
}

fn main(rt: HostRuntime) -> anyhow::Result<()> {
    afternoon(&rt)
}
