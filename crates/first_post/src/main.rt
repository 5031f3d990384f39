//! An office's post goes through two databases of different makes, step by step (docs/databases.md).
#![tactic(auto)]

use deferred::Deferred;
use in_place::InPlace;
use replica::{Database, Fault, Replica};
use statement::{Missing, Operation, Statement};
use std::io;

/// A room's post counter, its pinned drawing and its members, and the counter of another room.
const POSTS: u64 = 5;

const PINNED: u64 = 6;

const MEMBERS: u64 = 7;

const OTHER_ROOM: u64 = 40;

/// The three statements of a post.
fn post(drawing: u64, member: u64) -> Result<[Statement; 3], Missing> {
    Ok([
        Statement::new(POSTS, Operation::Add(1))?,
        Statement::new(PINNED, Operation::Set(drawing))?,
        Statement::new(MEMBERS, Operation::Join(member))?,
    ])
}

/// Prints a call that answers nothing.
fn show(rt: &impl Print, call: &str, outcome: Result<(), Fault>) -> io::Result<()> {
    match outcome {
        Ok(()) => println!(rt; "{call} -> ok"),
        Err(fault) => println!(rt; "{call} -> {fault}"),
    }
}

/// Runs a statement in a slot and prints it with its answer.
fn run<D: Database>(
    rt: &impl Print,
    database: &mut D,
    slot: usize,
    statement: &Statement,
) -> io::Result<()> {
    match database.run(slot, statement) {
        Ok(answer) => println!(rt; "slot {slot}: {statement} -> {answer}"),
        Err(fault) => println!(rt; "slot {slot}: {statement} -> {fault}"),
    }
}

/// A post in slot 0 of the first database, with a second client in slot 1; then the second database takes the post in.
fn office<L: Database, F: Replica>(
    rt: &impl Print,
    leader: &mut L,
    follower: &mut F,
    work: &[Statement; 3],
    position: u64,
) -> anyhow::Result<()> {
    show(rt, "open slot 0", leader.open(0))?;
    for statement in work {
        run(rt, leader, 0, statement)?;
    }
    show(rt, "open slot 1", leader.open(1))?;
    run(rt, leader, 1, &Statement::new(POSTS, Operation::Get)?)?;
    run(
        rt,
        leader,
        1,
        &Statement::new(OTHER_ROOM, Operation::Add(1))?,
    )?;
    show(rt, "seal slot 0", leader.seal(0, position))?;
    run(rt, leader, 1, &Statement::new(POSTS, Operation::Get)?)?;
    show(rt, "undo slot 1", leader.undo(1))?;
    show(
        rt,
        "the other takes the post in",
        follower.intake(work, position),
    )?;
    Ok(())
}

/// Prints cells and marks of both databases side by side.
fn side_by_side<A: Replica, B: Replica>(rt: &impl Print, a: &A, b: &B) -> anyhow::Result<()> {
    for (name, cell) in [
        ("posts", POSTS),
        ("pinned", PINNED),
        ("members", MEMBERS),
        ("other room", OTHER_ROOM),
    ] {
        let left = a.cell(cell)?;
        let right = b.cell(cell)?;
        println!(rt; "{name} (cell {cell}): {left} {right}")?;
    }
    println!(rt; "mark: {} {}", a.mark(), b.mark())?;
    Ok(())
}

/// Two posts: the first is made in place and taken in by the deferred database, the second the other way round.
fn day(rt: &impl Print) -> anyhow::Result<()> {
    let mut in_place = InPlace::new();
    let mut deferred = Deferred::new();
    println!(rt; "== a post on the in-place database")?;
    office(rt, &mut in_place, &mut deferred, &post(4711, 3)?, 0)?;
    println!(rt; "== in place and deferred")?;
    side_by_side(rt, &in_place, &deferred)?;
    println!(rt; "== a post on the deferred database")?;
    office(rt, &mut deferred, &mut in_place, &post(4712, 4)?, 1)?;
    println!(rt; "== in place and deferred")?;
    side_by_side(rt, &in_place, &deferred)?;
    Ok(())
}

fn main(rt: HostRuntime) -> anyhow::Result<()> {
    day(&rt)
}
