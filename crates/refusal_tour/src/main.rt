//! Each refusal of an ensemble at its edge, and ties: where several fit, the one nearest the top answers (docs/refusals.md).
#![tactic(auto)]

use anyhow::Context;
use bank::{DatabaseBank, ReplicaBank};
use broadcast::Broadcast;
use deferred::Deferred;
use ensemble::Ensemble;
use in_place::InPlace;
use oldest_first::OldestFirst;
use pairs::{Nothing, Pair};
use pronto::{Refusal, TransactionId};
use replica::{Database, Replica};
use statement::Operation;
use std::io;

/// Prints a case with the number that it is refused by, or that it is served.
fn show<T: Drop>(rt: &impl Print, case: &str, outcome: Result<T, Refusal>) -> io::Result<()> {
    match outcome {
        Ok(_) => println!(rt; "{case} -> served"),
        Err(refusal) => {
            let number = refusal.number();
            println!(rt; "{case} -> {number}")
        }
    }
}

fn id(server: u8, client: u8, job: u32) -> TransactionId {
    TransactionId {
        server,
        client,
        job,
    }
}

/// Numbers that name nothing, and stopped or running servers.
fn names<B: Broadcast, K: DatabaseBank>(rt: &impl Print, e: &mut Ensemble<B, K>) -> io::Result<()> {
    show(rt, "stop of server 0", e.stop(0))?;
    show(rt, "stop of server 4 of 3", e.stop(4))?;
    show(rt, "start of a running server", e.start(3))?;
    show(rt, "stop of server 3", e.stop(3))?;
    show(rt, "deliver at a stopped server", e.deliver(3))?;
    show(
        rt,
        "begin at a stopped server by client 16",
        e.begin(id(3, 16, 0)),
    )?;
    show(rt, "begin by client 15", e.begin(id(1, 15, 0)))?;
    show(
        rt,
        "begin by client 16 at a server that does not lead",
        e.begin(id(2, 16, 0)),
    )?;
    show(
        rt,
        "begin at a server that does not lead",
        e.begin(id(2, 0, 0)),
    )?;
    show(rt, "start of server 3", e.start(3))?;
    show(
        rt,
        "begin at a restarted server that does not lead",
        e.begin(id(3, 0, 0)),
    )?;
    show(rt, "question about server 4", e.epoch(4))?;
    show(rt, "question about cell 63", e.cell(3, 63))?;
    show(rt, "question about cell 64", e.cell(3, 64))?;
    show(
        rt,
        "question about a transaction of client 16",
        e.transaction_state(id(1, 16, 0)),
    )?;
    show(
        rt,
        "question about no transaction",
        e.transaction_state(id(1, 3, 3)),
    )
}

/// One transaction, statement by statement.
fn statements<B: Broadcast, K: DatabaseBank>(
    rt: &impl Print,
    e: &mut Ensemble<B, K>,
) -> io::Result<()> {
    show(
        rt,
        "run of no transaction on cell 64",
        e.run(id(1, 0, 9), 64, Operation::Get),
    )?;
    show(
        rt,
        "run of no transaction with member 64",
        e.run(id(1, 0, 9), 0, Operation::Join(64)),
    )?;
    show(
        rt,
        "run of no transaction",
        e.run(id(1, 0, 9), 63, Operation::Get),
    )?;
    show(rt, "the same begin twice", e.begin(id(1, 15, 0)))?;
    for _ in 0..5 {
        let _ = e.run(id(1, 15, 0), 7, Operation::Add(1));
    }
    show(
        rt,
        "sixth statement",
        e.run(id(1, 15, 0), 7, Operation::Add(1)),
    )?;
    show(
        rt,
        "seventh statement",
        e.run(id(1, 15, 0), 7, Operation::Add(1)),
    )?;
    show(rt, "begin of another", e.begin(id(1, 1, 1)))?;
    show(
        rt,
        "read of a written cell",
        e.run(id(1, 1, 1), 7, Operation::Get),
    )?;
    show(
        rt,
        "read of the next cell",
        e.run(id(1, 1, 1), 8, Operation::Get),
    )?;
    show(rt, "commit", e.commit(id(1, 15, 0)))?;
    show(rt, "commit while committing", e.commit(id(1, 15, 0)))?;
    show(
        rt,
        "seventh run while committing",
        e.run(id(1, 15, 0), 7, Operation::Get),
    )?;
    show(rt, "abort while committing", e.abort(id(1, 15, 0)))?;
    show(rt, "abort of the other", e.abort(id(1, 1, 1)))?;
    show(rt, "abort of the other again", e.abort(id(1, 1, 1)))
}

/// Eight transactions, and a full broadcast.
fn limits<B: Broadcast, K: DatabaseBank>(
    rt: &impl Print,
    e: &mut Ensemble<B, K>,
) -> io::Result<()> {
    for job in 0..6 {
        let _ = e.begin(id(1, 2, job));
    }
    show(rt, "eighth begin", e.begin(id(1, 2, 6)))?;
    show(rt, "ninth begin", e.begin(id(1, 2, 7)))?;
    show(
        rt,
        "ninth begin, of a job that is open",
        e.begin(id(1, 2, 6)),
    )?;
    show(rt, "message at position 0 of an empty log", e.message(0))?;
    show(rt, "deliver of nothing", e.deliver(1))?;
    show(rt, "order", e.order())?;
    show(rt, "order of nothing", e.order())?;
    show(rt, "message at position 0", e.message(0))?;
    show(rt, "message at position 1", e.message(1))?;
    for _ in 0..126 {
        let _ = e.suspect(2);
    }
    show(rt, "128th message", e.commit(id(1, 2, 6)))?;
    show(rt, "129th message", e.suspect(2))?;
    show(rt, "129th message, of a transaction", e.commit(id(1, 2, 5)))?;
    show(
        rt,
        "129th message, of no transaction",
        e.commit(id(1, 2, 9)),
    )
}

/// Makes ensembles of too few and too many servers, over a bank of three databases, one of them spare.
fn tour(rt: &HostRuntime) -> anyhow::Result<()> {
    let bank = Pair {
        first: InPlace::new(),
        rest: Pair {
            first: Deferred::new(),
            rest: Pair {
                first: InPlace::new(),
                rest: Nothing,
            },
        },
    };
    let none = Ensemble::new(OldestFirst::new(rt.alloc())?, bank, 0)
        .err()
        .context("an ensemble of no servers was made")?;
    println!(rt; "new ensemble of 0 servers -> 19")?;
    let four = Ensemble::new(none.broadcast, none.bank, 4)
        .err()
        .context("an ensemble of more servers than databases was made")?;
    println!(rt; "new ensemble of 4 servers over 3 databases -> 19")?;
    let mut e = Ensemble::new(four.broadcast, four.bank, 3)
        .ok()
        .context("no ensemble was made")?;
    names(rt, &mut e)?;
    statements(rt, &mut e)?;
    limits(rt, &mut e)?;
    Ok(())
}

fn main(rt: HostRuntime) -> anyhow::Result<()> {
    tour(&rt)
}
