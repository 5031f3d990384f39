//! A busy afternoon: two servers lead at once, a busy one stops while its commit waits, restarts and replays (docs/acts.md).
#![tactic(auto)]

use anyhow::Context;
use bank::{DatabaseBank, ReplicaBank};
use broadcast::Broadcast;
use deferred::Deferred;
use ensemble::Ensemble;
use in_place::InPlace;
use journal::Judgement;
use message::Message;
use oldest_first::OldestFirst;
use oldest_first::rows::ordering::CAPACITY;
use pairs::{Nothing, Pair};
use playing::play_new;
use pronto::{Act, Answer, Entry, Refusal, ServerFault, TransactionId};
use replica::{CELLS, Replica};
use statement::Operation;
use std::io;

/// How many servers there are.
const COUNT: u64 = 3;

/// The first client's post, which is confirmed, and a second one of another client.
const POST: TransactionId = TransactionId {
    server: 1,
    client: 0,
    job: 7,
};

const SECOND: TransactionId = TransactionId {
    server: 1,
    client: 1,
    job: 1,
};

const THIRD: TransactionId = TransactionId {
    server: 1,
    client: 2,
    job: 4,
};

const ELSEWHERE: TransactionId = TransactionId {
    server: 2,
    client: 1,
    job: 1,
};

const LATER: TransactionId = TransactionId {
    server: 1,
    client: 0,
    job: 8,
};

/// Server 1 posts, is suspected, and stops while a commit of its waits; server 2 leads on; server 1 restarts and replays.
const AFTERNOON: [Act; 40] = [
    Act::Begin(POST),
    Act::Run(POST, 5, Operation::Add(3)),
    Act::Begin(SECOND),
    Act::Run(SECOND, 5, Operation::Get),
    Act::Run(SECOND, 6, Operation::Set(4711)),
    Act::Commit(POST),
    Act::Suspect(2),
    Act::Order,
    Act::Order,
    Act::Deliver(2),
    Act::Deliver(2),
    Act::Begin(ELSEWHERE),
    Act::Run(ELSEWHERE, 5, Operation::Add(2)),
    Act::Begin(THIRD),
    Act::Commit(SECOND),
    Act::Deliver(1),
    Act::Stop(1),
    Act::Deliver(1),
    Act::Commit(ELSEWHERE),
    Act::Start(1),
    Act::Begin(POST),
    Act::Order,
    Act::Order,
    Act::Deliver(1),
    Act::Deliver(1),
    Act::Begin(POST),
    Act::Deliver(1),
    Act::Deliver(1),
    Act::Deliver(2),
    Act::Deliver(2),
    Act::Suspect(2),
    Act::Order,
    Act::Deliver(1),
    Act::Suspect(3),
    Act::Deliver(3),
    Act::Deliver(3),
    Act::Deliver(3),
    Act::Deliver(3),
    Act::Deliver(3),
    Act::Begin(LATER),
];

/// Prints each act with its answer.
fn show_history(rt: &impl Print, history: &[Entry]) -> io::Result<()> {
    for Entry { act, answer } in history {
        println!(rt; "{act} -> {answer}")?;
    }
    Ok(())
}

/// What a deliver answered about a position, where one did.
fn judgement_of(history: &[Entry], position: u64) -> Option<Judgement> {
    history.iter().rev().find_map(|entry| match entry.answer {
        Answer::Delivered(p, judgement) if p == position => Some(judgement),
        _ => None,
    })
}

/// Prints the log with the judgements that were delivered.
fn show_log<B: Broadcast, K: DatabaseBank>(
    rt: &impl Print,
    ensemble: &Ensemble<B, K>,
    history: &[Entry],
) -> anyhow::Result<()> {
    // kept: an ensemble lends its messages by position, with no iterator, and each position is printed.
    for position in 0..ensemble.ordered() {
        let message = ensemble.message(position)?;
        match judgement_of(history, position) {
            Some(judgement) => println!(rt; "{position}: {message} -> {judgement}")?,
            None => println!(rt; "{position}: {message}")?,
        }
    }
    Ok(())
}

/// Prints the cells of a server's database that are not 0, and where the server stands.
fn show_server<B: Broadcast, K: DatabaseBank>(
    rt: &impl Print,
    ensemble: &Ensemble<B, K>,
    server: u8,
) -> anyhow::Result<()> {
    let epoch = ensemble.epoch(server)?;
    let delivered = ensemble.delivered(server)?;
    let mark = ensemble.mark(server)?;
    print!(rt; "server {server}: epoch {epoch}, delivered {delivered}, mark {mark}")?;
    // kept: an ensemble tells its cells by number, and each number is printed.
    for cell in 0..CELLS as u64 {
        let value = ensemble.cell(server, cell)?;
        if value != 0 {
            print!(rt; ", cell {cell} = {value}")?;
        }
    }
    println!(rt; "")?;
    Ok(())
}

/// Two databases, and eight.
type Two<K> = Pair<InPlace, Pair<Deferred, K>>;

type Eight = Two<Two<Two<Two<Nothing>>>>;

/// Prints what the largest ensemble takes: eight servers with their databases, and the messages of a broadcast of 128.
fn show_size(rt: &impl Print) -> io::Result<()> {
    let bytes = size_of::<Ensemble<OldestFirst, Eight>>() + CAPACITY * size_of::<Message>();
    let kibibytes = bytes / 1024;
    println!(rt; "an ensemble of eight with a broadcast of 128 takes {kibibytes} KiB")
}

/// The afternoon on an in-place and two deferred databases.
fn afternoon(rt: &HostRuntime) -> anyhow::Result<()> {
    let broadcast = OldestFirst::new(rt.alloc())?;
    let bank = Pair {
        first: InPlace::new(),
        rest: Pair {
            first: Deferred::new(),
            rest: Pair {
                first: Deferred::new(),
                rest: Nothing,
            },
        },
    };
    let mut history = Vec::with_capacity(rt.alloc(), AFTERNOON.len())?;
    let ensemble = play_new(broadcast, bank, COUNT, &AFTERNOON, &mut history)
        .ok()
        .context("the afternoon was not played")?;
    show_history(rt, history.as_slice())?;
    println!(rt; "== the log")?;
    show_log(rt, &ensemble, history.as_slice())?;
    println!(rt; "== the servers")?;
    show_server(rt, &ensemble, 1)?;
    show_server(rt, &ensemble, 2)?;
    show_server(rt, &ensemble, 3)?;
    let sent = ensemble.sent();
    let ordered = ensemble.ordered();
    let waiting = ensemble.waiting();
    println!(rt; "sent {sent}, ordered {ordered}, waiting {waiting}")?;
    show_size(rt)?;
    Ok(())
}

fn main(rt: HostRuntime) -> anyhow::Result<()> {
    afternoon(&rt)
}
