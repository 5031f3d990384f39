use bank::{DatabaseBank, ReplicaBank};
use broadcast::Broadcast;
use deferred::Deferred;
use ensemble::Ensemble;
use in_place::InPlace;
use in_turn::InTurn;
use pairs::{Nothing, Pair};
use pronto::TransactionId;
use replica::{Database, Replica};
use statement::{Operation, Statement};
use std::test::Fail;

type Two<K> = Pair<InPlace, Pair<Deferred, K>>;

/// An in-place and a deferred database, ahead of others.
fn two<K>(rest: K) -> Two<K> {
    Pair {
        first: InPlace::new(),
        rest: Pair {
            first: Deferred::new(),
            rest,
        },
    }
}

const POST: TransactionId = TransactionId {
    server: 1,
    client: 0,
    job: 7,
};

/// A post is made, ordered and delivered at two of three servers.
fn post<B: Broadcast, K: DatabaseBank>(ensemble: &mut Ensemble<B, K>) {
    let _ = ensemble.begin(POST);
    let _ = ensemble.run(POST, 5, Operation::Add(3));
    let _ = ensemble.commit(POST);
    let _ = ensemble.order();
    let _ = ensemble.deliver(1);
    let _ = ensemble.deliver(2);
}

/// The same statement is taken in by the third and the fourth database, of which the fourth is spare for three servers; then a post is made.
fn bank_after<B: Broadcast + Drop, K: DatabaseBank + Drop>(
    broadcast: B,
    mut bank: K,
    before: Statement,
) -> Option<K> {
    let _ = bank.intake(2, &[before], 40);
    let _ = bank.intake(3, &[before], 40);
    let mut ensemble = Ensemble::new(broadcast, bank, 3).ok()?;
    post(&mut ensemble);
    let (_, after) = ensemble.into_parts();
    Some(after)
}

/// The cells 5 and 9 of the first four databases, and the mark of the fourth.
fn told<K: ReplicaBank>(bank: &K) -> [u64; 5] {
    [
        bank.cell(0, 5).unwrap_or(0),
        bank.cell(1, 5).unwrap_or(0),
        bank.cell(2, 9).unwrap_or(1),
        bank.cell(3, 9).unwrap_or(0),
        bank.mark(3),
    ]
}

#[test]
fn spare_databases_are_never_used(rt: HostRuntime) -> Result<(), Fail> {
    let before = Statement::new(9, Operation::Set(99))?;
    let bank = two(two(two(two(Nothing))));
    let after = bank_after(InTurn::new(rt.alloc())?, bank, before).ok_or(
        "eight databases suffice for three servers",
    )?;
    assert!(rt; told(&after) == [3, 3, 0, 99, 41]);
    Ok(())
}
