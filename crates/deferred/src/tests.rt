//! Locks in both directions, own values, and each refusal.
use crate::state::Deferred;
use replica::{Database, Fault, Replica};
use statement::{Operation, Statement};
use std::process::Abort;
use std::test::Fail;

/// Runs the operation on the cell, and compares the answer.
fn gives(
    rt: &impl Abort,
    database: &mut Deferred,
    slot: usize,
    cell: u64,
    operation: Operation,
    answer: Result<u64, Fault>,
) -> Result<(), Fail> {
    assert_eq!(rt;
        database.run(slot, &Statement::new(cell, operation)?),
        answer
    );
    Ok(())
}

fn done(rt: &impl Abort, call: Result<(), Fault>) {
    assert_eq!(rt; call, Ok(()));
}

fn refused(rt: &impl Abort, call: Result<(), Fault>, fault: Fault) {
    assert_eq!(rt; call, Err(fault));
}

/// Compares a committed value and the mark.
fn holds(rt: &impl Abort, database: &Deferred, cell: u64, value: u64, mark: u64) {
    assert_eq!(rt; database.cell(cell), Ok(value));
    assert_eq!(rt; database.mark(), mark);
}

#[test]
fn locks(rt: HostRuntime) -> Result<(), Fail> {
    let mut database = Deferred::new();
    done(&rt, database.open(0));
    done(&rt, database.open(1));
    // readers share a unit, and exclude a writer from it
    gives(&rt, &mut database, 0, 0, Operation::Get, Ok(0))?;
    gives(&rt, &mut database, 1, 7, Operation::Get, Ok(0))?;
    gives(
        &rt,
        &mut database,
        1,
        0,
        Operation::Set(5),
        Err(Fault::Busy(0)),
    )?;
    // cell 8 is in the next unit, from which its writer excludes all others
    gives(&rt, &mut database, 1, 8, Operation::Set(5), Ok(0))?;
    gives(
        &rt,
        &mut database,
        0,
        15,
        Operation::Get,
        Err(Fault::Busy(15)),
    )?;
    gives(
        &rt,
        &mut database,
        0,
        15,
        Operation::Set(1),
        Err(Fault::Busy(15)),
    )
}

#[test]
fn own_values(rt: HostRuntime) -> Result<(), Fail> {
    let mut database = Deferred::new();
    done(&rt, database.open(0));
    gives(&rt, &mut database, 0, 3, Operation::Set(5), Ok(0))?;
    gives(&rt, &mut database, 0, 3, Operation::Add(1), Ok(6))?;
    holds(&rt, &database, 3, 0, 0);
    done(&rt, database.undo(0));
    done(&rt, database.open(1));
    gives(&rt, &mut database, 1, 3, Operation::Set(9), Ok(0))?;
    done(&rt, database.seal(1, 4));
    holds(&rt, &database, 3, 9, 5);
    Ok(())
}

#[test]
fn lost_values(rt: HostRuntime) -> Result<(), Fail> {
    let mut database = Deferred::new();
    done(
        &rt,
        database.intake(&[Statement::new(3, Operation::Set(9))?], 4),
    );
    done(&rt, database.open(0));
    gives(&rt, &mut database, 0, 3, Operation::Set(1), Ok(9))?;
    database.lose();
    holds(&rt, &database, 3, 9, 5);
    done(&rt, database.intake(&[], 7));
    database.clear();
    holds(&rt, &database, 3, 0, 0);
    Ok(())
}

#[test]
fn refusals(rt: HostRuntime) -> Result<(), Fail> {
    let mut database = Deferred::new();
    assert_eq!(rt; database.cell(64), Err(Fault::NoCell));
    refused(&rt, database.open(8), Fault::NoSlot);
    gives(
        &rt,
        &mut database,
        8,
        0,
        Operation::Get,
        Err(Fault::SlotClosed),
    )?;
    refused(&rt, database.seal(0, 0), Fault::SlotClosed);
    refused(&rt, database.undo(0), Fault::SlotClosed);
    done(&rt, database.open(0));
    refused(&rt, database.open(0), Fault::SlotOpen);
    refused(&rt, database.intake(&[], 0), Fault::NotQuiet);
    refused(&rt, database.seal(0, u64::MAX), Fault::LastPosition);
    Ok(())
}
