//! Locks, former values, and each refusal.
use crate::state::InPlace;
use replica::{Database, Fault, Replica};
use statement::{Operation, Statement};
use std::test::Fail;

#[test]
fn locks_exclude(rt: HostRuntime) -> Result<(), Fail> {
    let mut database = InPlace::new();
    let read_7 = Statement::new(7, Operation::Get)?;
    let write_7 = Statement::new(7, Operation::Add(0))?;
    let read_8 = Statement::new(8, Operation::Heads)?;
    let write_8 = Statement::new(8, Operation::Set(5))?;
    database.open(0)?;
    database.open(1)?;
    database.run(0, &read_7)?;
    // Readers share, and exclude a writer.
    database.run(1, &read_7)?;
    assert_eq!(rt; database.run(1, &write_7), Err(Fault::Busy(7)));
    // The next cell is another unit, and its writer excludes readers and writers.
    database.run(1, &write_8)?;
    assert_eq!(rt; database.run(0, &read_8), Err(Fault::Busy(8)));
    assert_eq!(rt; database.run(0, &write_8), Err(Fault::Busy(8)));
    Ok(())
}

#[test]
fn first_value_comes_back(rt: HostRuntime) -> Result<(), Fail> {
    let mut database = InPlace::new();
    let add = Statement::new(3, Operation::Add(5))?;
    database.intake(&[add], 6)?;
    database.open(0)?;
    assert_eq!(rt; database.run(0, &add), Ok(10));
    assert_eq!(rt; database.run(0, &add), Ok(15));
    assert_eq!(rt; database.cell(3), Ok(5));
    database.undo(0)?;
    assert_eq!(rt; database.cell(3), Ok(5));
    database.open(1)?;
    assert_eq!(rt; database.run(1, &add), Ok(10));
    database.lose();
    assert_eq!(rt; database.cell(3), Ok(5));
    assert_eq!(rt; database.mark(), 7);
    Ok(())
}

#[test]
fn sealed_is_seen(rt: HostRuntime) -> Result<(), Fail> {
    let mut database = InPlace::new();
    let set = Statement::new(63, Operation::Set(9))?;
    let get = Statement::new(63, Operation::Get)?;
    database.open(0)?;
    database.open(7)?;
    assert_eq!(rt; database.run(0, &set), Ok(0));
    assert_eq!(rt; database.run(7, &get), Err(Fault::Busy(63)));
    database.seal(0, 6)?;
    assert_eq!(rt; database.run(7, &get), Ok(9));
    assert_eq!(rt; database.mark(), 7);
    database.clear();
    assert_eq!(rt; database.cell(63), Ok(0));
    Ok(())
}

#[test]
fn faults(rt: HostRuntime) -> Result<(), Fail> {
    let mut database = InPlace::new();
    let get = Statement::new(0, Operation::Get)?;
    assert_eq!(rt; database.cell(64), Err(Fault::NoCell));
    assert_eq!(rt; database.open(8), Err(Fault::NoSlot));
    assert_eq!(rt; database.run(7, &get), Err(Fault::SlotClosed));
    assert_eq!(rt; database.undo(7), Err(Fault::SlotClosed));
    assert_eq!(rt; database.intake(&[], u64::MAX), Err(Fault::LastPosition));
    database.open(7)?;
    assert_eq!(rt; database.open(7), Err(Fault::SlotOpen));
    assert_eq!(rt; database.seal(7, u64::MAX), Err(Fault::LastPosition));
    assert_eq!(rt; database.intake(&[], 0), Err(Fault::NotQuiet));
    Ok(())
}
