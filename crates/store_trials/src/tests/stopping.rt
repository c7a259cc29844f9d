// A store whose disk stops, and what an opening makes of what a crash then leaves.
use super::{Answer, TABLE, formatted, insert_row, make_table};
use disk_model::{Disk, Memory, Stopping, Tear};
use recovery::open;
use row_change::locate;
use seg_base::{RowNo, Scn, TxnId};
use std::alloc::Global;
use std::test::Fail;
use store_core::{Store, StoreFault, prepare};
use txn_end::{back_step, commit};

const FAULT: StoreFault = StoreFault::DeviceFault;

// A session inserts a row and commits. Each commit writes its group and then the group's gate.
fn commit_row<D: Disk>(alloc: Global, store: &mut Store<D>, who: u8) -> Option<Scn> {
    match insert_row(alloc, store, who, b"hello") {
        Answer::Row(_, txn) => commit(store, TxnId(txn)).ok(),
        _ => None,
    }
}

// How many of two commits are acknowledged.
fn commit_two<D: Disk>(alloc: Global, store: &mut Store<D>) -> Result<u64, Fail> {
    make_table(alloc, store, 10)?;
    match commit_row(alloc, store, 1) {
        None => Ok(0),
        Some(_) => match commit_row(alloc, store, 2) {
            None => Ok(1),
            Some(_) => Ok(2),
        },
    }
}

fn run_on<D: Disk>(alloc: Global, disk: &mut D) -> Result<u64, Fail> {
    match prepare(alloc, disk) {
        Ok(loaded) => commit_two(alloc, &mut Store::over(disk, loaded)),
        Err(_) => Ok(0),
    }
}

// How many commits are acknowledged on a disk that stops after so many writes, and that disk.
fn stopped(alloc: Global, writes: u64) -> Result<(u64, Memory), Fail> {
    let mut disk = Stopping::new(formatted(alloc)?, writes);
    let commits = run_on(alloc, &mut disk)?;
    Ok((commits, disk.into_disk()))
}

// How many records and commits the store of a disk has when it is opened.
fn opened(alloc: Global, disk: &mut Memory) -> Result<(u64, u64), Fail> {
    let store = open(alloc, disk)?;
    Ok((store.log_len(), store.commits().0))
}

// The same of a crash on that disk now.
fn opened_after(alloc: Global, disk: &Memory, tear: Tear) -> Result<(u64, u64), Fail> {
    let mut after = disk.crashed(disk.moment(), tear)?;
    opened(alloc, &mut after)
}

#[test]
fn each_stop_leaves_what_was_acknowledged(rt: HostRuntime) -> Result<(), Fail> {
    let alloc = rt.alloc();
    let (none, one, two) = ((0, 0), (8, 1), (11, 2));
    let cases = [
        (0, 0, none, none),
        (1, 0, none, none),
        (2, 0, none, one),
        (3, 1, one, one),
        (4, 1, one, two),
        (5, 2, two, two),
    ];
    for (writes, commits, old, new) in cases {
        let (made, disk) = stopped(alloc, writes)?;
        assert_eq!(rt; made, commits, "{writes} writes");
        assert_eq!(rt;
            opened_after(alloc, &disk, Tear::Old)?,
            old,
            "{writes} writes"
        );
        assert_eq!(rt;
            opened_after(alloc, &disk, Tear::Zero)?,
            old,
            "{writes} writes"
        );
        assert_eq!(rt;
            opened_after(alloc, &disk, Tear::New)?,
            new,
            "{writes} writes"
        );
    }
    Ok(())
}

#[test]
fn a_spent_store_answers_its_fault(rt: HostRuntime) -> Result<(), Fail> {
    let alloc = rt.alloc();
    let mut disk = Stopping::new(formatted(alloc)?, 1);
    let loaded = prepare(alloc, &mut disk)?;
    let mut store = Store::over(&mut disk, loaded);
    make_table(alloc, &mut store, 10)?;
    assert_eq!(rt; commit_row(alloc, &mut store, 1), None);
    assert_eq!(rt; (store.spent(), store.log_len()), (true, 8));
    assert_eq!(rt;
        insert_row(alloc, &mut store, 2, b"x"),
        Answer::Store(FAULT)
    );
    assert_eq!(rt; commit(&mut store, TxnId(1)), Err(FAULT));
    assert_eq!(rt; store.flush_log(), Err(FAULT));
    assert_eq!(rt;
        locate(alloc, &mut store, TABLE, RowNo(1), None),
        Err(FAULT)
    );
    assert!(rt; back_step(alloc, &mut store, TxnId(1)).is_err());
    assert_eq!(rt; store.log_len(), 8);
    Ok(())
}
