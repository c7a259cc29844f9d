// A table of PCTFREE 50 in a store of 64 blocks with extents of 8: its data blocks are 43 to 46, and each takes one row of 1,800
// bytes.
mod bytes;
mod steps;

ghost use Rattle.std.specs.Prelude.{◌≤◌, length};
ghost use Rattle.seg_words.specs.Types.{LONGEST_ROW};

use disk_model::Memory;
use mark_move::{MarkStep, movement, new_table, step};
use row_change::{ChangeFault, Done, Place, delete, insert, update};
use seg_base::{Dba, Lsn, Name, Obj, Rowid, Scn, Shape, TxnId, UndoAddr};
use shrink_move::{Come, Next, Shrink, ShrinkFault};
use std::alloc::Global;
use std::test::Fail;
use store_core::{Store, StoreFault, prepare};
use store_files::format;
use txn_end::commit;

mod released;

const SHAPE: Shape = Shape {
    blocks: 64,
    extent: 8,
    undo: 2,
};

const TABLE: Obj = Obj(1);

const FIRST: Dba = Dba(43);

const SECOND: Dba = Dba(44);

fn formatted(alloc: Global) -> Result<Memory, Fail> {
    let mut disk = Memory::new(alloc, b"", b"", &[])?;
    format(&mut disk, SHAPE)?;
    Ok(disk)
}

// The slot of the second row, at position 1.
fn come() -> Come {
    Come {
        place: 1,
        at: Rowid {
            dba: SECOND,
            slot: 0,
        },
    }
}

// The transaction of a change that was made, else 0.
fn changed(done: Result<Done, ChangeFault>) -> u64 {
    match &done {
        Ok(done) => done.txn.0,
        Err(_) => 0,
    }
}

fn put(alloc: Global, store: &mut Store<Memory>, own: Option<TxnId>, at: Dba, bytes: &[u8]) -> u64
    requires { length bytes.now ≤ LONGEST_ROW }
{
    changed(insert(alloc, store, 1, own, TABLE, at, bytes))
}

fn make_table(alloc: Global, store: &mut Store<Memory>) -> Result<(), Fail> {
    make_table_of(alloc, store, 50)
}

fn make_table_of(alloc: Global, store: &mut Store<Memory>, pctfree: u8) -> Result<(), Fail> {
    match Name::copy(alloc, b"t") {
        Ok(Some(name)) => {
            new_table(alloc, store, &name, pctfree)?;
        }
        _ => return Err("no name")?,
    }
    step(store, TABLE, MarkStep::Advance)?;
    step(store, TABLE, MarkStep::Format(FIRST))?;
    Ok(())
}

// Two rows, each in a block of its own, committed.
fn fill(alloc: Global, store: &mut Store<Memory>) -> Result<(u64, u64), Fail> {
    let first = put(alloc, store, None, FIRST, &[120; 1_800]);
    step(store, TABLE, MarkStep::Format(SECOND))?;
    let second = put(alloc, store, Some(TxnId(1)), SECOND, &[121; 1_800]);
    commit(store, TxnId(1))?;
    Ok((first, second))
}

fn stands(dba: Dba, nth: u8, commits: u64) -> Place {
    stands_in(dba, 0, nth, commits)
}

// Where a row stands whose image is that part of undo block 37 in its first use, when so many commits are there.
fn stands_in(dba: Dba, slot: u8, nth: u8, commits: u64) -> Place {
    Place {
        at: Rowid { dba, slot },
        born: Lsn(2),
        undo: UndoAddr {
            block: 37,
            seq: 1,
            nth,
        },
        start: Scn(commits),
        head: None,
    }
}

fn delete_first(alloc: Global, store: &mut Store<Memory>) -> u64 {
    changed(delete(alloc, store, 1, None, TABLE, &stands(FIRST, 0, 1)))
}

fn update_second(alloc: Global, store: &mut Store<Memory>) -> u64 {
    changed(update(
        alloc,
        store,
        1,
        None,
        TABLE,
        &stands(SECOND, 1, 2),
        b"z",
        None,
    ))
}

#[derive(Clone, Copy, Debug, PartialEq, Eq, Drop)]
enum Started {
    At(u32),
    Off,
    Busy(u8),
    Other,
}

// How a shrink of session 1 begins.
fn begin(alloc: Global, store: &mut Store<Memory>, busy: Option<u8>) -> Started {
    let started = Shrink::start(alloc, store, TABLE, 1, busy);
    match &started {
        Ok(shrink) => Started::At(shrink.cursor),
        Err(ShrinkFault::MovementOff) => Started::Off,
        Err(ShrinkFault::ShrinkBusy { session }) => Started::Busy(*session),
        Err(_) => Started::Other,
    }
}

fn next_step(alloc: Global, store: &mut Store<Memory>) -> Result<Next, StoreFault> {
    match Shrink::start(alloc, store, TABLE, 1, None) {
        Ok(shrink) => shrink.next(alloc, store),
        Err(_) => Err(StoreFault::NoMemory),
    }
}

#[test]
fn a_shrink_begins(rt: HostRuntime) -> Result<(), Fail> {
    let alloc = rt.alloc();
    let mut disk = formatted(alloc)?;
    let loaded = prepare(alloc, &mut disk)?;
    let mut store = Store::over(&mut disk, loaded);
    make_table(alloc, &mut store)?;
    assert_eq!(rt; begin(alloc, &mut store, Some(2)), Started::Off);
    movement(&mut store, TABLE, true)?;
    assert_eq!(rt; begin(alloc, &mut store, Some(2)), Started::Busy(2));
    assert_eq!(rt; begin(alloc, &mut store, Some(1)), Started::At(0));
    assert_eq!(rt; fill(alloc, &mut store)?, (1, 1));
    assert_eq!(rt; begin(alloc, &mut store, None), Started::At(1));
    Ok(())
}

#[test]
fn a_shrink_comes_to_a_row(rt: HostRuntime) -> Result<(), Fail> {
    let alloc = rt.alloc();
    let mut disk = formatted(alloc)?;
    let loaded = prepare(alloc, &mut disk)?;
    let mut store = Store::over(&mut disk, loaded);
    make_table(alloc, &mut store)?;
    movement(&mut store, TABLE, true)?;
    assert_eq!(rt; next_step(alloc, &mut store), Ok(Next::Bottom));
    assert_eq!(rt; fill(alloc, &mut store)?, (1, 1));
    assert_eq!(rt; next_step(alloc, &mut store), Ok(Next::NoFit(come())));
    assert_eq!(rt; delete_first(alloc, &mut store), 2);
    assert_eq!(rt; next_step(alloc, &mut store), Ok(Next::NoFit(come())));
    commit(&mut store, TxnId(2))?;
    assert_eq!(rt;
        next_step(alloc, &mut store),
        Ok(Next::ToBlock(come(), FIRST))
    );
    assert_eq!(rt; update_second(alloc, &mut store), 3);
    assert_eq!(rt;
        next_step(alloc, &mut store),
        Ok(Next::Skips(come(), TxnId(3)))
    );
    Ok(())
}
