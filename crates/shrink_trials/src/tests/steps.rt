// Steps of shrinks, to their ends.
use super::{
    FIRST, SECOND, TABLE, bytes, changed, delete_first, formatted, make_table, make_table_of, put,
    stands, stands_in,
};
use disk_model::{File, Memory};
use mark_move::{MarkStep, movement, step};
use row_change::{Place, delete, insert, update};
use seg_base::{Dba, Lsn, Rowid, Scn, TxnId, UndoAddr};
use shrink_move::{Shrink, ShrinkFault, ShrinkStep, Stop};
use std::alloc::Global;
use std::test::Fail;
use store_core::{Store, prepare};
use txn_end::commit;

const THIRD: Dba = Dba(45);

const FOURTH: Dba = Dba(46);

// The first data block of the second extent, at position 4.
const FIFTH: Dba = Dba(48);

// What a step did, with the blocks of a Move, the slot and its transaction, or the undo block and its holder.
#[derive(Clone, Copy, Debug, PartialEq, Eq, Drop)]
enum Went {
    Moved(u32, u32),
    MovedApart(u32, u32, u32),
    Skipped(u32, u8, u64),
    NoFit(u32, u8),
    Bottom,
    Full(u32, u64),
    Other,
}

fn moved(blocks: &[Dba]) -> Went {
    match blocks {
        [from, to] => Went::Moved(from.0, to.0),
        [head, body, to] => Went::MovedApart(head.0, body.0, to.0),
        _ => Went::Other,
    }
}

fn full(holders: &[(Dba, TxnId)]) -> Went {
    match holders {
        [(block, txn)] => Went::Full(block.0, txn.0),
        _ => Went::Other,
    }
}

fn stopped(stop: &Stop) -> Went {
    match stop {
        Stop::NoFit(at) => Went::NoFit(at.dba.0, at.slot),
        Stop::Bottom => Went::Bottom,
    }
}

fn told(went: &Result<ShrinkStep, ShrinkFault>) -> Went {
    match went {
        Ok(ShrinkStep::Moved(blocks)) => moved(blocks.as_slice()),
        Ok(ShrinkStep::Skipped { at, txn }) => Went::Skipped(at.dba.0, at.slot, txn.0),
        Ok(ShrinkStep::Stopped(stop)) => stopped(stop),
        Err(ShrinkFault::UndoFull { holders }) => full(holders.as_slice()),
        Err(_) => Went::Other,
    }
}

fn took(alloc: Global, store: &mut Store<Memory>, shrink: &mut Shrink) -> Went {
    let went = shrink.step(alloc, store);
    told(&went)
}

fn three_steps(alloc: Global, store: &mut Store<Memory>, shrink: Shrink) -> [Went; 3] {
    let mut shrink = shrink;
    let first = took(alloc, store, &mut shrink);
    let second = took(alloc, store, &mut shrink);
    let third = took(alloc, store, &mut shrink);
    [first, second, third]
}

// The first three steps of a shrink that session 1 begins.
fn run(alloc: Global, store: &mut Store<Memory>) -> [Went; 3] {
    match Shrink::start(alloc, store, TABLE, 1, None) {
        Ok(shrink) => three_steps(alloc, store, shrink),
        Err(_) => [Went::Other; 3],
    }
}

// A row in a block that is formatted for it.
fn add_row(alloc: Global, store: &mut Store<Memory>, at: Dba, byte: u8) -> Result<u64, Fail> {
    step(store, TABLE, MarkStep::Format(at))?;
    Ok(put(alloc, store, Some(TxnId(1)), at, &[byte; 1_800]))
}

// A table with row movement, whose first two blocks have a row each, of transaction 1.
fn begin_rows(alloc: Global, store: &mut Store<Memory>) -> Result<(), Fail> {
    make_table(alloc, store)?;
    movement(store, TABLE, true)?;
    put(alloc, store, None, FIRST, &[120; 1_800]);
    add_row(alloc, store, SECOND, 121)?;
    Ok(())
}

fn commit_rows(store: &mut Store<Memory>) -> Result<(), Fail> {
    commit(store, TxnId(1))?;
    Ok(())
}

// Rows of 1,800, 1,800 and 100 bytes in the second of two blocks of PCTFREE 0; the last one grows to 400 and goes to the first.
fn head_above(alloc: Global, store: &mut Store<Memory>) -> Result<u64, Fail> {
    make_table_of(alloc, store, 0)?;
    movement(store, TABLE, true)?;
    step(store, TABLE, MarkStep::Format(SECOND))?;
    put(alloc, store, None, SECOND, &[121; 1_800]);
    put(alloc, store, Some(TxnId(1)), SECOND, &[122; 1_800]);
    put(alloc, store, Some(TxnId(1)), SECOND, &[120; 100]);
    commit_rows(store)?;
    let grown = grow(alloc, store, &stands_in(SECOND, 2, 2, 1), FIRST);
    commit(store, TxnId(2))?;
    Ok(grown)
}

// Rows of 100, 1,800 and 1,800 bytes in the first of them; the first one grows to 400 and goes to the second, and then the second
// row is deleted.
fn body_above(alloc: Global, store: &mut Store<Memory>) -> Result<u64, Fail> {
    make_table_of(alloc, store, 0)?;
    movement(store, TABLE, true)?;
    put(alloc, store, None, FIRST, &[120; 100]);
    put(alloc, store, Some(TxnId(1)), FIRST, &[121; 1_800]);
    put(alloc, store, Some(TxnId(1)), FIRST, &[122; 1_800]);
    commit_rows(store)?;
    step(store, TABLE, MarkStep::Format(SECOND))?;
    let grown = grow(alloc, store, &stands(FIRST, 0, 1), SECOND);
    commit(store, TxnId(2))?;
    delete_at(alloc, store, &stands_in(FIRST, 1, 1, 2));
    commit(store, TxnId(3))?;
    Ok(grown)
}

fn grow(alloc: Global, store: &mut Store<Memory>, place: &Place, to: Dba) -> u64 {
    let row = [119; 400];
    changed(update(alloc, store, 1, None, TABLE, place, &row, Some(to)))
}

// Two rows, of which the first is deleted.
fn two_rows(alloc: Global, store: &mut Store<Memory>) -> Result<(), Fail> {
    begin_rows(alloc, store)?;
    commit_rows(store)?;
    delete_first(alloc, store);
    commit(store, TxnId(2))?;
    Ok(())
}

// Three rows, of which the second is deleted.
fn three_rows(alloc: Global, store: &mut Store<Memory>) -> Result<(), Fail> {
    begin_rows(alloc, store)?;
    add_row(alloc, store, THIRD, 122)?;
    commit_rows(store)?;
    delete_at(alloc, store, &stands(SECOND, 1, 1));
    commit(store, TxnId(2))?;
    Ok(())
}

// Five rows, the last in a second extent, of which the first is deleted.
fn five_rows(alloc: Global, store: &mut Store<Memory>) -> Result<(), Fail> {
    begin_rows(alloc, store)?;
    add_row(alloc, store, THIRD, 122)?;
    add_row(alloc, store, FOURTH, 123)?;
    step(store, TABLE, MarkStep::Extend(1))?;
    step(store, TABLE, MarkStep::Advance)?;
    add_row(alloc, store, FIFTH, 124)?;
    commit_rows(store)?;
    delete_first(alloc, store);
    commit(store, TxnId(2))?;
    Ok(())
}

fn delete_at(alloc: Global, store: &mut Store<Memory>, place: &Place) -> u64 {
    changed(delete(alloc, store, 1, None, TABLE, place))
}

// Where row 5 stands, in the extent that record 15 gave the table.
fn fifth() -> Place {
    Place {
        at: Rowid {
            dba: FIFTH,
            slot: 0,
        },
        born: Lsn(15),
        undo: UndoAddr {
            block: 37,
            seq: 1,
            nth: 4,
        },
        start: Scn(2),
        head: None,
    }
}

fn update_fifth(alloc: Global, store: &mut Store<Memory>) -> u64 {
    changed(update(alloc, store, 2, None, TABLE, &fifth(), b"w", None))
}

// Session 2 puts a row into the fourth block, and goes on.
fn open_fourth(alloc: Global, store: &mut Store<Memory>) -> Result<u64, Fail> {
    step(store, TABLE, MarkStep::Format(FOURTH))?;
    Ok(changed(insert(alloc, store, 2, None, TABLE, FOURTH, b"w")))
}

// Whether the log ends with a Move of a row of these letters.
fn ends_with(
    alloc: Global,
    disk: &mut Memory,
    letter: u8,
    leaves: &[u8],
    comes: &[u8],
    behind: &[u8],
) -> Result<bool, Fail> {
    let row = [letter; 1_800];
    let mut all = Vec::from_slice(alloc, leaves)?;
    all.extend_from_slice(&row)?;
    all.extend_from_slice(comes)?;
    all.extend_from_slice(&row)?;
    all.extend_from_slice(behind)?;
    Ok(disk.bytes(File::Log).ends_with(&all))
}

fn row_2_has_moved(alloc: Global, disk: &mut Memory) -> Result<bool, Fail> {
    ends_with(
        alloc,
        disk,
        121,
        &bytes::ROW_2_LEAVES,
        &bytes::ROW_2_COMES,
        &bytes::ROW_2_STANDS,
    )
}

fn row_3_has_moved(alloc: Global, disk: &mut Memory) -> Result<bool, Fail> {
    ends_with(
        alloc,
        disk,
        122,
        &bytes::ROW_3_LEAVES,
        &bytes::ROW_3_COMES,
        &bytes::ROW_3_STANDS,
    )
}

#[test]
fn a_row_moves_down_to_the_first_block(rt: HostRuntime) -> Result<(), Fail> {
    let alloc = rt.alloc();
    let mut disk = formatted(alloc)?;
    let loaded = prepare(alloc, &mut disk)?;
    let mut store = Store::over(&mut disk, loaded);
    two_rows(alloc, &mut store)?;
    let went = [Went::Moved(44, 43), Went::Bottom, Went::Bottom];
    assert_eq!(rt; run(alloc, &mut store), went);
    assert_eq!(rt; store.flush_log(), Ok(()));
    assert!(rt; row_2_has_moved(alloc, store.into_disk())?);
    Ok(())
}

#[test]
fn a_row_moves_twice(rt: HostRuntime) -> Result<(), Fail> {
    let alloc = rt.alloc();
    let mut disk = formatted(alloc)?;
    let loaded = prepare(alloc, &mut disk)?;
    let mut store = Store::over(&mut disk, loaded);
    three_rows(alloc, &mut store)?;
    let went = [Went::Moved(45, 44), Went::NoFit(44, 0), Went::NoFit(44, 0)];
    assert_eq!(rt; run(alloc, &mut store), went);
    assert_eq!(rt; delete_at(alloc, &mut store, &stands(FIRST, 0, 3)), 3);
    assert_eq!(rt; commit(&mut store, TxnId(3)), Ok(Scn(4)));
    let went = [Went::Moved(44, 43), Went::Bottom, Went::Bottom];
    assert_eq!(rt; run(alloc, &mut store), went);
    Ok(())
}

#[test]
fn a_body_below_becomes_the_row(rt: HostRuntime) -> Result<(), Fail> {
    let alloc = rt.alloc();
    let mut disk = formatted(alloc)?;
    let loaded = prepare(alloc, &mut disk)?;
    let mut store = Store::over(&mut disk, loaded);
    assert_eq!(rt; head_above(alloc, &mut store)?, 2);
    let went = [Went::Moved(44, 43), Went::Moved(44, 43), Went::NoFit(44, 0)];
    assert_eq!(rt; run(alloc, &mut store), went);
    Ok(())
}

#[test]
fn a_body_above_goes_with_its_head(rt: HostRuntime) -> Result<(), Fail> {
    let alloc = rt.alloc();
    let mut disk = formatted(alloc)?;
    let loaded = prepare(alloc, &mut disk)?;
    let mut store = Store::over(&mut disk, loaded);
    assert_eq!(rt; body_above(alloc, &mut store)?, 2);
    let went = [Went::MovedApart(43, 44, 43), Went::Bottom, Went::Bottom];
    assert_eq!(rt; run(alloc, &mut store), went);
    Ok(())
}

#[test]
fn a_slot_of_an_active_writer_is_skipped(rt: HostRuntime) -> Result<(), Fail> {
    let alloc = rt.alloc();
    let mut disk = formatted(alloc)?;
    let loaded = prepare(alloc, &mut disk)?;
    let mut store = Store::over(&mut disk, loaded);
    five_rows(alloc, &mut store)?;
    assert_eq!(rt; update_fifth(alloc, &mut store), 3);
    let went = [
        Went::Skipped(48, 0, 3),
        Went::Moved(46, 43),
        Went::NoFit(45, 0),
    ];
    assert_eq!(rt; run(alloc, &mut store), went);
    Ok(())
}

#[test]
fn undo_is_full_for_a_move(rt: HostRuntime) -> Result<(), Fail> {
    let alloc = rt.alloc();
    let mut disk = formatted(alloc)?;
    let loaded = prepare(alloc, &mut disk)?;
    let mut store = Store::over(&mut disk, loaded);
    three_rows(alloc, &mut store)?;
    assert_eq!(rt; open_fourth(alloc, &mut store)?, 3);
    let went = [
        Went::Skipped(46, 0, 3),
        Went::Moved(45, 44),
        Went::NoFit(44, 0),
    ];
    assert_eq!(rt; run(alloc, &mut store), went);
    assert_eq!(rt; store.flush_log(), Ok(()));
    assert!(rt; row_3_has_moved(alloc, store.into_disk())?);
    let loaded = prepare(alloc, &mut disk)?;
    let mut store = Store::over(&mut disk, loaded);
    assert_eq!(rt; delete_at(alloc, &mut store, &stands(FIRST, 0, 3)), 4);
    assert_eq!(rt; commit(&mut store, TxnId(4)), Ok(Scn(4)));
    let went = [
        Went::Skipped(46, 0, 3),
        Went::Full(37, 3),
        Went::Full(37, 3),
    ];
    assert_eq!(rt; run(alloc, &mut store), went);
    Ok(())
}
