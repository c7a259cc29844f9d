// A store that was left within some transactions.
use super::moving::{OTHER, before, fill_block, grow};
use super::{Answer, TABLE, formatted, insert_row, make_table, stands, told};
use disk_model::Memory;
use mark_move::{MarkStep, step};
use recovery::open;
use row_change::{Place, delete, locate, update};
use seg_base::{RowNo, Scn, TxnId};
use std::alloc::Global;
use std::test::Fail;
use store_core::{Store, StoreFault, prepare};
use txn_end::commit;

// Row 1, committed, and rows 2 and 3 of two active transactions: twelve records.
fn insert_three(alloc: Global, store: &mut Store<Memory>) -> Result<[Answer; 3], Fail> {
    make_table(alloc, store, 10)?;
    let first = insert_row(alloc, store, 1, b"one");
    commit(store, TxnId(1))?;
    let second = insert_row(alloc, store, 2, b"two");
    let third = insert_row(alloc, store, 3, b"three");
    store.flush_log()?;
    Ok([first, second, third])
}

fn where_is(
    alloc: Global,
    store: &mut Store<Memory>,
    row: u64,
) -> Result<Option<Place>, StoreFault> {
    locate(alloc, store, TABLE, RowNo(row), None)
}

#[test]
fn an_opening_takes_back_what_was_active(rt: HostRuntime) -> Result<(), Fail> {
    let alloc = rt.alloc();
    let mut disk = formatted(alloc)?;
    let loaded = prepare(alloc, &mut disk)?;
    let mut store = Store::over(&mut disk, loaded);
    let rows = [Answer::Row(1, 1), Answer::Row(2, 2), Answer::Row(3, 3)];
    assert_eq!(rt; insert_three(alloc, &mut store)?, rows);
    assert_eq!(rt; store.log_len(), 12);
    let _ = store.into_disk();
    let mut store = open(alloc, &mut disk)?;
    assert_eq!(rt; (store.log_len(), store.commits()), (16, Scn(1)));
    let first = stands(0, 37, 1, 0, 1);
    assert_eq!(rt; where_is(alloc, &mut store, 1), Ok(Some(first)));
    assert_eq!(rt; where_is(alloc, &mut store, 2), Ok(None));
    assert_eq!(rt; where_is(alloc, &mut store, 3), Ok(None));
    assert_eq!(rt;
        insert_row(alloc, &mut store, 1, b"four"),
        Answer::Row(4, 4)
    );
    assert_eq!(rt; commit(&mut store, TxnId(4)), Ok(Scn(2)));
    let fourth = stands(1, 37, 1, 3, 2);
    assert_eq!(rt; where_is(alloc, &mut store, 4), Ok(Some(fourth)));
    Ok(())
}

// Where rows 2 and 3 of the filled block stand.
fn second() -> Place {
    stands(1, 37, 1, 1, 1)
}

fn third() -> Place {
    stands(2, 37, 1, 2, 1)
}

// Row 1 goes to another block, row 2 is deleted, row 3 is shortened, by three transactions. The undo of the last one has no room in
// the first undo block, so that the list has 18 records with the Format and that Reuse.
fn change_each(alloc: Global, store: &mut Store<Memory>) -> Result<[Answer; 3], Fail> {
    fill_block(alloc, store)?;
    step(store, TABLE, MarkStep::Format(OTHER))?;
    let gone = grow(alloc, store, Some(OTHER));
    let deleted = told(delete(alloc, store, 3, None, TABLE, &second()));
    let shorter = told(update(alloc, store, 4, None, TABLE, &third(), b"short", None));
    store.flush_log()?;
    Ok([gone, deleted, shorter])
}

#[test]
fn each_kind_of_change_is_taken_back(rt: HostRuntime) -> Result<(), Fail> {
    let alloc = rt.alloc();
    let mut disk = formatted(alloc)?;
    let loaded = prepare(alloc, &mut disk)?;
    let mut store = Store::over(&mut disk, loaded);
    let rows = [Answer::Row(1, 2), Answer::Row(2, 3), Answer::Row(3, 4)];
    assert_eq!(rt; change_each(alloc, &mut store)?, rows);
    assert_eq!(rt; store.log_len(), 18);
    let _ = store.into_disk();
    let mut store = open(alloc, &mut disk)?;
    assert_eq!(rt; (store.log_len(), store.commits()), (24, Scn(1)));
    assert_eq!(rt; where_is(alloc, &mut store, 1), Ok(Some(before())));
    assert_eq!(rt; where_is(alloc, &mut store, 2), Ok(Some(second())));
    assert_eq!(rt; where_is(alloc, &mut store, 3), Ok(Some(third())));
    Ok(())
}
