// Undo that is full, and a block whose list is.
use super::{Answer, BLOCK, TABLE, formatted, insert_row, make_table, stands, told};
use disk_model::Memory;
use row_change::{ChangeFault, Place, delete, locate, update};
use seg_base::{Dba, RowNo, Scn, TxnId};
use std::alloc::Global;
use std::test::Fail;
use store_core::{Store, prepare};
use txn_end::commit;

// Two parts of undo with an old row of this length fit in an undo block, beside one with none.
const LONG: [u8; 1_800] = [120; 1_800];

// Session 1 writes row 1 again, which it found there.
fn rewrite(alloc: Global, store: &mut Store<Memory>, own: Option<TxnId>, place: &Place) -> Answer {
    told(update(alloc, store, 1, own, TABLE, place, &LONG, None))
}

// Transaction 1 does so, and finds the row's newest image at a place of undo.
fn rewrite_own(alloc: Global, store: &mut Store<Memory>, block: u32, nth: u8) -> Answer {
    rewrite(alloc, store, Some(TxnId(1)), &stands(0, block, 1, nth, 0))
}

#[test]
fn undo_is_full_until_a_commit(rt: HostRuntime) -> Result<(), Fail> {
    let alloc = rt.alloc();
    let mut disk = formatted(alloc)?;
    let loaded = prepare(alloc, &mut disk)?;
    let mut store = Store::over(&mut disk, loaded);
    make_table(alloc, &mut store, 10)?;
    assert_eq!(rt; insert_row(alloc, &mut store, 1, &LONG), Answer::Row(1, 1));
    for (block, nth, records) in [(37, 0, 8), (37, 1, 9), (37, 2, 11), (38, 0, 12)] {
        let answer = rewrite_own(alloc, &mut store, block, nth);
        assert_eq!(rt; (answer, store.log_len()), (Answer::Row(1, 1), records));
    }
    assert_eq!(rt; rewrite_own(alloc, &mut store, 38, 1), Answer::UndoFull);
    assert_eq!(rt; store.log_len(), 12);
    assert_eq!(rt; commit(&mut store, TxnId(1)), Ok(Scn(1)));
    let last = stands(0, 38, 1, 1, 1);
    assert_eq!(rt; rewrite(alloc, &mut store, None, &last), Answer::Row(1, 2));
    assert_eq!(rt; store.log_len(), 16);
    let place = locate(alloc, &mut store, TABLE, RowNo(1), Some(TxnId(2)));
    assert_eq!(rt; place, Ok(Some(stands(0, 37, 2, 0, 1))));
    let place = locate(alloc, &mut store, TABLE, RowNo(1), None);
    assert_eq!(rt; place, Ok(Some(last)));
    Ok(())
}

// Whether a session that wants to delete row 1 is refused for want of a list entry, since these have all of them.
fn lacks_entry(alloc: Global, store: &mut Store<Memory>, who: u8, all: &[TxnId]) -> bool {
    match delete(alloc, store, who, None, TABLE, &stands(0, 37, 1, 0, 1)) {
        Err(ChangeFault::NoSlot { txns }) => txns.as_slice() == all,
        _ => false,
    }
}

#[test]
fn a_ninth_transaction_finds_no_entry(rt: HostRuntime) -> Result<(), Fail> {
    let alloc = rt.alloc();
    let mut disk = formatted(alloc)?;
    let loaded = prepare(alloc, &mut disk)?;
    let mut store = Store::over(&mut disk, loaded);
    make_table(alloc, &mut store, 10)?;
    assert_eq!(rt;
        insert_row(alloc, &mut store, 1, b"hello"),
        Answer::Row(1, 1)
    );
    assert_eq!(rt; commit(&mut store, TxnId(1)), Ok(Scn(1)));
    for (who, txn) in [
        (1, 2),
        (2, 3),
        (3, 4),
        (4, 5),
        (5, 6),
        (6, 7),
        (7, 8),
        (8, 9),
    ] {
        assert_eq!(rt;
            insert_row(alloc, &mut store, who, b"x"),
            Answer::Row(txn, txn)
        );
    }
    let all = [
        TxnId(2),
        TxnId(3),
        TxnId(4),
        TxnId(5),
        TxnId(6),
        TxnId(7),
        TxnId(8),
        TxnId(9),
    ];
    assert!(rt; lacks_entry(alloc, &mut store, 9, &all));
    assert_eq!(rt; store.log_len(), 24);
    Ok(())
}
