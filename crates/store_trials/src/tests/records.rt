// The records of a small run, one by one and as calls add them, and what the log and the pages then have.
use super::{Answer, BLOCK, bytes, formatted, insert_row, make_table};
use disk_model::{Disk, File, Memory};
use page_set::Page;
use redo_record::decode;
use row_block::RowBlock;
use seg_base::{Dba, FIRST_GATE, Kind, Lsn, RowNo, Scn, TXN_TABLE_BLOCK, TxnId, Writer};
use std::alloc::Global;
use std::test::Fail;
use store_core::{Store, prepare};
use txn_block::{State, TxnBlock};
use txn_end::commit;

// Adds the record of these bytes.
fn take(alloc: Global, store: &mut Store<Memory>, bytes: &[u8]) -> Result<Lsn, Fail> {
    let (rec, _) = decode(alloc, bytes, 0)?;
    Ok(store.take(&rec)?)
}

// Adds the two records of these bytes.
fn take_two(
    alloc: Global,
    store: &mut Store<Memory>,
    first: &[u8],
    second: &[u8],
) -> Result<Lsn, Fail> {
    let (first, _) = decode(alloc, first, 0)?;
    let (second, _) = decode(alloc, second, 0)?;
    Ok(store.take_two(&first, &second)?)
}

// The nine records of the run, each of which answers its number, or that of the second.
fn take_nine(alloc: Global, store: &mut Store<Memory>) -> Result<[Lsn; 7], Fail> {
    let made = take_two(alloc, store, &bytes::TABLE, &bytes::EXTEND)?;
    let advanced = take(alloc, store, &bytes::ADVANCE)?;
    let formatted = take(alloc, store, &bytes::FORMAT_BLOCK)?;
    let begun = take(alloc, store, &bytes::BEGIN)?;
    let inserted = take_two(alloc, store, &bytes::REUSE, &bytes::INSERT)?;
    store.record_commit(TxnId(1))?;
    let committed = Lsn(store.log_len());
    let cleaned = take(alloc, store, &bytes::CLEAN)?;
    Ok([
        made, advanced, formatted, begun, inserted, committed, cleaned,
    ])
}

// Adds the bytes of some records.
fn add(all: &mut Vec<u8>, records: &[&[u8]]) -> Result<(), Fail> {
    for record in records {
        all.extend_from_slice(record)?;
    }
    Ok(())
}

// The log from its first gate on: the group of the first eight records, 240 bytes, and that of the last, 22 bytes.
fn both_groups(alloc: Global) -> Result<Vec<u8>, Fail> {
    let mut all = Vec::from_slice(alloc, &[1, 0, 0, 0, 240])?;
    add(
        &mut all,
        &[
            &bytes::TABLE,
            &bytes::EXTEND,
            &bytes::ADVANCE,
            &bytes::FORMAT_BLOCK,
        ],
    )?;
    add(
        &mut all,
        &[
            &bytes::BEGIN,
            &bytes::REUSE,
            &bytes::INSERT,
            &bytes::COMMIT,
            &[1, 0, 0, 0, 22],
            &bytes::CLEAN,
            &[0],
        ],
    )?;
    Ok(all)
}

// Whether the log has both groups and nothing behind them.
fn has_both_groups(alloc: Global, disk: &mut Memory) -> Result<bool, Fail> {
    let want = both_groups(alloc)?;
    let mut seen = [7; 300];
    let len = disk.read(File::Log, FIRST_GATE, &mut seen)?;
    Ok(seen.get(..len) == Some(want.as_slice()))
}

// What a row block says of itself, and of its slot 0 and its entry 0.
fn block_is(block: &RowBlock) -> bool {
    let slot = match block.slot(0) {
        Some(slot) => slot,
        None => return false,
    };
    let counts = (block.lsn(), block.slots(), block.entries()) == (Lsn(9), 1, 2);
    let row = (slot.kind, slot.writer, slot.row) == (Kind::Row, Writer::At(Scn(1)), RowNo(1));
    let bytes = slot.bytes.as_slice() == b"hello".as_slice() && slot.room == 5;
    counts && row && bytes && block.entry(0) == Some((TxnId(0), Scn(0)))
}

// What the transaction table says of itself, and of its entry 0.
fn table_is(table: &TxnBlock) -> bool {
    let last = (table.lsn(), table.last_txn(), table.last_row()) == (Lsn(8), TxnId(1), RowNo(1));
    let undo = (table.control(), table.current_undo()) == (Scn(0), Some(37));
    last && undo && table.entry(0) == Some((TxnId(1), State::Committed(Scn(1))))
}

// Whether a block has the page that the nine records make of it.
fn page_is(store: &mut Store<Memory>, dba: Dba) -> Result<bool, Fail> {
    match store.page(dba)? {
        Page::Rows(block) => Ok(block_is(block)),
        Page::Txns(table) => Ok(table_is(table)),
        _ => Ok(false),
    }
}

#[test]
fn nine_records_are_taken_and_replayed(rt: HostRuntime) -> Result<(), Fail> {
    let alloc = rt.alloc();
    let mut disk = formatted(alloc)?;
    let loaded = prepare(alloc, &mut disk)?;
    let mut store = Store::over(&mut disk, loaded);
    let numbers = [Lsn(2), Lsn(3), Lsn(4), Lsn(5), Lsn(7), Lsn(8), Lsn(9)];
    assert_eq!(rt; take_nine(alloc, &mut store)?, numbers);
    assert_eq!(rt; store.flush_log(), Ok(()));
    assert!(rt; has_both_groups(alloc, store.into_disk())?);
    let loaded = prepare(alloc, &mut disk)?;
    let mut store = Store::over(&mut disk, loaded);
    assert_eq!(rt; (store.log_len(), store.commits()), (9, Scn(1)));
    assert!(rt; page_is(&mut store, BLOCK)?);
    assert!(rt; page_is(&mut store, Dba(TXN_TABLE_BLOCK))?);
    Ok(())
}

#[test]
fn calls_add_these_very_records(rt: HostRuntime) -> Result<(), Fail> {
    let alloc = rt.alloc();
    let mut disk = formatted(alloc)?;
    let loaded = prepare(alloc, &mut disk)?;
    let mut store = Store::over(&mut disk, loaded);
    make_table(alloc, &mut store, 10)?;
    assert_eq!(rt;
        insert_row(alloc, &mut store, 1, b"hello"),
        Answer::Row(1, 1)
    );
    assert_eq!(rt; commit(&mut store, TxnId(1)), Ok(Scn(1)));
    assert_eq!(rt; take(alloc, &mut store, &bytes::CLEAN)?, Lsn(9));
    assert_eq!(rt; store.flush_log(), Ok(()));
    assert!(rt; has_both_groups(alloc, store.into_disk())?);
    Ok(())
}
