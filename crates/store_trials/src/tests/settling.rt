// A row block that names four transactions, settled: one that committed, one that is active, one that was rolled back, and one
// that is forgotten.
use super::{Answer, BLOCK, TABLE, formatted, insert_row, make_table};
use disk_model::{File, Memory};
use redo_record::{BeginRecord, Record};
use seg_base::{Scn, TxnId};
use space_usage::settle;
use std::alloc::Global;
use std::test::Fail;
use store_core::{Store, prepare};
use txn_end::{back_step, commit, end_back};

// Transactions 2 to 96, of sessions that change nothing, commit: then each entry of the transaction table is used, and the next
// transaction takes the entry of transaction 1, whose commit is the oldest.
fn use_entries(store: &mut Store<Memory>) -> Result<(), Fail> {
    for entry in 1..96u8 {
        let txn = TxnId(u64::from(entry) + 1);
        store.take(&Record::Begin(BeginRecord {
            txn,
            session: 2,
            entry,
            control: Scn(0),
        }))?;
        store.record_commit(txn)?;
    }
    Ok(())
}

// Whether transaction 99 is taken back in one step, and ended.
fn is_back(alloc: Global, store: &mut Store<Memory>) -> Result<bool, Fail> {
    let one = back_step(alloc, store, TxnId(99))?.is_some();
    let none = back_step(alloc, store, TxnId(99))?.is_none();
    end_back(alloc, store, TxnId(99))?;
    Ok(one && none)
}

// Rows of 33, 900, 900 and 20 bytes. Transaction 1 commits and is forgotten, 97 commits, 98 stays active, and 99 is taken back:
// its slot is empty again and names none, though its list entry still does. The list has three entries, since 97 took that of
// transaction 1. So the slots take 4 * 40 + 33 + 900 + 900 bytes and the third entry 24, and 2,015 of 4,032 bytes are free: one
// less than half.
fn make_block(alloc: Global, store: &mut Store<Memory>) -> Result<[Answer; 4], Fail> {
    make_table(alloc, store, 10)?;
    let forgotten = insert_row(alloc, store, 1, &[120; 33]);
    commit(store, TxnId(1))?;
    use_entries(store)?;
    let committed = insert_row(alloc, store, 1, &[121; 900]);
    let active = insert_row(alloc, store, 2, &[122; 900]);
    let back = insert_row(alloc, store, 3, &[119; 20]);
    commit(store, TxnId(97))?;
    Ok([forgotten, committed, active, back])
}

// The group of the Clean and the Class, 73 bytes, and the closed gate behind it. The Clean has the ended transactions in rising
// order: 1 without a number, 97 with commit 97, and 99 without a number. The Class has the code of Fs2, which is then the best
// code of both bitmap blocks.
const SETTLED: [u8; 79] = [
    1, 0, 0, 0, 73, 19, 0, 0, 0, 43, 3, 0, 0, 0, 0, 0, 0, 0, 1, 0, 0, 0, 0, 0, 0, 0, 0, 0, 0, 0, 0,
    0, 0, 0, 97, 0, 0, 0, 0, 0, 0, 0, 97, 0, 0, 0, 0, 0, 0, 0, 99, 0, 0, 0, 0, 0, 0, 0, 0, 5, 1, 0,
    0, 0, 43, 3, 0, 0, 0, 40, 0, 0, 0, 41, 0, 0, 3, 3, 0,
];

#[test]
fn a_block_of_four_transactions_is_settled(rt: HostRuntime) -> Result<(), Fail> {
    let alloc = rt.alloc();
    let mut disk = formatted(alloc)?;
    let loaded = prepare(alloc, &mut disk)?;
    let mut store = Store::over(&mut disk, loaded);
    let rows = [
        Answer::Row(1, 1),
        Answer::Row(2, 97),
        Answer::Row(3, 98),
        Answer::Row(4, 99),
    ];
    assert_eq!(rt; make_block(alloc, &mut store)?, rows);
    assert!(rt; is_back(alloc, &mut store)?);
    store.flush_log()?;
    assert_eq!(rt; (store.log_len(), store.commits()), (207, Scn(97)));
    assert_eq!(rt; settle(alloc, &mut store, TABLE, BLOCK), Ok(true));
    assert_eq!(rt; settle(alloc, &mut store, TABLE, BLOCK), Ok(false));
    assert_eq!(rt; store.log_len(), 209);
    store.flush_log()?;
    let disk = store.into_disk();
    assert!(rt; disk.bytes(File::Log).ends_with(&SETTLED));
    Ok(())
}
