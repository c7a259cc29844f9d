use super::*;
use page_bytes::{PageFault, PageForm, decode};
use seg_base::{BLOCK_SIZE, Dba, Lsn, RowNo, Scn, TxnId, UndoAddr};
use std::test::Fail;

/// Puts an entry's bytes, with the commit number in its last byte, into a page.
fn put_entry(page: &mut [u8; BLOCK_SIZE], i: u8, txn: u8, state: u8, number: u8) {
    if i < 96 {
        let at = 48 + 32 * usize::from(i);
        page[at + 7] = txn;
        page[at + 8] = state;
        page[at + 16] = number;
    }
}

/// The numbers before the entries: control number 2, last transaction 200, last row 9, undo block 37.
fn put_numbers(page: &mut [u8; BLOCK_SIZE]) {
    page[0] = 2;
    page[7] = 1;
    page[15] = 8;
    page[23] = 2;
    page[31] = 200;
    page[39] = 9;
    page[43] = 37;
}

// What each byte of the page means, which no clause can say, and what the table tells of its transactions.
#[test]
fn table_is_read_and_written_back(rt: HostRuntime) -> Result<(), Fail> {
    let alloc = rt.alloc();
    let mut page = [0; BLOCK_SIZE];
    put_numbers(&mut page);
    put_entry(&mut page, 0, 1, 2, 5);
    put_entry(&mut page, 1, 2, 3, 0);
    put_entry(&mut page, 2, 3, 1, 0);
    page[48 + 64 + 20] = 37;
    page[48 + 64 + 28] = 1;
    page[48 + 64 + 29] = 4;
    let table: TxnBlock = decode(alloc, &page)?;
    assert_eq!(rt; table.dba(), Dba(1));
    assert_eq!(rt; table.lsn(), Lsn(8));
    assert_eq!(rt; table.control(), Scn(2));
    assert_eq!(rt; table.last_row(), RowNo(9));
    assert_eq!(rt; table.current_undo(), Some(37));
    assert_eq!(rt; table.entry(1), Some((TxnId(2), State::RolledBack)));
    assert_eq!(rt; table.entry(3), None);
    assert_eq!(rt; table.entry(96), None);
    assert_eq!(rt; table.entry_of(TxnId(3)), Some(2));
    assert_eq!(rt; table.next_entry(), Some((3, Scn(2))));
    let undo = UndoAddr {
        block: 37,
        seq: 1,
        nth: 4,
    };
    assert_eq!(rt; table.last_undo(TxnId(3)), Some(undo));
    assert_eq!(rt; table.last_undo(TxnId(1)), None);
    assert!(rt; table.last_txn() == TxnId(200));
    assert_eq!(rt; table.state_of(TxnId(1)), State::Committed(Scn(5)));
    assert_eq!(rt; table.state_of(TxnId(3)), State::Active);
    assert_eq!(rt; table.state_of(TxnId(4)), State::Forgotten);
    let mut again = [1; BLOCK_SIZE];
    table.write(&mut again);
    assert!(rt; again == page);
    Ok(())
}

// Which entry is used next once each was used.
#[test]
fn entries_are_used_again(rt: HostRuntime) -> Result<(), Fail> {
    let alloc = rt.alloc();
    let mut page = [0; BLOCK_SIZE];
    put_numbers(&mut page);
    for i in 0..96u8 {
        put_entry(&mut page, i, i + 1, 1, 0);
    }
    let table: TxnBlock = decode(alloc, &page)?;
    assert_eq!(rt; table.next_entry(), None);
    put_entry(&mut page, 20, 21, 2, 7);
    put_entry(&mut page, 30, 31, 2, 6);
    let table: TxnBlock = decode(alloc, &page)?;
    assert_eq!(rt; table.next_entry(), Some((30, Scn(6))));
    put_entry(&mut page, 40, 41, 3, 0);
    let table: TxnBlock = decode(alloc, &page)?;
    assert_eq!(rt; table.next_entry(), Some((40, Scn(2))));
    Ok(())
}

// Pages that are no spelling, and the first wrong byte of each.
#[test]
fn what_is_no_table_is_refused(rt: HostRuntime) -> Result<(), Fail> {
    let alloc = rt.alloc();
    let mut page = [0; BLOCK_SIZE];
    TxnBlock::new(alloc, Dba(1))?.write(&mut page);
    for (place, byte) in [(0usize, 3u8), (3, 1), (45, 1), (56, 4), (60, 1), (3120, 1)] {
        let mut changed = page;
        if place < BLOCK_SIZE {
            changed[place] = byte;
        }
        let bad: Result<TxnBlock, PageFault> = decode(alloc, &changed);
        assert_eq!(rt;
            bad.err(),
            Some(PageFault::BadPage {
                offset: place as u16
            }),
            "byte {byte} at {place}"
        );
    }
    Ok(())
}
