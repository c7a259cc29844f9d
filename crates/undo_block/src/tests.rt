use crate::{Part, UndoBlock, UndoFault, have_part_form};
use seg_base::{
    BLOCK_SIZE, Dba, Ended, Kind, NoMemory, RowNo, Slot, Text, TxnId, UndoAddr, UndoPlace, Writer,
};
use std::alloc::Global;
use std::test::Fail;

/// Transactions below a number have ended.
struct Below(u64);

impl Ended for Below {
    ghost use Rattle.std.specs.Prelude.{nat_lt};

    ghost has_ended = { λ b t. nat_lt t b.0 };

    fn ended(&self, txn: TxnId) -> bool {
        txn.0 < self.0
    }
}

/// A part of a transaction on slot 3 of block 43, whose row had so many letters.
fn part(alloc: Global, txn: u64, len: usize) -> Result<Part, NoMemory> {
    let letters = [b'x'; 1800];
    let (row, _) = letters.split_at(len.min(1800));
    Ok(Part {
        txn: TxnId(txn),
        previous: Some(UndoPlace { block: 37, nth: 2 }),
        dba: Dba(43),
        slot: 3,
        parts: 1,
        old: Slot {
            kind: Kind::Row,
            writer: Writer::By(TxnId(txn)),
            undo: Some(UndoAddr {
                block: 37,
                seq: 1,
                nth: 0,
            }),
            row: RowNo(7),
            link: None,
            bytes: Text::copy(alloc, row)?,
            room: 1800,
        },
    })
}

/// Adds parts that have a spelling.
fn append(block: &mut UndoBlock, parts: &[Part]) -> Result<u8, UndoFault> {
    if !have_part_form(parts) {
        return Err(UndoFault::BadPage { offset: 0 });
    }
    block.append(parts)
}

// Two parts of 1,800 bytes leave 304 of 4,032 bytes, so a third finds no room. A move's part holds no block.
#[test]
fn parts_stand_by_place(rt: HostRuntime) -> Result<(), Fail> {
    let alloc = rt.alloc();
    let mut block = UndoBlock::new(alloc, Dba(37));
    let first = [part(alloc, 9, 1800)?];
    assert_eq!(rt; append(&mut block, &first), Ok(0));
    let second = [part(alloc, 5, 1800)?];
    assert_eq!(rt; append(&mut block, &second), Ok(1));
    assert_eq!(rt; block.used(), 3728);
    assert_eq!(rt;
        append(&mut block, &first),
        Err(UndoFault::NoRoom {
            need: 1864,
            free: 304
        })
    );
    let move_parts = [part(alloc, 0, 0)?];
    assert_eq!(rt; append(&mut block, &move_parts), Ok(2));
    assert_eq!(rt; block.count(), 3);
    assert_eq!(rt; block.holder(&Below(1)), Some(TxnId(5)));
    assert_eq!(rt; block.holder(&Below(6)), Some(TxnId(9)));
    assert_eq!(rt; block.holder(&Below(10)), None);
    assert!(rt; matches!(block.nth(1), Some(p) if p.txn == TxnId(5) && p.old.bytes.len() == 1800));
    assert!(rt; block.nth(3).is_none());
    Ok(())
}

// One part of transaction 9 with the row `xx`, at the places that the format gives it.
#[test]
fn a_page_has_one_spelling(rt: HostRuntime) -> Result<(), Fail> {
    let alloc = rt.alloc();
    let mut block = UndoBlock::new(alloc, Dba(37));
    let parts = [part(alloc, 9, 2)?];
    assert_eq!(rt; append(&mut block, &parts), Ok(0));
    let mut page = [0; BLOCK_SIZE];
    block.encode(&mut page);
    assert_eq!(rt; page[0], 6);
    assert_eq!(rt; page[7], 37);
    assert_eq!(rt; page[25], 66);
    assert_eq!(rt; page[27], 1);
    assert_eq!(rt; page[64 + 7], 9);
    assert_eq!(rt; page[64 + 11], 37);
    assert_eq!(rt; page[64 + 12], 2);
    assert_eq!(rt; page[64 + 16], 43);
    assert_eq!(rt; page[64 + 17], 3);
    assert_eq!(rt; page[64 + 18], 1);
    assert_eq!(rt; page[64 + 24], 1);
    assert_eq!(rt; page[64 + 64], b'x');
    let again = UndoBlock::decode(alloc, &page);
    assert!(rt; again.is_ok());
    if let Ok(again) = again {
        assert_eq!(rt; again.sequence(), 0);
        assert_eq!(rt; again.used(), 66);
        assert!(rt; matches!(again.nth(0), Some(p) if p.old.row == RowNo(7)));
    }
    page[27] = 2;
    assert_eq!(rt;
        UndoBlock::decode(alloc, &page).err(),
        Some(UndoFault::BadPage { offset: 25 })
    );
    Ok(())
}
