ghost use Rattle.std.specs.Prelude.{◌≡◌, ◌≤◌, IfOk};
ghost use Rattle.page_bytes.specs.Types.{room_as, HasSlotForm};
ghost use Rattle.row_block.specs.RowPage.{IsImage};

use super::*;
use seg_base::{
    BLOCK_ROOM, BLOCK_SIZE, Class, Dba, Ended, Kind, ListEntry, Lsn, NoMemory, RowNo, Scn, Slot,
    Taker, Text, TxnId, Writer,
};
use std::alloc::Global;
use std::test::Fail;

/// The transactions below this number have ended.
#[derive(Drop)]
struct EndedBelow(u64);

impl Ended for EndedBelow {
    ghost use Rattle.std.specs.Prelude.{nat_lt};

    ghost has_ended = { λ e t. nat_lt t e.0 };

    fn ended(&self, txn: TxnId) -> bool {
        txn.0 < self.0
    }
}

/// A row of so many letters x.
fn row(alloc: Global, writer: Writer, len: u16, room: u16) -> Result<Slot, NoMemory>
    requires len { len ≤ room }
    requires room { room ≤ BLOCK_ROOM }
    requires writer { room_as writer len room ≡ room }
    ensures image { IfOk result (λ slot. IsImage slot) }
    ensures form { IfOk result (λ slot. HasSlotForm slot) }
{
    let bytes = Text::from_vec(vec![in alloc; b'x'; len as usize]?);
    Ok(Slot {
        kind: Kind::Row,
        writer,
        undo: None,
        row: RowNo(1),
        link: None,
        bytes,
        room,
    })
}

/// An Empty slot.
fn empty(alloc: Global) -> Slot
    ensures image { IsImage result }
    ensures form { HasSlotForm result }
{
    Slot {
        kind: Kind::Empty,
        writer: Writer::At(Scn(0)),
        undo: None,
        row: RowNo(0),
        link: None,
        bytes: Text::empty(alloc),
        room: 0,
    }
}

/// What a refusal for want of room says: what is needed and what is free.
fn want<T: Drop>(answer: Result<T, BlockFault>) -> (u16, u16) {
    match answer {
        Err(BlockFault::NoRoom { need, free }) => (need, free),
        _ => (0, 0),
    }
}

// The room of a block as the rules state it: a row of 1,800 bytes, its growth, what else goes in, what a clean gives back.
#[test]
fn a_row_takes_its_room(rt: HostRuntime) -> Result<(), Fail> {
    let alloc = rt.alloc();
    let none = EndedBelow(0);
    let mut block = RowBlock::new(alloc, Dba(43));
    assert_eq!(rt; block.class(&none, 50), Class::Fs4);
    assert_eq!(rt; block.enter_txn(&none, TxnId(1))?, 0);
    block.set_slot(&none, 0, row(alloc, Writer::By(TxnId(1)), 1800, 1800)?)?;
    assert_eq!(rt; (block.free(&none), block.slots()), (2192, 1));
    for (len, fits) in [(3992, true), (3993, false)] {
        assert_eq!(rt; block.fits(&none, 0, len, &Taker::Open(TxnId(1))), fits);
    }
    for (pctfree, len, takes) in [
        (0, 2152, true),
        (0, 2153, false),
        (50, 136, true),
        (50, 137, false),
    ] {
        assert_eq!(rt; block.takes(&none, pctfree, len, &Taker::New), takes);
    }
    block.clean(&[(TxnId(1), Scn(7))]);
    assert_eq!(rt; block.entry(0), Some((TxnId(0), Scn(0))));
    assert_eq!(rt; block.slot(0).map(|s| s.writer), Some(Writer::At(Scn(7))));
    Ok(())
}

// Eight entries: a ninth transaction is refused while all of them are active.
#[test]
fn eight_entries_are_all(rt: HostRuntime) -> Result<(), Fail> {
    let alloc = rt.alloc();
    let none = EndedBelow(0);
    let mut block = RowBlock::new(alloc, Dba(43));
    for t in 1..9u8 {
        assert_eq!(rt; block.enter_txn(&none, TxnId(u64::from(t)))?, t - 1);
    }
    assert_eq!(rt; block.free(&none), 3888);
    assert!(rt;
        matches!(block.enter_txn(&none, TxnId(9)), Err(BlockFault::NoSlot { txns }) if txns.len() == 8)
    );
    assert_eq!(rt; block.entry_for(&EndedBelow(4), TxnId(9)), Some(0));
    Ok(())
}

// A hundred slots: a third entry takes the room that is left, and then each change is refused.
#[test]
fn a_hundred_slots_are_all(rt: HostRuntime) -> Result<(), Fail> {
    let alloc = rt.alloc();
    let none = EndedBelow(0);
    let mut block = RowBlock::new(alloc, Dba(43));
    for n in 0..100u8 {
        if n <= block.slots() {
            block.set_slot(&none, n, empty(alloc))?;
        }
    }
    assert_eq!(rt; (block.free(&none), block.slots()), (32, 100));
    for t in 1..4 {
        block.enter_txn(&none, TxnId(t))?;
    }
    assert_eq!(rt; want(block.enter_txn(&none, TxnId(4))), (24, 8));
    Ok(())
}

/// Where a page with one byte changed is wrong.
fn wrong_at(alloc: Global, page: &[u8; BLOCK_SIZE], at: usize, byte: u8) -> Option<u16> {
    let mut page = *page;
    if at < BLOCK_SIZE {
        page[at] = byte;
    }
    match RowBlock::decode(alloc, &page) {
        Err(BlockFault::BadPage { offset }) => Some(offset),
        _ => None,
    }
}

/// A block with one row of five letters and room for nine, and an entry of its writer, written on a page.
fn written(alloc: Global) -> Result<[u8; BLOCK_SIZE], BlockFault> {
    let mut block = RowBlock::new(alloc, Dba(43));
    block.set_lsn(Lsn(6));
    block.enter_txn(&EndedBelow(0), TxnId(1))?;
    let slot = row(alloc, Writer::By(TxnId(1)), 5, 9)?;
    if block.can_put(0, &slot) {
        block.put_slot(0, slot)?;
    }
    let mut page = [1; BLOCK_SIZE];
    block.duplicate(alloc)?.encode(&mut page);
    Ok(page)
}

// The layout of a page, what is written is read, and each field's first wrong byte.
#[test]
fn a_page_is_written_and_read(rt: HostRuntime) -> Result<(), Fail> {
    let alloc = rt.alloc();
    let page = written(alloc)?;
    assert_eq!(rt;
        &page[..24],
        [
            11, 2, 1, 0, 0, 0, 0, 43, 0, 0, 0, 0, 0, 0, 0, 6, 0, 0, 0, 0, 0, 0, 0, 1
        ]
        .as_slice()
    );
    assert_eq!(rt;
        &page[100..109],
        [0, 5, 0, 9, b'x', b'x', b'x', b'x', b'x'].as_slice()
    );
    let read = RowBlock::decode(alloc, &page)?;
    assert_eq!(rt;
        (read.dba(), read.lsn(), read.slots()),
        (Dba(43), Lsn(6), 1)
    );
    for (at, byte, wrong) in [
        (0, 255, Some(0)),
        (1, 1, Some(1)),
        (1, 9, Some(1)),
        (32, 1, Some(32)),
        (64, 4, Some(64)),
        (64, 0, Some(101)),
        (65, 0, Some(103)),
        (101, 4, Some(108)),
        (4095, 1, Some(4095)),
        (104, b'j', None),
    ] {
        assert_eq!(rt;
            wrong_at(alloc, &page, at, byte),
            wrong,
            "byte {at} as {byte}"
        );
    }
    Ok(())
}
