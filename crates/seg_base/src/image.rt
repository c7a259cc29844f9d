// The 40 bytes of a slot.
ghost use Rattle.std.specs.Prelude.{◌≡◌, ◌%◌, ◌^◌};
ghost use Rattle.seg_base.specs.Images.{kind_code, kind_from, writer_tag, writer_number, writer_from, undo_or_zeros, link_or_zeros, undo_bytes, link_bytes, sizes_bytes, slot_bytes};

use crate::field::put_at;
use crate::limit::SLOT_SIZE;
use crate::number::{Dba, Scn, TxnId};
use crate::slot::{Kind, Rowid, Slot, UndoAddr, Writer};

/// The code of a kind: 0 Empty, 1 Row, 2 Head, 3 Body.
pub fn kind_code(kind: Kind) -> u8
    ensures { result ≡ kind_code kind }
{
    match kind {
        Kind::Empty => 0,
        Kind::Row => 1,
        Kind::Head => 2,
        Kind::Body => 3,
    }
}

/// The kind of a code, None exactly above 3.
pub fn kind_from(code: u8) -> Option<Kind>
    ensures { result ≡ kind_from code }
{
    match code {
        0 => Some(Kind::Empty),
        1 => Some(Kind::Row),
        2 => Some(Kind::Head),
        3 => Some(Kind::Body),
        _ => None,
    }
}

/// The tag of a writer: 0 for a commit number, 1 for a transaction.
pub fn writer_tag(writer: &Writer) -> u8
    ensures { result ≡ writer_tag writer.now }
{
    match writer {
        Writer::At(_) => 0,
        Writer::By(_) => 1,
    }
}

pub fn writer_number(writer: &Writer) -> u64
    ensures { result ≡ writer_number writer.now }
{
    match writer {
        Writer::At(number) => number.0,
        Writer::By(txn) => txn.0,
    }
}

/// The writer of a tag and a number, None exactly for a tag above 1.
pub fn writer_from(tag: u8, number: u64) -> Option<Writer>
    ensures { result ≡ writer_from tag number }
{
    match tag {
        0 => Some(Writer::At(Scn(number))),
        1 => Some(Writer::By(TxnId(number))),
        _ => None,
    }
}

/// The address, or zeros for none.
pub fn undo_or_zeros(undo: &Option<UndoAddr>) -> UndoAddr
    ensures { result ≡ undo_or_zeros undo.now }
{
    match undo {
        Some(undo) => *undo,
        None => UndoAddr {
            block: 0,
            seq: 0,
            nth: 0,
        },
    }
}

/// The place, or zeros for none.
pub fn link_or_zeros(link: &Option<Rowid>) -> Rowid
    ensures { result ≡ link_or_zeros link.now }
{
    match link {
        Some(link) => *link,
        None => Rowid {
            dba: Dba(0),
            slot: 0,
        },
    }
}

/// The 13 bytes of an address of undo.
fn undo_bytes(undo: &UndoAddr) -> [u8; 13]
    ensures { result ≡ undo_bytes undo.now }
{
    let mut bytes = [0; 13];
    put_at(&mut bytes, 0, &undo.block.to_be_bytes());
    put_at(&mut bytes, 4, &undo.seq.to_be_bytes());
    bytes[12] = undo.nth;
    bytes
}

/// The 5 bytes of a place.
fn link_bytes(link: &Rowid) -> [u8; 5]
    ensures { result ≡ link_bytes link.now }
{
    let dba = link.dba;
    let mut bytes = [0; 5];
    put_at(&mut bytes, 0, &dba.0.to_be_bytes());
    bytes[4] = link.slot;
    bytes
}

/// The 4 bytes that end a slot: how long its row is, and its room.
fn sizes_bytes(slot: &Slot) -> [u8; 4]
    ensures { result ≡ sizes_bytes slot.now }
{
    let mut bytes = [0; 4];
    put_at(&mut bytes, 0, &low_u16(slot.bytes.len()).to_be_bytes());
    put_at(&mut bytes, 2, &slot.room.to_be_bytes());
    bytes
}

/// The slot's 40 bytes; its row stands elsewhere. Of a length the lowest 16 bits are written: a longer row has no
/// spelling.
pub fn slot_bytes(slot: &Slot) -> [u8; SLOT_SIZE]
    ensures { result ≡ slot_bytes slot.now }
{
    let mut bytes = [0; SLOT_SIZE];
    bytes[0] = kind_code(slot.kind);
    bytes[1] = writer_tag(&slot.writer);
    put_at(&mut bytes, 2, &writer_number(&slot.writer).to_be_bytes());
    put_at(&mut bytes, 10, &undo_bytes(&undo_or_zeros(&slot.undo)));
    put_at(&mut bytes, 23, &slot.row.0.to_be_bytes());
    put_at(&mut bytes, 31, &link_bytes(&link_or_zeros(&slot.link)));
    put_at(&mut bytes, 36, &sizes_bytes(slot));
    bytes
}

fn low_u16(n: usize) -> u16
    ensures { result ≡ n % 2 ^ 16 }
{
    (n & 0xffff) as u16
}
