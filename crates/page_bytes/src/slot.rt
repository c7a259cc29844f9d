// What the 40 bytes of a slot read as.
ghost use Rattle.std.specs.Prelude.{◌≡◌, ◌<◌, ◌^◌, length, IfOk};
ghost use Rattle.page_bytes.specs.Slots.{fields_in, kind_as, writer_as, undo_as, link_as, len_as, room_as, row_len, slot_as};

use crate::field::{number_u16, number_u32, number_u64};
use seg_base::{Dba, Kind, NoMemory, RowNo, Rowid, Scn, Slot, Text, TxnId, UndoAddr, Writer};
use std::alloc::Global;

/// The fields of a slot as they stand in its bytes.
#[derive(Clone, Copy, Debug, Drop)]
pub struct SlotFields {
    pub kind: u8,
    pub tag: u8,
    pub writer: u64,
    pub undo_block: u32,
    pub undo_seq: u64,
    pub undo_nth: u8,
    pub row: u64,
    pub link_block: u32,
    pub link_slot: u8,
    pub len: u16,
    pub room: u16,
}

fn kind_as(code: u8) -> Kind
    ensures { result ≡ kind_as code }
{
    match code {
        1 => Kind::Row,
        2 => Kind::Head,
        3 => Kind::Body,
        _ => Kind::Empty,
    }
}

fn writer_as(tag: u8, number: u64) -> Writer
    ensures { result ≡ writer_as tag number }
{
    match tag {
        1 => Writer::By(TxnId(number)),
        _ => Writer::At(Scn(number)),
    }
}

/// An address of undo, none where its block is 0.
pub fn undo_as(block: u32, seq: u64, nth: u8) -> Option<UndoAddr>
    ensures { result ≡ undo_as block seq nth }
{
    match block {
        0 => None,
        block => Some(UndoAddr { block, seq, nth }),
    }
}

fn link_as(block: u32, slot: u8) -> Option<Rowid>
    ensures { result ≡ link_as block slot }
{
    match block {
        0 => None,
        block => Some(Rowid {
            dba: Dba(block),
            slot,
        }),
    }
}

fn len_as(kind: Kind, len: u16) -> u16
    ensures { result ≡ len_as kind len }
{
    match kind {
        Kind::Empty | Kind::Head => 0,
        Kind::Row | Kind::Body => len,
    }
}

fn room_as(writer: &Writer, len: u16, room: u16) -> u16
    ensures { result ≡ room_as writer.now len room }
{
    match writer {
        Writer::At(_) => len,
        Writer::By(_) => len.max(room),
    }
}

impl SlotFields {
    /// The fields in a slot's bytes.
    pub fn read(bytes: &[u8]) -> SlotFields
        requires { length bytes.now ≡ 40 }
        ensures { result ≡ fields_in bytes.now }
    {
        SlotFields {
            kind: bytes[0],
            tag: bytes[1],
            writer: number_u64(bytes, 2),
            undo_block: number_u32(bytes, 10),
            undo_seq: number_u64(bytes, 14),
            undo_nth: bytes[22],
            row: number_u64(bytes, 23),
            link_block: number_u32(bytes, 31),
            link_slot: bytes[35],
            len: number_u16(bytes, 36),
            room: number_u16(bytes, 38),
        }
    }

    /// How long the slot's row is.
    pub fn row_len(&self) -> u16
        ensures { result ≡ row_len self.now }
    {
        len_as(kind_as(self.kind), self.len)
    }

    /// The slot with these fields and this row.
    pub fn slot(&self, alloc: Global, row: &[u8]) -> Result<Slot, NoMemory>
        requires { length row.now < 2 ^ 16 }
        ensures { IfOk result (λ slot. slot ≡ slot_as self.now row.now) }
    {
        let writer = writer_as(self.tag, self.writer);
        let room = room_as(&writer, row.len() as u16, self.room);
        let bytes = Text::copy(alloc, row)?;
        Ok(Slot {
            kind: kind_as(self.kind),
            writer,
            undo: undo_as(self.undo_block, self.undo_seq, self.undo_nth),
            row: RowNo(self.row),
            link: link_as(self.link_block, self.link_slot),
            bytes,
            room,
        })
    }
}
