// Which slots have a spelling.
ghost use Rattle.std.specs.Prelude.{◌≡◌, ◌<◌, ◌^◌, ◌↔◌, IsTrue, length};
ghost use Rattle.seg_words.specs.Types.{writer_number};
ghost use Rattle.page_bytes.specs.Slots.{len_as, room_as, UndoFits, LinkFits, IsSlot, UndoIsThere, LinkIsThere, HasSlotForm};

use crate::field::in_range;
use seg_base::{Kind, Rowid, Slot, UndoAddr, Writer};

fn undo_is_there(undo: &Option<UndoAddr>) -> bool
    ensures { IsTrue result ↔ UndoIsThere undo.now }
{
    match undo {
        None => true,
        Some(addr) => 0 < addr.block,
    }
}

fn link_is_there(link: &Option<Rowid>) -> bool
    ensures { IsTrue result ↔ LinkIsThere link.now }
{
    match link {
        None => true,
        Some(rowid) => 0 < rowid.dba.0,
    }
}

fn len_fits(kind: Kind, len: usize) -> bool
    ensures { IsTrue result ↔ (len_as kind len ≡ len) }
{
    match kind {
        Kind::Empty | Kind::Head => len == 0,
        Kind::Row | Kind::Body => true,
    }
}

fn room_fits(writer: &Writer, len: usize, room: u16) -> bool
    ensures { IsTrue result ↔ (room_as writer.now len room ≡ room) }
{
    match writer {
        Writer::At(_) => len == usize::from(room),
        Writer::By(_) => len <= usize::from(room),
    }
}

/// Whether a slot has a spelling: an undo address and a link that are there name a block other than 0, an Empty slot and a
/// Head have no row, and the room is at least the row's length, just that where the writer's commit number is known.
pub fn has_slot_form(slot: &Slot) -> bool
    ensures form { IsTrue result ↔ HasSlotForm slot.now }
    ensures short { IsTrue result → length slot.now.bytes < 2 ^ 16 }
{
    let len = slot.bytes.len();
    if !undo_is_there(&slot.undo) || !link_is_there(&slot.link) {
        return false;
    }
    if !len_fits(slot.kind, len) {
        return false;
    }
    room_fits(&slot.writer, len, slot.room)
}

/// A byte is in its range.
pub fn byte_in_range(byte: u8)
    ensures { byte < 2 ^ 8 }
{
    let _byte = byte;
}

fn writer_in_range(writer: &Writer)
    ensures { writer_number writer.now < 2 ^ 64 }
{
    match writer {
        Writer::By(txn) => in_range(0, txn.0),
        Writer::At(number) => in_range(0, number.0),
    }
}

fn undo_in_range(undo: &Option<UndoAddr>)
    ensures { UndoIsThere undo.now → UndoFits undo.now }
{
    if let Some(addr) = undo {
        in_range(addr.block, addr.seq);
        byte_in_range(addr.nth);
    }
}

fn link_in_range(link: &Option<Rowid>)
    ensures { LinkIsThere link.now → LinkFits link.now }
{
    if let Some(rowid) = link {
        in_range(rowid.dba.0, 0);
        byte_in_range(rowid.slot);
    }
}

/// A slot of this form has a spelling: its numbers are in the ranges of their types.
pub fn slot_in_range(slot: &Slot)
    ensures { HasSlotForm slot.now → IsSlot slot.now }
{
    writer_in_range(&slot.writer);
    undo_in_range(&slot.undo);
    link_in_range(&slot.link);
    in_range(0, slot.row.0);
    let _room = slot.room;
}
