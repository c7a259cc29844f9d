// Images of slots, and where undo stands.
ghost use Rattle.std.specs.Prelude.{◌≡◌};
ghost use Rattle.redo_record.specs.Forms.{Reads};
ghost use Rattle.redo_record.specs.Reading.{address_at, undo_at, place_at, link_at, kind_at, writer_at, image_at};

use crate::fault::ReadFault;
use crate::input::{Input, text_of};
use seg_base::{
    Dba, Kind, RowNo, Rowid, Slot, UndoAddr, UndoPlace, Writer, kind_from, writer_from,
};
use std::alloc::Global;

#[tactic(auto, unfolding(crate::specs::Reading::address_at))]
pub fn address(input: &mut Input) -> Result<UndoAddr, ReadFault>
    ensures { Reads result input.new (address_at input.old) }
{
    Ok(UndoAddr {
        block: input.u32()?,
        seq: input.u64()?,
        nth: input.byte()?,
    })
}

/// An address, or zeros for none.
#[tactic(auto, unfolding(crate::specs::Reading::undo_at))]
pub fn undo(input: &mut Input) -> Result<Option<UndoAddr>, ReadFault>
    ensures { Reads result input.new (undo_at input.old) }
{
    let undo = address(input)?;
    if undo.block != 0 {
        return Ok(Some(undo));
    }
    if undo.seq != 0 || undo.nth != 0 {
        return Err(ReadFault::NotARecord);
    }
    Ok(None)
}

/// A place, or zeros for none.
#[tactic(auto, unfolding(crate::specs::Reading::place_at))]
pub fn place(input: &mut Input) -> Result<Option<UndoPlace>, ReadFault>
    ensures { Reads result input.new (place_at input.old) }
{
    let block = input.u32()?;
    let nth = input.byte()?;
    if block != 0 {
        return Ok(Some(UndoPlace { block, nth }));
    }
    if nth != 0 {
        return Err(ReadFault::NotARecord);
    }
    Ok(None)
}

/// A slot of a block, or zeros for none.
#[tactic(auto, unfolding(crate::specs::Reading::link_at))]
fn link(input: &mut Input) -> Result<Option<Rowid>, ReadFault>
    ensures { Reads result input.new (link_at input.old) }
{
    let block = input.u32()?;
    let slot = input.byte()?;
    if block != 0 {
        return Ok(Some(Rowid {
            dba: Dba(block),
            slot,
        }));
    }
    if slot != 0 {
        return Err(ReadFault::NotARecord);
    }
    Ok(None)
}

#[tactic(auto, unfolding(crate::specs::Reading::kind_at))]
fn kind(input: &mut Input) -> Result<Kind, ReadFault>
    ensures { Reads result input.new (kind_at input.old) }
{
    let code = input.byte()?;
    match kind_from(code) {
        Some(kind) => Ok(kind),
        None => Err(ReadFault::NotARecord),
    }
}

#[tactic(auto, unfolding(crate::specs::Reading::writer_at))]
fn writer(input: &mut Input) -> Result<Writer, ReadFault>
    ensures { Reads result input.new (writer_at input.old) }
{
    let tag = input.byte()?;
    let number = input.u64()?;
    match writer_from(tag, number) {
        Some(writer) => Ok(writer),
        None => Err(ReadFault::NotARecord),
    }
}

/// A slot of 40 bytes and its row.
#[tactic(auto, unfolding(crate::specs::Reading::image_at))]
pub fn image(alloc: Global, input: &mut Input) -> Result<Slot, ReadFault>
    ensures { Reads result input.new (image_at input.old) }
{
    let kind = kind(input)?;
    let writer = writer(input)?;
    let undo = undo(input)?;
    let row = RowNo(input.u64()?);
    let link = link(input)?;
    let len = input.u16()?;
    let room = input.u16()?;
    let bytes = text_of(alloc, len, input)?;
    Ok(Slot {
        kind,
        writer,
        undo,
        row,
        link,
        bytes,
        room,
    })
}
