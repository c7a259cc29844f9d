// Records that change rows.
ghost use Rattle.std.specs.Prelude.{◌≡◌, ◌∷◌, [], ◌++◌, length, Option, List, flat_map};
ghost use Rattle.redo_record.specs.Adding.{Adds};
ghost use Rattle.redo_record.specs.Spelling.{address, entry_code, place_or_zeros, place_bytes, image, part_head, row_part, back_part, row_head, row_parts, back_parts, row_body, back, moved};

use crate::output;
use crate::part::{BackPart, Parts, RowPart};
use crate::row::{BackRecord, MoveRecord, RowBody};
use seg_base::{
    Dba, NoMemory, Obj, RowNo, Slot, TxnId, UndoAddr, UndoPlace, slot_bytes, undo_or_zeros,
};

fn address(out: &mut Vec<u8>, undo: UndoAddr) -> Result<(), NoMemory>
    ensures { Adds result out.old.items out.new.items (address undo) }
{
    output::u32(out, undo.block)?;
    output::u64(out, undo.seq)?;
    output::byte(out, undo.nth)?;
    Ok(())
}

/// A place, or zeros for none.
fn place_or_zeros(place: &Option<UndoPlace>) -> UndoPlace
    ensures { result ≡ place_or_zeros place.now }
{
    match place {
        Some(place) => *place,
        None => UndoPlace { block: 0, nth: 0 },
    }
}

fn place(out: &mut Vec<u8>, place: UndoPlace) -> Result<(), NoMemory>
    ensures { Adds result out.old.items out.new.items (place_bytes place) }
{
    output::u32(out, place.block)?;
    output::byte(out, place.nth)?;
    Ok(())
}

/// A slot of 40 bytes and its row.
fn image(out: &mut Vec<u8>, slot: &Slot) -> Result<(), NoMemory>
    ensures { Adds result out.old.items out.new.items (image slot.now) }
{
    output::bytes(out, &slot_bytes(slot))?;
    output::bytes(out, slot.bytes.as_slice())?;
    Ok(())
}

/// A list entry, or 255 for none.
fn entry_code(entry: &Option<u8>) -> u8
    ensures { result ≡ entry_code entry.now }
{
    match entry {
        Some(entry) => *entry,
        None => 255,
    }
}

fn part_head(out: &mut Vec<u8>, dba: Dba, slot: u8, entry: &Option<u8>) -> Result<(), NoMemory>
    ensures { Adds result out.old.items out.new.items (part_head dba slot entry.now) }
{
    output::u32(out, dba.0)?;
    output::byte(out, slot)?;
    output::byte(out, entry_code(entry))?;
    Ok(())
}

fn row_part(out: &mut Vec<u8>, part: &RowPart) -> Result<(), NoMemory>
    ensures { Adds result out.old.items out.new.items (row_part part.now) }
{
    part_head(out, part.dba, part.slot, &part.entry)?;
    image(out, &part.new)?;
    image(out, &part.old)?;
    Ok(())
}

fn back_part(out: &mut Vec<u8>, part: &BackPart) -> Result<(), NoMemory>
    ensures { Adds result out.old.items out.new.items (back_part part.now) }
{
    part_head(out, part.dba, part.slot, &part.entry)?;
    image(out, &part.new)?;
    Ok(())
}

fn each_row_part(out: &mut Vec<u8>, parts: &[RowPart]) -> Result<(), NoMemory>
    ensures { Adds result out.old.items out.new.items (flat_map row_part parts.now) }
{
    for part in parts {
        row_part(out, part)?;
    }
    Ok(())
}

fn each_back_part(out: &mut Vec<u8>, parts: &[BackPart]) -> Result<(), NoMemory>
    ensures { Adds result out.old.items out.new.items (flat_map back_part parts.now) }
{
    for part in parts {
        back_part(out, part)?;
    }
    Ok(())
}

fn row_parts(out: &mut Vec<u8>, parts: &Parts<RowPart>) -> Result<(), NoMemory>
    ensures { Adds result out.old.items out.new.items (row_parts parts.now) }
{
    let parts = parts.as_slice();
    output::byte(out, parts.len() as u8)?;
    each_row_part(out, parts)?;
    Ok(())
}

fn back_parts(out: &mut Vec<u8>, parts: &Parts<BackPart>) -> Result<(), NoMemory>
    ensures { Adds result out.old.items out.new.items (back_parts parts.now) }
{
    let parts = parts.as_slice();
    output::byte(out, parts.len() as u8)?;
    each_back_part(out, parts)?;
    Ok(())
}

/// What each of these records begins with.
fn row_head(
    out: &mut Vec<u8>,
    txn: TxnId,
    entry: u8,
    obj: Obj,
    row: RowNo,
    undo: UndoAddr,
    previous: &Option<UndoPlace>,
) -> Result<(), NoMemory>
    ensures { Adds result out.old.items out.new.items (row_head txn entry obj row undo previous.now) }
{
    output::u64(out, txn.0)?;
    output::byte(out, entry)?;
    output::byte(out, obj.0)?;
    output::u64(out, row.0)?;
    address(out, undo)?;
    place(out, place_or_zeros(previous))?;
    Ok(())
}

pub fn row_body(out: &mut Vec<u8>, rec: &RowBody) -> Result<(), NoMemory>
    ensures { Adds result out.old.items out.new.items (row_body rec.now) }
{
    row_head(
        out,
        rec.txn,
        rec.entry,
        rec.obj,
        rec.row,
        rec.undo,
        &rec.previous,
    )?;
    row_parts(out, &rec.parts)?;
    Ok(())
}

pub fn back(out: &mut Vec<u8>, rec: &BackRecord) -> Result<(), NoMemory>
    ensures { Adds result out.old.items out.new.items (back rec.now) }
{
    row_head(
        out,
        rec.txn,
        rec.entry,
        rec.obj,
        rec.row,
        rec.undo,
        &rec.previous,
    )?;
    back_parts(out, &rec.parts)?;
    address(out, undo_or_zeros(&rec.last))?;
    Ok(())
}

/// A row body without a transaction, and the move's commit number.
pub fn moved(out: &mut Vec<u8>, rec: &MoveRecord) -> Result<(), NoMemory>
    ensures { Adds result out.old.items out.new.items (moved rec.now) }
{
    row_head(out, TxnId(0), 255, rec.obj, rec.row, rec.undo, &None)?;
    row_parts(out, &rec.parts)?;
    output::u64(out, rec.number.0)?;
    Ok(())
}
