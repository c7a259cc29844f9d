// Records that change tables and their space.
ghost use Rattle.std.specs.Prelude.{◌≡◌, length, ◌≤◌, flat_map};
ghost use Rattle.seg_words.specs.Types.{w32};
ghost use Rattle.redo_record.specs.Adding.{Adds};
ghost use Rattle.redo_record.specs.Spelling.{big_endian, flag, block_or_zero, table, movement, extend, in_bitmaps, format_block, class, advance, three_blocks, three_codes, extents as extents_bytes, lowered, lower};

use crate::output;
use crate::space::{
    AdvanceRecord, ClassRecord, ExtendRecord, Extents, FormatBlockRecord, LowerRecord,
    MovementRecord, TableRecord,
};
use seg_base::{Dba, NoMemory, class_code};

pub fn table(out: &mut Vec<u8>, rec: &TableRecord) -> Result<(), NoMemory>
    ensures { Adds result out.old.items out.new.items (table rec.now) }
{
    let name = rec.name.as_slice();
    output::byte(out, rec.obj.0)?;
    output::u32(out, rec.header.0)?;
    output::byte(out, rec.pctfree)?;
    output::byte(out, name.len() as u8)?;
    output::bytes(out, name)?;
    Ok(())
}

fn flag(on: bool) -> u8
    ensures { result ≡ flag on }
{
    if on { 1 } else { 0 }
}

pub fn movement(out: &mut Vec<u8>, rec: &MovementRecord) -> Result<(), NoMemory>
    ensures { Adds result out.old.items out.new.items (movement rec.now) }
{
    output::byte(out, rec.obj.0)?;
    output::u32(out, rec.header.0)?;
    output::byte(out, flag(rec.on))?;
    Ok(())
}

pub fn extend(out: &mut Vec<u8>, rec: &ExtendRecord) -> Result<(), NoMemory>
    ensures { Adds result out.old.items out.new.items (extend rec.now) }
{
    output::byte(out, rec.obj.0)?;
    output::u32(out, rec.header.0)?;
    output::u16(out, rec.index)?;
    output::u32(out, rec.extent)?;
    output::u32(out, rec.l2.0)?;
    output::u32(out, rec.l3.0)?;
    Ok(())
}

/// Where a block's code stands in the bitmaps, and the best codes there.
fn in_bitmaps(
    out: &mut Vec<u8>,
    l2: Dba,
    l3: Dba,
    index: u16,
    best_of_l1: u8,
    best_of_l2: u8,
) -> Result<(), NoMemory>
    ensures { Adds result out.old.items out.new.items (in_bitmaps l2 l3 index best_of_l1 best_of_l2) }
{
    output::u32(out, l2.0)?;
    output::u32(out, l3.0)?;
    output::u16(out, index)?;
    output::byte(out, best_of_l1)?;
    output::byte(out, best_of_l2)?;
    Ok(())
}

pub fn format_block(out: &mut Vec<u8>, rec: &FormatBlockRecord) -> Result<(), NoMemory>
    ensures { Adds result out.old.items out.new.items (format_block rec.now) }
{
    output::byte(out, rec.obj.0)?;
    output::u32(out, rec.dba.0)?;
    in_bitmaps(
        out,
        rec.l2,
        rec.l3,
        rec.index,
        rec.best_of_l1,
        rec.best_of_l2,
    )?;
    Ok(())
}

pub fn class(out: &mut Vec<u8>, rec: &ClassRecord) -> Result<(), NoMemory>
    ensures { Adds result out.old.items out.new.items (class rec.now) }
{
    output::byte(out, rec.obj.0)?;
    output::u32(out, rec.dba.0)?;
    output::byte(out, class_code(rec.class))?;
    in_bitmaps(
        out,
        rec.l2,
        rec.l3,
        rec.index,
        rec.best_of_l1,
        rec.best_of_l2,
    )?;
    Ok(())
}

pub fn advance(out: &mut Vec<u8>, rec: &AdvanceRecord) -> Result<(), NoMemory>
    ensures { Adds result out.old.items out.new.items (advance rec.now) }
{
    output::byte(out, rec.obj.0)?;
    output::u32(out, rec.header.0)?;
    output::u32(out, rec.low)?;
    output::u32(out, rec.high)?;
    Ok(())
}

/// A block, or 0 for none.
fn block_or_zero(block: &Option<Dba>) -> u32
    ensures { result ≡ block_or_zero block.now }
{
    match block {
        Some(block) => block.0,
        None => 0,
    }
}

fn three_blocks(out: &mut Vec<u8>, blocks: &[Option<Dba>; 3]) -> Result<(), NoMemory>
    ensures { Adds result out.old.items out.new.items (three_blocks blocks.now) }
{
    output::u32(out, block_or_zero(&blocks[0]))?;
    output::u32(out, block_or_zero(&blocks[1]))?;
    output::u32(out, block_or_zero(&blocks[2]))?;
    Ok(())
}

fn three_codes(out: &mut Vec<u8>, codes: &[u8; 3]) -> Result<(), NoMemory>
    ensures { Adds result out.old.items out.new.items (three_codes codes.now) }
{
    output::byte(out, codes[0])?;
    output::byte(out, codes[1])?;
    output::byte(out, codes[2])?;
    Ok(())
}

fn numbers(out: &mut Vec<u8>, numbers: &[u32]) -> Result<(), NoMemory>
    ensures { Adds result out.old.items out.new.items (flat_map (big_endian w32) numbers.now) }
{
    for number in numbers {
        output::u32(out, *number)?;
    }
    Ok(())
}

fn extents(out: &mut Vec<u8>, extents: &Extents) -> Result<(), NoMemory>
    ensures { Adds result out.old.items out.new.items (extents_bytes extents.now) }
{
    let extents = extents.as_slice();
    output::u16(out, extents.len() as u16)?;
    numbers(out, extents)?;
    Ok(())
}

/// What it says of the kept bitmap blocks and of the released extents.
fn lowered(out: &mut Vec<u8>, rec: &LowerRecord) -> Result<(), NoMemory>
    ensures { Adds result out.old.items out.new.items (lowered rec.now) }
{
    three_blocks(out, &rec.l2)?;
    output::u32(out, rec.l3.0)?;
    three_codes(out, &rec.bests)?;
    extents(out, &rec.released)?;
    Ok(())
}

pub fn lower(out: &mut Vec<u8>, rec: &LowerRecord) -> Result<(), NoMemory>
    ensures { Adds result out.old.items out.new.items (lower rec.now) }
{
    output::byte(out, rec.obj.0)?;
    output::u32(out, rec.header.0)?;
    output::u64(out, rec.lowering)?;
    output::u16(out, rec.kept)?;
    output::u32(out, rec.low)?;
    output::u32(out, rec.high)?;
    lowered(out, rec)?;
    Ok(())
}
