// Records that change tables and their space.
ghost use Rattle.std.specs.Prelude.{◌≡◌, IfOk, length};
ghost use Rattle.seg_words.specs.Types.{w32};
ghost use Rattle.redo_record.specs.Forms.{Reads, ReadsItems, byte, many, number, tested};
ghost use Rattle.redo_record.specs.Reading.{is_pctfree, name_at, table_at, movement_at, extend_at, format_block_at, class_code_at, class_at, advance_at, three_blocks_at, three_codes_at, extents_at, lower_at};

use crate::fault::ReadFault;
use crate::input::Input;
use crate::space::{
    AdvanceRecord, ClassRecord, ExtendRecord, Extents, FormatBlockRecord, LowerRecord,
    MovementRecord, TableRecord,
};
use seg_base::{Class, Dba, MOST_PCTFREE, Name, class_from};
use std::alloc::Global;

fn pctfree(input: &mut Input) -> Result<u8, ReadFault>
    ensures { Reads result input.new (tested is_pctfree byte input.old) }
{
    let pctfree = input.byte()?;
    if pctfree > MOST_PCTFREE {
        return Err(ReadFault::NotARecord);
    }
    Ok(pctfree)
}

#[tactic(auto, unfolding(crate::specs::Reading::name_at))]
fn name(alloc: Global, input: &mut Input) -> Result<Name, ReadFault>
    ensures { Reads result input.new (name_at input.old) }
{
    let len = input.byte()?;
    let bytes = input.take(usize::from(len))?;
    match Name::copy(alloc, bytes)? {
        Some(name) => Ok(name),
        None => Err(ReadFault::NotARecord),
    }
}

#[tactic(auto, unfolding(crate::specs::Reading::table_at))]
pub fn table(alloc: Global, input: &mut Input) -> Result<TableRecord, ReadFault>
    ensures { Reads result input.new (table_at input.old) }
{
    Ok(TableRecord {
        obj: input.obj()?,
        header: input.dba()?,
        pctfree: pctfree(input)?,
        name: name(alloc, input)?,
    })
}

#[tactic(auto, unfolding(crate::specs::Reading::movement_at))]
pub fn movement(input: &mut Input) -> Result<MovementRecord, ReadFault>
    ensures { Reads result input.new (movement_at input.old) }
{
    Ok(MovementRecord {
        obj: input.obj()?,
        header: input.dba()?,
        on: input.flag()?,
    })
}

#[tactic(auto, unfolding(crate::specs::Reading::extend_at))]
pub fn extend(input: &mut Input) -> Result<ExtendRecord, ReadFault>
    ensures { Reads result input.new (extend_at input.old) }
{
    Ok(ExtendRecord {
        obj: input.obj()?,
        header: input.dba()?,
        index: input.u16()?,
        extent: input.u32()?,
        l2: input.dba()?,
        l3: input.dba()?,
    })
}

#[tactic(auto, unfolding(crate::specs::Reading::format_block_at))]
pub fn format_block(input: &mut Input) -> Result<FormatBlockRecord, ReadFault>
    ensures { Reads result input.new (format_block_at input.old) }
{
    Ok(FormatBlockRecord {
        obj: input.obj()?,
        dba: input.dba()?,
        l2: input.dba()?,
        l3: input.dba()?,
        index: input.u16()?,
        best_of_l1: input.code()?,
        best_of_l2: input.code()?,
    })
}

#[tactic(auto, unfolding(crate::specs::Reading::class_code_at))]
fn class_code(input: &mut Input) -> Result<Class, ReadFault>
    ensures { Reads result input.new (class_code_at input.old) }
{
    let code = input.byte()?;
    match class_from(code) {
        Some(class) => Ok(class),
        None => Err(ReadFault::NotARecord),
    }
}

#[tactic(auto, unfolding(crate::specs::Reading::class_at))]
pub fn class(input: &mut Input) -> Result<ClassRecord, ReadFault>
    ensures { Reads result input.new (class_at input.old) }
{
    Ok(ClassRecord {
        obj: input.obj()?,
        dba: input.dba()?,
        class: class_code(input)?,
        l2: input.dba()?,
        l3: input.dba()?,
        index: input.u16()?,
        best_of_l1: input.code()?,
        best_of_l2: input.code()?,
    })
}

#[tactic(auto, unfolding(crate::specs::Reading::advance_at))]
pub fn advance(input: &mut Input) -> Result<AdvanceRecord, ReadFault>
    ensures { Reads result input.new (advance_at input.old) }
{
    Ok(AdvanceRecord {
        obj: input.obj()?,
        header: input.dba()?,
        low: input.u32()?,
        high: input.u32()?,
    })
}

#[tactic(auto, unfolding(crate::specs::Reading::three_blocks_at))]
fn three_blocks(input: &mut Input) -> Result<[Option<Dba>; 3], ReadFault>
    ensures { Reads result input.new (three_blocks_at input.old) }
{
    Ok([input.block()?, input.block()?, input.block()?])
}

#[tactic(auto, unfolding(crate::specs::Reading::three_codes_at))]
fn three_codes(input: &mut Input) -> Result<[u8; 3], ReadFault>
    ensures { Reads result input.new (three_codes_at input.old) }
{
    Ok([input.code()?, input.code()?, input.code()?])
}

fn extents_of(alloc: Global, count: u16, input: &mut Input) -> Result<Vec<u32>, ReadFault>
    ensures read { ReadsItems result input.new (many (number w32) count input.old) }
    ensures long { IfOk result (λ v. length v.items ≡ count) }
{
    let mut extents = Vec::new(alloc);
    for _ in 0..count {
        extents.push(input.u32()?)?;
    }
    Ok(extents)
}

#[tactic(auto, unfolding(crate::specs::Reading::extents_at))]
fn extents(alloc: Global, input: &mut Input) -> Result<Extents, ReadFault>
    ensures { Reads result input.new (extents_at input.old) }
{
    let count = input.u16()?;
    let extents = extents_of(alloc, count, input)?;
    Ok(Extents::from_vec(extents))
}

#[tactic(auto, unfolding(crate::specs::Reading::lower_at))]
pub fn lower(alloc: Global, input: &mut Input) -> Result<LowerRecord, ReadFault>
    ensures { Reads result input.new (lower_at input.old) }
{
    Ok(LowerRecord {
        obj: input.obj()?,
        header: input.dba()?,
        lowering: input.u64()?,
        kept: input.u16()?,
        low: input.u32()?,
        high: input.u32()?,
        l2: three_blocks(input)?,
        l3: input.dba()?,
        bests: three_codes(input)?,
        released: extents(alloc, input)?,
    })
}
