// Records that change rows.
ghost use Rattle.std.specs.Prelude.{◌≡◌, ◌≤◌, IfOk, length};
ghost use Rattle.redo_record.specs.Forms.{Reads, ReadsItems, many};
ghost use Rattle.redo_record.specs.Reading.{row_part_at, back_part_at, part_count_at, row_parts_at, back_parts_at, row_body_at, back_at, move_at};

use crate::fault::ReadFault;
use crate::input::Input;
use crate::part::{BackPart, Parts, RowPart};
use crate::reading::image::{address, image, place, undo};
use crate::row::{BackRecord, MoveRecord, RowBody};
use seg_base::{RowNo, Scn, TxnId};
use std::alloc::Global;

#[tactic(auto, unfolding(crate::specs::Reading::row_part_at))]
fn row_part(alloc: Global, input: &mut Input) -> Result<RowPart, ReadFault>
    ensures { Reads result input.new (row_part_at input.old) }
{
    Ok(RowPart {
        dba: input.dba()?,
        slot: input.byte()?,
        entry: input.entry()?,
        new: image(alloc, input)?,
        old: image(alloc, input)?,
    })
}

#[tactic(auto, unfolding(crate::specs::Reading::back_part_at))]
fn back_part(alloc: Global, input: &mut Input) -> Result<BackPart, ReadFault>
    ensures { Reads result input.new (back_part_at input.old) }
{
    Ok(BackPart {
        dba: input.dba()?,
        slot: input.byte()?,
        entry: input.entry()?,
        new: image(alloc, input)?,
    })
}

/// How many parts a record has: 1 to 3.
#[tactic(auto, unfolding(crate::specs::Reading::part_count_at))]
fn part_count(input: &mut Input) -> Result<u8, ReadFault>
    ensures read { Reads result input.new (part_count_at input.old) }
    ensures range { IfOk result (λ count. (1 ≤ count) × (count ≤ 3)) }
{
    let count = input.byte()?;
    if count == 0 || count > 3 {
        return Err(ReadFault::NotARecord);
    }
    Ok(count)
}

fn row_parts_of(alloc: Global, count: u8, input: &mut Input) -> Result<Vec<RowPart>, ReadFault>
    ensures read { ReadsItems result input.new (many row_part_at count input.old) }
    ensures long { IfOk result (λ v. length v.items ≡ count) }
{
    let mut parts = Vec::new(alloc);
    for _ in 0..count {
        parts.push(row_part(alloc, input)?)?;
    }
    Ok(parts)
}

fn back_parts_of(alloc: Global, count: u8, input: &mut Input) -> Result<Vec<BackPart>, ReadFault>
    ensures read { ReadsItems result input.new (many back_part_at count input.old) }
    ensures long { IfOk result (λ v. length v.items ≡ count) }
{
    let mut parts = Vec::new(alloc);
    for _ in 0..count {
        parts.push(back_part(alloc, input)?)?;
    }
    Ok(parts)
}

#[tactic(auto, unfolding(crate::specs::Reading::row_parts_at))]
fn row_parts(alloc: Global, input: &mut Input) -> Result<Parts<RowPart>, ReadFault>
    ensures { Reads result input.new (row_parts_at input.old) }
{
    let count = part_count(input)?;
    let parts = row_parts_of(alloc, count, input)?;
    Ok(Parts::from_vec(parts))
}

#[tactic(auto, unfolding(crate::specs::Reading::back_parts_at))]
fn back_parts(alloc: Global, input: &mut Input) -> Result<Parts<BackPart>, ReadFault>
    ensures { Reads result input.new (back_parts_at input.old) }
{
    let count = part_count(input)?;
    let parts = back_parts_of(alloc, count, input)?;
    Ok(Parts::from_vec(parts))
}

#[tactic(auto, unfolding(crate::specs::Reading::row_body_at))]
pub fn row_body(alloc: Global, input: &mut Input) -> Result<RowBody, ReadFault>
    ensures { Reads result input.new (row_body_at input.old) }
{
    Ok(RowBody {
        txn: TxnId(input.u64()?),
        entry: input.byte()?,
        obj: input.obj()?,
        row: RowNo(input.u64()?),
        undo: address(input)?,
        previous: place(input)?,
        parts: row_parts(alloc, input)?,
    })
}

#[tactic(auto, unfolding(crate::specs::Reading::back_at))]
pub fn back(alloc: Global, input: &mut Input) -> Result<BackRecord, ReadFault>
    ensures { Reads result input.new (back_at input.old) }
{
    Ok(BackRecord {
        txn: TxnId(input.u64()?),
        entry: input.byte()?,
        obj: input.obj()?,
        row: RowNo(input.u64()?),
        undo: address(input)?,
        previous: place(input)?,
        parts: back_parts(alloc, input)?,
        last: undo(input)?,
    })
}

/// A row body without a transaction, and the move's commit number.
#[tactic(auto, unfolding(crate::specs::Reading::move_at))]
pub fn moved(alloc: Global, input: &mut Input) -> Result<MoveRecord, ReadFault>
    ensures { Reads result input.new (move_at input.old) }
{
    let body = row_body(alloc, input)?;
    let number = Scn(input.u64()?);
    if body.txn.0 != 0 || body.entry != 255 || body.previous.is_some() {
        return Err(ReadFault::NotARecord);
    }
    Ok(MoveRecord {
        obj: body.obj,
        row: body.row,
        undo: body.undo,
        parts: body.parts,
        number,
    })
}
