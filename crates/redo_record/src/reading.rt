// Reading a record by its kind.
ghost use Rattle.std.specs.Prelude.{◌≡◌};
ghost use Rattle.redo_record.specs.Forms.{Reads};
ghost use Rattle.redo_record.specs.Reading.{fields_at, record_at};

mod image;
mod row;
mod space;
mod transaction;

use crate::fault::ReadFault;
use crate::input::Input;
use crate::record::Record;
use std::alloc::Global;

/// What stands behind the kind.
fn fields(alloc: Global, kind: u8, input: &mut Input) -> Result<Record, ReadFault>
    ensures { Reads result input.new (fields_at kind input.old) }
{
    match kind {
        1 => Ok(Record::Table(space::table(alloc, input)?)),
        2 => Ok(Record::Movement(space::movement(input)?)),
        3 => Ok(Record::Extend(space::extend(input)?)),
        4 => Ok(Record::FormatBlock(space::format_block(input)?)),
        5 => Ok(Record::Class(space::class(input)?)),
        6 => Ok(Record::Advance(space::advance(input)?)),
        7 => Ok(Record::Lower(space::lower(alloc, input)?)),
        8 => Ok(Record::Begin(transaction::begin(input)?)),
        9 => Ok(Record::Reuse(transaction::reuse(input)?)),
        10 => Ok(Record::Insert(row::row_body(alloc, input)?)),
        11 => Ok(Record::Update(row::row_body(alloc, input)?)),
        12 => Ok(Record::Migrate(row::row_body(alloc, input)?)),
        13 => Ok(Record::Return(row::row_body(alloc, input)?)),
        14 => Ok(Record::Delete(row::row_body(alloc, input)?)),
        15 => Ok(Record::Commit(transaction::commit(input)?)),
        16 => Ok(Record::Back(row::back(alloc, input)?)),
        17 => Ok(Record::Ended(transaction::ended(input)?)),
        18 => Ok(Record::Move(row::moved(alloc, input)?)),
        19 => Ok(Record::Clean(transaction::clean(alloc, input)?)),
        _ => Err(ReadFault::NotARecord),
    }
}

#[tactic(auto, unfolding(crate::specs::Reading::record_at))]
pub fn record(alloc: Global, input: &mut Input) -> Result<Record, ReadFault>
    ensures { Reads result input.new (record_at input.old) }
{
    let kind = input.byte()?;
    fields(alloc, kind, input)
}
