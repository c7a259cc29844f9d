// Writing a record behind its kind.
ghost use Rattle.std.specs.Prelude.{◌≡◌};
ghost use Rattle.redo_record.specs.Adding.{Adds};
ghost use Rattle.redo_record.specs.Spelling.{spelling, fields, kind_of};

mod row;
mod space;
mod transaction;

use crate::output;
use crate::record::Record;
use seg_base::NoMemory;

/// The number of a record's kind.
fn kind_of(rec: &Record) -> u8
    ensures { result ≡ kind_of rec.now }
{
    match rec {
        Record::Table(_) => 1,
        Record::Movement(_) => 2,
        Record::Extend(_) => 3,
        Record::FormatBlock(_) => 4,
        Record::Class(_) => 5,
        Record::Advance(_) => 6,
        Record::Lower(_) => 7,
        Record::Begin(_) => 8,
        Record::Reuse(_) => 9,
        Record::Insert(_) => 10,
        Record::Update(_) => 11,
        Record::Migrate(_) => 12,
        Record::Return(_) => 13,
        Record::Delete(_) => 14,
        Record::Commit(_) => 15,
        Record::Back(_) => 16,
        Record::Ended(_) => 17,
        Record::Move(_) => 18,
        Record::Clean(_) => 19,
    }
}

/// What stands behind the kind.
fn fields(out: &mut Vec<u8>, rec: &Record) -> Result<(), NoMemory>
    ensures { Adds result out.old.items out.new.items (fields rec.now) }
{
    match rec {
        Record::Table(rec) => space::table(out, rec),
        Record::Movement(rec) => space::movement(out, rec),
        Record::Extend(rec) => space::extend(out, rec),
        Record::FormatBlock(rec) => space::format_block(out, rec),
        Record::Class(rec) => space::class(out, rec),
        Record::Advance(rec) => space::advance(out, rec),
        Record::Lower(rec) => space::lower(out, rec),
        Record::Begin(rec) => transaction::begin(out, rec),
        Record::Reuse(rec) => transaction::reuse(out, rec),
        Record::Insert(rec) => row::row_body(out, rec),
        Record::Update(rec) => row::row_body(out, rec),
        Record::Migrate(rec) => row::row_body(out, rec),
        Record::Return(rec) => row::row_body(out, rec),
        Record::Delete(rec) => row::row_body(out, rec),
        Record::Commit(rec) => transaction::commit(out, rec),
        Record::Back(rec) => row::back(out, rec),
        Record::Ended(rec) => transaction::ended(out, rec),
        Record::Move(rec) => row::moved(out, rec),
        Record::Clean(rec) => transaction::clean(out, rec),
    }
}

pub fn record(out: &mut Vec<u8>, rec: &Record) -> Result<(), NoMemory>
    ensures { Adds result out.old.items out.new.items (spelling rec.now) }
{
    output::byte(out, kind_of(rec))?;
    fields(out, rec)?;
    Ok(())
}
