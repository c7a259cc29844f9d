// Records as bytes, both ways.
ghost use Rattle.std.specs.Prelude.{◌≡◌, ◌++◌, List, ℕ, OnErr, OnOk};
ghost use Rattle.redo_record.specs.declared.record.Record.{Record};
ghost use Rattle.redo_record.specs.Adding.{Begins};
ghost use Rattle.redo_record.specs.Spelling.{spelling};
ghost use Rattle.redo_record.specs.Spelled.{HasSpelling};
ghost use Rattle.redo_record.specs.Decoding.{StandsAt, Decodes, IsReadAs, IsFirst};
ghost use Rattle.redo_record.specs.Payloads.{payload, HaveSpellings};

use crate::fault::{ReadFault, RecordFault};
use crate::input::Input;
use crate::{Record, reading, writing};
use seg_base::NoMemory;
use std::alloc::Global;

/// Adds a record's spelling at the end. Without memory nothing is added.
pub fn encode(rec: &Record, out: &mut Vec<u8>) -> Result<(), NoMemory>
    ensures ok { OnOk result (out.new.items ≡ out.old.items ++ spelling rec.now) }
    ensures err { OnErr result (out.new.items ≡ out.old.items) }
{
    let before = out.len();
    match writing::record(out, rec) {
        Ok(()) => Ok(()),
        Err(NoMemory) => {
            out.truncate(before);
            Err(NoMemory)
        }
    }
}

/// The record that stands at the front of some bytes, and how many it takes.
fn first(alloc: Global, bytes: &[u8]) -> Result<(Record, usize), ReadFault>
    ensures { IsFirst bytes.now result }
{
    let mut input = Input::new(bytes);
    let rec = reading::record(alloc, &mut input)?;
    let len = bytes.len() - input.rest().len();
    Ok((rec, len))
}

/// The record whose spelling stands at a place, and the place behind it.
pub fn decode(alloc: Global, bytes: &[u8], at: usize) -> Result<(Record, usize), RecordFault>
    // What is read is spelled so, and a fault names a place where no record stands.
    ensures exact { Decodes bytes.now at result }
    // What is spelled is read.
    ensures only { (rec : Record) (next : ℕ) → StandsAt rec bytes.now at next → IsReadAs rec next result }
{
    if at > bytes.len() {
        return Err(RecordFault::BadRecord { offset: at });
    }
    let (_, front) = bytes.split_at(at);
    match first(alloc, front) {
        Ok((rec, len)) => Ok((rec, at + len)),
        Err(ReadFault::NotARecord) => Err(RecordFault::BadRecord { offset: at }),
        Err(ReadFault::NoMemory) => Err(RecordFault::NoMemory),
    }
}

/// No spelling begins another: where two records' bytes begin alike, they are one record.
pub fn no_spelling_begins_another()
    ensures { (a b : Record) (x y : List ℕ) → HasSpelling a → HasSpelling b → spelling a ++ x ≡ spelling b ++ y → (a ≡ b) × (x ≡ y) }
{}

/// A payload of whole records splits in one way only.
pub fn one_split()
    ensures { (a b : List Record) → HaveSpellings a → HaveSpellings b → payload a ≡ payload b → a ≡ b }
{}
