// The text of an entry. Every printed line of a history is made here.
ghost use Rattle.std.specs.Prelude.{◌≡◌, ◌++◌, IfOk, OnOk, codes, decimal};
ghost use Rattle.history_text.specs.Lines.{row_line, row_lines, scan_text, switch_text, movement_text, stop_text, shrink_text, released_text, class_text, fixed_text, repaired_text, ordinal_text, outcome_text, entry_text};

use crate::entry::Entry;
use crate::outcome::{Outcome, RowOut, Stop};
use crate::refused::put_refusal;
use crate::usage::put_usage;
use seg_base::{Class, Dba, Name, NoMemory, Rowid, Scn};
use std::alloc::Global;
use text_port::{put, put_number};

#[tactic(auto, unfolding(crate::specs::Lines::row_line))]
fn put_row(out: &mut Vec<u8>, row: &RowOut) -> Result<(), NoMemory>
    ensures { OnOk result (out.new.items ≡ out.old.items ++ row_line row.now) }
{
    put(out, b"  ")?;
    put_number(out, row.row.0)?;
    put(out, b" ")?;
    put(out, row.bytes.as_slice())?;
    put(out, b"\n")
}

fn put_rows(out: &mut Vec<u8>, rows: &[RowOut]) -> Result<(), NoMemory>
    ensures { OnOk result (out.new.items ≡ out.old.items ++ row_lines rows.now) }
{
    for row in rows {
        put_row(out, row)?;
    }
    Ok(())
}

#[tactic(auto, unfolding(crate::specs::Lines::scan_text))]
fn put_scan(out: &mut Vec<u8>, table: &Name, at: Scn, rows: &[RowOut]) -> Result<(), NoMemory>
    ensures { OnOk result (out.new.items ≡ out.old.items ++ scan_text table.now at rows.now) }
{
    put(out, b"scan ")?;
    put(out, table.as_slice())?;
    put(out, b" at ")?;
    put_number(out, at.0)?;
    put(out, b" rows ")?;
    put_number(out, rows.len() as u64)?;
    put(out, b"\n")?;
    put_rows(out, rows)
}

fn put_named(out: &mut Vec<u8>, text: &[u8], name: &Name) -> Result<(), NoMemory>
    ensures { OnOk result (out.new.items ≡ out.old.items ++ (text.now ++ name.now ++ codes "\n")) }
{
    put(out, text)?;
    put(out, name.as_slice())?;
    put(out, b"\n")
}

fn put_numbered(out: &mut Vec<u8>, text: &[u8], number: u64) -> Result<(), NoMemory>
    ensures { OnOk result (out.new.items ≡ out.old.items ++ (text.now ++ decimal number ++ codes "\n")) }
{
    put(out, text)?;
    put_number(out, number)?;
    put(out, b"\n")
}

fn switch_text(on: bool) -> &'static [u8]
    ensures { result.now ≡ switch_text on }
{
    if on { b"on" } else { b"off" }
}

#[tactic(auto, unfolding(crate::specs::Lines::movement_text))]
fn put_movement(out: &mut Vec<u8>, table: &Name, on: bool) -> Result<(), NoMemory>
    ensures { OnOk result (out.new.items ≡ out.old.items ++ movement_text table.now on) }
{
    put(out, b"movement ")?;
    put(out, table.as_slice())?;
    put(out, b" ")?;
    put(out, switch_text(on))?;
    put(out, b"\n")
}

fn put_place(out: &mut Vec<u8>, at: Rowid) -> Result<(), NoMemory>
    ensures { OnOk result (out.new.items ≡ out.old.items ++ (codes "nofit " ++ decimal at.dba ++ codes "." ++ decimal at.slot)) }
{
    put(out, b"nofit ")?;
    put_number(out, u64::from(at.dba.0))?;
    put(out, b".")?;
    put_number(out, u64::from(at.slot))
}

fn put_stop(out: &mut Vec<u8>, stop: Stop) -> Result<(), NoMemory>
    ensures { OnOk result (out.new.items ≡ out.old.items ++ stop_text stop) }
{
    match stop {
        Stop::Bottom => put(out, b"bottom"),
        Stop::NoFit(at) => put_place(out, at),
    }
}

#[tactic(auto, unfolding(crate::specs::Lines::shrink_text))]
fn put_shrink(
    out: &mut Vec<u8>,
    table: &Name,
    moved: u64,
    skipped: u64,
    stop: Stop,
) -> Result<(), NoMemory>
    ensures { OnOk result (out.new.items ≡ out.old.items ++ shrink_text table.now moved skipped stop) }
{
    put(out, b"shrink ")?;
    put(out, table.as_slice())?;
    put(out, b" moved ")?;
    put_number(out, moved)?;
    put(out, b" skipped ")?;
    put_number(out, skipped)?;
    put(out, b" ")?;
    put_stop(out, stop)
}

#[tactic(auto, unfolding(crate::specs::Lines::released_text))]
fn put_released(out: &mut Vec<u8>, released: u32, high: u32) -> Result<(), NoMemory>
    ensures { OnOk result (out.new.items ≡ out.old.items ++ released_text released high) }
{
    put(out, b" released ")?;
    put_number(out, u64::from(released))?;
    put(out, b" high ")?;
    put_number(out, u64::from(high))?;
    put(out, b"\n")
}

/// Adds the text of a shrink that only moves rows.
fn put_compacted(
    out: &mut Vec<u8>,
    table: &Name,
    moved: u64,
    skipped: u64,
    stop: Stop,
) -> Result<(), NoMemory>
    ensures { OnOk result (out.new.items ≡ out.old.items ++ (shrink_text table.now moved skipped stop ++ codes "\n")) }
{
    put_shrink(out, table, moved, skipped, stop)?;
    put(out, b"\n")
}

/// The printed name of a class.
fn class_text(class: Class) -> &'static [u8]
    ensures { result.now ≡ class_text class }
{
    match class {
        Class::Unformatted => b"unformatted",
        Class::Full => b"full",
        Class::Fs1 => b"fs1",
        Class::Fs2 => b"fs2",
        Class::Fs3 => b"fs3",
        Class::Fs4 => b"fs4",
    }
}

#[tactic(auto, unfolding(crate::specs::Lines::fixed_text))]
fn put_fixed(out: &mut Vec<u8>, block: Dba, class: Class) -> Result<(), NoMemory>
    ensures { OnOk result (out.new.items ≡ out.old.items ++ fixed_text block class) }
{
    put(out, b"fixed ")?;
    put_number(out, u64::from(block.0))?;
    put(out, b" ")?;
    put(out, class_text(class))?;
    put(out, b"\n")
}

#[tactic(auto, unfolding(crate::specs::Lines::repaired_text))]
fn put_repaired(out: &mut Vec<u8>, table: &Name, changed: u32) -> Result<(), NoMemory>
    ensures { OnOk result (out.new.items ≡ out.old.items ++ repaired_text table.now changed) }
{
    put(out, b"repaired ")?;
    put(out, table.as_slice())?;
    put(out, b" changed ")?;
    put_number(out, u64::from(changed))?;
    put(out, b"\n")
}

#[tactic(auto, unfolding(crate::specs::Lines::outcome_text))]
fn put_outcome(out: &mut Vec<u8>, outcome: &Outcome) -> Result<(), NoMemory>
    ensures { OnOk result (out.new.items ≡ out.old.items ++ outcome_text outcome.now) }
{
    match outcome {
        Outcome::Table { name } => put_named(out, b"table ", name),
        Outcome::Movement { table, on } => put_movement(out, table, *on),
        Outcome::Inserted { row } => put_numbered(out, b"inserted ", row.0),
        Outcome::Updated { row } => put_numbered(out, b"updated ", row.0),
        Outcome::Deleted { row } => put_numbered(out, b"deleted ", row.0),
        Outcome::Committed { number } => put_numbered(out, b"committed ", number.0),
        Outcome::NothingToCommit => put(out, b"nothing to commit\n"),
        Outcome::RolledBack => put(out, b"rolled back\n"),
        Outcome::NothingToRollBack => put(out, b"nothing to roll back\n"),
        Outcome::Scan { table, at, rows } => put_scan(out, table, *at, rows.as_slice()),
        Outcome::Compacted {
            table,
            moved,
            skipped,
            stop,
        } => put_compacted(out, table, *moved, *skipped, *stop),
        Outcome::Shrunk {
            table,
            moved,
            skipped,
            stop,
            released,
            high,
        } => {
            put_shrink(out, table, *moved, *skipped, *stop)?;
            put_released(out, *released, *high)
        }
        Outcome::Usage { table, usage } => put_usage(out, table, usage),
        Outcome::Fixed { block, class } => put_fixed(out, *block, *class),
        Outcome::Repaired { table, changed } => put_repaired(out, table, *changed),
        Outcome::Checkpoint => put(out, b"checkpoint\n"),
        Outcome::Refused(refusal) => put_refusal(out, refusal),
    }
}

fn put_ordinal(out: &mut Vec<u8>, ordinal: Option<u32>) -> Result<(), NoMemory>
    ensures { OnOk result (out.new.items ≡ out.old.items ++ ordinal_text ordinal) }
{
    match ordinal {
        Some(number) => put_number(out, u64::from(number)),
        None => put(out, b"end"),
    }
}

/// The printed lines of an entry: its session, a full stop, its ordinal or `end`, a space, and what it led to. Each
/// line ends with LF. Without memory nothing is answered.
#[tactic(auto, unfolding(crate::specs::Lines::entry_text))]
pub fn line(alloc: Global, entry: &Entry) -> Result<Vec<u8>, NoMemory>
    ensures { IfOk result (λ text. text.items ≡ entry_text entry.now) }
{
    let mut out = Vec::new(alloc);
    put_number(&mut out, u64::from(entry.session))?;
    put(&mut out, b".")?;
    put_ordinal(&mut out, entry.ordinal)?;
    put(&mut out, b" ")?;
    put_outcome(&mut out, &entry.outcome)?;
    Ok(out)
}
