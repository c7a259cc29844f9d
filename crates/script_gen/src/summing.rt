// What is counted of entries, and the line that says it.
ghost use Rattle.std.specs.Prelude.{◌≡◌, ◌+◌, ◌++◌, [], ◌∷◌, List, reverse, length, IfOk, OnOk};
ghost use Rattle.history_text.specs.declared.entry.Entry.{Entry as TheEntry};
ghost use Rattle.history_text.specs.declared.outcome.RowOut.{RowOut as TheRow};
ghost use Rattle.script_gen.specs.Summed.{bytes_in, count_text, refusals_in, rows_after, summary_text, totals_of, totals_text};

use history_text::{Entry, Outcome, RowOut};
use seg_base::{NoMemory, Scn};
use std::alloc::Global;
use text_port::{put, put_number};

/// How many entries there are, how many of them were refused, and the rows and row bytes of the last scan that completed, or 0 and
/// 0.
#[derive(Clone, Copy, Debug, PartialEq, Eq, Drop)]
pub struct Totals {
    pub entries: u64,
    pub refused: u64,
    pub rows: u64,
    pub bytes: u64,
}

/// A sum. No history comes near the last number.
fn sum(count: u64, more: u64) -> Result<u64, NoMemory>
    ensures { IfOk result (λ sum. sum ≡ count + more) }
{
    count.checked_add(more).ok_or(NoMemory)
}

fn refusals_in(outcome: &Outcome) -> u64
    ensures { result ≡ refusals_in outcome.now }
{
    match outcome {
        Outcome::Refused(_) => 1,
        _ => 0,
    }
}

fn bytes_in(rows: &[RowOut]) -> Result<u64, NoMemory>
    ensures { IfOk result (λ count. count ≡ bytes_in rows.now) }
{
    let mut count = 0;
    for row in rows {
        count = sum(count, row.bytes.len() as u64)?;
    }
    Ok(count)
}

impl Totals {
    /// Of no entry.
    pub fn none() -> Totals
        ensures { result ≡ totals_of [] }
    {
        Totals {
            entries: 0,
            refused: 0,
            rows: 0,
            bytes: 0,
        }
    }

    /// With the rows of an outcome, where it is a scan's.
    fn with_rows(self, outcome: &Outcome) -> Result<Totals, NoMemory>
        ensures { IfOk result (λ now. (others : List TheRow) → self.rows ≡ length others → self.bytes ≡ bytes_in others → now ≡ record self { rows = length (rows_after outcome.now others); bytes = bytes_in (rows_after outcome.now others) }) }
    {
        match outcome {
            Outcome::Scan { rows, .. } => Ok(Totals {
                rows: rows.len() as u64,
                bytes: bytes_in(rows.as_slice())?,
                ..self
            }),
            _ => Ok(self),
        }
    }

    /// With one more entry, the newest.
    pub fn with(self, entry: &Entry) -> Result<Totals, NoMemory>
        ensures { IfOk result (λ now. (es : List TheEntry) → self ≡ totals_of es → now ≡ totals_of (entry.now ∷ es)) }
    {
        let counted = Totals {
            entries: sum(self.entries, 1)?,
            refused: sum(self.refused, refusals_in(&entry.outcome))?,
            ..self
        };
        counted.with_rows(&entry.outcome)
    }

    /// The line that says it, beside so many commits.
    #[tactic(auto, unfolding(crate::specs::Summed::totals_text))]
    pub fn line(&self, alloc: Global, commits: Scn) -> Result<Vec<u8>, NoMemory>
        ensures { IfOk result (λ text. text.items ≡ totals_text self.now commits) }
    {
        let mut out = Vec::new(alloc);
        put_count(&mut out, b"entries ", self.entries)?;
        put_count(&mut out, b" refused ", self.refused)?;
        put_count(&mut out, b" commits ", commits.0)?;
        put_count(&mut out, b" rows ", self.rows)?;
        put_count(&mut out, b" bytes ", self.bytes)?;
        put(&mut out, b"\n")?;
        Ok(out)
    }
}

#[tactic(auto, unfolding(crate::specs::Summed::count_text))]
fn put_count(out: &mut Vec<u8>, word: &[u8], count: u64) -> Result<(), NoMemory>
    ensures { OnOk result (out.new.items ≡ out.old.items ++ count_text word.now count) }
{
    put(out, word)?;
    put_number(out, count)
}

/// The line that sums up entries, beside the commits of the store at the end.
pub fn summary(alloc: Global, entries: &[Entry], commits: Scn) -> Result<Vec<u8>, NoMemory>
    ensures { IfOk result (λ text. text.items ≡ summary_text (reverse entries.now) commits) }
{
    let mut totals = Totals::none();
    for entry in entries {
        totals = totals.with(entry)?;
    }
    totals.line(alloc, commits)
}
