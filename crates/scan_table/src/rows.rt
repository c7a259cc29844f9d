// Rows that wait until all blocks are read.
ghost use Rattle.std.specs.Prelude.{◌≡◌, ◌++◌, ◌∷◌, [], OnErr, OnOk};
ghost use Rattle.history_laws.specs.Scans.{Sorts};

use history_text::RowOut;
use seg_base::{NoMemory, Sequence};
use std::alloc::Global;
use std::marker::Model;

/// Rows in the order in which they were read.
#[derive(Debug, Drop)]
pub struct Rows {
    items: Vec<RowOut>,
}

impl Model for Rows {
    ghost use Rattle.std.specs.Prelude.{List};
    ghost use Rattle.history_text.specs.declared.outcome.RowOut.{RowOut};

    ghost Value = { List RowOut };

    ghost view = { λ r. r.items.items };
}

impl Rows {
    pub fn new(alloc: Global) -> Rows
        ensures { result ≡ [] }
    {
        Rows {
            items: Vec::new(alloc),
        }
    }

    pub fn push(&mut self, row: RowOut) -> Result<(), NoMemory>
        ensures { OnOk result (self.new ≡ self.old ++ row ∷ []) }
    {
        self.items.push(row)?;
        Ok(())
    }

    /// Adds rows at the end, all or none.
    pub fn append(&mut self, more: Rows) -> Result<(), NoMemory>
        ensures ok { OnOk result (self.new ≡ self.old ++ more) }
        ensures err { OnErr result (self.new ≡ self.old) }
    {
        let mut items = more.items;
        self.items.append(&mut items)?;
        Ok(())
    }

    /// The rows in order of row number.
    pub fn into_sorted(self) -> Sequence<RowOut>
        ensures { Sorts self result }
    {
        Sequence::from_vec(in_order(self.items))
    }
}

fn in_order(rows: Vec<RowOut>) -> Vec<RowOut>
    ensures { Sorts rows.items result.items }
{
    let mut sorted = rows;
    sorted.sort_unstable_by_key(|row| row.row.0);
    sorted
}
