// The labels of a script, with the rows that they stand for.
ghost use Rattle.std.specs.Prelude.{◌≡◌, [], OnErr, OnOk};
ghost use Rattle.session_step.specs.Bindings.{IsBound, row_of};

use indexmap::IndexMap;
use seg_base::{Name, NoMemory, RowNo};
use std::alloc::Global;
use std::marker::Model;

/// The labels that are bound, each once, with their rows.
#[derive(Drop)]
pub struct Labels {
    rows: IndexMap<Vec<u8>, RowNo>,
}

impl Model for Labels {
    ghost use Rattle.std.specs.Prelude.{List, ℕ, map};

    ghost Value = { List (List ℕ × ℕ) };

    ghost view = { λ l. map (λ e. (e.0.items, e.1)) l.rows.entries };
}

impl Labels {
    pub fn new(alloc: Global) -> Labels
        ensures { result ≡ [] }
    {
        Labels {
            rows: IndexMap::new(alloc),
        }
    }

    /// The row that a label stands for.
    pub fn row(&self, label: &Name) -> Option<RowNo>
        ensures { result ≡ row_of self.now label.now }
    {
        match self.rows.get(label.as_slice()) {
            Some(row) => Some(*row),
            None => None,
        }
    }

    /// A label stands for this row from now on.
    pub fn bind(&mut self, alloc: Global, label: &Name, row: RowNo) -> Result<(), NoMemory>
        ensures bound { OnOk result (IsBound self.old label.now row self.new) }
        ensures failed { OnErr result (self.new ≡ self.old) }
    {
        let key = Vec::from_slice(alloc, label.as_slice())?;
        self.rows.insert(key, row)?;
        Ok(())
    }
}
