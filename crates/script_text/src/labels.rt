// The labels of a script.
ghost use Rattle.std.specs.Prelude.{◌≡◌, [], ◌∷◌, ◌++◌, IfOk, not, bytes_eq};
ghost use Rattle.std.specs.Bool.{OnTrue};
ghost use Rattle.seg_words.specs.Types.{list_any};

use indexmap::IndexSet;
use seg_base::NoMemory;
use std::alloc::Global;
use std::marker::Model;

/// The labels that are bound, in the order in which they were.
#[derive(Drop)]
pub struct Labels {
    set: IndexSet<Vec<u8>>,
}

impl Model for Labels {
    ghost use Rattle.std.specs.Prelude.{List, ℕ, map};

    ghost Value = { List (List ℕ) };

    ghost view = { λ l. map (λ k. k.items) l.set.keys };
}

impl Labels {
    pub fn new(alloc: Global) -> Labels
        ensures { result ≡ [] }
    {
        Labels {
            set: IndexSet::new(alloc),
        }
    }

    /// Binds a label, and tells whether it wasn't bound before. One that was stays as it is.
    pub fn bind(&mut self, alloc: Global, label: &[u8]) -> Result<bool, NoMemory>
        ensures new { IfOk result (λ new. new ≡ not (list_any (bytes_eq label.now) self.old)) }
        ensures bound { IfOk result (λ new. OnTrue new (self.new ≡ self.old ++ label.now ∷ [])) }
    {
        let key = Vec::from_slice(alloc, label)?;
        let (_, new) = self.set.insert_full(key)?;
        Ok(new)
    }
}
