// The row blocks that an event changed.
ghost use Rattle.std.specs.Prelude.{◌≡◌, None, Some};
ghost use Rattle.session_core.specs.Changed.{changed_if, in_table, of_blocks};

use row_change::{ChangeFault, Done};
use seg_base::{Dba, Obj};

/// The row blocks that an event changed: at most three, of one table. The table is told where the event knows it.
#[derive(Clone, Copy, Debug, PartialEq, Eq, Drop)]
pub struct Changed {
    pub obj: Option<Obj>,
    pub first: Option<Dba>,
    pub second: Option<Dba>,
    pub third: Option<Dba>,
}

impl Changed {
    pub fn none() -> Changed
        ensures { result ≡ record { obj = None; first = None; second = None; third = None } }
    {
        Changed {
            obj: None,
            first: None,
            second: None,
            third: None,
        }
    }

    pub fn one(at: Dba) -> Changed
        ensures { result ≡ record { obj = None; first = Some at; second = None; third = None } }
    {
        Changed {
            obj: None,
            first: Some(at),
            second: None,
            third: None,
        }
    }

    /// The first three of these.
    pub fn of(blocks: &[Dba]) -> Changed
        ensures { result ≡ of_blocks blocks.now }
    {
        Changed {
            obj: None,
            first: blocks.get(0).copied(),
            second: blocks.get(1).copied(),
            third: blocks.get(2).copied(),
        }
    }

    /// The same of this table.
    pub fn in_table(self, obj: Obj) -> Changed
        ensures { result ≡ in_table obj self }
    {
        Changed {
            obj: Some(obj),
            first: self.first,
            second: self.second,
            third: self.third,
        }
    }
}

/// Where the row was changed, these are its blocks.
pub fn note_made(made: &Result<Done, ChangeFault>, blocks: Changed, changed: &mut Changed)
    ensures { changed.new ≡ changed_if made.now blocks changed.old }
{
    if made.is_ok() {
        *changed = blocks;
    }
}
