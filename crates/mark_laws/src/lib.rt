//! How a table's marks move, and how a block for a row is searched: the definitions (`specs/Movements`, `specs/Searches`), the
//! records of tables and marks (`specs/Drafts`), and the laws of both. Each law is the contract of a function that does nothing.
#![tactic(auto)]

ghost use Rattle.mark_laws.specs.Moves.{MarksAreAllowed, MovementsAreAllowed, TablesAreMade};
ghost use Rattle.mark_laws.specs.Movements.{NextMarksMean};
ghost use Rattle.mark_laws.specs.Refusals.{RefusalsMean};
ghost use Rattle.mark_laws.specs.Searches.{FoundTakes, SearchesMean};
ghost use Rattle.mark_laws.specs.There.{CodesTell, TablesHaveExtents, UnformattedFromLow};
ghost use Rattle.mark_laws.specs.Worked.{NewTableRight, SearchesRight};

mod step;

pub use step::{Found, MarkStep, Refusal};

/// Each movement of a table's marks is the next one exactly where its own condition holds, and there is none exactly where all
/// data blocks are under the high mark and formatted, and the table has 900 extents or none is free.
pub fn next_marks_mean()
    ensures { NextMarksMean }
{}

/// The next movement of the marks has a record that is allowed, and no other record of its kinds is.
pub fn marks_are_allowed()
    ensures { MarksAreAllowed }
{}

/// A new table takes the least free extent: its two records are allowed, one after the other. Without a free extent no table
/// can be made.
pub fn tables_are_made()
    ensures { TablesAreMade }
{}

/// Row movement can be turned on and off at any time, by one record.
pub fn movements_are_allowed()
    ensures { MovementsAreAllowed }
{}

/// What a search gives is the first in its order, and it is refused exactly where no block takes the row and the marks can't
/// move.
pub fn searches_mean()
    ensures { SearchesMean }
{}

/// A search that is refused is so by one refusal: for want of space where the table has fewer than 900 extents and none is free,
/// else since it has 900.
pub fn refusals_mean()
    ensures { RefusalsMean }
{}

/// A block that a search gives is a formatted block of the table under its high mark that takes the row.
pub fn found_takes()
    ensures { FoundTakes }
{}

/// A table of a lawful list has 1 to 900 extents, each a whole one of the store.
pub fn tables_have_extents()
    ensures { TablesHaveExtents }
{}

/// The code of a block is 0 exactly where it isn't formatted, else that of its kept class.
pub fn codes_tell()
    ensures { CodesTell }
{}

/// The first unformatted block under the high mark is the first one at a position from the low mark on.
pub fn unformatted_from_low()
    ensures { UnformattedFromLow }
{}

/// In a new table the marks move, the first block is formatted, and then it takes the row.
pub fn new_table_computes()
    ensures { NewTableRight }
{}

/// A table that gets all extents of a store: its marks move to the end, a search under a hint, past full blocks, and refused.
pub fn searches_compute()
    ensures { SearchesRight }
{}
