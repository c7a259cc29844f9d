//! Laws of the redo list on where a row is found: a search goes over the data blocks of a table by position, and what it finds
//! is the one slot where the row stands now for a transaction. Each is the contract of a function that does nothing.
#![tactic(auto)]

ghost use Rattle.place_laws.specs.Located.{GivenAreAtHome, LocatedAreFound, SearchesEnd};

/// Where no data block before a position gives a row, and no block under the high mark is left, the table doesn't have the row
/// now for the transaction.
pub fn searches_end()
    ensures { SearchesEnd }
{}

/// A data block of a table that gives a row now is formatted and lies under the high mark, whatever its page shows that was
/// written before its extent came to the table.
pub fn given_are_at_home()
    ensures { GivenAreAtHome }
{}

/// A place that is located is one that a later look is compared with; the table has the row now, and no other slot gives it.
pub fn located_are_found()
    ensures { LocatedAreFound }
{}
