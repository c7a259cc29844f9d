//! Laws of the redo list on what a taking back finds: what the standing records of an active transaction state is still so when
//! they are taken back. Each is the contract of a function that does nothing.
#![tactic(auto)]

ghost use Rattle.back_laws.specs.Backs.{EntriesStay, NewestShows, StepsAreOfTables, StepsAtHome};

/// Each list entry that a standing record of an active transaction states is the one that the transaction uses there now.
pub fn entries_stay()
    ensures { EntriesStay }
{}

/// The table of a standing record of an active transaction is there, and each of its parts is in a row block of it.
pub fn steps_at_home()
    ensures { StepsAtHome }
{}

/// A standing record is of the table of its row.
pub fn steps_are_of_tables()
    ensures { StepsAreOfTables }
{}

/// The first part of an active transaction's newest record shows its row.
pub fn newest_shows()
    ensures { NewestShows }
{}
