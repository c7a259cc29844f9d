//! Laws of a store whose list of records is lawful: that only want of memory can keep an allowed record from its pages, and
//! which page each block has. Each is the contract of a function that does nothing.
#![tactic(auto)]

ghost use Rattle.store_laws.specs.Kinds.{ActiveHaveTable, EntriesAreFound, RowsAreHeld, RowsStand, TablesAreNew, TablesStand, UndoIsHeld, UndoStands};
ghost use Rattle.store_laws.specs.Putting.{FittingPairsFit, FittingRecordsFit, LawfulListsFit, PairsFit, RecordsFit};

/// An allowed record fits on the page of each block that it touches, and each of these blocks is there; but for a Reuse
/// before any transaction, which comes with the record that it was made for.
pub fn records_fit()
    ensures { RecordsFit }
{}

/// So do a Table with its first Extend, and a Reuse with the record that it was made for, one after the other.
pub fn pairs_fit()
    ensures { PairsFit }
{}

/// What fits on the pages of a list fits on the pages of a store that has them, whatever the list.
pub fn fitting_records_fit()
    ensures { FittingRecordsFit }
{}

/// So does a record after another.
pub fn fitting_pairs_fit()
    ensures { FittingPairsFit }
{}

/// Each record of a lawful list fits on the pages that it touches, as the records before it leave them: the pages of such a
/// list can be made from an empty store.
pub fn lawful_lists_fit()
    ensures { LawfulListsFit }
{}

/// From the first Begin on block 1 has the page of the transaction table, and it holds what the list says.
pub fn tables_stand()
    ensures { TablesStand }
{}

/// So while a transaction is active.
pub fn active_have_table()
    ensures { ActiveHaveTable }
{}

/// Looking in the table for an active transaction finds the place of its entry.
pub fn entries_are_found()
    ensures { EntriesAreFound }
{}

/// Before the first Begin block 1 was never written, and a new table holds what the list says.
pub fn tables_are_new()
    ensures { TablesAreNew }
{}

/// An undo block that was taken into use has a page of undo: its sequence is how often that was, its parts are those that the
/// list says it holds.
pub fn undo_stands()
    ensures { UndoStands }
{}

/// So holds each page of undo that there is.
pub fn undo_is_held()
    ensures { UndoIsHeld }
{}

/// A formatted block of a table has a page of rows, with the slots and list entries that the list says.
pub fn rows_stand()
    ensures { RowsStand }
{}

/// So holds each page of rows that there is.
pub fn rows_are_held()
    ensures { RowsAreHeld }
{}
