//! A law of the redo list on changes of rows: how a place that was found earlier tells whether its row was changed since. It is the
//! contract of a function that does nothing.
#![tactic(auto)]

ghost use Rattle.row_laws.specs.Places.{PlacesTell};

/// Where a slot gave a row to an open transaction that has added nothing since, and the block wasn't formatted again: the
/// first image there that isn't another active transaction's has the undo address that it had exactly where no commit and
/// no move since changed or moved the row.
pub fn places_tell()
    ensures { PlacesTell }
{}
