//! Laws of the redo list on which a scan stands that reads its blocks one by one while others change the table, and which commits
//! and moves changed a row meanwhile. Each is the contract of a function that does nothing.
#![tactic(auto)]

ghost use Rattle.scan_laws.specs.Changes.{ChangesTell};
ghost use Rattle.scan_laws.specs.RowsStay.{RowsOfBlocksStay};
ghost use Rattle.scan_laws.specs.Staying.{IncarnationsTellReleases, ReleasedAreGone, RowBlocksStay, RowBlocksStaySince, UnreleasedAreRead};

/// A row block of a table stays one, and isn't formatted again, by a record that doesn't release its extent.
pub fn row_blocks_stay()
    ensures { RowBlocksStay }
{}

/// So it does in a longer list in which no record released its extent since, with the same incarnation.
pub fn row_blocks_stay_since()
    ensures { RowBlocksStaySince }
{}

/// What a scan needs of a block that it reads later holds where the block wasn't released since it began.
pub fn unreleased_are_read()
    ensures { UnreleasedAreRead }
{}

/// A released block is none of its table's any more.
pub fn released_are_gone()
    ensures { ReleasedAreGone }
{}

/// Where a table has a block in an extent that is no newer than an earlier list, the block wasn't released since.
pub fn incarnations_tell_releases()
    ensures { IncarnationsTellReleases }
{}

/// What a whole block gives at a commit number for a transaction stays while the transaction adds nothing and the block isn't
/// formatted again.
pub fn rows_of_blocks_stay()
    ensures { RowsOfBlocksStay }
{}

/// Which commits and moves changed or moved a row between two commit numbers; where none did, the row is the same in the table at
/// both.
pub fn changes_tell()
    ensures { ChangesTell }
{}
