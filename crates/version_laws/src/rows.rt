// Who wrote what a slot gives.
ghost use Rattle.version_laws.specs.Newest.{GivenAreNewest, OthersHold, RowsAreNewest};

/// The newest maker of a slot that holds a row is the row's newest standing step.
pub fn rows_are_newest()
    ensures { RowsAreNewest }
{}

/// Where a slot gives a row at all commits for a transaction, the newest maker that counts is the row's newest standing
/// step that counts.
pub fn given_are_newest()
    ensures { GivenAreNewest }
{}

/// Where a slot gives a row at all commits for a transaction, and its newest image doesn't count, the row's newest standing
/// step is the active transaction's that made that image.
pub fn others_hold()
    ensures { OthersHold }
{}
