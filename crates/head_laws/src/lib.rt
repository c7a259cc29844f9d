//! Laws of the redo list on where a located row stands when it is changed later: its head is still the one that was found, so
//! that a block which is none of these two is another one. Each is the contract of a function that does nothing.
#![tactic(auto)]

ghost use Rattle.head_laws.specs.Heads.{FoundAreTargets, FreeAreNewest, HeadsStay, LocatedPlacesStay, LocatedWereFound, TargetsAreOther, WholeRowsAreSought};
ghost use Rattle.head_laws.specs.Needs.{NeedsAreMet};

/// A place that was located stays one, with its head, while its transaction adds nothing.
pub fn located_places_stay()
    ensures { LocatedPlacesStay }
{}

/// A place that was located is one that a later look is compared with.
pub fn located_were_found()
    ensures { LocatedWereFound }
{}

/// Where a row that was found is free now, the newest image at its place is the one that its transaction sees there, with the
/// undo address that was found.
pub fn free_are_newest()
    ensures { FreeAreNewest }
{}

/// Where a row that was located is free now, it stands whole or apart from its head just as it was located.
pub fn heads_stay()
    ensures { HeadsStay }
{}

/// Where a row that was located is free now, a search by its place and its head leaves out exactly the blocks in which it stands.
pub fn targets_are_other()
    ensures { TargetsAreOther }
{}

/// A block that such a search gives is one to which the row may go.
pub fn found_are_targets()
    ensures { FoundAreTargets }
{}

/// Where an update of a row that was located answers that it needs a block, the row may go to the block that such a search gives,
/// and the update with it is the migration there or finds undo full, in the same list.
pub fn needs_are_met()
    ensures { NeedsAreMet }
{}

/// A search that leaves out no head's block is the one that leaves out the place's block alone.
pub fn whole_rows_are_sought()
    ensures { WholeRowsAreSought }
{}
