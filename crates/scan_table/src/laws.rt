// What other sessions' records leave of an open scan.
ghost use Rattle.scan_table.specs.Sessions.{ScansAreWork};
ghost use Rattle.scan_table.specs.Standing.{MarksAreLowerings, ScansStay};

/// A scan stands after a record of another transaction as it did before, but for its mark: the first lowering since it began that
/// released an extent with a block that it has yet to read, with the least such extent.
pub fn scans_stay()
    ensures { ScansStay }
{}

/// What a lowering released, handed to the scans, marks each as the record of the lowering says.
pub fn marks_are_lowerings()
    ensures { MarksAreLowerings }
{}

/// A session's scan stands as the work of its statement where it holds what a scan holds, and the other way round.
pub fn scans_are_work()
    ensures { ScansAreWork }
{}
