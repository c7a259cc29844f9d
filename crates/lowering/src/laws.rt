// What a lowering's answer means.
ghost use Rattle.lowering.specs.Means.{LoweringsMean};

/// Either a Lower of the table was added, which released the extents that are answered and left the high mark that is answered,
/// or the longest suffix of vacant extents is empty, nothing was added, and the high mark is the table's.
pub fn lowerings_mean()
    ensures { LoweringsMean }
{}
