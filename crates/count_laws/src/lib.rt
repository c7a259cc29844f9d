//! That what is counted of a table's blocks position by position is what the history means by a usage. The contract of a
//! function that does nothing.
#![tactic(auto)]

ghost use Rattle.count_laws.specs.Counts.{UsagesMean};

/// A usage of a table of an allowed list, counted position by position under its high mark, is what a history means by the
/// usage of that table, where the statement adds no record.
pub fn usages_mean()
    ensures { UsagesMean }
{}
