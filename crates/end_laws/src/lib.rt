//! Laws of the redo list on the records that begin and end transactions and take their changes back: what each must state is a
//! function of the list, and all of it stands in pages. Each is the contract of a function that does nothing.
#![tactic(auto)]

ghost use Rattle.end_laws.specs.Ending.{CommitsAreAllowed, EndsAreAllowed, BacksAreAllowed};
ghost use Rattle.end_laws.specs.Backing.{BacksAreTold};
ghost use Rattle.end_laws.specs.Beginning.{BeginsAreTold};

/// The Commit of an active transaction of which nothing is taken back is allowed.
pub fn commits_are_allowed()
    ensures { CommitsAreAllowed }
{}

/// The Ended of an active transaction of which no record is left is allowed.
pub fn ends_are_allowed()
    ensures { EndsAreAllowed }
{}

/// A step of the rollback of an active transaction is allowed.
pub fn backs_are_allowed()
    ensures { BacksAreAllowed }
{}

/// All that a step of a rollback states is found: the parts in the undo block of the record that it takes back, which is in
/// use; the list entries in their row blocks, which are the table's; the row by the first part; the table by the extent.
pub fn backs_are_told()
    ensures { BacksAreTold }
{}

/// The Begin that takes the entry which the transaction table uses next is allowed.
pub fn begins_are_told()
    ensures { BeginsAreTold }
{}
