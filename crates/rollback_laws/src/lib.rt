//! Laws of the redo list on an opening: what it makes of a list is a function of the list, in which nothing is active and each
//! table is as it was, and an opening that is cut off is gone on with. Each is the contract of a function that does nothing.
#![tactic(auto)]

ghost use Rattle.rollback_laws.specs.Closing.{AheadIsCounted, ClosedStay, ClosingGoesOn, ListsClose, RollbacksClose, StepsClose};

/// What an opening makes of a lawful list is lawful, has no active transaction, and is the list with Backs and Ended alone; so
/// its commits and its tables are those of the list.
pub fn lists_close()
    ensures { ListsClose }
{}

/// A list in which no transaction is active stays as it is.
pub fn closed_stay()
    ensures { ClosedStay }
{}

/// A step of the rollback of the least active transaction, and its Ended where no step is left, lead to the list that the
/// opening makes.
pub fn steps_close()
    ensures { StepsClose }
{}

/// So does the whole rollback, after which the transaction isn't active.
pub fn rollbacks_close()
    ensures { RollbacksClose }
{}

/// What is left to do is counted by the list.
pub fn ahead_is_counted()
    ensures { AheadIsCounted }
{}

/// An opening that is cut off after any number of records is gone on with by the next one: both make the same list.
pub fn closing_goes_on()
    ensures { ClosingGoesOn }
{}
