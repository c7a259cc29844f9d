//! Laws of the redo list on beginning and taking back: a session can always begin a transaction, and each active one can be taken
//! back, as opening does with all of them. Each is the contract of a function that does nothing.
#![tactic(auto)]

ghost use Rattle.open_laws.specs.Backs.{BacksTakeOne, EndedEndsOne, RollbacksGoOn};
ghost use Rattle.open_laws.specs.Begins.{FewAreActive, SessionsCanBegin};

/// At most 64 transactions are active, so an entry of the transaction table can always be taken.
pub fn few_are_active()
    ensures { FewAreActive }
{}

/// A session without an active transaction can begin one.
pub fn sessions_can_begin()
    ensures { SessionsCanBegin }
{}

/// The next record of an active transaction's rollback is allowed, whatever else is active.
pub fn rollbacks_go_on()
    ensures { RollbacksGoOn }
{}

/// A Back takes the newest standing step of its transaction, and leaves the steps of the others.
pub fn backs_take_one()
    ensures { BacksTakeOne }
{}

/// An Ended ends its transaction alone.
pub fn ended_ends_one()
    ensures { EndedEndsOne }
{}
