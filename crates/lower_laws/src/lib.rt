//! The Lower of a table as a function of the list (`specs/Drafts`), and its laws: that it is allowed exactly where some extent is
//! released, and how many extents are kept. Each law is the contract of a function that does nothing.
#![tactic(auto)]

ghost use Rattle.lower_laws.specs.Kept.{KeptIsTold, KeptIsWithin};
ghost use Rattle.lower_laws.specs.Lowers.{LowersAreAllowed, LowersLeaveLawful};
ghost use Rattle.lower_laws.specs.Worked.{LoweringRight};

/// Where some extent is released the drafted Lower is allowed; no other Lower of the table is, and none where all extents are
/// kept.
pub fn lowers_are_allowed()
    ensures { LowersAreAllowed }
{}

/// The list with the Lower, or as it was where nothing is released, is lawful, and has the high mark that is stated.
pub fn lowers_leave_lawful()
    ensures { LowersLeaveLawful }
{}

/// The extents that are kept are those up to the last one, after the first, that isn't vacant.
pub fn kept_is_told()
    ensures { KeptIsTold }
{}

/// No more extents are kept than the table has.
pub fn kept_is_within()
    ensures { KeptIsWithin }
{}

/// The second extent of a small table is released, once.
pub fn lowering_computes()
    ensures { LoweringRight }
{}
