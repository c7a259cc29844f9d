//! Laws of the redo list on the settling of a row block: the Clean and the Class that it adds are functions of the list (`specs/Drafts`),
//! they are allowed, and after them the block needs nothing. Each is the contract of a function that does nothing.
#![tactic(auto)]

ghost use Rattle.usage_laws.specs.Bests.{ClassesAreTold};
ghost use Rattle.usage_laws.specs.Settling.{CleansAreAllowed, CleansAreOne, ClassesAreAllowed, ClassesAreOne, SettledIsLawful, CallsAreMeant, SettledNeedsNothing, SettledStays, SettledBlocks, SettledAddsWhat, SettledAgain};
ghost use Rattle.usage_laws.specs.Told.{SettlingsAreTold};
ghost use Rattle.usage_laws.specs.Worked.{SettledRight};

/// The Clean that names the ended transactions of a row block is allowed.
pub fn cleans_are_allowed()
    ensures { CleansAreAllowed }
{}

/// It is the only one of its block that is.
pub fn cleans_are_one()
    ensures { CleansAreOne }
{}

/// The Class that gives a row block the class of its free bytes is allowed where its kept class is another one.
pub fn classes_are_allowed()
    ensures { ClassesAreAllowed }
{}

/// It is the only one of this class that is.
pub fn classes_are_one()
    ensures { ClassesAreOne }
{}

/// A Clean is called for exactly where a slot names a committed transaction that isn't forgotten, and a Class exactly where the
/// kept class isn't the block's.
pub fn calls_are_meant()
    ensures { CallsAreMeant }
{}

/// The list after a settling is lawful.
pub fn settled_is_lawful()
    ensures { SettledIsLawful }
{}

/// A settled block needs nothing.
pub fn settled_needs_nothing()
    ensures { SettledNeedsNothing }
{}

/// A settling leaves tables, transactions, marks, what blocks have free, and all other blocks and their kept classes as they were.
pub fn settled_stays()
    ensures { SettledStays }
{}

/// What a settling makes of its block, and that the kept class changes exactly where a Class is added.
pub fn settled_blocks()
    ensures { SettledBlocks }
{}

/// The records that a settling adds, each exactly where the list before calls for it.
pub fn settled_adds_what()
    ensures { SettledAddsWhat }
{}

/// A block that needs nothing is settled by no record, so that settling one again adds nothing.
pub fn settled_again()
    ensures { SettledAgain }
{}

/// The transactions that a Clean names and their numbers, whether one is called for, and the block's class are found in the page
/// of the block and in the transaction table.
pub fn settlings_are_told()
    ensures { SettlingsAreTold }
{}

/// The kept class of a row block, by which a Class is called for, and the bests that the Class states are found in the first and the
/// second level of its extent.
pub fn classes_are_told()
    ensures { ClassesAreTold }
{}

/// The definitions on two small runs.
pub fn settled_computes()
    ensures { SettledRight }
{}
