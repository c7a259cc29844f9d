//! Laws of the redo list on settling: what can change a block's class, whom a block names, and what a Clean leaves. Each is the
//! contract of a function that does nothing.
#![tactic(auto)]

ghost use Rattle.settle_laws.specs.Classes.{ClassesStay};
ghost use Rattle.settle_laws.specs.Cleaned.{CleansSettle};
ghost use Rattle.settle_laws.specs.Named.{NamedHaveWritten};

/// A block's class changes only by a record that changes the block, or by a commit or an end of a transaction that its slots
/// name.
pub fn classes_stay()
    ensures { ClassesStay }
{}

/// A block names a transaction only where a row record of it has a part in the block since its last FormatBlock.
pub fn named_have_written()
    ensures { NamedHaveWritten }
{}

/// After a Clean no slot of its block names a committed transaction that isn't forgotten, its list entries name active ones
/// alone, and the class of the block is as before.
pub fn cleans_settle()
    ensures { CleansSettle }
{}
