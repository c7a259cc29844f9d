// The first laws: numbers, tables and marks, and what one more record does.
ghost use Rattle.redo_laws.specs.Added.{ImagesAfterOne, ImagesAfterSteps, MovesKeepTables, OthersAreLeft};
ghost use Rattle.redo_laws.specs.Among.{MembershipIsTold};
ghost use Rattle.redo_laws.specs.Apart.{ExtentsAreApart};
ghost use Rattle.redo_laws.specs.Forgotten.{ForgottenHavePassed};
ghost use Rattle.redo_laws.specs.Numbers.{NumbersAreGivenInOrder, NumbersAreGivenOnce};
ghost use Rattle.redo_laws.specs.Prefixes.{PrefixesStay};
ghost use Rattle.redo_laws.specs.Short.{NumbersAreShort};
ghost use Rattle.redo_laws.specs.Tables.{LowMarkRule, PrefixesAreLawful, RecordsNameTables};

/// Every block of a table at a position below its low mark is formatted.
pub fn low_mark_rule()
    ensures { LowMarkRule }
{}

/// The first records of a lawful list are lawful, unless a Table or a Reuse is the last of them.
pub fn prefixes_are_lawful()
    ensures { PrefixesAreLawful }
{}

/// A record names only tables that are there.
pub fn records_name_tables()
    ensures { RecordsNameTables }
{}

/// A row number, a transaction number, a commit number and a lowering are each given once, from 1 on.
pub fn numbers_are_given_once()
    ensures { NumbersAreGivenOnce }
{}

/// They are given in order: each record that gives one gives the next.
pub fn numbers_are_given_in_order()
    ensures { NumbersAreGivenInOrder }
{}

/// No number that a list gives, and no sequence of an undo block, is greater than the count of its records.
pub fn numbers_are_short()
    ensures { NumbersAreShort }
{}

/// A record leaves the slots and entries of each block that it doesn't name.
pub fn others_are_left()
    ensures { OthersAreLeft }
{}

/// A Move changes no table at any commit number.
pub fn moves_keep_tables()
    ensures { MovesKeepTables }
{}

/// What a FormatBlock and a Clean leave in each slot of their block.
pub fn images_after_one()
    ensures { ImagesAfterOne }
{}

/// A forgotten transaction has committed or rolled back, and its commit number is at most the control number.
pub fn forgotten_have_passed()
    ensures { ForgottenHavePassed }
{}

/// A row record or a Move puts its images over those of the slots that its parts name, and a Back uncovers them again.
pub fn images_after_steps()
    ensures { ImagesAfterSteps }
{}

/// Each extent of a table is a whole one of the store, stands in one table alone, and there once, of at most 900; so does
/// each data block, past the undo blocks and within the store.
pub fn extents_are_apart()
    ensures { ExtentsAreApart }
{}

/// The first n records of a list are those of every longer list.
pub fn prefixes_stay()
    ensures { PrefixesStay }
{}

/// Membership in a list of blocks, as a test and as std says it.
pub fn membership_is_told()
    ensures { MembershipIsTold }
{}
