//! Laws of the redo list on space: tables, marks, extents, what each block of an extent is, and the bests of the bitmaps. Each
//! is the contract of a function that does nothing.
#![tactic(auto)]

ghost use Rattle.space_laws.specs.Bests.{BestsAreStated, BestsStay};
ghost use Rattle.space_laws.specs.Extents.{EachBlockHasOneRole, ExtentsStay, FirstExtentsStay, LowersFreeWhatTheyName};
ghost use Rattle.space_laws.specs.Incarnations.{IncarnationsTell};
ghost use Rattle.space_laws.specs.Marks.{FormattedAreUnderMark, MarksAreInOrder, TablesAreFew};
ghost use Rattle.space_laws.specs.Tables.{TablesAreNamed, TablesStay};

/// There are at most 32 tables.
pub fn tables_are_few()
    ensures { TablesAreFew }
{}

/// A name is that of at most one table, which is there, and each table that is there has exactly one.
pub fn tables_are_named()
    ensures { TablesAreNamed }
{}

/// A table that is there stays, with its name and its PCTFREE.
pub fn tables_stay()
    ensures { TablesStay }
{}

/// The low mark of a table is at most its high one, and that at most the number of its data blocks.
pub fn marks_are_in_order()
    ensures { MarksAreInOrder }
{}

/// A formatted data block of a table lies under its high mark.
pub fn formatted_are_under_mark()
    ensures { FormattedAreUnderMark }
{}

/// An extent of a table stays at its index, with its incarnation, until a Lower of the table names it.
pub fn extents_stay()
    ensures { ExtentsStay }
{}

/// The incarnations of a table's extents rise with the index, and an extent with one of an earlier list is the one that stood
/// at its index then.
pub fn incarnations_tell()
    ensures { IncarnationsTell }
{}

/// The first extent of a table stays, and with it the header, the L3 and the first L2.
pub fn first_extents_stay()
    ensures { FirstExtentsStay }
{}

/// A Lower frees the extents that it names, and no others.
pub fn lowers_free_what_they_name()
    ensures { LowersFreeWhatTheyName }
{}

/// Each block of a table's extent is a data block of that table alone, or one bitmap or header, and never both.
pub fn each_block_has_one_role()
    ensures { EachBlockHasOneRole }
{}

/// A record leaves the bests of the extents and groups that it doesn't name.
pub fn bests_stay()
    ensures { BestsStay }
{}

/// The bests that a record names are the ones that it states; those of a new extent and of a released one are 0.
pub fn bests_are_stated()
    ensures { BestsAreStated }
{}
