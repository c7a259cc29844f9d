//! Laws of the redo list on sorts of pages: which blocks a record touches, what sort of page each block has, and that a record
//! finds the sorts that it needs. Each is the contract of a function that does nothing.
#![tactic(auto)]

ghost use Rattle.sort_laws.specs.Sorts.{CalledReusesFindTable, RecordsMeetSorts, ReuseMayComeFirst, SortsAreMade};
ghost use Rattle.sort_laws.specs.Touched.{TouchedAreThere};

/// The blocks whose pages an allowed record changes lie in the store.
pub fn touched_are_there()
    ensures { TouchedAreThere }
{}

/// Formatted blocks have pages of rows, undo blocks in use undo pages, block 1 the transaction table from the first Begin on,
/// and each table's bitmaps stand where its extents say.
pub fn sorts_are_made()
    ensures { SortsAreMade }
{}

/// Each block that an allowed record touches has the sort of page that the record needs, but for block 1 of a Reuse.
pub fn records_meet_sorts()
    ensures { RecordsMeetSorts }
{}

/// A Reuse may be allowed when there is no transaction table yet, though it touches block 1.
pub fn reuse_may_come_first()
    ensures { ReuseMayComeFirst }
{}

/// Where the record that a Reuse calls for follows it, the transaction table was there before it.
pub fn called_reuses_find_table()
    ensures { CalledReusesFindTable }
{}
