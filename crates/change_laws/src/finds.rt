// Where a row is found, and what an undo page shows.
ghost use Rattle.change_laws.specs.Examples.{ExamplesRight};
ghost use Rattle.change_laws.specs.Finds.{FoundPlacesStay, HeadsAreAtHome, RowBlocksAreBorn, RowsAreFoundOnce};
ghost use Rattle.change_laws.specs.Shows.{RowPagesShow, UndoPagesShow};

/// Each row block stands in one extent of its table, with one incarnation.
pub fn row_blocks_are_born()
    ensures { RowBlocksAreBorn }
{}

/// A row is found in one slot of one row block, exactly where it is seen at all commits; and the place that is found is one
/// that a later look may be compared with.
pub fn rows_are_found_once()
    ensures { RowsAreFoundOnce }
{}

/// A place that was found stays one while its transaction adds nothing.
pub fn found_places_stay()
    ensures { FoundPlacesStay }
{}

/// The head of a migrated row stands in a row block of the table in which its body does.
pub fn heads_are_at_home()
    ensures { HeadsAreAtHome }
{}

/// The pages of a row block and of the transaction table show which list entry a transaction uses there, what fits and is taken,
/// which slot a new row takes and with which room, and whom the list entries name.
pub fn row_pages_show()
    ensures { RowPagesShow }
{}

/// The page of an undo block shows how many bytes its parts use, where a record's parts would begin, and its holder.
pub fn undo_pages_show()
    ensures { UndoPagesShow }
{}

/// The records of the small runs are those that are drafted.
pub fn examples_are_right()
    ensures { ExamplesRight }
{}
