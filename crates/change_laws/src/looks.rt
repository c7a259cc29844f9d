// What a place that was found tells when it is looked at later.
ghost use Rattle.change_laws.specs.Looks.{BodiesNameHeads, PlacesShow, ReleasedAreChanged, RowsHaveUndo};

/// Where the block of a place was not released since: the image that the transaction sees there has another undo address
/// exactly where a commit or a move since changed or moved the row. Where it has the same one, the row may be changed where
/// the newest image has it too, else the writer of the newest image keeps the row busy.
pub fn places_show()
    ensures { PlacesShow }
{}

/// Where the block of a place was released since, a commit or a move changed or moved the row.
pub fn released_are_changed()
    ensures { ReleasedAreChanged }
{}

/// An image that holds a row has an undo address.
pub fn rows_have_undo()
    ensures { RowsHaveUndo }
{}

/// An image that holds the body of a migrated row names the row's head.
pub fn bodies_name_heads()
    ensures { BodiesNameHeads }
{}
