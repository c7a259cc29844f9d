// Laws of a step: where the cursor stands, that the step is one, and that the record which it adds is allowed.
ghost use Rattle.shrink_move.specs.Follows.{StepsFollow};
ghost use Rattle.shrink_move.specs.MoveLaws.{RowsMoveToBlocks, RowsMoveToBodies};
ghost use Rattle.shrink_move.specs.Ones.{NextsAreOne};
ghost use Rattle.shrink_move.specs.There.{CursorsAreThere};

/// The list, the slots that were skipped and where the cursor stands leave no choice of a step.
pub fn nexts_are_one()
    ensures { NextsAreOne }
{}

/// The Move of a row that goes to a block is allowed, after a Reuse where its undo asks for one, and where undo is full no such
/// record is.
pub fn rows_move_to_blocks()
    ensures { RowsMoveToBlocks }
{}

/// So it is of the Move that makes a head's body the row.
pub fn rows_move_to_bodies()
    ensures { RowsMoveToBodies }
{}

/// The cursor of a shrink stands at one of the table's positions while the table isn't lowered.
pub fn cursors_are_there()
    ensures { CursorsAreThere }
{}

/// A step is one of the list's cursor: the laws on the cursor speak of it.
pub fn steps_follow()
    ensures { StepsFollow }
{}
