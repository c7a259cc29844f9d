//! Where shrink stops, as definitions (`specs/Stops`, `specs/Cursor`), and the laws of the redo list on which a shrink and a
//! lowering stand, whatever other sessions do meanwhile. Each law is the contract of a function that does nothing.
#![tactic(auto)]

ghost use Rattle.shrink_laws.specs.CursorLaws.{CursorGoesDown, CursorStarts, CursorStays, CursorStaysSince, MovingKeeps, SkippingKeeps, SkipsAreKept, StopsRightly, StopsRightlyAtBottom};
ghost use Rattle.shrink_laws.specs.Grown.{DataBlocksGrow};
ghost use Rattle.shrink_laws.specs.Heads.{HeadsAreApart};
ghost use Rattle.shrink_laws.specs.Lowered.{LowersLeaveTheRest};
ghost use Rattle.shrink_laws.specs.Named.{SlotsHoldUntilNamed};

mod skip;

pub use skip::Skip;

/// A shrink's cursor begins at the last formatted position.
pub fn cursor_starts()
    ensures { CursorStarts }
{}

/// What is true of a cursor stays true when any record is added that doesn't lower its table.
pub fn cursor_stays()
    ensures { CursorStays }
{}

/// So it does when more of them are.
pub fn cursor_stays_since()
    ensures { CursorStaysSince }
{}

/// A cursor goes down over blocks of which each slot that holds something was skipped.
pub fn cursor_goes_down()
    ensures { CursorGoesDown }
{}

/// A slot whose row has an active writer is skipped: the cursor stands there, and the skip is told.
pub fn skipping_keeps()
    ensures { SkippingKeeps }
{}

/// Where a row is moved the cursor stands there, and has passed it.
pub fn moving_keeps()
    ensures { MovingKeeps }
{}

/// A skip that was told stays so in longer lists.
pub fn skips_are_kept()
    ensures { SkipsAreKept }
{}

/// Where no block takes the row that the cursor has come to, shrink stops rightly: nothing that could move is left above.
pub fn stops_rightly()
    ensures { StopsRightly }
{}

/// Where nothing is left down to the first position, shrink stops rightly at the bottom.
pub fn stops_rightly_at_bottom()
    ensures { StopsRightlyAtBottom }
{}

/// While a table isn't lowered its data blocks keep their positions, and new ones come behind them.
pub fn data_blocks_grow()
    ensures { DataBlocksGrow }
{}

/// What a slot holds stays until a row record, a Back or a Move names the slot, or its block is formatted.
pub fn slots_hold_until_named()
    ensures { SlotsHoldUntilNamed }
{}

/// The head and the body of a migrated row stand in different blocks.
pub fn heads_are_apart()
    ensures { HeadsAreApart }
{}

/// A Lower leaves the first extents of its table, every other table, and what stands in every block.
pub fn lowers_leave_the_rest()
    ensures { LowersLeaveTheRest }
{}
