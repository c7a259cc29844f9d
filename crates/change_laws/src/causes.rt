// Why a change of a row is refused.
ghost use Rattle.change_laws.specs.Causes.{ChangesNeed, LackIsNoSlot, RowsStandOnce};

/// A block has no list entry for a transaction exactly where all its entries name other active transactions, and there are as
/// many as there can be or a new one's bytes aren't free.
pub fn lack_is_no_slot()
    ensures { LackIsNoSlot }
{}

/// A row stands in one place.
pub fn rows_stand_once()
    ensures { RowsStandOnce }
{}

/// An allowed record that changes a row that was there: the row isn't busy, the blocks that it must change have list entries,
/// and its kind is the way that the update goes.
pub fn changes_need()
    ensures { ChangesNeed }
{}
