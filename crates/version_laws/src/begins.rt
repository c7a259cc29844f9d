// What a Begin leaves as it is, and what taking back finds.
ghost use Rattle.version_laws.specs.Beginning.{HoldersStay, SlotToUseStays, TakenAfterBegin};
ghost use Rattle.version_laws.specs.Previous.{PreviousIsNext};

/// What a block takes for a transaction that has not begun, it takes for the transaction after its Begin.
pub fn taken_after_begin()
    ensures { TakenAfterBegin }
{}

/// A Begin leaves which transaction holds an undo block.
pub fn holders_stay()
    ensures { HoldersStay }
{}

/// A Begin leaves the slot that a new row takes.
pub fn slot_to_use_stays()
    ensures { SlotToUseStays }
{}

/// What a standing step of a transaction states as its previous undo is that of the next standing step of the transaction.
pub fn previous_is_next()
    ensures { PreviousIsNext }
{}
