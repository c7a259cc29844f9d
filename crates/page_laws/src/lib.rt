//! Laws of the redo list on what stands in a page: that the parts of a record fit the row blocks and undo blocks that it names,
//! and what the transaction table tells. Each is the contract of a function that does nothing.
#![tactic(auto)]

ghost use Rattle.page_laws.specs.Fits.{NamedBlocksAreFormatted, PartsAreAtHome, StepsFitInTurn};
ghost use Rattle.page_laws.specs.Parts.{BackPartsFitInTurn, PartsFitInTurn};
ghost use Rattle.page_laws.specs.Txns.{TxnsAreInTable};
ghost use Rattle.page_laws.specs.UndoPages.{UndoPagesAreSpelled, UndoTakesParts};

/// The parts of an allowed row record or Move can be put one after the other, in any order: after some of its images and some
/// of its list entries, each slot and each entry has its place, and the block fits its page.
pub fn parts_fit_in_turn()
    ensures { PartsFitInTurn }
{}

/// So can the parts of a Back.
pub fn back_parts_fit_in_turn()
    ensures { BackPartsFitInTurn }
{}

/// An allowed record can be had on each row block that it names: its images one after the other, the last part first, and
/// then its list entries.
pub fn steps_fit_in_turn()
    ensures { StepsFitInTurn }
{}

/// A row block that an allowed record names is formatted.
pub fn named_blocks_are_formatted()
    ensures { NamedBlocksAreFormatted }
{}

/// The block of a part of an allowed record is a row block of the record's table, that of a part of a Back one of some table.
pub fn parts_are_at_home()
    ensures { PartsAreAtHome }
{}

/// Each part that an undo block holds has a spelling, they fit the block, and there are at most 63.
pub fn undo_pages_are_spelled()
    ensures { UndoPagesAreSpelled }
{}

/// The undo block of an allowed record is the current one, was taken into use, and has room for the record's parts.
pub fn undo_takes_parts()
    ensures { UndoTakesParts }
{}

/// The user of an entry of the transaction table is the transaction whose entry it is and that isn't forgotten; the control
/// number is at most the number of commits; the last undo of an active transaction is in the ring, and there.
pub fn txns_are_in_table()
    ensures { TxnsAreInTable }
{}
