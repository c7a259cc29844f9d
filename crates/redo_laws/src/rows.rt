// The laws on which every scan rests: where rows are, that they stay, and that undo leads to them.
ghost use Rattle.redo_laws.specs.Chain.{SlotsAreChains};
ghost use Rattle.redo_laws.specs.Economy.{UndoIsEnough};
ghost use Rattle.redo_laws.specs.Fit.{RecordsFitBlocks};
ghost use Rattle.redo_laws.specs.Homes.{HeadsNameBodies, SlotsAreAtHome};
ghost use Rattle.redo_laws.specs.Past.{PastIsLost};
ghost use Rattle.redo_laws.specs.Room.{BlocksHaveRoom};
ghost use Rattle.redo_laws.specs.Reads.{UndoIsRead};
ghost use Rattle.redo_laws.specs.Scan.{ScansAreWhole};
ghost use Rattle.redo_laws.specs.Sound.{BlocksAreSound};
ghost use Rattle.redo_laws.specs.Spelled.{RecordsAreSpelled};
ghost use Rattle.redo_laws.specs.Stays.{BlocksStay, ViewsStay};
ghost use Rattle.redo_laws.specs.Writers.{WritersAreTold};
ghost use Rattle.redo_laws.specs.Views.{RowsAreSpread, ViewOfNone};

/// At all commits, the view of an active transaction or of none is the union of what the formatted blocks of the table
/// under its high mark give: each row in one slot, a migrated one at its body.
pub fn rows_are_spread()
    ensures { RowsAreSpread }
{}

/// Without a transaction a view is the table at its commit number.
pub fn view_of_no_transaction_is_the_table()
    ensures { ViewOfNone }
{}

/// What a block gives at a commit number for a transaction stays while the transaction adds nothing and the block isn't
/// formatted again.
pub fn blocks_stay()
    ensures { BlocksStay }
{}

/// What a transaction sees at a commit number stays while it adds nothing.
pub fn views_stay()
    ensures { ViewsStay }
{}

/// Each image of a slot names the part of undo with the one below, a record states that part there, and what is followed
/// down to the first image that counts is needed.
pub fn slots_are_chains()
    ensures { SlotsAreChains }
{}

/// Undo addresses of standing records are distinct, those of active transactions aren't reused, no undo block overflows.
pub fn undo_is_enough()
    ensures { UndoIsEnough }
{}

/// A slot that holds a row, or leads to one, stands in a formatted block of the row's table under its high mark; the
/// blocks of a vacant extent hold none.
pub fn slots_are_at_home()
    ensures { SlotsAreAtHome }
{}

/// What a block counts, and its page, fit in its 4,032 bytes, whatever transactions end; it has 2 to 8 list entries, at
/// most 100 slots, and rows of at most 1,800 bytes.
pub fn blocks_have_room()
    ensures { BlocksHaveRoom }
{}

/// The body of a head and the head of a body are there, hold the same row, and name each other.
pub fn heads_name_bodies()
    ensures { HeadsNameBodies }
{}

/// At an earlier commit number rows need not be spread: in this lawful list a row that a transaction sees at such a
/// number stands in no block, since the transaction itself took its slot anew.
pub fn past_is_lost()
    ensures { PastIsLost }
{}

/// Each part of an allowed record names a slot that is there or is the next one, at most the hundredth, and a list entry
/// that is there or is the next one, at most the eighth; its image is small, and it states the one that stands there.
pub fn records_fit_blocks()
    ensures { RecordsFitBlocks }
{}

/// A scan begins after some records and reads each block after more of them. Of each row number it finds what its view
/// has, the row once or none, where its transaction adds nothing meanwhile and no block is formatted again. In order of
/// number its rows are those of the view.
pub fn scans_are_whole()
    ensures { ScansAreWhole }
{}

/// In a store within its limits, after fewer than 2 to the 64th records, each allowed record has a spelling.
pub fn records_are_spelled()
    ensures { RecordsAreSpelled }
{}

/// What stands in the slots and list entries of a block can be put on its page: numbers are in range, an Empty slot and a
/// head have no row, the room is at least the row's length, and just that under a commit number.
pub fn blocks_are_sound()
    ensures { BlocksAreSound }
{}

/// An undo address is reused just where its block's present sequence is greater. Else the block holds, at the address's
/// place, the part that the address's record stated: the image below the one that names it. The parts of an active
/// transaction's records are all there.
pub fn undo_is_read()
    ensures { UndoIsRead }
{}

/// A commit number as an image's writer says by itself whether the image counts; of a transaction its state says it: active,
/// committed, or forgotten, then from the control number on. None that was rolled back is a writer of an image.
pub fn writers_are_told()
    ensures { WritersAreTold }
{}
