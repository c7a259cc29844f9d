//! Laws of legal histories: what stays, what an event of one session keeps of the whole, what it leaves of the work of the others,
//! and what a scan gathers while they go on. Each is the contract of a function that does nothing.
#![tactic(auto)]

ghost use Rattle.history_laws.specs.Acting.{BacksBegin, BacksEnd, BacksGo, InsertsMove, MarksLeaveWork, RowsAreFound, RowsBegin, UpdatesMove};
ghost use Rattle.history_laws.specs.Answered.{BusyAnswers, NeedsSeek, SpentDeletes, SpentUpdates, TakenAnswers};
ghost use Rattle.history_laws.specs.Changing.{DeletesTell, InsertsTell, UpdatesTell};
ghost use Rattle.history_laws.specs.Keeping.{EntriesAreLegal, EntriesStay, MovesBelong, OwnersAreOne, RecordsAreLegal, RecordsBelong, StartsAreLegal, WaysAreKnown};
ghost use Rattle.history_laws.specs.OneEvent.{CommitsTell, FixedTell, FixesTell, MovementsTell, TablesTell};
ghost use Rattle.history_laws.specs.Others.{EventsLeaveTransactions, EventsLeaveWork, RecordsLeaveWork};
ghost use Rattle.history_laws.specs.Passes.{AcceptedPasses, FirstIsRefused, FirstPassLater, FirstPassStays};
ghost use Rattle.history_laws.specs.Refusals.{AgainIsRefused, BusyIsRefused, EntriesPass, FoundPass, InsertsPass, MaxExtentsIsRefused, NoExtentIsRefused, NoRowIsRefused, NoSlotIsRefused, NoSpaceIsRefused, UndoFullIsRefused, WritesPass};
ghost use Rattle.history_laws.specs.ScanRefusals.{LostAreRefused, MarkedAreRefused, UnknownAreRefused};
ghost use Rattle.history_laws.specs.Shrinks.{CompactsMean, CursorsCome, CursorsPass, CursorsStop, LastExtentsStay, LowersMean, ShrinksAreSpent, ShrinksBegin, ShrinksMove, ShrinksSkip, ShrinksStop, StaysMean, StopsAreRight};
ghost use Rattle.history_laws.specs.Starts.{StartsEnd, StartsGoOn};
ghost use Rattle.history_laws.specs.Telling.{EntriesKeep, OthersAreTold, OwnIsTold, SpansBegin, StartsKeep};
ghost use Rattle.history_laws.specs.Tests.{FirstCausesTell};
ghost use Rattle.history_laws.specs.Ways.{EventsKeep, HistoriesBegin, HistoriesGoOn, HistoriesSettle, RunsAreLegal, RunsEnd, SessionsRun, SettlingsKeep, WorksGoOn};
ghost use Rattle.history_laws.specs.Scans.{EmptyScansMean, MarksMean, ScansMean, ScansOpen, ScansRead};

/// What each start and each entry says of some records it says of every list that begins with them, whatever was added: so an
/// event proves its own entry alone.
pub fn entries_stay()
    ensures { EntriesStay }
{}

/// A start that stands keeps the whole legal.
pub fn starts_are_legal()
    ensures { StartsAreLegal }
{}

/// So do the records that an event may add, also where it doesn't come to its end.
pub fn records_are_legal()
    ensures { RecordsAreLegal }
{}

/// So does an entry that stands.
pub fn entries_are_legal()
    ensures { EntriesAreLegal }
{}

/// What is under way is of a session of the scripts, and began after the records that the call found.
pub fn ways_are_known()
    ensures { WaysAreKnown }
{}

/// A record that has an owner stands in the range of exactly one entry or statement under way of its session.
pub fn owners_are_one()
    ensures { OwnersAreOne }
{}

/// Each record of the kinds that belong to a statement belongs to exactly one.
pub fn records_belong()
    ensures { RecordsBelong }
{}

/// A record of one session leaves the work of another, but that it may mark a scan.
pub fn records_leave_work()
    ensures { RecordsLeaveWork }
{}

/// So does an event.
pub fn events_leave_work()
    ensures { EventsLeaveWork }
{}

/// It leaves the other session its transaction, or none.
pub fn events_leave_transactions()
    ensures { EventsLeaveTransactions }
{}

/// A scan that opens with a block to read is under way.
pub fn scans_open()
    ensures { ScansOpen }
{}

/// One without has all of its view's rows, which are none.
pub fn empty_scans_mean()
    ensures { EmptyScansMean }
{}

/// A scan that isn't marked, and reads a block, has what its blocks gave as it began.
pub fn scans_read()
    ensures { ScansRead }
{}

/// When all blocks are read it has each row of its view once, in order of row number.
pub fn scans_mean()
    ensures { ScansMean }
{}

/// A mark is the cause of a refusal.
pub fn marks_mean()
    ensures { MarksMean }
{}

/// Where the place of a row tells that it changed, the start is noted and another one begins.
pub fn starts_go_on()
    ensures { StartsGoOn }
{}

/// The last one that may be is the refusal.
pub fn starts_end()
    ensures { StartsEnd }
{}

/// A row that isn't there, past the first tests.
pub fn no_row_is_refused()
    ensures { NoRowIsRefused }
{}

/// A row that another active transaction keeps.
pub fn busy_is_refused()
    ensures { BusyIsRefused }
{}

/// As many starts as there may be.
pub fn again_is_refused()
    ensures { AgainIsRefused }
{}

/// A block without a list entry, of a row that is there and free.
pub fn no_slot_is_refused()
    ensures { NoSlotIsRefused }
{}

/// No block takes the row and no extent is free.
pub fn no_space_is_refused()
    ensures { NoSpaceIsRefused }
{}

/// No block takes the row and the table has as many extents as it may have.
pub fn max_extents_is_refused()
    ensures { MaxExtentsIsRefused }
{}

/// Undo is full for the record, with a block for the row.
pub fn undo_full_is_refused()
    ensures { UndoFullIsRefused }
{}

/// An insert passes the causes that speak of a row.
pub fn inserts_pass()
    ensures { InsertsPass }
{}

/// A row that may be changed is there and free.
pub fn writes_pass()
    ensures { WritesPass }
{}

/// Where no block that must be changed lacks a list entry, that cause is passed too.
pub fn entries_pass()
    ensures { EntriesPass }
{}

/// A search that finds a block passes the causes that none does.
pub fn found_pass()
    ensures { FoundPass }
{}

/// A shrink that stops has what its entry will say.
pub fn shrinks_stop()
    ensures { ShrinksStop }
{}

/// One that only compacts means it.
pub fn compacts_mean()
    ensures { CompactsMean }
{}

/// One that lowers means it with the Lower at its end.
pub fn lowers_mean()
    ensures { LowersMean }
{}

/// Or with the last extent that stays.
pub fn stays_mean()
    ensures { StaysMean }
{}

/// It stays where the longest suffix of vacant extents after the first is empty.
pub fn last_extents_stay()
    ensures { LastExtentsStay }
{}

/// A start of a session's next statement keeps the whole legal.
pub fn starts_keep()
    ensures { StartsKeep }
{}

/// So does the entry of the statement under way that means its row now.
pub fn entries_keep()
    ensures { EntriesKeep }
{}

/// A statement that starts now begins with the records as they are.
pub fn spans_begin()
    ensures { SpansBegin }
{}

/// A start puts its statement under way, and an entry ends it.
pub fn own_is_told()
    ensures { OwnIsTold }
{}

/// What another session tells leaves what is under way and the count of entries.
pub fn others_are_told()
    ensures { OthersAreTold }
{}

/// That no first cause applies stays while the statement is under way.
pub fn first_pass_stays()
    ensures { FirstPassStays }
{}

/// So an accepted outcome passes over them.
pub fn accepted_passes()
    ensures { AcceptedPasses }
{}

/// A refusal at the first event means the first cause that applies.
pub fn first_is_refused()
    ensures { FirstIsRefused }
{}

/// A row that is found busy is the cause of that refusal.
pub fn busy_answers()
    ensures { BusyAnswers }
{}

/// A block that must be changed and has no list entry is the cause of that one.
pub fn taken_answers()
    ensures { TakenAnswers }
{}

/// An update that needs another block looks for one past its own blocks.
pub fn needs_seek()
    ensures { NeedsSeek }
{}

/// Undo that is full for the change of an update is the cause of that refusal.
pub fn spent_updates()
    ensures { SpentUpdates }
{}

/// So it is for that of a delete.
pub fn spent_deletes()
    ensures { SpentDeletes }
{}

/// No extent is free for a new table.
pub fn no_extent_is_refused()
    ensures { NoExtentIsRefused }
{}

/// A marked scan is refused with its mark.
pub fn marked_are_refused()
    ensures { MarkedAreRefused }
{}

/// A scan that isn't is refused where its next block needs undo that was reused.
pub fn lost_are_refused()
    ensures { LostAreRefused }
{}

/// Or where its next block reaches an image of a forgotten transaction.
pub fn unknown_are_refused()
    ensures { UnknownAreRefused }
{}

/// A shrink begins with its cursor at the last formatted position.
pub fn shrinks_begin()
    ensures { ShrinksBegin }
{}

/// A slot that it skips is told at its place.
pub fn shrinks_skip()
    ensures { ShrinksSkip }
{}

/// A row that it moves is counted.
pub fn shrinks_move()
    ensures { ShrinksMove }
{}

/// Where its cursor comes to a slot, all above was passed.
pub fn cursors_come()
    ensures { CursorsCome }
{}

/// It stops where the row that it has come to fits nowhere below.
pub fn cursors_stop()
    ensures { CursorsStop }
{}

/// Or where nothing is left down to the first position.
pub fn cursors_pass()
    ensures { CursorsPass }
{}

/// Each such stop is a right one.
pub fn stops_are_right()
    ensures { StopsAreRight }
{}

/// Undo that is full for the next move refuses the shrink.
pub fn shrinks_are_spent()
    ensures { ShrinksAreSpent }
{}

/// A statement at work is on its way.
pub fn works_go_on()
    ensures { WorksGoOn }
{}

/// A run whose sessions have ended is at its end.
pub fn runs_end()
    ensures { RunsEnd }
{}

/// An event keeps the history legal and its moments in order.
pub fn events_keep()
    ensures { EventsKeep }
{}

/// An insert that is made adds its Begin, a Reuse and its row, and tells it.
pub fn inserts_tell()
    ensures { InsertsTell }
{}

/// So does an update, by whichever way it goes.
pub fn updates_tell()
    ensures { UpdatesTell }
{}

/// And a delete.
pub fn deletes_tell()
    ensures { DeletesTell }
{}

/// An insert makes the movement of the marks that its search gives.
pub fn inserts_move()
    ensures { InsertsMove }
{}

/// So does an update of a row that goes to another block.
pub fn updates_move()
    ensures { UpdatesMove }
{}

/// Either goes on after it with the work that it had.
pub fn marks_leave_work()
    ensures { MarksLeaveWork }
{}

/// An update or a delete begins with a look for its row.
pub fn rows_begin()
    ensures { RowsBegin }
{}

/// Where it is found, its place is noted.
pub fn rows_are_found()
    ensures { RowsAreFound }
{}

/// A rollback begins with a whole transaction.
pub fn backs_begin()
    ensures { BacksBegin }
{}

/// It takes back one record an event.
pub fn backs_go()
    ensures { BacksGo }
{}

/// And tells that it has ended the transaction.
pub fn backs_end()
    ensures { BacksEnd }
{}

/// A table tells its Table and its Extend.
pub fn tables_tell()
    ensures { TablesTell }
{}

/// A movement tells its record.
pub fn movements_tell()
    ensures { MovementsTell }
{}

/// A commit tells its Commit.
pub fn commits_tell()
    ensures { CommitsTell }
{}

/// A fix tells its Class.
pub fn fixes_tell()
    ensures { FixesTell }
{}

/// Or that the block is kept so already.
pub fn fixed_tell()
    ensures { FixedTell }
{}

/// What events made, one after the other, is legal, with the begins, the ends and the moments that they had.
pub fn runs_are_legal()
    ensures { RunsAreLegal }
{}

/// A Move of a table in the range of a shrink of it is the shrink's.
pub fn moves_belong()
    ensures { MovesBelong }
{}

/// A run goes on where each of its sessions does.
pub fn sessions_run()
    ensures { SessionsRun }
{}

/// The first test that a statement fails as it begins is its refusal; one that fails none goes on.
pub fn first_causes_tell()
    ensures { FirstCausesTell }
{}

/// That none applies is said of a statement's beginning, whatever its end.
pub fn first_pass_later()
    ensures { FirstPassLater }
{}

/// A world of sessions begins with a history of nothing.
pub fn histories_begin()
    ensures { HistoriesBegin }
{}

/// Each of its events keeps what it promises of its history.
pub fn histories_go_on()
    ensures { HistoriesGoOn }
{}

/// So does a settling.
pub fn settlings_keep()
    ensures { SettlingsKeep }
{}

/// So does a settling, and a batch of pages.
pub fn histories_settle()
    ensures { HistoriesSettle }
{}
