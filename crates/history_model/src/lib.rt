//! Legal histories of many sessions, newest first: the starts and entries of a call's statements, what each entry means by the
//! redo records before its first event and after its last, and to which statement each record belongs. All promises that
//! speak of sessions are said by these definitions.
//!
//! The functions here do nothing. Their contracts are what the definitions say of small histories.
#![tactic(auto)]

mod history;
mod limit;

ghost use Rattle.history_model.specs.Worked.{HistoriesAreLegal, HistoriesAreRefused};
ghost use Rattle.history_model.specs.WorkedMigration.{MigrationsAreShown};
ghost use Rattle.history_model.specs.WorkedScan.{ScansAreShown};
ghost use Rattle.history_model.specs.WorkedShrink.{ShrinksAreShown};

pub use history::{HistoryItem, Kept, Settled, Start};
pub use limit::{MOST_STARTS, NEW_WORK_RECORDS};

/// A session makes a table and a row, commits and scans; two sessions change one row, of which one finds it busy first.
pub fn small_histories_are_legal()
    ensures { HistoriesAreLegal }
{}

/// Told too early, two statements at once, an uncommitted row shown, a session that no script has, a wrong cause; refused with its
/// work done, a row left out, told twice, a record that belongs to nobody, a row made by a statement still under way, a lowering
/// by a compaction.
pub fn wrong_histories_are_refused()
    ensures { HistoriesAreRefused }
{}

/// A shrink that stops at a row that fits nowhere, and one that releases an extent; a lower row named, the bottom told, and a row
/// moved past a greater slot are none.
pub fn shrinks_are_shown()
    ensures { ShrinksAreShown }
{}

/// An update that migrates its row, and the movement of the marks before it.
pub fn migrations_are_shown()
    ensures { MigrationsAreShown }
{}

/// A scan that is refused since undo it needs was reused; one that keeps nothing, or more than its list has, is none.
pub fn scans_are_shown()
    ensures { ScansAreShown }
{}
