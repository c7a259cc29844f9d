// What a session is at between its events.
use history_model::{MOST_STARTS, Settled};
use history_text::Stop;
use row_change::Place;
use seg_base::{Dba, Lsn, Newest, Obj, RowNo, Scn, Sequence, TxnId};
use shrink_laws::Skip;
use shrink_move::Shrink;

/// What a session is at: it waits with its next statement, or with what is under way.
#[derive(Drop)]
pub enum Doing {
    Waiting,
    /// An insert moves the marks of its table.
    Inserting(Obj),
    /// A transaction is taken back, record by record.
    TakingBack(TxnId),
    /// An update or a delete looks for its row, or has found it.
    OnRow(RowWork),
    /// A scan reads its blocks, one an event. It stands in its session's place of the open scans.
    Scanning,
    /// A repair goes through the blocks of its list, one an event.
    Repairing(RepairWork),
    /// A shrink goes down its table, one step an event.
    Shrinking(ShrinkWork),
    /// A shrink has stopped, and has yet to lower its table's marks.
    Lowering(LowerWork),
}

/// The numbers of commits that ended the starts of an update or a delete so far: the first `count` of them, in order.
#[derive(Clone, Copy, Debug, PartialEq, Eq, Drop)]
pub struct Starts {
    pub commits: [Scn; MOST_STARTS],
    pub count: u8,
}

/// An update or a delete at work: its table and row, its starts so far, and where the row was found at the present one.
#[derive(Clone, Copy, Debug, PartialEq, Eq, Drop)]
pub struct RowWork {
    pub obj: Obj,
    pub row: RowNo,
    pub starts: Starts,
    pub place: Option<Place>,
}

/// A repair at work: its table, the blocks of its list, how many of them had their event, those that it settled, and how many of
/// these got another kept class.
#[derive(Debug, Drop)]
pub struct RepairWork {
    pub obj: Obj,
    pub blocks: Sequence<Dba>,
    pub done: usize,
    pub settled: Sequence<Settled>,
    pub changed: u32,
}

/// A shrink at work: its table, its cursor and the slots that it skipped, and how many rows it moved.
#[derive(Drop)]
pub struct ShrinkWork {
    pub shrink: Shrink,
    pub moved: u64,
}

/// A shrink that has stopped: its table, the slots that it skipped, how many rows it moved, with how many records and where it
/// stopped.
#[derive(Drop)]
pub struct LowerWork {
    pub obj: Obj,
    pub skips: Newest<Skip>,
    pub moved: u64,
    pub stopped: Lsn,
    pub stop: Stop,
}

/// A shrink of a table by another session, under way.
#[derive(Clone, Copy, Debug, PartialEq, Eq, Drop)]
pub struct OpenShrink {
    pub who: u8,
    pub obj: Obj,
}
