// The history of a call: when each statement started, what it led to, and what the outcome keeps beside its line.
use history_text::Entry;
use seg_base::{Dba, Lsn, Newest, Sequence};
use shrink_laws::Skip;

/// A statement's first event begins, with so many records before it.
#[derive(Clone, Copy, Debug, Drop)]
pub struct Start {
    pub session: u8,
    pub begins: Lsn,
}

/// A block that a repair settled: how many records there were before its event and after it.
#[derive(Clone, Copy, Debug, Drop)]
pub struct Settled {
    pub block: Dba,
    pub before: Lsn,
    pub after: Lsn,
}

/// What an entry keeps that isn't printed.
#[derive(Debug, Drop)]
pub enum Kept {
    Nothing,
    /// How many blocks of its list a scan had read that was refused after it had begun.
    Read { blocks: usize },
    /// What a shrink skipped, and how many records there were when it stopped.
    Stopped { skips: Newest<Skip>, records: Lsn },
    /// The blocks that a repair settled, in order of position.
    Repaired { settled: Sequence<Settled> },
}

/// Starts and entries stand in the order of events: a start before the entry that the same event may make.
#[derive(Debug, Drop)]
pub enum HistoryItem {
    Started(Start),
    Told { entry: Entry, kept: Kept },
}
