// What a statement led to.
use crate::refusal::Refusal;
use seg_base::{Class, Dba, Name, RowNo, Rowid, Scn, Sequence, Text};

/// A row as a scan gives it.
#[derive(Debug, Drop)]
pub struct RowOut {
    pub row: RowNo,
    pub bytes: Text,
}

/// Where a shrink stopped moving rows: at a row that no block below its own takes, or at the first position.
#[derive(Clone, Copy, Debug, PartialEq, Eq, Drop)]
pub enum Stop {
    NoFit(Rowid),
    Bottom,
}

/// How many of a table's blocks under its high mark are kept as which class, its marks as counts of data blocks, and
/// how many extents it has.
#[derive(Clone, Copy, Debug, PartialEq, Eq, Drop)]
pub struct Usage {
    pub unformatted: u32,
    pub fs1: u32,
    pub fs2: u32,
    pub fs3: u32,
    pub fs4: u32,
    pub full: u32,
    pub low: u32,
    pub high: u32,
    pub extents: u16,
}

/// What a statement led to: one variant for each text.
#[derive(Debug, Drop)]
pub enum Outcome {
    Table {
        name: Name,
    },
    /// Row movement was set.
    Movement {
        table: Name,
        on: bool,
    },
    Inserted {
        row: RowNo,
    },
    Updated {
        row: RowNo,
    },
    Deleted {
        row: RowNo,
    },
    Committed {
        number: Scn,
    },
    NothingToCommit,
    /// A rollback, or the one at the session's end.
    RolledBack,
    NothingToRollBack,
    /// The rows at this commit number.
    Scan {
        table: Name,
        at: Scn,
        rows: Sequence<RowOut>,
    },
    /// A shrink that only moves rows.
    Compacted {
        table: Name,
        moved: u64,
        skipped: u64,
        stop: Stop,
    },
    /// A shrink that also released so many extents and left this high mark.
    Shrunk {
        table: Name,
        moved: u64,
        skipped: u64,
        stop: Stop,
        released: u32,
        high: u32,
    },
    Usage {
        table: Name,
        usage: Usage,
    },
    /// The class that a block is kept as now.
    Fixed {
        block: Dba,
        class: Class,
    },
    /// So many kept classes were changed.
    Repaired {
        table: Name,
        changed: u32,
    },
    Checkpoint,
    Refused(Refusal),
}
