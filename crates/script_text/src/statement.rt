// What a line of the script asks for.
use seg_base::{Dba, Name, RowNo, Text};

/// The row that an update or a delete is about: that of a label, or the one with this number.
#[derive(Debug, Drop)]
pub enum Target {
    Label(Name),
    Number(RowNo),
}

/// A statement: one variant for each row of the grammar.
#[derive(Debug, Drop)]
pub enum Statement {
    /// Makes a table that keeps so many percent of its blocks free for updates, 0 to 50.
    Table {
        name: Name,
        pctfree: u8,
    },
    /// Turns row movement on or off.
    Movement {
        table: Name,
        on: bool,
    },
    /// Inserts a row of 1 to 1,800 bytes, which the label stands for from then on.
    Insert {
        table: Name,
        label: Name,
        text: Text,
    },
    Update {
        table: Name,
        target: Target,
        text: Text,
    },
    Delete {
        table: Name,
        target: Target,
    },
    Commit,
    Rollback,
    /// A full scan.
    Scan {
        table: Name,
    },
    /// Moves rows down, and releases space unless it only compacts.
    Shrink {
        table: Name,
        compact: bool,
    },
    Usage {
        table: Name,
    },
    /// Sets the class that a block is kept as to the value's, or to that of what stands in it.
    Fix {
        table: Name,
        block: Dba,
        value: Option<u32>,
    },
    /// Makes each kept class that of its block.
    Repair {
        table: Name,
    },
    Checkpoint,
}

/// An item of the schedule: so many events, 1 to 1,000,000, of a session, or flush batches for 0.
#[derive(Clone, Copy, Debug, PartialEq, Eq, Drop)]
pub struct Turns {
    pub who: u8,
    pub times: u32,
}
