// Why a script is refused.
ghost use Rattle.std.specs.Prelude.{◌≡◌, Some};
ghost use Rattle.script_text.specs.Whys.{why_text};
ghost use Rattle.script_text.specs.declared.why.ScriptFault.TheVariants as script;
ghost use Rattle.script_text.specs.declared.why.LineFault.TheVariants as line;

use seg_base::NoMemory;
use std::fmt;
use thiserror::Error;

/// Why a line is refused, in the order in which a line is tested.
#[derive(Clone, Copy, Debug, PartialEq, Eq, Drop)]
pub enum Why {
    /// A byte below 0x20, or 0x7F.
    BadByte,
    /// A first line other than `session 1`, a session out of order, or a line that isn't one of the schedule after it.
    SessionOrder,
    /// The form of no statement.
    NotAStatement,
    BadName,
    BadNumber,
    /// No row after the space before it.
    RowEmpty,
    RowTooLong,
    /// The label stands for another insert's row.
    DuplicateLabel,
    /// An item for a session that the script hasn't.
    ScheduleSession,
}

impl fmt::Display for Why {
    ghost output = { λ why. Some (why_text why) };

    fn fmt<W: fmt::Write>(&self, f: &mut fmt::Formatter<W>) -> fmt::Result {
        match self {
            Why::BadByte => write!(f, "BadByte"),
            Why::SessionOrder => write!(f, "SessionOrder"),
            Why::NotAStatement => write!(f, "NotAStatement"),
            Why::BadName => write!(f, "BadName"),
            Why::BadNumber => write!(f, "BadNumber"),
            Why::RowEmpty => write!(f, "RowEmpty"),
            Why::RowTooLong => write!(f, "RowTooLong"),
            Why::DuplicateLabel => write!(f, "DuplicateLabel"),
            Why::ScheduleSession => write!(f, "ScheduleSession"),
        }
    }
}

/// Why a script isn't read: its first line that the grammar refuses, counted from 1, or want of memory.
#[derive(Clone, Copy, Debug, PartialEq, Eq, Error)]
pub enum ScriptFault {
    #[error("line {line} is refused: {why}")]
    BadLine { line: u32, why: Why },
    #[error("no memory")]
    NoMemory,
}

impl From<NoMemory> for ScriptFault {
    ghost from_gives = { λ _ fault. fault ≡ script.NoMemory };

    fn from(_: NoMemory) -> ScriptFault {
        ScriptFault::NoMemory
    }
}

/// Why a line isn't read.
#[derive(Clone, Copy, Debug, PartialEq, Eq, Drop)]
pub enum LineFault {
    Bad(Why),
    NoMemory,
}

impl From<NoMemory> for LineFault {
    ghost from_gives = { λ _ fault. fault ≡ line.NoMemory };

    fn from(_: NoMemory) -> LineFault {
        LineFault::NoMemory
    }
}
