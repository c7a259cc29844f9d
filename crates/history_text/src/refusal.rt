// Why a statement was refused.
use seg_base::{Dba, Name, RowNo, Scn, Sequence, TxnId, UndoAddr};

/// Why a statement did nothing.
#[derive(Debug, Drop)]
pub enum Refusal {
    NoTable,
    TableExists,
    TooManyTables,
    MovementOff,
    TransactionOpen,
    /// Another session's shrink of the table is under way.
    ShrinkBusy { session: u8 },
    /// The redo list has as many records as it may have.
    LogFull,
    /// No formatted data block of the table under its high mark.
    NotDataBlock { block: Dba },
    BadValue { value: u32 },
    /// No accepted insert bound the label.
    Unbound { label: Name },
    NoRow { row: RowNo },
    /// Another active transaction made the row's last record.
    Busy { txn: TxnId },
    /// Each start was ended by a commit that changed or moved the row; the number of commits then, in order.
    Again { commits: Sequence<Scn> },
    /// A block has no entry left in its transaction list: those in it, in their order.
    NoSlot { txns: Sequence<TxnId> },
    /// No block takes a row of this length, or no extent is left for a table, where it is 0.
    NoSpace { need: u16 },
    /// The table has as many extents as it may have.
    MaxExtents { count: u16 },
    /// Each other undo block holds a part of an active transaction: the block and the least of them, in ring order.
    UndoFull { holders: Sequence<(Dba, TxnId)> },
    /// A scan's extent with an unread block was released.
    ObjectGone { extent: u32, lowering: u64 },
    /// An undo part that a scan needs was used again.
    TooOld { at: UndoAddr },
    /// A scan needs to know when this transaction committed, and it is forgotten.
    TooOldEntry { txn: TxnId },
    /// The row of this length needs another block, and rows don't migrate yet.
    NeedsBlock { len: u16 },
}
