// Why a shrink doesn't begin, or doesn't go on.
use seg_base::{Dba, Sequence, TxnId};
use store_core::StoreFault;
use thiserror::Error;

/// Why a shrink doesn't begin, or doesn't go on.
#[derive(Debug, Drop, Error)]
pub enum ShrinkFault {
    /// Row movement of the table is off.
    #[error("row movement is off")]
    MovementOff,
    /// Another session shrinks the table.
    #[error("session {session} shrinks the table")]
    ShrinkBusy { session: u8 },
    /// The undo of a move doesn't fit in the current undo block, and each other one holds undo of an active transaction.
    #[error("undo is full")]
    UndoFull { holders: Sequence<(Dba, TxnId)> },
    #[error("the store has failed")]
    Store(StoreFault),
}
