// What a change of a row answers.
use seg_base::{Dba, RowNo, Scn, Sequence, TxnId};
use store_core::StoreFault;
use thiserror::Error;

/// The row that was changed, and the transaction that changed it.
#[derive(Clone, Copy, Debug, PartialEq, Eq, Drop)]
pub struct Done {
    pub row: RowNo,
    pub txn: TxnId,
}

/// Why a row isn't changed. All but `Store` leave the list of records as it was.
#[derive(Debug, Drop, Error)]
pub enum ChangeFault {
    /// Another active transaction made the row's newest change.
    #[error("transaction {} keeps the row", txn.0)]
    Busy { txn: TxnId },
    /// A commit or a move changed the row since it was found; so many commits there are now.
    #[error("the row has changed since it was found")]
    Changed { commits: Scn },
    /// A block of the row has no list entry for one more transaction; these are the active ones that its entries name.
    #[error("a block of the row has no free list entry")]
    NoSlot { txns: Sequence<TxnId> },
    /// The row fits neither where it stands nor at its head, and no other block was given.
    #[error("a row of {len} bytes needs another block")]
    NeedsBlock { len: u16 },
    /// The undo doesn't fit in the current undo block, and each other one holds undo of an active transaction.
    #[error("undo is full")]
    UndoFull { holders: Sequence<(Dba, TxnId)> },
    #[error("the store has failed")]
    Store(StoreFault),
}
