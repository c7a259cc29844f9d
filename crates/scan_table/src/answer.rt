// What a scan answers.
use history_text::RowOut;
use seg_base::{Scn, Sequence, TxnId, UndoAddr};
use store_core::StoreFault;
use thiserror::Error;

/// The rows of a table at a commit number, in order of row number.
#[derive(Debug, Drop)]
pub struct Scanned {
    pub at: Scn,
    pub rows: Sequence<RowOut>,
}

/// What one event of a scan led to: a block is left to read, or the scan is done.
#[derive(Debug, Drop)]
pub enum ScanStep {
    More,
    Done(Scanned),
}

/// Why a scan gives no rows. All but a fault of the store close it.
#[derive(Clone, Copy, Debug, PartialEq, Eq, Error)]
pub enum ScanFault {
    /// The scan needs a part of undo whose block was used again.
    #[error("snapshot too old: undo {}.{}.{}", at.block, at.seq, at.nth)]
    TooOld { at: UndoAddr },
    /// An image names a transaction that is forgotten, so that it isn't known whether the image counts.
    #[error("snapshot too old: transaction {}", txn.0)]
    TooOldEntry { txn: TxnId },
    /// An extent with a block that wasn't read yet was released.
    #[error("object no longer exists: extent {extent}, lowering {lowering}")]
    Gone { extent: u32, lowering: u64 },
    #[error(transparent)]
    Store(StoreFault),
}
