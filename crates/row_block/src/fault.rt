// Why a call on a row block is refused.
ghost use Rattle.std.specs.Prelude.{◌≡◌};
ghost use Rattle.row_block.specs.declared.fault.BlockFault.TheVariants as faults;

use page_bytes::PageFault;
use seg_base::{Sequence, TxnId};
use std::alloc::{AllocError, AllocFailed};
use thiserror::Error;

#[derive(Debug, Drop, Error)]
pub enum BlockFault {
    /// More bytes are needed than the block has free.
    #[error("{need} bytes are needed and {free} are free")]
    NoRoom { need: u16, free: u16 },
    /// Eight entries name other active transactions, in order of entries.
    #[error("each list entry names another active transaction")]
    NoSlot { txns: Sequence<TxnId> },
    /// The page is no spelling of a row block; its first byte that is wrong.
    #[error("no row block: byte {offset} is wrong")]
    BadPage { offset: u16 },
    #[error("no memory")]
    NoMemory,
}

impl From<AllocError> for BlockFault {
    ghost from_gives = { λ _ e. e ≡ faults.NoMemory };

    fn from(_: AllocError) -> BlockFault {
        BlockFault::NoMemory
    }
}

impl<T: Drop> From<AllocFailed<T>> for BlockFault {
    ghost from_gives = { λ _ e. e ≡ faults.NoMemory };

    fn from(_: AllocFailed<T>) -> BlockFault {
        BlockFault::NoMemory
    }
}

impl From<seg_base::NoMemory> for BlockFault {
    ghost from_gives = { λ _ e. e ≡ faults.NoMemory };

    fn from(_: seg_base::NoMemory) -> BlockFault {
        BlockFault::NoMemory
    }
}

impl From<PageFault> for BlockFault {
    ghost use Rattle.std.specs.Prelude.{◌≡◌};
    ghost use Rattle.row_block.specs.Faults.{fault_of};

    ghost from_gives = { λ f e. e ≡ fault_of f };

    fn from(fault: PageFault) -> BlockFault {
        match fault {
            PageFault::BadPage { offset } => BlockFault::BadPage { offset },
            PageFault::NoMemory => BlockFault::NoMemory,
        }
    }
}
