// Why a call on an undo block is refused.
ghost use Rattle.std.specs.Prelude.{◌≡◌};
ghost use Rattle.undo_block.specs.declared.fault.UndoFault.TheVariants as faults;

use page_bytes::PageFault;
use seg_base::NoMemory;
use std::alloc::{AllocError, AllocFailed};
use thiserror::Error;

#[derive(Clone, Copy, Debug, PartialEq, Eq, Error)]
pub enum UndoFault {
    /// More bytes are needed than the block has free.
    #[error("{need} bytes are needed and {free} are free")]
    NoRoom { need: u16, free: u16 },
    /// The page is no spelling of an undo block; its first byte that is wrong.
    #[error("no undo block: byte {offset} is wrong")]
    BadPage { offset: u16 },
    #[error("no memory")]
    NoMemory,
}

impl From<NoMemory> for UndoFault {
    ghost from_gives = { λ _ e. e ≡ faults.NoMemory };

    fn from(_: NoMemory) -> UndoFault {
        UndoFault::NoMemory
    }
}

impl From<AllocError> for UndoFault {
    ghost from_gives = { λ _ e. e ≡ faults.NoMemory };

    fn from(_: AllocError) -> UndoFault {
        UndoFault::NoMemory
    }
}

impl<T: Drop> From<AllocFailed<T>> for UndoFault {
    ghost from_gives = { λ _ e. e ≡ faults.NoMemory };

    fn from(_: AllocFailed<T>) -> UndoFault {
        UndoFault::NoMemory
    }
}

impl From<PageFault> for UndoFault {
    ghost use Rattle.std.specs.Prelude.{◌≡◌};
    ghost use Rattle.undo_block.specs.Faults.{fault_of};

    ghost from_gives = { λ f e. e ≡ fault_of f };

    fn from(fault: PageFault) -> UndoFault {
        match fault {
            PageFault::BadPage { offset } => UndoFault::BadPage { offset },
            PageFault::NoMemory => UndoFault::NoMemory,
        }
    }
}
