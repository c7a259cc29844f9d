// Why the pages of a record aren't changed.
ghost use Rattle.std.specs.Prelude.{◌≡◌};
ghost use Rattle.page_map.specs.declared.fault.PageFault.TheVariants as faults;

use seg_base::NoMemory;
use std::alloc::{AllocError, AllocFailed};
use thiserror::Error;

/// Why a page isn't changed.
#[derive(Clone, Copy, Debug, PartialEq, Eq, Error)]
pub enum PageFault {
    /// The block isn't there, or its page is of another kind than the record needs.
    #[error("block {block} has no page of the kind that is needed")]
    BadPage { block: u32 },
    #[error("no memory")]
    NoMemory,
}

impl From<AllocError> for PageFault {
    ghost from_gives = { λ _ e. e ≡ faults.NoMemory };

    fn from(_: AllocError) -> PageFault {
        PageFault::NoMemory
    }
}

impl<T: Drop> From<AllocFailed<T>> for PageFault {
    ghost from_gives = { λ _ e. e ≡ faults.NoMemory };

    fn from(_: AllocFailed<T>) -> PageFault {
        PageFault::NoMemory
    }
}

impl From<NoMemory> for PageFault {
    ghost from_gives = { λ _ e. e ≡ faults.NoMemory };

    fn from(_: NoMemory) -> PageFault {
        PageFault::NoMemory
    }
}
