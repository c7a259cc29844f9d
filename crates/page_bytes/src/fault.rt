// Why a page can't be decoded.
ghost use Rattle.std.specs.Prelude.{◌≡◌};
ghost use Rattle.page_bytes.specs.declared.fault.PageFault.TheVariants as faults;

use std::alloc::{AllocError, AllocFailed};
use thiserror::Error;

/// A page that is no spelling, with the first byte that is none of what its fields read as; or memory was refused.
#[derive(Clone, Copy, Debug, PartialEq, Eq, Error)]
pub enum PageFault {
    #[error("no page: byte {offset} is wrong")]
    BadPage { offset: u16 },
    #[error("no memory")]
    NoMemory,
}

impl From<seg_base::NoMemory> for PageFault {
    ghost from_gives = { λ _ e. e ≡ faults.NoMemory };

    fn from(_: seg_base::NoMemory) -> PageFault {
        PageFault::NoMemory
    }
}

impl From<AllocError> for PageFault {
    ghost from_gives = { λ _ e. e ≡ faults.NoMemory };

    fn from(_: AllocError) -> PageFault {
        PageFault::NoMemory
    }
}

impl<T: Drop> From<AllocFailed<T>> for PageFault {
    ghost from_gives = { λ _ e. e ≡ faults.NoMemory };

    fn from(_: AllocFailed<T>) -> PageFault {
        PageFault::NoMemory
    }
}
