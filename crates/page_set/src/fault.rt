// Why a page can't be changed.
ghost use Rattle.std.specs.Prelude.{◌≡◌};
ghost use Rattle.page_set.specs.declared.fault.Unfit.TheVariants as faults;

use seg_base::NoMemory;
use std::alloc::{AllocError, AllocFailed};
use thiserror::Error;

#[derive(Clone, Copy, Debug, PartialEq, Eq, Error)]
pub enum Unfit {
    /// The page is of another kind than the record needs, or what the record states has no place there.
    #[error("the record does not fit the page")]
    Misfit,
    #[error("no memory")]
    NoMemory,
}

impl From<AllocError> for Unfit {
    ghost from_gives = { λ _ e. e ≡ faults.NoMemory };

    fn from(_: AllocError) -> Unfit {
        Unfit::NoMemory
    }
}

impl<T: Drop> From<AllocFailed<T>> for Unfit {
    ghost from_gives = { λ _ e. e ≡ faults.NoMemory };

    fn from(_: AllocFailed<T>) -> Unfit {
        Unfit::NoMemory
    }
}

impl From<NoMemory> for Unfit {
    ghost from_gives = { λ _ e. e ≡ faults.NoMemory };

    fn from(_: NoMemory) -> Unfit {
        Unfit::NoMemory
    }
}
