// Why a record is not read.
ghost use Rattle.std.specs.Prelude.{◌≡◌};
ghost use Rattle.redo_record.specs.declared.fault.ReadFault.TheVariants as faults;

use seg_base::NoMemory as OutOfMemory;
use std::alloc::{AllocError, AllocFailed};
use thiserror::Error;

/// Why no record was read at a place.
#[derive(Debug, Drop, PartialEq, Error)]
pub enum RecordFault {
    /// No record is spelled there.
    #[error("no record at byte {offset}")]
    BadRecord { offset: usize },
    #[error("no memory")]
    NoMemory,
}

/// The same below the record, where the place isn't known.
#[derive(Debug, Drop)]
pub enum ReadFault {
    NotARecord,
    NoMemory,
}

impl From<OutOfMemory> for ReadFault {
    ghost from_gives = { λ _ e. e ≡ faults.NoMemory };

    fn from(_: OutOfMemory) -> ReadFault {
        ReadFault::NoMemory
    }
}

impl From<AllocError> for ReadFault {
    ghost from_gives = { λ _ e. e ≡ faults.NoMemory };

    fn from(_: AllocError) -> ReadFault {
        ReadFault::NoMemory
    }
}

impl<T: Drop> From<AllocFailed<T>> for ReadFault {
    ghost from_gives = { λ _ e. e ≡ faults.NoMemory };

    fn from(_: AllocFailed<T>) -> ReadFault {
        ReadFault::NoMemory
    }
}
