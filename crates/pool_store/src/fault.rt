// What a store may answer in place of what it was asked.
ghost use Rattle.std.specs.Prelude.{◌≡◌};
ghost use Rattle.pool_store.specs.declared.fault.StoreFault.TheVariants as faults;

use seg_base::{Dba, NoMemory};
use thiserror::Error;

/// A refusal of a store. After `DeviceFault` and `BadPage` the store answers no more; after `NoMemory` it has the list and
/// the pages that it had.
#[derive(Clone, Copy, Debug, PartialEq, Eq, Error)]
pub enum StoreFault {
    #[error("the disk has failed")]
    DeviceFault,
    /// The block isn't there, or its page is of another kind than the record or the caller needs.
    #[error("block {} has no page of the kind that is needed", dba.0)]
    BadPage { dba: Dba },
    #[error("no memory")]
    NoMemory,
}

impl From<NoMemory> for StoreFault {
    ghost from_gives = { λ _ e. e ≡ faults.NoMemory };

    fn from(_: NoMemory) -> StoreFault {
        StoreFault::NoMemory
    }
}

/// Why no store is made of a disk. `BadLog` says the place of the first byte of the log that is wrong, or of the first
/// record that isn't one, and the byte that was seen there, 0 where the log ends before it.
#[derive(Clone, Copy, Debug, PartialEq, Eq, Error)]
pub enum StoreOpen {
    #[error("the disk has failed")]
    DeviceFault,
    #[error("the log isn't formatted")]
    NotOpen,
    #[error("no log: byte {offset} is {seen}")]
    BadLog { offset: u64, seen: u8 },
    /// A record of the log doesn't fit on the page of a block that it touches, or the block isn't there.
    #[error("block {} has no page of the kind that is needed", dba.0)]
    BadPage { dba: Dba },
    #[error("no memory")]
    NoMemory,
}
