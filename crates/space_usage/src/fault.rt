// Why the kept class of a block isn't set.
use seg_base::Dba;
use store_core::StoreFault;
use thiserror::Error;

/// Why the kept class of a block isn't set.
#[derive(Clone, Copy, Debug, PartialEq, Eq, Error)]
pub enum FixFault {
    /// The block isn't a formatted data block of the table under its high mark.
    #[error("block {} is no data block of the table", dba.0)]
    NotDataBlock { dba: Dba },
    /// The value is none of 1 to 5.
    #[error("{value} is no class")]
    BadValue { value: u32 },
    #[error(transparent)]
    Store(StoreFault),
}
