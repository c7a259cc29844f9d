// Why a search gives nothing.
use store_core::StoreFault;
use thiserror::Error;

/// Why a search for a block that takes a row gives none, and no movement of the marks.
#[derive(Clone, Copy, Debug, PartialEq, Eq, Error)]
pub enum FindFault {
    /// No block takes a row of this length, the marks can't move, and no extent is free.
    #[error("no space for a row of {need} bytes")]
    NoSpace { need: u16 },
    /// No block takes the row, the marks can't move, and the table has so many extents, the most.
    #[error("the table has {count} extents, the most")]
    MaxExtents { count: u16 },
    #[error(transparent)]
    Store(StoreFault),
}
