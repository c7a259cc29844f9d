// Why no table is made.
use store_core::StoreFault;
use thiserror::Error;

/// Why no table is made.
#[derive(Clone, Copy, Debug, PartialEq, Eq, Error)]
pub enum MarkFault {
    /// No extent is free; no row was to be placed, so that `need` is 0.
    #[error("no extent is free")]
    NoSpace { need: u16 },
    #[error("the store has failed")]
    Store(StoreFault),
}
