//! The pages of a store in frames, over its data file. A page that was changed stays in its frame until it is written.
#![tactic(auto)]

mod batching;
mod cache;
mod changed;
mod changing;
mod frame;
mod making;
mod pool;
mod reading;
#[cfg(test)]
mod tests;

pub use changed::Changed;
pub use frame::{FRAMES, MOST_DIRTY, has_page};
pub use pool::BufferPool;
