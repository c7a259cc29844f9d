//! Two files as a store sees them: what a read gives, and what a crash may leave.
#![tactic(auto)]

mod crashed;
mod disk;
mod memory;
mod stopping;
#[cfg(test)]
mod tests;
mod whole;

pub use crashed::Contents;
pub use disk::{Disk, File};
pub use memory::{Change, DatedChange, Memory, Tear};
pub use stopping::Stopping;
pub use whole::{write_and_sync, write_framed_and_sync};
