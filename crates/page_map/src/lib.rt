//! The pages of a store in a plain map, until they come through a pool. The page of each block is the fold of the redo list.
#![tactic(auto)]

mod fault;
mod pages;
#[cfg(test)]
mod tests;

pub use fault::PageFault;
pub use pages::{Changed, Pages};
