//! The store: a disk that it was lent, the redo list in its log, and the pages of its blocks, which are the fold of that list and
//! stand in frames and in the data file.
//!
//! `prepare` and `Store::over`, or `replay`, which is both, make a store of a disk. Records are added by `record`,
//! `record_two` and `record_commit`, each where it is allowed, and by `take` and `take_two`, whatever they are. `page` lends the
//! page of a block, and `ask` asks it one question.
#![tactic(auto)]

mod adding;
mod asking;
mod batches;
mod commits;
mod fault;
mod flushing;
mod lowered;
mod opening;
mod pages;
mod putting;
mod refusing;
mod sparing;
mod store;
#[cfg(test)]
mod tests;
mod undo;

pub use asking::{Question, ask};
pub use fault::{StoreFault, StoreOpen};
pub use flushing::MOST_UNWRITTEN;
pub use lowered::Lowered;
pub use opening::{prepare, replay};
pub use store::{Loaded, Store};
