//! Opening a store: the records of its log make its pages, and transactions that were active when it was left are taken back.
//!
//! `recover` and `Store::over`, or `open`, which is both, open the store of a disk.
#![tactic(auto)]

mod closing;
mod next;
mod opening;
mod refusing;
#[cfg(test)]
mod tests;

pub use closing::take_back_active;
pub use opening::{open, recover};
pub use refusing::bad_page;
pub use store_files::{OpenFault, format};
