//! The transaction table: 96 entries, each with a transaction's state and its newest undo.
#![tactic(auto)]

mod block;
mod entry;
mod page;
mod search;
#[cfg(test)]
mod tests;

pub use block::TxnBlock;
pub use entry::{Outcome, State, TableEntry, TxnEntry};
