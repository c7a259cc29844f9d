//! A row block: its slots and list entries, the room that they take, and its page.
#![tactic(auto)]

mod block;
mod clean;
mod entries;
mod fault;
mod page;
mod ranges;
mod sizes;
#[cfg(test)]
mod tests;

pub use block::RowBlock;
pub use fault::BlockFault;
