//! Making a store, and opening its files.
#![tactic(auto)]

mod fault;
mod files;
mod new_store;
#[cfg(test)]
mod tests;

pub use fault::OpenFault;
pub use files::{open_log, read_head};
pub use new_store::format;
