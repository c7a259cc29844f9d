//! The redo list in its log: the first records are on the disk, the others wait in memory until they are flushed.
#![tactic(auto)]

mod fault;
mod log;
mod opening;
mod payload;
#[cfg(test)]
mod tests;
mod waiting;

pub use fault::LogFault;
pub use log::RedoLog;
pub use opening::open;
pub use waiting::COMMIT_SIZE;
