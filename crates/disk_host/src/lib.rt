//! The two real files of a store, through the runtime's files. Nothing here says what they hold: that a real disk keeps
//! the disk model is a premise.
#![tactic(auto)]

mod host;
mod named;
mod opened;
mod places;
mod store_file;
mod store_files;
#[cfg(test)]
mod tests;

pub use host::Host;
pub use store_file::StoreFile;
