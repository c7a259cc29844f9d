//! Sources and sinks of bytes that count their faults, reading and writing all of something, and adding to a text.
#![tactic(auto)]

mod memory;
mod port;
mod quiet;
mod standard;
#[cfg(test)]
mod tests;
mod text;
mod whole;

pub use memory::{MemorySink, MemorySource};
pub use port::{Sink, Source};
pub use quiet::Quiet;
pub use standard::{Stdin, Stdout};
pub use text::{put, put_number};
pub use whole::{ReadEnd, read_all, write_all};
