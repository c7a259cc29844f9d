//! What a run of a script led to, statement by statement, and its printed text.
#![tactic(auto)]

mod entry;
mod lines;
mod outcome;
mod refusal;
mod refused;
#[cfg(test)]
mod tests;
mod usage;

pub use entry::Entry;
pub use lines::line;
pub use outcome::{Outcome, RowOut, Stop, Usage};
pub use refusal::Refusal;
