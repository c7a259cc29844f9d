//! The script that is made from a number, and the line that sums up what a run led to.
#![tactic(auto)]

mod drawing;
mod generating;
mod laws;
mod summing;
#[cfg(test)]
mod tests;

pub use generating::generate;
pub use laws::{generated_in_grammar, rows_are_drawn, statements_are_counted};
pub use summing::{Totals, summary};
