//! What the system said of a call that failed, in words.
#![tactic(auto)]

mod cause;
#[cfg(test)]
mod tests;

pub use cause::{Call, Cause};
