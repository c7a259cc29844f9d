//! What was acknowledged survives each crash from then on: the laws of a log's groups, moment by moment. Who writes groups
//! and acknowledges them uses these calls, and speaks of no image itself.
#![tactic(auto)]

mod acknowledged;
mod survival;
#[cfg(test)]
mod tests;

pub use acknowledged::Acknowledged;
pub use survival::{acknowledge, append, begin, looked};
