//! Trials of shrinks over a store in memory: each call answers what the rules say, with memory to spare.
#![tactic(auto)]

#[cfg(test)]
mod tests;
