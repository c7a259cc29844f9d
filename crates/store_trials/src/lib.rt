//! Trials of a store on a disk in memory: each call answers what the rules say, with memory to spare, and the log has the
//! bytes that the formats say.
#![tactic(auto)]

#[cfg(test)]
mod tests;
