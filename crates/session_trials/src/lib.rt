//! Trials of sessions over a store in memory: how many events a statement takes and how many records each adds, what is settled
//! when, and what a turn of any number answers.
#![tactic(auto)]

#[cfg(test)]
mod tests;
