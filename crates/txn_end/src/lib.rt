//! Ends of transactions: a commit, the steps of a rollback, each of which takes back one record, and a rollback's end. Each adds
//! one record, of which every field is a function of the list before it.
#![tactic(auto)]

mod back;
mod ending;
mod part;
mod standing;
mod table;

pub use back::back_step;
pub use ending::{commit, end_back};
