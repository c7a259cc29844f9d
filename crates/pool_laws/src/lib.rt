//! What the pages of a data file tell of the records that made them, and that redoing the newer records makes them the pages
//! of all: laws of any list of records, lawful or not.
#![tactic(auto)]

mod laws;

pub use laws::{
    all_are_reached, batches_keep_folds, folds_have_fewer, folds_reach_back, folds_stay,
    new_files_are_folded, new_pages_are_reached, reached_pages_stay, records_are_redone,
    written_pages_are_reached,
};
