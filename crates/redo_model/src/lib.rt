//! The model of the redo list. Everything that the engine promises is said over one list of redo records, by the
//! definitions in `specs`: tables at a commit number, states of transactions, blocks, segments, kept classes, images of
//! slots, undo, and when a record may follow those before it.
//!
//! The functions here do nothing. Their contracts are what the definitions compute on small runs, and the law that ties
//! a block's value to its slots and entries.
#![tactic(auto)]

mod blocks;
mod runs;

pub use blocks::block_is_its_slots;
pub use runs::{
    inserted_row_computes, migrated_row_computes, moved_row_computes,
    records_out_of_place_are_refused, reused_undo_computes, runs_of_all_kinds_are_lawful,
};
