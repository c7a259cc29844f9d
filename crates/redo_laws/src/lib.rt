//! Laws of the redo list: theorems over the definitions of `redo_model`. Each is the contract of a function that does
//! nothing.
#![tactic(auto)]

mod first;
mod rows;

pub use first::{
    extents_are_apart, forgotten_have_passed, images_after_one, images_after_steps, low_mark_rule,
    membership_is_told, moves_keep_tables, numbers_are_given_in_order, numbers_are_given_once,
    others_are_left, prefixes_are_lawful, prefixes_stay, records_name_tables,
};
pub use rows::{
    blocks_are_sound, blocks_have_room, blocks_stay, heads_name_bodies, past_is_lost,
    records_are_spelled, records_fit_blocks, rows_are_spread, scans_are_whole, slots_are_at_home,
    slots_are_chains, undo_is_enough, undo_is_read, view_of_no_transaction_is_the_table,
    views_stay, writers_are_told,
};
