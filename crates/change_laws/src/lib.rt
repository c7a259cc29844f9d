//! Laws of the redo list on changes of rows: the records of an insert, an update, a migration, a return and a deletion as
//! functions of the list and of what was chosen, and that they are allowed; where their undo goes; what a Begin leaves of all
//! that was found before it; and what each refusal means. Each is the contract of a function that does nothing.
#![tactic(auto)]

mod allowed;
mod answers;
mod begins;
mod causes;
mod finds;
mod looks;

pub use allowed::{
    begins_are_lawful, changes_are_lawful, deletes_are_ready, full_is_told, inserts_are_ready,
    migrates_are_ready, returns_are_ready, spots_state, updates_are_ready, updates_go,
};
pub use answers::{
    answers_mean, blocks_are_needed, deletes_are_made, inserts_are_made, places_answer,
    updates_are_made,
};
pub use begins::{begins_keep_mays, begins_leave, begun_changes_are_lawful, reuses_leave};
pub use causes::{changes_need, lack_is_no_slot, rows_stand_once};
pub use finds::{
    examples_are_right, found_places_stay, heads_are_at_home, row_blocks_are_born, row_pages_show,
    rows_are_found_once, undo_pages_show,
};
pub use looks::{bodies_name_heads, places_show, released_are_changed, rows_have_undo};
