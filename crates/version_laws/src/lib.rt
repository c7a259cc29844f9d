//! Laws of the redo list on which reading versions stands, above those of `redo_laws`: what made an image, who wrote what a
//! slot gives, where a walk through undo ends and how far it goes, what the transaction table tells, and what a Begin and a
//! taking back leave. Each is the contract of a function that does nothing.
#![tactic(auto)]

mod begins;
mod rows;
mod slots;
mod tables;
mod walks;

pub use begins::{holders_stay, previous_is_next, slot_to_use_stays, taken_after_begin};
pub use rows::{given_are_newest, others_hold, rows_are_newest};
pub use slots::{addresses_are_past, slots_are_known, slots_past_the_last_are_new};
pub use tables::{begun_from_one, tables_tell};
pub use walks::{chains_end, now_is_found, now_is_reached, walks_end};
