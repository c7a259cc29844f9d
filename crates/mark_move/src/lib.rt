//! New tables, row movement, and the marks of a table: each call adds one record that is allowed, or the two of a new table.
#![tactic(auto)]

mod adding;
mod drafts;
mod fault;
mod moves;
mod recording;
mod tables;

pub use drafts::{draft_advance, draft_extend, draft_format, draft_movement};
pub use fault::MarkFault;
pub use mark_laws::MarkStep;
pub use moves::{movement, step};
pub use tables::new_table;
