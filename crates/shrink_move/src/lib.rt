//! Rows moved towards the front of a table. A shrink's cursor goes down from the last formatted position; each step comes to the
//! slot with the greatest number that wasn't skipped, and moves its row by one Move, skips it or stops there.
#![tactic(auto)]

mod below;
mod come;
mod draft;
mod fault;
mod filling;
mod ground;
mod last;
mod laws;
mod next;
mod opened;
mod outline;
mod plan;
mod shrink;
mod standing;
mod stepping;
mod taking;
mod walking;

pub use come::Come;
pub use fault::ShrinkFault;
pub use history_text::Stop;
pub use laws::{
    cursors_are_there, nexts_are_one, rows_move_to_blocks, rows_move_to_bodies, steps_follow,
};
pub use next::Next;
pub use shrink::Shrink;
pub use stepping::ShrinkStep;
