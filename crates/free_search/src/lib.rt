//! The search of a block for a row: the blocks of a hinted extent, blocks whose kept class says that they have room, the next
//! movement of the table's marks, and at last any block that takes the row; and that movement alone. It only looks at the store.
#![tactic(auto)]

mod extent;
mod fault;
mod group;
mod look;
mod mark;
mod place;
mod search;
mod walk;

pub use fault::FindFault;
pub use mark::next_mark;
pub use mark_laws::{Found, MarkStep};
pub use search::find;
