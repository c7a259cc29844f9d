//! Changes of rows over a store. `insert`, `update` and `delete` add the Begin of their transaction where none is active, the Reuse
//! of an undo block where their undo asks for one, and one row record, or refuse and leave the list as it was. `locate` tells
//! where a row stands. Where undo goes, and how a record is added with its Reuse, is the same for a move of a row.
#![tactic(auto)]

mod actor;
mod adding;
mod answer;
mod blocks;
mod born;
mod counting;
mod deciding;
mod deleting;
mod draft;
mod filling;
mod fitting;
mod inserting;
mod lacking;
mod looking;
mod making;
mod opening;
mod place;
mod plan;
mod replaced;
mod ring;
mod sight;
mod slots;
mod spot;
mod stand;
mod updating;

pub use adding::add_change;
pub use answer::{ChangeFault, Done};
pub use blocks::locate;
pub use born::incarnation_of;
pub use counting::next_number;
pub use deleting::delete;
pub use draft::{Content, place_at, three_parts, two_parts};
pub use filling::nothing;
pub use inserting::{insert, plain_row};
pub use place::Place;
pub use plan::undo_start;
pub use replaced::{image_at, slot_or};
pub use spot::{Spot, find_spot};
pub use stand::Stand;
pub use updating::update;
