//! What each statement does to a store, event by event, and what a session is at between two of them.
#![tactic(auto)]

mod changed;
mod changing;
mod counting;
mod dues;
mod ending;
mod fixing;
mod inserting;
mod leaving;
mod mending;
mod naming;
mod owed;
mod released;
mod repairing;
mod scanning;
mod session;
mod settling;
mod shrinkers;
mod shrinking;
mod shrunk;
mod tables;
mod testing;
mod turned;
mod updating;

pub use changed::Changed;
pub use changing::{delete_row, locate_row, start_on_row};
pub use counting::tell_usage;
pub use dues::Dues;
pub use ending::{commit_own, roll_back, take_back};
pub use fixing::fix;
pub use inserting::{go_on_inserting, start_insert};
pub use mending::{go_on_repairing, start_repair};
pub use naming::{Named, find_named, is_log_full};
pub use owed::{Owed, OwedBlock};
pub use repairing::{Repaired, repair_block};
pub use scanning::{go_on_scanning, start_scan};
pub use session::{Doing, LowerWork, OpenShrink, RepairWork, RowWork, ShrinkWork, Starts};
pub use settling::{settle_block, settle_owed};
pub use shrinkers::shrinker_of;
pub use shrinking::{go_on_shrinking, start_shrink};
pub use shrunk::end_shrink;
pub use tables::{make_table, set_movement};
pub use turned::{Acted, Turned, over, refused};
pub use updating::update_row;
