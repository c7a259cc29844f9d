//! How full a table's blocks are: the kept class of each, by the bitmaps, and its class, by its own page. One block at a time is
//! settled, so that both are the same, or its kept class is set. Usage is counted by the kept classes.
#![tactic(auto)]

mod adding;
mod cleaning;
mod counting;
mod counts;
mod fault;
mod finding;
mod fixing;
mod keeping;
mod laws;
mod levels;
mod named;
mod settling;
mod walking;

pub use counting::{inexact, usage};
pub use fault::FixFault;
pub use fixing::fix_status;
pub use laws::usages_add_up;
pub use settling::settle;
