//! Block 0 of a data file, which says the last checkpoint. It is read and written past the pool.
#![tactic(auto)]

mod laws;
mod point;
mod reading;
#[cfg(test)]
mod tests;
mod writing;

pub use laws::{each_point_is_said, other_pages_stay, zeros_say_the_first_point};
pub use point::{Checkpoint, FIRST};
pub use reading::read;
pub use writing::write;
