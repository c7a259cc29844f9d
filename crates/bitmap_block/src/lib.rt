//! The three levels of bitmap blocks: the class code of each block of an extent, the best code of each extent, the best
//! of each group of extents.
#![tactic(auto)]

mod best;
mod code;
mod first_level;
mod limit;
mod second_level;
#[cfg(test)]
mod tests;
mod third_level;
mod upper_level;

pub use first_level::L1;
pub use limit::{CODES_OF_L1, GREATEST_CODE};
pub use second_level::L2;
pub use third_level::L3;
pub use upper_level::UpperLevel;
