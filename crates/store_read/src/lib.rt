//! Reading a store: what its pages say of a table's segment, of its extents and of their blocks' codes, how many tables there
//! are, and which extent is free. Nothing here changes a store's list.
#![tactic(auto)]

mod blocks;
mod segment;

pub use blocks::{code_at, extent_number};
pub use segment::{count_tables, find_free, read_segment};
