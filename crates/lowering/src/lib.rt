//! The end of a shrink: the longest suffix of vacant extents of a table is released, and its marks are lowered, by one record.
#![tactic(auto)]

mod draft;
mod extent;
mod ground;
mod groups;
mod kept;
mod laws;
mod pages;
mod releasing;
mod slots;

pub use laws::lowerings_mean;
pub use releasing::lower;
