//! What the pages of a store say of a table's segment: its header by the catalogue, its marks and extents by the header, the
//! codes of its blocks by the bitmaps, the free extents by the space bitmap.
#![tactic(auto)]

mod extents;
mod levels;
mod pages;
mod segment;

pub use extents::{extent_count, index_in, is_in_extent, least_free_in};
pub use levels::{best_of_extent, best_of_group, code_of_block, incarnation_in};
pub use pages::{WrongPage, extent_in, header_in, segment_in, tables_in};
pub use segment::Segment;
