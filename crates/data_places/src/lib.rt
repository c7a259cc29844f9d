//! Where the data blocks of a table stand: extent by extent, in order of position, by the table's count of extents and the
//! store's shape alone.
#![tactic(auto)]

mod laws;
mod place;

pub use laws::{counts_tell, places_tell};
pub use place::{Place, block_in, data_count, head_blocks, place_at};
