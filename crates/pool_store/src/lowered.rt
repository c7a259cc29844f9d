// What is answered where a table's marks are lowered.
use redo_record::Extents;

/// What a lowering of a table's marks released.
#[derive(Debug, Drop)]
pub struct Lowered {
    /// The extents, in the order of their places in the table.
    pub released: Extents,
    /// The ordinal of the lowering, 0 where nothing was released.
    pub number: u64,
    /// The high mark afterwards, in data blocks.
    pub high: u32,
}
