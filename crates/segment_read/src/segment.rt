// A table's segment.
use seg_base::{Dba, Obj};

/// What the header of a table's segment says, but for the numbers of its extents.
#[derive(Clone, Copy, Debug, PartialEq, Eq, Drop)]
pub struct Segment {
    pub obj: Obj,
    /// The header's block.
    pub header: Dba,
    /// Per cent of a block, at most 50.
    pub pctfree: u8,
    /// Whether rows may be moved.
    pub movement: bool,
    /// The low and the high water mark, in data blocks.
    pub low: u32,
    pub high: u32,
    /// How many extents the table has, at most 900.
    pub extents: u16,
}
