// What moves a table's marks, and what a search for a block finds.
use seg_base::Dba;

/// A movement of a table's marks: what happens where no block under the high mark is known to take a row.
#[derive(Clone, Copy, Debug, PartialEq, Eq, Drop)]
pub enum MarkStep {
    /// This block, the first unformatted one under the high mark, is formatted.
    Format(Dba),
    /// The low mark goes to the high one, and that up by at most 16 blocks.
    Advance,
    /// The table gets this extent, the least free one.
    Extend(u32),
}

/// What a search for a block that takes a row finds.
#[derive(Clone, Copy, Debug, PartialEq, Eq, Drop)]
pub enum Found {
    /// A block that takes the row.
    Block(Dba),
    /// No such block yet: the marks have to be moved first.
    Mark(MarkStep),
}

/// Why a search for a block is refused: no block takes the row, and the marks can't move.
#[derive(Clone, Copy, Debug, PartialEq, Eq, Drop)]
pub enum Refusal {
    /// No extent is free; a row of this length was to be placed.
    NoSpace { need: u16 },
    /// The table has so many extents, as many as one may have.
    MaxExtents { count: u16 },
}
