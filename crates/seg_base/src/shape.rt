// A store's shape, and the places of its blocks.
ghost use Rattle.std.specs.Prelude.{◌≡◌, ◌↔◌, None, true};
ghost use Rattle.seg_base.specs.Places.{data_place, head_blocks as heads_of, is_shape, wrong_number};

use crate::Dba;
use crate::limit::{
    EXTENTS_OF_L2, LEAST_BLOCKS, LEAST_EXTENT_BLOCKS, LEAST_UNDO_BLOCKS, MOST_BLOCKS,
    MOST_EXTENT_BLOCKS, MOST_EXTENTS, MOST_UNDO_BLOCKS, OWN_BLOCKS,
};

/// The number of blocks of the data file, of an extent, and of the undo ring.
#[derive(Clone, Copy, Debug, PartialEq, Eq, Drop)]
pub struct Shape {
    pub blocks: u32,
    pub extent: u32,
    pub undo: u32,
}

/// One of the numbers of a shape.
#[derive(Clone, Copy, Debug, PartialEq, Eq, Drop)]
pub enum ShapeNumber {
    Blocks,
    Extent,
    Undo,
}

impl Shape {
    /// The first number that is out of its range: 64 to 16,384 blocks, extents of 8 to 64, 2 to 1,024 undo blocks.
    /// `Undo` also where the blocks have no room for the store's own ones, the undo blocks and one extent. None
    /// exactly within the limits.
    pub fn wrong_number(&self) -> Option<ShapeNumber>
        ensures number { result ≡ wrong_number self.now }
        ensures within { result ≡ None ↔ is_shape self.now ≡ true }
    {
        if self.blocks < LEAST_BLOCKS || self.blocks > MOST_BLOCKS {
            return Some(ShapeNumber::Blocks);
        }
        if self.extent < LEAST_EXTENT_BLOCKS || self.extent > MOST_EXTENT_BLOCKS {
            return Some(ShapeNumber::Extent);
        }
        if self.undo < LEAST_UNDO_BLOCKS || self.undo > MOST_UNDO_BLOCKS {
            return Some(ShapeNumber::Undo);
        }
        if OWN_BLOCKS + self.undo + self.extent > self.blocks {
            return Some(ShapeNumber::Undo);
        }
        None
    }

    /// Whether it is within the limits: 64 to 16,384 blocks, extents of 8 to 64, 2 to 1,024 undo blocks, and
    /// room for at least one extent.
    pub fn is_within_limits(&self) -> bool
        ensures { result ≡ is_shape self.now }
    {
        self.wrong_number().is_none()
    }
}

/// How many blocks an extent's bitmaps, and in the first extent the header, take before its data blocks.
fn head_blocks(index: u16) -> u64
    ensures { result ≡ heads_of index }
{
    if index == 0 {
        return 4;
    }
    let index = usize::from(index);
    if index == EXTENTS_OF_L2 || index == 2 * EXTENTS_OF_L2 {
        return 2;
    }
    1
}

/// The nth data block of an extent that stands at this index among its table's extents. None exactly where the
/// extent isn't a whole one of the store, the index isn't below the most extents of a table, or the extent has no such data block.
pub fn place_of(shape: &Shape, extent: u32, index: u16, nth: u32) -> Option<Dba>
    ensures { result ≡ data_place shape.now extent index nth }
{
    let size = u64::from(shape.extent);
    let offset = u64::from(extent) * size;
    if offset > u64::from(shape.blocks) || index >= MOST_EXTENTS {
        return None;
    }
    let first = u64::from(OWN_BLOCKS) + u64::from(shape.undo) + offset;
    if first + size > u64::from(shape.blocks) {
        return None;
    }
    let heads = head_blocks(index);
    if heads + u64::from(nth) >= size {
        return None;
    }
    Some(Dba((first + heads + u64::from(nth)) as u32))
}
