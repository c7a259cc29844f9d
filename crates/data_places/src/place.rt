// Positions of data blocks, and where they stand.
ghost use Rattle.std.specs.Prelude.{ℕ, ◌≡◌, ◌≤◌, ◌+◌, ◌*◌, true, MatchOption};
ghost use Rattle.seg_words.specs.Types.{head_blocks as heads_of, is_shape, MOST_EXTENT_BLOCKS};
ghost use Rattle.data_places.specs.Places.{IsPlace, block_or_none, data_count as count_of, head_count};

use seg_base::{Dba, EXTENTS_OF_L2, MOST_EXTENTS, OWN_BLOCKS, Shape};

/// A block of a table: the index of its extent among those of the table, and which block of the extent it is, from 0.
#[derive(Clone, Copy, Debug, PartialEq, Eq, Drop)]
pub struct Place {
    pub index: u16,
    pub nth: u16,
}

/// How many blocks of the extent at this index are bitmaps and the header: they stand before its data blocks.
pub fn head_blocks(index: u16) -> u16
    ensures value { result ≡ heads_of index }
    ensures least { 1 ≤ result }
    ensures most { result ≤ 4 }
{
    if index == 0 {
        return 4;
    }
    let index = usize::from(index);
    if index == EXTENTS_OF_L2 || index == 2 * EXTENTS_OF_L2 {
        return 2;
    }
    1
}

/// The nth block of an extent. None exactly where the store has no such block.
pub fn block_in(shape: &Shape, extent: u32, nth: u16) -> Option<Dba>
    ensures { result ≡ block_or_none shape.now extent nth }
{
    let offset = u64::from(extent) * u64::from(shape.extent);
    let blocks = u64::from(shape.blocks);
    if offset >= blocks {
        return None;
    }
    let block = u64::from(OWN_BLOCKS) + u64::from(shape.undo) + offset + u64::from(nth);
    if block >= blocks {
        return None;
    }
    Some(Dba(block as u32))
}

/// How many blocks of the first extents of a table are bitmaps and the header: one of each, and five more in three of them.
fn head_count(extents: u16) -> u32
    ensures { result ≡ head_count extents }
{
    if extents == 0 {
        return 0;
    }
    let count = u32::from(extents) + 3;
    if usize::from(extents) <= EXTENTS_OF_L2 {
        return count;
    }
    if usize::from(extents) <= 2 * EXTENTS_OF_L2 {
        return count + 1;
    }
    count + 2
}

/// How many data blocks the first extents of a table have.
pub fn data_count(shape: &Shape, extents: u16) -> u32
    requires shape { is_shape shape.now ≡ true }
    requires most { extents ≤ MOST_EXTENTS }
    ensures value { result ≡ count_of shape.now extents }
    ensures most { result ≤ MOST_EXTENTS * MOST_EXTENT_BLOCKS }
{
    u32::from(extents) * shape.extent - head_count(extents)
}

/// Where the data block at this position stands, in a table with so many extents. None exactly where it has no more data
/// blocks than that.
pub fn place_at(shape: &Shape, extents: u16, position: u32) -> Option<Place>
    requires shape { is_shape shape.now ≡ true }
    ensures { MatchOption result (count_of shape.now extents ≤ position) (λ p. IsPlace shape.now extents p position) }
{
    let mut left = position;
    for index in 0..extents {
        let head = u32::from(head_blocks(index));
        let room = shape.extent - head;
        if left < room {
            let nth = (head + left) as u16;
            return Some(Place { index, nth });
        }
        left -= room;
    }
    None
}

impl Place {
    /// The place of the next position. None exactly where the table with so many extents has no more data blocks.
    pub fn next(&self, shape: &Shape, extents: u16) -> Option<Place>
        requires shape { is_shape shape.now ≡ true }
        ensures { (position : ℕ) → IsPlace shape.now extents self.now position → MatchOption result (count_of shape.now extents ≤ position + 1) (λ p. IsPlace shape.now extents p (position + 1)) }
    {
        if u32::from(self.nth) + 1 < shape.extent {
            return Some(Place {
                index: self.index,
                nth: self.nth + 1,
            });
        }
        if u32::from(self.index) + 1 >= u32::from(extents) {
            return None;
        }
        let index = self.index + 1;
        Some(Place {
            index,
            nth: head_blocks(index),
        })
    }
}
