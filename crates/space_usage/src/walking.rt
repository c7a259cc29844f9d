// The data blocks of a table, by position, with what the bitmaps say of them.
ghost use Rattle.std.specs.Prelude.{ℕ, ◌≡◌, ◌≤◌, ◌<◌, ◌+◌, true, None, List, Some, IfOk, IfErr};
ghost use Rattle.seg_words.specs.Types.{MOST_BLOCKS, first_block, head_blocks, is_shape};
ghost use Rattle.redo_model.specs.Records.{Record};
ghost use Rattle.redo_model.specs.Model.{Extent, code_of, extent_at, extents_of};
ghost use Rattle.data_places.specs.Places.{IsPlace};
ghost use Rattle.store_core.specs.Causes.{HasLooked, IsSoundFault};
ghost use Rattle.space_usage.specs.Counting.{IsCoded, Knows};

use data_places::{Place, block_in};
use disk_model::Disk;
use seg_base::{Dba, Shape};
use segment_read::Segment;
use store_core::{Store, StoreFault};
use store_read::{code_at, extent_number};

/// A data block, and its code in the bitmap: 1 to 5 for the kept class of a formatted one, else 0.
#[derive(Clone, Copy, Debug, Drop)]
pub struct Coded {
    pub dba: Dba,
    pub code: u8,
}

fn nth_block(first: Dba, nth: u16) -> Dba
    requires { first ≤ MOST_BLOCKS }
    ensures { result ≡ first + nth }
{
    Dba(first.0 + u32::from(nth))
}

/// The nth block of the extent with this number, a data block.
fn coded_in<D: Disk>(
    store: &mut Store<D>,
    segment: &Segment,
    shape: &Shape,
    extent: u32,
    nth: u16,
) -> Result<Coded, StoreFault>
    requires { is_shape shape.now ≡ true }
    ensures looked { HasLooked D.meaning store.old store.new result }
    ensures says { (R : List Record) (o index : ℕ) (e : Extent) → Knows D.meaning R o store.old shape.now segment.now → extent_at (extents_of R o) index ≡ Some e → e.number ≡ extent → head_blocks index ≤ nth → nth < shape.now.extent → IfOk result (λ x. x ≡ record { dba = first_block shape.now extent + nth; code = code_of shape.now R (first_block shape.now extent + nth) }) }
    ensures sound { (R : List Record) (o index : ℕ) (e : Extent) → Knows D.meaning R o store.old shape.now segment.now → extent_at (extents_of R o) index ≡ Some e → e.number ≡ extent → nth < shape.now.extent → store.old.fault ≡ None → IfErr result IsSoundFault }
{
    let first = match block_in(shape, extent, 0) {
        Some(first) => first,
        None => return Err(store.refuse(segment.header)),
    };
    match code_at(store, first, nth) {
        Ok(code) => Ok(Coded {
            dba: nth_block(first, nth),
            code,
        }),
        Err(fault) => Err(fault),
    }
}

/// The data block at a place of the segment's table.
pub fn coded_at<D: Disk>(
    store: &mut Store<D>,
    segment: &Segment,
    shape: &Shape,
    place: &Place,
) -> Result<Coded, StoreFault>
    requires { is_shape shape.now ≡ true }
    ensures looked { HasLooked D.meaning store.old store.new result }
    ensures says { (R : List Record) (o position : ℕ) → Knows D.meaning R o store.old shape.now segment.now → IsPlace shape.now segment.now.extents place.now position → IfOk result (IsCoded shape.now R o position) }
    ensures sound { (R : List Record) (o position : ℕ) → Knows D.meaning R o store.old shape.now segment.now → IsPlace shape.now segment.now.extents place.now position → store.old.fault ≡ None → IfErr result IsSoundFault }
{
    match extent_number(store, segment, place.index) {
        Ok(extent) => coded_in(store, segment, shape, extent, place.nth),
        Err(fault) => Err(fault),
    }
}
