// Whether a block is a formatted data block of a table under its high mark.
ghost use Rattle.std.specs.Prelude.{ℕ, ◌≡◌, ◌≤◌, ◌<◌, true, None, List, Some, IfOk, IfErr, IfSome};
ghost use Rattle.seg_words.specs.Types.{MOST_PCTFREE, is_shape};
ghost use Rattle.redo_model.specs.Records.{Record};
ghost use Rattle.redo_model.specs.Model.{Extent, IsTable, extent_at, extents_of, index_of};
ghost use Rattle.store_core.specs.Causes.{HasLooked, IsSoundFault};
ghost use Rattle.store_core.specs.Store.{IsFetched, IsTrue};
ghost use Rattle.space_usage.specs.Counting.{Knows};
ghost use Rattle.space_usage.specs.Fixing.{IndexTold, RowTold, SegmentTold};

use crate::levels::nth_in;
use data_places::{block_in, head_blocks};
use disk_model::Disk;
use seg_base::{CATALOGUE_BLOCK, Dba, Obj, Shape};
use segment_read::{Segment, index_in};
use store_core::{Store, StoreFault};
use store_read::{code_at, extent_number, read_segment};

fn told_index<D: Disk>(store: &Store<D>, segment: &Segment, shape: &Shape, dba: Dba) -> Option<u16>
    requires shape { is_shape shape.now ≡ true }
    requires fetched { IsFetched segment.now.header store.now }
    ensures { (R : List Record) (o : ℕ) → Knows D.meaning R o store.now shape.now segment.now → IndexTold shape.now R o dba result }
{
    match index_in(store.frame(segment.header), shape, dba) {
        Err(_) => None,
        Ok(index) => {
            if index < segment.extents {
                Some(index)
            } else {
                None
            }
        }
    }
}

/// The index of the extent of the segment's table in which a block stands.
fn find_index<D: Disk>(
    store: &mut Store<D>,
    segment: &Segment,
    shape: &Shape,
    dba: Dba,
) -> Result<Option<u16>, StoreFault>
    requires { is_shape shape.now ≡ true }
    ensures looked { HasLooked D.meaning store.old store.new result }
    ensures says { (R : List Record) (o : ℕ) → Knows D.meaning R o store.old shape.now segment.now → IfOk result (IndexTold shape.now R o dba) }
    ensures sound { (R : List Record) (o : ℕ) → Knows D.meaning R o store.old shape.now segment.now → store.old.fault ≡ None → IfErr result IsSoundFault }
{
    match store.fetch(segment.header) {
        Ok(()) => Ok(told_index(store, segment, shape, dba)),
        Err(fault) => Err(fault),
    }
}

/// Whether a block that stands in the extent with this index and number is a formatted data block.
fn is_row_in<D: Disk>(
    store: &mut Store<D>,
    segment: &Segment,
    shape: &Shape,
    index: u16,
    extent: u32,
    dba: Dba,
) -> Result<bool, StoreFault>
    requires shape { is_shape shape.now ≡ true }
    requires unspent { store.old.fault ≡ None }
    ensures looked { HasLooked D.meaning store.old store.new result }
    ensures says { (R : List Record) (o : ℕ) (e : Extent) → Knows D.meaning R o store.old shape.now segment.now → extent_at (extents_of R o) index ≡ Some e → e.number ≡ extent → index ≡ index_of shape.now (extents_of R o) dba → IfOk result (RowTold shape.now R o dba) }
    ensures sound { (R : List Record) (o : ℕ) (e : Extent) → Knows D.meaning R o store.old shape.now segment.now → extent_at (extents_of R o) index ≡ Some e → e.number ≡ extent → index ≡ index_of shape.now (extents_of R o) dba → IfErr result IsSoundFault }
{
    let first = match block_in(shape, extent, 0) {
        Some(first) => first,
        None => return Err(store.refuse(segment.header)),
    };
    let nth = nth_in(first, dba);
    if nth < head_blocks(index) {
        return Ok(false);
    }
    match code_at(store, first, nth) {
        Ok(code) => Ok(code != 0),
        Err(fault) => Err(fault),
    }
}

fn is_row_at<D: Disk>(
    store: &mut Store<D>,
    segment: &Segment,
    shape: &Shape,
    index: u16,
    dba: Dba,
) -> Result<bool, StoreFault>
    requires { is_shape shape.now ≡ true }
    ensures looked { HasLooked D.meaning store.old store.new result }
    ensures says { (R : List Record) (o : ℕ) → Knows D.meaning R o store.old shape.now segment.now → IndexTold shape.now R o dba (Some index) → IfOk result (RowTold shape.now R o dba) }
    ensures sound { (R : List Record) (o : ℕ) → Knows D.meaning R o store.old shape.now segment.now → IndexTold shape.now R o dba (Some index) → store.old.fault ≡ None → IfErr result IsSoundFault }
{
    match extent_number(store, segment, index) {
        Ok(extent) => is_row_in(store, segment, shape, index, extent, dba),
        Err(fault) => Err(fault),
    }
}

/// Whether a block is a formatted data block of the segment's table under its high mark.
fn is_row_block<D: Disk>(
    store: &mut Store<D>,
    segment: &Segment,
    shape: &Shape,
    dba: Dba,
) -> Result<bool, StoreFault>
    requires { is_shape shape.now ≡ true }
    ensures looked { HasLooked D.meaning store.old store.new result }
    ensures says { (R : List Record) (o : ℕ) → Knows D.meaning R o store.old shape.now segment.now → IfOk result (RowTold shape.now R o dba) }
    ensures sound { (R : List Record) (o : ℕ) → Knows D.meaning R o store.old shape.now segment.now → store.old.fault ≡ None → IfErr result IsSoundFault }
{
    match find_index(store, segment, shape, dba) {
        Ok(Some(index)) => is_row_at(store, segment, shape, index, dba),
        Ok(None) => Ok(false),
        Err(fault) => Err(fault),
    }
}

/// The segment of a table that is there, where the block is a formatted data block of it under its high mark.
pub fn find_block<D: Disk>(
    store: &mut Store<D>,
    obj: Obj,
    dba: Dba,
) -> Result<Option<Segment>, StoreFault>
    ensures looked { HasLooked D.meaning store.old store.new result }
    ensures says { (R : List Record) → IsTrue D.meaning R store.old → IsTable R obj → IfOk result (SegmentTold store.old.shape R obj dba) }
    ensures sound { (R : List Record) → IsTrue D.meaning R store.old → IsTable R obj → store.old.fault ≡ None → IfErr result IsSoundFault }
    ensures percent { IfOk result (λ x. IfSome x (λ g. g.pctfree ≤ MOST_PCTFREE)) }
{
    let shape = store.shape();
    if !shape.is_within_limits() {
        return Err(store.refuse(Dba(CATALOGUE_BLOCK)));
    }
    let segment = match read_segment(store, obj) {
        Ok(segment) => segment,
        Err(fault) => return Err(fault),
    };
    match is_row_block(store, &segment, &shape, dba) {
        Ok(true) => Ok(Some(segment)),
        Ok(false) => Ok(None),
        Err(fault) => Err(fault),
    }
}
