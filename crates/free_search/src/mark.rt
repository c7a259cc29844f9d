// The next movement of a table's marks.
ghost use Rattle.std.specs.Prelude.{◌≡◌, ◌≤◌, ◌<◌, true, None, List, IfOk, IfErr};
ghost use Rattle.seg_words.specs.Types.{is_shape};
ghost use Rattle.redo_model.specs.Records.{Record};
ghost use Rattle.redo_model.specs.Model.{IsTable, first_unformatted, under_high};
ghost use Rattle.mark_laws.specs.Movements.{next_growth, next_mark};
ghost use Rattle.store_core.specs.Causes.{HasLooked, IsSoundFault};
ghost use Rattle.store_core.specs.Store.{IsTrue};
ghost use Rattle.free_search.specs.Looks.{HasSegment};
ghost use Rattle.free_search.specs.Walks.{IsAtPosition};

use crate::extent::{block_of, nth_block};
use data_places::{data_count, place_at};
use disk_model::Disk;
use mark_laws::MarkStep;
use seg_base::{Dba, MOST_EXTENTS, Obj, SPACE_BLOCK, Shape};
use segment_read::Segment;
use store_core::{Store, StoreFault};
use store_read::{code_at, find_free, read_segment};

/// The block at a position below the high mark, where it isn't formatted.
fn unformatted_at<D: Disk>(
    store: &mut Store<D>,
    segment: &Segment,
    shape: &Shape,
    position: u32,
) -> Result<Option<Dba>, StoreFault>
    requires { is_shape shape.now ≡ true }
    ensures looked { HasLooked D.meaning store.old store.new result }
    ensures says { (R : List Record) → IsTrue D.meaning R store.old → HasSegment store.old.shape R shape.now segment.now → position < segment.now.high → IfOk result (IsAtPosition shape.now R segment.now.obj position) }
    ensures sound { (R : List Record) → IsTrue D.meaning R store.old → HasSegment store.old.shape R shape.now segment.now → position < segment.now.high → store.old.fault ≡ None → IfErr result IsSoundFault }
{
    let place = match place_at(shape, segment.extents, position) {
        Some(place) => place,
        None => return Err(store.refuse(segment.header)),
    };
    let first = match block_of(store, segment, shape, place.index, 0) {
        Ok(first) => first,
        Err(fault) => return Err(fault),
    };
    let code = match code_at(store, first, place.nth) {
        Ok(code) => code,
        Err(fault) => return Err(fault),
    };
    if code != 0 {
        return Ok(None);
    }
    Ok(Some(nth_block(first, place.nth)))
}

/// The first unformatted block under the high mark. Blocks below the low mark are formatted, so that it isn't looked for there.
fn first_unformatted<D: Disk>(
    store: &mut Store<D>,
    segment: &Segment,
    shape: &Shape,
) -> Result<Option<Dba>, StoreFault>
    requires shape { is_shape shape.now ≡ true }
    requires unspent { store.old.fault ≡ None }
    ensures looked { HasLooked D.meaning store.old store.new result }
    ensures says { (R : List Record) → IsTrue D.meaning R store.old → HasSegment store.old.shape R shape.now segment.now → IfOk result (λ r. r ≡ first_unformatted shape.now R (under_high shape.now R segment.now.obj)) }
    ensures sound { (R : List Record) → IsTrue D.meaning R store.old → HasSegment store.old.shape R shape.now segment.now → IfErr result IsSoundFault }
{
    for position in segment.low..segment.high {
        match unformatted_at(store, segment, shape, position) {
            Err(fault) => return Err(fault),
            Ok(Some(dba)) => return Ok(Some(dba)),
            Ok(None) => {}
        }
    }
    Ok(None)
}

/// The next movement where no block under the high mark is unformatted.
fn next_growth<D: Disk>(
    store: &mut Store<D>,
    segment: &Segment,
    shape: &Shape,
) -> Result<Option<MarkStep>, StoreFault>
    requires shape { is_shape shape.now ≡ true }
    requires most { segment.now.extents ≤ MOST_EXTENTS }
    requires unspent { store.old.fault ≡ None }
    ensures looked { HasLooked D.meaning store.old store.new result }
    ensures says { (R : List Record) → IsTrue D.meaning R store.old → HasSegment store.old.shape R shape.now segment.now → IfOk result (λ m. m ≡ next_growth shape.now R segment.now.obj) }
    ensures sound { (R : List Record) → IsTrue D.meaning R store.old → IfErr result IsSoundFault }
{
    let count = data_count(shape, segment.extents);
    if segment.high < count {
        return Ok(Some(MarkStep::Advance));
    }
    if segment.extents >= MOST_EXTENTS {
        return Ok(None);
    }
    match find_free(store) {
        Ok(Some(extent)) => Ok(Some(MarkStep::Extend(extent))),
        Ok(None) => Ok(None),
        Err(fault) => Err(fault),
    }
}

/// The next movement of the marks of this segment.
pub fn next_of_segment<D: Disk>(
    store: &mut Store<D>,
    segment: &Segment,
    shape: &Shape,
) -> Result<Option<MarkStep>, StoreFault>
    requires shape { is_shape shape.now ≡ true }
    requires most { segment.now.extents ≤ MOST_EXTENTS }
    requires unspent { store.old.fault ≡ None }
    ensures looked { HasLooked D.meaning store.old store.new result }
    ensures says { (R : List Record) → IsTrue D.meaning R store.old → HasSegment store.old.shape R shape.now segment.now → IfOk result (λ m. m ≡ next_mark shape.now R segment.now.obj) }
    ensures sound { (R : List Record) → IsTrue D.meaning R store.old → HasSegment store.old.shape R shape.now segment.now → IfErr result IsSoundFault }
{
    match first_unformatted(store, segment, shape) {
        Ok(Some(dba)) => Ok(Some(MarkStep::Format(dba))),
        Ok(None) => next_growth(store, segment, shape),
        Err(fault) => Err(fault),
    }
}

/// The next movement of a table's marks: the first unformatted block under the high mark is formatted; else the high mark goes
/// up; else the table gets the least free extent. None exactly where all of its data blocks are formatted, and it can get no
/// extent. The table is there. Nothing is changed.
pub fn next_mark<D: Disk>(store: &mut Store<D>, obj: Obj) -> Result<Option<MarkStep>, StoreFault>
    ensures looked { HasLooked D.meaning store.old store.new result }
    ensures says { (R : List Record) → IsTrue D.meaning R store.old → IsTable R obj → IfOk result (λ m. m ≡ next_mark store.old.shape R obj) }
    ensures sound { (R : List Record) → IsTrue D.meaning R store.old → IsTable R obj → store.old.fault ≡ None → IfErr result IsSoundFault }
{
    let shape = store.shape();
    if !shape.is_within_limits() {
        return Err(store.refuse(Dba(SPACE_BLOCK)));
    }
    match read_segment(store, obj) {
        Ok(segment) => next_of_segment(store, &segment, &shape),
        Err(fault) => Err(fault),
    }
}
