// The records of tables and marks, drafted from what the pages say.
ghost use Rattle.std.specs.Prelude.{ℕ, ◌≡◌, ◌≤◌, ◌<◌, ◌+◌, ◌*◌, min, true, List, length, IfOk, IsOk, Some};
ghost use Rattle.seg_words.specs.Types.{Shape as TheShape, is_extent, is_shape, MOST_EXTENTS, MOST_EXTENT_BLOCKS};
ghost use Rattle.redo_model.specs.Records.{Record};
ghost use Rattle.redo_model.specs.Model.{block_in as nth_block, extent_at, extents_of, group_start as start_of, index_of, table_count};
ghost use Rattle.page_fit.specs.Headers.{SaysHeader};
ghost use Rattle.mark_laws.specs.Drafts.{drafted_advance, drafted_extend, drafted_first, drafted_format, drafted_movement, drafted_table};
ghost use Rattle.mark_laws.specs.There.{HasExtents};
ghost use Rattle.segment_read.specs.Segments.{IsSegment};

use data_places::{block_in, data_count};
use page_set::Page;
use redo_record::{AdvanceRecord, ExtendRecord, FormatBlockRecord, MovementRecord, TableRecord};
use seg_base::{ADVANCE_BLOCKS, Class, Dba, EXTENTS_OF_L2, Name, Obj, Shape};
use segment_read::{Segment, WrongPage, extent_in, index_in};

/// Row movement of a table turned on or off.
pub fn draft_movement(segment: &Segment, on: bool) -> MovementRecord
    ensures { (sh : TheShape) (R : List Record) (o : ℕ) → IsSegment sh R o segment.now → result ≡ drafted_movement sh R o on }
{
    MovementRecord {
        obj: segment.obj,
        header: segment.header,
        on,
    }
}

/// The high mark after it moved up, by at most 16 of so many data blocks.
fn next_high(high: u32, count: u32) -> u32
    requires { count ≤ MOST_EXTENTS * MOST_EXTENT_BLOCKS }
    ensures { result ≡ min (high + ADVANCE_BLOCKS) count }
{
    if high >= count {
        return count;
    }
    (high + ADVANCE_BLOCKS).min(count)
}

/// The marks moved up: the low one to the high one, and that by at most 16 of the table's data blocks.
pub fn draft_advance(segment: &Segment, shape: &Shape) -> AdvanceRecord
    requires shape { is_shape shape.now ≡ true }
    requires few { segment.now.extents ≤ MOST_EXTENTS }
    ensures { (R : List Record) (o : ℕ) → IsSegment shape.now R o segment.now → result ≡ drafted_advance shape.now R o }
{
    let count = data_count(shape, segment.extents);
    AdvanceRecord {
        obj: segment.obj,
        header: segment.header,
        low: segment.high,
        high: next_high(segment.high, count),
    }
}

/// The index of the first extent of those that the second level covers which covers the extent at this index.
fn group_start(index: u16) -> u16
    ensures value { result ≡ start_of index }
    ensures most { result ≤ index }
{
    if usize::from(index) < EXTENTS_OF_L2 {
        return 0;
    }
    if usize::from(index) < 2 * EXTENTS_OF_L2 {
        return EXTENTS_OF_L2 as u16;
    }
    (2 * EXTENTS_OF_L2) as u16
}

/// The nth block of the extent at an index, by the page of the header.
fn block_at(page: &Page, shape: &Shape, index: u16, nth: u16) -> Result<Dba, WrongPage>
    ensures says { (R : List Record) (o : ℕ) → SaysHeader R o page.now → IfOk result (λ d. d ≡ nth_block shape.now (extent_at (extents_of R o) index) nth) }
    ensures right { (R : List Record) (o : ℕ) → SaysHeader R o page.now → HasExtents shape.now R o → index < length (extents_of R o) → nth < shape.now.extent → IsOk result }
{
    let extent = extent_in(page, index)?;
    match block_in(shape, extent, nth) {
        Some(dba) => Ok(dba),
        None => Err(WrongPage),
    }
}

/// A block of the table formatted: its class is the best one, and so are both bests.
pub fn draft_format(
    segment: &Segment,
    page: &Page,
    shape: &Shape,
    dba: Dba,
) -> Result<FormatBlockRecord, WrongPage>
    requires { is_shape shape.now ≡ true }
    ensures says { (R : List Record) (o : ℕ) → IsSegment shape.now R o segment.now → SaysHeader R o page.now → IfOk result (λ f. f ≡ drafted_format shape.now R o dba) }
    ensures right { (R : List Record) (o : ℕ) → SaysHeader R o page.now → HasExtents shape.now R o → index_of shape.now (extents_of R o) dba < length (extents_of R o) → IsOk result }
{
    let index = index_in(page, shape, dba)?;
    let l2 = block_at(page, shape, group_start(index), 1)?;
    let l3 = block_at(page, shape, 0, 2)?;
    Ok(FormatBlockRecord {
        obj: segment.obj,
        dba,
        l2,
        l3,
        index,
        best_of_l1: 5,
        best_of_l2: 5,
    })
}

/// The second level that covers the next extent: one that is there, or the second block of the new extent.
fn l2_of_next(segment: &Segment, page: &Page, shape: &Shape, extent: u32) -> Result<Dba, WrongPage>
    ensures says { (R : List Record) (o : ℕ) → IsSegment shape.now R o segment.now → SaysHeader R o page.now → IfOk result (λ d. d ≡ (drafted_extend shape.now R o extent).l2) }
    ensures right { (R : List Record) (o : ℕ) → IsSegment shape.now R o segment.now → SaysHeader R o page.now → HasExtents shape.now R o → is_extent shape.now extent ≡ true → is_shape shape.now ≡ true → IsOk result }
{
    let start = group_start(segment.extents);
    if start < segment.extents {
        return block_at(page, shape, start, 1);
    }
    match block_in(shape, extent, 1) {
        Some(dba) => Ok(dba),
        None => Err(WrongPage),
    }
}

/// One more extent for a table that has some.
pub fn draft_extend(
    segment: &Segment,
    page: &Page,
    shape: &Shape,
    extent: u32,
) -> Result<ExtendRecord, WrongPage>
    ensures says { (R : List Record) (o : ℕ) → IsSegment shape.now R o segment.now → SaysHeader R o page.now → HasExtents shape.now R o → IfOk result (λ e. e ≡ drafted_extend shape.now R o extent) }
    ensures right { (R : List Record) (o : ℕ) → IsSegment shape.now R o segment.now → SaysHeader R o page.now → HasExtents shape.now R o → is_extent shape.now extent ≡ true → is_shape shape.now ≡ true → IsOk result }
{
    let l2 = l2_of_next(segment, page, shape, extent)?;
    let l3 = block_at(page, shape, 0, 2)?;
    Ok(ExtendRecord {
        obj: segment.obj,
        header: segment.header,
        index: segment.extents,
        extent,
        l2,
        l3,
    })
}
