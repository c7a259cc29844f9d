// The blocks of an extent of a table, and the next extent that may have a good one.
ghost use Rattle.std.specs.Prelude.{ℕ, ◌≡◌, ◌≤◌, ◌<◌, ◌+◌, true, None, List, length, Some, IfOk, IfErr, IsOk};
ghost use Rattle.seg_words.specs.Types.{EXTENTS_OF_L2, MOST_BLOCKS, Shape as TheShape, is_shape};
ghost use Rattle.redo_model.specs.Records.{Record};
ghost use Rattle.redo_model.specs.Model.{Extent, IsTable, block_in as block_at, extent_at, extents_of, group_start as start_of, l2_of};
ghost use Rattle.page_says.specs.Levels.{SaysSecond};
ghost use Rattle.store_core.specs.Causes.{HasLooked, IsSoundFault};
ghost use Rattle.store_core.specs.Store.{IsFetched, IsTrue};
ghost use Rattle.free_search.specs.Codes.{LacksGood, LacksGoodNth};
ghost use Rattle.free_search.specs.Looks.{HasSegment};

use crate::look::Wanted;
use crate::place::has_code;
use data_places::block_in;
use disk_model::Disk;
use page_set::Page;
use seg_base::{Dba, Shape};
use segment_read::{Segment, WrongPage, best_of_extent};
use store_core::{Store, StoreFault};
use store_read::extent_number;

pub fn nth_block(first: Dba, nth: u16) -> Dba
    requires { first ≤ MOST_BLOCKS }
    ensures { result ≡ first + nth }
{
    Dba(first.0 + u32::from(nth))
}

/// The nth block of the extent at an index of a table.
pub fn block_of<D: Disk>(
    store: &mut Store<D>,
    segment: &Segment,
    shape: &Shape,
    index: u16,
    nth: u16,
) -> Result<Dba, StoreFault>
    requires { is_shape shape.now ≡ true }
    ensures looked { HasLooked D.meaning store.old store.new result }
    ensures says { (R : List Record) → IsTrue D.meaning R store.old → HasSegment store.old.shape R shape.now segment.now → IfOk result (λ d. d ≡ block_at shape.now (extent_at (extents_of R segment.now.obj) index) nth) }
    ensures sound { (R : List Record) → IsTrue D.meaning R store.old → HasSegment store.old.shape R shape.now segment.now → index < length (extents_of R segment.now.obj) → nth < shape.now.extent → store.old.fault ≡ None → IfErr result IsSoundFault }
    ensures most { IfOk result (λ d. d ≤ MOST_BLOCKS) }
{
    let extent = match extent_number(store, segment, index) {
        Ok(extent) => extent,
        Err(fault) => return Err(fault),
    };
    match block_in(shape, extent, nth) {
        Some(dba) => Ok(dba),
        None => Err(store.refuse(segment.header)),
    }
}

/// The first number from one on, and below another, of an extent which the page of a second level says may have a block with a
/// kept class from Fs1 to Fs4: the other where there is none.
fn next_in(page: &Page, from: u16, to: u16) -> Result<u16, WrongPage>
    requires { from ≤ to }
    ensures says { (sh : TheShape) (R : List Record) (o start : ℕ) → SaysSecond sh R o start page.now → IfOk result (LacksGoodNth sh R o start from) }
    ensures right { (sh : TheShape) (R : List Record) (o start : ℕ) → SaysSecond sh R o start page.now → to ≤ EXTENTS_OF_L2 → IsOk result }
    ensures within { IfOk result (λ n. (from ≤ n) × (n ≤ to)) }
{
    for nth in from..to {
        match best_of_extent(page, nth) {
            Ok(best) => {
                if has_code(&Wanted::Good, best) {
                    return Ok(nth);
                }
            }
            Err(wrong) => return Err(wrong),
        }
    }
    Ok(to)
}

fn told_next<D: Disk>(
    store: &Store<D>,
    second: Dba,
    start: u16,
    from: u16,
    to: u16,
) -> Result<u16, WrongPage>
    requires fetched { IsFetched second store.now }
    requires range { from ≤ to }
    requires group { start_of start ≡ start }
    ensures says { (R : List Record) (o : ℕ) (e : Extent) → IsTrue D.meaning R store.now → extent_at (extents_of R o) start ≡ Some e → second ≡ l2_of store.now.shape (extents_of R o) start → IfOk result (LacksGoodNth store.now.shape R o start from) }
    ensures right { (R : List Record) (o : ℕ) (e : Extent) → IsTrue D.meaning R store.now → extent_at (extents_of R o) start ≡ Some e → second ≡ l2_of store.now.shape (extents_of R o) start → to ≤ EXTENTS_OF_L2 → IsOk result }
    ensures within { IfOk result (λ n. (from ≤ n) × (n ≤ to)) }
{
    next_in(store.frame(second), from, to)
}

/// The same by the second level itself, which covers extents of a table from the one with index `start` on.
fn next_by_second<D: Disk>(
    store: &mut Store<D>,
    second: Dba,
    start: u16,
    from: u16,
    to: u16,
) -> Result<u16, StoreFault>
    requires range { from ≤ to }
    requires group { start_of start ≡ start }
    ensures looked { HasLooked D.meaning store.old store.new result }
    ensures says { (R : List Record) (o : ℕ) (e : Extent) → IsTrue D.meaning R store.old → extent_at (extents_of R o) start ≡ Some e → second ≡ l2_of store.old.shape (extents_of R o) start → IfOk result (LacksGoodNth store.old.shape R o start from) }
    ensures sound { (R : List Record) (o : ℕ) (e : Extent) → IsTrue D.meaning R store.old → IsTable R o → extent_at (extents_of R o) start ≡ Some e → second ≡ l2_of store.old.shape (extents_of R o) start → to ≤ EXTENTS_OF_L2 → store.old.fault ≡ None → IfErr result IsSoundFault }
    ensures within { IfOk result (λ n. (from ≤ n) × (n ≤ to)) }
{
    match store.fetch(second) {
        Ok(()) => {}
        Err(fault) => return Err(fault),
    }
    match told_next(store, second, start, from, to) {
        Ok(nth) => Ok(nth),
        Err(_) => Err(store.refuse(second)),
    }
}

/// The first index from one on, and below another, of an extent of a table which may have a block with a kept class from Fs1 to
/// Fs4, by the second level that covers them: the other index where there is none. The first extent that it covers has index
/// `start`.
pub fn next_good<D: Disk>(
    store: &mut Store<D>,
    segment: &Segment,
    shape: &Shape,
    start: u16,
    index: u16,
    to: u16,
) -> Result<u16, StoreFault>
    requires shape { is_shape shape.now ≡ true }
    requires group { start_of start ≡ start }
    requires order { start ≤ index }
    requires range { index ≤ to }
    ensures looked { HasLooked D.meaning store.old store.new result }
    ensures says { (R : List Record) → IsTrue D.meaning R store.old → HasSegment store.old.shape R shape.now segment.now → start < length (extents_of R segment.now.obj) → IfOk result (LacksGood shape.now R segment.now.obj index) }
    ensures sound { (R : List Record) → IsTrue D.meaning R store.old → HasSegment store.old.shape R shape.now segment.now → start < length (extents_of R segment.now.obj) → to ≤ start + EXTENTS_OF_L2 → store.old.fault ≡ None → IfErr result IsSoundFault }
    ensures within { IfOk result (λ n. (index ≤ n) × (n ≤ to)) }
{
    let second = match block_of(store, segment, shape, start, 1) {
        Ok(second) => second,
        Err(fault) => return Err(fault),
    };
    match next_by_second(store, second, start, index - start, to - start) {
        Ok(nth) => Ok(start + nth),
        Err(fault) => Err(fault),
    }
}
