// Where the levels of the bitmaps stand that cover a block.
ghost use Rattle.std.specs.Prelude.{ℕ, ◌≡◌, ◌≤◌, ◌<◌, ◌-◌, min, true, None, List, length, IfOk, IfErr, IsOk};
ghost use Rattle.seg_words.specs.Types.{MOST_EXTENT_BLOCKS, is_shape};
ghost use Rattle.redo_model.specs.Records.{Record};
ghost use Rattle.redo_model.specs.Model.{IsTable, block_in as nth_block, extent_at, extents_of, group_start as start_of, index_of};
ghost use Rattle.page_fit.specs.Headers.{SaysHeader};
ghost use Rattle.mark_laws.specs.There.{HasExtents};
ghost use Rattle.store_core.specs.Causes.{HasLooked, IsSoundFault};
ghost use Rattle.store_core.specs.Store.{IsFetched, IsTrue};
ghost use Rattle.segment_read.specs.Segments.{IsSegment};
ghost use Rattle.space_usage.specs.Keeping.{levels_of};
ghost use Rattle.space_usage.specs.Settles.{HasBlock};

use data_places::block_in;
use disk_model::Disk;
use page_set::Page;
use seg_base::{Dba, EXTENTS_OF_L2, MOST_EXTENT_BLOCKS, Shape};
use segment_read::{Segment, WrongPage, extent_in, index_in};
use store_core::{Store, StoreFault};

/// The index of a block's extent among those of its table, and the blocks of the three levels that cover the block: the first
/// level is its extent's first block.
#[derive(Clone, Copy, Debug, Drop)]
pub struct Levels {
    pub index: u16,
    pub l1: Dba,
    pub l2: Dba,
    pub l3: Dba,
}

/// The index of the first extent of those that the second level covers which covers the extent at this index.
fn group_start(index: u16) -> u16
    ensures value { result ≡ start_of index }
    ensures most { result ≤ index }
{
    if usize::from(index) < EXTENTS_OF_L2 {
        return 0;
    }
    if usize::from(index) < 2 * EXTENTS_OF_L2 {
        return EXTENTS_OF_L2 as u16;
    }
    (2 * EXTENTS_OF_L2) as u16
}

/// The nth block of the extent at an index, by the page of the header.
fn block_at(page: &Page, shape: &Shape, index: u16, nth: u16) -> Result<Dba, WrongPage>
    ensures says { (R : List Record) (o : ℕ) → SaysHeader R o page.now → IfOk result (λ d. d ≡ nth_block shape.now (extent_at (extents_of R o) index) nth) }
    ensures right { (R : List Record) (o : ℕ) → SaysHeader R o page.now → HasExtents shape.now R o → index < length (extents_of R o) → nth < shape.now.extent → IsOk result }
{
    let extent = extent_in(page, index)?;
    match block_in(shape, extent, nth) {
        Some(dba) => Ok(dba),
        None => Err(WrongPage),
    }
}

/// By the page of the header.
fn levels_in(page: &Page, shape: &Shape, dba: Dba) -> Result<Levels, WrongPage>
    requires { is_shape shape.now ≡ true }
    ensures says { (R : List Record) (o : ℕ) → SaysHeader R o page.now → IfOk result (λ l. l ≡ levels_of shape.now R o dba) }
    ensures right { (R : List Record) (o : ℕ) → SaysHeader R o page.now → HasExtents shape.now R o → index_of shape.now (extents_of R o) dba < length (extents_of R o) → IsOk result }
{
    let index = index_in(page, shape, dba)?;
    let l1 = block_at(page, shape, index, 0)?;
    let l2 = block_at(page, shape, group_start(index), 1)?;
    let l3 = block_at(page, shape, 0, 2)?;
    Ok(Levels { index, l1, l2, l3 })
}

fn told_levels<D: Disk>(
    store: &Store<D>,
    segment: &Segment,
    shape: &Shape,
    dba: Dba,
) -> Result<Levels, WrongPage>
    requires shape { is_shape shape.now ≡ true }
    requires fetched { IsFetched segment.now.header store.now }
    ensures says { (R : List Record) (o : ℕ) → HasBlock D.meaning R o dba store.now → shape.now ≡ store.now.shape → IsSegment store.now.shape R o segment.now → IfOk result (λ l. l ≡ levels_of store.now.shape R o dba) }
    ensures right { (R : List Record) (o : ℕ) → HasBlock D.meaning R o dba store.now → shape.now ≡ store.now.shape → IsSegment store.now.shape R o segment.now → IsOk result }
{
    levels_in(store.frame(segment.header), shape, dba)
}

/// The levels that cover a formatted block of the segment's table.
pub fn find_levels<D: Disk>(
    store: &mut Store<D>,
    segment: &Segment,
    dba: Dba,
) -> Result<Levels, StoreFault>
    ensures looked { HasLooked D.meaning store.old store.new result }
    ensures says { (R : List Record) (o : ℕ) → HasBlock D.meaning R o dba store.old → IsSegment store.old.shape R o segment.now → IfOk result (λ l. l ≡ levels_of store.old.shape R o dba) }
    ensures sound { (R : List Record) (o : ℕ) → HasBlock D.meaning R o dba store.old → IsSegment store.old.shape R o segment.now → store.old.fault ≡ None → IfErr result IsSoundFault }
{
    let shape = store.shape();
    if !shape.is_within_limits() {
        return Err(store.refuse(segment.header));
    }
    match store.fetch(segment.header) {
        Ok(()) => {}
        Err(fault) => return Err(fault),
    }
    match told_levels(store, segment, &shape, dba) {
        Ok(levels) => Ok(levels),
        Err(_) => Err(store.refuse(segment.header)),
    }
}

/// Which block of its extent it is, from 0, or 64 for one past the longest extent.
pub fn nth_in(first: Dba, dba: Dba) -> u16
    ensures { result ≡ min (dba - first) MOST_EXTENT_BLOCKS }
{
    dba.0.saturating_sub(first.0).min(MOST_EXTENT_BLOCKS as u32) as u16
}
