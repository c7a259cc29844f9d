// What pages say of a Lower: the number of the next lowering, the extents that are released, and the best of the kept extents of
// a group.
ghost use Rattle.std.specs.Prelude.{◌≡◌, ◌≤◌, ◌<◌, ◌+◌, ◌++◌, drop, length, IfOk, OnOk};
ghost use Rattle.lowering.specs.Asked.{best_below, best_in, lowering_in, next_lowering, released_in};

use bitmap_block::L2;
use page_set::Page;
use redo_record::Extents;
use seg_base::{EXTENTS_OF_L2, NoMemory};
use segment_blocks::SegmentHeader;
use std::alloc::Global;
use store_core::Question;

fn next_lowering(lowerings: u64) -> Option<u64>
    ensures { result ≡ next_lowering lowerings }
{
    if lowerings == u64::MAX {
        return None;
    }
    Some(lowerings + 1)
}

fn lowering_in(page: &Page) -> Option<u64>
    ensures { result ≡ lowering_in page.now }
{
    let Page::Space(space) = page else {
        return None;
    };
    next_lowering(space.lowerings())
}

/// Asks the space bitmap for the number of the next lowering.
#[derive(Clone, Copy, Debug, Drop)]
pub struct NextLowering;

impl Question for NextLowering {
    ghost use Rattle.lowering.specs.Asked.{lowering_in};

    type Answer = u64;

    ghost reads = { λ q page. lowering_in page };

    fn read(&self, alloc: Global, page: &Page) -> Result<Option<u64>, NoMemory> {
        let _ = alloc;
        Ok(lowering_in(page))
    }
}

/// Adds the extent at an index, where there is one.
fn add_extent(found: &mut Extents, header: &SegmentHeader, index: u16) -> Result<(), NoMemory>
    requires { length found.old < 65535 }
    ensures extents { OnOk result (found.new ++ drop (index + 1) header.now.extents ≡ found.old ++ drop index header.now.extents) }
    ensures few { OnOk result (length found.new ≤ length found.old + 1) }
{
    match header.extent_at(index) {
        Some(extent) => found.push(extent),
        None => Ok(()),
    }
}

/// The extents of a table from this index on.
fn extents_from(alloc: Global, header: &SegmentHeader, kept: u16) -> Result<Extents, NoMemory>
    ensures { IfOk result (λ x. x ≡ drop kept header.now.extents) }
{
    let mut found = Extents::new(alloc);
    for index in kept..header.extents() {
        add_extent(&mut found, header, index)?;
    }
    Ok(found)
}

fn released_in(alloc: Global, page: &Page, kept: u16) -> Result<Option<Extents>, NoMemory>
    ensures { IfOk result (λ x. x ≡ released_in kept page.now) }
{
    let Page::Header(header) = page else {
        return Ok(None);
    };
    match extents_from(alloc, header, kept) {
        Ok(released) => Ok(Some(released)),
        Err(fault) => Err(fault),
    }
}

/// Asks the header of a table for its extents from this index on.
#[derive(Clone, Copy, Debug, Drop)]
pub struct ReleasedFrom {
    pub kept: u16,
}

impl Question for ReleasedFrom {
    ghost use Rattle.lowering.specs.Asked.{released_in};

    type Answer = Extents;

    ghost reads = { λ q page. released_in q.kept page };

    fn read(&self, alloc: Global, page: &Page) -> Result<Option<Extents>, NoMemory> {
        released_in(alloc, page, self.kept)
    }
}

fn best_below(map: &L2, count: u16) -> Option<u8>
    ensures { result ≡ best_below count map.now.codes }
{
    if usize::from(count) > EXTENTS_OF_L2 {
        return None;
    }
    let mut left = map.duplicate();
    left.clear_from(count);
    Some(left.best())
}

fn best_in(page: &Page, count: u16) -> Option<u8>
    ensures { result ≡ best_in count page.now }
{
    let Page::Second(map) = page else {
        return None;
    };
    best_below(map, count)
}

/// Asks a second level for the best of the first extents that it covers.
#[derive(Clone, Copy, Debug, Drop)]
pub struct BestBelow {
    pub count: u16,
}

impl Question for BestBelow {
    ghost use Rattle.lowering.specs.Asked.{best_in};

    type Answer = u8;

    ghost reads = { λ q page. best_in q.count page };

    fn read(&self, alloc: Global, page: &Page) -> Result<Option<u8>, NoMemory> {
        let _ = alloc;
        Ok(best_in(page, self.count))
    }
}
