// The first block that is what is wanted among those of some extents of a table, in order of position: extent by extent, by the
// codes of their bitmaps.
ghost use Rattle.std.specs.Prelude.{ℕ, ◌≡◌, ◌≤◌, ◌<◌, ◌+◌, ◌-◌, min, true, None, List, length, IfOk, IfErr};
ghost use Rattle.seg_words.specs.Types.{EXTENTS_OF_L2, MOST_BLOCKS, MOST_EXTENTS, MOST_EXTENT_BLOCKS, MOST_PCTFREE, head_blocks as heads_of, is_shape};
ghost use Rattle.redo_model.specs.Records.{Record};
ghost use Rattle.redo_model.specs.Model.{Extent, data_blocks, extents_of, group_start};
ghost use Rattle.data_places.specs.Places.{data_count};
ghost use Rattle.store_core.specs.Causes.{HasLooked, IsSoundFault};
ghost use Rattle.store_core.specs.Store.{IsTrue};
ghost use Rattle.free_search.specs.Looks.{IsFirstBlock, Knows, NoneInRun, is_elsewhere, passes, passes_in, row_sought};
ghost use Rattle.free_search.specs.Walks.{FirstOf, FirstWithin};

use crate::extent::next_good;
use crate::look::{Look, Wanted};
use crate::place::block_at;
use data_places::{block_in, data_count, head_blocks};
use disk_model::Disk;
use seg_base::{Dba, Shape};
use store_core::{Store, StoreFault};
use store_read::extent_number;

/// The first one from one number on and below another, of an extent that begins at this block. They are data blocks.
fn first_in_blocks<D: Disk>(
    store: &mut Store<D>,
    look: &Look,
    wanted: &Wanted,
    first: Dba,
    from: u16,
    to: u16,
) -> Result<Option<Dba>, StoreFault>
    requires percent { look.now.segment.pctfree ≤ MOST_PCTFREE }
    requires first { first ≤ MOST_BLOCKS }
    requires few { to ≤ MOST_EXTENT_BLOCKS }
    requires unspent { store.old.fault ≡ None }
    ensures looked { HasLooked D.meaning store.old store.new result }
    ensures says { (R : List Record) (index : ℕ) (e : Extent) → IsTrue D.meaning R store.old → Knows store.old.shape R look.now → IsFirstBlock look.now.shape R look.now.segment.obj index e first → heads_of index ≤ from → to ≤ look.now.shape.extent → IfOk result (FirstOf (passes look.now.shape R (row_sought look.now) wanted.now) first from to) }
    ensures sound { (R : List Record) (index : ℕ) (e : Extent) → IsTrue D.meaning R store.old → Knows store.old.shape R look.now → IsFirstBlock look.now.shape R look.now.segment.obj index e first → heads_of index ≤ from → to ≤ look.now.shape.extent → IfErr result IsSoundFault }
{
    for nth in from..to {
        match block_at(store, look, wanted, first, nth) {
            Err(fault) => return Err(fault),
            Ok(Some(dba)) => return Ok(Some(dba)),
            Ok(None) => {}
        }
    }
    Ok(None)
}

/// Whether blocks of another extent alone are wanted.
fn is_elsewhere(only: Option<u32>, extent: u32) -> bool
    ensures { result ≡ is_elsewhere only extent }
{
    match only {
        None => false,
        Some(other) => other != extent,
    }
}

/// How many data blocks the extent at an index has.
fn data_room(shape: &Shape, index: u16) -> u32
    requires { is_shape shape.now ≡ true }
    ensures value { result ≡ shape.now.extent - heads_of index }
    ensures most { result ≤ MOST_EXTENT_BLOCKS }
{
    shape.extent - u32::from(head_blocks(index))
}

/// How many of them stand under the high mark, where the table has so many data blocks before them.
fn room_under(look: &Look, index: u16, passed: u32) -> u16
    requires shape { is_shape look.now.shape ≡ true }
    requires under { passed ≤ look.now.segment.high }
    ensures value { result ≡ min (look.now.shape.extent - heads_of index) (look.now.segment.high - passed) }
    ensures most { result ≤ look.now.shape.extent - heads_of index }
{
    let room = data_room(&look.shape, index);
    room.min(look.segment.high - passed) as u16
}

/// The first one of the extent at an index, before which the table has so many data blocks, under the high mark.
fn first_in_extent<D: Disk>(
    store: &mut Store<D>,
    look: &Look,
    wanted: &Wanted,
    only: Option<u32>,
    index: u16,
    passed: u32,
) -> Result<Option<Dba>, StoreFault>
    requires shape { is_shape look.now.shape ≡ true }
    requires percent { look.now.segment.pctfree ≤ MOST_PCTFREE }
    requires under { passed ≤ look.now.segment.high }
    ensures looked { HasLooked D.meaning store.old store.new result }
    ensures says { (R : List Record) → IsTrue D.meaning R store.old → Knows store.old.shape R look.now → index < length (extents_of R look.now.segment.obj) → passed ≡ data_count look.now.shape index → IfOk result (FirstWithin (passes_in look.now.shape R (row_sought look.now) wanted.now only) (data_blocks look.now.shape R look.now.segment.obj) look.now.segment.high passed (passed + (look.now.shape.extent - heads_of index))) }
    ensures sound { (R : List Record) → IsTrue D.meaning R store.old → Knows store.old.shape R look.now → index < length (extents_of R look.now.segment.obj) → store.old.fault ≡ None → IfErr result IsSoundFault }
{
    let extent = match extent_number(store, &look.segment, index) {
        Ok(extent) => extent,
        Err(fault) => return Err(fault),
    };
    if is_elsewhere(only, extent) {
        return Ok(None);
    }
    let first = match block_in(&look.shape, extent, 0) {
        Some(first) => first,
        None => return Err(store.refuse(look.segment.header)),
    };
    let head = head_blocks(index);
    let count = room_under(look, index, passed);
    first_in_blocks(store, look, wanted, first, head, head + count)
}

/// The first index from one on, and below another, of an extent that may have a block that is wanted: the other where there is
/// none. Of a good block the second level says so; the first extent that it covers has index `start`.
fn next_index<D: Disk>(
    store: &mut Store<D>,
    look: &Look,
    wanted: &Wanted,
    start: u16,
    index: u16,
    to: u16,
) -> Result<u16, StoreFault>
    requires shape { is_shape look.now.shape ≡ true }
    requires group { group_start start ≡ start }
    requires order { start ≤ index }
    requires range { index < to }
    requires few { to ≤ look.now.segment.extents }
    requires unspent { store.old.fault ≡ None }
    ensures looked { HasLooked D.meaning store.old store.new result }
    ensures says { (R : List Record) → IsTrue D.meaning R store.old → Knows store.old.shape R look.now → IfOk result (NoneInRun look.now.shape R (row_sought look.now) wanted.now index) }
    ensures sound { (R : List Record) → IsTrue D.meaning R store.old → Knows store.old.shape R look.now → to ≤ start + EXTENTS_OF_L2 → IfErr result IsSoundFault }
    ensures within { IfOk result (λ n. (index ≤ n) × (n ≤ to)) }
{
    match wanted {
        Wanted::Usable => Ok(index),
        Wanted::Good => next_good(store, &look.segment, &look.shape, start, index, to),
    }
}

/// The first one under the high mark among those of the extents from one index on and below another, which one second level
/// covers, the first of them first.
pub fn first_in_extents<D: Disk>(
    store: &mut Store<D>,
    look: &Look,
    wanted: &Wanted,
    only: Option<u32>,
    from: u16,
    to: u16,
) -> Result<Option<Dba>, StoreFault>
    requires shape { is_shape look.now.shape ≡ true }
    requires most { look.now.segment.extents ≤ MOST_EXTENTS }
    requires percent { look.now.segment.pctfree ≤ MOST_PCTFREE }
    requires group { group_start from ≡ from }
    requires covered { to ≤ from + EXTENTS_OF_L2 }
    requires few { to ≤ look.now.segment.extents }
    requires unspent { store.old.fault ≡ None }
    ensures looked { HasLooked D.meaning store.old store.new result }
    ensures says { (R : List Record) → IsTrue D.meaning R store.old → Knows store.old.shape R look.now → IfOk result (FirstWithin (passes_in look.now.shape R (row_sought look.now) wanted.now only) (data_blocks look.now.shape R look.now.segment.obj) look.now.segment.high (data_count look.now.shape from) (data_count look.now.shape to)) }
    ensures sound { (R : List Record) → IsTrue D.meaning R store.old → Knows store.old.shape R look.now → IfErr result IsSoundFault }
{
    let mut index = from;
    'extents: while index < to {
        let next = match next_index(store, look, wanted, from, index, to) {
            Ok(next) => next,
            Err(fault) => return Err(fault),
        };
        if next >= to {
            return Ok(None);
        }
        let passed = data_count(&look.shape, next);
        if passed >= look.segment.high {
            return Ok(None);
        }
        match first_in_extent(store, look, wanted, only, next, passed) {
            Err(fault) => return Err(fault),
            Ok(Some(dba)) => return Ok(Some(dba)),
            Ok(None) => {}
        }
        index = next + 1;
    }
    Ok(None)
}
