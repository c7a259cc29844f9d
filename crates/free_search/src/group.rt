// The first block of a table that is what is wanted, group by group: the extents that a second level covers are passed over
// where the third level says that no block of theirs has a code that would do.
ghost use Rattle.std.specs.Prelude.{ℕ, ◌≡◌, ◌≤◌, ◌<◌, ◌+◌, ◌*◌, min, true, false, None, Some, List, find, IfOk, IfErr, IsOk};
ghost use Rattle.seg_words.specs.Types.{EXTENTS_OF_L2, MOST_EXTENTS, MOST_PCTFREE, is_shape};
ghost use Rattle.redo_model.specs.Records.{Record};
ghost use Rattle.redo_model.specs.Model.{Extent, IsTable, best_in_l2, data_blocks, extent_at, extents_of, l3_of, under_high};
ghost use Rattle.data_places.specs.Places.{data_count};
ghost use Rattle.store_core.specs.Causes.{HasLooked, IsSoundFault};
ghost use Rattle.store_core.specs.Store.{IsFetched, IsTrue};
ghost use Rattle.free_search.specs.Looks.{HasSegment, Knows, NoneGoodInGroup, NoneInGroup, passes_in, row_sought};
ghost use Rattle.free_search.specs.Walks.{FirstWithin};

use crate::extent::block_of;
use crate::look::{Look, Wanted};
use crate::place::has_code;
use crate::walk::first_in_extents;
use disk_model::Disk;
use seg_base::{Dba, EXTENTS_OF_L2, Shape};
use segment_read::{Segment, WrongPage, best_of_group};
use store_core::{Store, StoreFault};

fn told_group<D: Disk>(store: &Store<D>, third: Dba, group: u16) -> Result<u8, WrongPage>
    requires { IsFetched third store.now }
    ensures says { (R : List Record) (o : ℕ) (e : Extent) → IsTrue D.meaning R store.now → extent_at (extents_of R o) 0 ≡ Some e → third ≡ l3_of store.now.shape (extents_of R o) → IfOk result (λ c. c ≡ best_in_l2 store.now.shape R o (EXTENTS_OF_L2 * group)) }
    ensures right { (R : List Record) (o : ℕ) (e : Extent) → IsTrue D.meaning R store.now → extent_at (extents_of R o) 0 ≡ Some e → third ≡ l3_of store.now.shape (extents_of R o) → group < 3 → IsOk result }
{
    best_of_group(store.frame(third), group)
}

/// The best that a third level says of a group of extents.
fn best_by_third<D: Disk>(store: &mut Store<D>, third: Dba, group: u16) -> Result<u8, StoreFault>
    ensures looked { HasLooked D.meaning store.old store.new result }
    ensures says { (R : List Record) (o : ℕ) (e : Extent) → IsTrue D.meaning R store.old → extent_at (extents_of R o) 0 ≡ Some e → third ≡ l3_of store.old.shape (extents_of R o) → IfOk result (λ c. c ≡ best_in_l2 store.old.shape R o (EXTENTS_OF_L2 * group)) }
    ensures sound { (R : List Record) (o : ℕ) (e : Extent) → IsTrue D.meaning R store.old → IsTable R o → extent_at (extents_of R o) 0 ≡ Some e → third ≡ l3_of store.old.shape (extents_of R o) → group < 3 → store.old.fault ≡ None → IfErr result IsSoundFault }
{
    match store.fetch(third) {
        Ok(()) => {}
        Err(fault) => return Err(fault),
    }
    match told_group(store, third, group) {
        Ok(best) => Ok(best),
        Err(_) => Err(store.refuse(third)),
    }
}

/// The best code from Fs1 on among the data blocks of a group of a table's extents, else 0, by its third level.
fn best_at_group<D: Disk>(
    store: &mut Store<D>,
    segment: &Segment,
    shape: &Shape,
    group: u16,
) -> Result<u8, StoreFault>
    requires { is_shape shape.now ≡ true }
    ensures looked { HasLooked D.meaning store.old store.new result }
    ensures says { (R : List Record) → IsTrue D.meaning R store.old → HasSegment store.old.shape R shape.now segment.now → IfOk result (λ c. c ≡ best_in_l2 shape.now R segment.now.obj (EXTENTS_OF_L2 * group)) }
    ensures sound { (R : List Record) → IsTrue D.meaning R store.old → HasSegment store.old.shape R shape.now segment.now → group < 3 → store.old.fault ≡ None → IfErr result IsSoundFault }
{
    match block_of(store, segment, shape, 0, 2) {
        Ok(third) => best_by_third(store, third, group),
        Err(fault) => Err(fault),
    }
}

/// Whether a group of extents may have a block with a kept class from Fs1 to Fs4, by the third level.
fn group_may_have_good<D: Disk>(
    store: &mut Store<D>,
    look: &Look,
    group: u16,
) -> Result<bool, StoreFault>
    requires shape { is_shape look.now.shape ≡ true }
    requires group { group < 3 }
    requires unspent { store.old.fault ≡ None }
    ensures looked { HasLooked D.meaning store.old store.new result }
    ensures says { (R : List Record) → IsTrue D.meaning R store.old → Knows store.old.shape R look.now → IfOk result (λ y. y ≡ false → NoneGoodInGroup look.now.shape R (row_sought look.now) (EXTENTS_OF_L2 * group)) }
    ensures sound { (R : List Record) → IsTrue D.meaning R store.old → Knows store.old.shape R look.now → IfErr result IsSoundFault }
{
    match best_at_group(store, &look.segment, &look.shape, group) {
        Ok(best) => Ok(has_code(&Wanted::Good, best)),
        Err(fault) => Err(fault),
    }
}

/// Whether a group of extents may have a block that is wanted.
fn group_may_have<D: Disk>(
    store: &mut Store<D>,
    look: &Look,
    wanted: &Wanted,
    group: u16,
) -> Result<bool, StoreFault>
    requires shape { is_shape look.now.shape ≡ true }
    requires group { group < 3 }
    requires unspent { store.old.fault ≡ None }
    ensures looked { HasLooked D.meaning store.old store.new result }
    ensures says { (R : List Record) → IsTrue D.meaning R store.old → Knows store.old.shape R look.now → IfOk result (λ y. y ≡ false → NoneInGroup look.now.shape R (row_sought look.now) wanted.now (EXTENTS_OF_L2 * group)) }
    ensures sound { (R : List Record) → IsTrue D.meaning R store.old → Knows store.old.shape R look.now → IfErr result IsSoundFault }
{
    match wanted {
        Wanted::Usable => Ok(true),
        Wanted::Good => group_may_have_good(store, look, group),
    }
}

/// The index of the first extent of a group.
fn first_index(group: u16) -> u16
    requires { group < 3 }
    ensures { result ≡ EXTENTS_OF_L2 * group }
{
    EXTENTS_OF_L2 as u16 * group
}

/// The index past the last extent of the group that begins at this index, in a table with so many extents.
fn end_index(from: u16, extents: u16) -> u16
    requires { from < MOST_EXTENTS }
    ensures { result ≡ min (from + EXTENTS_OF_L2) extents }
{
    (from + EXTENTS_OF_L2 as u16).min(extents)
}

/// The first one among the blocks of a group of extents, which is passed over where the third level says that it has none.
fn first_in_group<D: Disk>(
    store: &mut Store<D>,
    look: &Look,
    wanted: &Wanted,
    only: Option<u32>,
    group: u16,
) -> Result<Option<Dba>, StoreFault>
    requires shape { is_shape look.now.shape ≡ true }
    requires most { look.now.segment.extents ≤ MOST_EXTENTS }
    requires percent { look.now.segment.pctfree ≤ MOST_PCTFREE }
    requires group { group < 3 }
    requires unspent { store.old.fault ≡ None }
    ensures looked { HasLooked D.meaning store.old store.new result }
    ensures says { (R : List Record) → IsTrue D.meaning R store.old → Knows store.old.shape R look.now → IfOk result (FirstWithin (passes_in look.now.shape R (row_sought look.now) wanted.now only) (data_blocks look.now.shape R look.now.segment.obj) look.now.segment.high (data_count look.now.shape (EXTENTS_OF_L2 * group)) (data_count look.now.shape (EXTENTS_OF_L2 * group + EXTENTS_OF_L2))) }
    ensures sound { (R : List Record) → IsTrue D.meaning R store.old → Knows store.old.shape R look.now → IfErr result IsSoundFault }
{
    let from = first_index(group);
    if from >= look.segment.extents {
        return Ok(None);
    }
    let to = end_index(from, look.segment.extents);
    match group_may_have(store, look, wanted, group) {
        Ok(true) => first_in_extents(store, look, wanted, only, from, to),
        Ok(false) => Ok(None),
        Err(fault) => Err(fault),
    }
}

/// The first one of a table under its high mark, in one extent alone where that is given by its number.
pub fn first_in_table<D: Disk>(
    store: &mut Store<D>,
    look: &Look,
    wanted: &Wanted,
    only: Option<u32>,
) -> Result<Option<Dba>, StoreFault>
    requires shape { is_shape look.now.shape ≡ true }
    requires most { look.now.segment.extents ≤ MOST_EXTENTS }
    requires percent { look.now.segment.pctfree ≤ MOST_PCTFREE }
    requires unspent { store.old.fault ≡ None }
    ensures looked { HasLooked D.meaning store.old store.new result }
    ensures says { (R : List Record) → IsTrue D.meaning R store.old → Knows store.old.shape R look.now → IfOk result (λ r. r ≡ find (passes_in look.now.shape R (row_sought look.now) wanted.now only) (under_high look.now.shape R look.now.segment.obj)) }
    ensures sound { (R : List Record) → IsTrue D.meaning R store.old → Knows store.old.shape R look.now → IfErr result IsSoundFault }
{
    for group in 0..3 {
        match first_in_group(store, look, wanted, only, group) {
            Err(fault) => return Err(fault),
            Ok(Some(dba)) => return Ok(Some(dba)),
            Ok(None) => {}
        }
    }
    Ok(None)
}
