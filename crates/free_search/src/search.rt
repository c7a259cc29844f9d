// The search of a block for a row.
ghost use Rattle.std.specs.Prelude.{◌≡◌, ◌≤◌, true, None, Some, Ok, Err, List, find, IfOk, IfErr};
ghost use Rattle.seg_words.specs.Types.{MOST_EXTENTS, MOST_PCTFREE, Shape as TheShape, is_shape};
ghost use Rattle.redo_model.specs.Records.{Record};
ghost use Rattle.redo_model.specs.Model.{IsTable, under_high};
ghost use Rattle.mark_laws.specs.Movements.{next_mark};
ghost use Rattle.mark_laws.specs.Refusals.{refusal_of};
ghost use Rattle.mark_laws.specs.Searches.{block_or, find_of, first_hinted, is_good, is_usable, mark_or};
ghost use Rattle.store_core.specs.Causes.{HasLooked, IsSoundFault};
ghost use Rattle.store_core.specs.Store.{IsTrue};
ghost use Rattle.free_search.specs.Answers.{IsRefusedBy, IsSoundFind, fault_of, first_of, store_part};
ghost use Rattle.free_search.specs.Looks.{Knows, row_sought, sought};

use crate::FindFault;
use crate::group::first_in_table;
use crate::look::{Look, Row, Wanted, look_at};
use crate::mark::next_of_segment;
use disk_model::Disk;
use mark_laws::Found;
use seg_base::{Dba, MOST_EXTENTS, Obj, Taker};
use std::alloc::Global;
use store_core::{Store, StoreFault};

/// The first good block of the hinted extent.
fn hinted_block<D: Disk>(
    store: &mut Store<D>,
    look: &Look,
    hint: Option<u32>,
) -> Result<Option<Dba>, StoreFault>
    requires shape { is_shape look.now.shape ≡ true }
    requires most { look.now.segment.extents ≤ MOST_EXTENTS }
    requires percent { look.now.segment.pctfree ≤ MOST_PCTFREE }
    requires unspent { store.old.fault ≡ None }
    ensures looked { HasLooked D.meaning store.old store.new result }
    ensures says { (R : List Record) → IsTrue D.meaning R store.old → Knows store.old.shape R look.now → IfOk result (λ r. r ≡ first_hinted look.now.shape R (row_sought look.now) hint) }
    ensures sound { (R : List Record) → IsTrue D.meaning R store.old → Knows store.old.shape R look.now → IfErr result IsSoundFault }
{
    match hint {
        None => Ok(None),
        Some(extent) => first_in_table(store, look, &Wanted::Good, Some(extent)),
    }
}

/// The first good block of the hinted extent, else of the table.
fn good_block<D: Disk>(
    store: &mut Store<D>,
    look: &Look,
    hint: Option<u32>,
) -> Result<Option<Dba>, StoreFault>
    requires shape { is_shape look.now.shape ≡ true }
    requires most { look.now.segment.extents ≤ MOST_EXTENTS }
    requires percent { look.now.segment.pctfree ≤ MOST_PCTFREE }
    requires unspent { store.old.fault ≡ None }
    ensures looked { HasLooked D.meaning store.old store.new result }
    ensures says { (R : List Record) → IsTrue D.meaning R store.old → Knows store.old.shape R look.now → IfOk result (λ r. r ≡ first_of (first_hinted look.now.shape R (row_sought look.now) hint) (find (is_good look.now.shape R (row_sought look.now)) (under_high look.now.shape R look.now.segment.obj))) }
    ensures sound { (R : List Record) → IsTrue D.meaning R store.old → Knows store.old.shape R look.now → IfErr result IsSoundFault }
{
    match hinted_block(store, look, hint) {
        Ok(Some(dba)) => Ok(Some(dba)),
        Ok(None) => first_in_table(store, look, &Wanted::Good, None),
        Err(fault) => Err(fault),
    }
}

/// The first block that takes the row, whatever its kept class.
fn usable_block<D: Disk>(store: &mut Store<D>, look: &Look) -> Result<Option<Found>, StoreFault>
    requires shape { is_shape look.now.shape ≡ true }
    requires most { look.now.segment.extents ≤ MOST_EXTENTS }
    requires percent { look.now.segment.pctfree ≤ MOST_PCTFREE }
    requires unspent { store.old.fault ≡ None }
    ensures looked { HasLooked D.meaning store.old store.new result }
    ensures says { (R : List Record) → IsTrue D.meaning R store.old → Knows store.old.shape R look.now → IfOk result (λ f. f ≡ block_or (find (is_usable look.now.shape R (row_sought look.now)) (under_high look.now.shape R look.now.segment.obj)) None) }
    ensures sound { (R : List Record) → IsTrue D.meaning R store.old → Knows store.old.shape R look.now → IfErr result IsSoundFault }
{
    match first_in_table(store, look, &Wanted::Usable, None) {
        Ok(Some(dba)) => Ok(Some(Found::Block(dba))),
        Ok(None) => Ok(None),
        Err(fault) => Err(fault),
    }
}

/// What is found where no block is good: the next movement of the marks, else a block whatever its kept class.
fn last_resort<D: Disk>(store: &mut Store<D>, look: &Look) -> Result<Option<Found>, StoreFault>
    requires shape { is_shape look.now.shape ≡ true }
    requires most { look.now.segment.extents ≤ MOST_EXTENTS }
    requires percent { look.now.segment.pctfree ≤ MOST_PCTFREE }
    requires unspent { store.old.fault ≡ None }
    ensures looked { HasLooked D.meaning store.old store.new result }
    ensures says { (R : List Record) → IsTrue D.meaning R store.old → Knows store.old.shape R look.now → IfOk result (λ f. f ≡ mark_or (next_mark look.now.shape R look.now.segment.obj) (block_or (find (is_usable look.now.shape R (row_sought look.now)) (under_high look.now.shape R look.now.segment.obj)) None)) }
    ensures sound { (R : List Record) → IsTrue D.meaning R store.old → Knows store.old.shape R look.now → IfErr result IsSoundFault }
{
    match next_of_segment(store, &look.segment, &look.shape) {
        Ok(Some(step)) => Ok(Some(Found::Mark(step))),
        Ok(None) => usable_block(store, look),
        Err(fault) => Err(fault),
    }
}

/// What a search finds. None is a refusal.
fn search<D: Disk>(
    store: &mut Store<D>,
    look: &Look,
    hint: Option<u32>,
) -> Result<Option<Found>, StoreFault>
    requires shape { is_shape look.now.shape ≡ true }
    requires most { look.now.segment.extents ≤ MOST_EXTENTS }
    requires percent { look.now.segment.pctfree ≤ MOST_PCTFREE }
    requires unspent { store.old.fault ≡ None }
    ensures looked { HasLooked D.meaning store.old store.new result }
    ensures says { (R : List Record) → IsTrue D.meaning R store.old → Knows store.old.shape R look.now → IfOk result (λ f. f ≡ find_of look.now.shape R (row_sought look.now) hint) }
    ensures sound { (R : List Record) → IsTrue D.meaning R store.old → Knows store.old.shape R look.now → IfErr result IsSoundFault }
{
    match good_block(store, look, hint) {
        Ok(Some(dba)) => Ok(Some(Found::Block(dba))),
        Ok(None) => last_resort(store, look),
        Err(fault) => Err(fault),
    }
}

/// Why nothing is found.
fn refusal(look: &Look) -> FindFault
    ensures why { (sh : TheShape) (R : List Record) → Knows sh R look.now → result ≡ fault_of (refusal_of R (row_sought look.now)) }
    ensures own { store_part (Err result) ≡ Ok tt }
    ensures sound { IsSoundFind result }
{
    if look.segment.extents < MOST_EXTENTS {
        FindFault::NoSpace { need: look.row.len }
    } else {
        FindFault::MaxExtents {
            count: MOST_EXTENTS,
        }
    }
}

/// A block of a table that takes a row of this length by this taker, but for the blocks in `but`; or the movement of the table's
/// marks that comes first. Under a hint, the number of an extent, its blocks come first. The table is there. `NoSpace` and
/// `MaxExtents` come exactly where no block takes the row and the marks can't move, the second where the table has 900 extents.
/// Nothing is changed.
pub fn find<D: Disk>(
    alloc: Global,
    store: &mut Store<D>,
    obj: Obj,
    len: u16,
    taker: Taker,
    hint: Option<u32>,
    but: [Option<Dba>; 2],
) -> Result<Found, FindFault>
    ensures looked { HasLooked D.meaning store.old store.new (store_part result) }
    ensures found { (R : List Record) → IsTrue D.meaning R store.old → IsTable R obj → IfOk result (λ f. find_of store.old.shape R (sought obj len taker but) hint ≡ Some f) }
    ensures refused { (R : List Record) → IsTrue D.meaning R store.old → IsTable R obj → IfErr result (IsRefusedBy store.old.shape R (sought obj len taker but)) }
    ensures sound { (R : List Record) → IsTrue D.meaning R store.old → IsTable R obj → store.old.fault ≡ None → IfErr result IsSoundFind }
{
    let look = match look_at(alloc, store, obj, Row { len, taker, but }) {
        Ok(look) => look,
        Err(fault) => return Err(FindFault::Store(fault)),
    };
    match search(store, &look, hint) {
        Ok(Some(found)) => Ok(found),
        Ok(None) => Err(refusal(&look)),
        Err(fault) => Err(FindFault::Store(fault)),
    }
}
