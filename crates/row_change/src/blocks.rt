// Where a row stands now.
ghost use Rattle.std.specs.Prelude.{◌≡◌, ℕ, ◌<◌, ◌+◌, true, None, List, length, Some, IfOk, IfErr, IsOk};
ghost use Rattle.seg_words.specs.Types.{first_block, is_shape};
ghost use Rattle.redo_model.specs.Records.{Record};
ghost use Rattle.redo_model.specs.Model.{Extent, IsTable, extent_at, extents_of};
ghost use Rattle.change_laws.specs.Types.{IsOwn};
ghost use Rattle.data_places.specs.Places.{IsPlace};
ghost use Rattle.store_core.specs.Store.{IsFetched, IsTrue};
ghost use Rattle.store_core.specs.Causes.{HasLooked, IsSoundFault};
ghost use Rattle.row_change.specs.Locating.{IsSearch, IsSearchFor, IsBlockAt, IsSeenIn, FindsIn, FindsAt, IsPlaceOf, Locates};

use crate::Place;
use crate::sight::{Search, Sight};
use crate::slots::look_in_block;
use data_places::{Place as DataPlace, block_in, place_at};
use disk_model::Disk;
use seg_base::{Dba, Lsn, Obj, RowNo, SPACE_BLOCK, TxnId};
use segment_read::{WrongPage, extent_in, incarnation_in};
use std::alloc::Global;
use store_core::{Store, StoreFault};
use store_read::read_segment;

fn told_block<D: Disk>(
    store: &Store<D>,
    search: &Search,
    place: &DataPlace,
) -> Result<Dba, WrongPage>
    requires { IsFetched search.now.segment.header store.now }
    ensures says { (R : List Record) (o : ℕ) (e : Extent) → IsTrue D.meaning R store.now → IsSearch store.now.shape R o search.now → extent_at (extents_of R o) place.now.index ≡ Some e → IfOk result (λ d. d ≡ first_block search.now.shape e.number + place.now.nth) }
    ensures right { (R : List Record) (o : ℕ) (e : Extent) → IsTrue D.meaning R store.now → IsSearch store.now.shape R o search.now → extent_at (extents_of R o) place.now.index ≡ Some e → place.now.nth < search.now.shape.extent → IsOk result }
{
    match extent_in(store.frame(search.segment.header), place.index) {
        Err(wrong) => Err(wrong),
        Ok(extent) => match block_in(&search.shape, extent, place.nth) {
            None => Err(WrongPage),
            Some(dba) => Ok(dba),
        },
    }
}

/// A block of one of the table's extents.
fn block_at<D: Disk>(
    store: &mut Store<D>,
    search: &Search,
    place: &DataPlace,
) -> Result<Dba, StoreFault>
    ensures looked { HasLooked D.meaning store.old store.new result }
    ensures says { (R : List Record) (o : ℕ) (e : Extent) → IsTrue D.meaning R store.old → IsSearch store.old.shape R o search.now → extent_at (extents_of R o) place.now.index ≡ Some e → IfOk result (λ d. d ≡ first_block search.now.shape e.number + place.now.nth) }
    ensures sound { (R : List Record) (o : ℕ) (e : Extent) → IsTrue D.meaning R store.old → IsSearch store.old.shape R o search.now → extent_at (extents_of R o) place.now.index ≡ Some e → place.now.nth < search.now.shape.extent → store.old.fault ≡ None → IfErr result IsSoundFault }
{
    let header = search.segment.header;
    match store.fetch(header) {
        Ok(()) => {}
        Err(fault) => return Err(fault),
    }
    match told_block(&*store, search, place) {
        Ok(dba) => Ok(dba),
        Err(_) => Err(store.refuse(header)),
    }
}

fn told_incarnation<D: Disk>(store: &Store<D>, first: Dba) -> Result<Lsn, WrongPage>
    requires { IsFetched first store.now }
    ensures says { (R : List Record) (o index : ℕ) (e : Extent) → IsTrue D.meaning R store.now → extent_at (extents_of R o) index ≡ Some e → first ≡ first_block store.now.shape e.number → IfOk result (λ l. l ≡ e.incarnation) }
    ensures right { (R : List Record) (o index : ℕ) (e : Extent) → IsTrue D.meaning R store.now → extent_at (extents_of R o) index ≡ Some e → first ≡ first_block store.now.shape e.number → IsOk result }
{
    incarnation_in(store.frame(first))
}

/// The incarnation of the extent whose first block this is.
fn born_in<D: Disk>(store: &mut Store<D>, first: Dba) -> Result<Lsn, StoreFault>
    ensures looked { HasLooked D.meaning store.old store.new result }
    ensures says { (R : List Record) (o index : ℕ) (e : Extent) → IsTrue D.meaning R store.old → extent_at (extents_of R o) index ≡ Some e → first ≡ first_block store.old.shape e.number → IfOk result (λ l. l ≡ e.incarnation) }
    ensures sound { (R : List Record) (o index : ℕ) (e : Extent) → IsTrue D.meaning R store.old → IsTable R o → extent_at (extents_of R o) index ≡ Some e → first ≡ first_block store.old.shape e.number → store.old.fault ≡ None → IfErr result IsSoundFault }
{
    match store.fetch(first) {
        Ok(()) => {}
        Err(fault) => return Err(fault),
    }
    match told_incarnation(&*store, first) {
        Ok(born) => Ok(born),
        Err(_) => Err(store.refuse(first)),
    }
}

/// The incarnation of the table's extent at an index.
pub fn born_at<D: Disk>(
    store: &mut Store<D>,
    search: &Search,
    index: u16,
) -> Result<Lsn, StoreFault>
    ensures looked { HasLooked D.meaning store.old store.new result }
    ensures says { (R : List Record) (o : ℕ) (e : Extent) → IsTrue D.meaning R store.old → IsSearch store.old.shape R o search.now → extent_at (extents_of R o) index ≡ Some e → IfOk result (λ l. l ≡ e.incarnation) }
    ensures sound { (R : List Record) (o : ℕ) (e : Extent) → IsTrue D.meaning R store.old → IsSearch store.old.shape R o search.now → extent_at (extents_of R o) index ≡ Some e → store.old.fault ≡ None → IfErr result IsSoundFault }
{
    match block_at(store, search, &DataPlace { index, nth: 0 }) {
        Ok(first) => born_in(store, first),
        Err(fault) => Err(fault),
    }
}

/// The place of a row that is seen in the data block at a place.
fn place_of<D: Disk>(
    store: &mut Store<D>,
    search: &Search,
    here: &DataPlace,
    sight: Sight,
) -> Result<Place, StoreFault>
    ensures looked { HasLooked D.meaning store.old store.new result }
    ensures says { (R : List Record) (o n position b : ℕ) → IsTrue D.meaning R store.old → IsSearch store.old.shape R o search.now → IsBlockAt search.now.shape R o here.now position b → IsSeenIn R search.now.own n b sight → IfOk result (IsPlaceOf search.now.shape R search.now.own o n) }
    ensures sound { (R : List Record) (o position b : ℕ) → IsTrue D.meaning R store.old → IsSearch store.old.shape R o search.now → IsBlockAt search.now.shape R o here.now position b → store.old.fault ≡ None → IfErr result IsSoundFault }
{
    match born_at(store, search, here.index) {
        Ok(born) => Ok(Place {
            at: sight.at,
            born,
            undo: sight.undo,
            start: search.start,
            head: sight.head,
        }),
        Err(fault) => Err(fault),
    }
}

/// The row's place in the data block at a place. None where the block doesn't give the row.
fn find_in<D: Disk>(
    store: &mut Store<D>,
    search: &Search,
    here: &DataPlace,
    dba: Dba,
    row: RowNo,
) -> Result<Option<Place>, StoreFault>
    ensures looked { HasLooked D.meaning store.old store.new result }
    ensures says { (R : List Record) (o position : ℕ) → IsTrue D.meaning R store.old → IsSearch store.old.shape R o search.now → IsBlockAt search.now.shape R o here.now position dba → IfOk result (FindsIn R search.now o row dba) }
    ensures sound { (R : List Record) (o position : ℕ) → IsTrue D.meaning R store.old → IsSearch store.old.shape R o search.now → IsBlockAt search.now.shape R o here.now position dba → store.old.fault ≡ None → IfErr result IsSoundFault }
{
    match look_in_block(store, dba, search, row) {
        Err(fault) => Err(fault),
        Ok(None) => Ok(None),
        Ok(Some(sight)) => match place_of(store, search, here, sight) {
            Ok(place) => Ok(Some(place)),
            Err(fault) => Err(fault),
        },
    }
}

/// The same of the block that stands there.
fn find_at<D: Disk>(
    store: &mut Store<D>,
    search: &Search,
    here: &DataPlace,
    row: RowNo,
) -> Result<Option<Place>, StoreFault>
    ensures looked { HasLooked D.meaning store.old store.new result }
    ensures says { (R : List Record) (o position : ℕ) → IsTrue D.meaning R store.old → IsSearch store.old.shape R o search.now → IsPlace search.now.shape (length (extents_of R o)) here.now position → IfOk result (FindsAt R search.now o row position) }
    ensures sound { (R : List Record) (o position : ℕ) → IsTrue D.meaning R store.old → IsSearch store.old.shape R o search.now → IsPlace search.now.shape (length (extents_of R o)) here.now position → store.old.fault ≡ None → IfErr result IsSoundFault }
{
    match block_at(store, search, here) {
        Ok(dba) => find_in(store, search, here, dba, row),
        Err(fault) => Err(fault),
    }
}

/// The row's place in the first data block under the high mark that gives it, in order of position: no other does.
fn find<D: Disk>(
    store: &mut Store<D>,
    search: &Search,
    row: RowNo,
) -> Result<Option<Place>, StoreFault>
    requires unspent { store.old.fault ≡ None }
    requires shape { is_shape search.now.shape ≡ true }
    ensures looked { HasLooked D.meaning store.old store.new result }
    ensures says { (R : List Record) (o : ℕ) → IsTrue D.meaning R store.old → IsSearch store.old.shape R o search.now → IfOk result (Locates search.now.shape R search.now.own o row) }
    ensures sound { (R : List Record) (o : ℕ) → IsTrue D.meaning R store.old → IsSearch store.old.shape R o search.now → IfErr result IsSoundFault }
{
    let extents = search.segment.extents;
    let mut next = place_at(&search.shape, extents, 0);
    for position in 0..search.segment.high {
        let _ = position;
        match next {
            None => return Ok(None),
            Some(here) => match find_at(store, search, &here, row) {
                Err(fault) => return Err(fault),
                Ok(Some(place)) => return Ok(Some(place)),
                Ok(None) => next = here.next(&search.shape, extents),
            },
        }
    }
    Ok(None)
}

/// How the slots of a table are looked at, for an active transaction or none.
pub fn search_for<D: Disk>(
    alloc: Global,
    store: &mut Store<D>,
    obj: Obj,
    own: Option<TxnId>,
) -> Result<Search, StoreFault>
    ensures looked { HasLooked D.meaning store.old store.new result }
    ensures says { (R : List Record) → IsTrue D.meaning R store.old → IsTable R obj → IsOwn R own → IfOk result (IsSearchFor store.old.shape R obj own) }
    ensures sound { (R : List Record) → IsTrue D.meaning R store.old → IsTable R obj → store.old.fault ≡ None → IfErr result IsSoundFault }
    ensures shape { IfOk result (λ q. is_shape q.shape ≡ true) }
{
    let shape = store.shape();
    if !shape.is_within_limits() {
        return Err(store.refuse(Dba(SPACE_BLOCK)));
    }
    let start = store.commits();
    let table = match store.copy_table(alloc) {
        Ok(table) => table,
        Err(fault) => return Err(fault),
    };
    match read_segment(store, obj) {
        Ok(segment) => Ok(Search {
            shape,
            segment,
            table,
            own,
            start,
        }),
        Err(fault) => Err(fault),
    }
}

/// Where a row of a table stands now, as an active transaction or none sees it: the slot whose version at all commits has the
/// row's number, the incarnation of the extent that its block is in, the undo address of that version, the number of commits,
/// and the slot of the row's head, none exactly where the version is a whole row. None exactly where the table doesn't have the
/// row. The table is there.
///
/// The data blocks under the high mark are read in order of position, up to the one that gives the row.
pub fn locate<D: Disk>(
    alloc: Global,
    store: &mut Store<D>,
    obj: Obj,
    row: RowNo,
    own: Option<TxnId>,
) -> Result<Option<Place>, StoreFault>
    ensures looked { HasLooked D.meaning store.old store.new result }
    ensures says { (R : List Record) → IsTrue D.meaning R store.old → IsTable R obj → IsOwn R own → IfOk result (Locates store.old.shape R own obj row) }
    ensures sound { (R : List Record) → IsTrue D.meaning R store.old → IsTable R obj → IsOwn R own → store.old.fault ≡ None → IfErr result IsSoundFault }
{
    match search_for(alloc, store, obj, own) {
        Ok(search) => find(store, &search, row),
        Err(fault) => Err(fault),
    }
}
