// Whether a block stands in the extent in which it was found.
ghost use Rattle.std.specs.Prelude.{◌≡◌, ℕ, ◌<◌, ◌≤◌, true, false, None, List, IfOk, IfErr, IfSome, IfNone};
ghost use Rattle.seg_words.specs.Types.{is_shape};
ghost use Rattle.redo_model.specs.Records.{Record};
ghost use Rattle.redo_model.specs.Model.{IsTable};
ghost use Rattle.store_core.specs.Store.{IsFetched, IsTrue};
ghost use Rattle.store_core.specs.Causes.{HasLooked, IsSoundFault};
ghost use Rattle.row_change.specs.Locating.{IsSearch};
ghost use Rattle.row_change.specs.Looking.{Belongs, BornTold, StandsIn};

use crate::blocks::{born_at, search_for};
use crate::sight::Search;
use disk_model::Disk;
use seg_base::{Dba, Lsn, Obj};
use segment_read::index_in;
use std::alloc::Global;
use store_core::{Store, StoreFault};

fn index_below(index: u16, extents: u16) -> Option<u16>
    ensures same { IfSome result (λ i. i ≡ index) }
    ensures below { IfSome result (λ i. i < extents) }
    ensures past { IfNone result (extents ≤ index) }
{
    if index < extents { Some(index) } else { None }
}

/// The index of the table's extent in which a block stands, by the page of the table's header.
fn told_index<D: Disk>(store: &Store<D>, search: &Search, dba: Dba) -> Option<u16>
    requires shape { is_shape search.now.shape ≡ true }
    requires fetched { IsFetched search.now.segment.header store.now }
    ensures { (R : List Record) (o : ℕ) → IsTrue D.meaning R store.now → IsSearch store.now.shape R o search.now → StandsIn search.now.shape R o dba result }
{
    match index_in(store.frame(search.segment.header), &search.shape, dba) {
        Err(_) => None,
        Ok(index) => index_below(index, search.segment.extents),
    }
}

/// The index of the table's extent in which a block stands, None where it stands in none.
fn index_of<D: Disk>(
    store: &mut Store<D>,
    search: &Search,
    dba: Dba,
) -> Result<Option<u16>, StoreFault>
    requires { is_shape search.now.shape ≡ true }
    ensures looked { HasLooked D.meaning store.old store.new result }
    ensures says { (R : List Record) (o : ℕ) → IsTrue D.meaning R store.old → IsSearch store.old.shape R o search.now → IfOk result (StandsIn search.now.shape R o dba) }
    ensures sound { (R : List Record) (o : ℕ) → IsTrue D.meaning R store.old → IsSearch store.old.shape R o search.now → store.old.fault ≡ None → IfErr result IsSoundFault }
{
    match store.fetch(search.segment.header) {
        Ok(()) => {}
        Err(fault) => return Err(fault),
    }
    Ok(told_index(&*store, search, dba))
}

fn is_same(a: Lsn, b: Lsn) -> bool
    ensures same { result ≡ true → a ≡ b }
    ensures other { result ≡ false → a ≡ b → ⊥ }
{
    a.0 == b.0
}

/// Whether a block stands in one of the table's extents that has this incarnation.
pub fn is_born<D: Disk>(
    store: &mut Store<D>,
    search: &Search,
    dba: Dba,
    born: Lsn,
) -> Result<bool, StoreFault>
    requires { is_shape search.now.shape ≡ true }
    ensures looked { HasLooked D.meaning store.old store.new result }
    ensures says { (R : List Record) (o : ℕ) → IsTrue D.meaning R store.old → IsSearch store.old.shape R o search.now → IfOk result (Belongs search.now.shape R o dba born) }
    ensures sound { (R : List Record) (o : ℕ) → IsTrue D.meaning R store.old → IsSearch store.old.shape R o search.now → store.old.fault ≡ None → IfErr result IsSoundFault }
{
    let index = match index_of(store, search, dba) {
        Ok(index) => index,
        Err(fault) => return Err(fault),
    };
    let index = match index {
        Some(index) => index,
        None => return Ok(false),
    };
    match born_at(store, search, index) {
        Ok(now) => Ok(is_same(now, born)),
        Err(fault) => Err(fault),
    }
}

/// The incarnation of the extent in which a block stands.
fn incarnation_in<D: Disk>(
    store: &mut Store<D>,
    search: &Search,
    dba: Dba,
) -> Result<Option<Lsn>, StoreFault>
    requires { is_shape search.now.shape ≡ true }
    ensures looked { HasLooked D.meaning store.old store.new result }
    ensures says { (R : List Record) (o : ℕ) → IsTrue D.meaning R store.old → IsSearch store.old.shape R o search.now → IfOk result (BornTold search.now.shape R o dba) }
    ensures sound { (R : List Record) (o : ℕ) → IsTrue D.meaning R store.old → IsSearch store.old.shape R o search.now → store.old.fault ≡ None → IfErr result IsSoundFault }
{
    let index = match index_of(store, search, dba) {
        Ok(index) => index,
        Err(fault) => return Err(fault),
    };
    let index = match index {
        Some(index) => index,
        None => return Ok(None),
    };
    match born_at(store, search, index) {
        Ok(born) => Ok(Some(born)),
        Err(fault) => Err(fault),
    }
}

/// The incarnation of the extent of a table in which a block stands, None where none of its extents has the block. The table is
/// there.
pub fn incarnation_of<D: Disk>(
    alloc: Global,
    store: &mut Store<D>,
    obj: Obj,
    dba: Dba,
) -> Result<Option<Lsn>, StoreFault>
    ensures looked { HasLooked D.meaning store.old store.new result }
    ensures says { (R : List Record) → IsTrue D.meaning R store.old → IsTable R obj → IfOk result (BornTold store.old.shape R obj dba) }
    ensures sound { (R : List Record) → IsTrue D.meaning R store.old → IsTable R obj → store.old.fault ≡ None → IfErr result IsSoundFault }
{
    match search_for(alloc, store, obj, None) {
        Ok(search) => incarnation_in(store, &search, dba),
        Err(fault) => Err(fault),
    }
}
