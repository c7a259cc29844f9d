// What a slot of a store shows, and a row looked for in a block.
ghost use Rattle.std.specs.Prelude.{◌≡◌, ℕ, true, false, List, Option, Some, None, slice_get, IfOk, IfErr, IsOk};
ghost use Rattle.seg_words.specs.Types.{Rowid as TheRowid};
ghost use Rattle.redo_model.specs.Records.{Record};
ghost use Rattle.redo_model.specs.Model.{data_blocks};
ghost use Rattle.version_read.specs.Walking.{StepsTo, SeesRowAt, txn_or_none};
ghost use Rattle.store_core.specs.Store.{IsFetched, IsTrue};
ghost use Rattle.store_core.specs.Causes.{HasLooked, IsSoundFault};
ghost use Rattle.store_core.specs.Undo.{IsWorking};
ghost use Rattle.row_change.specs.Locating.{IsSearch, Sees, SeesFor, SeesIn, Shows, NoneFrom};
ghost use Rattle.row_change.specs.declared.sight.Search.{Search as TheSearch};

use crate::sight::{Search, Shown, Sight, shown_in, sight_of, slots_in};
use disk_model::Disk;
use seg_base::{Dba, RowNo, Rowid, TXN_TABLE_BLOCK, UndoAddr};
use segment_read::WrongPage;
use store_core::{Store, StoreFault};
use version_read::{Seen, image_at, walk};

/// What the image at an undo address shows, where it counts for the slot.
fn told_sight<D: Disk>(
    store: &Store<D>,
    from: UndoAddr,
    at: Rowid,
    search: &Search,
) -> Result<Option<Sight>, WrongPage>
    requires { IsFetched from.block store.now }
    ensures says { (R : List Record) (o : ℕ) → IsWorking D.meaning search.now.shape R store.now → IsSearch store.now.shape R o search.now → SeesRowAt search.now.shape R at.dba at.slot search.now.start (txn_or_none search.now.own) from → IfOk result (Sees R search.now.own at) }
    ensures right { (R : List Record) (o : ℕ) → IsWorking D.meaning search.now.shape R store.now → IsSearch store.now.shape R o search.now → SeesRowAt search.now.shape R at.dba at.slot search.now.start (txn_or_none search.now.own) from → IsOk result }
{
    match image_at(store, from) {
        None => Err(WrongPage),
        Some(image) => sight_of(image, at),
    }
}

/// What a slot shows whose image leads to an undo address: at all commits the walk down from there is never too old.
fn follow_down<D: Disk>(
    store: &mut Store<D>,
    from: UndoAddr,
    at: Rowid,
    search: &Search,
) -> Result<Option<Sight>, StoreFault>
    requires { store.old.fault ≡ None }
    ensures looked { HasLooked D.meaning store.old store.new result }
    ensures says { (R : List Record) (o : ℕ) → IsTrue D.meaning R store.old → IsSearch store.old.shape R o search.now → StepsTo search.now.shape R at.dba at.slot search.now.start search.now.own from → IfOk result (Sees R search.now.own at) }
    ensures sound { (R : List Record) (o : ℕ) → IsTrue D.meaning R store.old → IsSearch store.old.shape R o search.now → StepsTo search.now.shape R at.dba at.slot search.now.start search.now.own from → IfErr result IsSoundFault }
{
    let ring = search.shape.undo;
    match walk(store, &search.table, from, search.start, search.own, ring) {
        Err(fault) => Err(fault),
        Ok(Seen::Nothing) => Ok(None),
        Ok(Seen::Row(below)) => match told_sight(&*store, below, at, search) {
            Ok(sight) => Ok(sight),
            Err(_) => Err(store.refuse(Dba(below.block))),
        },
        Ok(Seen::TooOld(part)) => Err(store.refuse(Dba(part.block))),
        Ok(Seen::TooOldEntry(_)) => Err(store.refuse(Dba(TXN_TABLE_BLOCK))),
    }
}

fn told_shown<D: Disk>(store: &Store<D>, at: &Rowid, search: &Search) -> Result<Shown, WrongPage>
    requires { IsFetched at.now.dba store.now }
    ensures says { (R : List Record) (o i : ℕ) → IsTrue D.meaning R store.now → IsSearch store.now.shape R o search.now → slice_get (data_blocks search.now.shape R o) i ≡ Some at.now.dba → IfOk result (Shows R search.now at.now) }
    ensures right { (R : List Record) (o i : ℕ) → IsTrue D.meaning R store.now → IsSearch store.now.shape R o search.now → slice_get (data_blocks search.now.shape R o) i ≡ Some at.now.dba → IsOk result }
{
    shown_in(store.frame(at.dba), *at, search)
}

/// What a slot shows of which its page shows so much.
fn sight_by<D: Disk>(
    store: &mut Store<D>,
    shown: Shown,
    at: Rowid,
    search: &Search,
) -> Result<Option<Sight>, StoreFault>
    requires { store.old.fault ≡ None }
    ensures looked { HasLooked D.meaning store.old store.new result }
    ensures says { (R : List Record) (o : ℕ) → IsTrue D.meaning R store.old → IsSearch store.old.shape R o search.now → Shows R search.now at shown → IfOk result (Sees R search.now.own at) }
    ensures sound { (R : List Record) (o : ℕ) → IsTrue D.meaning R store.old → IsSearch store.old.shape R o search.now → Shows R search.now at shown → IfErr result IsSoundFault }
{
    match shown {
        Shown::Here(sight) => Ok(sight),
        Shown::Below(from) => follow_down(store, from, at, search),
    }
}

/// The row that a slot of a data block shows. None where it shows none.
pub fn look_at_slot<D: Disk>(
    store: &mut Store<D>,
    at: Rowid,
    search: &Search,
) -> Result<Option<Sight>, StoreFault>
    ensures looked { HasLooked D.meaning store.old store.new result }
    ensures says { (R : List Record) (o i : ℕ) → IsTrue D.meaning R store.old → IsSearch store.old.shape R o search.now → slice_get (data_blocks search.now.shape R o) i ≡ Some at.dba → IfOk result (Sees R search.now.own at) }
    ensures sound { (R : List Record) (o i : ℕ) → IsTrue D.meaning R store.old → IsSearch store.old.shape R o search.now → slice_get (data_blocks search.now.shape R o) i ≡ Some at.dba → store.old.fault ≡ None → IfErr result IsSoundFault }
{
    let dba = at.dba;
    match store.fetch(dba) {
        Ok(()) => {}
        Err(fault) => return Err(fault),
    }
    match told_shown(&*store, &at, search) {
        Ok(shown) => sight_by(store, shown, at, search),
        Err(_) => Err(store.refuse(dba)),
    }
}

fn is_row(sight: &Sight, row: RowNo) -> bool
    ensures same { result ≡ true → sight.now.row ≡ row }
    ensures other { result ≡ false → sight.now.row ≡ row → ⊥ }
{
    sight.row.0 == row.0
}

fn of_row(sight: Option<Sight>, row: RowNo) -> Option<Sight>
    ensures { (R : List Record) (own : Option ℕ) (p : TheRowid) → Sees R own p sight → SeesFor R own row p result }
{
    let sight = match sight {
        Some(sight) => sight,
        None => return None,
    };
    if is_row(&sight, row) {
        return Some(sight);
    }
    None
}

/// The same of one row.
fn look_for_row<D: Disk>(
    store: &mut Store<D>,
    at: Rowid,
    search: &Search,
    row: RowNo,
) -> Result<Option<Sight>, StoreFault>
    ensures looked { HasLooked D.meaning store.old store.new result }
    ensures says { (R : List Record) (o i : ℕ) → IsTrue D.meaning R store.old → IsSearch store.old.shape R o search.now → slice_get (data_blocks search.now.shape R o) i ≡ Some at.dba → IfOk result (SeesFor R search.now.own row at) }
    ensures sound { (R : List Record) (o i : ℕ) → IsTrue D.meaning R store.old → IsSearch store.old.shape R o search.now → slice_get (data_blocks search.now.shape R o) i ≡ Some at.dba → store.old.fault ≡ None → IfErr result IsSoundFault }
{
    match look_at_slot(store, at, search) {
        Ok(sight) => Ok(of_row(sight, row)),
        Err(fault) => Err(fault),
    }
}

fn told_slots<D: Disk>(store: &Store<D>, dba: Dba) -> u8
    requires { IsFetched dba store.now }
    ensures { (R : List Record) (o i : ℕ) (q : TheSearch) → IsTrue D.meaning R store.now → IsSearch store.now.shape R o q → slice_get (data_blocks q.shape R o) i ≡ Some dba → NoneFrom R q dba result }
{
    slots_in(store.frame(dba))
}

/// The slot of a data block that shows a row. None where none does.
pub fn look_in_block<D: Disk>(
    store: &mut Store<D>,
    dba: Dba,
    search: &Search,
    row: RowNo,
) -> Result<Option<Sight>, StoreFault>
    ensures looked { HasLooked D.meaning store.old store.new result }
    ensures says { (R : List Record) (o i : ℕ) → IsTrue D.meaning R store.old → IsSearch store.old.shape R o search.now → slice_get (data_blocks search.now.shape R o) i ≡ Some dba → IfOk result (SeesIn R search.now row dba) }
    ensures sound { (R : List Record) (o i : ℕ) → IsTrue D.meaning R store.old → IsSearch store.old.shape R o search.now → slice_get (data_blocks search.now.shape R o) i ≡ Some dba → store.old.fault ≡ None → IfErr result IsSoundFault }
{
    match store.fetch(dba) {
        Ok(()) => {}
        Err(fault) => return Err(fault),
    }
    let slots = told_slots(&*store, dba);
    for slot in 0..slots {
        match look_for_row(store, Rowid { dba, slot }, search, row) {
            Err(fault) => return Err(fault),
            Ok(Some(sight)) => return Ok(Some(sight)),
            Ok(None) => {}
        }
    }
    Ok(None)
}
