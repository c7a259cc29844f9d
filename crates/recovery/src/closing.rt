// Taking back all active transactions of a store.
ghost use Rattle.std.specs.Prelude.{◌≡◌, List, length, None, OnOk, OnErr, IfOk, IfErr};
ghost use Rattle.redo_model.specs.Records.{Record};
ghost use Rattle.rollback_laws.specs.Closing.{all_backed, closed, rolled_back, IsFirst};
ghost use Rattle.store_core.specs.Store.{IsTrue};
ghost use Rattle.store_core.specs.Causes.{HasCause, IsSoundFault};
ghost use Rattle.recovery.specs.Coming.{Comes, ComesNext, HasStopped, Keeps};

use crate::next::next_active;
use disk_model::Disk;
use seg_base::{TXN_ENTRIES, TxnId};
use std::alloc::Global;
use store_core::{Store, StoreFault};
use txn_end::{back_step, end_back};

/// Takes back all records of the least active transaction, the newest first. It has no more of them than the list has records.
fn take_back_all<D: Disk>(alloc: Global, store: &mut Store<D>, txn: TxnId) -> Result<(), StoreFault>
    requires unspent { store.old.fault ≡ None }
    ensures comes { (R : List Record) → IsTrue D.meaning R store.old → IsFirst R txn → Comes D.meaning R (all_backed R txn) store.old store.new result }
    ensures keeps { Keeps D.meaning store.old store.new }
    ensures cause { HasCause D.meaning store.old store.new result }
{
    for _ in 0..store.log_len() {
        match back_step(alloc, store, txn) {
            Ok(Some(_)) => {}
            Ok(None) => return Ok(()),
            Err(fault) => return Err(fault),
        }
    }
    Ok(())
}

/// Takes back the least active transaction wholly, and ends it.
fn roll_back<D: Disk>(alloc: Global, store: &mut Store<D>, txn: TxnId) -> Result<(), StoreFault>
    requires unspent { store.old.fault ≡ None }
    ensures comes { (R : List Record) → IsTrue D.meaning R store.old → IsFirst R txn → Comes D.meaning R (rolled_back R txn) store.old store.new result }
    ensures keeps { Keeps D.meaning store.old store.new }
    ensures cause { HasCause D.meaning store.old store.new result }
{
    match take_back_all(alloc, store, txn) {
        Ok(()) => end_back(alloc, store, txn),
        Err(fault) => Err(fault),
    }
}

/// Takes back the least active transaction, and answers whether there was one.
fn roll_back_next<D: Disk>(alloc: Global, store: &mut Store<D>) -> Result<bool, StoreFault>
    requires unspent { store.old.fault ≡ None }
    ensures next { (R : List Record) → IsTrue D.meaning R store.old → IfOk result (ComesNext D.meaning R store.old store.new) }
    ensures stopped { (R : List Record) → IsTrue D.meaning R store.old → OnErr result (HasStopped D.meaning R store.old store.new) }
    ensures sound { (R : List Record) → IsTrue D.meaning R store.old → IfErr result IsSoundFault }
    ensures keeps { Keeps D.meaning store.old store.new }
    ensures cause { HasCause D.meaning store.old store.new result }
{
    match next_active(alloc, store) {
        Ok(None) => Ok(false),
        Ok(Some(txn)) => match roll_back(alloc, store, txn) {
            Ok(()) => Ok(true),
            Err(fault) => Err(fault),
        },
        Err(fault) => Err(fault),
    }
}

/// Takes back all active transactions, the least first, each wholly with its end.
fn roll_back_all<D: Disk>(alloc: Global, store: &mut Store<D>) -> Result<(), StoreFault>
    requires unspent { store.old.fault ≡ None }
    ensures comes { (R : List Record) → IsTrue D.meaning R store.old → Comes D.meaning R (closed R) store.old store.new result }
    ensures keeps { Keeps D.meaning store.old store.new }
    ensures cause { HasCause D.meaning store.old store.new result }
{
    for _ in 0..TXN_ENTRIES {
        match roll_back_next(alloc, store) {
            Ok(true) => {}
            Ok(false) => return Ok(()),
            Err(fault) => return Err(fault),
        }
    }
    Ok(())
}

/// Takes back all active transactions and makes all records stable. After an `Err` some of them may be taken back, and what is
/// left is taken back by the next opening.
pub fn take_back_active<D: Disk>(alloc: Global, store: &mut Store<D>) -> Result<(), StoreFault>
    requires unspent { store.old.fault ≡ None }
    ensures comes { (R : List Record) → IsTrue D.meaning R store.old → Comes D.meaning R (closed R) store.old store.new result }
    ensures all_stable { (R : List Record) → IsTrue D.meaning R store.old → OnOk result (store.new.log.stable ≡ length (closed R)) }
    ensures keeps { Keeps D.meaning store.old store.new }
    ensures cause { HasCause D.meaning store.old store.new result }
{
    match roll_back_all(alloc, store) {
        Ok(()) => store.flush_log(),
        Err(fault) => Err(fault),
    }
}
