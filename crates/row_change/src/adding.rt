// The records of a change added: first a Begin, where it has one, then its own record, in one group with a Reuse where it has
// one.
ghost use Rattle.std.specs.Prelude.{◌≡◌, ◌∷◌, List, false, None, OnOk};
ghost use Rattle.redo_model.specs.Records.{Record};
ghost use Rattle.redo_model.specs.Model.{IsLawful, is_whole};
ghost use Rattle.store_core.specs.Causes.{HasCause};
ghost use Rattle.store_core.specs.Store.{HasList, IsTrue, SameLoan};
ghost use Rattle.store_core.specs.Adding.{Adds, HasTried};
ghost use Rattle.row_change.specs.Adding.{AddsAll, AreLawful, begun, reused};

use crate::draft::Additions;
use disk_model::Disk;
use redo_record::{BeginRecord, Record, ReuseRecord};
use store_core::{Store, StoreFault};

fn add_one<D: Disk>(store: &mut Store<D>, rec: &Record) -> Result<(), StoreFault>
    ensures makes { (R : List Record) → IsTrue D.meaning R store.old → IsLawful store.old.shape (rec.now ∷ R) → Adds D.meaning R (rec.now ∷ R) store.old store.new result }
    ensures loan { SameLoan D.meaning store.old store.new }
    ensures cause { HasCause D.meaning store.old store.new result }
    ensures tried { HasTried D.meaning store.old store.new result }
{
    match store.record(rec) {
        Ok(_) => Ok(()),
        Err(fault) => Err(fault),
    }
}

fn add_two<D: Disk>(store: &mut Store<D>, first: &Record, second: &Record) -> Result<(), StoreFault>
    ensures makes { (R : List Record) → IsTrue D.meaning R store.old → IsLawful store.old.shape (second.now ∷ first.now ∷ R) → is_whole (first.now ∷ R) ≡ false → Adds D.meaning R (second.now ∷ first.now ∷ R) store.old store.new result }
    ensures loan { SameLoan D.meaning store.old store.new }
    ensures cause { HasCause D.meaning store.old store.new result }
    ensures tried { HasTried D.meaning store.old store.new result }
{
    match store.record_two(first, second) {
        Ok(_) => Ok(()),
        Err(fault) => Err(fault),
    }
}

/// Adds the record of a change, in one group with a Reuse where it has one.
pub fn add_change<D: Disk>(
    store: &mut Store<D>,
    reuse: Option<ReuseRecord>,
    change: &Record,
) -> Result<(), StoreFault>
    ensures makes { (R : List Record) → IsTrue D.meaning R store.old → IsLawful store.old.shape (change.now ∷ reused reuse R) → Adds D.meaning R (change.now ∷ reused reuse R) store.old store.new result }
    ensures loan { SameLoan D.meaning store.old store.new }
    ensures cause { HasCause D.meaning store.old store.new result }
    ensures tried { HasTried D.meaning store.old store.new result }
{
    match reuse {
        None => add_one(store, change),
        Some(reuse) => add_two(store, &Record::Reuse(reuse), change),
    }
}

fn add_begin<D: Disk>(store: &mut Store<D>, begin: Option<BeginRecord>) -> Result<(), StoreFault>
    requires unspent { store.old.fault ≡ None }
    ensures makes { (R : List Record) → IsTrue D.meaning R store.old → IsLawful store.old.shape (begun begin R) → Adds D.meaning R (begun begin R) store.old store.new result }
    ensures list { (R : List Record) → HasList D.meaning R store.old → OnOk result (HasList D.meaning (begun begin R) store.new) }
    ensures loan { SameLoan D.meaning store.old store.new }
    ensures cause { HasCause D.meaning store.old store.new result }
{
    match begin {
        None => Ok(()),
        Some(begin) => match store.take(&Record::Begin(begin)) {
            Ok(_) => Ok(()),
            Err(fault) => Err(fault),
        },
    }
}

/// Adds the records of a change. Where its own record is refused its Begin stands.
pub fn add_all<D: Disk>(store: &mut Store<D>, x: &Additions) -> Result<(), StoreFault>
    requires unspent { store.old.fault ≡ None }
    ensures adds { (R : List Record) → IsTrue D.meaning R store.old → AreLawful store.old.shape R x.now → AddsAll D.meaning R x.now store.old store.new result }
    ensures loan { SameLoan D.meaning store.old store.new }
    ensures cause { HasCause D.meaning store.old store.new result }
{
    match add_begin(store, x.begin) {
        Ok(()) => {}
        Err(fault) => return Err(fault),
    }
    add_change(store, x.reuse, &x.change)
}
