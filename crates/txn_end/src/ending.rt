// A commit, and the end of a rollback.
ghost use Rattle.std.specs.Prelude.{◌≡◌, ◌∷◌, ◌≤◌, suc, ℕ, List, None, length, OnOk, IfOk, IfErr, IsErrOf};
ghost use Rattle.redo_model.specs.Records.{Record, Commit, Ended};
ghost use Rattle.redo_model.specs.Model.{commit_count, IsLawful};
ghost use Rattle.end_laws.specs.Types.{MayCommit, MayEnd, commit_of, ended_of};
ghost use Rattle.store_core.specs.Causes.{HasCause};
ghost use Rattle.store_core.specs.declared.fault.StoreFault.TheVariants as faults;
ghost use Rattle.store_core.specs.Store.{HasList, IsTrue, SameLoan};
ghost use Rattle.store_core.specs.Survives.{Survives};
ghost use Rattle.store_core.specs.Adding.{Adds};

use crate::standing::StandingOf;
use disk_model::Disk;
use redo_record::{EndedRecord, Record};
use seg_base::{Dba, Scn, TXN_TABLE_BLOCK, TxnId};
use std::alloc::Global;
use store_core::{Store, StoreFault, ask};

/// The block of the transaction table.
pub const TXN_TABLE: Dba = Dba(TXN_TABLE_BLOCK);

/// Adds a record that is allowed, and calls for no other.
pub fn add<D: Disk>(store: &mut Store<D>, rec: &Record) -> Result<(), StoreFault>
    ensures makes { (R : List Record) → IsTrue D.meaning R store.old → IsLawful store.old.shape (rec.now ∷ R) → Adds D.meaning R (rec.now ∷ R) store.old store.new result }
    ensures loan { SameLoan D.meaning store.old store.new }
    ensures cause { HasCause D.meaning store.old store.new result }
{
    match store.record(rec) {
        Ok(_) => Ok(()),
        Err(fault) => Err(fault),
    }
}

/// Ends the rollback of an active transaction of which no record is left.
pub fn end_back<D: Disk>(alloc: Global, store: &mut Store<D>, txn: TxnId) -> Result<(), StoreFault>
    ensures makes { (R : List Record) → IsTrue D.meaning R store.old → MayEnd R txn → Adds D.meaning R (Ended (ended_of R txn) ∷ R) store.old store.new result }
    ensures loan { SameLoan D.meaning store.old store.new }
    ensures cause { HasCause D.meaning store.old store.new result }
{
    let standing = match ask(alloc, store, TXN_TABLE, &StandingOf { txn }) {
        Ok(standing) => standing,
        Err(fault) => return Err(fault),
    };
    add(
        store,
        &Record::Ended(EndedRecord {
            txn,
            entry: standing.entry,
        }),
    )
}

/// Commits an active transaction of which nothing is taken back, and makes its records stable. It takes no memory. After a fault
/// of the disk the list has the Commit, and a crash may leave it or not.
pub fn commit<D: Disk>(store: &mut Store<D>, txn: TxnId) -> Result<Scn, StoreFault>
    ensures added { (R : List Record) → IsTrue D.meaning R store.old → store.old.fault ≡ None → MayCommit R txn → IsTrue D.meaning (Commit (commit_of R txn) ∷ R) store.new }
    ensures number { (R : List Record) → IsTrue D.meaning R store.old → MayCommit R txn → IfOk result (λ number. number ≡ suc (commit_count R)) }
    ensures all_stable { (R : List Record) → IsTrue D.meaning R store.old → OnOk result (store.new.log.stable ≡ suc (length R)) }
    ensures sound { (R : List Record) → IsTrue D.meaning R store.old → store.old.fault ≡ None → MayCommit R txn → IfErr result (λ e. e ≡ faults.DeviceFault) }
    ensures survives { (since : ℕ) (needed : ℕ → ℕ) (R : List Record) → IsTrue D.meaning R store.old → store.old.fault ≡ None → MayCommit R txn → Survives D.meaning since needed R store.old → Survives D.meaning since needed (Commit (commit_of R txn) ∷ R) store.new }
    ensures memory { store.old.fault ≡ None → IsErrOf result faults.NoMemory → ⊥ }
    ensures stable { (R : List Record) → HasList D.meaning R store.old → store.old.log.stable ≤ store.new.log.stable }
    ensures loan { SameLoan D.meaning store.old store.new }
    ensures cause { HasCause D.meaning store.old store.new result }
{
    store.record_commit(txn)
}
