// Adding a Commit, which takes no memory.
ghost use Rattle.std.specs.Prelude.{◌≡◌, ◌∷◌, ◌<◌, ◌≤◌, ◌^◌, ◌-◌, ◌+◌, [], min, suc, ℕ, List, None, length, OnOk, OnErr, IfOk, IfErr, IsOk, IsErrOf, position};
ghost use Rattle.seg_words.specs.Types.{Shape as TheShape};
ghost use Rattle.redo_model.specs.Records.{Record, Commit, CommitRecord};
ghost use Rattle.redo_model.specs.Model.{IsLawful, commit_count};
ghost use Rattle.redo_log.specs.Kept.{HasList as HasLogList};
ghost use Rattle.txn_block.specs.Entries.{names};
ghost use Rattle.txn_block.specs.Tables.{TxnTable};
ghost use Rattle.page_set.specs.declared.page.Page.TheVariants.{Txns};
ghost use Rattle.page_set.specs.Changes.{Fits};
ghost use Rattle.page_set.specs.Folded.{page_of};
ghost use Rattle.store_pages.specs.Pages.{ShowsAfter};
ghost use Rattle.pool_store.specs.Store.{HasList, IsTrue, SameLoan, waits};
ghost use Rattle.pool_store.specs.Survives.{Survives};
ghost use Rattle.pool_store.specs.Causes.{HasCause};
ghost use Rattle.pool_store.specs.declared.fault.StoreFault.TheVariants as faults;

use crate::flushing::flush_in;
use crate::sparing::lasting;
use crate::{Store, StoreFault};
use disk_model::Disk;
use page_set::Page;
use redo_log::RedoLog;
use redo_record::{CommitRecord, Record};
use seg_base::{Dba, Lsn, Scn, TXN_TABLE_BLOCK, TxnId};
use store_pages::StorePages;

// The block of the transaction table.
const TXN_TABLE: Dba = Dba(TXN_TABLE_BLOCK);

impl<'a, D: Disk> Store<'a, D> {
    /// Adds the Commit of a transaction that is active and of which nothing is taken back, makes all records stable, and
    /// answers the commit's number. It takes no memory. After a fault of the disk the list has the Commit, and a crash may leave
    /// it or not.
    pub fn record_commit(&mut self, txn: TxnId) -> Result<Scn, StoreFault>
        ensures added { (R : List Record) (c : CommitRecord) → IsTrue D.meaning R self.old → self.old.fault ≡ None → c.txn ≡ txn → IsLawful self.old.shape (Commit c ∷ R)
            → IsTrue D.meaning (Commit c ∷ R) self.new }
        ensures number { (R : List Record) (c : CommitRecord) → IsTrue D.meaning R self.old → c.txn ≡ txn → IsLawful self.old.shape (Commit c ∷ R) → IfOk result (λ number. number ≡ c.number) }
        ensures all_stable { (R : List Record) → IsTrue D.meaning R self.old → OnOk result (self.new.log.stable ≡ suc (length R)) }
        ensures sound { (R : List Record) (c : CommitRecord) → IsTrue D.meaning R self.old → self.old.fault ≡ None → c.txn ≡ txn → IsLawful self.old.shape (Commit c ∷ R) → IfErr result (λ e. e ≡ faults.DeviceFault) }
        ensures survives { (since : ℕ) (needed : ℕ → ℕ) (R : List Record) (c : CommitRecord) → IsTrue D.meaning R self.old → self.old.fault ≡ None → c.txn ≡ txn → IsLawful self.old.shape (Commit c ∷ R)
            → Survives D.meaning since needed R self.old → Survives D.meaning since needed (Commit c ∷ R) self.new }
        ensures written { OnOk result (waits self.new ≡ 0) }
        ensures memory { self.old.fault ≡ None → IsErrOf result faults.NoMemory → ⊥ }
        ensures stable { (R : List Record) → HasList D.meaning R self.old → self.old.log.stable ≤ self.new.log.stable }
        ensures loan { SameLoan D.meaning self.old self.new }
        ensures cause { HasCause D.meaning self.old self.new result }
    {
        if let Some(fault) = self.fault {
            return Err(fault);
        }
        self.have_number();
        self.add_commit(txn)
    }

    // One more record has a number: a record takes at least two bytes of the log, and the lengths of what is written and of what
    // waits are u64.
    fn have_number(&self)
        ensures { (R : List Record) → HasList D.meaning R self.now → self.now.fault ≡ None → suc (length R) < 2 ^ 64 }
    {
        let _ = (self.log.end(), self.log.unwritten());
    }

    // Adds the Commit of a transaction, whose entry its page tells.
    fn add_commit(&mut self, txn: TxnId) -> Result<Scn, StoreFault>
        requires { self.old.fault ≡ None }
        ensures added { (R : List Record) (c : CommitRecord) → IsTrue D.meaning R self.old → self.old.fault ≡ None → c.txn ≡ txn → IsLawful self.old.shape (Commit c ∷ R) → suc (length R) < 2 ^ 64
            → IsTrue D.meaning (Commit c ∷ R) self.new }
        ensures number { (R : List Record) (c : CommitRecord) → IsTrue D.meaning R self.old → c.txn ≡ txn → IsLawful self.old.shape (Commit c ∷ R) → suc (length R) < 2 ^ 64 → IfOk result (λ number. number ≡ c.number) }
        ensures all_stable { (R : List Record) → IsTrue D.meaning R self.old → suc (length R) < 2 ^ 64 → OnOk result (self.new.log.stable ≡ suc (length R)) }
        ensures sound { (R : List Record) (c : CommitRecord) → IsTrue D.meaning R self.old → self.old.fault ≡ None → c.txn ≡ txn → IsLawful self.old.shape (Commit c ∷ R) → suc (length R) < 2 ^ 64 → IfErr result (λ e. e ≡ faults.DeviceFault) }
        ensures survives { (since : ℕ) (needed : ℕ → ℕ) (R : List Record) (c : CommitRecord) → IsTrue D.meaning R self.old → self.old.fault ≡ None → c.txn ≡ txn → IsLawful self.old.shape (Commit c ∷ R) → suc (length R) < 2 ^ 64
            → Survives D.meaning since needed R self.old → Survives D.meaning since needed (Commit c ∷ R) self.new }
        ensures written { OnOk result (waits self.new ≡ 0) }
        ensures memory { self.old.fault ≡ None → IsErrOf result faults.NoMemory → ⊥ }
        ensures stable { (R : List Record) → HasList D.meaning R self.old → self.old.log.stable ≤ self.new.log.stable }
        ensures loan { SameLoan D.meaning self.old self.new }
        ensures cause { HasCause D.meaning self.old self.new result }
    {
        match entry_in(&self.pages, txn) {
            Some(entry) => {
                let number = next_number(self.commits);
                self.commit(CommitRecord { txn, number, entry })
            }
            None => {
                self.fault = Some(StoreFault::BadPage { dba: TXN_TABLE });
                Err(StoreFault::BadPage { dba: TXN_TABLE })
            }
        }
    }

    // Adds a Commit and makes all records stable.
    fn commit(&mut self, c: CommitRecord) -> Result<Scn, StoreFault>
        requires { self.old.fault ≡ None }
        ensures added { (R : List Record) → IsTrue D.meaning R self.old → IsLawful self.old.shape (Commit c ∷ R) → suc (length R) < 2 ^ 64 → IsTrue D.meaning (Commit c ∷ R) self.new }
        ensures number { IfOk result (λ number. number ≡ c.number) }
        ensures all_stable { (R : List Record) → IsTrue D.meaning R self.old → suc (length R) < 2 ^ 64 → OnOk result (self.new.log.stable ≡ suc (length R)) }
        ensures sound { (R : List Record) → IsTrue D.meaning R self.old → IsLawful self.old.shape (Commit c ∷ R) → suc (length R) < 2 ^ 64 → IfErr result (λ e. e ≡ faults.DeviceFault) }
        ensures survives { (since : ℕ) (needed : ℕ → ℕ) (R : List Record) → IsTrue D.meaning R self.old → IsLawful self.old.shape (Commit c ∷ R) → suc (length R) < 2 ^ 64
            → Survives D.meaning since needed R self.old → Survives D.meaning since needed (Commit c ∷ R) self.new }
        ensures written { OnOk result (waits self.new ≡ 0) }
        ensures memory { IsErrOf result faults.NoMemory → ⊥ }
        ensures stable { (R : List Record) → HasList D.meaning R self.old → self.old.log.stable ≤ self.new.log.stable }
        ensures loan { SameLoan D.meaning self.old self.new }
        ensures cause { HasCause D.meaning self.old self.new result }
    {
        let number = c.number;
        match commit_in(&mut self.log, &mut self.pages, c) {
            Ok(()) => {}
            Err(fault) => {
                self.fault = lasting(&fault);
                return Err(fault);
            }
        }
        self.commits = number;
        match flush_in(self.disk, &mut self.log) {
            Ok(()) => Ok(number),
            Err(fault) => {
                self.fault = lasting(&fault);
                Err(fault)
            }
        }
    }
}

// The number of the commit after this one, which ends at 2^64 - 1.
fn next_number(commits: Scn) -> Scn
    ensures { result ≡ min (commits + 1) (2 ^ 64 - 1) }
{
    Scn(commits.0.saturating_add(1))
}

// How many commits there are with one record more.
#[tactic(auto, using(crate::proofs::Counting::within))]
pub(crate) fn commits_after(commits: Scn, rec: &Record) -> Scn
    ensures { (R : List Record) → commits ≡ commit_count R → suc (length R) < 2 ^ 64 → result ≡ commit_count (rec.now ∷ R) }
{
    match rec {
        Record::Commit(_) => next_number(commits),
        Record::Move(_) => next_number(commits),
        _ => commits,
    }
}

// The entry that names a transaction, on the page of the transaction table.
fn entry_in(pages: &StorePages, txn: TxnId) -> Option<u8>
    ensures { (file : ℕ → List ℕ) (R : List Record) (table : TxnTable) → ShowsAfter file R pages.now → page_of pages.now.shape R 1 ≡ Txns table → result ≡ position (names txn) table.entries }
{
    match pages.table() {
        Page::Txns(table) => table.entry_of(txn),
        _ => None,
    }
}

// The number of the record that is added next, which ends at 2^64 - 1.
fn next_lsn(log: &RedoLog) -> Lsn
    ensures { suc log.now.count < 2 ^ 64 → result ≡ suc log.now.count }
{
    Lsn(log.count().0.saturating_add(1))
}

// A Commit in the list and on its page. It takes no memory.
fn commit_in(log: &mut RedoLog, pages: &mut StorePages, c: CommitRecord) -> Result<(), StoreFault>
    requires { 18 ≤ log.old.waiting.room }
    ensures list { (groups : List (List ℕ)) (R : List Record) → HasLogList groups [] R log.old → OnOk result (HasLogList groups [] (Commit c ∷ R) log.new) }
    ensures pages { (file : ℕ → List ℕ) (R : List Record) → log.old.count ≡ length R → suc (length R) < 2 ^ 64 → ShowsAfter file R pages.old → OnOk result (ShowsAfter file (Commit c ∷ R) pages.new) }
    ensures end { log.new.end ≡ log.old.end }
    ensures stable { log.new.stable ≡ log.old.stable }
    ensures fits { (file : ℕ → List ℕ) (R : List Record) → suc log.old.count < 2 ^ 64 → ShowsAfter file R pages.old → Fits (Commit c) (suc log.old.count) (page_of pages.old.shape R 1) → IsOk result }
    ensures refused { OnErr result (log.new ≡ log.old) }
    ensures kept { OnErr result (pages.new ≡ pages.old) }
    ensures shape { pages.new.shape ≡ pages.old.shape }
    ensures bad { IfErr result (λ e. e ≡ faults.BadPage 1) }
{
    let CommitRecord { txn, number, entry } = c;
    let lsn = next_lsn(log);
    match pages.commit(CommitRecord { txn, number, entry }, lsn) {
        Ok(()) => {
            log.append_commit(txn, number, entry);
            Ok(())
        }
        Err(_) => Err(StoreFault::BadPage { dba: TXN_TABLE }),
    }
}
