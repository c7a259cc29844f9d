// Putting records into the log and the pages.
ghost use Rattle.std.specs.Prelude.{◌≡◌, ◌∷◌, [], ◌<◌, ◌≤◌, ◌^◌, ◌-◌, suc, ℕ, List, None, false, length, OnOk, OnErr, IfOk, IfErr, IsErrOf, IsOk};
ghost use Rattle.disk_model.specs.Types.{Causes, Untouched};
ghost use Rattle.redo_model.specs.Records.{Record, HasSpelling};
ghost use Rattle.redo_model.specs.Model.{IsLawful, is_whole};
ghost use Rattle.redo_log.specs.Kept.{Stays, HasList as HasLogList};
ghost use Rattle.buffer_pool.specs.declared.frame.TheConstants.{MOST_DIRTY};
ghost use Rattle.buffer_pool.specs.Looks.{Looks};
ghost use Rattle.buffer_pool.specs.Preparing.{HaveFrames, Leads};
ghost use Rattle.store_pages.specs.Pages.{HasPages, ShowsAfter};
ghost use Rattle.store_pages.specs.Fitting.{AreBothFit, FitsAll};
ghost use Rattle.pool_store.specs.Store.{HasList, IsTrue, waits};
ghost use Rattle.pool_store.specs.Putting.{HasPut, Refused};
ghost use Rattle.pool_store.specs.Adding.{HasTaken, FlushesFirst, WhyNotTaken, WhyNotBothTaken};
ghost use Rattle.pool_store.specs.Causes.{HasLooked, IsSoundFault};
ghost use Rattle.pool_store.specs.declared.fault.StoreFault.TheVariants as faults;

use crate::commits::commits_after;
use crate::sparing::{lasting, of_page};
use crate::{MOST_UNWRITTEN, Store, StoreFault};
use buffer_pool::Changed;
use disk_model::Disk;
use redo_log::RedoLog;
use redo_record::Record;
use seg_base::Lsn;
use store_pages::StorePages;

impl<'a, D: Disk> Store<'a, D> {
    // Adds a record to the list and to the pages, or to neither.
    fn add(&mut self, rec: &Record) -> Result<Lsn, StoreFault>
        requires unspent { self.old.fault ≡ None }
        requires room { self.old.pages.dirty ≤ MOST_DIRTY }
        ensures put { IfOk result (HasPut D.meaning self.old self.new (rec.now ∷ [])) }
        ensures refused { IfErr result (Refused D.meaning self.old self.new) }
        ensures sound { (R : List Record) → IsTrue D.meaning R self.old → IsLawful self.old.shape (rec.now ∷ R) → IfErr result IsSoundFault }
        ensures fits { (R : List Record) → IsTrue D.meaning R self.old → OnOk result (FitsAll self.old.shape R rec.now) }
        ensures unfit { (R : List Record) → IsTrue D.meaning R self.old → IfErr result (WhyNotTaken self.old.shape R rec.now) }
    {
        match take_in(self.disk, &mut self.log, &mut self.pages, rec) {
            Ok(lsn) => {
                self.commits = commits_after(self.commits, rec);
                Ok(lsn)
            }
            Err(fault) => {
                self.fault = lasting(&fault);
                Err(fault)
            }
        }
    }

    // Adds two records to the list and to the pages, or none.
    fn add_two(&mut self, first: &Record, second: &Record) -> Result<Lsn, StoreFault>
        requires unspent { self.old.fault ≡ None }
        requires room { self.old.pages.dirty ≤ MOST_DIRTY }
        ensures put { IfOk result (HasPut D.meaning self.old self.new (second.now ∷ first.now ∷ [])) }
        ensures refused { IfErr result (Refused D.meaning self.old self.new) }
        ensures sound { (R : List Record) → IsTrue D.meaning R self.old → IsLawful self.old.shape (second.now ∷ first.now ∷ R) → is_whole (first.now ∷ R) ≡ false → IfErr result IsSoundFault }
        ensures fits { (R : List Record) → IsTrue D.meaning R self.old → OnOk result (AreBothFit self.old.shape R first.now second.now) }
        ensures unfit { (R : List Record) → IsTrue D.meaning R self.old → IfErr result (WhyNotBothTaken self.old.shape R first.now second.now) }
    {
        match take_two_in(self.disk, &mut self.log, &mut self.pages, first, second) {
            Ok(lsn) => {
                let between = commits_after(self.commits, first);
                self.commits = commits_after(between, second);
                Ok(lsn)
            }
            Err(fault) => {
                self.fault = lasting(&fault);
                Err(fault)
            }
        }
    }

    // Makes what waits stable where it is too much, then room in the frames where too many pages are dirty.
    fn make_room(&mut self) -> Result<(), StoreFault>
        ensures looked { HasLooked D.meaning self.old self.new result }
        ensures room { OnOk result (self.new.pages.dirty ≤ MOST_DIRTY) }
        ensures full { (R : List Record) → HasList D.meaning R self.old → self.old.fault ≡ None → MOST_UNWRITTEN < waits self.old → (IsErrOf result faults.DeviceFault → ⊥) → self.new.log.stable ≡ length R }
        ensures none { self.old.fault ≡ None → waits self.old ≤ MOST_UNWRITTEN → self.old.pages.dirty ≤ MOST_DIRTY → IsOk result × (self.new ≡ self.old) }
        ensures sound { (R : List Record) → IsTrue D.meaning R self.old → self.old.fault ≡ None → IfErr result IsSoundFault }
    {
        match self.flush_full() {
            Ok(()) => self.spare(),
            Err(fault) => Err(fault),
        }
    }

    // Adds a record, where there is room.
    pub(crate) fn put(&mut self, rec: &Record) -> Result<Lsn, StoreFault>
        ensures taken { HasTaken D.meaning (rec.now ∷ []) self.old self.new result }
        ensures first { FlushesFirst D.meaning MOST_UNWRITTEN self.old self.new result }
        ensures sound { (R : List Record) → IsTrue D.meaning R self.old → IsLawful self.old.shape (rec.now ∷ R) → self.old.fault ≡ None → IfErr result IsSoundFault }
        ensures fits { (R : List Record) → IsTrue D.meaning R self.old → OnOk result (FitsAll self.old.shape R rec.now) }
        ensures unfit { (R : List Record) → IsTrue D.meaning R self.old → self.old.fault ≡ None → IfErr result (WhyNotTaken self.old.shape R rec.now) }
    {
        match self.make_room() {
            Ok(()) => self.add(rec),
            Err(fault) => Err(fault),
        }
    }

    // The same for two records.
    pub(crate) fn put_both(&mut self, first: &Record, second: &Record) -> Result<Lsn, StoreFault>
        ensures taken { HasTaken D.meaning (second.now ∷ first.now ∷ []) self.old self.new result }
        ensures first { FlushesFirst D.meaning MOST_UNWRITTEN self.old self.new result }
        ensures sound { (R : List Record) → IsTrue D.meaning R self.old → IsLawful self.old.shape (second.now ∷ first.now ∷ R) → is_whole (first.now ∷ R) ≡ false → self.old.fault ≡ None → IfErr result IsSoundFault }
        ensures fits { (R : List Record) → IsTrue D.meaning R self.old → OnOk result (AreBothFit self.old.shape R first.now second.now) }
        ensures unfit { (R : List Record) → IsTrue D.meaning R self.old → self.old.fault ≡ None → IfErr result (WhyNotBothTaken self.old.shape R first.now second.now) }
    {
        match self.make_room() {
            Ok(()) => self.add_two(first, second),
            Err(fault) => Err(fault),
        }
    }
}

// The pages that a record changes, changed, each with a frame.
fn prepared<D: Disk>(
    disk: &mut D,
    pages: &mut StorePages,
    rec: &Record,
    lsn: Lsn,
) -> Result<Changed, StoreFault>
    requires { pages.old.dirty ≤ MOST_DIRTY }
    ensures looks { Looks D.meaning disk.old disk.new pages.old pages.new }
    ensures stays { (log R : List Record) (m : ℕ) → HasPages D.meaning disk.old log m R pages.old → HasPages D.meaning disk.new log m R pages.new }
    ensures frames { IfOk result (λ changed. HaveFrames changed pages.new.held) }
    ensures leads { (log R : List Record) (m : ℕ) → HasPages D.meaning disk.old log m R pages.old → lsn ≡ suc (length R) → IfOk result (Leads pages.old.shape R (rec.now ∷ R)) }
    ensures fits { (log R : List Record) (m : ℕ) → HasPages D.meaning disk.old log m R pages.old → lsn ≡ suc (length R) → OnOk result (FitsAll pages.old.shape R rec.now) }
    ensures unfit { (log R : List Record) (m : ℕ) → HasPages D.meaning disk.old log m R pages.old → lsn ≡ suc (length R) → IfErr result (WhyNotTaken pages.old.shape R rec.now) }
    ensures cause { Causes D.meaning disk.old disk.new (IsErrOf result faults.DeviceFault) }
{
    match pages.prepare(disk, rec, lsn) {
        Ok(changed) => Ok(changed),
        Err(fault) => Err(of_page(fault)),
    }
}

// Adds the record to the log and puts its pages in, or does neither.
fn put_one(
    log: &mut RedoLog,
    pages: &mut StorePages,
    changed: Changed,
    rec: &Record,
) -> Result<Lsn, StoreFault>
    requires { HaveFrames changed pages.old.held }
    ensures list { (groups : List (List ℕ)) (R : List Record) → HasLogList groups [] R log.old → HasSpelling rec.now → OnOk result (HasLogList groups [] (rec.now ∷ R) log.new) }
    ensures pages { (file : ℕ → List ℕ) (R Q : List Record) → ShowsAfter file R pages.old → Leads pages.old.shape R Q changed → OnOk result (ShowsAfter file Q pages.new) }
    ensures number { IfOk result (λ lsn. lsn ≡ log.new.count) }
    ensures room { OnOk result (18 ≤ log.new.waiting.room) }
    ensures end { OnOk result (log.new.end ≡ log.old.end) }
    ensures stable { OnOk result (log.new.stable ≡ log.old.stable) }
    ensures refused { OnErr result (Stays log.old log.new) }
    ensures kept { OnErr result (pages.new ≡ pages.old) }
    ensures shape { pages.new.shape ≡ pages.old.shape }
    ensures only { IfErr result (λ e. e ≡ faults.NoMemory) }
{
    let lsn = log.append(rec)?;
    pages.install(changed);
    Ok(lsn)
}

// Adds the record to the list and to the pages, or to neither.
fn take_in<D: Disk>(
    disk: &mut D,
    log: &mut RedoLog,
    pages: &mut StorePages,
    rec: &Record,
) -> Result<Lsn, StoreFault>
    requires { pages.old.dirty ≤ MOST_DIRTY }
    ensures disk { Untouched D.meaning disk.old disk.new }
    ensures reads { D.meaning.told disk.old → D.meaning.log_reads disk.new ≡ D.meaning.log_reads disk.old }
    ensures list { (groups : List (List ℕ)) (R : List Record) → HasLogList groups [] R log.old → HasSpelling rec.now → OnOk result (HasLogList groups [] (rec.now ∷ R) log.new) }
    ensures pages { (logged R : List Record) (m : ℕ) → log.old.count ≡ length R → HasPages D.meaning disk.old logged m R pages.old → OnOk result (HasPages D.meaning disk.new logged m (rec.now ∷ R) pages.new) }
    ensures few { OnOk result (suc log.old.count < 2 ^ 64) }
    ensures number { IfOk result (λ lsn. lsn ≡ log.new.count) }
    ensures room { OnOk result (18 ≤ log.new.waiting.room) }
    ensures end { OnOk result (log.new.end ≡ log.old.end) }
    ensures stable { OnOk result (log.new.stable ≡ log.old.stable) }
    ensures refused { OnErr result (Stays log.old log.new) }
    ensures kept { (logged R : List Record) (m : ℕ) → HasPages D.meaning disk.old logged m R pages.old → OnErr result (HasPages D.meaning disk.new logged m R pages.new) }
    ensures fits { (logged R : List Record) (m : ℕ) → log.old.count ≡ length R → HasPages D.meaning disk.old logged m R pages.old → OnOk result (FitsAll pages.old.shape R rec.now) }
    ensures unfit { (logged R : List Record) (m : ℕ) → log.old.count ≡ length R → HasPages D.meaning disk.old logged m R pages.old → IfErr result (WhyNotTaken pages.old.shape R rec.now) }
    ensures shape { pages.new.shape ≡ pages.old.shape }
    ensures cause { Causes D.meaning disk.old disk.new (IsErrOf result faults.DeviceFault) }
{
    let count = log.count();
    if count.0 == u64::MAX {
        return Err(StoreFault::NoMemory);
    }
    match prepared(disk, pages, rec, Lsn(count.0 + 1)) {
        Ok(changed) => put_one(log, pages, changed, rec),
        Err(fault) => Err(fault),
    }
}

// The pages that two records change, changed by the first and then by the second, each with a frame.
fn prepared_two<D: Disk>(
    disk: &mut D,
    pages: &mut StorePages,
    first: &Record,
    second: &Record,
    lsn: Lsn,
) -> Result<Changed, StoreFault>
    requires room { pages.old.dirty ≤ MOST_DIRTY }
    requires number { lsn < 2 ^ 64 - 1 }
    ensures looks { Looks D.meaning disk.old disk.new pages.old pages.new }
    ensures stays { (log R : List Record) (m : ℕ) → HasPages D.meaning disk.old log m R pages.old → HasPages D.meaning disk.new log m R pages.new }
    ensures frames { IfOk result (λ changed. HaveFrames changed pages.new.held) }
    ensures leads { (log R : List Record) (m : ℕ) → HasPages D.meaning disk.old log m R pages.old → lsn ≡ suc (length R) → IfOk result (Leads pages.old.shape R (second.now ∷ first.now ∷ R)) }
    ensures fits { (log R : List Record) (m : ℕ) → HasPages D.meaning disk.old log m R pages.old → lsn ≡ suc (length R) → OnOk result (AreBothFit pages.old.shape R first.now second.now) }
    ensures unfit { (log R : List Record) (m : ℕ) → HasPages D.meaning disk.old log m R pages.old → lsn ≡ suc (length R) → IfErr result (WhyNotBothTaken pages.old.shape R first.now second.now) }
    ensures cause { Causes D.meaning disk.old disk.new (IsErrOf result faults.DeviceFault) }
{
    match pages.prepare_two(disk, first, second, lsn) {
        Ok(changed) => Ok(changed),
        Err(fault) => Err(of_page(fault)),
    }
}

// Adds both records to the log and puts their pages in, or does neither.
fn put_two(
    log: &mut RedoLog,
    pages: &mut StorePages,
    both: Changed,
    first: &Record,
    second: &Record,
) -> Result<Lsn, StoreFault>
    requires { HaveFrames both pages.old.held }
    ensures list { (groups : List (List ℕ)) (R : List Record) → HasLogList groups [] R log.old → HasSpelling first.now → HasSpelling second.now → OnOk result (HasLogList groups [] (second.now ∷ first.now ∷ R) log.new) }
    ensures pages { (file : ℕ → List ℕ) (R Q : List Record) → ShowsAfter file R pages.old → Leads pages.old.shape R Q both → OnOk result (ShowsAfter file Q pages.new) }
    ensures number { IfOk result (λ lsn. lsn ≡ log.new.count) }
    ensures room { OnOk result (18 ≤ log.new.waiting.room) }
    ensures end { OnOk result (log.new.end ≡ log.old.end) }
    ensures stable { OnOk result (log.new.stable ≡ log.old.stable) }
    ensures refused { OnErr result (Stays log.old log.new) }
    ensures kept { OnErr result (pages.new ≡ pages.old) }
    ensures shape { pages.new.shape ≡ pages.old.shape }
    ensures only { IfErr result (λ e. e ≡ faults.NoMemory) }
{
    let lsn = log.append_pair(first, second)?;
    pages.install(both);
    Ok(lsn)
}

// Adds two records to the list and to the pages, or none.
fn take_two_in<D: Disk>(
    disk: &mut D,
    log: &mut RedoLog,
    pages: &mut StorePages,
    first: &Record,
    second: &Record,
) -> Result<Lsn, StoreFault>
    requires { pages.old.dirty ≤ MOST_DIRTY }
    ensures disk { Untouched D.meaning disk.old disk.new }
    ensures reads { D.meaning.told disk.old → D.meaning.log_reads disk.new ≡ D.meaning.log_reads disk.old }
    ensures list { (groups : List (List ℕ)) (R : List Record) → HasLogList groups [] R log.old → HasSpelling first.now → HasSpelling second.now → OnOk result (HasLogList groups [] (second.now ∷ first.now ∷ R) log.new) }
    ensures pages { (logged R : List Record) (m : ℕ) → log.old.count ≡ length R → HasPages D.meaning disk.old logged m R pages.old → OnOk result (HasPages D.meaning disk.new logged m (second.now ∷ first.now ∷ R) pages.new) }
    ensures few { OnOk result (suc (suc log.old.count) < 2 ^ 64) }
    ensures number { IfOk result (λ lsn. lsn ≡ log.new.count) }
    ensures room { OnOk result (18 ≤ log.new.waiting.room) }
    ensures end { OnOk result (log.new.end ≡ log.old.end) }
    ensures stable { OnOk result (log.new.stable ≡ log.old.stable) }
    ensures refused { OnErr result (Stays log.old log.new) }
    ensures kept { (logged R : List Record) (m : ℕ) → HasPages D.meaning disk.old logged m R pages.old → OnErr result (HasPages D.meaning disk.new logged m R pages.new) }
    ensures fits { (logged R : List Record) (m : ℕ) → log.old.count ≡ length R → HasPages D.meaning disk.old logged m R pages.old → OnOk result (AreBothFit pages.old.shape R first.now second.now) }
    ensures unfit { (logged R : List Record) (m : ℕ) → log.old.count ≡ length R → HasPages D.meaning disk.old logged m R pages.old → IfErr result (WhyNotBothTaken pages.old.shape R first.now second.now) }
    ensures shape { pages.new.shape ≡ pages.old.shape }
    ensures cause { Causes D.meaning disk.old disk.new (IsErrOf result faults.DeviceFault) }
{
    let count = log.count();
    if count.0 >= u64::MAX - 1 {
        return Err(StoreFault::NoMemory);
    }
    match prepared_two(disk, pages, first, second, Lsn(count.0 + 1)) {
        Ok(changed) => put_two(log, pages, changed, first, second),
        Err(fault) => Err(fault),
    }
}
