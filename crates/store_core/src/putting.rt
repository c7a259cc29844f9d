// Putting records into the log and the pages.
ghost use Rattle.std.specs.Prelude.{◌≡◌, ◌∷◌, [], ◌<◌, ◌≤◌, ◌^◌, ◌-◌, ◌+◌, suc, ℕ, List, None, false, length, OnOk, OnErr, IfOk, IfErr, IsErrOf};
ghost use Rattle.seg_words.specs.Types.{Shape as TheShape};
ghost use Rattle.redo_model.specs.Records.{Record, HasSpelling};
ghost use Rattle.redo_model.specs.Model.{IsLawful, is_whole};
ghost use Rattle.redo_log.specs.Kept.{Stays, HasList as HasLogList};
ghost use Rattle.page_set.specs.Folded.{touched_once};
ghost use Rattle.page_map.specs.Pages.{HasPages, AreFit, Leads, made};
ghost use Rattle.page_map.specs.Fitting.{FitsAll, AreBothFit};
ghost use Rattle.page_map.specs.declared.fault.PageFault.TheVariants as pages_fault;
ghost use Rattle.store_core.specs.Store.{HasList, IsTrue};
ghost use Rattle.store_core.specs.Putting.{HasPut, Refused};
ghost use Rattle.store_core.specs.Adding.{HasTaken, FlushesFirst, WhyNotTaken, WhyNotBothTaken};
ghost use Rattle.store_core.specs.Causes.{IsSoundFault, lasting_fault, page_fault};
ghost use Rattle.store_core.specs.declared.fault.StoreFault.TheVariants as faults;

use crate::commits::commits_after;
use crate::{MOST_UNWRITTEN, Store, StoreFault};
use disk_model::Disk;
use page_map::{Changed, PageFault, Pages};
use redo_log::RedoLog;
use redo_record::Record;
use seg_base::{Dba, Lsn, Shape};
use std::alloc::Global;

impl<'a, D: Disk> Store<'a, D> {
    // Adds a record to the list and to the pages, or to neither.
    fn add(&mut self, rec: &Record) -> Result<Lsn, StoreFault>
        requires { self.old.fault ≡ None }
        ensures put { IfOk result (HasPut self.old self.new (rec.now ∷ [])) }
        ensures refused { IfErr result (Refused self.old self.new) }
        ensures sound { (R : List Record) → IsTrue D.meaning R self.old → IsLawful self.old.shape (rec.now ∷ R) → IfErr result IsSoundFault }
        ensures fits { (R : List Record) → HasList D.meaning R self.old → OnOk result (FitsAll self.old.shape R rec.now) }
        ensures unfit { (R : List Record) → HasList D.meaning R self.old → IfErr result (WhyNotTaken self.old.shape R rec.now) }
    {
        match take_in(self.alloc, &self.shape, &mut self.log, &mut self.pages, rec) {
            Ok(lsn) => {
                self.commits = commits_after(self.commits, rec);
                Ok(lsn)
            }
            Err(fault) => {
                self.fault = lasting(&fault);
                Err(fault)
            }
        }
    }

    // Adds two records to the list and to the pages, or none.
    fn add_two(&mut self, first: &Record, second: &Record) -> Result<Lsn, StoreFault>
        requires { self.old.fault ≡ None }
        ensures put { IfOk result (HasPut self.old self.new (second.now ∷ first.now ∷ [])) }
        ensures refused { IfErr result (Refused self.old self.new) }
        ensures sound { (R : List Record) → IsTrue D.meaning R self.old → IsLawful self.old.shape (second.now ∷ first.now ∷ R) → is_whole (first.now ∷ R) ≡ false → IfErr result IsSoundFault }
        ensures fits { (R : List Record) → HasList D.meaning R self.old → OnOk result (AreBothFit self.old.shape R first.now second.now) }
        ensures unfit { (R : List Record) → HasList D.meaning R self.old → IfErr result (WhyNotBothTaken self.old.shape R first.now second.now) }
    {
        match take_two_in(
            self.alloc,
            &self.shape,
            &mut self.log,
            &mut self.pages,
            first,
            second,
        ) {
            Ok(lsn) => {
                let between = commits_after(self.commits, first);
                self.commits = commits_after(between, second);
                Ok(lsn)
            }
            Err(fault) => {
                self.fault = lasting(&fault);
                Err(fault)
            }
        }
    }

    // Makes what waits stable where it is too much, and then adds a record.
    pub(crate) fn put(&mut self, rec: &Record) -> Result<Lsn, StoreFault>
        ensures taken { HasTaken D.meaning (rec.now ∷ []) self.old self.new result }
        ensures first { FlushesFirst D.meaning MOST_UNWRITTEN self.old self.new result }
        ensures sound { (R : List Record) → IsTrue D.meaning R self.old → IsLawful self.old.shape (rec.now ∷ R) → self.old.fault ≡ None → IfErr result IsSoundFault }
        ensures fits { (R : List Record) → HasList D.meaning R self.old → OnOk result (FitsAll self.old.shape R rec.now) }
        ensures unfit { (R : List Record) → HasList D.meaning R self.old → self.old.fault ≡ None → IfErr result (WhyNotTaken self.old.shape R rec.now) }
    {
        match self.flush_full() {
            Ok(()) => self.add(rec),
            Err(fault) => Err(fault),
        }
    }

    // The same for two records.
    pub(crate) fn put_both(&mut self, first: &Record, second: &Record) -> Result<Lsn, StoreFault>
        ensures taken { HasTaken D.meaning (second.now ∷ first.now ∷ []) self.old self.new result }
        ensures first { FlushesFirst D.meaning MOST_UNWRITTEN self.old self.new result }
        ensures sound { (R : List Record) → IsTrue D.meaning R self.old → IsLawful self.old.shape (second.now ∷ first.now ∷ R) → is_whole (first.now ∷ R) ≡ false → self.old.fault ≡ None → IfErr result IsSoundFault }
        ensures fits { (R : List Record) → HasList D.meaning R self.old → OnOk result (AreBothFit self.old.shape R first.now second.now) }
        ensures unfit { (R : List Record) → HasList D.meaning R self.old → self.old.fault ≡ None → IfErr result (WhyNotBothTaken self.old.shape R first.now second.now) }
    {
        match self.flush_full() {
            Ok(()) => self.add_two(first, second),
            Err(fault) => Err(fault),
        }
    }
}

// The fault that a store keeps of one that it answers.
pub(crate) fn lasting(fault: &StoreFault) -> Option<StoreFault>
    ensures { result ≡ lasting_fault fault.now }
{
    match fault {
        StoreFault::NoMemory => None,
        StoreFault::DeviceFault => Some(StoreFault::DeviceFault),
        StoreFault::BadPage { dba } => Some(StoreFault::BadPage { dba: *dba }),
    }
}

// The fault of a page's change as the store's.
fn of_page(fault: PageFault) -> StoreFault
    ensures same { result ≡ page_fault fault }
    ensures memory { fault ≡ pages_fault.NoMemory → result ≡ faults.NoMemory }
    ensures device { result ≡ faults.DeviceFault → ⊥ }
{
    match fault {
        PageFault::NoMemory => StoreFault::NoMemory,
        PageFault::BadPage { block } => StoreFault::BadPage { dba: Dba(block) },
    }
}

// The pages that a record changes, changed.
fn prepared(
    alloc: Global,
    shape: &Shape,
    pages: &Pages,
    rec: &Record,
    lsn: Lsn,
) -> Result<Changed, StoreFault>
    ensures leads { (R : List Record) → HasPages shape.now R pages.now → lsn ≡ suc (length R) → IfOk result (Leads shape.now R (rec.now ∷ R)) }
    ensures fault { AreFit rec.now lsn [] pages.now (touched_once shape.now rec.now) → IfErr result (λ e. e ≡ faults.NoMemory) }
    ensures device { IsErrOf result faults.DeviceFault → ⊥ }
    ensures fits { (R : List Record) → HasPages shape.now R pages.now → lsn ≡ suc (length R) → OnOk result (FitsAll shape.now R rec.now) }
    ensures unfit { (R : List Record) → HasPages shape.now R pages.now → lsn ≡ suc (length R) → IfErr result (WhyNotTaken shape.now R rec.now) }
{
    match pages.prepare(alloc, shape, rec, lsn) {
        Ok(changed) => Ok(changed),
        Err(fault) => Err(of_page(fault)),
    }
}

// Adds the record to the log and puts its pages in, or does neither.
fn put_one(
    log: &mut RedoLog,
    pages: &mut Pages,
    changed: Changed,
    rec: &Record,
) -> Result<Lsn, StoreFault>
    ensures list { (groups : List (List ℕ)) (R : List Record) → HasLogList groups [] R log.old → HasSpelling rec.now → OnOk result (HasLogList groups [] (rec.now ∷ R) log.new) }
    ensures pages { (sh : TheShape) (R Q : List Record) → HasPages sh R pages.old → Leads sh R Q changed → OnOk result (HasPages sh Q pages.new) }
    ensures number { IfOk result (λ lsn. lsn ≡ log.new.count) }
    ensures room { OnOk result (18 ≤ log.new.waiting.room) }
    ensures end { OnOk result (log.new.end ≡ log.old.end) }
    ensures stable { OnOk result (log.new.stable ≡ log.old.stable) }
    ensures refused { OnErr result (Stays log.old log.new) }
    ensures kept { OnErr result (pages.new ≡ pages.old) }
    ensures only { IfErr result (λ e. e ≡ faults.NoMemory) }
{
    let lsn = log.append(rec)?;
    pages.install(changed);
    Ok(lsn)
}

// Adds the record to the list and to the pages, or to neither.
fn take_in(
    alloc: Global,
    shape: &Shape,
    log: &mut RedoLog,
    pages: &mut Pages,
    rec: &Record,
) -> Result<Lsn, StoreFault>
    ensures list { (groups : List (List ℕ)) (R : List Record) → HasLogList groups [] R log.old → HasSpelling rec.now → OnOk result (HasLogList groups [] (rec.now ∷ R) log.new) }
    ensures pages { (R : List Record) → log.old.count ≡ length R → HasPages shape.now R pages.old → OnOk result (HasPages shape.now (rec.now ∷ R) pages.new) }
    ensures few { OnOk result (suc log.old.count < 2 ^ 64) }
    ensures number { IfOk result (λ lsn. lsn ≡ log.new.count) }
    ensures room { OnOk result (18 ≤ log.new.waiting.room) }
    ensures end { OnOk result (log.new.end ≡ log.old.end) }
    ensures stable { OnOk result (log.new.stable ≡ log.old.stable) }
    ensures refused { OnErr result (Stays log.old log.new) }
    ensures kept { OnErr result (pages.new ≡ pages.old) }
    ensures fault { AreFit rec.now (suc log.old.count) [] pages.old (touched_once shape.now rec.now) → IfErr result (λ e. e ≡ faults.NoMemory) }
    ensures device { IsErrOf result faults.DeviceFault → ⊥ }
    ensures fits { (R : List Record) → log.old.count ≡ length R → HasPages shape.now R pages.old → OnOk result (FitsAll shape.now R rec.now) }
    ensures unfit { (R : List Record) → log.old.count ≡ length R → HasPages shape.now R pages.old → IfErr result (WhyNotTaken shape.now R rec.now) }
{
    let count = log.count();
    if count.0 == u64::MAX {
        return Err(StoreFault::NoMemory);
    }
    match prepared(alloc, shape, pages, rec, Lsn(count.0 + 1)) {
        Ok(changed) => put_one(log, pages, changed, rec),
        Err(fault) => Err(fault),
    }
}

// The pages that two records change, changed by the first and then by the second.
fn prepared_two(
    alloc: Global,
    shape: &Shape,
    pages: &Pages,
    first: &Record,
    second: &Record,
    lsn: Lsn,
) -> Result<Changed, StoreFault>
    requires { lsn < 2 ^ 64 - 1 }
    ensures leads { (R : List Record) → HasPages shape.now R pages.now → lsn ≡ suc (length R) → IfOk result (Leads shape.now R (second.now ∷ first.now ∷ R)) }
    ensures fault { AreFit first.now lsn [] pages.now (touched_once shape.now first.now) → AreFit second.now (lsn + 1) (made first.now lsn [] pages.now (touched_once shape.now first.now)) pages.now (touched_once shape.now second.now) → IfErr result (λ e. e ≡ faults.NoMemory) }
    ensures device { IsErrOf result faults.DeviceFault → ⊥ }
    ensures fits { (R : List Record) → HasPages shape.now R pages.now → lsn ≡ suc (length R) → OnOk result (AreBothFit shape.now R first.now second.now) }
    ensures unfit { (R : List Record) → HasPages shape.now R pages.now → lsn ≡ suc (length R) → IfErr result (WhyNotBothTaken shape.now R first.now second.now) }
{
    match pages.prepare_two(alloc, shape, first, second, lsn) {
        Ok(changed) => Ok(changed),
        Err(fault) => Err(of_page(fault)),
    }
}

// Adds two records to the log and puts their pages in, or does neither.
fn put_two(
    log: &mut RedoLog,
    pages: &mut Pages,
    both: Changed,
    first: &Record,
    second: &Record,
) -> Result<Lsn, StoreFault>
    ensures list { (groups : List (List ℕ)) (R : List Record) → HasLogList groups [] R log.old → HasSpelling first.now → HasSpelling second.now → OnOk result (HasLogList groups [] (second.now ∷ first.now ∷ R) log.new) }
    ensures pages { (sh : TheShape) (R Q : List Record) → HasPages sh R pages.old → Leads sh R Q both → OnOk result (HasPages sh Q pages.new) }
    ensures number { IfOk result (λ lsn. lsn ≡ log.new.count) }
    ensures room { OnOk result (18 ≤ log.new.waiting.room) }
    ensures end { OnOk result (log.new.end ≡ log.old.end) }
    ensures stable { OnOk result (log.new.stable ≡ log.old.stable) }
    ensures refused { OnErr result (Stays log.old log.new) }
    ensures kept { OnErr result (pages.new ≡ pages.old) }
    ensures only { IfErr result (λ e. e ≡ faults.NoMemory) }
{
    let lsn = log.append_pair(first, second)?;
    pages.install(both);
    Ok(lsn)
}

// Adds two records to the list and to the pages, or none.
fn take_two_in(
    alloc: Global,
    shape: &Shape,
    log: &mut RedoLog,
    pages: &mut Pages,
    first: &Record,
    second: &Record,
) -> Result<Lsn, StoreFault>
    ensures list { (groups : List (List ℕ)) (R : List Record) → HasLogList groups [] R log.old → HasSpelling first.now → HasSpelling second.now → OnOk result (HasLogList groups [] (second.now ∷ first.now ∷ R) log.new) }
    ensures pages { (R : List Record) → log.old.count ≡ length R → HasPages shape.now R pages.old → OnOk result (HasPages shape.now (second.now ∷ first.now ∷ R) pages.new) }
    ensures few { OnOk result (suc (suc log.old.count) < 2 ^ 64) }
    ensures number { IfOk result (λ lsn. lsn ≡ log.new.count) }
    ensures room { OnOk result (18 ≤ log.new.waiting.room) }
    ensures end { OnOk result (log.new.end ≡ log.old.end) }
    ensures stable { OnOk result (log.new.stable ≡ log.old.stable) }
    ensures refused { OnErr result (Stays log.old log.new) }
    ensures kept { OnErr result (pages.new ≡ pages.old) }
    ensures fault { AreFit first.now (suc log.old.count) [] pages.old (touched_once shape.now first.now)
        → AreFit second.now (suc log.old.count + 1) (made first.now (suc log.old.count) [] pages.old (touched_once shape.now first.now)) pages.old (touched_once shape.now second.now)
        → IfErr result (λ e. e ≡ faults.NoMemory) }
    ensures device { IsErrOf result faults.DeviceFault → ⊥ }
    ensures fits { (R : List Record) → log.old.count ≡ length R → HasPages shape.now R pages.old → OnOk result (AreBothFit shape.now R first.now second.now) }
    ensures unfit { (R : List Record) → log.old.count ≡ length R → HasPages shape.now R pages.old → IfErr result (WhyNotBothTaken shape.now R first.now second.now) }
{
    let count = log.count();
    if count.0 >= u64::MAX - 1 {
        return Err(StoreFault::NoMemory);
    }
    match prepared_two(alloc, shape, pages, first, second, Lsn(count.0 + 1)) {
        Ok(changed) => put_two(log, pages, changed, first, second),
        Err(fault) => Err(fault),
    }
}
