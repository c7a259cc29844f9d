// The pages of a store out of its data file and its log.
ghost use Rattle.std.specs.Prelude.{◌≡◌, ◌↔◌, true, ◌≤◌, ◌<◌, ◌+◌, ◌++◌, ◌^◌, ℕ, List, suc, length, reverse, IfErr, IfOk, IsErrOf, OnOk};
ghost use Rattle.buffer_pool.specs.declared.frame.TheConstants.{MOST_DIRTY};
ghost use Rattle.disk_model.specs.Types.{Causes, Untouched};
ghost use Rattle.redo_record.specs.declared.record.Record.{Record as TheRecord};
ghost use Rattle.page_store.specs.Types.{is_sound_area, LeavesLog, Names};
ghost use Rattle.page_store.specs.declared.fault.PageFault.TheVariants as faults;
ghost use Rattle.page_set.specs.Among.{is_among};
ghost use Rattle.page_set.specs.Folded.{touched};
ghost use Rattle.buffer_pool.specs.Batches.{AreDirtyUpTo};
ghost use Rattle.store_pages.specs.Refused.{AnyTouches, HasBlocks, IsRefused, IsUnread};
ghost use Rattle.store_pages.specs.Pages.{HasPages, KeepsFiles, LeavesFolds};
ghost use Rattle.store_pages.specs.Fitting.{IsSoundFault};
ghost use Rattle.store_pages.specs.Redoing.{AreTurns, BeginsTurns, IsOpenable, IsRedone, IsTurn, WhyNotRedone};

use crate::StorePages;
use crate::batches::spare_in;
use buffer_pool::BufferPool;
use disk_model::Disk;
use page_store::{PageFault, PageStore};
use redo_record::Record;
use seg_base::{Lsn, Shape};
use std::alloc::Global;

// Changes the pages that a record touches and that haven't it yet.
fn redo_one<D: Disk>(
    pool: &mut BufferPool,
    disk: &mut D,
    rec: &Record,
    lsn: Lsn,
) -> Result<(), PageFault>
    requires { pool.old.dirty ≤ MOST_DIRTY }
    ensures done { (R : List TheRecord) (m n : ℕ) → IsTurn D.meaning disk.old R m n rec.now lsn pool.old → OnOk result (IsRedone D.meaning disk.new R m (suc n) pool.new) }
    ensures why { (R : List TheRecord) (m n : ℕ) → IsTurn D.meaning disk.old R m n rec.now lsn pool.old → IfErr result (WhyNotRedone pool.old.shape R m) }
    ensures names { IfErr result (Names (λ b. is_among (touched pool.old.shape rec.now) b ≡ true)) }
    ensures up { (upto : ℕ) → AreDirtyUpTo upto pool.old.held → lsn ≤ upto → OnOk result (AreDirtyUpTo upto pool.new.held) }
    ensures untouched { Untouched D.meaning disk.old disk.new }
    ensures shape { pool.new.shape ≡ pool.old.shape }
    ensures cause { Causes D.meaning disk.old disk.new (IsErrOf result faults.DeviceFault) }
    ensures reads { D.meaning.told disk.old → D.meaning.log_reads disk.new ≡ D.meaning.log_reads disk.old }
{
    match pool.prepare(disk, rec, None, lsn) {
        Ok(changed) => {
            pool.install(changed);
            Ok(())
        }
        Err(fault) => Err(fault),
    }
}

// The same, with a batch first where too many pages are dirty. All records up to `last` stand in the log.
#[tactic(auto, using(page_store::proofs::Logs::log_then, page_store::proofs::Logs::log_looked, page_store::proofs::Logs::log_started))]
fn redo<D: Disk>(
    pool: &mut BufferPool,
    store: &mut PageStore,
    disk: &mut D,
    rec: &Record,
    lsn: Lsn,
    last: Lsn,
) -> Result<(), PageFault>
    requires { store.old ≡ pool.old.shape }
    ensures any_moment { (R : List TheRecord) (m n : ℕ) → IsTurn D.meaning disk.old R m n rec.now lsn pool.old → last ≡ length R → LeavesFolds D.meaning disk.old disk.new pool.old.shape R m }
    ensures done { (R : List TheRecord) (m n : ℕ) → IsTurn D.meaning disk.old R m n rec.now lsn pool.old → last ≡ length R → OnOk result (AreTurns D.meaning disk.old disk.new R m (suc n) pool.new) }
    ensures why { (R : List TheRecord) (m n : ℕ) → IsTurn D.meaning disk.old R m n rec.now lsn pool.old → last ≡ length R → IfErr result (WhyNotRedone pool.old.shape R m) }
    ensures names { AreDirtyUpTo last pool.old.held → IfErr result (Names (λ b. is_among (touched pool.old.shape rec.now) b ≡ true)) }
    ensures up { AreDirtyUpTo last pool.old.held → lsn ≤ last → OnOk result (AreDirtyUpTo last pool.new.held) }
    ensures shape { pool.new.shape ≡ pool.old.shape }
    ensures same { store.new ≡ store.old }
    ensures log { LeavesLog D.meaning disk.old disk.new }
    ensures cause { Causes D.meaning disk.old disk.new (IsErrOf result faults.DeviceFault) }
    ensures told { D.meaning.told disk.new ↔ D.meaning.told disk.old }
    ensures reads { D.meaning.told disk.old → D.meaning.log_reads disk.new ≡ D.meaning.log_reads disk.old }
{
    match spare_in(pool, store, disk, last) {
        Ok(()) => {}
        Err(fault) => return Err(fault),
    }
    match redo_one(pool, disk, rec, lsn) {
        Ok(()) => Ok(()),
        Err(fault) => Err(fault),
    }
}

// The number of the i-th of the records behind the first ones.
fn number_of(first: Lsn, i: usize) -> Lsn
    requires { first + i + 1 < 2 ^ 64 }
    ensures { result ≡ first + i + 1 }
{
    Lsn(first.0 + i as u64 + 1)
}

// The number of the last of them.
fn last_of(first: Lsn, records: &[Record]) -> Lsn
    requires { first + length records.now < 2 ^ 64 }
    ensures { result ≡ first + length records.now }
{
    Lsn(first.0 + records.len() as u64)
}

// Redoes the records behind the first ones, one after the other.
fn redo_all<D: Disk>(
    pool: &mut BufferPool,
    store: &mut PageStore,
    disk: &mut D,
    first: Lsn,
    records: &[Record],
) -> Result<(), PageFault>
    requires shape { store.old ≡ pool.old.shape }
    requires numbers { first + length records.now < 2 ^ 64 }
    ensures any_moment { (older : List TheRecord) → BeginsTurns D.meaning disk.old records.now older first pool.old → LeavesFolds D.meaning disk.old disk.new pool.old.shape (reverse records.now ++ older) first }
    ensures done { (older : List TheRecord) → BeginsTurns D.meaning disk.old records.now older first pool.old
        → OnOk result (AreTurns D.meaning disk.old disk.new (reverse records.now ++ older) first (length (reverse records.now ++ older)) pool.new) }
    ensures why { (older : List TheRecord) → BeginsTurns D.meaning disk.old records.now older first pool.old → IfErr result (WhyNotRedone pool.old.shape (reverse records.now ++ older) first) }
    ensures names { AreDirtyUpTo (first + length records.now) pool.old.held → IfErr result (Names (AnyTouches pool.old.shape records.now)) }
    ensures shape { pool.new.shape ≡ pool.old.shape }
    ensures same { store.new ≡ store.old }
    ensures log { LeavesLog D.meaning disk.old disk.new }
    ensures cause { Causes D.meaning disk.old disk.new (IsErrOf result faults.DeviceFault) }
    ensures told { D.meaning.told disk.new ↔ D.meaning.told disk.old }
    ensures reads { D.meaning.told disk.old → D.meaning.log_reads disk.new ≡ D.meaning.log_reads disk.old }
{
    for (i, rec) in records.iter().enumerate() {
        let lsn = number_of(first, i);
        let last = last_of(first, records);
        match redo(pool, store, disk, rec, lsn, last) {
            Ok(()) => {}
            Err(fault) => return Err(fault),
        }
    }
    Ok(())
}

impl StorePages {
    fn redo_records<D: Disk>(
        &mut self,
        disk: &mut D,
        first: Lsn,
        records: &[Record],
    ) -> Result<(), PageFault>
        requires { first + length records.now < 2 ^ 64 }
        ensures any_moment { (older : List TheRecord) → BeginsTurns D.meaning disk.old records.now older first self.old → LeavesFolds D.meaning disk.old disk.new self.old.shape (reverse records.now ++ older) first }
        ensures done { (older : List TheRecord) → BeginsTurns D.meaning disk.old records.now older first self.old
            → OnOk result (AreTurns D.meaning disk.old disk.new (reverse records.now ++ older) first (length (reverse records.now ++ older)) self.new) }
        ensures why { (older : List TheRecord) → BeginsTurns D.meaning disk.old records.now older first self.old → IfErr result (WhyNotRedone self.old.shape (reverse records.now ++ older) first) }
        ensures names { AreDirtyUpTo (first + length records.now) self.old.held → IfErr result (Names (AnyTouches self.old.shape records.now)) }
        ensures shape { self.new.shape ≡ self.old.shape }
        ensures log { LeavesLog D.meaning disk.old disk.new }
        ensures cause { Causes D.meaning disk.old disk.new (IsErrOf result faults.DeviceFault) }
        ensures told { D.meaning.told disk.new ↔ D.meaning.told disk.old }
        ensures reads { D.meaning.told disk.old → D.meaning.log_reads disk.new ≡ D.meaning.log_reads disk.old }
    {
        redo_all(&mut self.pool, &mut self.store, disk, first, records)
    }
}

// The data file opened, and a pool over it in which no page is dirty.
#[tactic(auto, using(page_store::proofs::Logs::log_then, page_store::proofs::Logs::log_looked, page_store::proofs::Logs::log_started))]
fn over_file<D: Disk>(alloc: Global, disk: &mut D, shape: Shape) -> Result<StorePages, PageFault>
    ensures any_moment { (records older : List TheRecord) (m : ℕ) → IsOpenable D.meaning disk.old shape records older m → LeavesFolds D.meaning disk.old disk.new shape (reverse records ++ older) m }
    ensures done { (records older : List TheRecord) (m : ℕ) → IsOpenable D.meaning disk.old shape records older m → IfOk result (AreTurns D.meaning disk.old disk.new (reverse records ++ older) m m) }
    ensures sound { (records older : List TheRecord) (m : ℕ) → IsOpenable D.meaning disk.old shape records older m → IfErr result IsSoundFault }
    ensures any { HasBlocks D.meaning disk.old shape → IfErr result (Names (IsUnread shape (D.meaning.files disk.old).data_bytes)) }
    ensures area { D.meaning.told disk.old → OnOk result (is_sound_area shape (D.meaning.files disk.old).data_bytes ≡ true) }
    ensures clean { IfOk result (λ pages. AreDirtyUpTo 0 pages.held) }
    ensures shape { IfOk result (λ pages. pages.shape ≡ shape) }
    ensures log { LeavesLog D.meaning disk.old disk.new }
    ensures cause { Causes D.meaning disk.old disk.new (IsErrOf result faults.DeviceFault) }
    ensures told { D.meaning.told disk.new ↔ D.meaning.told disk.old }
    ensures reads { D.meaning.told disk.old → D.meaning.log_reads disk.new ≡ D.meaning.log_reads disk.old }
{
    let store = match page_store::open(disk, shape) {
        Ok(store) => store,
        Err(fault) => return Err(fault),
    };
    match BufferPool::new(alloc, disk, store) {
        Ok(pool) => Ok(StorePages { store, pool }),
        Err(fault) => Err(fault),
    }
}

/// The pages of a store whose log has these records, behind as many older ones as `first` says, which the data file has on each
/// page: a batch that wasn't finished is written to its blocks, and then each record is redone on the pages that haven't it, the
/// oldest first, with a batch before it where too many pages are dirty. At `Ok` the pages are the fold of all records. `BadPage`
/// names a block that a record touches and where it doesn't fit, as the records before it leave the pages. At any moment a crash
/// leaves a data file from which the same is opened.
#[tactic(auto, using(page_store::proofs::Logs::log_then, page_store::proofs::Logs::log_looked, page_store::proofs::Logs::log_started))]
pub fn open<D: Disk>(
    alloc: Global,
    disk: &mut D,
    shape: Shape,
    first: Lsn,
    records: &[Record],
) -> Result<StorePages, PageFault>
    requires { first + length records.now < 2 ^ 64 }
    ensures any_moment { (older : List TheRecord) → IsOpenable D.meaning disk.old shape records.now older first → LeavesFolds D.meaning disk.old disk.new shape (reverse records.now ++ older) first }
    ensures opened { (older : List TheRecord) → IsOpenable D.meaning disk.old shape records.now older first
        → IfOk result (HasPages D.meaning disk.new (reverse records.now ++ older) first (reverse records.now ++ older)) }
    ensures files { (older : List TheRecord) → IsOpenable D.meaning disk.old shape records.now older first → OnOk result (KeepsFiles D.meaning disk.old disk.new) }
    ensures why { (older : List TheRecord) → IsOpenable D.meaning disk.old shape records.now older first → IfErr result (WhyNotRedone shape (reverse records.now ++ older) first) }
    // Whatever the data file holds.
    ensures any { HasBlocks D.meaning disk.old shape → IfErr result (Names (IsRefused shape (D.meaning.files disk.old).data_bytes records.now)) }
    ensures area { D.meaning.told disk.old → OnOk result (is_sound_area shape (D.meaning.files disk.old).data_bytes ≡ true) }
    ensures shape { IfOk result (λ pages. pages.shape ≡ shape) }
    ensures log { LeavesLog D.meaning disk.old disk.new }
    ensures cause { Causes D.meaning disk.old disk.new (IsErrOf result faults.DeviceFault) }
    ensures told { D.meaning.told disk.new ↔ D.meaning.told disk.old }
    ensures reads { D.meaning.told disk.old → D.meaning.log_reads disk.new ≡ D.meaning.log_reads disk.old }
{
    let mut pages = match over_file(alloc, disk, shape) {
        Ok(pages) => pages,
        Err(fault) => return Err(fault),
    };
    match pages.redo_records(disk, first, records) {
        Ok(()) => Ok(pages),
        Err(fault) => Err(fault),
    }
}
