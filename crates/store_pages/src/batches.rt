// Dirty pages that are put into the data file.
ghost use Rattle.std.specs.Prelude.{◌≡◌, ◌↔◌, ◌≤◌, ℕ, List, length, min, IfErr, IfOk, IsErrOf, IsOk, OnOk};
ghost use Rattle.disk_model.specs.Types.{Causes};
ghost use Rattle.redo_record.specs.declared.record.Record.{Record as TheRecord};
ghost use Rattle.page_store.specs.Types.{LeavesLog};
ghost use Rattle.page_store.specs.declared.fault.PageFault.TheVariants as faults;
ghost use Rattle.page_set.specs.declared.page.Page.{Page as ThePage};
ghost use Rattle.page_set.specs.Folded.{page_of};
ghost use Rattle.buffer_pool.specs.Frames.{Shows};
ghost use Rattle.buffer_pool.specs.Batches.{AreDirtyUpTo, ReadBack};
ghost use Rattle.store_pages.specs.Pages.{AreOlder, AreWritable, HasPages, HasPut, IsOver, KeepsFiles, LeavesFolds, ShowsAfter};
ghost use Rattle.store_pages.specs.Fitting.{IsSoundFault};

use crate::StorePages;
use buffer_pool::{BufferPool, MOST_DIRTY};
use disk_model::Disk;
use page_store::{PageFault, PageStore};
use seg_base::{DOUBLE_WRITE_PAGES, Dba, Lsn, NoMemory, TXN_TABLE_BLOCK};

// Puts dirty pages into the data file.
#[tactic(auto, using(page_store::proofs::Logs::log_then, page_store::proofs::Logs::log_looked, page_store::proofs::Logs::log_started))]
fn put_in<D: Disk>(
    pool: &mut BufferPool,
    store: &mut PageStore,
    disk: &mut D,
    most: u8,
    upto: Lsn,
) -> Result<u8, PageFault>
    requires shape { store.old ≡ pool.old.shape }
    requires most { most ≤ DOUBLE_WRITE_PAGES }
    ensures any_moment { (log : List TheRecord) (m : ℕ) (image : ℕ → ThePage) → IsOver D.meaning disk.old log m image pool.old → AreWritable pool.old.shape log m upto image
        → LeavesFolds D.meaning disk.old disk.new pool.old.shape log m }
    ensures done { (log : List TheRecord) (m : ℕ) (image : ℕ → ThePage) → IsOver D.meaning disk.old log m image pool.old → AreWritable pool.old.shape log m upto image
        → OnOk result (IsOver D.meaning disk.new log m image pool.new) }
    ensures files { (log : List TheRecord) (m : ℕ) (image : ℕ → ThePage) → IsOver D.meaning disk.old log m image pool.old → AreWritable pool.old.shape log m upto image
        → OnOk result (KeepsFiles D.meaning disk.old disk.new) }
    ensures put { IfOk result (λ n. HasPut most upto n pool.old pool.new) }
    ensures many { AreDirtyUpTo upto pool.old.held → IfOk result (λ n. n ≡ min most pool.old.dirty) }
    ensures memory { IsErrOf result faults.NoMemory → (pool.new ≡ pool.old) × (disk.new ≡ disk.old) }
    ensures only { IfErr result IsSoundFault }
    ensures shape { pool.new.shape ≡ pool.old.shape }
    ensures same { store.new ≡ store.old }
    ensures log { LeavesLog D.meaning disk.old disk.new }
    ensures cause { Causes D.meaning disk.old disk.new (IsErrOf result faults.DeviceFault) }
    ensures told { D.meaning.told disk.new ↔ D.meaning.told disk.old }
    ensures reads { D.meaning.log_reads disk.new ≡ D.meaning.log_reads disk.old }
{
    let batch = match pool.take_batch(most, upto) {
        Ok(batch) => batch,
        Err(NoMemory) => return Err(PageFault::NoMemory),
    };
    let count = batch.len();
    if count == 0 {
        return Ok(0);
    }
    match store.put_all(disk, &batch) {
        Ok(()) => Ok(count as u8),
        Err(fault) => Err(fault),
    }
}

/// Puts a batch into the data file where more pages are dirty than may be before one is fetched or changed.
#[tactic(auto, using(page_store::proofs::Logs::log_then, page_store::proofs::Logs::log_looked, page_store::proofs::Logs::log_started))]
pub(crate) fn spare_in<D: Disk>(
    pool: &mut BufferPool,
    store: &mut PageStore,
    disk: &mut D,
    upto: Lsn,
) -> Result<(), PageFault>
    requires { store.old ≡ pool.old.shape }
    ensures any_moment { (log : List TheRecord) (m : ℕ) (image : ℕ → ThePage) → IsOver D.meaning disk.old log m image pool.old → AreWritable pool.old.shape log m upto image
        → LeavesFolds D.meaning disk.old disk.new pool.old.shape log m }
    ensures done { (log : List TheRecord) (m : ℕ) (image : ℕ → ThePage) → IsOver D.meaning disk.old log m image pool.old → AreWritable pool.old.shape log m upto image
        → OnOk result (IsOver D.meaning disk.new log m image pool.new) }
    ensures files { (log : List TheRecord) (m : ℕ) (image : ℕ → ThePage) → IsOver D.meaning disk.old log m image pool.old → AreWritable pool.old.shape log m upto image
        → OnOk result (KeepsFiles D.meaning disk.old disk.new) }
    ensures room { OnOk result (pool.new.dirty ≤ MOST_DIRTY) }
    ensures none { pool.old.dirty ≤ MOST_DIRTY → IsOk result × (pool.new ≡ pool.old) × (disk.new ≡ disk.old) }
    ensures sound { (file : ℕ → List ℕ) (image : ℕ → ThePage) → Shows pool.old.shape file image pool.old.held → AreOlder pool.old.shape upto image → IfErr result IsSoundFault }
    ensures whole { AreDirtyUpTo upto pool.old.held → IfErr result IsSoundFault }
    ensures up { AreDirtyUpTo upto pool.old.held → OnOk result (AreDirtyUpTo upto pool.new.held) }
    ensures memory { IsErrOf result faults.NoMemory → (pool.new ≡ pool.old) × (disk.new ≡ disk.old) }
    ensures shape { pool.new.shape ≡ pool.old.shape }
    ensures same { store.new ≡ store.old }
    ensures log { LeavesLog D.meaning disk.old disk.new }
    ensures cause { Causes D.meaning disk.old disk.new (IsErrOf result faults.DeviceFault) }
    ensures told { D.meaning.told disk.new ↔ D.meaning.told disk.old }
    ensures reads { D.meaning.log_reads disk.new ≡ D.meaning.log_reads disk.old }
{
    if pool.dirty() <= MOST_DIRTY {
        return Ok(());
    }
    match put_in(pool, store, disk, DOUBLE_WRITE_PAGES, upto) {
        Ok(_) => {}
        Err(fault) => return Err(fault),
    }
    // Only a page that a record after `upto` changed could be left.
    if pool.dirty() > MOST_DIRTY {
        return Err(PageFault::BadPage {
            dba: Dba(TXN_TABLE_BLOCK),
        });
    }
    Ok(())
}

impl StorePages {
    /// Puts the dirty pages of least number into the data file, at most `most` of those that no record after `upto` changed, and
    /// answers their number. The log has the records up to that one. At any moment a crash leaves all of these pages in the file or
    /// none. Each block shows what it showed. After `NoMemory` all is as it was, after `DeviceFault` the file has to be opened again.
    pub fn put_batch<D: Disk>(&mut self, disk: &mut D, most: u8, upto: Lsn) -> Result<u8, PageFault>
        requires { most ≤ DOUBLE_WRITE_PAGES }
        ensures any_moment { (log R : List TheRecord) (m : ℕ) → HasPages D.meaning disk.old log m R self.old → upto ≤ length log → ReadBack self.old.shape (page_of self.old.shape R)
            → LeavesFolds D.meaning disk.old disk.new self.old.shape log m }
        ensures done { (log R : List TheRecord) (m : ℕ) → HasPages D.meaning disk.old log m R self.old → upto ≤ length log → ReadBack self.old.shape (page_of self.old.shape R)
            → OnOk result (HasPages D.meaning disk.new log m R self.new) }
        ensures files { (log R : List TheRecord) (m : ℕ) → HasPages D.meaning disk.old log m R self.old → upto ≤ length log → ReadBack self.old.shape (page_of self.old.shape R)
            → OnOk result (KeepsFiles D.meaning disk.old disk.new) }
        ensures put { IfOk result (λ n. HasPut most upto n self.old self.new) }
        ensures many { (file : ℕ → List ℕ) (R : List TheRecord) → ShowsAfter file R self.old → length R ≤ upto → IfOk result (λ n. n ≡ min most self.old.dirty) }
        ensures memory { IsErrOf result faults.NoMemory → (self.new ≡ self.old) × (disk.new ≡ disk.old) }
        ensures only { IfErr result IsSoundFault }
        ensures shape { self.new.shape ≡ self.old.shape }
        ensures log { LeavesLog D.meaning disk.old disk.new }
        ensures cause { Causes D.meaning disk.old disk.new (IsErrOf result faults.DeviceFault) }
        ensures told { D.meaning.told disk.new ↔ D.meaning.told disk.old }
        ensures reads { D.meaning.log_reads disk.new ≡ D.meaning.log_reads disk.old }
    {
        let _count = self.pool.dirty();
        put_in(&mut self.pool, &mut self.store, disk, most, upto)
    }

    /// Puts a batch of 32 pages into the data file where more are dirty than may be before one is fetched or changed, and does
    /// nothing where they aren't. `upto` is the last record, and the log has it.
    pub fn spare<D: Disk>(&mut self, disk: &mut D, upto: Lsn) -> Result<(), PageFault>
        ensures any_moment { (log R : List TheRecord) (m : ℕ) → HasPages D.meaning disk.old log m R self.old → upto ≤ length log → ReadBack self.old.shape (page_of self.old.shape R)
            → LeavesFolds D.meaning disk.old disk.new self.old.shape log m }
        ensures done { (log R : List TheRecord) (m : ℕ) → HasPages D.meaning disk.old log m R self.old → upto ≤ length log → ReadBack self.old.shape (page_of self.old.shape R)
            → OnOk result (HasPages D.meaning disk.new log m R self.new) }
        ensures files { (log R : List TheRecord) (m : ℕ) → HasPages D.meaning disk.old log m R self.old → upto ≤ length log → ReadBack self.old.shape (page_of self.old.shape R)
            → OnOk result (KeepsFiles D.meaning disk.old disk.new) }
        ensures room { OnOk result (self.new.dirty ≤ MOST_DIRTY) }
        ensures none { self.old.dirty ≤ MOST_DIRTY → IsOk result × (self.new ≡ self.old) × (disk.new ≡ disk.old) }
        ensures sound { (file : ℕ → List ℕ) (R : List TheRecord) → ShowsAfter file R self.old → length R ≤ upto → IfErr result IsSoundFault }
        ensures memory { IsErrOf result faults.NoMemory → (self.new ≡ self.old) × (disk.new ≡ disk.old) }
        ensures shape { self.new.shape ≡ self.old.shape }
        ensures log { LeavesLog D.meaning disk.old disk.new }
        ensures cause { Causes D.meaning disk.old disk.new (IsErrOf result faults.DeviceFault) }
        ensures told { D.meaning.told disk.new ↔ D.meaning.told disk.old }
        ensures reads { D.meaning.log_reads disk.new ≡ D.meaning.log_reads disk.old }
    {
        spare_in(&mut self.pool, &mut self.store, disk, upto)
    }
}
