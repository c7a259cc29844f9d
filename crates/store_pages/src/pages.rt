// The pages of a store: how they are lent and changed.
ghost use Rattle.std.specs.Prelude.{◌≡◌, ◌≤◌, ◌<◌, ◌-◌, ◌^◌, ◌∷◌, ℕ, List, suc, length, true, false, nat_lt, IfErr, IfOk, IsErrOf, IsOk, IsSome, OnErr, OnOk};
ghost use Rattle.seg_words.specs.Types.{TXN_TABLE_BLOCK};
ghost use Rattle.disk_model.specs.Types.{Causes};
ghost use Rattle.redo_record.specs.declared.record.Record.{Record as TheRecord};
ghost use Rattle.redo_record.specs.declared.record.Record.TheVariants.{Commit};
ghost use Rattle.page_store.specs.declared.fault.PageFault.TheVariants as faults;
ghost use Rattle.page_set.specs.Changes.{Fits};
ghost use Rattle.page_set.specs.Folded.{page_of};
ghost use Rattle.buffer_pool.specs.Frames.{dirty_count, frame_at, has_page as is_page};
ghost use Rattle.buffer_pool.specs.Looks.{Looks};
ghost use Rattle.buffer_pool.specs.Preparing.{HaveFrames, Leads};
ghost use Rattle.store_pages.specs.Pages.{HasPages, IsFetched, ShowsAfter};
ghost use Rattle.store_pages.specs.Fitting.{AreBothFit, FitsAll, WhyNotAdded, WhyNotBoth, WhyNotFetched};

use buffer_pool::{BufferPool, Changed, MOST_DIRTY, has_page};
use disk_model::Disk;
use page_set::Page;
use page_store::{PageFault, PageStore};
use redo_record::{CommitRecord, Record};
use seg_base::{Dba, Lsn, Shape, TXN_ENTRIES, TXN_TABLE_BLOCK};
use std::marker::Model;

// The block of the transaction table.
const TXN_TABLE: Dba = Dba(TXN_TABLE_BLOCK);

/// The pages of a store, seen as the frames that they stand in.
#[derive(Drop)]
pub struct StorePages {
    pub(crate) store: PageStore,
    pub(crate) pool: BufferPool,
}

impl Model for StorePages {
    ghost use Rattle.std.specs.Prelude.{◌≡◌};
    ghost use Rattle.buffer_pool.specs.Frames.{Pool};

    ghost Value = { Pool };

    ghost view = { λ p. p.pool };

    ghost invariant = { λ p. p.store ≡ p.pool.shape };
}

// Whether a Commit fits on a page.
fn takes_commit(page: &Page, c: &CommitRecord) -> bool
    ensures fits { result ≡ true → (lsn : ℕ) → Fits (Commit c.now) lsn page.now }
    ensures misfit { result ≡ false → (lsn : ℕ) → Fits (Commit c.now) lsn page.now → ⊥ }
{
    match page {
        Page::Txns(_) => c.entry < TXN_ENTRIES,
        _ => false,
    }
}

impl StorePages {
    pub fn shape(&self) -> Shape
        ensures { result ≡ self.now.shape }
    {
        self.pool.shape()
    }

    /// How many pages are dirty.
    pub fn dirty(&self) -> u16
        ensures value { result ≡ self.now.dirty }
        ensures count { result ≡ dirty_count self.now.held }
    {
        self.pool.dirty()
    }

    /// Whether more pages are dirty than may be before one is fetched or changed.
    pub fn is_over(&self) -> bool
        ensures { result ≡ nat_lt MOST_DIRTY self.now.dirty }
    {
        self.pool.dirty() > MOST_DIRTY
    }

    /// Brings the page of a block into a frame, from which `frame` lends it. One that is there costs nothing, another one read.
    /// What each block shows stays, also after an `Err`. `BadPage` comes exactly where the block has no page.
    pub fn fetch<D: Disk>(&mut self, disk: &mut D, dba: Dba) -> Result<(), PageFault>
        requires { self.old.dirty ≤ MOST_DIRTY }
        ensures looks { Looks D.meaning disk.old disk.new self.old self.new }
        ensures stays { (log R : List TheRecord) (m : ℕ) → HasPages D.meaning disk.old log m R self.old → HasPages D.meaning disk.new log m R self.new }
        ensures fetched { OnOk result (IsFetched dba self.new) }
        ensures why { (log R : List TheRecord) (m : ℕ) → HasPages D.meaning disk.old log m R self.old → IfErr result (WhyNotFetched self.old.shape dba) }
        ensures none { is_page self.old.shape dba ≡ false → IsErrOf result (faults.BadPage dba) }
        ensures hit { IsSome (frame_at self.old.held dba) → disk.new ≡ disk.old }
        ensures cause { Causes D.meaning disk.old disk.new (IsErrOf result faults.DeviceFault) }
    {
        if !has_page(&self.pool.shape(), dba) {
            return Err(PageFault::BadPage { dba });
        }
        self.pool.fetch(disk, dba)
    }

    /// The page of a block that was fetched, with no call since that isn't one by `&`.
    pub fn frame(&self, dba: Dba) -> &Page
        requires { IsFetched dba self.now }
        ensures { (file : ℕ → List ℕ) (R : List TheRecord) → ShowsAfter file R self.now → result.now ≡ page_of self.now.shape R dba }
    {
        self.pool.frame(dba)
    }

    /// The page of the transaction table, which always has a frame.
    pub fn table(&self) -> &Page
        ensures page { (file : ℕ → List ℕ) (R : List TheRecord) → ShowsAfter file R self.now → result.now ≡ page_of self.now.shape R TXN_TABLE_BLOCK }
        ensures fetched { IsFetched TXN_TABLE_BLOCK self.now }
    {
        let _count = self.pool.dirty();
        self.pool.table()
    }

    /// The pages that a record changes, changed. No page changes yet, and each that will has a frame. `BadPage` names a block that
    /// the record touches and that has no page, or on whose page it doesn't fit.
    pub fn prepare<D: Disk>(
        &mut self,
        disk: &mut D,
        rec: &Record,
        lsn: Lsn,
    ) -> Result<Changed, PageFault>
        requires { self.old.dirty ≤ MOST_DIRTY }
        ensures looks { Looks D.meaning disk.old disk.new self.old self.new }
        ensures stays { (log R : List TheRecord) (m : ℕ) → HasPages D.meaning disk.old log m R self.old → HasPages D.meaning disk.new log m R self.new }
        ensures frames { IfOk result (λ changed. HaveFrames changed self.new.held) }
        ensures leads { (log R : List TheRecord) (m : ℕ) → HasPages D.meaning disk.old log m R self.old → lsn ≡ suc (length R) → IfOk result (Leads self.old.shape R (rec.now ∷ R)) }
        ensures all_fit { (log R : List TheRecord) (m : ℕ) → HasPages D.meaning disk.old log m R self.old → lsn ≡ suc (length R) → OnOk result (FitsAll self.old.shape R rec.now) }
        ensures unfit { (log R : List TheRecord) (m : ℕ) → HasPages D.meaning disk.old log m R self.old → lsn ≡ suc (length R) → IfErr result (WhyNotAdded self.old.shape R rec.now) }
        ensures cause { Causes D.meaning disk.old disk.new (IsErrOf result faults.DeviceFault) }
    {
        self.pool.prepare(disk, rec, None, lsn)
    }

    /// The pages that two records change, changed by the first and then by the second. `BadPage` names a block that one of them
    /// touches and that has no page, or on whose page not both fit that touch it.
    pub fn prepare_two<D: Disk>(
        &mut self,
        disk: &mut D,
        first: &Record,
        second: &Record,
        lsn: Lsn,
    ) -> Result<Changed, PageFault>
        requires dirty { self.old.dirty ≤ MOST_DIRTY }
        requires number { lsn < 2 ^ 64 - 1 }
        ensures looks { Looks D.meaning disk.old disk.new self.old self.new }
        ensures stays { (log R : List TheRecord) (m : ℕ) → HasPages D.meaning disk.old log m R self.old → HasPages D.meaning disk.new log m R self.new }
        ensures frames { IfOk result (λ changed. HaveFrames changed self.new.held) }
        ensures leads { (log R : List TheRecord) (m : ℕ) → HasPages D.meaning disk.old log m R self.old → lsn ≡ suc (length R) → IfOk result (Leads self.old.shape R (second.now ∷ first.now ∷ R)) }
        ensures all_fit { (log R : List TheRecord) (m : ℕ) → HasPages D.meaning disk.old log m R self.old → lsn ≡ suc (length R) → OnOk result (AreBothFit self.old.shape R first.now second.now) }
        ensures unfit { (log R : List TheRecord) (m : ℕ) → HasPages D.meaning disk.old log m R self.old → lsn ≡ suc (length R) → IfErr result (WhyNotBoth self.old.shape R first.now second.now) }
        ensures cause { Causes D.meaning disk.old disk.new (IsErrOf result faults.DeviceFault) }
    {
        self.pool.prepare(disk, first, Some(second), lsn)
    }

    /// Puts in what the last `prepare` or `prepare_two` made, with no call between. It takes no memory.
    pub fn install(&mut self, changed: Changed)
        requires { HaveFrames changed self.old.held }
        ensures leads { (file : ℕ → List ℕ) (R Q : List TheRecord) → ShowsAfter file R self.old → Leads self.old.shape R Q changed → ShowsAfter file Q self.new }
        ensures shape { self.new.shape ≡ self.old.shape }
    {
        self.pool.install(changed);
    }

    /// A Commit put into the page of the transaction table, which takes no memory. `BadPage` of that block comes exactly where it
    /// doesn't fit there.
    pub fn commit(&mut self, c: CommitRecord, lsn: Lsn) -> Result<(), PageFault>
        ensures leads { (file : ℕ → List ℕ) (R : List TheRecord) → ShowsAfter file R self.old → lsn ≡ suc (length R) → OnOk result (ShowsAfter file (Commit c ∷ R) self.new) }
        ensures kept { OnErr result (self.new ≡ self.old) }
        ensures fits { (file : ℕ → List ℕ) (R : List TheRecord) → ShowsAfter file R self.old → Fits (Commit c) lsn (page_of self.old.shape R TXN_TABLE_BLOCK) → IsOk result }
        ensures misfit { (file : ℕ → List ℕ) (R : List TheRecord) → ShowsAfter file R self.old → OnOk result (Fits (Commit c) lsn (page_of self.old.shape R TXN_TABLE_BLOCK)) }
        ensures only { IfErr result (λ e. e ≡ faults.BadPage TXN_TABLE_BLOCK) }
        ensures shape { self.new.shape ≡ self.old.shape }
    {
        if !takes_commit(self.table(), &c) {
            return Err(PageFault::BadPage { dba: TXN_TABLE });
        }
        self.pool.change_commit(&Record::Commit(c), lsn);
        Ok(())
    }
}
