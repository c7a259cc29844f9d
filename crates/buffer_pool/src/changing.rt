// Changes of pages by redo records: made beside the frames first, and put in once the records stand in the log.
ghost use Rattle.std.specs.Prelude.{◌≡◌, ◌+◌, ◌-◌, ◌^◌, ◌<◌, ◌≤◌, ◌++◌, ◌∷◌, [], ℕ, List, None, Some, true, false, suc, length, cond, if◌then◌else◌, option_copied, IfOk, IfErr, IsSome, IsErrOf, OnOk};
ghost use Rattle.seg_words.specs.Types.{TXN_TABLE_BLOCK};
ghost use Rattle.disk_model.specs.Types.{Causes};
ghost use Rattle.redo_record.specs.declared.record.Record.{Record as TheRecord};
ghost use Rattle.redo_record.specs.declared.record.Record.TheVariants.{Commit};
ghost use Rattle.redo_record.specs.declared.transaction.CommitRecord.{CommitRecord as TheCommit};
ghost use Rattle.page_store.specs.Types.{IsStore, Names};
ghost use Rattle.page_set.specs.declared.page.Page.{Page as ThePage};
ghost use Rattle.page_set.specs.Changes.{changed_page, Fits};
ghost use Rattle.page_set.specs.Among.{is_among};
ghost use Rattle.page_set.specs.Folded.{touched_once};
ghost use Rattle.buffer_pool.specs.Frames.{dirty_frame, frame_at, framed, weight, HasPages, KeepsFrames, Shows};
ghost use Rattle.buffer_pool.specs.Looks.{Looks};
ghost use Rattle.buffer_pool.specs.Reading.{WhyNotFetched};
ghost use Rattle.buffer_pool.specs.Preparing.{any_touches, changed_at, made, redone_all, with_records, AreFramed, HaveFrames, Installed, IsPreparing, Leads, LeadsTo};

use crate::cache::change;
use crate::changed::{Changed, NewPage};
use crate::frame::{FRAMES, Frame, MOST_DIRTY, MOST_TOUCHED};
use crate::making::{made_one, made_two, touched, touched_two};
use crate::pool::BufferPool;
use disk_model::Disk;
use page_set::{Page, commit_in_place};
use page_store::PageFault;
use redo_record::{CommitRecord, Record};
use seg_base::{Dba, Lsn, TXN_TABLE_BLOCK};

// One more where a clean page was changed.
fn raised(dirty: u16, clean: bool) -> u16
    requires { dirty < 1000 }
    ensures { result ≡ dirty + (if clean then 1 else 0) }
{
    if clean { dirty + 1 } else { dirty }
}

// A Commit put into a frame where it fits on its page, and whether the frame was clean before and isn't now.
fn commit_in(frame: &mut Frame, c: CommitRecord, lsn: Lsn) -> bool
    ensures changed { Fits (Commit c) lsn frame.old.page → frame.new ≡ dirty_frame (changed_page (Commit c) lsn frame.old.page) }
    ensures kept { (Fits (Commit c) lsn frame.old.page → ⊥) → (frame.new ≡ frame.old) × (result ≡ false) }
    ensures weight { weight frame.new ≡ weight frame.old + (if result then 1 else 0) }
{
    let clean = !frame.dirty;
    match commit_in_place(&mut frame.page, c, lsn) {
        Ok(()) => {
            frame.dirty = true;
            clean
        }
        Err(_) => false,
    }
}

impl BufferPool {
    // Brings the pages of these blocks into frames, where there is room for all.
    fn fetch_all<D: Disk>(&mut self, disk: &mut D, blocks: &[Dba]) -> Result<(), PageFault>
        requires dirty { self.old.dirty ≤ MOST_DIRTY }
        requires room { length self.old.held + length blocks.now ≤ FRAMES + 1 }
        ensures looks { Looks D.meaning disk.old disk.new self.old self.new }
        ensures has { OnOk result (AreFramed self.old.shape blocks.now self.new.held) }
        ensures stays { KeepsFrames self.old.held self.new.held }
        ensures why { (pages : ℕ → List ℕ) → IsStore D.meaning disk.old self.old.shape pages → IfErr result (WhyNotFetched self.old.shape pages self.old.held blocks.now) }
        ensures names { IfErr result (Names (λ b. is_among blocks.now b ≡ true)) }
        ensures cause { Causes D.meaning disk.old disk.new (IsErrOf result PageFault.DeviceFault) }
    {
        match blocks {
            [] => Ok(()),
            [block, rest @ ..] => {
                match self.fetch(disk, *block) {
                    Ok(()) => {}
                    Err(fault) => return Err(fault),
                }
                match self.fetch_all(disk, rest) {
                    Ok(()) => Ok(()),
                    Err(fault) => Err(fault),
                }
            }
        }
    }

    // Brings the pages of these blocks into frames, so that each has one when the last is there.
    fn gather<D: Disk>(&mut self, disk: &mut D, blocks: &[Dba]) -> Result<(), PageFault>
        requires dirty { self.old.dirty ≤ MOST_DIRTY }
        requires few { length blocks.now ≤ MOST_TOUCHED }
        ensures looks { Looks D.meaning disk.old disk.new self.old self.new }
        ensures has { OnOk result (AreFramed self.old.shape blocks.now self.new.held) }
        ensures why { (pages : ℕ → List ℕ) → IsStore D.meaning disk.old self.old.shape pages → IfErr result (WhyNotFetched self.old.shape pages self.old.held blocks.now) }
        ensures names { IfErr result (Names (λ b. is_among blocks.now b ≡ true)) }
        ensures cause { Causes D.meaning disk.old disk.new (IsErrOf result PageFault.DeviceFault) }
    {
        self.reserve(blocks.len());
        match self.fetch_all(disk, blocks) {
            Ok(()) => Ok(()),
            Err(fault) => Err(fault),
        }
    }

    fn prepare_one<D: Disk>(
        &mut self,
        disk: &mut D,
        rec: &Record,
        lsn: Lsn,
    ) -> Result<Changed, PageFault>
        requires { self.old.dirty ≤ MOST_DIRTY }
        ensures looks { Looks D.meaning disk.old disk.new self.old self.new }
        ensures frames { IfOk result (λ changed. HaveFrames changed self.new.held) }
        ensures applies { (pages : ℕ → List ℕ) (image : ℕ → ThePage) → IsStore D.meaning disk.old self.old.shape pages → Shows self.old.shape pages image self.old.held
            → IfOk result (LeadsTo self.old.shape image (redone_all self.old.shape rec.now None lsn image)) }
        ensures leads { (pages : ℕ → List ℕ) (R : List TheRecord) → IsStore D.meaning disk.old self.old.shape pages → HasPages self.old.shape pages R self.old.held → lsn ≡ suc (length R)
            → IfOk result (Leads self.old.shape R (with_records rec.now None R)) }
        ensures answers { (pages : ℕ → List ℕ) (image : ℕ → ThePage) → IsStore D.meaning disk.old self.old.shape pages → Shows self.old.shape pages image self.old.held
            → IsPreparing self.old.shape rec.now None lsn pages self.old.held image result }
        ensures made { IfOk result (λ changed. changed ≡ made rec.now lsn [] self.new.held (touched_once self.old.shape rec.now)) }
        ensures names { IfErr result (Names (λ b. any_touches self.old.shape rec.now None b ≡ true)) }
        ensures cause { Causes D.meaning disk.old disk.new (IsErrOf result PageFault.DeviceFault) }
    {
        let shape = self.shape();
        let blocks = match touched(self.alloc, rec, &shape) {
            Ok(blocks) => blocks,
            Err(fault) => return Err(fault),
        };
        match self.gather(disk, &blocks) {
            Ok(()) => {}
            Err(fault) => return Err(fault),
        }
        match made_one(self.alloc, self, rec, lsn, &blocks) {
            Ok(changed) => Ok(changed),
            Err(fault) => Err(fault),
        }
    }

    fn prepare_two<D: Disk>(
        &mut self,
        disk: &mut D,
        first: &Record,
        second: &Record,
        lsn: Lsn,
    ) -> Result<Changed, PageFault>
        requires dirty { self.old.dirty ≤ MOST_DIRTY }
        requires number { lsn < 2 ^ 64 - 1 }
        ensures looks { Looks D.meaning disk.old disk.new self.old self.new }
        ensures frames { IfOk result (λ changed. HaveFrames changed self.new.held) }
        ensures applies { (pages : ℕ → List ℕ) (image : ℕ → ThePage) → IsStore D.meaning disk.old self.old.shape pages → Shows self.old.shape pages image self.old.held
            → IfOk result (LeadsTo self.old.shape image (redone_all self.old.shape first.now (Some second.now) lsn image)) }
        ensures leads { (pages : ℕ → List ℕ) (R : List TheRecord) → IsStore D.meaning disk.old self.old.shape pages → HasPages self.old.shape pages R self.old.held → lsn ≡ suc (length R)
            → IfOk result (Leads self.old.shape R (with_records first.now (Some second.now) R)) }
        ensures answers { (pages : ℕ → List ℕ) (image : ℕ → ThePage) → IsStore D.meaning disk.old self.old.shape pages → Shows self.old.shape pages image self.old.held
            → IsPreparing self.old.shape first.now (Some second.now) lsn pages self.old.held image result }
        ensures names { IfErr result (Names (λ b. any_touches self.old.shape first.now (Some second.now) b ≡ true)) }
        ensures cause { Causes D.meaning disk.old disk.new (IsErrOf result PageFault.DeviceFault) }
    {
        let shape = self.shape();
        let blocks = match touched_two(self.alloc, first, second, &shape) {
            Ok(blocks) => blocks,
            Err(fault) => return Err(fault),
        };
        match self.gather(disk, &blocks.all) {
            Ok(()) => {}
            Err(fault) => return Err(fault),
        }
        match made_two(self.alloc, self, first, second, lsn, &blocks) {
            Ok(changed) => Ok(changed),
            Err(fault) => Err(fault),
        }
    }

    /// The pages that a record changes, or two, one after the other: those of the blocks that they touch whose LSN is less
    /// than the record's, which is `lsn` for the first. No page changes, and each that will has a frame. `BadPage` names a
    /// touched block that has no page, or whose bytes in the file spell none, or on whose page a record doesn't fit. A
    /// record that touches more blocks than any that can be written is refused by `NoMemory`.
    pub fn prepare<D: Disk>(
        &mut self,
        disk: &mut D,
        first: &Record,
        second: Option<&Record>,
        lsn: Lsn,
    ) -> Result<Changed, PageFault>
        requires dirty { self.old.dirty ≤ MOST_DIRTY }
        requires number { IsSome (option_copied second) → lsn < 2 ^ 64 - 1 }
        ensures looks { Looks D.meaning disk.old disk.new self.old self.new }
        ensures frames { IfOk result (λ changed. HaveFrames changed self.new.held) }
        ensures applies { (pages : ℕ → List ℕ) (image : ℕ → ThePage) → IsStore D.meaning disk.old self.old.shape pages → Shows self.old.shape pages image self.old.held
            → IfOk result (LeadsTo self.old.shape image (redone_all self.old.shape first.now (option_copied second.entry) lsn image)) }
        ensures leads { (pages : ℕ → List ℕ) (R : List TheRecord) → IsStore D.meaning disk.old self.old.shape pages → HasPages self.old.shape pages R self.old.held → lsn ≡ suc (length R)
            → IfOk result (Leads self.old.shape R (with_records first.now (option_copied second.entry) R)) }
        ensures answers { (pages : ℕ → List ℕ) (image : ℕ → ThePage) → IsStore D.meaning disk.old self.old.shape pages → Shows self.old.shape pages image self.old.held
            → IsPreparing self.old.shape first.now (option_copied second.entry) lsn pages self.old.held image result }
        ensures made { option_copied second.entry ≡ None → IfOk result (λ changed. changed ≡ made first.now lsn [] self.new.held (touched_once self.old.shape first.now)) }
        ensures names { IfErr result (Names (λ b. any_touches self.old.shape first.now (option_copied second.entry) b ≡ true)) }
        ensures cause { Causes D.meaning disk.old disk.new (IsErrOf result PageFault.DeviceFault) }
    {
        match second {
            None => self.prepare_one(disk, first, lsn),
            Some(second) => self.prepare_two(disk, first, second, lsn),
        }
    }

    // Puts a page into the frame of block 1.
    fn put_first(&mut self, page: Page)
        ensures installed { Installed (record { dba = TXN_TABLE_BLOCK; page = page } ∷ []) self.old.held self.new.held }
        ensures shape { self.new.shape ≡ self.old.shape }
    {
        let _count = self.frames.len();
        let clean = !self.first.dirty;
        self.first = Frame { page, dirty: true };
        self.dirty = raised(self.dirty, clean);
    }

    // Puts a page into the frame of its block.
    fn put_in(&mut self, block: u32, page: Page)
        requires { IsSome (frame_at self.old.held block) }
        ensures installed { Installed (record { dba = block; page = page } ∷ []) self.old.held self.new.held }
        ensures shape { self.new.shape ≡ self.old.shape }
    {
        if block == TXN_TABLE_BLOCK {
            self.put_first(page);
            return;
        }
        let _count = self.frames.len();
        let clean = change(&mut self.frames, block, page);
        self.dirty = raised(self.dirty, clean);
    }

    fn put_new(&mut self, new: NewPage)
        requires { IsSome (frame_at self.old.held new.dba) }
        ensures installed { Installed (new ∷ []) self.old.held self.new.held }
        ensures shape { self.new.shape ≡ self.old.shape }
    {
        let NewPage { dba, page } = new;
        self.put_in(dba.0, page);
    }

    #[tactic(auto, using(crate::proofs::Installs::begun, crate::proofs::Installs::further, crate::proofs::Installs::finished))]
    fn put_all(&mut self, pages: Vec<NewPage>)
        requires { HaveFrames pages.items self.old.held }
        ensures installed { Installed pages.items self.old.held self.new.held }
        ensures shape { self.new.shape ≡ self.old.shape }
    {
        for new in pages {
            self.put_new(new);
        }
    }

    /// Puts in what the last `prepare` made, with no call between. Each of these pages is dirty then, and each other frame is
    /// as it was. It takes no memory.
    pub fn install(&mut self, changed: Changed)
        requires { HaveFrames changed self.old.held }
        ensures installed { Installed changed self.old.held self.new.held }
        ensures shows { (pages : ℕ → List ℕ) (image image2 : ℕ → ThePage) → Shows self.old.shape pages image self.old.held → LeadsTo self.old.shape image image2 changed → Shows self.old.shape pages image2 self.new.held }
        ensures shape { self.new.shape ≡ self.old.shape }
    {
        self.put_all(changed.pages);
    }

    fn commit(&mut self, c: CommitRecord, lsn: Lsn)
        ensures changed { Fits (Commit c) lsn (framed self.old.held TXN_TABLE_BLOCK) → Installed (record { dba = TXN_TABLE_BLOCK; page = changed_page (Commit c) lsn (framed self.old.held TXN_TABLE_BLOCK) } ∷ []) self.old.held self.new.held }
        ensures shows { (pages : ℕ → List ℕ) (image : ℕ → ThePage) → Fits (Commit c) lsn (image TXN_TABLE_BLOCK) → Shows self.old.shape pages image self.old.held
            → Shows self.old.shape pages (changed_at self.old.shape (Commit c) lsn image) self.new.held }
        ensures kept { (Fits (Commit c) lsn (framed self.old.held TXN_TABLE_BLOCK) → ⊥) → self.new ≡ self.old }
        ensures shape { self.new.shape ≡ self.old.shape }
    {
        let _count = self.frames.len();
        let rose = commit_in(&mut self.first, c, lsn);
        self.dirty = raised(self.dirty, rose);
    }

    /// A Commit put into the page of the transaction table, which takes no memory. The record's LSN is `lsn`. A record of
    /// another kind, and a Commit that doesn't fit on the page, leave the pool as it was.
    pub fn change_commit(&mut self, rec: &Record, lsn: Lsn)
        ensures changed { (c : TheCommit) → rec.now ≡ Commit c → Fits (Commit c) lsn (framed self.old.held TXN_TABLE_BLOCK)
            → Installed (record { dba = TXN_TABLE_BLOCK; page = changed_page (Commit c) lsn (framed self.old.held TXN_TABLE_BLOCK) } ∷ []) self.old.held self.new.held }
        ensures shows { (pages : ℕ → List ℕ) (image : ℕ → ThePage) (c : TheCommit) → rec.now ≡ Commit c → Fits (Commit c) lsn (image TXN_TABLE_BLOCK) → Shows self.old.shape pages image self.old.held
            → Shows self.old.shape pages (changed_at self.old.shape (Commit c) lsn image) self.new.held }
        ensures kept { ((c : TheCommit) → rec.now ≡ Commit c → Fits (Commit c) lsn (framed self.old.held TXN_TABLE_BLOCK) → ⊥) → self.new ≡ self.old }
        ensures shape { self.new.shape ≡ self.old.shape }
    {
        match rec {
            Record::Commit(c) => self.commit(*c, lsn),
            _ => {}
        }
    }
}
