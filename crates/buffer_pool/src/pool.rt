// A pool, and how pages come into its frames.
ghost use Rattle.std.specs.Prelude.{◌≡◌, ◌+◌, ◌≤◌, ◌∷◌, [], ℕ, List, None, true, IfErr, IfOk, IsSome, IsErrOf, OnErr, OnOk, length};
ghost use Rattle.seg_words.specs.Types.{TXN_TABLE_BLOCK};
ghost use Rattle.disk_model.specs.Types.{Causes, Untouched};
ghost use Rattle.page_store.specs.Types.{IsStore, Names};
ghost use Rattle.page_set.specs.declared.page.Page.{Page};
ghost use Rattle.buffer_pool.specs.Frames.{dirty_count, frame_at, has_page as is_page, in_file, page_over, HasOnlyPages, IsSpelled, Keeps, KeepsFrames, SameDirty, Shows};
ghost use Rattle.buffer_pool.specs.Batches.{AreDirtyUpTo};
ghost use Rattle.buffer_pool.specs.Looks.{Looks};
ghost use Rattle.buffer_pool.specs.Recent.{behind, Gives, Moves};
ghost use Rattle.buffer_pool.specs.Reading.{IsFetching, IsReading, IsSpelledIn};

use crate::cache::{bring, make_room};
use crate::frame::{FRAMES, Frame, MOST_DIRTY};
use crate::reading::read_page;
use disk_model::Disk;
use lru::LruCache;
use page_set::Page;
use page_store::{PageFault, PageStore};
use seg_base::{Dba, Shape, TXN_TABLE_BLOCK};
use std::alloc::Global;
use std::marker::Model;
use std::num::NonZeroUsize;

// The block of the transaction table, which has a frame of its own.
const TXN_TABLE: Dba = Dba(TXN_TABLE_BLOCK);

/// Pages of a data file in frames. The page of the transaction table has a frame of its own, which is never given away, so
/// that a commit needs none.
#[derive(Drop)]
pub struct BufferPool {
    pub(crate) alloc: Global,
    pub(crate) store: PageStore,
    pub(crate) first: Frame,
    pub(crate) frames: LruCache<u32, Frame>,
    pub(crate) dirty: u16,
}

impl Model for BufferPool {
    ghost use Rattle.std.specs.Prelude.{◌≡◌, ◌+◌, ◌∷◌, None};
    ghost use Rattle.seg_words.specs.Types.{TXN_TABLE_BLOCK};
    ghost use Rattle.buffer_pool.specs.declared.frame.TheConstants.{FRAMES};
    ghost use Rattle.buffer_pool.specs.Frames.{Pool, HasOnlyPages, dirty_count, frame_at, weight};

    ghost Value = { Pool };

    ghost view = { λ p. record { shape = p.store; held = (TXN_TABLE_BLOCK, p.first) ∷ p.frames.entries; dirty = p.dirty } };

    ghost invariant = { λ p. (p.dirty ≡ weight p.first + dirty_count p.frames.entries) × (p.frames.cap ≡ FRAMES) × (frame_at p.frames.entries TXN_TABLE_BLOCK ≡ None) × HasOnlyPages p.store ((TXN_TABLE_BLOCK, p.first) ∷ p.frames.entries) };
}

impl BufferPool {
    /// A pool over the data file of a store, in which no page is dirty. The page of the transaction table is read into its
    /// frame. `BadPage` comes exactly where its bytes spell no page of block 1, or the store has no such block.
    #[tactic(auto, using(crate::proofs::Fetches::only_first))]
    pub fn new<D: Disk>(
        alloc: Global,
        disk: &mut D,
        store: PageStore,
    ) -> Result<BufferPool, PageFault>
        ensures shows { (pages : ℕ → List ℕ) → IsStore D.meaning disk.old store pages → IsReading store TXN_TABLE_BLOCK (IsSpelled TXN_TABLE_BLOCK (pages TXN_TABLE_BLOCK)) (λ pool. Shows store pages (in_file pages) pool.held) result }
        ensures found { D.meaning.told disk.old → IsReading store TXN_TABLE_BLOCK (IsSpelledIn TXN_TABLE_BLOCK (D.meaning.files disk.old).data_bytes) (λ pool. pool.dirty ≡ 0) result }
        ensures shape { IfOk result (λ pool. pool.shape ≡ store) }
        ensures dirty { IfOk result (λ pool. pool.dirty ≡ 0) }
        ensures clean { IfOk result (λ pool. AreDirtyUpTo 0 pool.held) }
        ensures names { IfErr result (Names (λ b. b ≡ TXN_TABLE_BLOCK)) }
        ensures cause { Causes D.meaning disk.old disk.new (IsErrOf result PageFault.DeviceFault) }
        ensures untouched { Untouched D.meaning disk.old disk.new }
        ensures reads { D.meaning.told disk.old → D.meaning.log_reads disk.new ≡ D.meaning.log_reads disk.old }
    {
        let mut store = store;
        let page = match read_page(alloc, &mut store, disk, TXN_TABLE) {
            Ok(page) => page,
            Err(fault) => return Err(fault),
        };
        let frames = match LruCache::new(alloc, NonZeroUsize::new(FRAMES).unwrap()) {
            Ok(frames) => frames,
            Err(_) => return Err(PageFault::NoMemory),
        };
        Ok(BufferPool {
            alloc,
            store,
            first: Frame { page, dirty: false },
            frames,
            dirty: 0,
        })
    }

    pub fn shape(&self) -> Shape
        ensures { result ≡ self.now.shape }
    {
        self.store.shape()
    }

    /// How many pages are dirty: at most one more than there are frames beside that of the transaction table. No block has a frame
    /// that has no page.
    pub fn dirty(&self) -> u16
        ensures value { result ≡ self.now.dirty }
        ensures count { result ≡ dirty_count self.now.held }
        ensures most { result ≤ FRAMES + 1 }
        ensures only { HasOnlyPages self.now.shape self.now.held }
    {
        let _count = self.frames.len();
        self.dirty
    }

    /// The page of a block that has a frame, as after `fetch` of it.
    pub fn frame(&self, dba: Dba) -> &Page
        requires { IsSome (frame_at self.now.held dba) }
        ensures { (base : Page) → result.now ≡ page_over (frame_at self.now.held dba) base }
    {
        match self.frames.peek(&dba.0) {
            Some(frame) => &frame.page,
            // Block 1 alone has a frame that isn't among these.
            None => &self.first.page,
        }
    }

    /// The page of the transaction table, which always has a frame.
    pub fn table(&self) -> &Page
        ensures page { (base : Page) → result.now ≡ page_over (frame_at self.now.held TXN_TABLE_BLOCK) base }
        ensures has { IsSome (frame_at self.now.held TXN_TABLE_BLOCK) }
    {
        &self.first.page
    }

    /// Brings the page of a block into a frame, as the most recently used; `frame` then lends it. A block that has a frame
    /// costs nothing, another one read. Where all frames are taken, the least recently used clean one is dropped: dirty ones
    /// stay, and what each block shows stays, also after an `Err`. `BadPage` comes exactly where the block has no page, or
    /// its bytes in the file spell none.
    pub fn fetch<D: Disk>(&mut self, disk: &mut D, dba: Dba) -> Result<(), PageFault>
        requires { self.old.dirty ≤ MOST_DIRTY }
        ensures looks { Looks D.meaning disk.old disk.new self.old self.new }
        ensures page { (pages : ℕ → List ℕ) → IsStore D.meaning disk.old self.old.shape pages → IsFetching self.old.shape dba (IsSpelled dba (pages dba)) (frame_at self.old.held dba) result }
        ensures found { D.meaning.told disk.old → IsFetching self.old.shape dba (IsSpelledIn dba (D.meaning.files disk.old).data_bytes) (frame_at self.old.held dba) result }
        ensures names { IfErr result (Names (λ b. b ≡ dba)) }
        ensures hit { IsSome (frame_at self.old.held dba) → disk.new ≡ disk.old }
        ensures has { OnOk result (IsSome (frame_at self.new.held dba)) }
        ensures there { OnOk result (is_page self.old.shape dba ≡ true) }
        ensures moves { OnOk result (Moves dba self.old.held self.new.held) }
        ensures gives { OnErr result (Gives 1 FRAMES (behind self.old.held) (behind self.new.held)) }
        // While there is room no frame is dropped.
        ensures stays { length self.old.held ≤ FRAMES → KeepsFrames self.old.held self.new.held }
        ensures length { length self.old.held ≤ FRAMES → length self.new.held ≤ length self.old.held + 1 }
        ensures cause { Causes D.meaning disk.old disk.new (IsErrOf result PageFault.DeviceFault) }
    {
        let _first = &self.first;
        let block = dba.0;
        if block == TXN_TABLE_BLOCK {
            return Ok(());
        }
        bring(self.alloc, &mut self.frames, &mut self.store, disk, block)
    }

    /// Drops clean frames until so many more fit.
    pub(crate) fn reserve(&mut self, more: usize)
        requires { self.old.dirty + more ≤ FRAMES }
        ensures room { length self.new.held + more ≤ FRAMES + 1 }
        ensures keeps { (pages : ℕ → List ℕ) → Keeps pages self.old.held self.new.held }
        ensures same_dirty { SameDirty self.old.held self.new.held }
        ensures dirty { self.new.dirty ≡ self.old.dirty }
        ensures shape { self.new.shape ≡ self.old.shape }
    {
        make_room(&mut self.frames, more);
    }
}
