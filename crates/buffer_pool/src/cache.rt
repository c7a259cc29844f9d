// The calls of a cache that the pool is made of, at any capacity.
ghost use Rattle.std.specs.Prelude.{◌≡◌, ◌⊎◌, ◌+◌, ◌<◌, ◌≤◌, ◌++◌, [], ◌∷◌, ℕ, List, None, true, false, IfErr, IfSome, IfNone, IsSome, IsOk, IsErrOf, is_some, OnOk, OnErr, length, nat_eq, if◌then◌else◌};
ghost use Rattle.std.specs.Map.{remove_entry, set_value};
ghost use Rattle.lru.specs.LruCache.{promoted};
ghost use Rattle.disk_model.specs.Types.{Causes, Untouched};
ghost use Rattle.page_store.specs.Types.{IsStore, Names};
ghost use Rattle.buffer_pool.specs.Frames.{frame_at, dirty_count, dirty_frame, clean_frame, has_page as is_page, IsClean, IsDirty, IsSpelled, IsWritten, Keeps, KeepsFrames, SameDirty};
ghost use Rattle.buffer_pool.specs.Reading.{IsFetching, IsSpelledIn};
ghost use Rattle.buffer_pool.specs.Batches.{due_blocks, Settled};
ghost use Rattle.buffer_pool.specs.Recent.{without_oldest, Brought, Gives};

use crate::frame::Frame;
use crate::reading::read_page;
use disk_model::Disk;
use lru::LruCache;
use page_set::Page;
use page_store::{PageFault, PageStore};
use seg_base::{Dba, Lsn, NoMemory};
use std::alloc::Global;

/// The block of the least recently used clean frame.
fn oldest_clean(frames: &LruCache<u32, Frame>) -> Option<u32>
    ensures clean { IfSome result (λ d. IsClean (frame_at frames.now.entries d)) }
    ensures oldest { IfSome result (λ d. remove_entry (nat_eq d) frames.now.entries ≡ without_oldest frames.now.entries) }
    ensures none { IfNone result (dirty_count frames.now.entries ≡ length frames.now.entries) }
{
    let _count = frames.len();
    for (&block, frame) in frames.iter().rev() {
        if !frame.dirty {
            return Some(block);
        }
    }
    None
}

/// Drops the least recently used clean frame.
fn drop_clean(frames: &mut LruCache<u32, Frame>)
    requires { dirty_count frames.old.entries < length frames.old.entries }
    ensures oldest { frames.new.entries ≡ without_oldest frames.old.entries }
    ensures length { length frames.new.entries + 1 ≡ length frames.old.entries }
    ensures dirty { dirty_count frames.new.entries ≡ dirty_count frames.old.entries }
    ensures cap { frames.new.cap ≡ frames.old.cap }
    ensures keeps { (pages : ℕ → List ℕ) → Keeps pages frames.old.entries frames.new.entries }
    ensures same_dirty { SameDirty frames.old.entries frames.new.entries }
    ensures absent { (d : ℕ) → frame_at frames.old.entries d ≡ None → frame_at frames.new.entries d ≡ None }
{
    let _count = frames.len();
    if let Some(block) = oldest_clean(frames) {
        drop(frames.pop(&block));
    }
}

/// Drops clean frames, the least recently used first, until so many more fit. Of fewer frames none is dropped.
#[tactic(auto, using(crate::proofs::Recency::gives_none))]
pub(crate) fn make_room(frames: &mut LruCache<u32, Frame>, more: usize)
    requires { dirty_count frames.old.entries + more ≤ frames.old.cap }
    ensures room { length frames.new.entries + more ≤ frames.new.cap }
    ensures gives { Gives more frames.old.cap frames.old.entries frames.new.entries }
    ensures cap { frames.new.cap ≡ frames.old.cap }
    ensures keeps { (pages : ℕ → List ℕ) → Keeps pages frames.old.entries frames.new.entries }
    ensures same_dirty { SameDirty frames.old.entries frames.new.entries }
    ensures absent { (d : ℕ) → frame_at frames.old.entries d ≡ None → frame_at frames.new.entries d ≡ None }
    ensures dirty { dirty_count frames.new.entries ≡ dirty_count frames.old.entries }
    ensures same { length frames.old.entries + more ≤ frames.old.cap → frames.new.entries ≡ frames.old.entries }
{
    let most = frames.cap().get() - more;
    while frames.len() > most {
        drop_clean(frames);
    }
}

/// Puts a page of the file into a frame of its own.
fn add(frames: &mut LruCache<u32, Frame>, block: u32, page: Page) -> Result<(), NoMemory>
    requires absent { frame_at frames.old.entries block ≡ None }
    requires room { length frames.old.entries < frames.old.cap }
    ensures entries { OnOk result (frames.new.entries ≡ (block, clean_frame page) ∷ frames.old.entries) }
    ensures err { OnErr result (frames.new ≡ frames.old) }
    ensures cap { frames.new.cap ≡ frames.old.cap }
{
    let frame = Frame { page, dirty: false };
    frames.put(block, frame)?;
    Ok(())
}

/// Changes the page of a block that has a frame, and says whether the frame was clean.
pub(crate) fn change(frames: &mut LruCache<u32, Frame>, block: u32, page: Page) -> bool
    ensures entries { frames.new.entries ≡ set_value (nat_eq block) frames.old.entries (dirty_frame page) }
    ensures cap { frames.new.cap ≡ frames.old.cap }
    ensures dirty { dirty_count frames.new.entries ≡ dirty_count frames.old.entries + (if result then 1 else 0) }
{
    match frames.peek_mut(&block) {
        Some(frame) => {
            let clean = !frame.dirty;
            *frame = Frame { page, dirty: true };
            clean
        }
        None => false,
    }
}

/// Makes a block's frame the most recently used, and says whether it has one.
fn promote(frames: &mut LruCache<u32, Frame>, block: u32) -> bool
    ensures value { result ≡ is_some (frame_at frames.old.entries block) }
    ensures moved { frames.new.entries ≡ promoted (nat_eq block) frames.old.entries }
    ensures same { (d : ℕ) → frame_at frames.new.entries d ≡ frame_at frames.old.entries d }
    ensures dirty { dirty_count frames.new.entries ≡ dirty_count frames.old.entries }
    ensures length { length frames.new.entries ≡ length frames.old.entries }
    ensures cap { frames.new.cap ≡ frames.old.cap }
{
    frames.promote(&block)
}

/// Puts a page that was read into a frame, as the most recently used. Where all frames are taken the least recently used
/// clean one is dropped.
fn take_in(frames: &mut LruCache<u32, Frame>, block: u32, page: Page) -> Result<(), NoMemory>
    requires absent { frame_at frames.old.entries block ≡ None }
    requires dirty { dirty_count frames.old.entries < frames.old.cap }
    ensures brought { OnOk result (Brought frames.old.cap block frames.old.entries frames.new.entries) }
    ensures gives { OnErr result (Gives 1 frames.old.cap frames.old.entries frames.new.entries) }
    ensures keeps { (pages : ℕ → List ℕ) → IsWritten block (pages block) page → Keeps pages frames.old.entries frames.new.entries }
    ensures same_dirty { SameDirty frames.old.entries frames.new.entries }
    ensures absent { (d : ℕ) → nat_eq d block ≡ false → frame_at frames.old.entries d ≡ None → frame_at frames.new.entries d ≡ None }
    ensures err { OnErr result (frame_at frames.new.entries block ≡ None) }
    ensures has { OnOk result (IsSome (frame_at frames.new.entries block)) }
    ensures dirty { dirty_count frames.new.entries ≡ dirty_count frames.old.entries }
    ensures length { length frames.old.entries < frames.old.cap → length frames.new.entries ≤ length frames.old.entries + 1 }
    ensures stays { length frames.old.entries < frames.old.cap → KeepsFrames frames.old.entries frames.new.entries }
    ensures cap { frames.new.cap ≡ frames.old.cap }
{
    make_room(frames, 1);
    match add(frames, block, page) {
        Ok(()) => Ok(()),
        Err(NoMemory) => Err(NoMemory),
    }
}

/// Brings the page of a block into a frame, as the most recently used. A block that has a frame is not read.
pub(crate) fn bring<D: Disk>(
    alloc: Global,
    frames: &mut LruCache<u32, Frame>,
    store: &mut PageStore,
    disk: &mut D,
    block: u32,
) -> Result<(), PageFault>
    requires { dirty_count frames.old.entries < frames.old.cap }
    ensures page { (pages : ℕ → List ℕ) → IsStore D.meaning disk.old store.old pages → IsFetching store.old block (IsSpelled block (pages block)) (frame_at frames.old.entries block) result }
    ensures found { D.meaning.told disk.old → IsFetching store.old block (IsSpelledIn block (D.meaning.files disk.old).data_bytes) (frame_at frames.old.entries block) result }
    ensures names { IfErr result (Names (λ b. b ≡ block)) }
    ensures hit { IsSome (frame_at frames.old.entries block) → disk.new ≡ disk.old }
    ensures moved { IsSome (frame_at frames.old.entries block) → frames.new.entries ≡ promoted (nat_eq block) frames.old.entries }
    ensures brought { frame_at frames.old.entries block ≡ None → OnOk result (Brought frames.old.cap block frames.old.entries frames.new.entries) }
    ensures gives { OnErr result (Gives 1 frames.old.cap frames.old.entries frames.new.entries) }
    ensures keeps { (pages : ℕ → List ℕ) → IsStore D.meaning disk.old store.old pages → Keeps pages frames.old.entries frames.new.entries }
    ensures same_dirty { SameDirty frames.old.entries frames.new.entries }
    ensures only { (d : ℕ) → IsSome (frame_at frames.new.entries d) → IsSome (frame_at frames.old.entries d) ⊎ ((d ≡ block) × (is_page store.old block ≡ true)) }
    ensures has { OnOk result (IsSome (frame_at frames.new.entries block)) }
    ensures dirty { dirty_count frames.new.entries ≡ dirty_count frames.old.entries }
    ensures length { length frames.old.entries < frames.old.cap → length frames.new.entries ≤ length frames.old.entries + 1 }
    ensures stays { length frames.old.entries < frames.old.cap → KeepsFrames frames.old.entries frames.new.entries }
    ensures cap { frames.new.cap ≡ frames.old.cap }
    ensures same { store.new ≡ store.old }
    ensures cause { Causes D.meaning disk.old disk.new (IsErrOf result PageFault.DeviceFault) }
    ensures untouched { Untouched D.meaning disk.old disk.new }
    ensures reads { D.meaning.told disk.old → D.meaning.log_reads disk.new ≡ D.meaning.log_reads disk.old }
{
    if promote(frames, block) {
        return Ok(());
    }
    let page = match read_page(alloc, store, disk, Dba(block)) {
        Ok(page) => page,
        Err(fault) => return Err(fault),
    };
    match take_in(frames, block, page) {
        Ok(()) => Ok(()),
        Err(NoMemory) => Err(PageFault::NoMemory),
    }
}

/// Adds the blocks of the frames that are due.
pub(crate) fn add_due(
    frames: &LruCache<u32, Frame>,
    upto: Lsn,
    numbers: &mut Vec<u32>,
) -> Result<(), NoMemory>
    ensures { OnOk result (numbers.new.items ≡ numbers.old.items ++ due_blocks upto frames.now.entries) }
{
    for (&block, frame) in frames.iter() {
        if frame.is_due(upto) {
            numbers.push(block)?;
        }
    }
    Ok(())
}

/// Marks a dirty frame as clean.
pub(crate) fn clean(frames: &mut LruCache<u32, Frame>, block: u32)
    requires { IsDirty (frame_at frames.old.entries block) }
    ensures settled { Settled (block ∷ []) frames.old.entries frames.new.entries }
    ensures dirty { dirty_count frames.new.entries + 1 ≡ dirty_count frames.old.entries }
    ensures cap { frames.new.cap ≡ frames.old.cap }
{
    if let Some(frame) = frames.peek_mut(&block) {
        frame.dirty = false;
    }
}
