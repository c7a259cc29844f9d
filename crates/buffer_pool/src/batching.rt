// The batch of dirty pages that are written next.
ghost use Rattle.std.specs.Prelude.{◌≡◌, ◌+◌, ◌≤◌, ◌∷◌, [], ℕ, List, true, length, map, min, nat_eq, IfOk, IsSome, OnErr, OnOk};
ghost use Rattle.std.specs.List.{All, IsDistinct};
ghost use Rattle.std.specs.List.Sorted.{IsPermutation, IsSorted};
ghost use Rattle.std.specs.Ordering.{nat_cmp};
ghost use Rattle.page_store.specs.Types.{after, blocks_of, is_batch};
ghost use Rattle.page_set.specs.declared.page.Page.{Page as ThePage};
ghost use Rattle.buffer_pool.specs.Frames.{frame_at, HasOnlyPages, IsDirty, Shows};
ghost use Rattle.buffer_pool.specs.Batches.{due_blocks, raw_page, AreDirtyUpTo, IsBatch, IsDueIn, ReadBack, Settled};

use crate::cache::{add_due, clean};
use crate::pool::BufferPool;
use page_set::encode;
use page_store::RawPage;
use seg_base::{BLOCK_SIZE, DOUBLE_WRITE_PAGES, Dba, Lsn, NoMemory, TXN_TABLE_BLOCK};

impl BufferPool {
    // The blocks of the frames that are due.
    fn all_due(&self, upto: Lsn) -> Result<Vec<u32>, NoMemory>
        ensures { IfOk result (λ numbers. numbers.items ≡ due_blocks upto self.now.held) }
    {
        let mut numbers = Vec::new(self.alloc);
        if self.first.is_due(upto) {
            numbers.push(TXN_TABLE_BLOCK)?;
        }
        add_due(&self.frames, upto, &mut numbers)?;
        Ok(numbers)
    }

    // The same, in rising order.
    fn due_numbers(&self, upto: Lsn) -> Result<Vec<u32>, NoMemory>
        ensures due { IfOk result (λ numbers. IsPermutation (due_blocks upto self.now.held) numbers.items) }
        ensures order { IfOk result (λ numbers. IsSorted nat_cmp numbers.items) }
        ensures apart { IfOk result (λ numbers. IsDistinct nat_eq numbers.items) }
        ensures each { IfOk result (λ numbers. All (λ d. IsDueIn upto (frame_at self.now.held d)) numbers.items) }
        ensures dirty { IfOk result (λ numbers. All (λ d. IsDirty (frame_at self.now.held d)) numbers.items) }
        ensures only { OnOk result (HasOnlyPages self.now.shape self.now.held) }
        ensures many { AreDirtyUpTo upto self.now.held → IfOk result (λ numbers. length numbers.items ≡ self.now.dirty) }
    {
        let _count = self.frames.len();
        let mut numbers = self.all_due(upto)?;
        numbers.sort()?;
        Ok(numbers)
    }

    // The page of a block's frame, as it is written.
    fn raw(&self, block: u32) -> RawPage
        requires { IsSome (frame_at self.now.held block) }
        ensures { result ≡ raw_page self.now.held block }
    {
        let dba = Dba(block);
        let mut bytes = [0; BLOCK_SIZE];
        encode(self.frame(dba), &mut bytes);
        RawPage { dba, bytes }
    }

    fn copy_all(&self, numbers: &[u32]) -> Result<Vec<RawPage>, NoMemory>
        requires { All (λ d. IsDirty (frame_at self.now.held d)) numbers.now }
        ensures { IfOk result (λ batch. batch.items ≡ map (raw_page self.now.held) numbers.now) }
    {
        let mut batch = Vec::new(self.alloc);
        for number in numbers {
            batch.push(self.raw(*number))?;
        }
        Ok(batch)
    }

    fn settle_first(&mut self)
        requires { IsDirty (frame_at self.old.held TXN_TABLE_BLOCK) }
        ensures settled { Settled (TXN_TABLE_BLOCK ∷ []) self.old.held self.new.held }
        ensures dirty { self.new.dirty + 1 ≡ self.old.dirty }
        ensures shape { self.new.shape ≡ self.old.shape }
    {
        self.first.dirty = false;
        self.dirty -= 1;
    }

    // The frame of a block is clean from now on.
    fn settle(&mut self, block: u32)
        requires { IsDirty (frame_at self.old.held block) }
        ensures settled { Settled (block ∷ []) self.old.held self.new.held }
        ensures dirty { self.new.dirty + 1 ≡ self.old.dirty }
        ensures shape { self.new.shape ≡ self.old.shape }
    {
        if block == TXN_TABLE_BLOCK {
            self.settle_first();
            return;
        }
        clean(&mut self.frames, block);
        self.dirty -= 1;
    }

    fn settle_all(&mut self, blocks: &[u32])
        requires apart { IsDistinct nat_eq blocks.now }
        requires dirty { All (λ d. IsDirty (frame_at self.old.held d)) blocks.now }
        ensures settled { Settled blocks.now self.old.held self.new.held }
        ensures dirty { self.new.dirty + length blocks.now ≡ self.old.dirty }
        ensures shape { self.new.shape ≡ self.old.shape }
    {
        for block in blocks {
            self.settle(*block);
        }
    }

    /// The dirty pages of least number, at most `most`, that no record after `upto` changed, as they are to be written.
    /// Their frames are clean then: once the batch is written, each block shows what it showed. After `NoMemory` the pool is
    /// as it was.
    pub fn take_batch(&mut self, most: u8, upto: Lsn) -> Result<Vec<RawPage>, NoMemory>
        ensures batch { IfOk result (λ batch. IsBatch most upto self.old.held batch.items) }
        ensures due { IfOk result (λ batch. All (λ d. IsDueIn upto (frame_at self.old.held d)) (blocks_of batch.items)) }
        ensures settled { IfOk result (λ batch. Settled (blocks_of batch.items) self.old.held self.new.held) }
        ensures dirty { IfOk result (λ batch. self.new.dirty + length batch.items ≡ self.old.dirty) }
        ensures many { AreDirtyUpTo upto self.old.held → IfOk result (λ batch. length batch.items ≡ min most self.old.dirty) }
        ensures writable { most ≤ DOUBLE_WRITE_PAGES → IfOk result (λ batch. 1 ≤ length batch.items → is_batch self.old.shape (blocks_of batch.items) ≡ true) }
        ensures shows { (pages : ℕ → List ℕ) (image : ℕ → ThePage) → Shows self.old.shape pages image self.old.held → ReadBack self.old.shape image
            → IfOk result (λ batch. Shows self.old.shape (after batch.items pages) image self.new.held) }
        ensures shape { self.new.shape ≡ self.old.shape }
        ensures err { OnErr result (self.new ≡ self.old) }
    {
        let mut numbers = self.due_numbers(upto)?;
        numbers.truncate(most as usize);
        let batch = self.copy_all(&numbers)?;
        self.settle_all(&numbers);
        Ok(batch)
    }
}
