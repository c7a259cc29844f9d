// What comes back from the file, and how many reads it takes.
ghost use Rattle.std.specs.Prelude.{◌≡◌, ◌<◌, ◌≤◌, IfOk};
ghost use Rattle.buffer_pool.specs.Frames.{dirty_count};

use crate::BufferPool;
use crate::cache::{bring, change};
use crate::frame::{Frame, MOST_DIRTY};
use disk_model::{Disk, Memory};
use lru::LruCache;
use page_set::{Page, lsn_of};
use page_store::{PageStore, open};
use redo_record::{BeginRecord, CommitRecord, Record, ReuseRecord, decode};
use seg_base::{Dba, Lsn, Scn, Shape, TxnId};
use std::alloc::Global;
use std::num::NonZeroUsize;
use std::process::Abort;
use std::test::Fail;

static SHAPE: Shape = Shape {
    blocks: 64,
    extent: 8,
    undo: 2,
};

// More undo blocks than there are frames.
static WIDE: Shape = Shape {
    blocks: 400,
    extent: 8,
    undo: 300,
};

// A table and its first extent: the catalogue, the space bitmap, the three levels and the header.
static TABLE: &[u8] = &[1, 1, 0, 0, 0, 42, 10, 1, 116];

static EXTEND: &[u8] = &[
    3, 1, 0, 0, 0, 42, 0, 0, 0, 0, 0, 0, 0, 0, 0, 40, 0, 0, 0, 41,
];

// A data file of zeros.
fn zeros(alloc: Global, blocks: usize) -> Result<Memory, Fail>
    requires { blocks ≤ 400 }
{
    let bytes = vec![in alloc; 0u8; blocks * 4_096]?;
    Ok(Memory::new(alloc, &bytes, b"", &[])?)
}

// How many calls on the disk it takes to bring a block into one of a few frames.
fn calls<D: Disk>(
    alloc: Global,
    frames: &mut LruCache<u32, Frame>,
    disk: &mut D,
    block: u32,
) -> Result<u64, Fail>
    requires { dirty_count frames.old.entries < frames.old.cap }
    ensures dirty { dirty_count frames.new.entries ≡ dirty_count frames.old.entries }
    ensures cap { frames.new.cap ≡ frames.old.cap }
{
    let mut store = open(disk, SHAPE)?;
    let before = disk.moment();
    bring(alloc, frames, &mut store, disk, block)?;
    Ok(disk.moment().saturating_sub(before))
}

// Two frames, of which the least recently used clean one is given away.
#[test]
fn dropped_pages_are_read_again_and_dirty_ones_stay(rt: HostRuntime) -> Result<(), Fail> {
    let alloc = rt.alloc();
    let mut disk = zeros(alloc, 64)?;
    let mut frames = LruCache::new(alloc, NonZeroUsize::new(2).unwrap())?;
    let first = calls(alloc, &mut frames, &mut disk, 37)?;
    let second = calls(alloc, &mut frames, &mut disk, 38)?;
    let again = calls(alloc, &mut frames, &mut disk, 37)?;
    let third = calls(alloc, &mut frames, &mut disk, 39)?;
    let dropped = calls(alloc, &mut frames, &mut disk, 38)?;
    assert_eq!(rt; [first, second, again, third, dropped], [1, 1, 0, 1, 1]);
    assert!(rt; change(&mut frames, 38, Page::Zero(Dba(38))));
    let fourth = calls(alloc, &mut frames, &mut disk, 40)?;
    let fifth = calls(alloc, &mut frames, &mut disk, 41)?;
    let dirty = calls(alloc, &mut frames, &mut disk, 38)?;
    assert_eq!(rt; [fourth, fifth, dirty], [1, 1, 0]);
    Ok(())
}

// A pool over the data file.
fn opened<D: Disk>(
    alloc: Global,
    disk: &mut D,
    shape: Shape,
) -> Result<(PageStore, BufferPool), Fail>
    ensures { IfOk result (λ both. (both.1.dirty ≡ 0) × (both.1.shape ≡ both.0)) }
{
    let store = open(disk, shape)?;
    let pool = BufferPool::new(alloc, disk, store)?;
    Ok((store, pool))
}

// The LSN of a block's page.
fn number_at<D: Disk>(pool: &mut BufferPool, disk: &mut D, block: u32) -> Result<Lsn, Fail>
    requires { pool.old.dirty ≤ MOST_DIRTY }
    ensures { pool.new.dirty ≡ pool.old.dirty }
{
    pool.fetch(disk, Dba(block))?;
    Ok(lsn_of(pool.frame(Dba(block))))
}

// Writes a batch, and answers its blocks.
fn put<D: Disk>(
    alloc: Global,
    pool: &mut BufferPool,
    store: &mut PageStore,
    disk: &mut D,
    most: u8,
    upto: Lsn,
) -> Result<Vec<u32>, Fail>
    requires shape { pool.old.shape ≡ store.old }
    requires most { most ≤ 32 }
    ensures shape { pool.new.shape ≡ store.new }
{
    let batch = pool.take_batch(most, upto)?;
    let mut blocks = Vec::new(alloc);
    for page in batch.iter() {
        blocks.push(page.dba.0)?;
    }
    if !batch.is_empty() {
        store.put_all(disk, &batch)?;
    }
    Ok(blocks)
}

// The Table has number 1, the Extend 2. Block 43 is no page of theirs.
#[test]
fn batches_take_pages_of_least_number_and_none_of_later_records(
    rt: HostRuntime,
) -> Result<(), Fail> {
    let alloc = rt.alloc();
    let mut disk = zeros(alloc, 64)?;
    let (mut store, mut pool) = opened(alloc, &mut disk, SHAPE)?;
    let (table, _) = decode(alloc, TABLE, 0)?;
    let (extend, _) = decode(alloc, EXTEND, 0)?;
    let changed = pool.prepare(&mut disk, &table, Some(&extend), Lsn(1))?;
    assert_eq!(rt; pool.dirty(), 0);
    pool.install(changed);
    assert_eq!(rt; pool.dirty(), 6);
    let early = put(alloc, &mut pool, &mut store, &mut disk, 32, Lsn(1))?;
    let least = put(alloc, &mut pool, &mut store, &mut disk, 2, Lsn(2))?;
    let rest = put(alloc, &mut pool, &mut store, &mut disk, 32, Lsn(2))?;
    assert_eq!(rt; early.as_slice(), [2].as_slice());
    assert_eq!(rt; least.as_slice(), [3, 39].as_slice());
    assert_eq!(rt; rest.as_slice(), [40, 41, 42].as_slice());
    assert_eq!(rt; pool.dirty(), 0);
    let (_, mut pool) = opened(alloc, &mut disk, SHAPE)?;
    let catalogue = number_at(&mut pool, &mut disk, 2)?;
    let header = number_at(&mut pool, &mut disk, 42)?;
    let other = number_at(&mut pool, &mut disk, 43)?;
    assert_eq!(rt; [catalogue, header, other], [Lsn(1), Lsn(2), Lsn(0)]);
    Ok(())
}

// Puts in what a record makes of the pages that it touches, behind a batch where too many are dirty.
fn put_record<D: Disk>(
    alloc: Global,
    pool: &mut BufferPool,
    store: &mut PageStore,
    disk: &mut D,
    rec: &Record,
    lsn: u64,
) -> Result<(), Fail>
    requires { pool.old.shape ≡ store.old }
    ensures { pool.new.shape ≡ store.new }
{
    if pool.dirty() > MOST_DIRTY {
        put(alloc, pool, store, disk, 32, Lsn(lsn))?;
    }
    if pool.dirty() <= MOST_DIRTY {
        let changed = pool.prepare(disk, rec, None, Lsn(lsn))?;
        pool.install(changed);
    }
    Ok(())
}

// The first of the undo blocks whose page hasn't its own number as LSN.
fn unnumbered<D: Disk>(pool: &mut BufferPool, disk: &mut D) -> Result<Option<u32>, Fail> {
    for block in 37..337 {
        if pool.dirty() > MOST_DIRTY || number_at(pool, disk, block)? != Lsn(u64::from(block)) {
            return Ok(Some(block));
        }
    }
    Ok(None)
}

// A Begin, 300 undo blocks that are used by records with the blocks' numbers, and the Commit.
#[test]
fn more_pages_than_frames_are_changed_dropped_and_read_again(rt: HostRuntime) -> Result<(), Fail> {
    let alloc = rt.alloc();
    let mut disk = zeros(alloc, 400)?;
    let (mut store, mut pool) = opened(alloc, &mut disk, WIDE)?;
    let begin = Record::Begin(BeginRecord {
        txn: TxnId(1),
        session: 1,
        entry: 0,
        control: Scn(0),
    });
    put_record(alloc, &mut pool, &mut store, &mut disk, &begin, 36)?;
    for block in 37..337 {
        let reuse = Record::Reuse(ReuseRecord { block, sequence: 1 });
        let lsn = u64::from(block);
        put_record(alloc, &mut pool, &mut store, &mut disk, &reuse, lsn)?;
    }
    let wrong = unnumbered(&mut pool, &mut disk)?;
    assert_eq!(rt; wrong, None);
    let commit = Record::Commit(CommitRecord {
        txn: TxnId(1),
        number: Scn(1),
        entry: 0,
    });
    pool.change_commit(&commit, Lsn(337));
    let last = lsn_of(pool.table());
    assert_eq!(rt; last, Lsn(337));
    Ok(())
}
