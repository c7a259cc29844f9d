// A store with more pages than frames: Begin, and then 300 undo blocks that are taken into use, block b by the record b - 35.
// Block 1 and the undo block are changed by each, so that the 241st Reuse and the 272nd find 241 dirty pages: then what waits
// becomes stable, and 32 pages are put into the data file, which leaves 209.
ghost use Rattle.std.specs.Prelude.{◌≡◌, ◌≤◌, ◌<◌, true, length};
ghost use Rattle.seg_words.specs.Types.{is_shape};

use crate::{Store, StoreFault, prepare};
use disk_model::{Disk, Memory, Stopping, Tear};
use page_set::lsn_of;
use redo_record::{BeginRecord, Record, ReuseRecord};
use seg_base::{Dba, Lsn, Scn, Shape, TxnId};
use std::alloc::Global;
use std::test::Fail;
use store_files::format;

const SHAPE: Shape = Shape {
    blocks: 400,
    extent: 8,
    undo: 300,
};

// As many undo blocks as the first batch wants.
const SMALL: Shape = Shape {
    blocks: 286,
    extent: 8,
    undo: 241,
};

fn formatted(alloc: Global, shape: Shape) -> Result<Memory, Fail>
    requires { is_shape shape ≡ true }
{
    let mut disk = Memory::new(alloc, b"", b"", &[])?;
    format(&mut disk, shape)?;
    Ok(disk)
}

fn begin<D: Disk>(store: &mut Store<D>) -> Result<Lsn, StoreFault> {
    store.take(&Record::Begin(BeginRecord {
        txn: TxnId(1),
        session: 1,
        entry: 0,
        control: Scn(0),
    }))
}

// Takes these undo blocks into use, one after the other.
fn reuse<D: Disk>(store: &mut Store<D>, from: u32, to: u32) -> Result<(), StoreFault> {
    for block in from..to {
        store.take(&Record::Reuse(ReuseRecord { block, sequence: 1 }))?;
    }
    Ok(())
}

fn number_at<D: Disk>(store: &mut Store<D>, block: u32) -> Result<u64, StoreFault> {
    store.fetch(Dba(block))?;
    Ok(lsn_of(store.frame(Dba(block))).0)
}

// The first of the undo blocks below another whose page hasn't the number of its record, where the list has so many, and 0 behind
// them.
fn unnumbered<D: Disk>(
    store: &mut Store<D>,
    to: u32,
    records: u64,
) -> Result<Option<u32>, StoreFault> {
    for block in 37..to {
        let own = u64::from(block) - 35;
        let wanted = if own <= records { own } else { 0 };
        if number_at(store, block)? != wanted {
            return Ok(Some(block));
        }
    }
    Ok(None)
}

// How many calls on the disk these Reuses take.
fn calls(store: &mut Store<Memory>, from: u32, to: u32) -> Result<u64, Fail> {
    let before = store.moment();
    reuse(store, from, to)?;
    Ok(store.moment().saturating_sub(before))
}

// A page that is brought into a frame costs one read. A group of the log is a write and a sync, twice; a batch of 32 pages is 33
// writes and a sync, the gate's write and a sync, 32 writes and a sync, the gate's again.
#[test]
fn more_pages_than_frames_are_changed_dropped_and_read_again(rt: HostRuntime) -> Result<(), Fail> {
    let alloc = rt.alloc();
    let mut disk = formatted(alloc, SHAPE)?;
    let loaded = prepare(alloc, &mut disk)?;
    let mut store = Store::over(&mut disk, loaded);
    begin(&mut store)?;
    let first = calls(&mut store, 37, 277)?;
    let batch = calls(&mut store, 277, 278)?;
    let more = calls(&mut store, 278, 308)?;
    let second = calls(&mut store, 308, 309)?;
    let last = calls(&mut store, 309, 337)?;
    assert_eq!(rt;
        [first, batch, more, second, last],
        [240, 1 + 4 + 71, 30, 1 + 4 + 71, 28]
    );
    let wrong = unnumbered(&mut store, 337, 301)?;
    assert_eq!(rt; wrong, None);
    let table = number_at(&mut store, 1)?;
    assert_eq!(rt; (table, store.log_len()), (301, 301));
    Ok(())
}

// What a batch of so many pages answers, and how many calls on the disk it takes.
fn batch(store: &mut Store<Memory>, most: u8) -> Result<(u8, u64), Fail>
    requires { most ≤ 32 }
{
    let before = store.moment();
    let count = store.put_batch(most)?;
    Ok((count, store.moment().saturating_sub(before)))
}

// The group of the log comes with the first batch alone.
#[test]
fn batches_take_as_many_as_are_dirty(rt: HostRuntime) -> Result<(), Fail> {
    let alloc = rt.alloc();
    let mut disk = formatted(alloc, SHAPE)?;
    let loaded = prepare(alloc, &mut disk)?;
    let mut store = Store::over(&mut disk, loaded);
    begin(&mut store)?;
    reuse(&mut store, 37, 47)?;
    let dirty = store.dirty();
    let four = batch(&mut store, 4)?;
    let rest = batch(&mut store, 32)?;
    let none = batch(&mut store, 32)?;
    assert_eq!(rt; [four, rest, none], [(4, 4 + 15), (7, 21), (0, 0)]);
    assert_eq!(rt; (dirty, store.dirty()), (11, 0));
    Ok(())
}

// The first batch and its Reuse, as far as the store goes.
fn run_over<D: Disk>(store: &mut Store<D>) -> Result<(), Fail> {
    begin(store)?;
    if reuse(store, 37, 278).is_err() && !store.spent() {
        return Err("a fault that the store doesn't keep")?;
    }
    Ok(())
}

fn run_on<D: Disk>(alloc: Global, disk: &mut D) -> Result<(), Fail> {
    match prepare(alloc, disk) {
        Ok(loaded) => run_over(&mut Store::over(disk, loaded)),
        Err(_) => Ok(()),
    }
}

// The disk after so many writes.
fn stopped(alloc: Global, writes: u64) -> Result<Memory, Fail> {
    let mut disk = Stopping::new(formatted(alloc, SMALL)?, writes);
    run_on(alloc, &mut disk)?;
    Ok(disk.into_disk())
}

// How many records a store of a disk has, each page with the number of its last record.
fn opened(alloc: Global, disk: &mut Memory) -> Result<u64, Fail> {
    let loaded = prepare(alloc, disk)?;
    let mut store = Store::over(disk, loaded);
    let records = store.log_len();
    match unnumbered(&mut store, 278, records)? {
        None => Ok(records),
        Some(_) => Err("a page of another number")?,
    }
}

fn opened_after(alloc: Global, disk: &Memory, tear: Tear) -> Result<u64, Fail> {
    let mut after = disk.crashed(disk.moment(), tear)?;
    opened(alloc, &mut after)
}

// What a store that stopped after so many writes has where what wasn't synced is lost, zero, or written.
fn left(alloc: Global, writes: u64, tear: Tear) -> Result<u64, Fail> {
    let disk = stopped(alloc, writes)?;
    opened_after(alloc, &disk, tear)
}

// The writes are the group of the log and its gate, the area's head and 32 copies, the area's gate, 32 pages, and the gate again.
#[test]
fn a_stop_within_a_batch_leaves_the_stable_records(rt: HostRuntime) -> Result<(), Fail> {
    let alloc = rt.alloc();
    let none = left(alloc, 1, Tear::New)?;
    let lost = left(alloc, 2, Tear::Old)?;
    let done = left(alloc, 2, Tear::New)?;
    assert_eq!(rt; [none, lost, done], [0, 0, 241]);
    for writes in [3, 35, 36, 52, 70] {
        assert_eq!(rt; left(alloc, writes, Tear::Zero)?, 241, "{writes} writes");
    }
    Ok(())
}

// What the fetch of a block answers.
fn fetched(alloc: Global, block: u32) -> Result<Result<(), StoreFault>, Fail> {
    let mut disk = formatted(alloc, SHAPE)?;
    let loaded = prepare(alloc, &mut disk)?;
    let mut store = Store::over(&mut disk, loaded);
    Ok(store.fetch(Dba(block)))
}

#[test]
fn blocks_without_pages_are_refused(rt: HostRuntime) -> Result<(), Fail> {
    let alloc = rt.alloc();
    for block in [0, 4, 36, 400] {
        let fault = StoreFault::BadPage { dba: Dba(block) };
        assert_eq!(rt; fetched(alloc, block)?, Err(fault));
    }
    for block in [1, 3, 37, 399] {
        assert_eq!(rt; fetched(alloc, block)?, Ok(()));
    }
    Ok(())
}

// How many calls on the disk the fetch of a block takes.
fn fetch_calls(store: &mut Store<Memory>, block: u32) -> Result<u64, Fail> {
    let before = store.moment();
    store.fetch(Dba(block))?;
    Ok(store.moment().saturating_sub(before))
}

// The table's page and a page that was changed stand in frames; that of block 100 is brought into one. Nothing is made stable.
#[test]
fn a_fetch_reads_one_page_or_none(rt: HostRuntime) -> Result<(), Fail> {
    let alloc = rt.alloc();
    let mut disk = formatted(alloc, SHAPE)?;
    let loaded = prepare(alloc, &mut disk)?;
    let mut store = Store::over(&mut disk, loaded);
    begin(&mut store)?;
    reuse(&mut store, 37, 47)?;
    let table = fetch_calls(&mut store, 1)?;
    let changed = fetch_calls(&mut store, 40)?;
    let first = fetch_calls(&mut store, 100)?;
    let again = fetch_calls(&mut store, 100)?;
    assert_eq!(rt; [table, changed, first, again], [0, 0, 1, 0]);
    Ok(())
}
