// What comes back out of the data file, and how many reads it takes.
ghost use Rattle.std.specs.Prelude.{◌≡◌, ◌≤◌, ◌<◌, length, IfOk};

use crate::{StorePages, open};
use buffer_pool::MOST_DIRTY;
use disk_model::{Disk, File, Memory, Stopping, Tear};
use page_set::lsn_of;
use page_store::PageFault;
use redo_record::{BeginRecord, CommitRecord, Record, ReuseRecord, decode};
use seg_base::{Dba, Lsn, Scn, Shape, TxnId};
use std::alloc::Global;
use std::process::Abort;
use std::test::Fail;

static SHAPE: Shape = Shape {
    blocks: 64,
    extent: 8,
    undo: 2,
};

// More undo blocks than there are frames.
static WIDE: Shape = Shape {
    blocks: 400,
    extent: 8,
    undo: 300,
};

// A table and its first extent: the catalogue, the space bitmap, the three levels and the header.
static TABLE: &[u8] = &[1, 1, 0, 0, 0, 42, 10, 1, 116];

static EXTEND: &[u8] = &[
    3, 1, 0, 0, 0, 42, 0, 0, 0, 0, 0, 0, 0, 0, 0, 40, 0, 0, 0, 41,
];

// A data file of zeros.
fn zeros(alloc: Global, blocks: usize) -> Result<Memory, Fail>
    requires { blocks ≤ 400 }
{
    let bytes = vec![in alloc; 0u8; blocks * 4_096]?;
    Ok(Memory::new(alloc, &bytes, b"", &[])?)
}

// The LSN of a block's page.
fn number_at<D: Disk>(pages: &mut StorePages, disk: &mut D, block: u32) -> Result<u64, Fail> {
    if pages.is_over() {
        return Err("too many are dirty")?;
    }
    pages.fetch(disk, Dba(block))?;
    Ok(lsn_of(pages.frame(Dba(block))).0)
}

// The LSNs of the table's pages: catalogue, space bitmap, levels and header, and a block beside them.
fn numbers<D: Disk>(pages: &mut StorePages, disk: &mut D) -> Result<[u64; 7], Fail> {
    let catalogue = number_at(pages, disk, 2)?;
    let space = number_at(pages, disk, 3)?;
    let first = number_at(pages, disk, 39)?;
    let second = number_at(pages, disk, 40)?;
    let third = number_at(pages, disk, 41)?;
    let header = number_at(pages, disk, 42)?;
    let beside = number_at(pages, disk, 43)?;
    Ok([catalogue, space, first, second, third, header, beside])
}

// The Table has number 1, the Extend 2.
static NUMBERS: [u64; 7] = [1, 2, 2, 2, 2, 2, 0];

fn pair(alloc: Global) -> Result<Vec<Record>, Fail>
    ensures { IfOk result (λ records. length records.items ≡ 2) }
{
    let (table, _) = decode(alloc, TABLE, 0)?;
    let (extend, _) = decode(alloc, EXTEND, 0)?;
    let mut records = Vec::new(alloc);
    records.push(table)?;
    records.push(extend)?;
    Ok(records)
}

// The pages with the table in them, none of them in the file.
fn with_table<D: Disk>(alloc: Global, disk: &mut D) -> Result<StorePages, Fail> {
    let records = pair(alloc)?;
    let mut pages = open(alloc, disk, SHAPE, Lsn(0), &[])?;
    if pages.is_over() {
        return Err("too many are dirty")?;
    }
    let changed = pages.prepare_two(disk, &records[0], &records[1], Lsn(1))?;
    pages.install(changed);
    Ok(pages)
}

#[test]
fn batches_take_pages_of_least_number_and_none_of_later_records(
    rt: HostRuntime,
) -> Result<(), Fail> {
    let alloc = rt.alloc();
    let mut disk = zeros(alloc, 64)?;
    let mut pages = with_table(alloc, &mut disk)?;
    assert_eq!(rt; pages.dirty(), 6);
    let none = pages.put_batch(&mut disk, 32, Lsn(0))?;
    let first = pages.put_batch(&mut disk, 32, Lsn(1))?;
    let few = pages.put_batch(&mut disk, 2, Lsn(2))?;
    let rest = pages.put_batch(&mut disk, 32, Lsn(2))?;
    let over = pages.put_batch(&mut disk, 32, Lsn(2))?;
    assert_eq!(rt; [none, first, few, rest, over], [0, 1, 2, 3, 0]);
    let mut again = open(alloc, &mut disk, SHAPE, Lsn(2), &[])?;
    let found = numbers(&mut again, &mut disk)?;
    assert_eq!(rt; found, NUMBERS);
    Ok(())
}

// A disk on which a batch is stopped after so many writes, and whether it was done. The catalogue's page is in the file before, and
// the five others make 13 writes: the area's head, the copies, its gate, the places and its gate again.
fn stopped(alloc: Global, writes: u64) -> Result<(Memory, bool), Fail> {
    let mut memory = zeros(alloc, 64)?;
    let mut pages = with_table(alloc, &mut memory)?;
    pages.put_batch(&mut memory, 32, Lsn(1))?;
    let settled = Memory::new(alloc, memory.bytes(File::Data), b"", &[])?;
    let mut disk = Stopping::new(settled, writes);
    let done = pages.put_batch(&mut disk, 32, Lsn(2)).is_ok();
    Ok((disk.into_disk(), done))
}

// The LSNs in an image that a crash leaves, with the log's records redone and then as they are in the file.
fn left(
    alloc: Global,
    memory: &Memory,
    tear: Tear,
    records: &[Record],
) -> Result<[[u64; 7]; 2], Fail>
    requires { length records.now < 1000 }
{
    let mut image = memory.crashed(memory.moment(), tear)?;
    let mut pages = open(alloc, &mut image, SHAPE, Lsn(0), records)?;
    let redone = numbers(&mut pages, &mut image)?;
    let mut again = open(alloc, &mut image, SHAPE, Lsn(0), &[])?;
    let filed = numbers(&mut again, &mut image)?;
    Ok([redone, filed])
}

// The batch counts from the write of the open gate on, which is the seventh; a crash before its sync may lose it.
fn filed(writes: u64, tear: &Tear) -> [u64; 7] {
    if writes > 7 || (writes == 7 && matches!(tear, Tear::New)) {
        return NUMBERS;
    }
    [1, 0, 0, 0, 0, 0, 0]
}

// Whether a crash after so many writes leaves the pages that it must.
fn is_left(alloc: Global, writes: u64, tear: Tear, records: &[Record]) -> Result<bool, Fail>
    requires { length records.now < 1000 }
{
    let want = [NUMBERS, filed(writes, &tear)];
    let (memory, done) = stopped(alloc, writes)?;
    let found = left(alloc, &memory, tear, records)?;
    Ok(found == want && done == (writes == 14))
}

#[test]
fn a_crash_at_each_write_of_a_batch_leaves_all_of_it_or_none(rt: HostRuntime) -> Result<(), Fail> {
    let alloc = rt.alloc();
    let records = pair(alloc)?;
    for writes in 0..15 {
        let right = is_left(alloc, writes, Tear::New, &records)?;
        assert!(rt; right, "at {writes}");
    }
    for writes in [7, 13] {
        let right = is_left(alloc, writes, Tear::Old, &records)?;
        assert!(rt; right, "with the old bytes at {writes}");
    }
    Ok(())
}

// A Begin, and 300 undo blocks that are taken into use: block b by the record b - 35.
fn many(alloc: Global) -> Result<Vec<Record>, Fail>
    ensures { IfOk result (λ records. length records.items < 1000) }
{
    let mut records = Vec::new(alloc);
    records.push(Record::Begin(BeginRecord {
        txn: TxnId(1),
        session: 1,
        entry: 0,
        control: Scn(0),
    }))?;
    for block in 37..337 {
        records.push(Record::Reuse(ReuseRecord { block, sequence: 1 }))?;
    }
    if records.len() != 301 {
        return Err("another number of records")?;
    }
    Ok(records)
}

// Adds a record, behind a batch where too many pages are dirty.
fn put_record<D: Disk>(
    pages: &mut StorePages,
    disk: &mut D,
    rec: &Record,
    lsn: u64,
) -> Result<(), Fail> {
    pages.spare(disk, Lsn(lsn))?;
    let changed = pages.prepare(disk, rec, Lsn(lsn))?;
    pages.install(changed);
    Ok(())
}

// The first of the undo blocks whose page hasn't the number of its record.
fn unnumbered<D: Disk>(pages: &mut StorePages, disk: &mut D) -> Result<Option<u32>, Fail> {
    pages.spare(disk, Lsn(301))?;
    for block in 37..337 {
        if number_at(pages, disk, block)? != u64::from(block) - 35 {
            return Ok(Some(block));
        }
    }
    Ok(None)
}

#[test]
fn more_pages_than_frames_are_changed_dropped_and_read_again(rt: HostRuntime) -> Result<(), Fail> {
    let alloc = rt.alloc();
    let mut disk = zeros(alloc, 400)?;
    let records = many(alloc)?;
    let mut pages = open(alloc, &mut disk, WIDE, Lsn(0), &[])?;
    for (i, rec) in records.iter().enumerate() {
        put_record(&mut pages, &mut disk, rec, i as u64 + 1)?;
    }
    assert!(rt; pages.dirty() > 200 && pages.dirty() <= MOST_DIRTY + 1);
    let wrong = unnumbered(&mut pages, &mut disk)?;
    assert_eq!(rt; wrong, None);
    let c = CommitRecord {
        txn: TxnId(1),
        number: Scn(1),
        entry: 0,
    };
    pages.commit(c, Lsn(302))?;
    let last = lsn_of(pages.table());
    assert_eq!(rt; last, Lsn(302));
    Ok(())
}

// The same records redone, on a new file and then on the one that this left.
#[test]
fn more_pages_than_frames_are_redone(rt: HostRuntime) -> Result<(), Fail> {
    let alloc = rt.alloc();
    let mut disk = zeros(alloc, 400)?;
    let records = many(alloc)?;
    for _ in 0..2 {
        let mut pages = open(alloc, &mut disk, WIDE, Lsn(0), &records)?;
        let wrong = unnumbered(&mut pages, &mut disk)?;
        assert_eq!(rt; wrong, None);
        let table = lsn_of(pages.table());
        assert_eq!(rt; table, Lsn(301));
    }
    Ok(())
}

// How many calls on the disk it takes to fetch a block.
fn calls(pages: &mut StorePages, disk: &mut Memory, block: u32) -> Result<u64, Fail> {
    let before = disk.moment();
    number_at(pages, disk, block)?;
    Ok(disk.moment().saturating_sub(before))
}

// How many it takes to fetch these.
fn all_calls(pages: &mut StorePages, disk: &mut Memory, from: u32, to: u32) -> Result<u64, Fail> {
    let before = disk.moment();
    for block in from..to {
        number_at(pages, disk, block)?;
    }
    Ok(disk.moment().saturating_sub(before))
}

// 256 blocks have frames, and block 1 has one more.
#[test]
fn a_page_in_a_frame_costs_no_read(rt: HostRuntime) -> Result<(), Fail> {
    let alloc = rt.alloc();
    let mut disk = zeros(alloc, 400)?;
    let mut pages = open(alloc, &mut disk, WIDE, Lsn(0), &[])?;
    let all = all_calls(&mut pages, &mut disk, 37, 293)?;
    let again = all_calls(&mut pages, &mut disk, 37, 293)?;
    let table = calls(&mut pages, &mut disk, 1)?;
    let more = calls(&mut pages, &mut disk, 293)?;
    let kept = all_calls(&mut pages, &mut disk, 38, 293)?;
    let dropped = calls(&mut pages, &mut disk, 37)?;
    assert_eq!(rt;
        [all, again, table, more, kept, dropped],
        [256, 0, 0, 1, 0, 1]
    );
    Ok(())
}

// What a fetch of each of these blocks answers.
fn fetched(pages: &mut StorePages, disk: &mut Memory, block: u32) -> Result<(), PageFault> {
    if pages.is_over() {
        return Err(PageFault::NoMemory);
    }
    pages.fetch(disk, Dba(block))
}

#[test]
fn blocks_without_pages_are_refused(rt: HostRuntime) -> Result<(), Fail> {
    let alloc = rt.alloc();
    let mut disk = zeros(alloc, 64)?;
    let mut pages = open(alloc, &mut disk, SHAPE, Lsn(0), &[])?;
    for block in [0, 4, 36, 64] {
        let fault = PageFault::BadPage { dba: Dba(block) };
        assert_eq!(rt; fetched(&mut pages, &mut disk, block), Err(fault));
    }
    for block in [1, 3, 37, 63] {
        assert_eq!(rt; fetched(&mut pages, &mut disk, block), Ok(()));
    }
    let c = CommitRecord {
        txn: TxnId(1),
        number: Scn(1),
        entry: 0,
    };
    let unbegun = PageFault::BadPage { dba: Dba(1) };
    assert_eq!(rt; pages.commit(c, Lsn(1)), Err(unbegun));
    let reuse = Record::Reuse(ReuseRecord {
        block: 400,
        sequence: 1,
    });
    let mut records = Vec::new(alloc);
    records.push(reuse)?;
    let past = open(alloc, &mut disk, SHAPE, Lsn(0), &records);
    assert!(rt; matches!(past, Err(PageFault::BadPage { dba: _ })));
    Ok(())
}
