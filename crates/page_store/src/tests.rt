// What a stop within a batch leaves, and each cause of a damaged area.
ghost use Rattle.std.specs.Prelude.{◌≡◌, true, IfOk};
ghost use Rattle.page_store.specs.Pages.{is_batch};
ghost use Rattle.page_store.specs.Batches.{blocks_of};

use crate::{AREA_AT, COPIES_AT, PageFault, PageStore, RawPage, is_place, open};
use disk_model::{Disk, File, Memory, Stopping, Tear};
use seg_base::{BLOCK_SIZE, Dba, Shape};
use std::alloc::Global;
use std::test::Fail;

const SHAPE: Shape = Shape {
    blocks: 64,
    extent: 8,
    undo: 2,
};

// A data file of zeros.
fn zeros(alloc: Global, size: usize) -> Result<Memory, Fail> {
    let bytes = vec![in alloc; 0u8; size]?;
    Ok(Memory::new(alloc, &bytes, b"", &[])?)
}

fn page(block: u32, fill: u8) -> RawPage
    ensures { result.dba ≡ block }
{
    RawPage {
        dba: Dba(block),
        bytes: [fill; BLOCK_SIZE],
    }
}

// Three pages, the first and the last of which stand at the ends of the file.
fn batch() -> [RawPage; 3]
    ensures { is_batch SHAPE (blocks_of result) ≡ true }
{
    [page(63, 7), page(37, 8), page(0, 9)]
}

// The first byte and the last one of a block's page.
fn ends_of<D: Disk>(store: &mut PageStore, disk: &mut D, block: u32) -> Result<(u8, u8), Fail>
    requires { store.old ≡ SHAPE }
    ensures { store.new ≡ SHAPE }
{
    if !is_place(&SHAPE, Dba(block)) {
        return Err("no place")?;
    }
    let mut bytes = [1; BLOCK_SIZE];
    store.get(disk, Dba(block), &mut bytes)?;
    Ok((bytes[0], bytes[BLOCK_SIZE - 1]))
}

// The ends of the pages of the batch, and of one beside it.
fn pages_in<D: Disk>(disk: &mut D) -> Result<[(u8, u8); 4], Fail> {
    let mut store = open(disk, SHAPE)?;
    let last = ends_of(&mut store, disk, 63)?;
    let middle = ends_of(&mut store, disk, 37)?;
    let first = ends_of(&mut store, disk, 0)?;
    let beside = ends_of(&mut store, disk, 38)?;
    Ok([last, middle, first, beside])
}

#[test]
fn a_stop_leaves_a_batch_whole_or_not_at_all(rt: HostRuntime) -> Result<(), Fail> {
    let alloc = rt.alloc();
    let before = [(0, 0), (0, 0), (0, 0), (0, 0)];
    let after = [(7, 7), (8, 8), (9, 9), (0, 0)];
    for writes in 0..11 {
        let mut memory = zeros(alloc, 262_144)?;
        let mut store = open(&mut memory, SHAPE)?;
        let mut disk = Stopping::new(memory, writes);
        let done = store.put_all(&mut disk, &batch()).is_ok();
        assert_eq!(rt; done, writes == 10);
        let memory = disk.into_disk();
        for tear in [Tear::Old, Tear::New, Tear::Zero] {
            let mut image = memory.crashed(memory.moment(), tear)?;
            let found = pages_in(&mut image)?;
            assert!(rt;
                found == after || (!done && found == before),
                "{tear:?} at {writes}"
            );
            let gate = image.bytes(File::Data).get(AREA_AT as usize).copied();
            assert_eq!(rt; gate, Some(0), "{tear:?} at {writes}");
        }
    }
    Ok(())
}

// What an opening answers where these bytes begin the area, and its copies are of this byte.
fn opened(alloc: Global, head: &[u8], fill: u8) -> Result<Result<(u8, u8), PageFault>, Fail> {
    let mut disk = zeros(alloc, 262_144)?;
    let copies = [fill; 2 * BLOCK_SIZE];
    if disk.write_at(File::Data, COPIES_AT, &copies).is_err()
        || disk.write_at(File::Data, AREA_AT, head).is_err()
    {
        return Err("no write")?;
    }
    match open(&mut disk, SHAPE) {
        Ok(mut store) => Ok(Ok(ends_of(&mut store, &mut disk, 2)?)),
        Err(fault) => Ok(Err(fault)),
    }
}

#[test]
fn each_damage_of_the_area_is_refused(rt: HostRuntime) -> Result<(), Fail> {
    let alloc = rt.alloc();
    let bad = Err(PageFault::BadPage { dba: Dba(4) });
    let cases = [
        (b"\x01\x01\0\0\0\x02".as_slice(), Ok((5, 5))),
        (b"\x01\x02\0\0\0\x3f\0\0\0\x02".as_slice(), Ok((5, 5))),
        (b"\0\x01\0\0\0\x02".as_slice(), Ok((0, 0))),
        (b"\x02\x01\0\0\0\x02".as_slice(), Ok((0, 0))),
        (b"\0\0".as_slice(), Ok((0, 0))),
        (b"\x01\0".as_slice(), bad),
        (b"\x01\x21".as_slice(), bad),
        (b"\x01\x01\0\0\0\x04".as_slice(), bad),
        (b"\x01\x01\0\0\0\x24".as_slice(), bad),
        (b"\x01\x01\0\0\0\x40".as_slice(), bad),
        (b"\x01\x02\0\0\0\x02\0\0\0\x02".as_slice(), bad),
    ];
    for (head, want) in cases {
        assert_eq!(rt; opened(alloc, head, 5)?, want, "{head:?}");
    }
    let mut cut = zeros(alloc, 151_551)?;
    assert_eq!(rt; open(&mut cut, SHAPE).err(), bad.err());
    let mut short = zeros(alloc, 151_552)?;
    let mut store = open(&mut short, SHAPE)?;
    let mut bytes = [0; BLOCK_SIZE];
    let missing = PageFault::BadPage { dba: Dba(37) };
    assert_eq!(rt; store.get(&mut short, Dba(37), &mut bytes), Err(missing));
    let mut failing = Memory::new(alloc, b"", b"", &[0])?;
    assert_eq!(rt;
        open(&mut failing, SHAPE).err(),
        Some(PageFault::DeviceFault)
    );
    Ok(())
}
