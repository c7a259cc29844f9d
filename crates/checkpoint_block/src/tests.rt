// The bytes of a checkpoint, a stop at each write of one, and what is no checkpoint.
use crate::{Checkpoint, FIRST, read, write};
use disk_model::{Disk, File, Memory, Stopping, Tear};
use page_store::{PageFault, open};
use seg_base::{Lsn, Scn, Shape};
use std::alloc::Global;
use std::test::Fail;

const SHAPE: Shape = Shape {
    blocks: 64,
    extent: 8,
    undo: 2,
};

fn point(length: u64, end_gate: u64, commits: u64) -> Checkpoint {
    Checkpoint {
        length: Lsn(length),
        end_gate,
        commits: Scn(commits),
    }
}

// A data file of zeros, but for its first bytes.
fn file(alloc: Global, front: &[u8]) -> Result<Memory, Fail> {
    let bytes = vec![in alloc; 0u8; 262_144]?;
    let mut disk = Memory::new(alloc, &bytes, b"", &[])?;
    if disk.write_at(File::Data, 0, front).is_err() || disk.sync(File::Data).is_err() {
        return Err("no write")?;
    }
    Ok(disk)
}

// The checkpoint that the data file says when it is opened.
fn said<D: Disk>(alloc: Global, disk: &mut D) -> Result<Checkpoint, PageFault> {
    let mut store = open(disk, SHAPE)?;
    read(alloc, disk, &mut store)
}

// Opens the data file and writes a checkpoint.
fn put<D: Disk>(disk: &mut D, point: &Checkpoint) -> Result<(), PageFault> {
    let mut store = open(disk, SHAPE)?;
    write(disk, &mut store, point)
}

// The length is 0x0102, the place of the gate 0x010203, the number of commits 7.
#[test]
fn a_checkpoint_has_the_bytes_of_its_page(rt: HostRuntime) -> Result<(), Fail> {
    let alloc = rt.alloc();
    let mut disk = file(alloc, b"")?;
    assert_eq!(rt; said(alloc, &mut disk), Ok(FIRST));
    assert_eq!(rt; FIRST, point(0, 63, 0));
    let new = point(258, 66_051, 7);
    assert_eq!(rt; put(&mut disk, &new), Ok(()));
    assert_eq!(rt; said(alloc, &mut disk), Ok(new));
    let front = disk.bytes(File::Data).get(..48);
    let head = b"\x01\0\0\0\0\0\0\0\0\0\0\0\0\0\x01\x02";
    let rest = b"\0\0\0\0\0\0\x01\x02\0\0\0\0\0\x01\x02\x03\0\0\0\0\0\0\0\x07\0\0\0\0\0\0\0\0";
    assert_eq!(rt;
        front.and_then(|bytes| bytes.get(..16)),
        Some(head.as_slice())
    );
    assert_eq!(rt;
        front.and_then(|bytes| bytes.get(16..)),
        Some(rest.as_slice())
    );
    Ok(())
}

#[test]
fn a_stop_leaves_the_old_checkpoint_or_the_new_one(rt: HostRuntime) -> Result<(), Fail> {
    let alloc = rt.alloc();
    let old = point(2, 100, 1);
    let new = point(9, 300, 4);
    for writes in 0..7 {
        let mut memory = file(alloc, b"")?;
        assert_eq!(rt; put(&mut memory, &old), Ok(()));
        let mut disk = Stopping::new(memory, writes);
        let done = put(&mut disk, &new).is_ok();
        assert_eq!(rt; done, writes == 6);
        let memory = disk.into_disk();
        for tear in [Tear::Old, Tear::New, Tear::Zero] {
            let mut image = memory.crashed(memory.moment(), tear)?;
            let found = said(alloc, &mut image);
            assert!(rt;
                found == Ok(new) || (!done && found == Ok(old)),
                "{tear:?} at {writes}"
            );
        }
    }
    Ok(())
}

// The numbers of a checkpoint, or the block whose page is none.
fn numbers(found: &Result<Checkpoint, PageFault>) -> Result<[u64; 3], u32> {
    match found {
        Ok(point) => Ok([point.length.0, point.end_gate, point.commits.0]),
        Err(PageFault::BadPage { dba }) => Err(dba.0),
        Err(_) => Err(u32::MAX),
    }
}

#[test]
fn what_is_no_checkpoint_of_block_0_is_refused(rt: HostRuntime) -> Result<(), Fail> {
    let alloc = rt.alloc();
    let bad = Err(0);
    let cases = [
        (b"\0".as_slice(), Ok([0, 63, 0])),
        (b"\x01".as_slice(), Ok([0, 0, 0])),
        (b"\0\x01".as_slice(), bad),
        (b"\x01\x01".as_slice(), bad),
        (b"\x01\0\0\0\0\0\0\x01".as_slice(), bad),
        (b"\x01\0\0\0\0\0\0\0\0\0\0\0\0\0\0\x01".as_slice(), bad),
        (b"\x02".as_slice(), bad),
        (b"\x03".as_slice(), bad),
        (b"\x05".as_slice(), bad),
    ];
    for (front, want) in cases {
        let mut disk = file(alloc, front)?;
        let found = said(alloc, &mut disk);
        assert_eq!(rt; numbers(&found), want, "{front:?}");
    }
    Ok(())
}
