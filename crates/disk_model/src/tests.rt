// What no clause says: which calls of the two fakes fail, and that the others do their work.
use crate::{Disk, File, Memory, Stopping, Tear, write_and_sync, write_framed_and_sync};
use seg_base::Failed;
use std::test::Fail;

#[test]
fn listed_calls_fail_and_the_others_work(rt: HostRuntime) -> Result<(), Fail> {
    let mut disk = Memory::new(rt.alloc(), b"data", b"", &[1, 4])?;
    let mut buf = [7u8; 3];
    assert_eq!(rt; disk.read(File::Data, 2, &mut buf), Ok(2));
    assert_eq!(rt; buf, [b't', b'a', 7]);
    assert_eq!(rt; disk.len(File::Data), Err(Failed));
    assert_eq!(rt; disk.write_at(File::Log, 3, b"log"), Ok(()));
    assert_eq!(rt; disk.len(File::Log), Ok(6));
    assert_eq!(rt; disk.sync(File::Log), Err(Failed));
    assert_eq!(rt; disk.bytes(File::Log), b"\0\0\0log".as_slice());
    assert_eq!(rt; disk.write_at(File::Data, u64::MAX, b"x"), Err(Failed));
    assert_eq!(rt; disk.bytes(File::Data), b"data".as_slice());
    assert_eq!(rt; disk.moment(), 6);
    assert_eq!(rt; disk.faults(), 3);
    assert_eq!(rt;
        write_framed_and_sync(&mut disk, File::Log, 1, b"a", b"bc", b"d"),
        Ok(())
    );
    assert_eq!(rt; disk.bytes(File::Log), b"\0abcdg".as_slice());
    Ok(())
}

#[test]
fn each_range_holds_old_new_or_zero_bytes(rt: HostRuntime) -> Result<(), Fail> {
    let mut disk = Memory::new(rt.alloc(), b"", b"abcdef", &[])?;
    assert_eq!(rt; write_and_sync(&mut disk, File::Log, 2, b"XY"), Ok(()));
    assert_eq!(rt; disk.write_at(File::Log, 5, b"ZZ"), Ok(()));
    let cases = [
        (0, Tear::New, b"abcdef".as_slice()),
        (1, Tear::Old, b"abcdef".as_slice()),
        (1, Tear::New, b"abXYef".as_slice()),
        (1, Tear::Zero, b"ab\0\0ef".as_slice()),
        (2, Tear::Old, b"abXYef".as_slice()),
        (3, Tear::Old, b"abXYef".as_slice()),
        (3, Tear::New, b"abXYeZZ".as_slice()),
        (3, Tear::Zero, b"abXYe\0\0".as_slice()),
    ];
    for (moment, tear, want) in cases {
        assert!(rt; moment <= disk.moment());
        let after = disk.crashed(moment, tear)?;
        assert_eq!(rt; after.bytes(File::Log), want, "{tear:?} at {moment}");
    }
    Ok(())
}

#[test]
fn a_stopping_disk_passes_its_writes_alone(rt: HostRuntime) -> Result<(), Fail> {
    let memory = Memory::new(rt.alloc(), b"", b"", &[])?;
    let mut disk = Stopping::new(memory, 2);
    assert_eq!(rt; write_and_sync(&mut disk, File::Data, 0, b"one"), Ok(()));
    assert_eq!(rt; disk.len(File::Data), Ok(3));
    assert_eq!(rt; disk.write_at(File::Data, 3, b"two"), Ok(()));
    assert_eq!(rt; disk.read(File::Data, 0, &mut [0]), Err(Failed));
    assert_eq!(rt; disk.write_at(File::Data, 0, b"three"), Err(Failed));
    assert_eq!(rt; disk.len(File::Data), Err(Failed));
    assert_eq!(rt; disk.sync(File::Data), Err(Failed));
    assert_eq!(rt; disk.moment(), 8);
    assert_eq!(rt; disk.faults(), 4);
    let memory = disk.into_disk();
    assert_eq!(rt; memory.bytes(File::Data), b"onetwo".as_slice());
    assert_eq!(rt; memory.moment(), 4);
    Ok(())
}
