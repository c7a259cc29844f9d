// The bytes of a log, what a stop leaves of it, and each refusal with its place.
use crate::{FrameFault, LogFile, make_head, open, read_shape};
use disk_model::{Disk, File, Memory, Stopping, Tear};
use seg_base::{FIRST_GATE, LOG_HEAD_SIZE, Shape};
use std::alloc::Global;
use std::test::Fail;

const SHAPE: Shape = Shape {
    blocks: 64,
    extent: 8,
    undo: 2,
};

// A disk with an empty log.
fn formatted(alloc: Global) -> Result<Memory, Fail> {
    let mut disk = Memory::new(alloc, b"", b"", &[])?;
    make_head(&mut disk, &SHAPE)?;
    Ok(disk)
}

#[test]
fn a_new_log_and_its_first_group(rt: HostRuntime) -> Result<(), Fail> {
    let alloc = rt.alloc();
    let mut disk = formatted(alloc)?;
    let mut head = [0u8; LOG_HEAD_SIZE];
    head[..24].copy_from_slice(b"\x01ASSMSEG1\0\0\0\x40\0\0\0\x08\0\0\0\x02\0\0\0");
    assert_eq!(rt; disk.bytes(File::Log), head.as_slice());
    assert_eq!(rt; read_shape(&mut disk)?, SHAPE);
    let mut log = open(&mut disk, FIRST_GATE)?;
    log.append_group(&mut disk, &[7; 56])?;
    assert_eq!(rt; log.end(), 124);
    assert_eq!(rt; disk.len(File::Log), Ok(125));
    let mut bytes = [0u8; 62];
    assert_eq!(rt; disk.read(File::Log, FIRST_GATE, &mut bytes), Ok(62));
    assert_eq!(rt; &bytes[..6], [1, 0, 0, 0, 0x38, 7].as_slice());
    assert_eq!(rt; &bytes[60..], [7, 0].as_slice());
    let log = open(&mut disk, FIRST_GATE)?;
    assert_eq!(rt; log.end(), 124);
    let group = log
        .read_group(alloc, &mut disk, FIRST_GATE)?
        .ok_or("no group")?;
    assert_eq!(rt; group.payload.as_slice(), [7; 56].as_slice());
    assert_eq!(rt; group.next, 124);
    assert!(rt; log.read_group(alloc, &mut disk, 124)?.is_none());
    Ok(())
}

// How many of the two texts a log has, first things first.
fn texts_in(alloc: Global, disk: &mut Memory) -> Result<u8, Fail> {
    let log = open(disk, FIRST_GATE)?;
    let mut at = FIRST_GATE;
    let mut count = 0;
    for text in [b"one".as_slice(), b"second".as_slice()] {
        match log.read_group(alloc, disk, at)? {
            Some(group) if group.payload.as_slice() == text => at = group.next,
            Some(_) => return Err("another group")?,
            None => return Ok(count),
        }
        count = if count == 0 { 1 } else { 2 };
    }
    Ok(count)
}

#[test]
fn a_stop_leaves_a_group_whole_or_not_at_all(rt: HostRuntime) -> Result<(), Fail> {
    let alloc = rt.alloc();
    for writes in 0..9 {
        let mut memory = formatted(alloc)?;
        let mut log = open(&mut memory, FIRST_GATE)?;
        let mut disk = Stopping::new(memory, writes);
        let first = log.append_group(&mut disk, b"one").is_ok();
        let second = first && log.append_group(&mut disk, b"second").is_ok();
        let done = u8::from(first) + u8::from(second);
        let memory = disk.into_disk();
        for tear in [Tear::Old, Tear::New, Tear::Zero] {
            let mut after = memory.crashed(memory.moment(), tear)?;
            let found = texts_in(alloc, &mut after)?;
            assert!(rt; found == done || found == done + 1, "{tear:?} at {writes}");
        }
    }
    Ok(())
}

// The refusal of a log with other bytes from that place on.
fn refusal(alloc: Global, at: u64, bytes: &[u8]) -> Result<Option<FrameFault>, Fail> {
    let mut disk = formatted(alloc)?;
    if disk.write_at(File::Log, at, bytes).is_err() {
        return Err("no write")?;
    }
    if let Err(fault) = read_shape(&mut disk) {
        return Ok(Some(fault));
    }
    match open(&mut disk, FIRST_GATE) {
        Ok(log) => match log.read_group(alloc, &mut disk, FIRST_GATE) {
            Ok(_) => Ok(None),
            Err(fault) => Ok(Some(fault)),
        },
        Err(fault) => Ok(Some(fault)),
    }
}

fn bad(offset: u64, seen: u8) -> Option<FrameFault> {
    Some(FrameFault::BadFrame { offset, seen })
}

#[test]
fn each_refusal_has_its_place(rt: HostRuntime) -> Result<(), Fail> {
    let alloc = rt.alloc();
    let cases = [
        (0, b"\0".as_slice(), Some(FrameFault::NotOpen)),
        (8, b"0".as_slice(), bad(8, b'0')),
        (1, b"a".as_slice(), bad(1, b'a')),
        (9, b"\0\0\0\x3f".as_slice(), bad(9, 0)),
        (13, b"\0\0\0\x07".as_slice(), bad(13, 0)),
        (17, b"\x02".as_slice(), bad(17, 2)),
        (13, b"\0\0\0\x40".as_slice(), bad(17, 0)),
        (62, b"\x05".as_slice(), bad(62, 5)),
        (63, b"\x01\0\0\0\0\0".as_slice(), bad(64, 0)),
        (63, b"\x01\0\0".as_slice(), bad(66, 0)),
        (63, b"\x01\0\0\0\x02a\0".as_slice(), bad(70, 0)),
        (63, b"\x01\0\0\0\x02ab".as_slice(), bad(70, 0)),
        (63, b"\x01\0\0\0\x02ab\x02\x01".as_slice(), None),
    ];
    for (at, bytes, want) in cases {
        assert_eq!(rt; refusal(alloc, at, bytes)?, want, "at {at} {bytes:?}");
    }
    let mut empty = Memory::new(alloc, b"", b"", &[1])?;
    assert_eq!(rt; read_shape(&mut empty), Err(FrameFault::NotOpen));
    assert_eq!(rt; read_shape(&mut empty), Err(FrameFault::DeviceFault));
    let mut disk = formatted(alloc)?;
    assert_eq!(rt;
        open(&mut disk, 64).map(|log: LogFile| log.end()),
        Err(FrameFault::BadFrame {
            offset: 64,
            seen: 0
        })
    );
    Ok(())
}
