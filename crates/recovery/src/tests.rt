// Opening on a disk in memory.
use crate::{format, open};
use disk_model::{Disk, File, Memory};
use seg_base::{FIRST_GATE, Shape};
use std::alloc::Global;
use std::test::Fail;
use store_files::OpenFault;

const SHAPE: Shape = Shape {
    blocks: 64,
    extent: 8,
    undo: 2,
};

#[test]
fn a_new_store_is_opened_empty(rt: HostRuntime) -> Result<(), Fail> {
    let mut disk = Memory::new(rt.alloc(), b"", b"", &[])?;
    assert_eq!(rt; format(&mut disk, SHAPE), Ok(()));
    let store = open(rt.alloc(), &mut disk)?;
    assert_eq!(rt; store.shape(), SHAPE);
    assert_eq!(rt; store.log_len(), 0);
    Ok(())
}

// The Commit of transaction 1 as commit 1, at entry 0.
const COMMIT: [u8; 18] = [15, 0, 0, 0, 0, 0, 0, 0, 1, 0, 0, 0, 0, 0, 0, 0, 1, 0];

// A group of one byte, which no record begins with, and the closed gate behind it.
const NO_RECORD: [u8; 7] = [1, 0, 0, 0, 1, 200, 0];

fn no_record_at(offset: u64) -> Option<OpenFault> {
    Some(OpenFault::BadFile {
        file: File::Log,
        offset,
        seen: 200,
    })
}

// Why a new store whose log has these bytes from its first gate on isn't opened.
fn refusal(alloc: Global, groups: &[u8]) -> Result<Option<OpenFault>, Fail> {
    let mut disk = Memory::new(alloc, b"", b"", &[])?;
    format(&mut disk, SHAPE)?;
    if disk.write_at(File::Log, FIRST_GATE, groups).is_err() {
        return Err("no write")?;
    }
    match open(alloc, &mut disk) {
        Ok(_) => Ok(None),
        Err(fault) => Ok(Some(fault)),
    }
}

#[test]
fn the_byte_where_no_record_stands_is_told(rt: HostRuntime) -> Result<(), Fail> {
    let alloc = rt.alloc();
    assert_eq!(rt; refusal(alloc, &NO_RECORD)?, no_record_at(68));
    let mut groups = [0u8; 30];
    groups[..5].copy_from_slice(&[1, 0, 0, 0, 18]);
    groups[5..23].copy_from_slice(&COMMIT);
    groups[23..].copy_from_slice(&NO_RECORD);
    assert_eq!(rt; refusal(alloc, &groups)?, no_record_at(91));
    Ok(())
}
