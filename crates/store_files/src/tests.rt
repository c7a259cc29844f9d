// What a stop within the making of a store leaves, and that it can be made again.
use crate::{OpenFault, format, open_log, read_head};
use disk_model::{Disk, File, Memory, Stopping, Tear};
use log_frame::{FrameFault, read_shape};
use seg_base::{FIRST_GATE, Shape};
use std::test::Fail;

const SHAPE: Shape = Shape {
    blocks: 64,
    extent: 8,
    undo: 2,
};

#[test]
fn a_stop_leaves_no_store_or_all_of_it(rt: HostRuntime) -> Result<(), Fail> {
    for writes in 0..8 {
        let memory = Memory::new(rt.alloc(), b"old", b"\x01", &[])?;
        let mut disk = Stopping::new(memory, writes);
        assert_eq!(rt; format(&mut disk, SHAPE).is_ok(), false);
        let memory = disk.into_disk();
        for tear in [Tear::Old, Tear::New, Tear::Zero] {
            let mut after = memory.crashed(memory.moment(), tear)?;
            match read_shape(&mut after) {
                Ok(shape) => {
                    assert_eq!(rt; shape, SHAPE);
                    assert_eq!(rt; after.bytes(File::Data).len(), 262_144);
                    assert!(rt; after.bytes(File::Data).iter().all(|byte| *byte == 0));
                    assert_eq!(rt; format(&mut after, SHAPE), Err(OpenFault::AlreadyFormatted));
                }
                Err(fault) => {
                    assert_eq!(rt; fault, FrameFault::NotOpen);
                    assert_eq!(rt; format(&mut after, SHAPE), Ok(()));
                    assert_eq!(rt; read_shape(&mut after)?, SHAPE);
                    assert_eq!(rt; after.bytes(File::Data).len(), 262_144);
                }
            }
        }
    }
    let mut failing = Memory::new(rt.alloc(), b"", b"", &[0])?;
    assert_eq!(rt; format(&mut failing, SHAPE), Err(OpenFault::DeviceFault));
    Ok(())
}

#[test]
fn files_are_tested_in_their_order(rt: HostRuntime) -> Result<(), Fail> {
    let alloc = rt.alloc();
    let mut whole = Memory::new(alloc, b"", b"", &[])?;
    assert_eq!(rt; read_head(&mut whole), Err(OpenFault::NotFormatted));
    assert_eq!(rt; format(&mut whole, SHAPE), Ok(()));
    assert_eq!(rt; read_head(&mut whole), Ok(SHAPE));
    assert_eq!(rt; open_log(&mut whole, FIRST_GATE)?.end(), FIRST_GATE);
    let mut short = Memory::new(alloc, b"abc", whole.bytes(File::Log), &[])?;
    let data_ends = OpenFault::BadFile {
        file: File::Data,
        offset: 3,
        seen: 0,
    };
    assert_eq!(rt; read_head(&mut short), Err(data_ends));
    assert_eq!(rt; short.write_at(File::Log, 1, b"a"), Ok(()));
    let name_differs = OpenFault::BadFile {
        file: File::Log,
        offset: 1,
        seen: b'a',
    };
    assert_eq!(rt; read_head(&mut short), Err(name_differs));
    Ok(())
}
