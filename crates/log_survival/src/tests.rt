// Each call once, with ample memory.
use crate::{Acknowledged, acknowledge, append, begin, looked};
use disk_model::{Disk, Memory};
use log_frame::{make_head, open};
use seg_base::{FIRST_GATE, Shape};
use std::test::Fail;

#[test]
fn a_group_is_added_and_acknowledged(rt: HostRuntime) -> Result<(), Fail> {
    let shape = Shape {
        blocks: 64,
        extent: 8,
        undo: 2,
    };
    let mut disk = Memory::new(rt.alloc(), b"", b"", &[])?;
    make_head(&mut disk, &shape)?;
    let mut log = open(&mut disk, FIRST_GATE)?;
    let since = begin(&disk);
    assert_eq!(rt; since, disk.moment());
    append(&mut log, &mut disk, b"one")?;
    assert_eq!(rt; log.end(), 71);
    assert!(rt; since < disk.moment());
    let moment = disk.moment();
    assert_eq!(rt; acknowledge(&disk, 1), Acknowledged { moment, groups: 1 });
    looked(&disk, &disk);
    Ok(())
}
