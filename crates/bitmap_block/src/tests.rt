use crate::{L1, L2, L3};
use page_bytes::{PageFault, PageForm, decode};
use seg_base::{BLOCK_SIZE, Dba, Lsn};
use std::test::Fail;

// Each level is written and read back; a code of 6 and a byte behind the codes are no spelling.
#[test]
fn pages_are_read_back(rt: HostRuntime) -> Result<(), Fail> {
    let alloc = rt.alloc();
    let mut page = [0; BLOCK_SIZE];
    let mut first = L1::new(Dba(39), Lsn(7));
    first.set(4, 1);
    first.set(5, 3);
    first.set(63, 2);
    assert_eq!(rt; first.best(), 3);
    first.write(&mut page);
    assert_eq!(rt; page[0], 7);
    assert_eq!(rt; page[23], 7);
    assert_eq!(rt; page[24 + 5], 3);
    let again: Result<L1, PageFault> = decode(alloc, &page);
    assert!(rt;
        matches!(&again, Ok(l1) if l1.get(63) == 2 && l1.incarnation() == Lsn(7) && l1.dba() == Dba(39))
    );
    page[24] = 6;
    let bad: Result<L1, PageFault> = decode(alloc, &page);
    assert_eq!(rt; bad.err(), Some(PageFault::BadPage { offset: 24 }));
    page[24] = 0;
    page[24 + 64] = 1;
    let bad: Result<L1, PageFault> = decode(alloc, &page);
    assert_eq!(rt; bad.err(), Some(PageFault::BadPage { offset: 88 }));
    Ok(())
}

// Full blocks and blocks that aren't formatted are no good.
#[test]
fn upper_levels_keep_the_best(rt: HostRuntime) -> Result<(), Fail> {
    let alloc = rt.alloc();
    let mut page = [0; BLOCK_SIZE];
    let mut second = L2::new(Dba(40));
    second.set(0, 1);
    assert_eq!(rt; second.best(), 0);
    second.set(299, 5);
    assert_eq!(rt; second.best(), 5);
    second.write(&mut page);
    assert_eq!(rt; page[0], 8);
    let again: Result<L2, PageFault> = decode(alloc, &page);
    assert!(rt; matches!(&again, Ok(l2) if l2.get(299) == 5 && l2.lsn() == Lsn(0)));
    let wrong: Result<L3, PageFault> = decode(alloc, &page);
    assert_eq!(rt; wrong.err(), Some(PageFault::BadPage { offset: 0 }));
    let mut third = L3::new(Dba(41));
    third.set(2, 4);
    third.write(&mut page);
    let again: Result<L3, PageFault> = decode(alloc, &page);
    assert!(rt;
        matches!(&again, Ok(l3) if l3.get(2) == 4 && l3.best() == 4 && l3.dba() == Dba(41))
    );
    Ok(())
}
