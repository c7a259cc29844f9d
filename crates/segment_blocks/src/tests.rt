use crate::{Catalogue, CheckpointPage, SegmentHeader, SpaceBitmap};
use page_bytes::{PageFault, PageForm, decode};
use seg_base::{BLOCK_SIZE, Dba, Lsn, Name, Obj, Scn};
use std::test::Fail;

/// A page that begins with its kind and its block's number.
fn page(kind: u8, dba: u8) -> [u8; BLOCK_SIZE] {
    let mut page = [0; BLOCK_SIZE];
    page[0] = kind;
    page[7] = dba;
    page
}

// Two tables, of which the second is named `ab`; a byte behind a name is no spelling.
#[test]
fn catalogue_names_its_tables(rt: HostRuntime) -> Result<(), Fail> {
    let alloc = rt.alloc();
    let mut bytes = page(3, 2);
    bytes[16] = 1;
    bytes[17] = b't';
    bytes[16 + 34] = 42;
    bytes[80] = 2;
    bytes[81] = b'a';
    bytes[82] = b'b';
    bytes[80 + 34] = 50;
    let decoded: Result<Catalogue, PageFault> = decode(alloc, &bytes);
    assert!(rt; decoded.is_ok());
    if let Ok(catalogue) = decoded {
        assert_eq!(rt; catalogue.tables(), 2);
        assert_eq!(rt; catalogue.dba(), Dba(2));
        assert_eq!(rt; catalogue.lsn(), Lsn(0));
        assert_eq!(rt; catalogue.header(Obj(2)), Some(Dba(50)));
        assert_eq!(rt; catalogue.header(Obj(3)), None);
        if let Some(name) = Name::copy(alloc, b"ab")? {
            assert_eq!(rt; catalogue.table(&name), Some(Obj(2)));
        }
        if let Some(name) = Name::copy(alloc, b"u")? {
            assert_eq!(rt; catalogue.table(&name), None);
        }
        let mut again = [1; BLOCK_SIZE];
        catalogue.write(&mut again);
        assert_eq!(rt; again.as_slice(), bytes.as_slice());
    }
    bytes[18] = 1;
    let bad: Result<Catalogue, PageFault> = decode(alloc, &bytes);
    assert_eq!(rt; bad.err(), Some(PageFault::BadPage { offset: 18 }));
    Ok(())
}

// The first nine extents are in use, so the tenth is the least free one.
#[test]
fn space_finds_the_least_free_extent(rt: HostRuntime) -> Result<(), Fail> {
    let alloc = rt.alloc();
    let mut bytes = page(4, 3);
    bytes[23] = 5;
    bytes[24] = 0xff;
    bytes[25] = 0x80;
    let decoded: Result<SpaceBitmap, PageFault> = decode(alloc, &bytes);
    assert!(rt; decoded.is_ok());
    if let Ok(space) = decoded {
        assert_eq!(rt; space.lowerings(), 5);
        assert!(rt; !space.is_free(8));
        assert!(rt; space.is_free(9));
        assert_eq!(rt; space.least_free(2043), Some(9));
        assert_eq!(rt; space.least_free(9), None);
        let mut again = [1; BLOCK_SIZE];
        space.write(&mut again);
        assert_eq!(rt; again.as_slice(), bytes.as_slice());
    }
    assert_eq!(rt; SpaceBitmap::new(Dba(3)).least_free(1), Some(0));
    bytes[24 + 255] = 0x10;
    let bad: Result<SpaceBitmap, PageFault> = decode(alloc, &bytes);
    assert_eq!(rt; bad.err(), Some(PageFault::BadPage { offset: 279 }));
    Ok(())
}

// A table with PCTFREE 10 in extent 0, whose four data blocks are under the high mark.
#[test]
fn header_and_checkpoint_are_read_back(rt: HostRuntime) -> Result<(), Fail> {
    let alloc = rt.alloc();
    let mut bytes = page(10, 42);
    bytes[16] = 1;
    bytes[17] = 10;
    bytes[18] = 1;
    bytes[27] = 4;
    bytes[29] = 1;
    let decoded: Result<SegmentHeader, PageFault> = decode(alloc, &bytes);
    assert!(rt; decoded.is_ok());
    if let Ok(header) = decoded {
        assert_eq!(rt; header.obj(), Obj(1));
        assert_eq!(rt; header.pctfree(), 10);
        assert!(rt; header.movement());
        assert_eq!(rt; header.marks(), (0, 4));
        assert_eq!(rt; header.extents(), 1);
        assert_eq!(rt; header.extent_at(0), Some(0));
        assert_eq!(rt; header.extent_at(1), None);
        let mut again = [1; BLOCK_SIZE];
        header.write(&mut again);
        assert_eq!(rt; again.as_slice(), bytes.as_slice());
    }
    bytes[17] = 51;
    let bad: Result<SegmentHeader, PageFault> = decode(alloc, &bytes);
    assert_eq!(rt; bad.err(), Some(PageFault::BadPage { offset: 17 }));
    let empty = SegmentHeader::new(alloc, Dba(42), Obj(1), 10);
    assert_eq!(rt; empty.extents(), 0);
    let checkpoint = CheckpointPage::new(Dba(0), Lsn(9), 125, Scn(1));
    checkpoint.write(&mut bytes);
    assert_eq!(rt; bytes[15], 9);
    let again: Result<CheckpointPage, PageFault> = decode(alloc, &bytes);
    assert!(rt;
        matches!(&again, Ok(p) if p.length() == Lsn(9) && p.end_gate() == 125 && p.commits() == Scn(1))
    );
    bytes[15] = 8;
    let bad: Result<CheckpointPage, PageFault> = decode(alloc, &bytes);
    assert_eq!(rt; bad.err(), Some(PageFault::BadPage { offset: 15 }));
    Ok(())
}
