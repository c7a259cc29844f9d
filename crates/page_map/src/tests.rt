use super::*;
use page_set::lsn_of;
use redo_record::{CommitRecord, decode};
use seg_base::{Dba, Lsn, Scn, Shape, TxnId};
use std::alloc::Global;
use std::process::Abort;
use std::test::Fail;

static SHAPE: Shape = Shape {
    blocks: 64,
    extent: 8,
    undo: 2,
};

// A table with its first extent, four blocks under the high mark, block 43 formatted, transaction 1, its undo block, and a row.
static RUN: [&[u8]; 7] = [
    &[1, 1, 0, 0, 0, 42, 10, 1, 116],
    &[
        3, 1, 0, 0, 0, 42, 0, 0, 0, 0, 0, 0, 0, 0, 0, 40, 0, 0, 0, 41,
    ],
    &[6, 1, 0, 0, 0, 42, 0, 0, 0, 0, 0, 0, 0, 4],
    &[4, 1, 0, 0, 0, 43, 0, 0, 0, 40, 0, 0, 0, 41, 0, 0, 5, 5],
    &[8, 0, 0, 0, 0, 0, 0, 0, 1, 1, 0, 0, 0, 0, 0, 0, 0, 0, 0],
    &[9, 0, 0, 0, 37, 0, 0, 0, 0, 0, 0, 0, 1],
    &[
        10, 0, 0, 0, 0, 0, 0, 0, 1, 0, 1, 0, 0, 0, 0, 0, 0, 0, 1, 0, 0, 0, 37, 0, 0, 0, 0, 0, 0, 0,
        1, 0, 0, 0, 0, 0, 0, 1, 0, 0, 0, 43, 0, 0, 1, 1, 0, 0, 0, 0, 0, 0, 0, 1, 0, 0, 0, 37, 0, 0,
        0, 0, 0, 0, 0, 1, 0, 0, 0, 0, 0, 0, 0, 0, 1, 0, 0, 0, 0, 0, 0, 5, 0, 5, 104, 101, 108, 108,
        111, 0, 0, 0, 0, 0, 0, 0, 0, 0, 0, 0, 0, 0, 0, 0, 0, 0, 0, 0, 0, 0, 0, 0, 0, 0, 0, 0, 0, 0,
        0, 0, 0, 0, 0, 0, 0, 0, 0, 0, 0,
    ],
];

// The number in the LSN field of each of these blocks' pages, by the blocks that each record touches.
static NUMBERS: [(u32, u64); 12] = [
    (0, 0),
    (1, 8),
    (2, 1),
    (3, 2),
    (37, 7),
    (38, 0),
    (39, 4),
    (40, 4),
    (41, 4),
    (42, 3),
    (43, 7),
    (63, 0),
];

fn number_at(pages: &Pages, block: u32) -> Option<Lsn> {
    match pages.page(Dba(block)) {
        Some(page) => Some(lsn_of(page)),
        None => None,
    }
}

fn put(alloc: Global, pages: &mut Pages, bytes: &[u8], lsn: u64) -> Result<(), Fail> {
    let (rec, _) = decode(alloc, bytes, 0)?;
    let changed = pages.prepare(alloc, &SHAPE, &rec, Lsn(lsn))?;
    pages.install(changed);
    Ok(())
}

// The pair stands at numbers 1 and 2, the commit at 8.
#[test]
fn each_page_has_the_number_of_its_last_record(rt: HostRuntime) -> Result<(), Fail> {
    let alloc = rt.alloc();
    let mut pages = Pages::new(alloc, &SHAPE)?;
    let (table, _) = decode(alloc, RUN[0], 0)?;
    let (extend, _) = decode(alloc, RUN[1], 0)?;
    let changed = pages.prepare_two(alloc, &SHAPE, &table, &extend, Lsn(1))?;
    assert_eq!(rt; number_at(&pages, 42), Some(Lsn(0)));
    pages.install(changed);
    for (i, bytes) in RUN.iter().enumerate().skip(2) {
        put(alloc, &mut pages, bytes, i as u64 + 1)?;
    }
    let c = CommitRecord {
        txn: TxnId(1),
        number: Scn(1),
        entry: 0,
    };
    pages.commit(c, Lsn(8))?;
    for (block, number) in NUMBERS.iter() {
        assert_eq!(rt;
            number_at(&pages, *block),
            Some(Lsn(*number)),
            "block {block}"
        );
    }
    assert!(rt; number_at(&pages, 64) == None);
    Ok(())
}

// The pages after the run's records, but for the first so many.
fn made(alloc: Global, skipped: usize) -> Result<Result<Pages, PageFault>, Fail> {
    let mut records = Vec::new(alloc);
    for bytes in RUN.iter().skip(skipped) {
        let (rec, _) = decode(alloc, bytes, 0)?;
        records.push(rec)?;
    }
    Ok(Pages::after(alloc, &SHAPE, &records))
}

// Alone, a row record finds no transaction table.
#[test]
fn records_are_put_into_pages_in_their_order(rt: HostRuntime) -> Result<(), Fail> {
    let alloc = rt.alloc();
    let pages = made(alloc, 0)??;
    for (block, number) in [(1, 7), (42, 3), (43, 7)] {
        assert_eq!(rt; number_at(&pages, block), Some(Lsn(number)));
    }
    assert_eq!(rt;
        made(alloc, 6)?.err(),
        Some(PageFault::BadPage { block: 1 })
    );
    Ok(())
}
