mod run;

use super::*;
use run::{Logged, RUN};
use seg_base::{Class, Dba, Ended, Lsn, Shape, TxnId};
use std::alloc::Global;
use std::process::Abort;
use std::test::Fail;

static SHAPE: Shape = Shape {
    blocks: 64,
    extent: 8,
    undo: 2,
};

/// No transaction has ended.
#[derive(Drop)]
struct NoneEnded;

impl Ended for NoneEnded {
    ghost use Rattle.std.specs.Prelude.{false};

    ghost has_ended = { λ e t. false };

    fn ended(&self, _txn: TxnId) -> bool {
        false
    }
}

/// The pages of the blocks that the run touches, never written.
fn zeros(alloc: Global) -> Result<Vec<Page>, Fail> {
    let mut pages = Vec::new(alloc);
    for block in [1u32, 2, 3, 37, 39, 40, 41, 42, 43, 44, 47] {
        pages.push(Page::Zero(Dba(block)))?;
    }
    Ok(pages)
}

/// Puts a record into the pages that it touches; each then has its number.
fn put(
    rt: &impl Abort,
    alloc: Global,
    pages: &mut Vec<Page>,
    logged: &Logged,
    lsn: u64,
) -> Result<(), Fail> {
    let (rec, _) = redo_record::decode(alloc, logged.record, 0)?;
    let blocks = touches(alloc, &rec, &SHAPE)?;
    assert_eq!(rt; blocks.len(), logged.touched.len());
    for (dba, wanted) in blocks.iter().zip(logged.touched.iter()) {
        assert_eq!(rt; dba.0, *wanted, "record {lsn}");
        for page in pages.iter_mut() {
            if dba_of(page) == *dba {
                apply(alloc, page, &rec, Lsn(lsn))?;
                assert_eq!(rt; lsn_of(page), Lsn(lsn), "record {lsn} on {wanted}");
            }
        }
    }
    Ok(())
}

fn rows(pages: &[Page], block: u32) -> (u16, Class, u64) {
    for page in pages {
        if let Page::Rows(rows) = page {
            if rows.dba() == Dba(block) {
                let class = rows.class(&NoneEnded, 10);
                return (rows.free(&NoneEnded), class, rows.lsn().0);
            }
        }
    }
    (0, Class::Unformatted, 0)
}

/// The bytes of a block's page that aren't zero, each with its place.
fn shown(alloc: Global, pages: &[Page], block: u32) -> Result<Vec<(usize, u8)>, Fail> {
    let mut bytes = [0; 4096];
    for page in pages {
        if dba_of(page) == Dba(block) {
            encode(page, &mut bytes);
        }
    }
    let mut shown = Vec::new(alloc);
    for (at, byte) in bytes.iter().enumerate() {
        if *byte != 0 {
            shown.push((at, *byte))?;
        }
    }
    Ok(shown)
}

// The first nine records make a table with a row, commit it and clean its block. The bytes of its header and of its block are
// worked out by hand.
#[test]
fn a_row_is_made_and_cleaned(rt: HostRuntime) -> Result<(), Fail> {
    let alloc = rt.alloc();
    let mut pages = zeros(alloc)?;
    for (i, logged) in RUN.iter().take(9).enumerate() {
        put(&rt, alloc, &mut pages, logged, i as u64 + 1)?;
        if i == 6 {
            assert_eq!(rt; rows(&pages, 43), (3987, Class::Fs4, 7));
        }
    }
    assert_eq!(rt; rows(&pages, 43), (3987, Class::Fs4, 9));
    let header: [(usize, u8); 7] = [
        (0, 10),
        (7, 42),
        (15, 3),
        (16, 1),
        (17, 10),
        (27, 4),
        (29, 1),
    ];
    assert!(rt; shown(alloc, &pages, 42)?.as_slice() == header.as_slice());
    let block: [(usize, u8); 17] = [
        (0, 11),
        (1, 2),
        (2, 1),
        (7, 43),
        (15, 9),
        (64, 1),
        (73, 1),
        (77, 37),
        (85, 1),
        (94, 1),
        (101, 5),
        (103, 5),
        (104, 104),
        (105, 101),
        (106, 108),
        (107, 108),
        (108, 111),
    ];
    assert!(rt; shown(alloc, &pages, 43)?.as_slice() == block.as_slice());
    Ok(())
}

// Each record is put into each page that it touches, and each page of the run is read back as it is written.
#[test]
fn each_kind_changes_the_pages_that_it_touches(rt: HostRuntime) -> Result<(), Fail> {
    let alloc = rt.alloc();
    let mut pages = zeros(alloc)?;
    for (i, logged) in RUN.iter().enumerate() {
        put(&rt, alloc, &mut pages, logged, i as u64 + 1)?;
    }
    for page in pages.iter() {
        let mut bytes = [1; 4096];
        encode(page, &mut bytes);
        let read = decode(alloc, dba_of(page), &bytes)?;
        let mut again = [1; 4096];
        encode(&read, &mut again);
        assert!(rt; bytes.as_slice() == again.as_slice());
    }
    Ok(())
}
