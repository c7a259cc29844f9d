// A page of the store.
ghost use Rattle.std.specs.Prelude.{◌≡◌, IfOk};
ghost use Rattle.page_set.specs.Pages.{dba_of, lsn_of};

use bitmap_block::{L1, L2, L3};
use row_block::RowBlock;
use seg_base::{Dba, Lsn, NoMemory};
use segment_blocks::{Catalogue, CheckpointPage, SegmentHeader, SpaceBitmap};
use std::alloc::Global;
use txn_block::TxnBlock;
use undo_block::UndoBlock;

/// A page of the store: one that was never written, or one of the kinds.
#[derive(Debug, Drop)]
pub enum Page {
    Zero(Dba),
    Checkpoint(CheckpointPage),
    Txns(TxnBlock),
    Catalogue(Catalogue),
    Space(SpaceBitmap),
    Undo(UndoBlock),
    First(L1),
    Second(L2),
    Third(L3),
    Header(SegmentHeader),
    Rows(RowBlock),
}

pub fn dba_of(page: &Page) -> Dba
    ensures { result ≡ dba_of page.now }
{
    match page {
        Page::Zero(dba) => *dba,
        Page::Checkpoint(point) => point.dba(),
        Page::Txns(table) => table.dba(),
        Page::Catalogue(catalogue) => catalogue.dba(),
        Page::Space(space) => space.dba(),
        Page::Undo(block) => block.dba(),
        Page::First(map) => map.dba(),
        Page::Second(map) => map.dba(),
        Page::Third(map) => map.dba(),
        Page::Header(header) => header.dba(),
        Page::Rows(block) => block.dba(),
    }
}

/// The number in the page's LSN field: that of the last record that changed the page, 0 for none.
pub fn lsn_of(page: &Page) -> Lsn
    ensures { result ≡ lsn_of page.now }
{
    match page {
        Page::Zero(_) => Lsn(0),
        Page::Checkpoint(point) => point.length(),
        Page::Txns(table) => table.lsn(),
        Page::Catalogue(catalogue) => catalogue.lsn(),
        Page::Space(space) => space.lsn(),
        Page::Undo(block) => block.lsn(),
        Page::First(map) => map.lsn(),
        Page::Second(map) => map.lsn(),
        Page::Third(map) => map.lsn(),
        Page::Header(header) => header.lsn(),
        Page::Rows(block) => block.lsn(),
    }
}

pub fn rows_copy(alloc: Global, block: &RowBlock) -> Result<RowBlock, NoMemory>
    ensures { IfOk result (λ copy. copy ≡ block.now) }
{
    match block.duplicate(alloc) {
        Ok(copy) => Ok(copy),
        Err(_) => Err(NoMemory),
    }
}

impl Page {
    pub fn duplicate(&self, alloc: Global) -> Result<Page, NoMemory>
        ensures { IfOk result (λ page. page ≡ self.now) }
    {
        match self {
            Page::Zero(dba) => Ok(Page::Zero(*dba)),
            Page::Checkpoint(point) => Ok(Page::Checkpoint(point.duplicate())),
            Page::Txns(table) => Ok(Page::Txns(table.duplicate(alloc)?)),
            Page::Catalogue(catalogue) => Ok(Page::Catalogue(catalogue.duplicate(alloc)?)),
            Page::Space(space) => Ok(Page::Space(space.duplicate())),
            Page::Undo(block) => Ok(Page::Undo(block.duplicate(alloc)?)),
            Page::First(map) => Ok(Page::First(map.duplicate())),
            Page::Second(map) => Ok(Page::Second(map.duplicate())),
            Page::Third(map) => Ok(Page::Third(map.duplicate())),
            Page::Header(header) => Ok(Page::Header(header.duplicate(alloc)?)),
            Page::Rows(block) => Ok(Page::Rows(rows_copy(alloc, block)?)),
        }
    }
}
