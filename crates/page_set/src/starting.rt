// The pages that records make anew.
ghost use Rattle.std.specs.Prelude.{◌≡◌, IfOk, IfErr};
ghost use Rattle.page_set.specs.Changes.{Fits};
ghost use Rattle.page_set.specs.Started.{as_txns, as_catalogue, as_space, table_started, extent_started, started, start};
ghost use Rattle.page_set.specs.declared.fault.Unfit.TheVariants as faults;
ghost use Rattle.redo_record.specs.declared.record.Record.TheVariants.{Table};

use crate::fault::Unfit;
use crate::header::table_fits;
use crate::page::{Page, dba_of};
use bitmap_block::{L1, L2, L3};
use redo_record::{ExtendRecord, Record, TableRecord};
use row_block::RowBlock;
use seg_base::{Dba, EXTENTS_OF_L2, Lsn, NoMemory};
use segment_blocks::{Catalogue, SegmentHeader, SpaceBitmap};
use std::alloc::Global;
use txn_block::TxnBlock;
use undo_block::UndoBlock;

/// The blocks of the catalogue and of the space bitmap.
const CATALOGUE: Dba = Dba(2);

const SPACE: Dba = Dba(3);

fn as_txns(alloc: Global, page: &Page) -> Result<Option<Page>, NoMemory>
    ensures { IfOk result (λ p. p ≡ as_txns page.now) }
{
    match page {
        Page::Zero(dba) => Ok(Some(Page::Txns(TxnBlock::new(alloc, *dba)?))),
        _ => Ok(None),
    }
}

fn as_catalogue(alloc: Global, page: &Page) -> Result<Option<Page>, NoMemory>
    ensures { IfOk result (λ p. p ≡ as_catalogue page.now) }
{
    match page {
        Page::Zero(dba) => Ok(Some(Page::Catalogue(Catalogue::new(alloc, *dba)?))),
        _ => Ok(None),
    }
}

fn as_space(page: &Page) -> Option<Page>
    ensures { result ≡ as_space page.now }
{
    match page {
        Page::Zero(dba) => Some(Page::Space(SpaceBitmap::new(*dba))),
        _ => None,
    }
}

/// The catalogue, or the header of the table.
fn table_started(
    alloc: Global,
    page: &Page,
    table: &TableRecord,
    lsn: Lsn,
) -> Result<Option<Page>, Unfit>
    ensures done { IfOk result (λ p. p ≡ table_started table.now page.now) }
    ensures fault { Fits (Table table.now) lsn page.now → IfErr result (λ e. e ≡ faults.NoMemory) }
{
    let dba = dba_of(page);
    if dba == CATALOGUE {
        return Ok(as_catalogue(alloc, page)?);
    }
    let obj = table.obj;
    if !table_fits(table) {
        return Err(Unfit::Misfit);
    }
    Ok(Some(Page::Header(SegmentHeader::new(alloc, dba, obj, table.pctfree))))
}

/// The bitmaps of an extent that a table gets.
fn extent_started(page: &Page, e: &ExtendRecord, lsn: Lsn) -> Option<Page>
    ensures { result ≡ extent_started e.now lsn page.now }
{
    let dba = dba_of(page);
    if dba == SPACE {
        return as_space(page);
    }
    if dba == e.header {
        return None;
    }
    if dba == e.l2 {
        if e.index % EXTENTS_OF_L2 as u16 == 0 {
            return Some(Page::Second(L2::new(dba)));
        }
        return None;
    }
    if dba == e.l3 {
        if e.index == 0 {
            return Some(Page::Third(L3::new(dba)));
        }
        return None;
    }
    Some(Page::First(L1::new(dba, lsn)))
}

/// The page that the record makes anew, whatever stood there.
pub fn started(alloc: Global, page: &Page, rec: &Record, lsn: Lsn) -> Result<Option<Page>, Unfit>
    ensures done { IfOk result (λ p. p ≡ started rec.now lsn page.now) }
    ensures fault { Fits rec.now lsn page.now → IfErr result (λ e. e ≡ faults.NoMemory) }
{
    let dba = dba_of(page);
    match rec {
        Record::Table(table) => table_started(alloc, page, table, lsn),
        Record::Extend(e) => Ok(extent_started(page, e, lsn)),
        Record::FormatBlock(f) => {
            if f.dba == dba {
                return Ok(Some(Page::Rows(RowBlock::new(alloc, dba))));
            }
            Ok(None)
        }
        Record::Begin(_) => Ok(as_txns(alloc, page)?),
        Record::Reuse(q) => {
            if q.block == dba.0 {
                return Ok(Some(Page::Undo(UndoBlock::renewed(alloc, dba, q.sequence))));
            }
            Ok(None)
        }
        _ => Ok(None),
    }
}

/// A copy of the page, or the page that the record makes anew.
pub fn start(alloc: Global, page: &Page, rec: &Record, lsn: Lsn) -> Result<Page, Unfit>
    ensures done { IfOk result (λ p. p ≡ start rec.now lsn page.now) }
    ensures fault { Fits rec.now lsn page.now → IfErr result (λ e. e ≡ faults.NoMemory) }
{
    match started(alloc, page, rec, lsn)? {
        None => Ok(page.duplicate(alloc)?),
        Some(made) => Ok(made),
    }
}
