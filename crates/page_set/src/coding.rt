// The bytes of a page of any kind.
ghost use Rattle.std.specs.Prelude.{◌≡◌, List, ℕ};
ghost use Rattle.seg_words.specs.Types.{EXTENTS_OF_L2};
ghost use Rattle.page_bytes.specs.Pages.{Decodes, IsReadAs};
ghost use Rattle.bitmap_block.specs.Pages.{map_in, summary_in};
ghost use Rattle.row_block.specs.Spelling.{page_in as rows_in};
ghost use Rattle.segment_blocks.specs.Catalogues.{tables_in};
ghost use Rattle.segment_blocks.specs.Checkpoints.{checkpoint_in};
ghost use Rattle.segment_blocks.specs.Headers.{header_in};
ghost use Rattle.segment_blocks.specs.Spaces.{space_in};
ghost use Rattle.txn_block.specs.Pages.{table_in as txns_in};
ghost use Rattle.undo_block.specs.UndoPage.{page_in as undo_in};
ghost use Rattle.page_set.specs.declared.page.Page.{Page};
ghost use Rattle.page_set.specs.declared.page.Page.TheVariants as kinds;
ghost use Rattle.page_set.specs.Pages.{dba_of};
ghost use Rattle.page_set.specs.Spelled.{spelling_of, HasSpelling, meaning_of, DecodesAt};

use crate::page::{Page, dba_of};
use bitmap_block::{L1, L2, L3};
use page_bytes::{PageFault, PageForm, first_wrong};
use row_block::RowBlock;
use seg_base::{BLOCK_SIZE, Dba};
use segment_blocks::{Catalogue, CheckpointPage, SegmentHeader, SpaceBitmap};
use std::alloc::Global;
use txn_block::TxnBlock;
use undo_block::UndoBlock;

static ZEROS: [u8; BLOCK_SIZE] = [0; BLOCK_SIZE];

fn read_checkpoint(alloc: Global, bytes: &[u8; BLOCK_SIZE]) -> Result<Page, PageFault>
    ensures { Decodes spelling_of (λ b. kinds.Checkpoint (checkpoint_in b)) bytes.now result }
{
    let page: CheckpointPage = page_bytes::decode(alloc, bytes)?;
    Ok(Page::Checkpoint(page))
}

fn read_txns(alloc: Global, bytes: &[u8; BLOCK_SIZE]) -> Result<Page, PageFault>
    ensures { Decodes spelling_of (λ b. kinds.Txns (txns_in b)) bytes.now result }
{
    let page: TxnBlock = page_bytes::decode(alloc, bytes)?;
    Ok(Page::Txns(page))
}

fn read_catalogue(alloc: Global, bytes: &[u8; BLOCK_SIZE]) -> Result<Page, PageFault>
    ensures { Decodes spelling_of (λ b. kinds.Catalogue (tables_in b)) bytes.now result }
{
    let page: Catalogue = page_bytes::decode(alloc, bytes)?;
    Ok(Page::Catalogue(page))
}

fn read_space(alloc: Global, bytes: &[u8; BLOCK_SIZE]) -> Result<Page, PageFault>
    ensures { Decodes spelling_of (λ b. kinds.Space (space_in b)) bytes.now result }
{
    let page: SpaceBitmap = page_bytes::decode(alloc, bytes)?;
    Ok(Page::Space(page))
}

fn read_undo(alloc: Global, bytes: &[u8; BLOCK_SIZE]) -> Result<Page, PageFault>
    ensures { Decodes spelling_of (λ b. kinds.Undo (undo_in b)) bytes.now result }
{
    let page: UndoBlock = page_bytes::decode(alloc, bytes)?;
    Ok(Page::Undo(page))
}

fn read_first(alloc: Global, bytes: &[u8; BLOCK_SIZE]) -> Result<Page, PageFault>
    ensures { Decodes spelling_of (λ b. kinds.First (map_in b)) bytes.now result }
{
    let page: L1 = page_bytes::decode(alloc, bytes)?;
    Ok(Page::First(page))
}

fn read_second(alloc: Global, bytes: &[u8; BLOCK_SIZE]) -> Result<Page, PageFault>
    ensures { Decodes spelling_of (λ b. kinds.Second (summary_in EXTENTS_OF_L2 b)) bytes.now result }
{
    let page: L2 = page_bytes::decode(alloc, bytes)?;
    Ok(Page::Second(page))
}

fn read_third(alloc: Global, bytes: &[u8; BLOCK_SIZE]) -> Result<Page, PageFault>
    ensures { Decodes spelling_of (λ b. kinds.Third (summary_in 3 b)) bytes.now result }
{
    let page: L3 = page_bytes::decode(alloc, bytes)?;
    Ok(Page::Third(page))
}

fn read_header(alloc: Global, bytes: &[u8; BLOCK_SIZE]) -> Result<Page, PageFault>
    ensures { Decodes spelling_of (λ b. kinds.Header (header_in b)) bytes.now result }
{
    let page: SegmentHeader = page_bytes::decode(alloc, bytes)?;
    Ok(Page::Header(page))
}

fn read_rows(alloc: Global, bytes: &[u8; BLOCK_SIZE]) -> Result<Page, PageFault>
    ensures { Decodes spelling_of (λ b. kinds.Rows (rows_in b)) bytes.now result }
{
    let page: RowBlock = page_bytes::decode(alloc, bytes)?;
    Ok(Page::Rows(page))
}

fn read_zero(dba: Dba, bytes: &[u8; BLOCK_SIZE]) -> Result<Page, PageFault>
    ensures { Decodes spelling_of (λ b. kinds.Zero dba) bytes.now result }
{
    let at = first_wrong(bytes, &ZEROS);
    if at < BLOCK_SIZE {
        return Err(PageFault::BadPage { offset: at as u16 });
    }
    Ok(Page::Zero(dba))
}

fn read(alloc: Global, dba: Dba, bytes: &[u8; BLOCK_SIZE]) -> Result<Page, PageFault>
    ensures { Decodes spelling_of (meaning_of dba) bytes.now result }
{
    match bytes[0] {
        1 => read_checkpoint(alloc, bytes),
        2 => read_txns(alloc, bytes),
        3 => read_catalogue(alloc, bytes),
        4 => read_space(alloc, bytes),
        6 => read_undo(alloc, bytes),
        7 => read_first(alloc, bytes),
        8 => read_second(alloc, bytes),
        9 => read_third(alloc, bytes),
        10 => read_header(alloc, bytes),
        11 => read_rows(alloc, bytes),
        _ => read_zero(dba, bytes),
    }
}

fn read_at(alloc: Global, dba: Dba, bytes: &[u8; BLOCK_SIZE]) -> Result<Page, PageFault>
    ensures { DecodesAt dba bytes.now result }
{
    let page = read(alloc, dba, bytes)?;
    if dba_of(&page) != dba {
        return Err(PageFault::BadPage { offset: 4 });
    }
    Ok(page)
}

/// The page that a block's bytes spell, or the first byte that is wrong. The page of another block is none: its first wrong
/// byte is told as that of the block's number.
pub fn decode(alloc: Global, dba: Dba, bytes: &[u8; BLOCK_SIZE]) -> Result<Page, PageFault>
    ensures exact { DecodesAt dba bytes.now result }
    // What is spelled is read.
    ensures only { (p : Page) → HasSpelling p → dba_of p ≡ dba → bytes.now ≡ spelling_of p → IsReadAs p result }
{
    read_at(alloc, dba, bytes)
}

/// Writes the one page that spells it.
pub fn encode(page: &Page, out: &mut [u8; BLOCK_SIZE])
    ensures { out.new ≡ spelling_of page.now }
{
    match page {
        Page::Zero(_) => *out = [0; BLOCK_SIZE],
        Page::Checkpoint(point) => point.write(out),
        Page::Txns(table) => table.write(out),
        Page::Catalogue(catalogue) => catalogue.write(out),
        Page::Space(space) => space.write(out),
        Page::Undo(block) => block.write(out),
        Page::First(map) => map.write(out),
        Page::Second(map) => map.write(out),
        Page::Third(map) => map.write(out),
        Page::Header(header) => header.write(out),
        Page::Rows(block) => block.write(out),
    }
}
