// What a page shows of a slot to a reader.
ghost use Rattle.std.specs.Prelude.{◌≡◌, ℕ, List, Some, option_map, IfOk, MatchOption};
ghost use Rattle.seg_words.specs.Types.{Shape as TheShape};
ghost use Rattle.redo_model.specs.Records.{Record};
ghost use Rattle.redo_model.specs.Model.{slot_count};
ghost use Rattle.page_set.specs.Folded.{page_of};
ghost use Rattle.version_laws.specs.Types.{HoldsRows};
ghost use Rattle.scan_table.specs.Reading.{rows_of, row_of, IsReading, Shows, ShowsAs};
ghost use Rattle.scan_table.specs.declared.reader.Reader.{Reader as TheReader};

use history_text::RowOut;
use page_set::Page;
use row_block::RowBlock;
use seg_base::{NoMemory, Scn, Shape, Slot, TxnId, UndoAddr};
use std::alloc::Global;
use txn_block::TxnBlock;
use version_read::{Version, look_in};

/// As whom rows are read: by the transaction table of a store of this shape, at a commit number, by an active transaction or none.
#[derive(Drop)]
pub struct Reader {
    pub shape: Shape,
    pub table: TxnBlock,
    pub at: Scn,
    pub own: Option<TxnId>,
}

/// What a slot shows by its page and the transaction table alone: its row; nothing; that an older image counts, which stands at an
/// undo address; or that an image names a transaction which is forgotten, so that it isn't known whether it counts.
#[derive(Drop)]
pub enum Shown {
    Row(RowOut),
    Nothing,
    Below(UndoAddr),
    TooOldEntry(TxnId),
}

pub fn copy_row(alloc: Global, image: &Slot) -> Result<RowOut, NoMemory>
    ensures { IfOk result (λ row. row ≡ row_of image.now) }
{
    let bytes = image.bytes.duplicate(alloc)?;
    Ok(RowOut {
        row: image.row,
        bytes,
    })
}

fn shown_by(alloc: Global, version: &Version) -> Result<Shown, NoMemory>
    ensures { IfOk result (ShowsAs version.now) }
{
    match version {
        Version::Row(image) => match copy_row(alloc, image) {
            Ok(row) => Ok(Shown::Row(row)),
            Err(_) => Err(NoMemory),
        },
        Version::Nothing => Ok(Shown::Nothing),
        Version::Step(below) => Ok(Shown::Below(*below)),
        Version::TooOldEntry(txn) => Ok(Shown::TooOldEntry(TxnId(txn.0))),
    }
}

fn slot_shown(alloc: Global, block: &RowBlock, slot: u8, reader: &Reader) -> Result<Shown, NoMemory>
    ensures { (sh : TheShape) (R : List Record) (o b : ℕ) → IsReading sh R reader.now o b → HoldsRows R b block.now → IfOk result (Shows R reader.now b slot) }
{
    match look_in(block, slot, &reader.table, reader.at, reader.own) {
        None => Ok(Shown::Nothing),
        Some(version) => shown_by(alloc, &version),
    }
}

fn rows_in(page: &Page) -> Option<&RowBlock>
    ensures { option_map (λ b. b.now) result ≡ rows_of page.now }
{
    match page {
        Page::Rows(block) => Some(block),
        _ => None,
    }
}

/// What a slot shows, by the page of its block. None of a page that holds no rows.
pub fn shown_in(
    alloc: Global,
    page: &Page,
    slot: u8,
    reader: &Reader,
) -> Result<Option<Shown>, NoMemory>
    ensures { (sh : TheShape) (R : List Record) (o b : ℕ) → IsReading sh R reader.now o b → page.now ≡ page_of reader.now.shape R b → IfOk result (λ x. MatchOption x ⊥ (Shows R reader.now b slot)) }
{
    match rows_in(page) {
        None => Ok(None),
        Some(block) => match slot_shown(alloc, block, slot, reader) {
            Ok(shown) => Ok(Some(shown)),
            Err(_) => Err(NoMemory),
        },
    }
}

/// How many slots a block has, by its page. None of a page that holds no rows.
pub fn slots_in(page: &Page) -> Option<u8>
    ensures { (sh : TheShape) (R : List Record) (o b : ℕ) (q : TheReader) → IsReading sh R q o b → page.now ≡ page_of q.shape R b → MatchOption result ⊥ (λ n. n ≡ slot_count R b) }
{
    match rows_in(page) {
        None => None,
        Some(block) => Some(block.slots()),
    }
}
