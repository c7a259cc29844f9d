// The slot of a block to which a shrink comes: the greatest that holds something and wasn't skipped.
ghost use Rattle.std.specs.Prelude.{◌≡◌, ◌≤◌, ◌&&◌, eqb, IfOk, length};
ghost use Rattle.seg_words.specs.Types.{MOST_SLOTS, is_empty};
ghost use Rattle.redo_model.specs.Model.{is_place};
ghost use Rattle.shrink_laws.specs.Stops.{is_skipped};
ghost use Rattle.shrink_move.specs.Asked.{is_open, open_below, open_in};

use page_set::Page;
use row_block::RowBlock;
use seg_base::{Dba, Kind, Newest, NoMemory, Rowid};
use shrink_laws::Skip;
use std::alloc::Global;
use store_core::Question;

fn is_at(skip: &Skip, at: &Rowid) -> bool
    ensures { result ≡ is_place skip.now.block skip.now.slot at.now.dba at.now.slot }
{
    skip.block == at.dba && skip.slot == at.slot
}

fn is_among(skips: &[Skip], at: &Rowid) -> bool
    ensures { result ≡ is_skipped skips.now at.now.dba at.now.slot }
{
    match skips {
        [] => false,
        [first, rest @ ..] => is_at(first, at) || is_among(rest, at),
    }
}

/// Whether the slot was skipped.
fn is_skipped(skips: &Newest<Skip>, at: &Rowid) -> bool
    ensures { result ≡ is_skipped skips.now at.now.dba at.now.slot }
{
    is_among(skips.as_slice(), at)
}

fn is_empty(kind: Kind) -> bool
    ensures { result ≡ is_empty kind }
{
    match kind {
        Kind::Empty => true,
        Kind::Row | Kind::Head | Kind::Body => false,
    }
}

/// Whether a slot of the block holds something and wasn't skipped.
fn is_open(rows: &RowBlock, at: &Rowid, skips: &Newest<Skip>) -> bool
    ensures { result ≡ is_open skips.now at.now.dba rows.now.block.slots at.now.slot }
{
    match rows.slot(at.slot) {
        None => false,
        Some(image) => !is_empty(image.kind) && !is_skipped(skips, at),
    }
}

/// The greatest of the first n slots that is open.
fn open_below(rows: &RowBlock, dba: &Dba, skips: &Newest<Skip>, n: u8) -> Option<u8>
    ensures { result ≡ open_below skips.now dba.now rows.now.block.slots n }
{
    if n == 0 {
        return None;
    }
    let slot = n - 1;
    if is_open(rows, &Rowid { dba: *dba, slot }, skips) {
        return Some(slot);
    }
    open_below(rows, dba, skips, slot)
}

fn open_in(page: &Page, dba: &Dba, skips: &Newest<Skip>) -> Option<Option<u8>>
    ensures { result ≡ open_in skips.now dba.now page.now }
{
    match page {
        Page::Rows(rows) => Some(open_below(rows, dba, skips, rows.slots())),
        _ => None,
    }
}

/// Asks a row block for its greatest open slot.
#[derive(Clone, Copy)]
pub struct OpenIn<'a> {
    pub dba: Dba,
    pub skips: &'a Newest<Skip>,
}

impl<'a> Question for OpenIn<'a> {
    ghost use Rattle.shrink_move.specs.Asked.{open_in};

    type Answer = Option<u8>;

    ghost reads = { λ q page. open_in q.skips.now q.dba page };

    fn read(&self, alloc: Global, page: &Page) -> Result<Option<Option<u8>>, NoMemory> {
        let _ = alloc;
        Ok(open_in(page, &self.dba, self.skips))
    }
}
