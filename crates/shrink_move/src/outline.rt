// The image of a slot as a shrink looks at it, and that of the slot that holds its row.
ghost use Rattle.std.specs.Prelude.{◌≡◌, ◌≤◌, ◌<◌, ◌^◌, ℕ, List, None, length, slice_index_or, IfOk, IfErr};
ghost use Rattle.seg_words.specs.Types.{LONGEST_ROW, Slot as TheSlot, new_slot};
ghost use Rattle.redo_model.specs.Records.{Record};
ghost use Rattle.redo_model.specs.Model.{image};
ghost use Rattle.store_core.specs.Causes.{HasLooked, IsSoundFault};
ghost use Rattle.store_core.specs.Store.{IsTrue};
ghost use Rattle.shrink_laws.specs.Stops.{IsFull, row_image};
ghost use Rattle.shrink_move.specs.Asked.{body_of, outline_if, outline_in, outline_of};

use disk_model::Disk;
use page_set::Page;
use row_block::RowBlock;
use seg_base::{Kind, LONGEST_ROW, NoMemory, RowNo, Rowid, Scn, Slot, Writer};
use std::alloc::Global;
use store_core::{Question, Store, StoreFault, ask};

/// The image of a slot with the length of its row in place of the row.
#[derive(Clone, Copy, Drop)]
pub struct Outline {
    pub kind: Kind,
    pub writer: Writer,
    pub row: RowNo,
    pub link: Option<Rowid>,
    pub len: u16,
}

fn outline_if(image: &Slot) -> Option<Outline>
    ensures { result ≡ outline_if image.now }
{
    if image.bytes.len() > LONGEST_ROW {
        return None;
    }
    Some(Outline {
        kind: image.kind,
        writer: image.writer,
        row: image.row,
        link: image.link,
        len: image.bytes.len() as u16,
    })
}

fn no_outline() -> Option<Outline>
    ensures { result ≡ outline_if new_slot }
{
    Some(Outline {
        kind: Kind::Empty,
        writer: Writer::At(Scn(0)),
        row: RowNo(0),
        link: None,
        len: 0,
    })
}

fn outline_at(rows: &RowBlock, slot: u8) -> Option<Outline>
    ensures { result ≡ outline_if (slice_index_or rows.now.block.slots slot new_slot) }
{
    match rows.slot(slot) {
        Some(image) => outline_if(image),
        None => no_outline(),
    }
}

fn outline_in(page: &Page, slot: u8) -> Option<Outline>
    ensures { result ≡ outline_in slot page.now }
{
    match page {
        Page::Rows(rows) => outline_at(rows, slot),
        _ => None,
    }
}

/// Asks a row block for the image of a slot.
#[derive(Clone, Copy)]
struct OutlineAt {
    slot: u8,
}

impl Question for OutlineAt {
    ghost use Rattle.shrink_move.specs.Asked.{outline_in};

    type Answer = Outline;

    ghost reads = { λ q page. outline_in q.slot page };

    fn read(&self, alloc: Global, page: &Page) -> Result<Option<Outline>, NoMemory> {
        let _ = alloc;
        Ok(outline_in(page, self.slot))
    }
}

/// The image of a slot that holds something.
pub fn slot_outline<D: Disk>(
    alloc: Global,
    store: &mut Store<D>,
    at: &Rowid,
) -> Result<Outline, StoreFault>
    ensures looked { HasLooked D.meaning store.old store.new result }
    ensures says { (R : List Record) → IsTrue D.meaning R store.old → IsFull R at.now.dba at.now.slot → IfOk result (λ x. x ≡ outline_of (image R at.now.dba at.now.slot)) }
    ensures sound { (R : List Record) → IsTrue D.meaning R store.old → IsFull R at.now.dba at.now.slot → store.old.fault ≡ None → IfErr result IsSoundFault }
{
    ask(alloc, store, at.dba, &OutlineAt { slot: at.slot })
}

/// Where the body of a row stands, whose head this is.
pub fn body_of(outline: &Outline) -> Option<Rowid>
    ensures { result ≡ body_of outline.now.kind outline.now.link }
{
    match outline.kind {
        Kind::Head => outline.link,
        Kind::Empty | Kind::Row | Kind::Body => None,
    }
}

/// The image that holds the row of a slot, which is the slot's own or that of its body.
pub fn row_outline<D: Disk>(
    alloc: Global,
    store: &mut Store<D>,
    own: &Outline,
    body: &Option<Rowid>,
) -> Result<Outline, StoreFault>
    requires unspent { store.old.fault ≡ None }
    ensures looked { HasLooked D.meaning store.old store.new result }
    ensures says { (R : List Record) (b k : ℕ) → IsTrue D.meaning R store.old → own.now ≡ outline_of (image R b k) → body.now ≡ body_of own.now.kind own.now.link → IfOk result (λ x. x ≡ outline_of (row_image R b k)) }
    ensures sound { (R : List Record) (b k : ℕ) → IsTrue D.meaning R store.old → own.now ≡ outline_of (image R b k) → body.now ≡ body_of own.now.kind own.now.link → IfErr result IsSoundFault }
{
    match body {
        None => Ok(*own),
        Some(at) => slot_outline(alloc, store, at),
    }
}
