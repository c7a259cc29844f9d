// What an image and the page of its slot show.
ghost use Rattle.std.specs.Prelude.{◌≡◌, ℕ, true, List, Some, slice_get, option_map, IfOk, IsOk};
ghost use Rattle.seg_words.specs.Types.{Shape as TheShape, Body};
ghost use Rattle.redo_model.specs.Records.{Record};
ghost use Rattle.redo_model.specs.Model.{data_blocks, holds_row};
ghost use Rattle.page_set.specs.Folded.{page_of};
ghost use Rattle.version_laws.specs.Types.{HoldsRows};
ghost use Rattle.change_laws.specs.Types.{HeadOf};
ghost use Rattle.place_laws.specs.Located.{IsHeadOf};
ghost use Rattle.row_change.specs.Locating.{SightOf, HasSight, IsSearch, Shows, NoneFrom, rows_of};
ghost use Rattle.row_change.specs.declared.sight.Search.{Search as TheSearch};

use page_set::Page;
use row_block::RowBlock;
use seg_base::{Kind, RowNo, Rowid, Scn, Shape, Slot, TxnId, UndoAddr};
use segment_read::{Segment, WrongPage};
use txn_block::TxnBlock;
use version_read::{Version, look_in};

/// How slots of a table are looked at: as an active transaction or none sees them at all commits, by the transaction table, the
/// number of commits and the table's segment.
#[derive(Drop)]
pub struct Search {
    pub shape: Shape,
    pub segment: Segment,
    pub table: TxnBlock,
    pub own: Option<TxnId>,
    pub start: Scn,
}

/// A row that a slot shows: its number, the undo address of the version there, and its head where that stands in a slot of its
/// own.
#[derive(Clone, Copy)]
pub struct Sight {
    pub at: Rowid,
    pub row: RowNo,
    pub undo: UndoAddr,
    pub head: Option<Rowid>,
}

/// What a slot shows by its page and the transaction table alone: a row or none, or that an older image counts, which stands at
/// an undo address.
#[derive(Clone, Copy)]
pub enum Shown {
    Here(Option<Sight>),
    Below(UndoAddr),
}

fn holds_row(kind: Kind) -> bool
    ensures { result ≡ holds_row kind }
{
    match kind {
        Kind::Row | Kind::Body => true,
        Kind::Empty | Kind::Head => false,
    }
}

/// The head of a row that this image holds: none of one that stands whole.
fn head_of(image: &Slot) -> Result<Option<Rowid>, WrongPage>
    ensures says { holds_row image.now.kind ≡ true → IfOk result (IsHeadOf image.now) }
    ensures right { (image.now.kind ≡ Body → HeadOf image.now) → IsOk result }
{
    match image.kind {
        Kind::Row | Kind::Empty | Kind::Head => Ok(None),
        Kind::Body => match image.link {
            None => Err(WrongPage),
            Some(head) => Ok(Some(head)),
        },
    }
}

/// The row of an image, in a slot for which it counts. A row that has no undo address, and a body that names no head, is
/// refused.
pub fn sight_of(image: &Slot, at: Rowid) -> Result<Option<Sight>, WrongPage>
    ensures says { IfOk result (SightOf image.now at) }
    ensures right { HasSight image.now → IsOk result }
{
    if !holds_row(image.kind) {
        return Ok(None);
    }
    let row = image.row;
    match image.undo {
        None => Err(WrongPage),
        Some(undo) => match head_of(image) {
            Ok(head) => Ok(Some(Sight {
                at,
                row,
                undo,
                head,
            })),
            Err(wrong) => Err(wrong),
        },
    }
}

fn slot_shown(block: &RowBlock, at: Rowid, search: &Search) -> Result<Shown, WrongPage>
    ensures says { (sh : TheShape) (R : List Record) (o : ℕ) → IsSearch sh R o search.now → HoldsRows R at.dba block.now → IfOk result (Shows R search.now at) }
    ensures right { (sh : TheShape) (R : List Record) (o : ℕ) → IsSearch sh R o search.now → HoldsRows R at.dba block.now → IsOk result }
{
    match look_in(block, at.slot, &search.table, search.start, search.own) {
        None => Ok(Shown::Here(None)),
        Some(Version::Nothing) => Ok(Shown::Here(None)),
        Some(Version::Step(below)) => Ok(Shown::Below(below)),
        Some(Version::TooOldEntry(_)) => Err(WrongPage),
        Some(Version::Row(image)) => match sight_of(image, at) {
            Ok(sight) => Ok(Shown::Here(sight)),
            Err(wrong) => Err(wrong),
        },
    }
}

fn rows_in(page: &Page) -> Option<&RowBlock>
    ensures { option_map (λ b. b.now) result ≡ rows_of page.now }
{
    match page {
        Page::Rows(block) => Some(block),
        _ => None,
    }
}

/// What a slot shows, by the page of its block. A page that holds no rows shows none: a data block that isn't formatted may have
/// one, of an earlier use of its extent.
pub fn shown_in(page: &Page, at: Rowid, search: &Search) -> Result<Shown, WrongPage>
    ensures says { (sh : TheShape) (R : List Record) (o i : ℕ) → IsSearch sh R o search.now → slice_get (data_blocks search.now.shape R o) i ≡ Some at.dba → page.now ≡ page_of search.now.shape R at.dba → IfOk result (Shows R search.now at) }
    ensures right { (sh : TheShape) (R : List Record) (o i : ℕ) → IsSearch sh R o search.now → slice_get (data_blocks search.now.shape R o) i ≡ Some at.dba → page.now ≡ page_of search.now.shape R at.dba → IsOk result }
{
    match rows_in(page) {
        None => Ok(Shown::Here(None)),
        Some(block) => slot_shown(block, at, search),
    }
}

/// How many slots a data block has that may show a row, by its page.
pub fn slots_in(page: &Page) -> u8
    ensures { (sh : TheShape) (R : List Record) (o i b : ℕ) (q : TheSearch) → IsSearch sh R o q → slice_get (data_blocks q.shape R o) i ≡ Some b → page.now ≡ page_of q.shape R b → NoneFrom R q b result }
{
    match rows_in(page) {
        None => 0,
        Some(block) => block.slots(),
    }
}
