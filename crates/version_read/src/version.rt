// One image, and one part of undo.
ghost use Rattle.std.specs.Prelude.{◌≡◌, ◌<◌, ◌↔◌, ℕ, List, option_map, IfSome, IsSome};
ghost use Rattle.seg_words.specs.Types.{Shape};
ghost use Rattle.redo_model.specs.Records.{Record};
ghost use Rattle.redo_model.specs.Model.{image as image_in, slot_count};
ghost use Rattle.version_laws.specs.Types.{HoldsTable, HoldsRows};
ghost use Rattle.version_read.specs.Looking.{tells, tells_by, by_state, counts_at, Looks, followed};
ghost use Rattle.version_read.specs.Walking.{IsReader, Shows};

use crate::ended::state_of;
use row_block::RowBlock;
use seg_base::{Kind, Scn, Slot, TxnId, UndoAddr, Writer};
use txn_block::{State, TxnBlock};
use undo_block::UndoBlock;

/// What the writer of an image tells of whether the image counts. Of a forgotten transaction it may not be known.
#[derive(Clone, Copy, Debug, PartialEq, Eq, Drop)]
enum Tells {
    Counts,
    Passes,
    Unknown(TxnId),
}

/// What an image shows: its row; nothing; that an older image counts, which stands at an undo address; or that it names a
/// transaction which is forgotten, so that it isn't known whether it counts.
#[derive(Clone, Copy)]
pub enum Version<'a> {
    Row(&'a Slot),
    Nothing,
    Step(UndoAddr),
    TooOldEntry(TxnId),
}

fn counts_at(number: Scn, s: Scn) -> Tells
    ensures { result ≡ counts_at number s }
{
    if number.0 <= s.0 {
        Tells::Counts
    } else {
        Tells::Passes
    }
}

fn by_state(state: State, control: Scn, txn: TxnId, s: Scn) -> Tells
    ensures { result ≡ by_state control txn s state }
{
    match state {
        State::Active | State::RolledBack => Tells::Passes,
        State::Committed(number) => counts_at(number, s),
        State::Forgotten => {
            if control.0 <= s.0 {
                Tells::Counts
            } else {
                Tells::Unknown(txn)
            }
        }
    }
}

fn tells_by(table: &TxnBlock, s: Scn, own: &Option<TxnId>, txn: TxnId) -> Tells
    ensures { result ≡ tells_by table.now s own.now txn }
{
    if let Some(own) = own {
        if own.0 == txn.0 {
            return Tells::Counts;
        }
    }
    by_state(state_of(table, txn), table.control(), txn, s)
}

fn writer_tells(table: &TxnBlock, s: Scn, own: &Option<TxnId>, writer: Writer) -> Tells
    ensures { result ≡ tells table.now s own.now writer }
{
    match writer {
        Writer::At(number) => counts_at(number, s),
        Writer::By(txn) => tells_by(table, s, own, txn),
    }
}

/// What an image shows, by the table alone.
pub(crate) fn shown<'a>(
    image: &'a Slot,
    table: &TxnBlock,
    s: Scn,
    own: &Option<TxnId>,
) -> Version<'a>
    ensures { Looks (tells table.now s own.now image.now.writer) image.now result }
{
    match writer_tells(table, s, own, image.writer) {
        Tells::Unknown(txn) => Version::TooOldEntry(txn),
        Tells::Passes => match image.undo {
            None => Version::Nothing,
            Some(at) => Version::Step(at),
        },
        Tells::Counts => match image.kind {
            Kind::Row | Kind::Body => Version::Row(image),
            Kind::Empty | Kind::Head => Version::Nothing,
        },
    }
}

/// What an image shows at a commit number to an active transaction, or to none. An image counts where its writer is the
/// reader, a commit number up to `s`, a transaction that committed up to `s`, or a forgotten one while the control number is
/// at most `s`.
pub fn look<'a>(image: &'a Slot, table: &TxnBlock, s: Scn, own: Option<TxnId>) -> Version<'a>
    ensures table { Looks (tells table.now s own image.now.writer) image.now result }
    // Of the image that stands in a slot.
    ensures slot { (sh : Shape) (R : List Record) (b k : ℕ) → IsReader sh R own → HoldsTable R table.now → image.now ≡ image_in R b k → Shows sh R b k s own result }
{
    shown(image, table, s, &own)
}

/// What a slot of a row block shows, None exactly from the number of slots on.
pub fn look_in<'a>(
    page: &'a RowBlock,
    slot: u8,
    table: &TxnBlock,
    s: Scn,
    own: Option<TxnId>,
) -> Option<Version<'a>>
    ensures slot { (sh : Shape) (R : List Record) (b : ℕ) → IsReader sh R own → HoldsTable R table.now → HoldsRows R b page.now → IfSome result (Shows sh R b slot s own) }
    ensures there { (R : List Record) (b : ℕ) → HoldsRows R b page.now → (IsSome result ↔ slot < slot_count R b) }
{
    match page.slot(slot) {
        None => None,
        Some(image) => Some(look(image, table, s, own)),
    }
}

/// The image that stands at an undo address. Where the address has the block's present sequence, and its place is below
/// the number of parts, None comes exactly where the sequence differs; past the last part there is none either.
pub fn follow<'a>(block: &'a UndoBlock, at: UndoAddr) -> Option<&'a Slot>
    ensures { option_map (λ slot. slot.now) result ≡ followed block.now at }
{
    if at.seq != block.sequence() {
        return None;
    }
    match block.nth(at.nth) {
        None => None,
        Some(part) => Some(&part.old),
    }
}
