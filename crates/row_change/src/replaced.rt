// What a change writes over: a slot's image, and what its block has for the transaction.
ghost use Rattle.std.specs.Prelude.{◌≡◌, ◌<◌, ◌≤◌, length, max, IfOk, slice_index_or};
ghost use Rattle.seg_words.specs.Types.{LONGEST_ROW, is_empty, new_slot, is_reusable, writer_has_ended, slot_to_use, next_room};
ghost use Rattle.redo_model.specs.Model.{number_or_zero};
ghost use Rattle.row_change.specs.Reading.{replaced_at, replaced_in, slot_or};
ghost use Rattle.version_laws.specs.Types.{ended_by};

use page_set::Page;
use row_block::RowBlock;
use seg_base::{
    Ended, Kind, LONGEST_ROW, NoMemory, RowNo, Scn, Slot, Text, TxnId, UNDO_PART_SIZE, Writer,
};
use std::alloc::Global;
use store_core::Question;
use txn_block::TxnBlock;
use version_read::EndedIn;

/// A slot that a change writes over: its place in the block, the list entry that the transaction uses there, the room of the
/// image that comes, the bytes of undo that the old one takes, and the old one.
#[derive(Drop)]
pub struct Replaced {
    pub slot: u8,
    pub entry: u8,
    pub room: u16,
    pub size: u16,
    pub old: Slot,
}

fn has_ended(writer: &Writer, ended: &EndedIn) -> bool
    ensures { result ≡ writer_has_ended (ended_by ended.now.table.now) writer.now }
{
    match writer {
        Writer::By(txn) => ended.ended(*txn),
        Writer::At(_) => true,
    }
}

fn is_empty(kind: Kind) -> bool
    ensures { result ≡ is_empty kind }
{
    match kind {
        Kind::Empty => true,
        Kind::Row | Kind::Head | Kind::Body => false,
    }
}

fn is_reusable(slot: &Slot, ended: &EndedIn) -> bool
    ensures { result ≡ is_reusable (ended_by ended.now.table.now) slot.now }
{
    is_empty(slot.kind) && has_ended(&slot.writer, ended)
}

fn is_reusable_at(block: &RowBlock, n: u8, ended: &EndedIn) -> bool
    requires { n < length block.now.block.slots }
    ensures { result ≡ is_reusable (ended_by ended.now.table.now) (slice_index_or block.now.block.slots n new_slot) }
{
    match block.slot(n) {
        Some(slot) => is_reusable(slot, ended),
        None => true,
    }
}

/// The least reusable slot, else the number of slots.
fn slot_to_use(block: &RowBlock, ended: &EndedIn) -> u8
    ensures { result ≡ slot_to_use (ended_by ended.now.table.now) block.now.block }
{
    for n in 0..block.slots() {
        if is_reusable_at(block, n, ended) {
            return n;
        }
    }
    block.slots()
}

fn new_slot(alloc: Global) -> Slot
    ensures { result ≡ new_slot }
{
    Slot {
        kind: Kind::Empty,
        writer: Writer::At(Scn(0)),
        undo: None,
        row: RowNo(0),
        link: None,
        bytes: Text::empty(alloc),
        room: 0,
    }
}

/// A copy of the image of a slot.
pub fn image_at(alloc: Global, block: &RowBlock, n: u8) -> Result<Slot, NoMemory>
    ensures { IfOk result (λ image. image ≡ slice_index_or block.now.block.slots n new_slot) }
{
    match block.slot(n) {
        Some(slot) => slot.duplicate(alloc),
        None => Ok(new_slot(alloc)),
    }
}

fn next_room(old: &Slot, ended: &EndedIn, len: u16) -> u16
    requires { length old.now.bytes ≤ LONGEST_ROW }
    ensures { result ≡ next_room (ended_by ended.now.table.now) old.now len }
{
    let room = old.room;
    if has_ended(&old.writer, ended) {
        return (old.bytes.len() as u16).max(len);
    }
    room.max(len)
}

fn number_or_zero(entry: Option<u8>) -> u8
    ensures { result ≡ number_or_zero entry }
{
    match entry {
        Some(entry) => entry,
        None => 0,
    }
}

/// What is written over in a slot, none where a row stands there that is longer than any.
fn replaced_at(
    block: &RowBlock,
    ended: &EndedIn,
    txn: TxnId,
    slot: u8,
    len: u16,
    old: Slot,
) -> Option<Replaced>
    requires { old ≡ slice_index_or block.now.block.slots slot new_slot }
    ensures { result ≡ replaced_at (ended_by ended.now.table.now) block.now.block txn slot len }
{
    if old.bytes.len() > LONGEST_ROW {
        return None;
    }
    let entry = number_or_zero(block.entry_for(ended, txn));
    let room = next_room(&old, ended, len);
    let size = UNDO_PART_SIZE as u16 + old.bytes.len() as u16;
    Some(Replaced {
        slot,
        entry,
        room,
        size,
        old,
    })
}

/// The slot, else where a new row goes.
pub fn slot_or(slot: Option<u8>, block: &RowBlock, ended: &EndedIn) -> u8
    ensures { result ≡ slot_or (ended_by ended.now.table.now) block.now.block slot }
{
    match slot {
        Some(slot) => slot,
        None => slot_to_use(block, ended),
    }
}

/// Asks a row block what a transaction writes over with so long a row: in a slot, or where a new row goes.
#[derive(Clone, Copy)]
pub struct Replacing<'t> {
    pub table: &'t TxnBlock,
    pub txn: TxnId,
    pub slot: Option<u8>,
    pub len: u16,
}

fn replaced_in(alloc: Global, page: &Page, q: &Replacing) -> Result<Option<Replaced>, NoMemory>
    ensures { IfOk result (λ x. x ≡ replaced_in q.now.table.now q.now.txn q.now.slot q.now.len page.now) }
{
    match page {
        Page::Rows(block) => {
            let ended = EndedIn::of(q.table);
            let slot = slot_or(q.slot, block, &ended);
            match image_at(alloc, block, slot) {
                Ok(old) => Ok(replaced_at(block, &ended, q.txn, slot, q.len, old)),
                Err(_) => Err(NoMemory),
            }
        }
        _ => Ok(None),
    }
}

impl<'t> Question for Replacing<'t> {
    ghost use Rattle.row_change.specs.Reading.{replaced_in};

    type Answer = Replaced;

    ghost reads = { λ q page. replaced_in q.table.now q.txn q.slot q.len page };

    fn read(&self, alloc: Global, page: &Page) -> Result<Option<Replaced>, NoMemory> {
        replaced_in(alloc, page, self)
    }
}
