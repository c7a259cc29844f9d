// What slots count, and which is used next.
ghost use Rattle.std.specs.Prelude.{◌≡◌, ◌<◌, ◌≤◌, length, get_or, cond, ltb, Some, None, All, sum_by, if◌then◌else◌, nat_lt, slice_index_or};
ghost use Rattle.seg_words.specs.Types.{position_or_len, row_size, slot_size, writer_has_ended, is_reusable, new_slot, put, has_room};
ghost use Rattle.row_block.specs.RowPage.{laid_slots};

use seg_base::{BLOCK_ROOM, Ended, Kind, MOST_SLOTS, SLOT_SIZE, Slot, TxnId, Writer};

/// Every transaction has ended: a slot counts what it takes on the page.
pub struct AllEnded;

impl Ended for AllEnded {
    ghost use Rattle.std.specs.Prelude.{true};

    ghost has_ended = { λ _ _. true };

    fn ended(&self, _txn: TxnId) -> bool {
        true
    }
}

pub fn writer_has_ended<E: Ended>(writer: &Writer, ended: &E) -> bool
    ensures { result ≡ writer_has_ended (E.has_ended ended.now) writer.now }
{
    match writer {
        Writer::By(txn) => ended.ended(*txn),
        Writer::At(_) => true,
    }
}

/// What a slot counts for its row.
pub fn row_size<E: Ended>(slot: &Slot, ended: &E) -> u16
    requires { length slot.now.bytes ≤ slot.now.room }
    ensures { result ≡ row_size (E.has_ended ended.now) slot.now }
{
    let room = slot.room;
    if writer_has_ended(&slot.writer, ended) {
        slot.bytes.len() as u16
    } else {
        room
    }
}

pub fn slot_size<E: Ended>(slot: &Slot, ended: &E) -> u32
    requires { length slot.now.bytes ≤ slot.now.room }
    ensures value { result ≡ slot_size (E.has_ended ended.now) slot.now }
    ensures most { result ≤ 65575 }
{
    SLOT_SIZE as u32 + u32::from(row_size(slot, ended))
}

/// What the slots count together.
pub fn slots_size<E: Ended>(slots: &[Slot], ended: &E) -> u32
    requires count { length slots.now ≤ MOST_SLOTS }
    requires rooms { All (λ s. length s.bytes ≤ s.room) slots.now }
    ensures value { result ≡ sum_by (slot_size (E.has_ended ended.now)) slots.now }
    ensures most { result ≤ 6557500 }
{
    let mut size = 0;
    for slot in slots {
        size += slot_size(slot, ended);
    }
    size
}

/// What the slot in this place counts, 0 where it isn't there yet.
pub fn size_at<E: Ended>(slots: &[Slot], ended: &E, at: usize) -> u32
    requires { All (λ s. length s.bytes ≤ s.room) slots.now }
    ensures { result ≡ (if nat_lt at (length slots.now) then slot_size (E.has_ended ended.now) (slice_index_or slots.now at new_slot) else 0) }
{
    match slots.get(at) {
        Some(slot) => slot_size(slot, ended),
        None => 0,
    }
}

/// What the slots take on the page once an image is put in its place, or behind the last slot.
pub fn laid_after(slots: &[Slot], laid: u32, at: usize, image: &Slot) -> u32
    requires at { at ≤ length slots.now }
    requires rooms { All (λ s. length s.bytes ≤ s.room) slots.now }
    requires image { length image.now.bytes ≤ image.now.room }
    requires laid { laid ≡ laid_slots slots.now }
    requires most { laid ≤ BLOCK_ROOM }
    ensures { result ≡ laid_slots (put new_slot slots.now at image.now) }
{
    laid - size_at(slots, &AllEnded, at) + slot_size(image, &AllEnded)
}

/// Whether so many bytes can be had of those that are free, with PCTFREE left free.
pub fn has_room(pctfree: u8, free: u32, need: u32) -> bool
    requires { free ≤ BLOCK_ROOM }
    ensures { result ≡ has_room pctfree free need }
{
    need <= free && u32::from(pctfree) * BLOCK_ROOM <= (free - need) * 100
}

fn is_reusable<E: Ended>(slot: &Slot, ended: &E) -> bool
    ensures { result ≡ is_reusable (E.has_ended ended.now) slot.now }
{
    slot.kind == Kind::Empty && writer_has_ended(&slot.writer, ended)
}

fn reusable_slot<E: Ended>(slots: &[Slot], ended: &E) -> Option<usize>
    ensures { result ≡ cond (ltb (position_or_len (is_reusable (E.has_ended ended.now)) slots.now) (length slots.now)) (Some (position_or_len (is_reusable (E.has_ended ended.now)) slots.now)) None }
{
    slots.iter().position(|slot| is_reusable(slot, ended))
}

/// The least reusable slot, else the number of slots.
pub fn slot_to_use<E: Ended>(slots: &[Slot], ended: &E) -> usize
    ensures value { result ≡ position_or_len (is_reusable (E.has_ended ended.now)) slots.now }
    ensures most { result ≤ length slots.now }
{
    match reusable_slot(slots, ended) {
        Some(at) => at,
        None => slots.len(),
    }
}
