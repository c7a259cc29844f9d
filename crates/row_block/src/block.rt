// A row block, and the calls that ask it and change it.
ghost use Rattle.std.specs.Prelude.{◌≡◌, ◌≤◌, ◌<◌, ◌+◌, ◌-◌, ◌*◌, ◌/◌, ◌↔◌, length, slice_index_or, true, if◌then◌else◌, nat_lt, Some, None, OnOk, OnErr, IfOk, IfSome, IsTrue, MatchResult, option_map};
ghost use Rattle.seg_words.specs.Types.{new_block, put, put_slot, put_entry, new_slot, new_entry, slot_size, used_of, free_of, class_of_block, entry_for, other_entry, entry_size, entry_need, slot_need, takes, fits, row_growth, has_room, clean_block};
ghost use Rattle.row_block.specs.RowPage.{with_block, laid_out, IsImage, IsHeld, counted, growth_of, need_of, CanPut, CanEnter, RowPage};
ghost use Rattle.row_block.specs.Answers.{Fills, Puts, Enters, RefusesEntry, txns_of};
ghost use Rattle.row_block.specs.Spelling.{spelling, IsRowPage, Decodes, IsReadAs};
ghost use Rattle.page_bytes.specs.Types.{HasSlotForm};
ghost use Rattle.row_block.specs.declared.fault.BlockFault.TheVariants as faults;

use crate::BlockFault;
use crate::clean::clean_slots;
use crate::entries::Entries;
use crate::ranges::{entries_in_range, slots_in_range};
use crate::sizes::{
    AllEnded, has_room, laid_after, row_size, size_at, slot_size, slot_to_use, slots_size,
};
use page_bytes::{PageForm, has_slot_form, in_range};
use seg_base::{
    BLOCK_ROOM, BLOCK_SIZE, Class, Dba, Ended, LEAST_LIST_ENTRIES, LIST_ENTRY_SIZE, ListEntry, Lsn,
    MOST_LIST_ENTRIES, MOST_PCTFREE, MOST_SLOTS, NoMemory, SLOT_SIZE, Scn, Sequence, Slot, Taker,
    TxnId, class_of,
};
use std::alloc::Global;
use std::marker::Model;

/// A block that holds rows.
#[derive(Debug, Drop)]
pub struct RowBlock {
    dba: Dba,
    lsn: Lsn,
    slots: Vec<Slot>,
    entries: Entries,
    /// What the slots take on the page: kept, so that a full block is known as such without a look at its slots.
    laid: u32,
}

impl Model for RowBlock {
    ghost use Rattle.row_block.specs.RowPage.{RowPage, IsLaid};

    ghost Value = { RowPage };

    ghost view = { λ p. record { dba = p.dba; lsn = p.lsn; block = record { slots = p.slots.items; entries = p.entries } } };

    ghost invariant = { λ p. IsLaid p.laid (record { slots = p.slots.items; entries = p.entries }) };
}

impl RowBlock {
    /// A block as it is formatted.
    pub fn new(alloc: Global, dba: Dba) -> RowBlock
        ensures { result ≡ record { dba = dba; lsn = 0; block = new_block } }
    {
        RowBlock {
            dba,
            lsn: Lsn(0),
            slots: Vec::new(alloc),
            entries: Entries::new(),
            laid: 0,
        }
    }

    /// A block of these slots and list entries.
    pub(crate) fn from_parts(dba: Dba, lsn: Lsn, slots: Vec<Slot>, entries: Entries) -> RowBlock
        requires { IsHeld (record { slots = slots.items; entries = entries }) }
        ensures { result ≡ record { dba = dba; lsn = lsn; block = record { slots = slots.items; entries = entries } } }
    {
        let laid = slots_size(&slots, &AllEnded);
        RowBlock {
            dba,
            lsn,
            slots,
            entries,
            laid,
        }
    }

    pub(crate) fn all_slots(&self) -> &[Slot]
        ensures slots { result.now ≡ self.now.block.slots }
        ensures held { IsHeld self.now.block }
    {
        self.slots.as_slice()
    }

    pub(crate) fn all_entries(&self) -> &[ListEntry]
        ensures { result.now ≡ self.now.block.entries }
    {
        self.entries.as_slice()
    }

    pub fn dba(&self) -> Dba
        ensures { result ≡ self.now.dba }
    {
        self.dba
    }

    pub fn lsn(&self) -> Lsn
        ensures { result ≡ self.now.lsn }
    {
        self.lsn
    }

    /// What list entries past the second take.
    fn more_entries(&self) -> u32
        ensures value { result ≡ LIST_ENTRY_SIZE * (length self.now.block.entries - LEAST_LIST_ENTRIES) }
        ensures most { result ≤ 144 }
    {
        let more = self
            .entries
            .len()
            .saturating_sub(LEAST_LIST_ENTRIES as usize);
        (LIST_ENTRY_SIZE * more) as u32
    }

    /// What the block takes on its page.
    fn laid_out(&self) -> u32
        ensures value { result ≡ laid_out self.now.block }
        ensures most { result ≤ BLOCK_ROOM }
    {
        self.laid + self.more_entries()
    }

    /// What the slots count, and 24 for each list entry past the second.
    fn used<E: Ended>(&self, ended: &E) -> u32
        ensures value { result ≡ used_of (E.has_ended ended.now) self.now.block }
        ensures most { result ≤ 6557644 }
    {
        slots_size(&self.slots, ended) + self.more_entries()
    }

    /// The bytes that are free.
    pub fn free<E: Ended>(&self, ended: &E) -> u16
        ensures value { result ≡ free_of (E.has_ended ended.now) self.now.block }
        ensures most { result ≤ BLOCK_ROOM }
    {
        BLOCK_ROOM.saturating_sub(self.used(ended)) as u16
    }

    /// The free class, which PCTFREE bounds.
    pub fn class<E: Ended>(&self, ended: &E, pctfree: u8) -> Class
        requires { pctfree ≤ MOST_PCTFREE }
        ensures { result ≡ class_of_block (E.has_ended ended.now) pctfree self.now.block }
    {
        class_of(self.free(ended), pctfree)
    }

    /// The number of slots.
    pub fn slots(&self) -> u8
        ensures count { result ≡ length self.now.block.slots }
        ensures most { result ≤ MOST_SLOTS }
    {
        self.slots.len() as u8
    }

    /// A slot, None exactly from `slots()` on.
    pub fn slot(&self, n: u8) -> Option<&Slot>
        ensures { option_map (λ s. s.now) result ≡ (if nat_lt n (length self.now.block.slots) then Some (slice_index_or self.now.block.slots n new_slot) else None) }
    {
        self.slots.get(n as usize)
    }

    /// The number of list entries, from 2 on.
    pub fn entries(&self) -> u8
        ensures count { result ≡ length self.now.block.entries }
        ensures range { (LEAST_LIST_ENTRIES ≤ result) × (result ≤ MOST_LIST_ENTRIES) }
    {
        self.entries.len() as u8
    }

    /// A list entry, None exactly from `entries()` on. Transaction 0 stands for none, number 0 for one not known.
    pub fn entry(&self, i: u8) -> Option<(TxnId, Scn)>
        ensures { result ≡ (if nat_lt i (length self.now.block.entries) then Some (record { 0 = (slice_index_or self.now.block.entries i new_entry).txn; 1 = (slice_index_or self.now.block.entries i new_entry).number }) else None) }
    {
        let entry = self.entries.as_slice().get(i as usize)?;
        Some((entry.txn, entry.number))
    }

    /// The least entry that is empty or names an ended transaction, else a new one.
    fn other_entry<E: Ended>(&self, ended: &E) -> Option<u8>
        ensures { result ≡ other_entry (E.has_ended ended.now) self.now.block }
    {
        if let Some(at) = self.entries.spare(ended) {
            return Some(at as u8);
        }
        let count = self.entries.len();
        if count < usize::from(MOST_LIST_ENTRIES) && LIST_ENTRY_SIZE as u16 <= self.free(ended) {
            return Some(count as u8);
        }
        None
    }

    /// Why a transaction can't have a list entry.
    fn no_entry<E: Ended>(&self, ended: &E) -> Result<BlockFault, BlockFault>
        requires { other_entry (E.has_ended ended.now) self.now.block ≡ None }
        ensures { MatchResult result (RefusesEntry (E.has_ended ended.now) self.now.block) (λ e. (e ≡ faults.NoMemory) × (length self.now.block.entries ≡ MOST_LIST_ENTRIES)) }
    {
        if self.entries() < MOST_LIST_ENTRIES {
            let free = self.free(ended);
            return Ok(BlockFault::NoRoom {
                need: LIST_ENTRY_SIZE as u16,
                free,
            });
        }
        let txns = txns_of(*self.slots.allocator(), self.entries.as_slice())?;
        Ok(BlockFault::NoSlot { txns })
    }

    /// The list entry that a transaction uses, `entries()` for a new one; None exactly where none can be had.
    pub fn entry_for<E: Ended>(&self, ended: &E, txn: TxnId) -> Option<u8>
        ensures value { result ≡ entry_for (E.has_ended ended.now) self.now.block txn }
        ensures range { IfSome result (λ i. (i ≤ length self.now.block.entries) × (i < MOST_LIST_ENTRIES)) }
    {
        if let Some(at) = self.entries.own(txn) {
            return Some(at as u8);
        }
        self.other_entry(ended)
    }

    fn entry_size(&self, i: u8) -> u16
        ensures { result ≡ entry_size self.now.block i }
    {
        if i < self.entries() {
            0
        } else {
            LIST_ENTRY_SIZE as u16
        }
    }

    /// What a taker needs for its list entry, None where none can be had.
    fn entry_need<E: Ended>(&self, ended: &E, taker: &Taker) -> Option<u16>
        ensures value { result ≡ entry_need (E.has_ended ended.now) self.now.block taker.now }
        ensures most { IfSome result (λ n. n ≤ LIST_ENTRY_SIZE) }
    {
        let entry = match taker {
            Taker::New => self.other_entry(ended),
            Taker::Open(txn) => self.entry_for(ended, *txn),
            Taker::Shrink => return Some(0),
        };
        Some(self.entry_size(entry?))
    }

    /// Whether a row of this length and PCTFREE go beside what the block takes on its page. Where they don't, the block takes the
    /// row from nobody: the room that it keeps for active writers, a slot and a list entry only need more.
    fn may_take(&self, pctfree: u8, len: u16) -> bool
        ensures { result ≡ has_room pctfree (BLOCK_ROOM - laid_out self.now.block) len }
    {
        has_room(pctfree, BLOCK_ROOM - self.laid_out(), u32::from(len))
    }

    /// Whether a row of this length goes into the block, into a slot that is reusable or new, and leaves PCTFREE free.
    pub fn takes<E: Ended>(&self, ended: &E, pctfree: u8, len: u16, taker: &Taker) -> bool
        requires { pctfree ≤ MOST_PCTFREE }
        ensures { result ≡ takes (E.has_ended ended.now) pctfree self.now.block len taker.now }
    {
        let _ = &self.dba;
        if !self.may_take(pctfree, len) {
            return false;
        }
        match self.entry_need(ended, taker) {
            None => false,
            Some(entry) => {
                let at = slot_to_use(&self.slots, ended);
                if at >= usize::from(MOST_SLOTS) {
                    return false;
                }
                let slot = if at < self.slots.len() {
                    0
                } else {
                    SLOT_SIZE as u32
                };
                let need = u32::from(len) + slot + u32::from(entry);
                has_room(pctfree, u32::from(self.free(ended)), need)
            }
        }
    }

    /// Whether a row of this length fits into a slot that is there, PCTFREE aside.
    pub fn fits<E: Ended>(&self, ended: &E, slot: u8, len: u16, taker: &Taker) -> bool
        requires { slot < length self.now.block.slots }
        ensures { result ≡ fits (E.has_ended ended.now) self.now.block slot len taker.now }
    {
        match self.entry_need(ended, taker) {
            None => false,
            Some(entry) => {
                let growth = len.saturating_sub(row_size(&self.slots[slot as usize], ended));
                u32::from(growth) + u32::from(entry) <= u32::from(self.free(ended))
            }
        }
    }

    /// What slot n counts now, 0 where it isn't there yet.
    fn counted<E: Ended>(&self, ended: &E, n: u8) -> u32
        ensures { result ≡ counted (E.has_ended ended.now) self.now.block n }
    {
        size_at(&self.slots, ended, n as usize)
    }

    /// What an image counts in slot n beyond what the slot counts now.
    fn growth<E: Ended>(&self, ended: &E, n: u8, image: &Slot) -> u16
        requires { IsImage image.now }
        ensures { result ≡ growth_of (E.has_ended ended.now) self.now.block n image.now }
    {
        slot_size(image, ended).saturating_sub(self.counted(ended, n)) as u16
    }

    fn need<E: Ended>(&self, ended: &E, n: u8, image: &Slot) -> u16
        requires { IsImage image.now }
        ensures { result ≡ need_of (E.has_ended ended.now) self.now.block n image.now }
    {
        if self.used(ended) <= BLOCK_ROOM {
            self.growth(ended, n, image)
        } else {
            self.growth(&AllEnded, n, image)
        }
    }

    /// Whether an image can be put into slot n, or behind the last slot.
    pub fn can_put(&self, n: u8, image: &Slot) -> bool
        ensures { IsTrue result ↔ CanPut self.now.block n image.now }
    {
        if n > self.slots() || n >= MOST_SLOTS || !has_slot_form(image) {
            return false;
        }
        let len = image.bytes.len();
        let others = self.laid_out() - self.counted(&AllEnded, n);
        others + SLOT_SIZE as u32 + len as u32 <= BLOCK_ROOM
    }

    /// Puts an image into slot n, or behind the last slot.
    pub fn put_slot(&mut self, n: u8, image: Slot) -> Result<(), BlockFault>
        requires { CanPut self.old.block n image }
        ensures { Puts self.old (with_block self.old (put_slot n image self.old.block)) self.new result }
    {
        let laid = laid_after(&self.slots, self.laid, n as usize, &image);
        put(&mut self.slots, n as usize, image)?;
        self.laid = laid;
        Ok(())
    }

    /// Puts an image into slot n where the bytes that it needs are free.
    pub fn set_slot<E: Ended>(&mut self, ended: &E, n: u8, image: Slot) -> Result<(), BlockFault>
        requires at { n ≤ length self.old.block.slots }
        requires most { n < MOST_SLOTS }
        requires image { IsImage image }
        requires form { HasSlotForm image }
        ensures { Fills (need_of (E.has_ended ended.now) self.old.block n image) (free_of (E.has_ended ended.now) self.old.block) self.old (with_block self.old (put_slot n image self.old.block)) self.new result }
    {
        let _ = &self.dba;
        let need = self.need(ended, n, &image);
        let free = self.free(ended);
        if free < need {
            return Err(BlockFault::NoRoom { need, free });
        }
        self.put_slot(n, image)
    }

    /// Whether a transaction can be put into list entry i, or behind the last entry.
    pub fn can_enter(&self, i: u8) -> bool
        ensures { IsTrue result ↔ CanEnter self.now.block i }
    {
        let _ = &self.dba;
        let count = self.entries();
        if i > count || i >= MOST_LIST_ENTRIES {
            return false;
        }
        if i < count {
            return true;
        }
        self.laid_out() + LIST_ENTRY_SIZE as u32 <= BLOCK_ROOM
    }

    /// Puts a transaction into list entry i, or behind the last entry.
    pub fn put_entry(&mut self, i: u8, entry: ListEntry)
        requires { CanEnter self.old.block i }
        ensures { self.new ≡ with_block self.old (put_entry i entry self.old.block) }
    {
        self.entries.put(i as usize, entry);
    }

    /// The transaction's list entry, made where it has none.
    pub fn enter_txn<E: Ended>(&mut self, ended: &E, txn: TxnId) -> Result<u8, BlockFault>
        ensures { Enters (E.has_ended ended.now) txn self.old self.new result }
    {
        let _ = &self.dba;
        match self.entry_for(ended, txn) {
            Some(i) => {
                self.put_entry(
                    i,
                    ListEntry {
                        txn,
                        number: Scn(0),
                    },
                );
                Ok(i)
            }
            None => Err(self.no_entry(ended)?),
        }
    }

    /// Takes ended transactions out of slots and list entries; 0 stands for a commit number that is not known.
    pub fn clean(&mut self, done: &[(TxnId, Scn)])
        ensures { self.new ≡ with_block self.old (clean_block done.now self.old.block) }
    {
        clean_slots(&mut self.slots, done);
        self.entries.clean(done);
    }

    /// As a block is formatted.
    pub fn clear(&mut self)
        ensures { self.new ≡ with_block self.old new_block }
    {
        self.slots.clear();
        self.entries = Entries::new();
        self.laid = 0;
    }

    pub fn set_lsn(&mut self, lsn: Lsn)
        ensures { self.new ≡ record { dba = self.old.dba; lsn = lsn; block = self.old.block } }
    {
        self.lsn = lsn;
    }

    /// The block that a page spells, or the first byte that is not of the spelling of what its fields read as.
    pub fn decode(alloc: Global, bytes: &[u8; BLOCK_SIZE]) -> Result<RowBlock, BlockFault>
        ensures exact { Decodes bytes.now result }
        // What is read has a spelling, and what is spelled is read.
        ensures spelled { IfOk result IsRowPage }
        ensures only { (p : RowPage) → IsRowPage p → bytes.now ≡ spelling p → IsReadAs p result }
    {
        let page: RowBlock = page_bytes::decode(alloc, bytes)?;
        Ok(page)
    }

    /// Writes the one page that spells the block.
    pub fn encode(&self, out: &mut [u8; BLOCK_SIZE])
        ensures { out.new ≡ spelling self.now }
    {
        self.write(out);
    }

    /// Each block has a spelling: what is written of it is read back.
    pub fn has_spelling(&self)
        ensures { IsRowPage self.now }
    {
        in_range(self.dba.0, self.lsn.0);
        entries_in_range(self.all_entries());
        slots_in_range(self.all_slots());
    }

    pub fn duplicate(&self, alloc: Global) -> Result<RowBlock, BlockFault>
        ensures { IfOk result (λ block. block ≡ self.now) }
    {
        let slots = slots_copy(alloc, &self.slots)?;
        Ok(RowBlock {
            dba: self.dba,
            lsn: self.lsn,
            slots,
            entries: self.entries.duplicate(),
            laid: self.laid,
        })
    }
}

fn txns_of(alloc: Global, entries: &[ListEntry]) -> Result<Sequence<TxnId>, NoMemory>
    ensures { IfOk result (λ txns. txns ≡ txns_of entries.now) }
{
    let mut txns = Sequence::new(alloc);
    for entry in entries {
        txns.push(entry.txn)?;
    }
    Ok(txns)
}

fn slots_copy(alloc: Global, slots: &[Slot]) -> Result<Vec<Slot>, BlockFault>
    ensures { IfOk result (λ copy. copy.items ≡ slots.now) }
{
    let mut copy = Vec::new(alloc);
    for slot in slots {
        copy.push(slot.duplicate(alloc)?)?;
    }
    Ok(copy)
}

/// Puts an image in its place, or behind the last slot.
#[tactic(auto, using(seg_base::proofs::Puts::put_set, seg_base::proofs::Puts::put_push))]
fn put(slots: &mut Vec<Slot>, at: usize, image: Slot) -> Result<(), NoMemory>
    requires { at ≤ length slots.old.items }
    ensures ok { OnOk result (slots.new.items ≡ put new_slot slots.old.items at image) }
    ensures err { OnErr result (slots.new.items ≡ slots.old.items) }
{
    if at < slots.len() {
        slots[at] = image;
    } else {
        slots.push(image)?;
    }
    Ok(())
}
