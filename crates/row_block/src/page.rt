// The page of a row block.
ghost use Rattle.std.specs.Prelude.{◌≡◌, ◌≤◌, ◌<◌, ◌^◌, ◌+◌, ◌*◌, ◌++◌, List, ℕ, length, take, drop, IfOk, All, flat_map};
ghost use Rattle.page_bytes.specs.Types.{IsFront};
ghost use Rattle.seg_words.specs.Types.{slot_bytes};
ghost use Rattle.row_block.specs.RowPage.{IsHeld};
ghost use Rattle.row_block.specs.Spelling.{row_bytes, spelling, entry_count, slot_count, slots_in, page_with};

use crate::RowBlock;
use crate::entries::Entries;
use page_bytes::{
    PageForm, SlotFields, add, add_all, begin, cut, head_bytes, number_u32, number_u64, read_all,
};
use seg_base::{
    BLOCK_SIZE, Dba, LEAST_LIST_ENTRIES, LIST_ENTRY_SIZE, ListEntry, Lsn, MOST_LIST_ENTRIES,
    MOST_SLOTS, NoMemory, PAGE_HEAD_SIZE, SLOT_SIZE, Slot, slot_bytes,
};
use std::alloc::Global;

const KIND: u8 = 11;

fn add_slots(page: &mut [u8; BLOCK_SIZE], at: usize, slots: &[Slot]) -> usize
    requires { at + length (flat_map slot_bytes slots.now) ≤ BLOCK_SIZE }
    ensures place { result ≡ at + length (flat_map slot_bytes slots.now) }
    ensures bytes { (front : List ℕ) → IsFront page.old front at → IsFront page.new (front ++ flat_map slot_bytes slots.now) result }
{
    let mut next = at;
    for slot in slots {
        next = add(page, next, &slot_bytes(slot));
    }
    next
}

fn add_rows(page: &mut [u8; BLOCK_SIZE], at: usize, slots: &[Slot])
    requires { at + length (flat_map row_bytes slots.now) ≤ BLOCK_SIZE }
    ensures { (front : List ℕ) → IsFront page.old front at → IsFront page.new (front ++ flat_map row_bytes slots.now) (at + length (flat_map row_bytes slots.now)) }
{
    let mut next = at;
    for slot in slots {
        next = add(page, next, slot.bytes.as_slice());
    }
}

fn write_page(dba: Dba, lsn: Lsn, entries: &[ListEntry], slots: &[Slot], out: &mut [u8; BLOCK_SIZE])
    requires { IsHeld (record { slots = slots.now; entries = entries.now }) }
    ensures { out.new ≡ spelling (record { dba = dba; lsn = lsn; block = record { slots = slots.now; entries = entries.now } }) }
{
    let head = head_bytes(KIND, entries.len() as u8, slots.len() as u8, dba, lsn);
    let start = begin(out);
    let entries_at = add(out, start, &head);
    let slots_at = add_all(out, entries_at, entries);
    let rows_at = add_slots(out, slots_at, slots);
    add_rows(out, rows_at, slots);
}

fn entry_count(code: u8) -> u8
    ensures value { result ≡ entry_count code }
    ensures range { (LEAST_LIST_ENTRIES ≤ result) × (result ≤ MOST_LIST_ENTRIES) }
{
    code.min(MOST_LIST_ENTRIES).max(LEAST_LIST_ENTRIES)
}

fn slot_count(entries: u8, code: u8) -> u8
    requires { entries ≤ MOST_LIST_ENTRIES }
    ensures value { result ≡ slot_count entries code }
    ensures most { result ≤ MOST_SLOTS }
    ensures room { PAGE_HEAD_SIZE + LIST_ENTRY_SIZE * entries + SLOT_SIZE * result ≤ BLOCK_SIZE }
{
    let room = ((BLOCK_SIZE - PAGE_HEAD_SIZE) as u16 - LIST_ENTRY_SIZE as u16 * u16::from(entries))
        / SLOT_SIZE as u16;
    u16::from(code).min(room.min(u16::from(MOST_SLOTS))) as u8
}

fn read_slots(alloc: Global, count: u8, groups: &[u8], rows: &[u8]) -> Result<Vec<Slot>, NoMemory>
    requires { SLOT_SIZE * count ≤ length groups.now }
    ensures { IfOk result (λ slots. slots.items ≡ slots_in count groups.now rows.now) }
{
    let mut slots = Vec::new(alloc);
    let mut groups = groups;
    let mut rows = rows;
    for _ in 0..count {
        let (group, more) = groups.split_at(SLOT_SIZE);
        let fields = SlotFields::read(group);
        let (row, others) = cut(rows, fields.row_len() as usize);
        slots.push(fields.slot(alloc, row)?)?;
        groups = more;
        rows = others;
    }
    Ok(slots)
}

fn read_page(alloc: Global, bytes: &[u8], entries: u8, slots: u8) -> Result<RowBlock, NoMemory>
    requires long { length bytes.now ≡ BLOCK_SIZE }
    requires least { LEAST_LIST_ENTRIES ≤ entries }
    requires most { entries ≤ MOST_LIST_ENTRIES }
    requires slots { slots ≤ MOST_SLOTS }
    requires room { PAGE_HEAD_SIZE + LIST_ENTRY_SIZE * entries + SLOT_SIZE * slots ≤ BLOCK_SIZE }
    ensures { IfOk result (λ page. page ≡ page_with entries slots bytes.now) }
{
    let dba = Dba(number_u32(bytes, 4));
    let lsn = Lsn(number_u64(bytes, 8));
    let start = PAGE_HEAD_SIZE + LIST_ENTRY_SIZE * entries as usize;
    let (_, body) = bytes.split_at(PAGE_HEAD_SIZE);
    let (_, groups) = bytes.split_at(start);
    let (_, rows) = bytes.split_at(start + SLOT_SIZE * slots as usize);
    let list: Vec<ListEntry> = read_all(alloc, u16::from(entries), body)?;
    let slots = read_slots(alloc, slots, groups, rows)?;
    Ok(RowBlock::from_parts(dba, lsn, slots, Entries::copy(&list)))
}

impl PageForm for RowBlock {
    ghost use Rattle.row_block.specs.Spelling.{spelling, page_in, IsRowPage};
    ghost use Rattle.row_block.specs.Again.{page_again};

    ghost spelling = { spelling };

    ghost meaning = { page_in };

    ghost HasSpelling = { IsRowPage };

    #[tactic(auto, unfolding(crate::specs::Spelling::page_in))]
    fn read(alloc: Global, bytes: &[u8; BLOCK_SIZE]) -> Result<RowBlock, NoMemory> {
        let entries = entry_count(bytes[1]);
        let slots = slot_count(entries, bytes[2]);
        let page = read_page(alloc, bytes, entries, slots)?;
        Ok(page)
    }

    fn write(&self, out: &mut [u8; BLOCK_SIZE]) {
        write_page(
            self.dba(),
            self.lsn(),
            self.all_entries(),
            self.all_slots(),
            out,
        );
    }

    ghost reads_again = { page_again };
}
