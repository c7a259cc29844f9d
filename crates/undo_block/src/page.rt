// The page of an undo block.
ghost use Rattle.std.specs.Prelude.{◌≡◌, ◌≤◌, ◌<◌, ◌^◌, ◌+◌, ◌++◌, List, ℕ, length, take, drop, IfOk, flat_map};
ghost use Rattle.seg_words.specs.Types.{slot_bytes};
ghost use Rattle.page_bytes.specs.Types.{IsFront};
ghost use Rattle.undo_block.specs.declared.part.Part.{Part as PartValue};
ghost use Rattle.undo_block.specs.Parts.{part_size, used_by};
ghost use Rattle.undo_block.specs.UndoPage.{UndoPage, previous_as, previous_or_zeros, part_head, part_bytes, fields_of, spelling, len_in, part_from, parts_in, page_in};

use crate::block::UndoBlock;
use crate::part::Part;
use crate::parts::Parts;
use page_bytes::{
    PageForm, SlotFields, add, begin, cut, head_bytes, number_u16, number_u32, number_u64,
};
use seg_base::{
    BLOCK_ROOM, BLOCK_SIZE, Dba, Lsn, NoMemory, TxnId, UNDO_PART_SIZE, UndoPlace, put_at,
    slot_bytes,
};
use std::alloc::Global;

const KIND: u8 = 6;

fn previous_or_zeros(previous: &Option<UndoPlace>) -> UndoPlace
    ensures { result ≡ previous_or_zeros previous.now }
{
    match previous {
        None => UndoPlace { block: 0, nth: 0 },
        Some(place) => *place,
    }
}

fn previous_as(block: u32, nth: u8) -> Option<UndoPlace>
    ensures { result ≡ previous_as block nth }
{
    match block {
        0 => None,
        block => Some(UndoPlace { block, nth }),
    }
}

/// The 24 bytes before the old slot.
fn part_head(part: &Part) -> [u8; 24]
    ensures { result ≡ part_head part.now }
{
    let previous = previous_or_zeros(&part.previous);
    let mut bytes = [0; 24];
    put_at(&mut bytes, 0, &part.txn.0.to_be_bytes());
    put_at(&mut bytes, 8, &previous.block.to_be_bytes());
    bytes[12] = previous.nth;
    put_at(&mut bytes, 13, &part.dba.0.to_be_bytes());
    bytes[17] = part.slot;
    bytes[18] = part.parts;
    bytes
}

fn add_part(page: &mut [u8; BLOCK_SIZE], at: usize, part: &Part) -> usize
    requires { at + part_size part.now ≤ BLOCK_SIZE }
    ensures place { result ≡ at + part_size part.now }
    ensures bytes { (front : List ℕ) → IsFront page.old front at → IsFront page.new (front ++ part_bytes part.now) result }
{
    let slot_at = add(page, at, &part_head(part));
    let row_at = add(page, slot_at, &slot_bytes(&part.old));
    add(page, row_at, part.old.bytes.as_slice())
}

fn read_part(alloc: Global, group: &[u8], row: &[u8]) -> Result<Part, NoMemory>
    requires long { length group.now ≡ UNDO_PART_SIZE }
    requires row { length row.now < 2 ^ 16 }
    ensures { IfOk result (λ part. part ≡ part_from group.now row.now) }
{
    let (_, slot) = group.split_at(24);
    let fields = SlotFields::read(slot);
    let old = fields.slot(alloc, row)?;
    Ok(Part {
        txn: TxnId(number_u64(group, 0)),
        previous: previous_as(number_u32(group, 8), group[12]),
        dba: Dba(number_u32(group, 13)),
        slot: group[17],
        parts: group[18],
        old,
    })
}

fn len_in(group: &[u8]) -> u16
    requires { length group.now ≡ UNDO_PART_SIZE }
    ensures { result ≡ len_in group.now }
{
    let (_, slot) = group.split_at(24);
    let fields = SlotFields::read(slot);
    fields.row_len()
}

#[tactic(auto, using(crate::proofs::Reading::none_read, crate::proofs::Reading::short_read, crate::proofs::Reading::all_read))]
fn read_parts(alloc: Global, count: u16, bytes: &[u8]) -> Result<Parts, NoMemory>
    requires { length bytes.now ≤ BLOCK_ROOM }
    ensures { IfOk result (λ parts. parts ≡ parts_in count bytes.now) }
{
    let mut parts = Parts::new(alloc);
    let mut rest = bytes;
    for _ in 0..count {
        if rest.len() < UNDO_PART_SIZE {
            return Ok(parts);
        }
        let (group, more) = rest.split_at(UNDO_PART_SIZE);
        let (row, others) = cut(more, usize::from(len_in(group)));
        parts.push(read_part(alloc, group, row)?)?;
        rest = others;
    }
    Ok(parts)
}

fn add_parts(page: &mut [u8; BLOCK_SIZE], at: usize, parts: &[Part])
    requires { at + used_by parts.now ≤ BLOCK_SIZE }
    ensures { (front : List ℕ) → IsFront page.old front at → IsFront page.new (front ++ flat_map part_bytes parts.now) (at + used_by parts.now) }
{
    let mut next = at;
    for part in parts {
        next = add_part(page, next, part);
    }
}

/// The 48 bytes between the page's head and its parts.
fn fields_of(sequence: u64, used: u16, count: u16) -> [u8; 48]
    ensures { (parts : List PartValue) → used ≡ used_by parts → count ≡ length parts → result ≡ fields_of sequence parts }
{
    let mut bytes = [0; 48];
    put_at(&mut bytes, 0, &sequence.to_be_bytes());
    put_at(&mut bytes, 8, &used.to_be_bytes());
    put_at(&mut bytes, 10, &count.to_be_bytes());
    bytes
}

fn write_page(dba: Dba, lsn: Lsn, fields: &[u8; 48], parts: &[Part], out: &mut [u8; BLOCK_SIZE])
    requires { used_by parts.now ≤ BLOCK_ROOM }
    ensures { (sequence : ℕ) → fields.now ≡ fields_of sequence parts.now → out.new ≡ spelling (record { dba = dba; lsn = lsn; sequence = sequence; parts = parts.now }) }
{
    let start = begin(out);
    let fields_at = add(out, start, &head_bytes(KIND, 0, 0, dba, lsn));
    let parts_at = add(out, fields_at, fields);
    add_parts(out, parts_at, parts);
}

impl PageForm for UndoBlock {
    ghost use Rattle.undo_block.specs.UndoPage.{spelling, page_in, IsUndoPage};
    ghost use Rattle.undo_block.specs.Again.{page_again};

    ghost spelling = { spelling };

    ghost meaning = { page_in };

    ghost HasSpelling = { IsUndoPage };

    #[tactic(auto, unfolding(crate::specs::UndoPage::page_in))]
    fn read(alloc: Global, bytes: &[u8; BLOCK_SIZE]) -> Result<UndoBlock, NoMemory> {
        let (_, rest) = bytes.split_at(64);
        let parts = read_parts(alloc, number_u16(bytes, 26), rest)?;
        Ok(UndoBlock::from_parts(
            Dba(number_u32(bytes, 4)),
            Lsn(number_u64(bytes, 8)),
            number_u64(bytes, 16),
            parts,
        ))
    }

    fn write(&self, out: &mut [u8; BLOCK_SIZE]) {
        let fields = fields_of(self.sequence(), self.used(), u16::from(self.count()));
        write_page(self.dba(), self.lsn(), &fields, self.all_parts(), out);
    }

    ghost reads_again = { page_again };
}
