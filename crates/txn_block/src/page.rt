// The bytes of an entry and of the numbers before the entries.
ghost use Rattle.std.specs.Prelude.{◌≡◌, ◌<◌, ◌^◌};
ghost use Rattle.txn_block.specs.EntryBytes.{outcome_code, number_or_zero, used_bytes, entry_bytes, entry_told, entry_in, IsEntry};
ghost use Rattle.txn_block.specs.Pages.{block_or_zero, block_from, number_bytes};

use crate::entry::{Outcome, TableEntry, TxnEntry};
use page_bytes::{Piece, add, number_u32, number_u64, undo_as};
use seg_base::{BLOCK_SIZE, NoMemory, RowNo, Scn, TxnId, UndoAddr, put_at, undo_or_zeros};
use std::alloc::Global;

fn outcome_code(outcome: Outcome) -> u8
    ensures { result ≡ outcome_code outcome }
{
    match outcome {
        Outcome::Active => 1,
        Outcome::Committed(_) => 2,
        Outcome::RolledBack => 3,
    }
}

fn number_or_zero(outcome: Outcome) -> u64
    ensures { result ≡ number_or_zero outcome }
{
    match outcome {
        Outcome::Committed(number) => number.0,
        Outcome::Active | Outcome::RolledBack => 0,
    }
}

fn used_bytes(entry: &TxnEntry) -> [u8; 32]
    ensures { result ≡ used_bytes entry.now }
{
    let undo = undo_or_zeros(&entry.last_undo);
    let mut bytes = [0; 32];
    put_at(&mut bytes, 0, &entry.txn.0.to_be_bytes());
    bytes[8] = outcome_code(entry.outcome);
    put_at(&mut bytes, 9, &number_or_zero(entry.outcome).to_be_bytes());
    put_at(&mut bytes, 17, &undo.block.to_be_bytes());
    put_at(&mut bytes, 21, &undo.seq.to_be_bytes());
    bytes[29] = undo.nth;
    bytes
}

#[tactic(auto, unfolding(crate::specs::EntryBytes::entry_bytes))]
fn entry_bytes(entry: &TableEntry) -> [u8; 32]
    ensures { result ≡ entry_bytes entry.now }
{
    match entry {
        TableEntry::Unused => [0; 32],
        TableEntry::Used(entry) => used_bytes(entry),
    }
}

/// An entry of these fields; an unknown state is none.
fn entry_told(txn: u64, code: u8, number: u64, last_undo: Option<UndoAddr>) -> TableEntry
    ensures { result ≡ entry_told txn code number last_undo }
{
    let outcome = match code {
        1 => Outcome::Active,
        2 => Outcome::Committed(Scn(number)),
        3 => Outcome::RolledBack,
        _ => return TableEntry::Unused,
    };
    TableEntry::Used(TxnEntry {
        txn: TxnId(txn),
        outcome,
        last_undo,
    })
}

impl Piece for TableEntry {
    ghost use Rattle.txn_block.specs.EntryBytes.{entry_bytes, entry_in, IsEntry};
    ghost use Rattle.txn_block.specs.EntryAgain.{length-entry_bytes, entry_again};

    const SIZE: usize = 32;

    ghost SIZE = { 32 };

    ghost spelling = { entry_bytes };

    ghost meaning = { entry_in };

    ghost HasSpelling = { IsEntry };

    #[tactic(auto, unfolding(crate::specs::EntryBytes::entry_in))]
    fn read(_alloc: Global, bytes: &[u8]) -> Result<TableEntry, NoMemory> {
        let undo = undo_as(number_u32(bytes, 17), number_u64(bytes, 21), bytes[29]);
        Ok(entry_told(number_u64(bytes, 0), bytes[8], number_u64(bytes, 9), undo))
    }

    fn add(&self, page: &mut [u8; BLOCK_SIZE], at: usize) -> usize {
        add(page, at, &entry_bytes(self))
    }

    ghost size = { length-entry_bytes };

    ghost reads_again = { entry_again };
}

fn block_or_zero(block: Option<u32>) -> u32
    ensures { result ≡ block_or_zero block }
{
    match block {
        Some(block) => block,
        None => 0,
    }
}

/// An undo block, 0 for none.
pub fn block_from(block: u32) -> Option<u32>
    ensures { result ≡ block_from block }
{
    match block {
        0 => None,
        block => Some(block),
    }
}

/// The numbers before the entries, and four zeros.
pub fn numbers(
    control: Scn,
    last_txn: TxnId,
    last_row: RowNo,
    current_undo: Option<u32>,
) -> [u8; 32]
    ensures { result ≡ number_bytes control last_txn last_row current_undo }
{
    let mut bytes = [0; 32];
    put_at(&mut bytes, 0, &control.0.to_be_bytes());
    put_at(&mut bytes, 8, &last_txn.0.to_be_bytes());
    put_at(&mut bytes, 16, &last_row.0.to_be_bytes());
    put_at(&mut bytes, 24, &block_or_zero(current_undo).to_be_bytes());
    bytes
}
