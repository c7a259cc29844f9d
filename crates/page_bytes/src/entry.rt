// The 24 bytes of a list entry.
ghost use Rattle.std.specs.Prelude.{◌≡◌};
ghost use Rattle.page_bytes.specs.Entries.{entry_bytes, entry_from, IsListEntry};

use crate::Piece;
use crate::field::number_u64;
use crate::front::add;
use seg_base::{BLOCK_SIZE, LIST_ENTRY_SIZE, ListEntry, NoMemory, Scn, TxnId, put_at};
use std::alloc::Global;

fn entry_bytes(entry: &ListEntry) -> [u8; LIST_ENTRY_SIZE]
    ensures { result ≡ entry_bytes entry.now }
{
    let mut bytes = [0; LIST_ENTRY_SIZE];
    put_at(&mut bytes, 0, &entry.txn.0.to_be_bytes());
    put_at(&mut bytes, 8, &entry.number.0.to_be_bytes());
    bytes
}

impl Piece for ListEntry {
    ghost use Rattle.page_bytes.specs.Entries.{entry_bytes, entry_from, IsListEntry};
    ghost use Rattle.page_bytes.specs.EntriesAgain.{length-entry_bytes, entry_again};

    const SIZE: usize = 24;

    ghost SIZE = { 24 };

    ghost spelling = { entry_bytes };

    ghost meaning = { entry_from };

    ghost HasSpelling = { IsListEntry };

    fn read(_alloc: Global, bytes: &[u8]) -> Result<ListEntry, NoMemory> {
        Ok(ListEntry {
            txn: TxnId(number_u64(bytes, 0)),
            number: Scn(number_u64(bytes, 8)),
        })
    }

    fn add(&self, page: &mut [u8; BLOCK_SIZE], at: usize) -> usize {
        add(page, at, &entry_bytes(self))
    }

    ghost size = { length-entry_bytes };

    ghost reads_again = { entry_again };
}
