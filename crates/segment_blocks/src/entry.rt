// An entry of the catalogue, in 64 bytes.
ghost use Rattle.std.specs.Prelude.{◌≡◌, ◌≤◌, ◌+◌, ◌++◌, List, ℕ, length, replicate, IfOk, Some, None};
ghost use Rattle.page_bytes.specs.Types.{IsFront};
ghost use Rattle.segment_blocks.specs.Catalogues.{name_bytes, entry_in, spelled_table};

use page_bytes::{Piece, add, number_u32};
use seg_base::{BLOCK_SIZE, Dba, LONGEST_NAME, Name, NoMemory};
use std::alloc::Global;

/// A table as the catalogue has it: its name and the block of its segment's header.
#[derive(Debug, Drop)]
pub struct NamedTable {
    pub name: Name,
    pub header: Dba,
}

/// An entry of the catalogue, for the table with its number or for none.
#[derive(Debug, Drop)]
pub struct CatalogueEntry {
    pub table: Option<NamedTable>,
}

fn table_copy(alloc: Global, table: &NamedTable) -> Result<NamedTable, NoMemory>
    ensures { IfOk result (λ copy. copy ≡ table.now) }
{
    Ok(NamedTable {
        name: table.name.duplicate(alloc)?,
        header: table.header,
    })
}

impl CatalogueEntry {
    pub fn duplicate(&self, alloc: Global) -> Result<CatalogueEntry, NoMemory>
        ensures { IfOk result (λ entry. entry ≡ self.now) }
    {
        match &self.table {
            None => Ok(CatalogueEntry { table: None }),
            Some(table) => {
                let copy = table_copy(alloc, table)?;
                Ok(CatalogueEntry { table: Some(copy) })
            }
        }
    }
}

static ZEROS: [u8; 64] = [0; 64];

/// The bytes of a name in an entry's 64 bytes, as far as they can be one.
fn name_bytes(bytes: &[u8]) -> &[u8]
    requires { length bytes.now ≡ 64 }
    ensures { result.now ≡ name_bytes bytes.now }
{
    let len = usize::from(bytes[0]).min(LONGEST_NAME);
    let (_, rest) = bytes.split_at(1);
    let (name, _) = rest.split_at(len);
    name
}

fn read_entry(alloc: Global, bytes: &[u8]) -> Result<CatalogueEntry, NoMemory>
    requires { length bytes.now ≡ 64 }
    ensures { IfOk result (λ entry. entry ≡ entry_in bytes.now) }
{
    match Name::copy(alloc, name_bytes(bytes))? {
        None => Ok(CatalogueEntry { table: None }),
        Some(name) => {
            let header = Dba(number_u32(bytes, 31));
            Ok(CatalogueEntry {
                table: Some(NamedTable { name, header }),
            })
        }
    }
}

/// So many zeros.
#[tactic(auto, using(crate::proofs::Forms::first_zeros))]
fn zeros(count: usize) -> &'static [u8]
    requires { count ≤ 64 }
    ensures { result.now ≡ replicate count 0 }
{
    let (front, _) = ZEROS.split_at(count);
    front
}

fn add_table(page: &mut [u8; BLOCK_SIZE], at: usize, name: &[u8], header: u32) -> usize
    requires room { at + 64 ≤ BLOCK_SIZE }
    requires most { length name.now ≤ LONGEST_NAME }
    ensures place { result ≡ at + 64 }
    ensures bytes { (front : List ℕ) → IsFront page.old front at → IsFront page.new (front ++ spelled_table (Some (record { name = name.now; header = header }))) result }
{
    let name_at = add(page, at, &[name.len() as u8]);
    let zeros_at = add(page, name_at, name);
    let header_at = add(page, zeros_at, zeros(LONGEST_NAME - name.len()));
    let rest_at = add(page, header_at, &header.to_be_bytes());
    add(page, rest_at, zeros(29))
}

impl Piece for CatalogueEntry {
    ghost use Rattle.segment_blocks.specs.Catalogues.{spelled_entry, entry_in, IsCatalogueEntry};
    ghost use Rattle.segment_blocks.specs.CatalogueAgain.{length-spelled_entry, entry_again};

    const SIZE: usize = 64;

    ghost SIZE = { 64 };

    ghost spelling = { spelled_entry };

    ghost meaning = { entry_in };

    ghost HasSpelling = { IsCatalogueEntry };

    fn read(alloc: Global, bytes: &[u8]) -> Result<CatalogueEntry, NoMemory> {
        read_entry(alloc, bytes)
    }

    fn add(&self, page: &mut [u8; BLOCK_SIZE], at: usize) -> usize {
        match &self.table {
            None => add(page, at, zeros(64)),
            Some(table) => {
                let header = table.header;
                add_table(page, at, table.name.as_slice(), header.0)
            }
        }
    }

    ghost size = { length-spelled_entry };

    ghost reads_again = { entry_again };
}
