// The catalogue, block 2.
ghost use Rattle.std.specs.Prelude.{◌≡◌, ◌≤◌, ◌+◌, ◌<◌, length, IfSome, position, ◌-◌, ◌++◌, replicate, slice_set, Some, IfOk, OnOk};
ghost use Rattle.seg_words.specs.Types.{AllByRecursion};
ghost use Rattle.segment_blocks.specs.Catalogues.{IsCatalogue, IsCatalogueEntry, IsTable, has_table, header_of_table, header_of, is_named, spelling_of_tables, table_count, table_named, no_table};

use crate::entry::{CatalogueEntry, NamedTable};
use page_bytes::{
    PageForm, add, add_all, begin, head_bytes, in_range, number_u32, number_u64, read_all,
};
use seg_base::{BLOCK_SIZE, Dba, Lsn, MOST_TABLES, Name, NoMemory, Obj};
use std::alloc::Global;
use std::marker::Model;

const KIND: u8 = 3;

/// The tables of a store by name: an entry for each number of a table, 1 to 32.
#[derive(Debug, Drop)]
pub struct Catalogue {
    dba: Dba,
    lsn: Lsn,
    entries: Vec<CatalogueEntry>,
}

impl Model for Catalogue {
    ghost use Rattle.std.specs.Prelude.{◌≡◌, length};
    ghost use Rattle.segment_blocks.specs.Catalogues.{Tables};
    ghost use Rattle.seg_words.specs.Types.{MOST_TABLES};

    ghost Value = { Tables };

    ghost view = { λ c. record { dba = c.dba; lsn = c.lsn; entries = c.entries.items } };

    ghost invariant = { λ c. length c.entries.items ≡ MOST_TABLES };
}

fn has_table(entry: &CatalogueEntry) -> bool
    ensures { result ≡ has_table entry.now }
{
    match &entry.table {
        None => false,
        Some(_) => true,
    }
}

fn is_named(entry: &CatalogueEntry, name: &[u8]) -> bool
    ensures { result ≡ is_named name.now entry.now }
{
    match &entry.table {
        None => false,
        Some(table) => table.name.as_slice() == name,
    }
}

fn header(entry: &CatalogueEntry) -> Option<Dba>
    ensures { result ≡ header_of_table entry.now.table }
{
    let table = entry.table.as_ref()?;
    Some(table.header)
}

fn place_named(entries: &[CatalogueEntry], name: &[u8]) -> Option<usize>
    ensures place { result ≡ position (is_named name.now) entries.now }
    ensures bound { IfSome result (λ i. i < length entries.now) }
{
    entries.iter().position(|e| is_named(e, name))
}

#[tactic(auto, using(crate::proofs::Headings::header_beyond, crate::proofs::Headings::header_there))]
fn header_of(entries: &[CatalogueEntry], number: u8) -> Option<Dba>
    ensures { result ≡ header_of entries.now number }
{
    if number == 0 {
        return None;
    }
    let at = usize::from(number) - 1;
    if at >= entries.len() {
        return None;
    }
    header(&entries[at])
}

/// Adds so many entries of no table.
fn add_none(entries: &mut Vec<CatalogueEntry>, count: u8) -> Result<(), NoMemory>
    ensures { OnOk result (entries.new.items ≡ entries.old.items ++ replicate count no_table) }
{
    for _ in 0..count {
        entries.push(CatalogueEntry { table: None })?;
    }
    Ok(())
}

fn copies(alloc: Global, entries: &[CatalogueEntry]) -> Result<Vec<CatalogueEntry>, NoMemory>
    ensures { IfOk result (λ copies. copies.items ≡ entries.now) }
{
    let mut copies = Vec::new(alloc);
    for entry in entries {
        copies.push(entry.duplicate(alloc)?)?;
    }
    Ok(copies)
}

fn table_in_range(table: &NamedTable)
    ensures { IsTable (Some table.now) }
{
    let _name = table.name.as_slice();
    in_range(table.header.0, 0);
}

/// Each entry has a spelling.
fn entries_in_range(entries: &[CatalogueEntry])
    ensures { AllByRecursion IsCatalogueEntry entries.now }
{
    match entries {
        [] => {}
        [first, rest @ ..] => {
            if let Some(table) = &first.table {
                table_in_range(table);
            }
            entries_in_range(rest);
        }
    }
}

impl Catalogue {
    /// The catalogue of a store without a table.
    pub fn new(alloc: Global, dba: Dba) -> Result<Catalogue, NoMemory>
        ensures { IfOk result (λ c. c ≡ record { dba = dba; lsn = 0; entries = replicate MOST_TABLES no_table }) }
    {
        let mut entries = Vec::new(alloc);
        add_none(&mut entries, MOST_TABLES)?;
        Ok(Catalogue {
            dba,
            lsn: Lsn(0),
            entries,
        })
    }

    pub fn duplicate(&self, alloc: Global) -> Result<Catalogue, NoMemory>
        ensures { IfOk result (λ c. c ≡ self.now) }
    {
        let entries = copies(alloc, &self.entries)?;
        Ok(Catalogue {
            dba: self.dba,
            lsn: self.lsn,
            entries,
        })
    }

    pub fn set_lsn(&mut self, lsn: Lsn)
        ensures { self.new ≡ record self.old { lsn = lsn } }
    {
        let _entries = &self.entries;
        self.lsn = lsn;
    }

    /// Keeps the name of a table and the block of its header.
    pub fn put(&mut self, obj: Obj, table: NamedTable)
        requires least { 1 ≤ obj }
        requires most { obj ≤ MOST_TABLES }
        ensures { self.new ≡ record self.old { entries = slice_set self.old.entries (obj - 1) (record { table = Some table }) } }
    {
        let _dba = self.dba;
        self.entries[usize::from(obj.0) - 1] = CatalogueEntry { table: Some(table) };
    }

    pub fn dba(&self) -> Dba
        ensures { result ≡ self.now.dba }
    {
        self.dba
    }

    pub fn lsn(&self) -> Lsn
        ensures { result ≡ self.now.lsn }
    {
        self.lsn
    }

    /// The table with this name.
    pub fn table(&self, name: &Name) -> Option<Obj>
        ensures { result ≡ table_named self.now.entries name.now }
    {
        let at = place_named(&self.entries, name.as_slice())?;
        Some(Obj(at as u8 + 1))
    }

    /// How many tables there are.
    pub fn tables(&self) -> u8
        ensures { result ≡ table_count self.now.entries }
    {
        self.entries.iter().filter(|e| has_table(e)).count() as u8
    }

    /// The block of a table's header, None exactly where the table isn't there.
    pub fn header(&self, obj: Obj) -> Option<Dba>
        ensures { result ≡ header_of self.now.entries obj }
    {
        header_of(&self.entries, obj.0)
    }

    /// Each of these pages has a spelling: what is written of it is read back.
    pub fn has_spelling(&self)
        ensures { IsCatalogue self.now }
    {
        in_range(self.dba.0, self.lsn.0);
        entries_in_range(&self.entries);
    }
}

impl PageForm for Catalogue {
    ghost use Rattle.segment_blocks.specs.Catalogues.{spelling_of_tables, tables_in, IsCatalogue};
    ghost use Rattle.segment_blocks.specs.CatalogueAgain.{tables_again};

    ghost spelling = { spelling_of_tables };

    ghost meaning = { tables_in };

    ghost HasSpelling = { IsCatalogue };

    #[tactic(auto, unfolding(crate::specs::Catalogues::tables_in))]
    fn read(alloc: Global, bytes: &[u8; BLOCK_SIZE]) -> Result<Catalogue, NoMemory> {
        let (_, rest) = bytes.split_at(16);
        let entries = read_all(alloc, MOST_TABLES as u16, rest)?;
        Ok(Catalogue {
            dba: Dba(number_u32(bytes, 4)),
            lsn: Lsn(number_u64(bytes, 8)),
            entries,
        })
    }

    fn write(&self, out: &mut [u8; BLOCK_SIZE]) {
        write_page(self.dba, self.lsn, &self.entries, out);
    }

    ghost reads_again = { tables_again };
}

fn write_page(dba: Dba, lsn: Lsn, entries: &[CatalogueEntry], out: &mut [u8; BLOCK_SIZE])
    requires { length entries.now ≤ MOST_TABLES }
    ensures { out.new ≡ spelling_of_tables (record { dba = dba; lsn = lsn; entries = entries.now }) }
{
    let start = begin(out);
    let entries_at = add(out, start, &head_bytes(KIND, 0, 0, dba, lsn));
    add_all(out, entries_at, entries);
}
