// The transaction table.
ghost use Rattle.std.specs.Prelude.{◌≡◌, ◌<◌, ◌≤◌, ◌^◌, [], replicate, ◌++◌, length, slice_get, position, option_copied, IfOk, IfSome, None, flat_map, slice_set, Some};
ghost use Rattle.txn_block.specs.declared.entry.TableEntry.TheVariants.{Unused};
ghost use Rattle.txn_block.specs.Entries.{names, state_in, state_told, last_undo_in, undo_told, told};
ghost use Rattle.txn_block.specs.Tables.{TxnTable, TakesNext};
ghost use Rattle.page_bytes.specs.Types.{page_of};
ghost use Rattle.txn_block.specs.EntryBytes.{entry_bytes, IsEntry};
ghost use Rattle.txn_block.specs.Pages.{IsTable, BlockFits, block_from};

use crate::entry::{State, TableEntry, state_of_outcome};
use crate::page::{block_from, numbers};
use crate::search::{named, next, place_named};
use page_bytes::{
    PageForm, add, add_all, begin, head_bytes, in_range, number_u32, number_u64, read_all,
};
use seg_base::{BLOCK_SIZE, Dba, Lsn, NoMemory, RowNo, Scn, TXN_ENTRIES, TxnId, UndoAddr};
use std::alloc::Global;
use std::marker::Model;

const ENTRIES: usize = TXN_ENTRIES as usize;

/// The transaction table: 96 entries, the control number, which is the greatest commit number that an entry forgot, and
/// the last numbers that were given.
#[derive(Debug, Drop)]
pub struct TxnBlock {
    dba: Dba,
    lsn: Lsn,
    control: Scn,
    last_txn: TxnId,
    last_row: RowNo,
    current_undo: Option<u32>,
    entries: Vec<TableEntry>,
}

impl Model for TxnBlock {
    ghost use Rattle.std.specs.Prelude.{length};
    ghost use Rattle.txn_block.specs.Tables.{TxnTable};
    ghost use Rattle.txn_block.specs.Pages.{HasEntries};

    ghost Value = { TxnTable };

    ghost view = { λ t. record { dba = t.dba; lsn = t.lsn; control = t.control; last_txn = t.last_txn; last_row = t.last_row; current_undo = t.current_undo; entries = t.entries.items } };

    ghost invariant = { λ t. HasEntries t.current_undo t.entries.items };
}

impl TxnBlock {
    /// A table that no transaction has used.
    pub fn new(alloc: Global, dba: Dba) -> Result<TxnBlock, NoMemory>
        ensures { IfOk result (λ t. t ≡ record { dba = dba; lsn = 0; control = 0; last_txn = 0; last_row = 0; current_undo = None; entries = replicate TXN_ENTRIES Unused }) }
    {
        Ok(TxnBlock {
            dba,
            lsn: Lsn(0),
            control: Scn(0),
            last_txn: TxnId(0),
            last_row: RowNo(0),
            current_undo: None,
            entries: Vec::from_slice(alloc, &[TableEntry::Unused; ENTRIES])?,
        })
    }

    pub fn duplicate(&self, alloc: Global) -> Result<TxnBlock, NoMemory>
        ensures { IfOk result (λ t. t ≡ self.now) }
    {
        Ok(TxnBlock {
            dba: self.dba,
            lsn: self.lsn,
            control: self.control,
            last_txn: self.last_txn,
            last_row: self.last_row,
            current_undo: self.current_undo,
            entries: Vec::from_slice(alloc, &self.entries)?,
        })
    }

    pub fn set_lsn(&mut self, lsn: Lsn)
        ensures { self.new ≡ record self.old { lsn = lsn } }
    {
        let _entries = &self.entries;
        self.lsn = lsn;
    }

    pub fn set_last_row(&mut self, row: RowNo)
        ensures { self.new ≡ record self.old { last_row = row } }
    {
        let _entries = &self.entries;
        self.last_row = row;
    }

    pub fn set_begun(&mut self, txn: TxnId, control: Scn)
        ensures { self.new ≡ record self.old { last_txn = txn; control = control } }
    {
        let _entries = &self.entries;
        self.last_txn = txn;
        self.control = control;
    }

    pub fn set_current_undo(&mut self, block: u32)
        requires { 0 < block }
        ensures { self.new ≡ record self.old { current_undo = Some block } }
    {
        let _entries = &self.entries;
        self.current_undo = Some(block);
    }

    /// What stands in an entry.
    #[tactic(auto, using(crate::proofs::Standing::entry_fits))]
    pub fn table_entry(&self, i: u8) -> Option<TableEntry>
        ensures value { result ≡ slice_get self.now.entries i }
        ensures fits { IfSome result IsEntry }
    {
        self.entries.get(usize::from(i)).copied()
    }

    pub fn put_entry(&mut self, i: u8, entry: TableEntry)
        requires place { i < TXN_ENTRIES }
        requires entry { IsEntry entry }
        ensures { self.new ≡ record self.old { entries = slice_set self.old.entries i entry } }
    {
        let _undo = &self.current_undo;
        self.entries[usize::from(i)] = entry;
    }

    pub fn dba(&self) -> Dba
        ensures { result ≡ self.now.dba }
    {
        self.dba
    }

    pub fn lsn(&self) -> Lsn
        ensures { result ≡ self.now.lsn }
    {
        self.lsn
    }

    pub fn control(&self) -> Scn
        ensures { result ≡ self.now.control }
    {
        self.control
    }

    /// The last transaction that began, 0 for none.
    pub fn last_txn(&self) -> TxnId
        ensures { result ≡ self.now.last_txn }
    {
        self.last_txn
    }

    /// The last row that was inserted, 0 for none.
    pub fn last_row(&self) -> RowNo
        ensures { result ≡ self.now.last_row }
    {
        self.last_row
    }

    /// The undo block that was last taken into use.
    pub fn current_undo(&self) -> Option<u32>
        ensures { result ≡ self.now.current_undo }
    {
        self.current_undo
    }

    /// How a transaction that has begun stands.
    pub fn state_of(&self, txn: TxnId) -> State
        requires { txn ≤ self.now.last_txn }
        ensures { result ≡ state_in self.now.entries txn }
    {
        state_told(named(&self.entries, txn))
    }

    /// The transaction of an entry and its state, None exactly for an unused entry and from 96 on.
    pub fn entry(&self, i: u8) -> Option<(TxnId, State)>
        ensures { result ≡ told (slice_get self.now.entries i) }
    {
        told(self.entries.get(usize::from(i)))
    }

    /// The entry that names a transaction, None exactly where none does.
    pub fn entry_of(&self, txn: TxnId) -> Option<u8>
        ensures { result ≡ position (names txn) self.now.entries }
    {
        let place = place_named(&self.entries, txn)?;
        Some(place as u8)
    }

    /// The entry that is used next and the control number after it, None exactly where each entry is that of an active
    /// transaction.
    pub fn next_entry(&self) -> Option<(u8, Scn)>
        ensures { TakesNext self.now.entries self.now.control result }
    {
        let (place, number) = next(&self.entries, self.control)?;
        Some((place as u8, number))
    }

    /// Where a transaction's newest undo stands, None exactly where no entry names it or it has none.
    pub fn last_undo(&self, txn: TxnId) -> Option<UndoAddr>
        ensures { result ≡ last_undo_in self.now.entries txn }
    {
        undo_told(named(&self.entries, txn))
    }

    /// Each table has a spelling: what is written of it is read back.
    pub fn has_spelling(&self)
        ensures { IsTable self.now }
    {
        let _entries = &self.entries;
        in_range(self.dba.0, self.lsn.0);
        in_range(self.dba.0, self.control.0);
        in_range(self.dba.0, self.last_txn.0);
        in_range(self.dba.0, self.last_row.0);
    }
}

impl PageForm for TxnBlock {
    ghost use Rattle.txn_block.specs.Pages.{spelling, table_in, IsTable};
    ghost use Rattle.txn_block.specs.Again.{table_again};

    ghost spelling = { spelling };

    ghost meaning = { table_in };

    ghost HasSpelling = { IsTable };

    fn read(alloc: Global, bytes: &[u8; BLOCK_SIZE]) -> Result<TxnBlock, NoMemory> {
        let (_, rest) = bytes.split_at(48);
        let entries = read_all(alloc, TXN_ENTRIES as u16, rest)?;
        Ok(TxnBlock {
            dba: Dba(number_u32(bytes, 4)),
            lsn: Lsn(number_u64(bytes, 8)),
            control: Scn(number_u64(bytes, 16)),
            last_txn: TxnId(number_u64(bytes, 24)),
            last_row: RowNo(number_u64(bytes, 32)),
            current_undo: block_from(number_u32(bytes, 40)),
            entries,
        })
    }

    fn write(&self, out: &mut [u8; BLOCK_SIZE]) {
        let head = head_bytes(2, 0, 0, self.dba, self.lsn);
        let numbers = numbers(
            self.control,
            self.last_txn,
            self.last_row,
            self.current_undo,
        );
        write_table(&head, &numbers, &self.entries, out);
    }

    ghost reads_again = { table_again };
}

fn write_table(
    head: &[u8; 16],
    numbers: &[u8; 32],
    entries: &[TableEntry],
    out: &mut [u8; BLOCK_SIZE],
)
    requires { length entries.now ≡ TXN_ENTRIES }
    ensures { out.new ≡ page_of ((head.now ++ numbers.now) ++ flat_map entry_bytes entries.now) }
{
    let start = begin(out);
    let front = add(out, start, head);
    let entries_at = add(out, front, numbers);
    add_all(out, entries_at, entries);
}

fn state_told(found: Option<&TableEntry>) -> State
    ensures { result ≡ state_told (option_copied found.entry) }
{
    match found {
        Some(TableEntry::Used(entry)) => state_of_outcome(entry.outcome),
        Some(TableEntry::Unused) | None => State::Forgotten,
    }
}

fn undo_told(found: Option<&TableEntry>) -> Option<UndoAddr>
    ensures { result ≡ undo_told (option_copied found.entry) }
{
    match found {
        Some(TableEntry::Used(entry)) => entry.last_undo,
        Some(TableEntry::Unused) | None => None,
    }
}

fn told(found: Option<&TableEntry>) -> Option<(TxnId, State)>
    ensures { result ≡ told (option_copied found.entry) }
{
    match found {
        Some(TableEntry::Used(entry)) => Some((entry.txn, state_of_outcome(entry.outcome))),
        Some(TableEntry::Unused) | None => None,
    }
}
