// What a record does to the transaction table. It takes no memory.
ghost use Rattle.std.specs.Prelude.{◌≡◌, ◌<◌, OnOk, OnErr, Some, None, true, false};
ghost use Rattle.txn_block.specs.declared.entry.Outcome.TheVariants.{Active};
ghost use Rattle.page_set.specs.Txns.{with_entry, undo_at, with_row_record, txns_changed, txns_after, UndoIsBlock, RowFits, TxnsFit};
ghost use Rattle.page_set.specs.Faults.{IsMisfit};
ghost use Rattle.redo_record.specs.declared.record.Record.TheVariants.{Commit};

use crate::fault::Unfit;
use redo_record::{BeginRecord, CommitRecord, Record, RowBody};
use seg_base::{Lsn, TXN_ENTRIES, TxnId, UndoAddr};
use txn_block::{Outcome, TableEntry, TxnBlock, TxnEntry};

fn has_block(undo: Option<UndoAddr>) -> bool
    ensures yes { result ≡ true → UndoIsBlock undo }
    ensures no { result ≡ false → UndoIsBlock undo → ⊥ }
{
    match undo {
        None => true,
        Some(at) => at.block > 0,
    }
}

fn put_entry(
    table: &mut TxnBlock,
    i: u8,
    txn: TxnId,
    outcome: Outcome,
    undo: Option<UndoAddr>,
) -> Result<(), Unfit>
    ensures done { OnOk result (table.new ≡ with_entry table.old i txn outcome undo) }
    ensures fault { IsMisfit result ((i < TXN_ENTRIES) × UndoIsBlock undo) }
{
    if i >= TXN_ENTRIES || !has_block(undo) {
        return Err(Unfit::Misfit);
    }
    table.put_entry(
        i,
        TableEntry::Used(TxnEntry {
            txn,
            outcome,
            last_undo: undo,
        }),
    );
    Ok(())
}

/// The last undo address that an entry has.
#[tactic(auto, using(crate::proofs::Adding::is_block))]
fn undo_at(table: &TxnBlock, i: u8) -> Option<UndoAddr>
    ensures value { result ≡ undo_at table.now i }
    ensures block { UndoIsBlock result }
{
    match table.table_entry(i) {
        Some(TableEntry::Used(entry)) => entry.last_undo,
        Some(TableEntry::Unused) | None => None,
    }
}

fn put_row(table: &mut TxnBlock, w: &RowBody) -> Result<(), Unfit>
    ensures done { OnOk result (table.new ≡ with_row_record w.now table.old) }
    ensures fault { IsMisfit result (RowFits w.now) }
{
    put_entry(table, w.entry, w.txn, Outcome::Active, Some(w.undo))
}

fn insert(table: &mut TxnBlock, w: &RowBody) -> Result<(), Unfit>
    ensures done { OnOk result (table.new ≡ with_row_record w.now (record table.old { last_row = w.now.row })) }
    ensures fault { IsMisfit result (RowFits w.now) }
{
    table.set_last_row(w.row);
    put_row(table, w)
}

fn begin(table: &mut TxnBlock, g: &BeginRecord) -> Result<(), Unfit>
    ensures done { OnOk result (table.new ≡ with_entry (record table.old { last_txn = g.now.txn; control = g.now.control }) g.now.entry g.now.txn Active None) }
    ensures fault { IsMisfit result (g.now.entry < TXN_ENTRIES) }
{
    table.set_begun(g.txn, g.control);
    put_entry(table, g.entry, g.txn, Outcome::Active, None)
}

/// Ends a transaction: its entry keeps its last undo address.
fn finish(table: &mut TxnBlock, i: u8, txn: TxnId, outcome: Outcome) -> Result<(), Unfit>
    ensures done { OnOk result (table.new ≡ with_entry table.old i txn outcome (undo_at table.old i)) }
    ensures fault { IsMisfit result (i < TXN_ENTRIES) }
{
    let undo = undo_at(table, i);
    put_entry(table, i, txn, outcome, undo)
}

fn use_block(table: &mut TxnBlock, block: u32) -> Result<(), Unfit>
    ensures done { OnOk result (table.new ≡ record table.old { current_undo = Some block }) }
    ensures fault { IsMisfit result (0 < block) }
{
    if block == 0 {
        return Err(Unfit::Misfit);
    }
    table.set_current_undo(block);
    Ok(())
}

fn change(table: &mut TxnBlock, rec: &Record) -> Result<(), Unfit>
    ensures done { OnOk result (table.new ≡ txns_changed rec.now table.old) }
    ensures fault { IsMisfit result (TxnsFit rec.now) }
{
    match rec {
        Record::Begin(g) => begin(table, g),
        Record::Reuse(q) => use_block(table, q.block),
        Record::Insert(w) => insert(table, w),
        Record::Update(w) | Record::Migrate(w) | Record::Return(w) | Record::Delete(w) => {
            put_row(table, w)
        }
        Record::Commit(c) => finish(table, c.entry, c.txn, Outcome::Committed(c.number)),
        Record::Back(k) => put_entry(table, k.entry, k.txn, Outcome::Active, k.last),
        Record::Ended(e) => finish(table, e.entry, e.txn, Outcome::RolledBack),
        _ => Err(Unfit::Misfit),
    }
}

pub fn change_txns(table: &mut TxnBlock, rec: &Record, lsn: Lsn) -> Result<(), Unfit>
    ensures done { OnOk result (table.new ≡ txns_after rec.now lsn table.old) }
    ensures fault { IsMisfit result (TxnsFit rec.now) }
{
    change(table, rec)?;
    table.set_lsn(lsn);
    Ok(())
}

/// A Commit. It takes no memory.
pub fn commit_txns(table: &mut TxnBlock, c: CommitRecord, lsn: Lsn) -> Result<(), Unfit>
    ensures done { OnOk result (table.new ≡ txns_after (Commit c) lsn table.old) }
    ensures kept { OnErr result (table.new ≡ table.old) }
    ensures fault { IsMisfit result (c.entry < TXN_ENTRIES) }
{
    if c.entry >= TXN_ENTRIES {
        return Err(Unfit::Misfit);
    }
    let undo = undo_at(table, c.entry);
    if !has_block(undo) {
        return Err(Unfit::Misfit);
    }
    table.put_entry(
        c.entry,
        TableEntry::Used(TxnEntry {
            txn: c.txn,
            outcome: Outcome::Committed(c.number),
            last_undo: undo,
        }),
    );
    table.set_lsn(lsn);
    Ok(())
}
