// The rows of a block, slot by slot.
ghost use Rattle.std.specs.Prelude.{◌≡◌, ◌∷◌, [], ℕ, List, None, Some, IfOk, IfErr, MatchOption};
ghost use Rattle.seg_words.specs.Types.{Shape as TheShape};
ghost use Rattle.redo_model.specs.Records.{Record};
ghost use Rattle.redo_model.specs.Model.{slot_count};
ghost use Rattle.version_read.specs.Walking.{SeesRowAt, StepsTo, txn_or_none};
ghost use Rattle.store_core.specs.Store.{IsFetched, IsTrue};
ghost use Rattle.store_core.specs.Causes.{HasLooked, IsSoundFault};
ghost use Rattle.store_core.specs.Undo.{IsWorking};
ghost use Rattle.scan_table.specs.Reading.{BlockAnswers, IsOfBlock, IsReading, Shows, SlotAdds, SlotAnswers, SlotGives, store_part};
ghost use Rattle.scan_table.specs.declared.reader.Reader.{Reader as TheReader};
ghost use Rattle.version_read.specs.declared.chain.Seen.TheVariants as seens;

use crate::ScanFault;
use crate::reader::{Reader, Shown, copy_row, shown_in, slots_in};
use crate::rows::Rows;
use disk_model::Disk;
use history_text::RowOut;
use seg_base::{Dba, NoMemory, TxnId, UndoAddr};
use std::alloc::Global;
use store_core::{Store, StoreFault};
use version_read::{Seen, image_at, walk};

/// The row of the image at an undo address. None where no image stands there.
fn told_row<D: Disk>(
    alloc: Global,
    store: &Store<D>,
    from: UndoAddr,
) -> Result<Option<RowOut>, NoMemory>
    requires { IsFetched from.block store.now }
    ensures { (sh : TheShape) (R : List Record) (b k s t : ℕ) → IsWorking D.meaning sh R store.now → SeesRowAt sh R b k s t from → IfOk result (λ x. MatchOption x ⊥ (λ row. SlotGives R b k s t (Some row))) }
{
    match image_at(store, from) {
        None => Ok(None),
        Some(image) => match copy_row(alloc, image) {
            Ok(row) => Ok(Some(row)),
            Err(_) => Err(NoMemory),
        },
    }
}

/// The forgotten transaction at which a walk ended.
fn forgotten_in(seen: &Seen) -> TxnId
    ensures { (u : ℕ) → seen.now ≡ seens.TooOldEntry u → result ≡ u }
{
    match seen {
        Seen::TooOldEntry(txn) => TxnId(txn.0),
        _ => TxnId(0),
    }
}

/// The row of a slot whose image leads to an undo address.
fn follow_down<D: Disk>(
    alloc: Global,
    store: &mut Store<D>,
    from: UndoAddr,
    dba: Dba,
    slot: u8,
    reader: &Reader,
) -> Result<Option<RowOut>, ScanFault>
    requires { store.old.fault ≡ None }
    ensures looked { HasLooked D.meaning store.old store.new (store_part result) }
    ensures block { IfErr result IsOfBlock }
    ensures says { (R : List Record) (o : ℕ) → IsTrue D.meaning R store.old → IsReading store.old.shape R reader.now o dba → StepsTo reader.now.shape R dba slot reader.now.at reader.now.own from → SlotAnswers R reader.now dba slot result }
{
    let ring = reader.shape.undo;
    let seen = match walk(store, &reader.table, from, reader.at, reader.own, ring) {
        Ok(seen) => seen,
        Err(fault) => return Err(ScanFault::Store(fault)),
    };
    match seen {
        Seen::Nothing => Ok(None),
        Seen::TooOld(at) => Err(ScanFault::TooOld { at }),
        Seen::TooOldEntry(_) => Err(ScanFault::TooOldEntry {
            txn: forgotten_in(&seen),
        }),
        Seen::Row(below) => match told_row(alloc, &*store, below) {
            Ok(Some(row)) => Ok(Some(row)),
            Ok(None) => Err(ScanFault::Store(store.refuse(Dba(below.block)))),
            Err(_) => Err(ScanFault::Store(StoreFault::NoMemory)),
        },
    }
}

/// The row of a slot of which its page shows so much.
fn row_by<D: Disk>(
    alloc: Global,
    store: &mut Store<D>,
    shown: Shown,
    dba: Dba,
    slot: u8,
    reader: &Reader,
) -> Result<Option<RowOut>, ScanFault>
    requires { store.old.fault ≡ None }
    ensures looked { HasLooked D.meaning store.old store.new (store_part result) }
    ensures block { IfErr result IsOfBlock }
    ensures says { (R : List Record) (o : ℕ) → IsTrue D.meaning R store.old → IsReading store.old.shape R reader.now o dba → Shows R reader.now dba slot shown → SlotAnswers R reader.now dba slot result }
{
    match shown {
        Shown::Row(row) => Ok(Some(row)),
        Shown::Nothing => Ok(None),
        Shown::TooOldEntry(txn) => Err(ScanFault::TooOldEntry { txn }),
        Shown::Below(from) => follow_down(alloc, store, from, dba, slot, reader),
    }
}

fn told_shown<D: Disk>(
    alloc: Global,
    store: &Store<D>,
    dba: Dba,
    slot: u8,
    reader: &Reader,
) -> Result<Option<Shown>, NoMemory>
    requires { IsFetched dba store.now }
    ensures { (R : List Record) (o : ℕ) → IsTrue D.meaning R store.now → IsReading store.now.shape R reader.now o dba → IfOk result (λ x. MatchOption x ⊥ (Shows R reader.now dba slot)) }
{
    shown_in(alloc, store.frame(dba), slot, reader)
}

/// The row of a slot of a block.
fn read_slot<D: Disk>(
    alloc: Global,
    store: &mut Store<D>,
    dba: Dba,
    slot: u8,
    reader: &Reader,
) -> Result<Option<RowOut>, ScanFault>
    requires { store.old.fault ≡ None }
    ensures looked { HasLooked D.meaning store.old store.new (store_part result) }
    ensures block { IfErr result IsOfBlock }
    ensures says { (R : List Record) (o : ℕ) → IsTrue D.meaning R store.old → IsReading store.old.shape R reader.now o dba → SlotAnswers R reader.now dba slot result }
{
    match store.fetch(dba) {
        Ok(()) => {}
        Err(fault) => return Err(ScanFault::Store(fault)),
    }
    match told_shown(alloc, &*store, dba, slot, reader) {
        Ok(Some(shown)) => row_by(alloc, store, shown, dba, slot, reader),
        Ok(None) => Err(ScanFault::Store(store.refuse(dba))),
        Err(_) => Err(ScanFault::Store(StoreFault::NoMemory)),
    }
}

/// Adds the row of a slot to those of the slots before it.
fn add_slot<D: Disk>(
    alloc: Global,
    store: &mut Store<D>,
    dba: Dba,
    slot: u8,
    reader: &Reader,
    rows: &mut Rows,
) -> Result<(), ScanFault>
    requires { store.old.fault ≡ None }
    ensures looked { HasLooked D.meaning store.old store.new (store_part result) }
    ensures block { IfErr result IsOfBlock }
    ensures says { (R : List Record) (o : ℕ) → IsTrue D.meaning R store.old → IsReading store.old.shape R reader.now o dba → SlotAdds R reader.now dba slot rows.old rows.new result }
{
    match read_slot(alloc, store, dba, slot, reader) {
        Err(fault) => Err(fault),
        Ok(None) => Ok(()),
        Ok(Some(row)) => match rows.push(row) {
            Ok(()) => Ok(()),
            Err(_) => Err(ScanFault::Store(StoreFault::NoMemory)),
        },
    }
}

fn told_slots<D: Disk>(store: &Store<D>, dba: Dba) -> Option<u8>
    requires { IsFetched dba store.now }
    ensures { (R : List Record) (o : ℕ) (q : TheReader) → IsTrue D.meaning R store.now → IsReading store.now.shape R q o dba → MatchOption result ⊥ (λ n. n ≡ slot_count R dba) }
{
    slots_in(store.frame(dba))
}

/// How many slots a row block has.
fn count_slots<D: Disk>(store: &mut Store<D>, dba: Dba) -> Result<u8, StoreFault>
    ensures looked { HasLooked D.meaning store.old store.new result }
    ensures says { (R : List Record) (o : ℕ) (q : TheReader) → IsTrue D.meaning R store.old → IsReading store.old.shape R q o dba → IfOk result (λ n. n ≡ slot_count R dba) }
    ensures sound { (R : List Record) (o : ℕ) (q : TheReader) → IsTrue D.meaning R store.old → IsReading store.old.shape R q o dba → store.old.fault ≡ None → IfErr result IsSoundFault }
{
    match store.fetch(dba) {
        Ok(()) => {}
        Err(fault) => return Err(fault),
    }
    match told_slots(&*store, dba) {
        Some(slots) => Ok(slots),
        None => Err(store.refuse(dba)),
    }
}

/// The rows that a row block gives a reader, in order of slots. It is refused for the first slot whose images don't lead to one
/// that counts, by the first of them from the newest on that fails.
pub fn read_block<D: Disk>(
    alloc: Global,
    store: &mut Store<D>,
    dba: Dba,
    reader: &Reader,
) -> Result<Rows, ScanFault>
    requires { store.old.fault ≡ None }
    ensures looked { HasLooked D.meaning store.old store.new (store_part result) }
    ensures block { IfErr result IsOfBlock }
    ensures says { (R : List Record) (o : ℕ) → IsTrue D.meaning R store.old → IsReading store.old.shape R reader.now o dba → BlockAnswers R dba reader.now.at (txn_or_none reader.now.own) result }
{
    let slots = match count_slots(store, dba) {
        Ok(slots) => slots,
        Err(fault) => return Err(ScanFault::Store(fault)),
    };
    let mut rows = Rows::new(alloc);
    for slot in 0..slots {
        match add_slot(alloc, store, dba, slot, reader, &mut rows) {
            Ok(()) => {}
            Err(fault) => return Err(fault),
        }
    }
    Ok(rows)
}
