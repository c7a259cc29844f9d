// One step of a rollback: the newest standing record of a transaction is taken back.
ghost use Rattle.std.specs.Prelude.{◌≡◌, ◌∷◌, ℕ, ◌+◌, ◌<◌, ◌≤◌, true, List, length, slice_get, None, Some, IfOk, IfErr};
ghost use Rattle.seg_words.specs.Types.{MOST_UNDO_PARTS};
ghost use Rattle.redo_model.specs.Records.{Record, Back};
ghost use Rattle.redo_model.specs.Model.{Step, is_active, standing, newest_of, taken_back};
ghost use Rattle.redo_model.specs.Records.{RowPart as ThePart};
ghost use Rattle.end_laws.specs.Types.{BackTold, back_of, backed, blocks_in, blocks_of_step, table_place, present_addr};
ghost use Rattle.version_laws.specs.Types.{IsInUse};
ghost use Rattle.store_core.specs.Causes.{HasCause, HasLooked, IsSoundFault};
ghost use Rattle.store_core.specs.Store.{IsTrue, SameLoan};
ghost use Rattle.store_core.specs.Adding.{Adds};
ghost use Rattle.txn_end.specs.Backing.{back_part_of, blocks_of_parts, IsFirst};

use crate::ending::{TXN_TABLE, add};
use crate::part::{EntryOf, PartAt, RowIn, SequenceOf};
use crate::standing::StandingOf;
use crate::table::{extent_number, table_of};
use disk_model::Disk;
use redo_record::{BackPart, BackRecord, Parts, Record};
use seg_base::{Dba, MOST_UNDO_PARTS, NoMemory, Obj, RowNo, Sequence, TxnId, UndoAddr, UndoPlace};
use std::alloc::Global;
use store_core::{Store, StoreFault, ask};
use undo_block::Part;

/// What gives back the image of the part at place i of the record with this undo address.
fn back_part<D: Disk>(
    alloc: Global,
    store: &mut Store<D>,
    txn: TxnId,
    at: UndoAddr,
    i: u8,
) -> Result<BackPart, StoreFault>
    requires { at.nth + i < 256 }
    ensures looked { HasLooked D.meaning store.old store.new result }
    ensures says { (R : List Record) (st : Step) (p : ThePart) → IsTrue D.meaning R store.old → BackTold store.old.shape R txn st → st.undo ≡ at → slice_get st.parts i ≡ Some p → IfOk result (λ q. q ≡ back_part_of p) }
    ensures sound { (R : List Record) (st : Step) (p : ThePart) → IsTrue D.meaning R store.old → BackTold store.old.shape R txn st → st.undo ≡ at → slice_get st.parts i ≡ Some p → store.old.fault ≡ None → IfErr result IsSoundFault }
{
    let part = match ask(alloc, store, Dba(at.block), &PartAt { nth: at.nth + i }) {
        Ok(part) => part,
        Err(fault) => return Err(fault),
    };
    match ask(alloc, store, part.dba, &EntryOf { txn }) {
        Ok(entry) => Ok(BackPart {
            dba: part.dba,
            slot: part.slot,
            entry: Some(entry),
            new: part.old,
        }),
        Err(fault) => Err(fault),
    }
}

/// What gives back the images of the parts of the record with this undo address.
fn back_parts<D: Disk>(
    alloc: Global,
    store: &mut Store<D>,
    txn: TxnId,
    at: UndoAddr,
    count: u8,
) -> Result<Parts<BackPart>, StoreFault>
    requires least { 1 ≤ count }
    requires most { count ≤ 3 }
    requires place { at.nth < MOST_UNDO_PARTS }
    requires unspent { store.old.fault ≡ None }
    ensures looked { HasLooked D.meaning store.old store.new result }
    ensures says { (R : List Record) (st : Step) → IsTrue D.meaning R store.old → BackTold store.old.shape R txn st → st.undo ≡ at → length st.parts ≡ count → IfOk result (λ ps. ps ≡ taken_back st.parts) }
    ensures sound { (R : List Record) (st : Step) → IsTrue D.meaning R store.old → BackTold store.old.shape R txn st → st.undo ≡ at → length st.parts ≡ count → IfErr result IsSoundFault }
{
    let mut parts = Sequence::new(alloc);
    for i in 0..count {
        let part = match back_part(alloc, store, txn, at, i) {
            Ok(part) => part,
            Err(fault) => return Err(fault),
        };
        match parts.push(part) {
            Ok(()) => {}
            Err(_) => return Err(StoreFault::NoMemory),
        }
    }
    Ok(Parts::from_vec(parts.into_vec()))
}

/// The undo address that a place of undo has in the present use of its block.
fn address_of<D: Disk>(
    alloc: Global,
    store: &mut Store<D>,
    place: Option<UndoPlace>,
) -> Result<Option<UndoAddr>, StoreFault>
    requires unspent { store.old.fault ≡ None }
    ensures looked { HasLooked D.meaning store.old store.new result }
    ensures says { (R : List Record) → IsTrue D.meaning R store.old → ((a : UndoPlace) → place ≡ Some a → IsInUse store.old.shape R a.block) → IfOk result (λ a. a ≡ present_addr R place) }
    ensures sound { (R : List Record) → IsTrue D.meaning R store.old → ((a : UndoPlace) → place ≡ Some a → IsInUse store.old.shape R a.block) → IfErr result IsSoundFault }
{
    match place {
        None => Ok(None),
        Some(place) => match ask(alloc, store, Dba(place.block), &SequenceOf) {
            Ok(seq) => Ok(Some(UndoAddr {
                block: place.block,
                seq,
                nth: place.nth,
            })),
            Err(fault) => Err(fault),
        },
    }
}

/// The row and the table of a record, by its first part.
#[derive(Clone, Copy, Debug, Drop)]
struct Told {
    row: RowNo,
    obj: Obj,
}

fn row_told<D: Disk>(alloc: Global, store: &mut Store<D>, first: &Part) -> Result<Told, StoreFault>
    ensures looked { HasLooked D.meaning store.old store.new result }
    ensures says { (R : List Record) (t : ℕ) (st : Step) → IsTrue D.meaning R store.old → BackTold store.old.shape R t st → IsFirst st first.now → IfOk result (λ x. (x.row ≡ st.row) × (x.obj ≡ st.obj)) }
    ensures sound { (R : List Record) (t : ℕ) (st : Step) → IsTrue D.meaning R store.old → BackTold store.old.shape R t st → IsFirst st first.now → store.old.fault ≡ None → IfErr result IsSoundFault }
{
    let shape = store.shape();
    let question = RowIn {
        slot: first.slot,
        before: first.old.row,
    };
    let row = match ask(alloc, store, first.dba, &question) {
        Ok(row) => row,
        Err(fault) => return Err(fault),
    };
    match extent_number(&shape, first.dba) {
        None => Err(store.refuse(first.dba)),
        Some(extent) => match table_of(alloc, store, extent) {
            Ok(obj) => Ok(Told { row, obj }),
            Err(fault) => Err(fault),
        },
    }
}

/// The record that takes back the one with this undo address, of which this is the first part.
fn back_by<D: Disk>(
    alloc: Global,
    store: &mut Store<D>,
    txn: TxnId,
    entry: u8,
    at: UndoAddr,
    first: &Part,
) -> Result<BackRecord, StoreFault>
    requires least { 1 ≤ first.now.parts }
    requires most { first.now.parts ≤ 3 }
    requires place { at.nth < MOST_UNDO_PARTS }
    ensures looked { HasLooked D.meaning store.old store.new result }
    ensures says { (R : List Record) (st : Step) → IsTrue D.meaning R store.old → BackTold store.old.shape R txn st → st.undo ≡ at → IsFirst st first.now → entry ≡ table_place R txn → IfOk result (λ k. k ≡ back_of R txn st) }
    ensures sound { (R : List Record) (st : Step) → IsTrue D.meaning R store.old → BackTold store.old.shape R txn st → st.undo ≡ at → IsFirst st first.now → store.old.fault ≡ None → IfErr result IsSoundFault }
{
    let told = match row_told(alloc, store, first) {
        Ok(told) => told,
        Err(fault) => return Err(fault),
    };
    let last = match address_of(alloc, store, first.previous) {
        Ok(last) => last,
        Err(fault) => return Err(fault),
    };
    let parts = match back_parts(alloc, store, txn, at, first.parts) {
        Ok(parts) => parts,
        Err(fault) => return Err(fault),
    };
    Ok(BackRecord {
        txn,
        entry,
        obj: told.obj,
        row: told.row,
        undo: at,
        previous: first.previous,
        parts,
        last,
    })
}

/// The record that takes back the one with this undo address.
fn back_record<D: Disk>(
    alloc: Global,
    store: &mut Store<D>,
    txn: TxnId,
    entry: u8,
    at: UndoAddr,
) -> Result<BackRecord, StoreFault>
    ensures looked { HasLooked D.meaning store.old store.new result }
    ensures says { (R : List Record) (st : Step) → IsTrue D.meaning R store.old → BackTold store.old.shape R txn st → st.undo ≡ at → entry ≡ table_place R txn → IfOk result (λ k. k ≡ back_of R txn st) }
    ensures sound { (R : List Record) (st : Step) → IsTrue D.meaning R store.old → BackTold store.old.shape R txn st → st.undo ≡ at → store.old.fault ≡ None → IfErr result IsSoundFault }
{
    let first = match ask(alloc, store, Dba(at.block), &PartAt { nth: at.nth }) {
        Ok(first) => first,
        Err(fault) => return Err(fault),
    };
    if first.parts == 0 || first.parts > 3 || at.nth >= MOST_UNDO_PARTS {
        return Err(store.refuse(Dba(at.block)));
    }
    back_by(alloc, store, txn, entry, at, &first)
}

fn blocks_of(alloc: Global, parts: &[BackPart]) -> Result<Sequence<Dba>, NoMemory>
    ensures { IfOk result (λ blocks. blocks ≡ blocks_of_parts parts.now) }
{
    let mut blocks = Sequence::new(alloc);
    for part in parts {
        match blocks.push(part.dba) {
            Ok(()) => {}
            Err(_) => return Err(NoMemory),
        }
    }
    Ok(blocks)
}

/// Takes back the record with this undo address, and answers its row blocks.
fn take_back<D: Disk>(
    alloc: Global,
    store: &mut Store<D>,
    txn: TxnId,
    entry: u8,
    at: UndoAddr,
) -> Result<Sequence<Dba>, StoreFault>
    ensures makes { (R : List Record) (st : Step) → IsTrue D.meaning R store.old → is_active R txn ≡ true → newest_of (standing R) txn ≡ Some st → st.undo ≡ at → entry ≡ table_place R txn → Adds D.meaning R (Back (back_of R txn st) ∷ R) store.old store.new result }
    ensures answer { (R : List Record) (st : Step) → IsTrue D.meaning R store.old → is_active R txn ≡ true → newest_of (standing R) txn ≡ Some st → st.undo ≡ at → entry ≡ table_place R txn → IfOk result (λ blocks. blocks ≡ blocks_in st.parts) }
    ensures loan { SameLoan D.meaning store.old store.new }
    ensures cause { HasCause D.meaning store.old store.new result }
{
    let body = match back_record(alloc, store, txn, entry, at) {
        Ok(body) => body,
        Err(fault) => return Err(fault),
    };
    let blocks = match blocks_of(alloc, body.parts.as_slice()) {
        Ok(blocks) => blocks,
        Err(_) => return Err(StoreFault::NoMemory),
    };
    match add(store, &Record::Back(body)) {
        Ok(()) => Ok(blocks),
        Err(fault) => Err(fault),
    }
}

/// Takes back the newest standing record of an active transaction, and answers its row blocks; None exactly where none is
/// left.
pub fn back_step<D: Disk>(
    alloc: Global,
    store: &mut Store<D>,
    txn: TxnId,
) -> Result<Option<Sequence<Dba>>, StoreFault>
    ensures makes { (R : List Record) → IsTrue D.meaning R store.old → is_active R txn ≡ true → Adds D.meaning R (backed R txn) store.old store.new result }
    ensures answer { (R : List Record) → IsTrue D.meaning R store.old → is_active R txn ≡ true → IfOk result (λ blocks. blocks ≡ blocks_of_step (newest_of (standing R) txn)) }
    ensures loan { SameLoan D.meaning store.old store.new }
    ensures cause { HasCause D.meaning store.old store.new result }
{
    let standing = match ask(alloc, store, TXN_TABLE, &StandingOf { txn }) {
        Ok(standing) => standing,
        Err(fault) => return Err(fault),
    };
    match standing.last {
        None => Ok(None),
        Some(at) => match take_back(alloc, store, txn, standing.entry, at) {
            Ok(blocks) => Ok(Some(blocks)),
            Err(fault) => Err(fault),
        },
    }
}
