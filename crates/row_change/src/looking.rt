// The place of a row looked at again before a change.
ghost use Rattle.std.specs.Prelude.{◌≡◌, ℕ, true, false, List, Option, Some, None, slice_index_or, IfOk, IfErr, IfSome, IfNone};
ghost use Rattle.seg_words.specs.Types.{Rowid as TheRowid, is_shape, new_slot};
ghost use Rattle.redo_model.specs.Records.{Record};
ghost use Rattle.redo_model.specs.Model.{IsRowBlock};
ghost use Rattle.change_laws.specs.Types.{IsOwn, WasFound};
ghost use Rattle.store_core.specs.Store.{IsTrue};
ghost use Rattle.store_core.specs.Causes.{HasLooked, IsSoundFault};
ghost use Rattle.row_change.specs.Locating.{IsSearch, Sees};
ghost use Rattle.row_change.specs.Looking.{FrontTells, IsThere, Keeps, LookMeans, NotTold, front_in, front_of};

use crate::Place;
use crate::blocks::search_for;
use crate::born::is_born;
use crate::sight::{Search, Sight};
use crate::slots::look_at_slot;
use disk_model::Disk;
use page_set::Page;
use row_block::RowBlock;
use seg_base::{Kind, NoMemory, Obj, RowNo, Rowid, Scn, Slot, TxnId, UndoAddr, Writer};
use std::alloc::Global;
use store_core::{Question, Store, StoreFault, ask};

/// The image of a slot but for its bytes.
#[derive(Clone, Copy, Drop)]
pub struct Front {
    pub kind: Kind,
    pub writer: Writer,
    pub undo: Option<UndoAddr>,
    pub row: RowNo,
    pub link: Option<Rowid>,
}

/// What a place that was found earlier shows of its row now.
#[derive(Clone, Copy, Drop)]
pub enum Look {
    /// A commit or a move changed the row since; so many commits there are now.
    Changed(Scn),
    /// Another active transaction keeps the row.
    Busy(TxnId),
    /// The row may be changed, and this is its newest image.
    Free(Front),
}

fn front_of(slot: &Slot) -> Front
    ensures { result ≡ front_of slot.now }
{
    Front {
        kind: slot.kind,
        writer: slot.writer,
        undo: slot.undo,
        row: slot.row,
        link: slot.link,
    }
}

fn no_front() -> Front
    ensures { result ≡ front_of new_slot }
{
    Front {
        kind: Kind::Empty,
        writer: Writer::At(Scn(0)),
        undo: None,
        row: RowNo(0),
        link: None,
    }
}

fn front_at(block: &RowBlock, slot: u8) -> Front
    ensures { result ≡ front_of (slice_index_or block.now.block.slots slot new_slot) }
{
    match block.slot(slot) {
        Some(slot) => front_of(slot),
        None => no_front(),
    }
}

fn front_in(page: &Page, slot: u8) -> Option<Front>
    ensures { result ≡ front_in slot page.now }
{
    match page {
        Page::Rows(block) => Some(front_at(block, slot)),
        _ => None,
    }
}

/// Asks a row block for the newest image of a slot.
#[derive(Clone, Copy)]
pub struct FrontAt {
    pub slot: u8,
}

impl Question for FrontAt {
    ghost use Rattle.row_change.specs.Looking.{front_in};

    type Answer = Front;

    ghost reads = { λ q page. front_in q.slot page };

    fn read(&self, alloc: Global, page: &Page) -> Result<Option<Front>, NoMemory> {
        let _ = alloc;
        Ok(front_in(page, self.slot))
    }
}

#[tactic(auto, using(crate::proofs::Addresses::same_addr))]
fn is_same(a: &UndoAddr, b: &UndoAddr) -> bool
    ensures same { result ≡ true → a.now ≡ b.now }
    ensures other { result ≡ false → a.now ≡ b.now → ⊥ }
{
    if a.block != b.block || a.seq != b.seq || a.nth != b.nth {
        return false;
    }
    true
}

fn has_undo(front: &Front, undo: &UndoAddr) -> bool
    ensures same { result ≡ true → front.now.undo ≡ Some undo.now }
    ensures other { result ≡ false → front.now.undo ≡ Some undo.now → ⊥ }
{
    match front.undo {
        None => false,
        Some(a) => is_same(&a, undo),
    }
}

fn shows(sight: Option<Sight>, undo: &UndoAddr) -> bool
    ensures { (R : List Record) (own : Option ℕ) (p : TheRowid) → Sees R own p sight → Keeps R own p undo.now result }
{
    match sight {
        None => false,
        Some(sight) => is_same(&sight.undo, undo),
    }
}

/// Whether the version that is seen at a place is the one that was found there.
fn is_kept<D: Disk>(
    store: &mut Store<D>,
    search: &Search,
    place: &Place,
) -> Result<bool, StoreFault>
    ensures looked { HasLooked D.meaning store.old store.new result }
    ensures says { (R : List Record) (o : ℕ) → IsTrue D.meaning R store.old → IsSearch store.old.shape R o search.now → IsRowBlock search.now.shape R o place.now.at.dba → IfOk result (Keeps R search.now.own place.now.at place.now.undo) }
    ensures sound { (R : List Record) (o : ℕ) → IsTrue D.meaning R store.old → IsSearch store.old.shape R o search.now → IsRowBlock search.now.shape R o place.now.at.dba → store.old.fault ≡ None → IfErr result IsSoundFault }
{
    match look_at_slot(store, place.at, search) {
        Ok(sight) => Ok(shows(sight, &place.undo)),
        Err(fault) => Err(fault),
    }
}

/// Whether the row that was found at a place is there still: no commit and no move changed it since.
fn is_there<D: Disk>(
    store: &mut Store<D>,
    search: &Search,
    place: &Place,
) -> Result<bool, StoreFault>
    requires { is_shape search.now.shape ≡ true }
    ensures looked { HasLooked D.meaning store.old store.new result }
    ensures says { (R : List Record) (o n : ℕ) → IsTrue D.meaning R store.old → IsSearch store.old.shape R o search.now → WasFound search.now.shape R search.now.own o n place.now.at place.now.born place.now.undo place.now.start → IfOk result (IsThere search.now.shape R search.now.own o n place.now) }
    ensures sound { (R : List Record) (o n : ℕ) → IsTrue D.meaning R store.old → IsSearch store.old.shape R o search.now → WasFound search.now.shape R search.now.own o n place.now.at place.now.born place.now.undo place.now.start → store.old.fault ≡ None → IfErr result IsSoundFault }
{
    match is_born(store, search, place.at.dba, place.born) {
        Ok(true) => is_kept(store, search, place),
        Ok(false) => Ok(false),
        Err(fault) => Err(fault),
    }
}

/// What a newest image tells of the row that was found with an undo address and is there still. None where it has another one
/// and is no transaction's.
fn told_look(front: &Front, undo: &UndoAddr) -> Option<Look>
    ensures says { IfSome result (FrontTells front.now undo.now) }
    ensures none { IfNone result (NotTold front.now undo.now) }
{
    if has_undo(front, undo) {
        return Some(Look::Free(*front));
    }
    match front.writer {
        Writer::By(txn) => Some(Look::Busy(txn)),
        Writer::At(_) => None,
    }
}

/// Whether the row that is at a place still is free or busy.
fn look_at_front<D: Disk>(
    alloc: Global,
    store: &mut Store<D>,
    place: &Place,
) -> Result<Look, StoreFault>
    ensures looked { HasLooked D.meaning store.old store.new result }
    ensures says { (R : List Record) (own : Option ℕ) (o n : ℕ) → IsTrue D.meaning R store.old → IsOwn R own → WasFound store.old.shape R own o n place.now.at place.now.born place.now.undo place.now.start → IsThere store.old.shape R own o n place.now true → IfOk result (LookMeans store.old.shape R own o n place.now) }
    ensures sound { (R : List Record) (own : Option ℕ) (o n : ℕ) → IsTrue D.meaning R store.old → IsOwn R own → WasFound store.old.shape R own o n place.now.at place.now.born place.now.undo place.now.start → IsThere store.old.shape R own o n place.now true → store.old.fault ≡ None → IfErr result IsSoundFault }
{
    let dba = place.at.dba;
    let question = FrontAt {
        slot: place.at.slot,
    };
    let front = match ask(alloc, store, dba, &question) {
        Ok(front) => front,
        Err(fault) => return Err(fault),
    };
    match told_look(&front, &place.undo) {
        Some(look) => Ok(look),
        None => Err(store.refuse(dba)),
    }
}

/// What the place of a row of a table shows of it now, as an active transaction or none sees it. The transaction added no record
/// since the row was found there.
pub fn look_again<D: Disk>(
    alloc: Global,
    store: &mut Store<D>,
    obj: &Obj,
    own: &Option<TxnId>,
    place: &Place,
) -> Result<Look, StoreFault>
    ensures looked { HasLooked D.meaning store.old store.new result }
    ensures says { (R : List Record) (n : ℕ) → IsTrue D.meaning R store.old → IsOwn R own.now → WasFound store.old.shape R own.now obj.now n place.now.at place.now.born place.now.undo place.now.start → IfOk result (LookMeans store.old.shape R own.now obj.now n place.now) }
    ensures sound { (R : List Record) (n : ℕ) → IsTrue D.meaning R store.old → IsOwn R own.now → WasFound store.old.shape R own.now obj.now n place.now.at place.now.born place.now.undo place.now.start → store.old.fault ≡ None → IfErr result IsSoundFault }
{
    let search = match search_for(alloc, store, *obj, *own) {
        Ok(search) => search,
        Err(fault) => return Err(fault),
    };
    match is_there(store, &search, place) {
        Ok(true) => look_at_front(alloc, store, place),
        Ok(false) => Ok(Look::Changed(search.start)),
        Err(fault) => Err(fault),
    }
}
