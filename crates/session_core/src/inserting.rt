// The events of an insert.
ghost use Rattle.std.specs.Prelude.{◌≡◌, ℕ, ◌≤◌, List, [], ◌∷◌, length, Option, Some, None, IfOk, IfErr};
ghost use Rattle.seg_words.specs.Types.{LONGEST_ROW};
ghost use Rattle.redo_model.specs.Records.{Record};
ghost use Rattle.redo_model.specs.Model.{IsRowSize, IsTable};
ghost use Rattle.mark_laws.specs.declared.step.Found.TheVariants as found;
ghost use Rattle.mark_laws.specs.Searches.{find_of};
ghost use Rattle.change_laws.specs.Types.{taker_of};
ghost use Rattle.script_text.specs.declared.statement.Statement.TheVariants as asked;
ghost use Rattle.history_model.specs.Spans.{Span};
ghost use Rattle.store_core.specs.Causes.{HasLooked};
ghost use Rattle.store_core.specs.Store.{IsTrue};
ghost use Rattle.free_search.specs.Answers.{IsRefusedBy, IsSoundFind, store_part};
ghost use Rattle.free_search.specs.Looks.{sought};
ghost use Rattle.session_core.specs.Acting.{HasActed, HasCalled, IsAt, IsStarting};
ghost use Rattle.session_core.specs.Blocks.{HasNoted};
ghost use Rattle.session_core.specs.Leaving.{no_blocks};
ghost use Rattle.session_core.specs.Inserts.{IsBy, IsInserting, inserted, not_found, tested_named, told_insert};

use crate::changed::{Changed, note_made};
use crate::naming::{find_named, is_log_full};
use crate::session::Doing;
use crate::turned::{Acted, Turned, over, refused};
use disk_model::Disk;
use free_search::{FindFault, find};
use history_text::{Outcome, Refusal};
use mark_laws::{Found, MarkStep};
use mark_move::step;
use row_change::{ChangeFault, Done, insert};
use seg_base::{Dba, Name, Obj, Taker, TxnId};
use std::alloc::Global;
use store_core::{Store, StoreFault};

pub fn taker_of(own: &Option<TxnId>) -> Taker
    ensures { result ≡ taker_of own.now }
{
    match own {
        None => Taker::New,
        Some(txn) => Taker::Open(*txn),
    }
}

pub fn length_of(bytes: &[u8]) -> u16
    requires { length bytes.now ≤ LONGEST_ROW }
    ensures { result ≡ length bytes.now }
{
    bytes.len() as u16
}

/// No block takes the row, or the store failed.
pub fn not_found(fault: FindFault, own: Option<TxnId>) -> Result<Acted, StoreFault>
    ensures { result ≡ not_found fault own }
{
    match fault {
        FindFault::NoSpace { need } => Ok(refused(Refusal::NoSpace { need }, own)),
        FindFault::MaxExtents { count } => Ok(refused(Refusal::MaxExtents { count }, own)),
        FindFault::Store(fault) => Err(fault),
    }
}

fn inserted(done: &Done) -> Acted
    ensures { result ≡ inserted done.now }
{
    let row = done.row;
    let txn = done.txn;
    over(Outcome::Inserted { row }, Some(txn))
}

/// The row is inserted, undo is full, or the store failed. A new row has none of the other causes.
fn told_insert(
    made: Result<Done, ChangeFault>,
    obj: &Obj,
    own: &Option<TxnId>,
) -> Result<Acted, StoreFault>
    ensures { result ≡ told_insert made obj.now own.now }
{
    match made {
        Ok(done) => Ok(inserted(&done)),
        Err(ChangeFault::UndoFull { holders }) => {
            Ok(refused(Refusal::UndoFull { holders }, *own))
        }
        Err(ChangeFault::Store(fault)) => Err(fault),
        Err(_) => Ok(Acted {
            turned: Turned::On(Doing::Inserting(*obj)),
            own: *own,
        }),
    }
}

/// Moves the marks of a table, and the insert goes on.
fn move_marks<D: Disk>(
    store: &mut Store<D>,
    own: &Option<TxnId>,
    obj: &Obj,
    mark: MarkStep,
) -> Result<Acted, StoreFault>
    requires unspent { store.old.fault ≡ None }
    ensures acted { (x : Span) (name label text : List ℕ) (hint : Option ℕ) → IsAt D.meaning x own.now store.old → IsInserting store.old.shape x name label text obj.now → find_of store.old.shape x.ended (sought obj.now (length text) (taker_of own.now) (None ∷ None ∷ [])) hint ≡ Some (found.Mark mark) → HasActed D.meaning x (Some (asked.Insert name label text)) store.old store.new result }
    ensures noted { (x : Span) (name label text : List ℕ) (hint : Option ℕ) → IsAt D.meaning x own.now store.old → IsInserting store.old.shape x name label text obj.now → find_of store.old.shape x.ended (sought obj.now (length text) (taker_of own.now) (None ∷ None ∷ [])) hint ≡ Some (found.Mark mark) → HasNoted D.meaning x.ended store.new no_blocks }
    ensures called { HasCalled D.meaning store.old store.new result }
{
    match step(store, *obj, mark) {
        Ok(()) => Ok(Acted {
            turned: Turned::On(Doing::Inserting(*obj)),
            own: *own,
        }),
        Err(fault) => Err(fault),
    }
}

/// Inserts the row into the block that was found.
fn insert_row<D: Disk>(
    alloc: Global,
    store: &mut Store<D>,
    who: u8,
    own: &Option<TxnId>,
    obj: &Obj,
    at: Dba,
    bytes: &[u8],
    changed: &mut Changed,
) -> Result<Acted, StoreFault>
    requires unspent { store.old.fault ≡ None }
    requires size { length bytes.now ≤ LONGEST_ROW }
    ensures acted { (x : Span) (name label : List ℕ) (hint : Option ℕ) → IsAt D.meaning x own.now store.old → IsBy x who → IsRowSize bytes.now → IsInserting store.old.shape x name label bytes.now obj.now → find_of store.old.shape x.ended (sought obj.now (length bytes.now) (taker_of own.now) (None ∷ None ∷ [])) hint ≡ Some (found.Block at) → HasActed D.meaning x (Some (asked.Insert name label bytes.now)) store.old store.new result }
    ensures noted { (x : Span) (name label : List ℕ) (hint : Option ℕ) → IsAt D.meaning x own.now store.old → IsBy x who → IsRowSize bytes.now → IsInserting store.old.shape x name label bytes.now obj.now → find_of store.old.shape x.ended (sought obj.now (length bytes.now) (taker_of own.now) (None ∷ None ∷ [])) hint ≡ Some (found.Block at) → changed.old ≡ no_blocks → HasNoted D.meaning x.ended store.new changed.new }
    ensures called { HasCalled D.meaning store.old store.new result }
{
    let made = insert(alloc, store, who, *own, *obj, at, bytes);
    note_made(&made, Changed::one(at).in_table(*obj), changed);
    told_insert(made, obj, own)
}

/// A block for the row, or the next movement of the marks.
fn find_block<D: Disk>(
    alloc: Global,
    store: &mut Store<D>,
    own: &Option<TxnId>,
    obj: &Obj,
    bytes: &[u8],
    hint: Option<u32>,
) -> Result<Found, FindFault>
    requires size { length bytes.now ≤ LONGEST_ROW }
    ensures looked { HasLooked D.meaning store.old store.new (store_part result) }
    ensures found { (R : List Record) → IsTrue D.meaning R store.old → IsTable R obj.now → IfOk result (λ f. find_of store.old.shape R (sought obj.now (length bytes.now) (taker_of own.now) (None ∷ None ∷ [])) hint ≡ Some f) }
    ensures refused { (R : List Record) → IsTrue D.meaning R store.old → IsTable R obj.now → IfErr result (IsRefusedBy store.old.shape R (sought obj.now (length bytes.now) (taker_of own.now) (None ∷ None ∷ []))) }
    ensures sound { (R : List Record) → IsTrue D.meaning R store.old → IsTable R obj.now → store.old.fault ≡ None → IfErr result IsSoundFind }
{
    let len = length_of(bytes);
    let taker = taker_of(own);
    find(alloc, store, *obj, len, taker, hint, [None, None])
}

/// Inserts into the block that was found, or moves the marks so.
fn act_on_found<D: Disk>(
    alloc: Global,
    store: &mut Store<D>,
    who: u8,
    own: &Option<TxnId>,
    obj: &Obj,
    bytes: &[u8],
    found: Found,
    changed: &mut Changed,
) -> Result<Acted, StoreFault>
    requires unspent { store.old.fault ≡ None }
    requires size { length bytes.now ≤ LONGEST_ROW }
    ensures acted { (x : Span) (name label : List ℕ) (hint : Option ℕ) → IsAt D.meaning x own.now store.old → IsBy x who → IsRowSize bytes.now → IsInserting store.old.shape x name label bytes.now obj.now → find_of store.old.shape x.ended (sought obj.now (length bytes.now) (taker_of own.now) (None ∷ None ∷ [])) hint ≡ Some found → HasActed D.meaning x (Some (asked.Insert name label bytes.now)) store.old store.new result }
    ensures noted { (x : Span) (name label : List ℕ) (hint : Option ℕ) → IsAt D.meaning x own.now store.old → IsBy x who → IsRowSize bytes.now → IsInserting store.old.shape x name label bytes.now obj.now → find_of store.old.shape x.ended (sought obj.now (length bytes.now) (taker_of own.now) (None ∷ None ∷ [])) hint ≡ Some found → changed.old ≡ no_blocks → HasNoted D.meaning x.ended store.new changed.new }
    ensures called { HasCalled D.meaning store.old store.new result }
{
    match found {
        Found::Block(at) => insert_row(alloc, store, who, own, obj, at, bytes, changed),
        Found::Mark(mark) => move_marks(store, own, obj, mark),
    }
}

/// An event of an insert past its tests: one movement of its table's marks, or the row. A row of 1 to 1,800 bytes goes into the
/// block that the search under the hint finds.
pub fn go_on_inserting<D: Disk>(
    alloc: Global,
    store: &mut Store<D>,
    who: u8,
    own: Option<TxnId>,
    obj: Obj,
    bytes: &[u8],
    hint: Option<u32>,
    changed: &mut Changed,
) -> Result<Acted, StoreFault>
    requires unspent { store.old.fault ≡ None }
    requires size { length bytes.now ≤ LONGEST_ROW }
    ensures acted { (x : Span) (name label : List ℕ) → IsAt D.meaning x own store.old → IsBy x who → IsRowSize bytes.now → IsInserting store.old.shape x name label bytes.now obj → HasActed D.meaning x (Some (asked.Insert name label bytes.now)) store.old store.new result }
    ensures noted { (x : Span) (name label : List ℕ) → IsAt D.meaning x own store.old → IsBy x who → IsRowSize bytes.now → IsInserting store.old.shape x name label bytes.now obj → changed.old ≡ no_blocks → HasNoted D.meaning x.ended store.new changed.new }
    ensures called { HasCalled D.meaning store.old store.new result }
{
    match find_block(alloc, store, &own, &obj, bytes, hint) {
        Ok(found) => act_on_found(alloc, store, who, &own, &obj, bytes, found, changed),
        Err(fault) => not_found(fault, own),
    }
}

/// The tests of a statement on a table's rows: the table is there, and the log isn't full.
pub fn test_named(obj: Option<Obj>, full: bool) -> Result<Obj, Refusal>
    ensures { result ≡ tested_named obj full }
{
    match obj {
        None => Err(Refusal::NoTable),
        Some(obj) => {
            if full {
                return Err(Refusal::LogFull);
            }
            Ok(obj)
        }
    }
}

/// The first event of an insert.
pub fn start_insert<D: Disk>(
    alloc: Global,
    store: &mut Store<D>,
    who: u8,
    own: Option<TxnId>,
    name: &Name,
    bytes: &[u8],
    hint: Option<u32>,
    changed: &mut Changed,
) -> Result<Acted, StoreFault>
    requires unspent { store.old.fault ≡ None }
    requires size { length bytes.now ≤ LONGEST_ROW }
    ensures acted { (x : Span) (label : List ℕ) → IsAt D.meaning x own store.old → IsStarting x → IsBy x who → IsRowSize bytes.now → HasActed D.meaning x (Some (asked.Insert name.now label bytes.now)) store.old store.new result }
    ensures noted { (x : Span) (label : List ℕ) → IsAt D.meaning x own store.old → IsStarting x → IsBy x who → IsRowSize bytes.now → changed.old ≡ no_blocks → HasNoted D.meaning x.ended store.new changed.new }
    ensures called { HasCalled D.meaning store.old store.new result }
{
    let named = match find_named(alloc, store, name) {
        Ok(named) => named,
        Err(fault) => return Err(fault),
    };
    let full = is_log_full(store);
    match test_named(named.obj, full) {
        Ok(obj) => go_on_inserting(alloc, store, who, own, obj, bytes, hint, changed),
        Err(refusal) => Ok(refused(refusal, own)),
    }
}
