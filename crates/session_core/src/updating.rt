// The event of an update at the place of its row.
ghost use Rattle.std.specs.Prelude.{◌≡◌, ℕ, ◌≤◌, true, List, Option, None, Some, length, IfOk, IfErr};
ghost use Rattle.seg_words.specs.Types.{LONGEST_ROW};
ghost use Rattle.redo_model.specs.Records.{Record};
ghost use Rattle.redo_model.specs.Model.{IsRowSize, IsTable};
ghost use Rattle.mark_laws.specs.declared.step.Found.TheVariants as found;
ghost use Rattle.mark_laws.specs.Searches.{find_of};
ghost use Rattle.head_laws.specs.Heads.{blocks_by, sought_by};
ghost use Rattle.script_text.specs.declared.statement.Statement.TheVariants as asked;
ghost use Rattle.script_text.specs.declared.statement.Target.{Target as TheTarget};
ghost use Rattle.history_model.specs.Spans.{Span};
ghost use Rattle.store_core.specs.Causes.{HasCause, HasLooked, IsSoundFault};
ghost use Rattle.store_core.specs.Store.{Held, IsTrue, SameLoan, has_page};
ghost use Rattle.free_search.specs.Answers.{IsRefusedBy, IsSoundFind, store_part};
ghost use Rattle.session_core.specs.Acting.{HasActed, HasCalled, IsAt};
ghost use Rattle.session_core.specs.Changes.{IsChanging};
ghost use Rattle.session_core.specs.Inserts.{IsBy};
ghost use Rattle.page_set.specs.Folded.{page_of};
ghost use Rattle.session_core.specs.declared.session.Doing.TheVariants as told;
ghost use Rattle.session_core.specs.declared.turned.Turned.TheVariants as turned;
ghost use Rattle.session_core.specs.Leaving.{is_empty_in};
ghost use Rattle.session_core.specs.Located.{KeepsPlace};
ghost use Rattle.session_core.specs.RowWorks.{work_of};
ghost use Rattle.row_change.specs.declared.place.Place.{Place as ThePlace};
ghost use Rattle.session_core.specs.Updates.{HasRefused, IsNeedy, IsUnspentFor, IsUpdating, NotesHome, NotesSo, needed_in, refused_so, updated};

use crate::changed::Changed;
use crate::changing::not_changed;
use crate::inserting::{not_found, taker_of};
use crate::leaving::{has_left, home_blocks, with_target};
use crate::session::{Doing, RowWork};
use crate::turned::{Acted, Turned, over};
use disk_model::Disk;
use free_search::{FindFault, find};
use history_text::Outcome;
use mark_laws::{Found, MarkStep};
use mark_move::step;
use row_change::{ChangeFault, Done, Place, update};
use seg_base::{Dba, Obj, TxnId};
use std::alloc::Global;
use store_core::{Store, StoreFault};

fn updated(done: &Done) -> Acted
    ensures { result ≡ updated done.now }
{
    let row = done.row;
    let txn = done.txn;
    over(Outcome::Updated { row }, Some(txn))
}

/// The length for which another block is needed.
fn needed_in(fault: &ChangeFault) -> Option<u16>
    ensures { result ≡ needed_in fault.now }
{
    match fault {
        ChangeFault::NeedsBlock { len } => Some(*len),
        _ => None,
    }
}

/// The blocks in which the row stands: a search leaves them out.
fn own_blocks(place: &Place) -> [Option<Dba>; 2]
    ensures { result ≡ blocks_by place.now.head place.now.at }
{
    match place.head {
        Some(head) => [Some(head.dba), Some(place.at.dba)],
        None => [None, Some(place.at.dba)],
    }
}

/// A block for the row but for its own ones, or the next movement of the marks.
fn find_other<D: Disk>(
    alloc: Global,
    store: &mut Store<D>,
    own: &Option<TxnId>,
    obj: &Obj,
    place: &Place,
    len: u16,
    hint: Option<u32>,
) -> Result<Found, FindFault>
    ensures looked { HasLooked D.meaning store.old store.new (store_part result) }
    ensures found { (R : List Record) → IsTrue D.meaning R store.old → IsTable R obj.now → IfOk result (λ f. find_of store.old.shape R (sought_by own.now obj.now len place.now.head place.now.at) hint ≡ Some f) }
    ensures refused { (R : List Record) → IsTrue D.meaning R store.old → IsTable R obj.now → IfErr result (IsRefusedBy store.old.shape R (sought_by own.now obj.now len place.now.head place.now.at)) }
    ensures sound { (R : List Record) → IsTrue D.meaning R store.old → IsTable R obj.now → store.old.fault ≡ None → IfErr result IsSoundFind }
{
    let taker = taker_of(own);
    let but = own_blocks(place);
    find(alloc, store, *obj, len, taker, hint, but)
}

/// Moves the marks of the table, and the update goes on with the place that it has.
fn move_marks<D: Disk>(
    store: &mut Store<D>,
    own: &Option<TxnId>,
    work: &RowWork,
    mark: MarkStep,
) -> Result<Acted, StoreFault>
    requires unspent { store.old.fault ≡ None }
    ensures acted { (x : Span) (name : List ℕ) (target : TheTarget) (text : List ℕ) (who : ℕ) (place : ThePlace) (len : ℕ) (hint : Option ℕ) → IsUpdating D.meaning x name target text who own.now work.now place store.old → IsNeedy store.old.shape x own.now work.now place text len → find_of store.old.shape x.ended (sought_by own.now work.now.obj len place.head place.at) hint ≡ Some (found.Mark mark) → HasActed D.meaning x (Some (asked.Update name target text)) store.old store.new result }
    ensures goes { IfOk result (λ a. a ≡ record { turned = turned.On (told.OnRow work.now); own = own.now }) }
    ensures called { HasCalled D.meaning store.old store.new result }
{
    match step(store, work.obj, mark) {
        Ok(()) => Ok(Acted {
            turned: Turned::On(Doing::OnRow(*work)),
            own: *own,
        }),
        Err(fault) => Err(fault),
    }
}

/// Updates the row into the block that was found.
fn migrate_row<D: Disk>(
    alloc: Global,
    store: &mut Store<D>,
    who: u8,
    own: &Option<TxnId>,
    work: &RowWork,
    place: &Place,
    bytes: &[u8],
    to: Dba,
    changed: &mut Changed,
) -> Result<Acted, StoreFault>
    requires unspent { store.old.fault ≡ None }
    requires size { length bytes.now ≤ LONGEST_ROW }
    ensures acted { (x : Span) (name : List ℕ) (target : TheTarget) (len : ℕ) (hint : Option ℕ) → IsUpdating D.meaning x name target bytes.now who own.now work.now place.now store.old → IsNeedy store.old.shape x own.now work.now place.now bytes.now len → find_of store.old.shape x.ended (sought_by own.now work.now.obj len place.now.head place.now.at) hint ≡ Some (found.Block to) → HasActed D.meaning x (Some (asked.Update name target bytes.now)) store.old store.new result }
    ensures noted { (x : Span) (name : List ℕ) (target : TheTarget) (len : ℕ) (hint : Option ℕ) → IsUpdating D.meaning x name target bytes.now who own.now work.now place.now store.old → IsNeedy store.old.shape x own.now work.now place.now bytes.now len → find_of store.old.shape x.ended (sought_by own.now work.now.obj len place.now.head place.now.at) hint ≡ Some (found.Block to) → NotesSo store.old.shape x.ended own.now work.now place.now bytes.now hint changed.old changed.new result }
    ensures called { HasCalled D.meaning store.old store.new result }
{
    match update(alloc, store, who, *own, work.obj, place, bytes, Some(to)) {
        Ok(done) => {
            *changed = with_target(home_blocks(place), to);
            Ok(updated(&done))
        }
        Err(fault) => not_changed(alloc, fault, work, own),
    }
}

/// Goes to the block that was found, or moves the marks so.
fn act_on_found<D: Disk>(
    alloc: Global,
    store: &mut Store<D>,
    who: u8,
    own: &Option<TxnId>,
    work: &RowWork,
    place: &Place,
    bytes: &[u8],
    found: Found,
    changed: &mut Changed,
) -> Result<Acted, StoreFault>
    requires unspent { store.old.fault ≡ None }
    requires size { length bytes.now ≤ LONGEST_ROW }
    ensures acted { (x : Span) (name : List ℕ) (target : TheTarget) (len : ℕ) (hint : Option ℕ) → IsUpdating D.meaning x name target bytes.now who own.now work.now place.now store.old → IsNeedy store.old.shape x own.now work.now place.now bytes.now len → find_of store.old.shape x.ended (sought_by own.now work.now.obj len place.now.head place.now.at) hint ≡ Some found → HasActed D.meaning x (Some (asked.Update name target bytes.now)) store.old store.new result }
    ensures noted { (x : Span) (name : List ℕ) (target : TheTarget) (len : ℕ) (hint : Option ℕ) → IsUpdating D.meaning x name target bytes.now who own.now work.now place.now store.old → IsNeedy store.old.shape x own.now work.now place.now bytes.now len → find_of store.old.shape x.ended (sought_by own.now work.now.obj len place.now.head place.now.at) hint ≡ Some found → NotesSo store.old.shape x.ended own.now work.now place.now bytes.now hint changed.old changed.new result }
    ensures called { HasCalled D.meaning store.old store.new result }
{
    match found {
        Found::Block(to) => migrate_row(alloc, store, who, own, work, place, bytes, to, changed),
        Found::Mark(mark) => move_marks(store, own, work, mark),
    }
}

/// The row needs another block, for so many bytes: the search under the hint finds one, moves the marks, or finds none.
fn go_elsewhere<D: Disk>(
    alloc: Global,
    store: &mut Store<D>,
    who: u8,
    own: &Option<TxnId>,
    work: &RowWork,
    place: &Place,
    bytes: &[u8],
    len: u16,
    hint: Option<u32>,
    changed: &mut Changed,
) -> Result<Acted, StoreFault>
    requires unspent { store.old.fault ≡ None }
    requires size { length bytes.now ≤ LONGEST_ROW }
    ensures acted { (x : Span) (name : List ℕ) (target : TheTarget) → IsUpdating D.meaning x name target bytes.now who own.now work.now place.now store.old → IsNeedy store.old.shape x own.now work.now place.now bytes.now len → HasActed D.meaning x (Some (asked.Update name target bytes.now)) store.old store.new result }
    ensures noted { (x : Span) (name : List ℕ) (target : TheTarget) → IsUpdating D.meaning x name target bytes.now who own.now work.now place.now store.old → IsNeedy store.old.shape x own.now work.now place.now bytes.now len → NotesSo store.old.shape x.ended own.now work.now place.now bytes.now hint changed.old changed.new result }
    ensures called { HasCalled D.meaning store.old store.new result }
{
    match find_other(alloc, store, own, &work.obj, place, len, hint) {
        Ok(found) => { act_on_found(alloc, store, who, own, work, place, bytes, found, changed) }
        Err(fault) => not_found(fault, *own),
    }
}

/// The update was refused where no block is given: it goes elsewhere, or is over, or starts again.
fn go_on_refused<D: Disk>(
    alloc: Global,
    store: &mut Store<D>,
    fault: ChangeFault,
    who: u8,
    own: &Option<TxnId>,
    work: &RowWork,
    place: &Place,
    bytes: &[u8],
    hint: Option<u32>,
    changed: &mut Changed,
) -> Result<Acted, StoreFault>
    requires unspent { IsUnspentFor fault store.old }
    requires size { length bytes.now ≤ LONGEST_ROW }
    ensures acted { (x : Span) (name : List ℕ) (target : TheTarget) (a : Held D) → IsUpdating D.meaning x name target bytes.now who own.now work.now place.now a → HasRefused D.meaning x who own.now work.now place.now bytes.now a store.old fault → HasActed D.meaning x (Some (asked.Update name target bytes.now)) a store.new result }
    ensures noted { (x : Span) (name : List ℕ) (target : TheTarget) (a : Held D) → IsUpdating D.meaning x name target bytes.now who own.now work.now place.now a → HasRefused D.meaning x who own.now work.now place.now bytes.now a store.old fault → NotesSo a.shape x.ended own.now work.now place.now bytes.now hint changed.old changed.new result }
    ensures called { (a : Held D) → a.fault ≡ None → SameLoan D.meaning a store.old → HasCause D.meaning a store.old (refused_so fault) → HasCalled D.meaning a store.new result }
{
    match needed_in(&fault) {
        Some(len) => {
            go_elsewhere(
                alloc, store, who, own, work, place, bytes, len, hint, changed,
            )
        }
        None => not_changed(alloc, fault, work, own),
    }
}

/// The row is updated where it stood, or back at its head: which blocks that changed shows its place.
fn updated_at_home<D: Disk>(
    alloc: Global,
    store: &mut Store<D>,
    done: &Done,
    place: &Place,
    changed: &mut Changed,
) -> Result<Acted, StoreFault>
    ensures looked { HasLooked D.meaning store.old store.new result }
    ensures answer { IfOk result (λ a. a ≡ updated done.now) }
    ensures noted { (R : List Record) → IsTrue D.meaning R store.old → NotesHome (is_empty_in place.now.at.slot (page_of store.old.shape R place.now.at.dba)) place.now changed.old changed.new result }
    ensures sound { (R : List Record) → IsTrue D.meaning R store.old → store.old.fault ≡ None → has_page store.old.shape place.now.at.dba ≡ true → IfErr result IsSoundFault }
{
    match has_left(alloc, store, place) {
        Ok(true) => {
            *changed = home_blocks(place);
            Ok(updated(done))
        }
        Ok(false) => {
            *changed = Changed::one(place.at.dba);
            Ok(updated(done))
        }
        Err(fault) => Err(fault),
    }
}

/// An update at the place of its row: the row is updated, in place, at its head, or in the block that the search under the hint
/// finds; or a mark moves, and the place is looked at again; or the update is refused, or starts again where the row has changed.
pub fn update_row<D: Disk>(
    alloc: Global,
    store: &mut Store<D>,
    who: u8,
    own: Option<TxnId>,
    work: &RowWork,
    place: &Place,
    bytes: &[u8],
    hint: Option<u32>,
    changed: &mut Changed,
) -> Result<Acted, StoreFault>
    requires unspent { store.old.fault ≡ None }
    requires size { length bytes.now ≤ LONGEST_ROW }
    ensures acted { (x : Span) (name : List ℕ) (target : TheTarget) → IsAt D.meaning x own store.old → IsBy x who → IsRowSize bytes.now → IsChanging store.old.shape x (asked.Update name target bytes.now) (work_of work.now) → work.now.place ≡ Some place.now → KeepsPlace store.old.shape x.ended own work.now → HasActed D.meaning x (Some (asked.Update name target bytes.now)) store.old store.new result }
    ensures noted { (x : Span) (name : List ℕ) (target : TheTarget) → IsAt D.meaning x own store.old → IsBy x who → IsRowSize bytes.now → IsChanging store.old.shape x (asked.Update name target bytes.now) (work_of work.now) → work.now.place ≡ Some place.now → KeepsPlace store.old.shape x.ended own work.now → NotesSo store.old.shape x.ended own work.now place.now bytes.now hint changed.old changed.new result }
    ensures called { HasCalled D.meaning store.old store.new result }
{
    match update(alloc, store, who, own, work.obj, place, bytes, None) {
        Ok(done) => updated_at_home(alloc, store, &done, place, changed),
        Err(fault) => {
            go_on_refused(
                alloc, store, fault, who, &own, work, place, bytes, hint, changed,
            )
        }
    }
}
