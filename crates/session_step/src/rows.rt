// The events of statements on rows, whether they start or go on.
ghost use Rattle.std.specs.Prelude.{◌≡◌, ◌≤◌, Some, None, Option, List, length, ℕ};
ghost use Rattle.seg_words.specs.Types.{LONGEST_ROW};
ghost use Rattle.redo_model.specs.Model.{IsRowSize};
ghost use Rattle.script_text.specs.declared.statement.Statement.TheVariants as asked;
ghost use Rattle.script_text.specs.declared.statement.Target.{Target as TheTarget};
ghost use Rattle.history_model.specs.Spans.{Span};
ghost use Rattle.scan_table.specs.declared.scan.OpenScan.{OpenScan as TheScan};
ghost use Rattle.session_core.specs.declared.session.Doing.TheVariants as told;
ghost use Rattle.session_core.specs.Acting.{HasActed, HasCalled};
ghost use Rattle.session_step.specs.Bindings.{row_by};
ghost use Rattle.session_step.specs.Turning.{IsTurnOf, inserting_in, work_in};

use disk_model::Disk;
use row_change::Place;
use script_text::Target;
use seg_base::{Name, Obj, RowNo, Text, TxnId};
use session_core::{
    Acted, Changed, Doing, RowWork, delete_row, go_on_inserting, locate_row, start_insert,
    start_on_row, update_row,
};
use std::alloc::Global;
use store_core::{Store, StoreFault};

/// The table of an insert that is under way.
fn inserting_in(doing: &Doing) -> Option<Obj>
    ensures { result ≡ inserting_in doing.now }
{
    match doing {
        Doing::Inserting(obj) => Some(*obj),
        _ => None,
    }
}

/// The work of an update or a delete that is under way.
fn work_in(doing: &Doing) -> Option<RowWork>
    ensures { result ≡ work_in doing.now }
{
    match doing {
        Doing::OnRow(work) => Some(*work),
        _ => None,
    }
}

/// `insert`
pub fn insert<D: Disk>(
    alloc: Global,
    store: &mut Store<D>,
    who: u8,
    own: Option<TxnId>,
    doing: &Doing,
    table: &Name,
    text: &Text,
    hint: Option<u32>,
    changed: &mut Changed,
) -> Result<Acted, StoreFault>
    requires unspent { store.old.fault ≡ None }
    requires size { length text.now ≤ LONGEST_ROW }
    ensures acted { (x : Span) (label : List ℕ) (labels : List (List ℕ × ℕ)) (p : Option TheScan) → IsRowSize text.now → IsTurnOf D.meaning x (Some (asked.Insert table.now label text.now)) who own labels p doing.now store.old → HasActed D.meaning x (Some (asked.Insert table.now label text.now)) store.old store.new result }
    ensures called { HasCalled D.meaning store.old store.new result }
{
    let bytes = text.as_slice();
    match inserting_in(doing) {
        Some(obj) => go_on_inserting(alloc, store, who, own, obj, bytes, hint, changed),
        None => start_insert(alloc, store, who, own, table, bytes, hint, changed),
    }
}

/// An update at the place of its row. The blocks that it changed are of its table.
fn update_at<D: Disk>(
    alloc: Global,
    store: &mut Store<D>,
    who: u8,
    own: Option<TxnId>,
    work: &RowWork,
    place: &Place,
    bytes: &[u8],
    hint: Option<u32>,
    changed: &mut Changed,
) -> Result<Acted, StoreFault>
    requires unspent { store.old.fault ≡ None }
    requires size { length bytes.now ≤ LONGEST_ROW }
    ensures acted { (x : Span) (name : List ℕ) (target : TheTarget) (labels : List (List ℕ × ℕ)) (p : Option TheScan) → IsRowSize bytes.now → work.now.place ≡ Some place.now → IsTurnOf D.meaning x (Some (asked.Update name target bytes.now)) who own labels p (told.OnRow work.now) store.old → HasActed D.meaning x (Some (asked.Update name target bytes.now)) store.old store.new result }
    ensures table { changed.new.obj ≡ Some work.now.obj }
    ensures called { HasCalled D.meaning store.old store.new result }
{
    let acted = update_row(alloc, store, who, own, work, place, bytes, hint, changed);
    changed.obj = Some(work.obj);
    acted
}

/// An update that looks for its row, or has found it.
fn update_on<D: Disk>(
    alloc: Global,
    store: &mut Store<D>,
    who: u8,
    own: Option<TxnId>,
    work: &RowWork,
    text: &Text,
    hint: Option<u32>,
    changed: &mut Changed,
) -> Result<Acted, StoreFault>
    requires unspent { store.old.fault ≡ None }
    requires size { length text.now ≤ LONGEST_ROW }
    ensures acted { (x : Span) (name : List ℕ) (target : TheTarget) (labels : List (List ℕ × ℕ)) (p : Option TheScan) → IsRowSize text.now → IsTurnOf D.meaning x (Some (asked.Update name target text.now)) who own labels p (told.OnRow work.now) store.old → HasActed D.meaning x (Some (asked.Update name target text.now)) store.old store.new result }
    ensures called { HasCalled D.meaning store.old store.new result }
{
    let bytes = text.as_slice();
    match &work.place {
        Some(place) => update_at(alloc, store, who, own, work, place, bytes, hint, changed),
        None => locate_row(alloc, store, own, work),
    }
}

/// `update`
pub fn update<D: Disk>(
    alloc: Global,
    store: &mut Store<D>,
    who: u8,
    own: Option<TxnId>,
    doing: &Doing,
    table: &Name,
    target: &Target,
    bound: Option<RowNo>,
    text: &Text,
    hint: Option<u32>,
    changed: &mut Changed,
) -> Result<Acted, StoreFault>
    requires unspent { store.old.fault ≡ None }
    requires size { length text.now ≤ LONGEST_ROW }
    ensures acted { (x : Span) (labels : List (List ℕ × ℕ)) (p : Option TheScan) → IsRowSize text.now → bound ≡ row_by labels target.now → IsTurnOf D.meaning x (Some (asked.Update table.now target.now text.now)) who own labels p doing.now store.old → HasActed D.meaning x (Some (asked.Update table.now target.now text.now)) store.old store.new result }
    ensures called { HasCalled D.meaning store.old store.new result }
{
    match work_in(doing) {
        Some(work) => update_on(alloc, store, who, own, &work, text, hint, changed),
        None => start_on_row(alloc, store, own, table, target, bound),
    }
}

/// A delete that looks for its row, or has found it.
fn delete_on<D: Disk>(
    alloc: Global,
    store: &mut Store<D>,
    who: u8,
    own: Option<TxnId>,
    work: &RowWork,
    changed: &mut Changed,
) -> Result<Acted, StoreFault>
    requires unspent { store.old.fault ≡ None }
    ensures acted { (x : Span) (name : List ℕ) (target : TheTarget) (labels : List (List ℕ × ℕ)) (p : Option TheScan) → IsTurnOf D.meaning x (Some (asked.Delete name target)) who own labels p (told.OnRow work.now) store.old → HasActed D.meaning x (Some (asked.Delete name target)) store.old store.new result }
    ensures called { HasCalled D.meaning store.old store.new result }
{
    match &work.place {
        Some(place) => delete_row(alloc, store, who, own, work, place, changed),
        None => locate_row(alloc, store, own, work),
    }
}

/// `delete`
pub fn delete<D: Disk>(
    alloc: Global,
    store: &mut Store<D>,
    who: u8,
    own: Option<TxnId>,
    doing: &Doing,
    table: &Name,
    target: &Target,
    bound: Option<RowNo>,
    changed: &mut Changed,
) -> Result<Acted, StoreFault>
    requires unspent { store.old.fault ≡ None }
    ensures acted { (x : Span) (labels : List (List ℕ × ℕ)) (p : Option TheScan) → bound ≡ row_by labels target.now → IsTurnOf D.meaning x (Some (asked.Delete table.now target.now)) who own labels p doing.now store.old → HasActed D.meaning x (Some (asked.Delete table.now target.now)) store.old store.new result }
    ensures called { HasCalled D.meaning store.old store.new result }
{
    match work_in(doing) {
        Some(work) => delete_on(alloc, store, who, own, &work, changed),
        None => start_on_row(alloc, store, own, table, target, bound),
    }
}
