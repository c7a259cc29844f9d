// Statements that make tables and switch their row movement.
ghost use Rattle.std.specs.Prelude.{◌≡◌, ◌≤◌, true, None, Some};
ghost use Rattle.seg_words.specs.Types.{MOST_PCTFREE, is_name};
ghost use Rattle.script_text.specs.declared.statement.Statement.TheVariants as asked;
ghost use Rattle.history_model.specs.Spans.{Span};
ghost use Rattle.history_model.specs.Passing.{FirstPass};
ghost use Rattle.session_core.specs.Acting.{HasActed, HasCalled, IsAt, IsStarting};
ghost use Rattle.session_core.specs.Making.{not_made};
ghost use Rattle.session_core.specs.Shrinkers.{AreShrunk};
ghost use Rattle.session_core.specs.Starting.{IsBusyBy};
ghost use Rattle.redo_model.specs.Model.{table_named};

use crate::naming::{find_named, is_log_full};
use crate::session::OpenShrink;
use crate::shrinkers::shrinker_of;
use crate::testing::{test_movement, test_table};
use crate::turned::{Acted, over, refused};
use disk_model::Disk;
use history_text::{Outcome, Refusal};
use mark_move::{MarkFault, movement, new_table};
use seg_base::{Name, Obj, TxnId};
use std::alloc::Global;
use store_core::{Store, StoreFault};

/// No extent is free, or the store failed.
fn not_made(fault: MarkFault, own: Option<TxnId>) -> Result<Acted, StoreFault>
    ensures { result ≡ not_made fault own }
{
    match fault {
        MarkFault::NoSpace { need } => Ok(refused(Refusal::NoSpace { need }, own)),
        MarkFault::Store(fault) => Err(fault),
    }
}

/// Makes a table of which the name was copied.
fn add_named<D: Disk>(
    alloc: Global,
    store: &mut Store<D>,
    own: Option<TxnId>,
    name: &Name,
    pctfree: u8,
    told: Name,
) -> Result<Acted, StoreFault>
    requires unspent { store.old.fault ≡ None }
    requires told { told ≡ name.now }
    requires named { is_name name.now ≡ true }
    requires percent { pctfree ≤ MOST_PCTFREE }
    ensures acted { (x : Span) → IsAt D.meaning x own store.old → IsStarting x → FirstPass store.old.shape x (asked.Table name.now pctfree) → HasActed D.meaning x (Some (asked.Table name.now pctfree)) store.old store.new result }
    ensures called { HasCalled D.meaning store.old store.new result }
{
    match new_table(alloc, store, name, pctfree) {
        Ok(_) => Ok(over(Outcome::Table { name: told }, own)),
        Err(fault) => not_made(fault, own),
    }
}

/// Makes a table, past the tests.
fn add_table<D: Disk>(
    alloc: Global,
    store: &mut Store<D>,
    own: Option<TxnId>,
    name: &Name,
    pctfree: u8,
) -> Result<Acted, StoreFault>
    requires unspent { store.old.fault ≡ None }
    requires named { is_name name.now ≡ true }
    requires percent { pctfree ≤ MOST_PCTFREE }
    ensures acted { (x : Span) → IsAt D.meaning x own store.old → IsStarting x → FirstPass store.old.shape x (asked.Table name.now pctfree) → HasActed D.meaning x (Some (asked.Table name.now pctfree)) store.old store.new result }
    ensures called { HasCalled D.meaning store.old store.new result }
{
    match name.duplicate(alloc) {
        Ok(told) => add_named(alloc, store, own, name, pctfree, told),
        Err(_) => Err(StoreFault::NoMemory),
    }
}

/// `table`
pub fn make_table<D: Disk>(
    alloc: Global,
    store: &mut Store<D>,
    own: Option<TxnId>,
    name: &Name,
    pctfree: u8,
) -> Result<Acted, StoreFault>
    requires unspent { store.old.fault ≡ None }
    requires named { is_name name.now ≡ true }
    requires percent { pctfree ≤ MOST_PCTFREE }
    ensures acted { (x : Span) → IsAt D.meaning x own store.old → IsStarting x → HasActed D.meaning x (Some (asked.Table name.now pctfree)) store.old store.new result }
    ensures called { HasCalled D.meaning store.old store.new result }
{
    let named = match find_named(alloc, store, name) {
        Ok(named) => named,
        Err(fault) => return Err(fault),
    };
    let full = is_log_full(store);
    match test_table(named, own.is_some(), full) {
        Ok(()) => add_table(alloc, store, own, name, pctfree),
        Err(refusal) => Ok(refused(refusal, own)),
    }
}

/// Switches the row movement of a table of which the name was copied.
fn switch_named<D: Disk>(
    store: &mut Store<D>,
    own: Option<TxnId>,
    obj: Obj,
    on: bool,
    told: Name,
) -> Result<Acted, StoreFault>
    requires unspent { store.old.fault ≡ None }
    ensures acted { (x : Span) → IsAt D.meaning x own store.old → IsStarting x → table_named x.ended told ≡ Some obj → FirstPass store.old.shape x (asked.Movement told on) → HasActed D.meaning x (Some (asked.Movement told on)) store.old store.new result }
    ensures called { HasCalled D.meaning store.old store.new result }
{
    match movement(store, obj, on) {
        Ok(()) => Ok(over(Outcome::Movement { table: told, on }, own)),
        Err(fault) => Err(fault),
    }
}

/// Switches the row movement of a table, past the tests.
fn switch_movement<D: Disk>(
    alloc: Global,
    store: &mut Store<D>,
    own: Option<TxnId>,
    obj: Obj,
    table: &Name,
    on: bool,
) -> Result<Acted, StoreFault>
    requires unspent { store.old.fault ≡ None }
    ensures acted { (x : Span) → IsAt D.meaning x own store.old → IsStarting x → table_named x.ended table.now ≡ Some obj → FirstPass store.old.shape x (asked.Movement table.now on) → HasActed D.meaning x (Some (asked.Movement table.now on)) store.old store.new result }
    ensures called { HasCalled D.meaning store.old store.new result }
{
    match table.duplicate(alloc) {
        Ok(told) => switch_named(store, own, obj, on, told),
        Err(_) => Err(StoreFault::NoMemory),
    }
}

/// The same with the tests, of a table that is there.
fn try_movement<D: Disk>(
    alloc: Global,
    store: &mut Store<D>,
    own: Option<TxnId>,
    busy: Option<u8>,
    obj: Obj,
    table: &Name,
    on: bool,
) -> Result<Acted, StoreFault>
    requires unspent { store.old.fault ≡ None }
    ensures acted { (x : Span) → IsAt D.meaning x own store.old → IsStarting x → IsBusyBy x table.now busy → table_named x.ended table.now ≡ Some obj → HasActed D.meaning x (Some (asked.Movement table.now on)) store.old store.new result }
    ensures called { HasCalled D.meaning store.old store.new result }
{
    let full = is_log_full(store);
    match test_movement(own.is_some(), busy, full) {
        Ok(()) => switch_movement(alloc, store, own, obj, table, on),
        Err(refusal) => Ok(refused(refusal, own)),
    }
}

/// `movement`. The list has the shrinks of other sessions that are under way: one of the table refuses it.
pub fn set_movement<D: Disk>(
    alloc: Global,
    store: &mut Store<D>,
    own: Option<TxnId>,
    shrinks: &[OpenShrink],
    table: &Name,
    on: bool,
) -> Result<Acted, StoreFault>
    requires unspent { store.old.fault ≡ None }
    ensures acted { (x : Span) → IsAt D.meaning x own store.old → IsStarting x → AreShrunk x shrinks.now → HasActed D.meaning x (Some (asked.Movement table.now on)) store.old store.new result }
    ensures called { HasCalled D.meaning store.old store.new result }
{
    let named = match find_named(alloc, store, table) {
        Ok(named) => named,
        Err(fault) => return Err(fault),
    };
    match named.obj {
        Some(obj) => try_movement(alloc, store, own, shrinker_of(shrinks, obj), obj, table, on),
        None => Ok(refused(Refusal::NoTable, own)),
    }
}
