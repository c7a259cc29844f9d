// The event of a usage.
ghost use Rattle.std.specs.Prelude.{◌≡◌, Some, None};
ghost use Rattle.redo_model.specs.Model.{table_named};
ghost use Rattle.script_text.specs.declared.statement.Statement.TheVariants as asked;
ghost use Rattle.history_model.specs.Spans.{Span};
ghost use Rattle.session_core.specs.Acting.{HasActed, HasCalled, IsAt, IsStarting};

use crate::naming::find_named;
use crate::turned::{Acted, over, refused};
use disk_model::Disk;
use history_text::{Outcome, Refusal};
use seg_base::{Name, Obj, TxnId};
use std::alloc::Global;
use store_core::{Store, StoreFault};

/// Counts a table of which the name was copied.
fn count_named<D: Disk>(
    store: &mut Store<D>,
    own: Option<TxnId>,
    obj: Obj,
    table: Name,
) -> Result<Acted, StoreFault>
    requires unspent { store.old.fault ≡ None }
    ensures acted { (x : Span) → IsAt D.meaning x own store.old → IsStarting x → table_named x.begun table ≡ Some obj → HasActed D.meaning x (Some (asked.Usage table)) store.old store.new result }
    ensures called { HasCalled D.meaning store.old store.new result }
{
    match space_usage::usage(store, obj) {
        Ok(usage) => Ok(over(Outcome::Usage { table, usage }, own)),
        Err(fault) => Err(fault),
    }
}

fn count_table<D: Disk>(
    alloc: Global,
    store: &mut Store<D>,
    own: Option<TxnId>,
    obj: Obj,
    name: &Name,
) -> Result<Acted, StoreFault>
    requires unspent { store.old.fault ≡ None }
    ensures acted { (x : Span) → IsAt D.meaning x own store.old → IsStarting x → table_named x.begun name.now ≡ Some obj → HasActed D.meaning x (Some (asked.Usage name.now)) store.old store.new result }
    ensures called { HasCalled D.meaning store.old store.new result }
{
    match name.duplicate(alloc) {
        Ok(table) => count_named(store, own, obj, table),
        Err(_) => Err(StoreFault::NoMemory),
    }
}

/// `usage`
pub fn tell_usage<D: Disk>(
    alloc: Global,
    store: &mut Store<D>,
    own: Option<TxnId>,
    name: &Name,
) -> Result<Acted, StoreFault>
    requires unspent { store.old.fault ≡ None }
    ensures acted { (x : Span) → IsAt D.meaning x own store.old → IsStarting x → HasActed D.meaning x (Some (asked.Usage name.now)) store.old store.new result }
    ensures called { HasCalled D.meaning store.old store.new result }
{
    match find_named(alloc, store, name) {
        Ok(named) => match named.obj {
            Some(obj) => count_table(alloc, store, own, obj, name),
            None => Ok(refused(Refusal::NoTable, own)),
        },
        Err(fault) => Err(fault),
    }
}
