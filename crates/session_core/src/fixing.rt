// The statement that sets the kept class of a block.
ghost use Rattle.std.specs.Prelude.{◌≡◌, ◌≤◌, ℕ, List, length, None, Some};
ghost use Rattle.history_model.specs.declared.limit.TheConstants.{NEW_WORK_RECORDS};
ghost use Rattle.history_model.specs.Spans.{Span};
ghost use Rattle.redo_model.specs.Model.{table_named};
ghost use Rattle.script_text.specs.declared.statement.Statement.TheVariants as asked;
ghost use Rattle.session_core.specs.Acting.{HasActed, HasCalled, IsAt, IsStarting};
ghost use Rattle.session_core.specs.Fixing.{not_fixed};

use crate::naming::{find_named, is_log_full};
use crate::turned::{Acted, over, refused};
use disk_model::Disk;
use history_text::{Outcome, Refusal};
use seg_base::{Dba, Name, Obj, TxnId};
use space_usage::{FixFault, fix_status};
use std::alloc::Global;
use store_core::{Store, StoreFault};

/// The block or the value is wrong, or the store failed.
fn not_fixed(fault: FixFault, own: Option<TxnId>) -> Result<Acted, StoreFault>
    ensures { result ≡ not_fixed fault own }
{
    match fault {
        FixFault::NotDataBlock { dba } => Ok(refused(Refusal::NotDataBlock { block: dba }, own)),
        FixFault::BadValue { value } => Ok(refused(Refusal::BadValue { value }, own)),
        FixFault::Store(fault) => Err(fault),
    }
}

/// Sets the kept class of a block of a table that is there, while new work is accepted.
fn fix_block<D: Disk>(
    alloc: Global,
    store: &mut Store<D>,
    own: Option<TxnId>,
    obj: Obj,
    block: Dba,
    value: Option<u32>,
) -> Result<Acted, StoreFault>
    requires unspent { store.old.fault ≡ None }
    ensures acted { (x : Span) (name : List ℕ) → IsAt D.meaning x own store.old → IsStarting x → table_named x.ended name ≡ Some obj → (NEW_WORK_RECORDS ≤ length x.ended → ⊥) → HasActed D.meaning x (Some (asked.Fix name block value)) store.old store.new result }
    ensures called { HasCalled D.meaning store.old store.new result }
{
    match fix_status(alloc, store, obj, block, value) {
        Ok(class) => Ok(over(Outcome::Fixed { block, class }, own)),
        Err(fault) => not_fixed(fault, own),
    }
}

/// The same, but for a full log.
fn try_fix<D: Disk>(
    alloc: Global,
    store: &mut Store<D>,
    own: Option<TxnId>,
    obj: Obj,
    block: Dba,
    value: Option<u32>,
) -> Result<Acted, StoreFault>
    requires unspent { store.old.fault ≡ None }
    ensures acted { (x : Span) (name : List ℕ) → IsAt D.meaning x own store.old → IsStarting x → table_named x.ended name ≡ Some obj → HasActed D.meaning x (Some (asked.Fix name block value)) store.old store.new result }
    ensures called { HasCalled D.meaning store.old store.new result }
{
    if is_log_full(store) {
        return Ok(refused(Refusal::LogFull, own));
    }
    fix_block(alloc, store, own, obj, block, value)
}

/// `fix`
pub fn fix<D: Disk>(
    alloc: Global,
    store: &mut Store<D>,
    own: Option<TxnId>,
    table: &Name,
    block: Dba,
    value: Option<u32>,
) -> Result<Acted, StoreFault>
    requires unspent { store.old.fault ≡ None }
    ensures acted { (x : Span) → IsAt D.meaning x own store.old → IsStarting x → HasActed D.meaning x (Some (asked.Fix table.now block value)) store.old store.new result }
    ensures called { HasCalled D.meaning store.old store.new result }
{
    let named = match find_named(alloc, store, table) {
        Ok(named) => named,
        Err(fault) => return Err(fault),
    };
    match named.obj {
        Some(obj) => try_fix(alloc, store, own, obj, block, value),
        None => Ok(refused(Refusal::NoTable, own)),
    }
}
