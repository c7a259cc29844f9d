// The events of a repair.
ghost use Rattle.std.specs.Prelude.{◌≡◌, ◌≤◌, ℕ, List, Some, None, length, slice_get, OnErr, IfOk, IfErr};
ghost use Rattle.redo_model.specs.Model.{table_named};
ghost use Rattle.script_text.specs.declared.statement.Statement.TheVariants as asked;
ghost use Rattle.history_model.specs.declared.limit.TheConstants.{NEW_WORK_RECORDS};
ghost use Rattle.history_model.specs.Spans.{Span};
ghost use Rattle.session_model.specs.Repairs.{counted};
ghost use Rattle.session_core.specs.Acting.{HasActed, HasCalled, IsAt, IsStarting};
ghost use Rattle.session_core.specs.RepairEvents.{IsNext, IsRepairing, begun_work, next_done, past_next, repair_turned, with_settled};

use crate::naming::{find_named, is_log_full};
use crate::released::is_released;
use crate::repairing::{Repaired, repair_block};
use crate::session::{Doing, RepairWork};
use crate::turned::{Acted, Turned, refused};
use disk_model::Disk;
use history_model::Kept;
use history_text::{Outcome, Refusal};
use scan_table::list_table;
use seg_base::{Dba, Lsn, Name, NoMemory, Obj, Sequence, TxnId};
use std::alloc::Global;
use store_core::{Store, StoreFault};

/// The repair is over.
fn repaired(work: RepairWork, table: Name, own: Option<TxnId>) -> Acted
    ensures { result ≡ record { turned = Turned.Over (Outcome.Repaired table work.changed) (Kept.Repaired work.settled); own = own } }
{
    let RepairWork {
        obj,
        blocks,
        done,
        settled,
        changed,
    } = work;
    let _ = (obj, done);
    let _ = blocks.len();
    Acted {
        turned: Turned::Over {
            outcome: Outcome::Repaired { table, changed },
            kept: Kept::Repaired { settled },
        },
        own,
    }
}

/// The repair goes on with its next block, or is over where none is left.
fn repair_turned(work: RepairWork, table: Name, own: Option<TxnId>) -> Acted
    ensures { result ≡ repair_turned work table own }
{
    if work.done < work.blocks.len() {
        return Acted {
            turned: Turned::On(Doing::Repairing(work)),
            own,
        };
    }
    repaired(work, table, own)
}

// ---- its first event

fn begun_work(alloc: Global, obj: Obj, blocks: Sequence<Dba>) -> RepairWork
    ensures { result ≡ begun_work obj blocks }
{
    RepairWork {
        obj,
        blocks,
        done: 0,
        settled: Sequence::new(alloc),
        changed: 0,
    }
}

/// Lists the blocks of a table of which the name was copied.
fn list_named<D: Disk>(
    alloc: Global,
    store: &mut Store<D>,
    own: Option<TxnId>,
    obj: Obj,
    table: Name,
) -> Result<Acted, StoreFault>
    requires unspent { store.old.fault ≡ None }
    ensures acted { (x : Span) → IsAt D.meaning x own store.old → IsStarting x → table_named x.ended table ≡ Some obj → (NEW_WORK_RECORDS ≤ length x.ended → ⊥) → HasActed D.meaning x (Some (asked.Repair table)) store.old store.new result }
    ensures called { HasCalled D.meaning store.old store.new result }
{
    match list_table(alloc, store, obj) {
        Ok(blocks) => Ok(repair_turned(begun_work(alloc, obj, blocks), table, own)),
        Err(fault) => Err(fault),
    }
}

/// Lists the blocks of a table, while new work is accepted.
fn list_blocks<D: Disk>(
    alloc: Global,
    store: &mut Store<D>,
    own: Option<TxnId>,
    obj: Obj,
    name: &Name,
) -> Result<Acted, StoreFault>
    requires unspent { store.old.fault ≡ None }
    ensures acted { (x : Span) → IsAt D.meaning x own store.old → IsStarting x → table_named x.ended name.now ≡ Some obj → (NEW_WORK_RECORDS ≤ length x.ended → ⊥) → HasActed D.meaning x (Some (asked.Repair name.now)) store.old store.new result }
    ensures called { HasCalled D.meaning store.old store.new result }
{
    match name.duplicate(alloc) {
        Ok(table) => list_named(alloc, store, own, obj, table),
        Err(_) => Err(StoreFault::NoMemory),
    }
}

/// The same, but for a full log.
fn try_repair<D: Disk>(
    alloc: Global,
    store: &mut Store<D>,
    own: Option<TxnId>,
    obj: Obj,
    name: &Name,
) -> Result<Acted, StoreFault>
    requires unspent { store.old.fault ≡ None }
    ensures acted { (x : Span) → IsAt D.meaning x own store.old → IsStarting x → table_named x.ended name.now ≡ Some obj → HasActed D.meaning x (Some (asked.Repair name.now)) store.old store.new result }
    ensures called { HasCalled D.meaning store.old store.new result }
{
    if is_log_full(store) {
        return Ok(refused(Refusal::LogFull, own));
    }
    list_blocks(alloc, store, own, obj, name)
}

/// The first event of a repair: its table's formatted blocks under the high mark are listed. Where there are none it is over.
pub fn start_repair<D: Disk>(
    alloc: Global,
    store: &mut Store<D>,
    own: Option<TxnId>,
    name: &Name,
) -> Result<Acted, StoreFault>
    requires unspent { store.old.fault ≡ None }
    ensures acted { (x : Span) → IsAt D.meaning x own store.old → IsStarting x → HasActed D.meaning x (Some (asked.Repair name.now)) store.old store.new result }
    ensures called { HasCalled D.meaning store.old store.new result }
{
    let named = match find_named(alloc, store, name) {
        Ok(named) => named,
        Err(fault) => return Err(fault),
    };
    match named.obj {
        Some(obj) => try_repair(alloc, store, own, obj, name),
        None => Ok(refused(Refusal::NoTable, own)),
    }
}

// ---- its next event

/// The next block of its list.
fn next_block(work: &RepairWork) -> Option<Dba>
    ensures { result ≡ slice_get work.now.blocks work.now.done }
{
    work.blocks.as_slice().get(work.done).copied()
}

/// How many blocks had their event, with one more.
fn next_done(work: &RepairWork) -> usize
    ensures { result ≡ next_done work.now }
{
    let all = work.blocks.len();
    if work.done < all {
        return work.done + 1;
    }
    work.done
}

/// Its next block had been released.
fn past_next(work: RepairWork) -> RepairWork
    ensures { result ≡ past_next work }
{
    let done = next_done(&work);
    RepairWork {
        obj: work.obj,
        blocks: work.blocks,
        done,
        settled: work.settled,
        changed: work.changed,
    }
}

/// One more, where the kept class changed.
fn counted(count: u32, changed: bool) -> Result<u32, NoMemory>
    ensures { IfOk result (λ n. n ≡ counted changed count) }
{
    if !changed {
        return Ok(count);
    }
    match count.checked_add(1) {
        Some(more) => Ok(more),
        None => Err(NoMemory),
    }
}

/// Its next block was settled.
fn with_settled(work: RepairWork, repaired: Repaired) -> Result<RepairWork, NoMemory>
    ensures { IfOk result (λ w. w ≡ with_settled work repaired) }
{
    let done = next_done(&work);
    let changed = counted(work.changed, repaired.changed)?;
    let mut settled = work.settled;
    settled.push(repaired.settled)?;
    Ok(RepairWork {
        obj: work.obj,
        blocks: work.blocks,
        done,
        settled,
        changed,
    })
}

/// The repair goes on after a block that it settled.
fn settled_turned(
    work: RepairWork,
    repaired: Repaired,
    table: Name,
    own: Option<TxnId>,
) -> Result<Acted, StoreFault>
    ensures turned { IfOk result (λ a. a ≡ repair_turned (with_settled work repaired) table own) }
    ensures cause { IfErr result (λ f. f ≡ StoreFault.NoMemory) }
{
    match with_settled(work, repaired) {
        Ok(work) => Ok(repair_turned(work, table, own)),
        Err(_) => Err(StoreFault::NoMemory),
    }
}

/// Settles its next block, which is there.
fn settle_next<D: Disk>(
    alloc: Global,
    store: &mut Store<D>,
    own: Option<TxnId>,
    work: RepairWork,
    dba: Dba,
    table: Name,
) -> Result<Acted, StoreFault>
    requires unspent { store.old.fault ≡ None }
    ensures acted { (x : Span) (begins : ℕ) → IsAt D.meaning x own store.old → IsRepairing store.old.shape x table begins work → IsNext store.old.shape x work dba → HasActed D.meaning x (Some (asked.Repair table)) store.old store.new result }
    ensures called { HasCalled D.meaning store.old store.new result }
{
    match repair_block(alloc, store, work.obj, dba) {
        Ok(repaired) => settled_turned(work, repaired, table, own),
        Err(fault) => Err(fault),
    }
}

/// The event of its next block: nothing is done where it was released since the repair began.
fn repair_next<D: Disk>(
    alloc: Global,
    store: &mut Store<D>,
    own: Option<TxnId>,
    work: RepairWork,
    begins: Lsn,
    dba: Dba,
    table: Name,
) -> Result<Acted, StoreFault>
    requires unspent { store.old.fault ≡ None }
    ensures acted { (x : Span) → IsAt D.meaning x own store.old → IsRepairing store.old.shape x table begins work → slice_get work.blocks work.done ≡ Some dba → HasActed D.meaning x (Some (asked.Repair table)) store.old store.new result }
    ensures called { HasCalled D.meaning store.old store.new result }
{
    match is_released(alloc, store, work.obj, dba, begins) {
        Ok(true) => Ok(repair_turned(past_next(work), table, own)),
        Ok(false) => settle_next(alloc, store, own, work, dba, table),
        Err(fault) => Err(fault),
    }
}

/// The next event of a repair of a table of which the name was copied.
fn repair_named<D: Disk>(
    alloc: Global,
    store: &mut Store<D>,
    own: Option<TxnId>,
    work: RepairWork,
    begins: Lsn,
    table: Name,
) -> Result<Acted, StoreFault>
    requires unspent { store.old.fault ≡ None }
    ensures acted { (x : Span) → IsAt D.meaning x own store.old → IsRepairing store.old.shape x table begins work → HasActed D.meaning x (Some (asked.Repair table)) store.old store.new result }
    ensures called { HasCalled D.meaning store.old store.new result }
{
    match next_block(&work) {
        Some(dba) => repair_next(alloc, store, own, work, begins, dba, table),
        None => Ok(repair_turned(work, table, own)),
    }
}

/// The next event of a repair that began with so many records: it settles the next block of its list. After the last one it is
/// over.
pub fn go_on_repairing<D: Disk>(
    alloc: Global,
    store: &mut Store<D>,
    own: Option<TxnId>,
    work: RepairWork,
    begins: Lsn,
    name: &Name,
) -> Result<Acted, StoreFault>
    requires unspent { store.old.fault ≡ None }
    ensures acted { (x : Span) → IsAt D.meaning x own store.old → IsRepairing store.old.shape x name.now begins work → HasActed D.meaning x (Some (asked.Repair name.now)) store.old store.new result }
    ensures called { HasCalled D.meaning store.old store.new result }
{
    match name.duplicate(alloc) {
        Ok(table) => repair_named(alloc, store, own, work, begins, table),
        Err(_) => Err(StoreFault::NoMemory),
    }
}
