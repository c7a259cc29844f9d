// One event of what a session has next: of its statement, or of its end.
ghost use Rattle.std.specs.Prelude.{◌≡◌, ◌≤◌, ℕ, List, Option, Some, None, length, slice_get};
ghost use Rattle.seg_words.specs.Types.{MOST_SESSIONS};
ghost use Rattle.script_text.specs.declared.statement.Statement.{Statement as TheStatement};
ghost use Rattle.script_text.specs.declared.statement.Statement.TheVariants as asked;
ghost use Rattle.script_text.specs.Spelled.{IsSpelled};
ghost use Rattle.history_model.specs.Spans.{Span};
ghost use Rattle.history_laws.specs.Acting.{TakesBack};
ghost use Rattle.scan_table.specs.declared.scan.OpenScan.{OpenScan as TheScan};
ghost use Rattle.scan_table.specs.Places.{place};
ghost use Rattle.session_core.specs.declared.session.Doing.{Doing as ToldDoing};
ghost use Rattle.session_core.specs.Acting.{HasActed, HasCalled};
ghost use Rattle.session_step.specs.Turning.{HasTurned, IsBuilt, IsTurnOf, KnowsShrinks, backing_in, repairing_in};

use crate::binding::row_by;
use crate::labels::Labels;
use crate::rows::{delete, insert, update};
use crate::shrinking::shrink;
use disk_model::Disk;
use scan_table::Scans;
use script_text::Statement;
use seg_base::{Lsn, MOST_SESSIONS, Name, TxnId};
use session_core::{
    Acted, Changed, Doing, OpenShrink, RepairWork, commit_own, fix, go_on_repairing,
    go_on_scanning, make_table, roll_back, set_movement, start_repair, start_scan, take_back,
    tell_usage,
};
use std::alloc::Global;
use store_core::{Store, StoreFault};

/// The transaction that is taken back.
fn backing_in(doing: &Doing) -> Option<TxnId>
    ensures { result ≡ backing_in doing.now }
{
    match doing {
        Doing::TakingBack(txn) => Some(*txn),
        _ => None,
    }
}

/// A rollback, or the session's end, whether it begins or goes on.
fn roll<D: Disk>(
    alloc: Global,
    store: &mut Store<D>,
    own: Option<TxnId>,
    doing: &Doing,
    changed: &mut Changed,
) -> Result<Acted, StoreFault>
    requires unspent { store.old.fault ≡ None }
    ensures acted { (x : Span) (st : Option TheStatement) (who : ℕ) (labels : List (List ℕ × ℕ)) (p : Option TheScan) → TakesBack st → (st ≡ None → own ≡ None → ⊥) → IsTurnOf D.meaning x st who own labels p doing.now store.old → HasActed D.meaning x st store.old store.new result }
    ensures called { HasCalled D.meaning store.old store.new result }
{
    match backing_in(doing) {
        Some(txn) => take_back(alloc, store, txn, changed),
        None => roll_back(alloc, store, own, changed),
    }
}

/// `scan`
fn scan<D: Disk>(
    alloc: Global,
    store: &mut Store<D>,
    scans: &mut Scans,
    who: u8,
    own: Option<TxnId>,
    table: &Name,
) -> Result<Acted, StoreFault>
    requires least { 1 ≤ who }
    requires most { who ≤ MOST_SESSIONS }
    requires unspent { store.old.fault ≡ None }
    ensures turned { (x : Span) (labels : List (List ℕ × ℕ)) (d : ToldDoing) → IsTurnOf D.meaning x (Some (asked.Scan table.now)) who own labels (place who scans.old) d store.old → HasTurned D.meaning x (Some (asked.Scan table.now)) who scans.old scans.new store.old store.new result }
    ensures called { HasCalled D.meaning store.old store.new result }
{
    if scans.is_open(who) {
        return go_on_scanning(alloc, scans, store, who, own, table);
    }
    start_scan(alloc, scans, store, who, own, table)
}

/// The work of a repair that is under way.
fn repairing_in(doing: Doing) -> Option<RepairWork>
    ensures { result ≡ repairing_in doing }
{
    match doing {
        Doing::Repairing(work) => Some(work),
        _ => None,
    }
}

/// `repair`, which began with so many records.
fn repair<D: Disk>(
    alloc: Global,
    store: &mut Store<D>,
    own: Option<TxnId>,
    doing: Doing,
    begins: Lsn,
    table: &Name,
) -> Result<Acted, StoreFault>
    requires unspent { store.old.fault ≡ None }
    ensures acted { (x : Span) (who : ℕ) (labels : List (List ℕ × ℕ)) (p : Option TheScan) → begins ≡ length x.begun → IsTurnOf D.meaning x (Some (asked.Repair table.now)) who own labels p doing store.old → HasActed D.meaning x (Some (asked.Repair table.now)) store.old store.new result }
    ensures called { HasCalled D.meaning store.old store.new result }
{
    match repairing_in(doing) {
        Some(work) => go_on_repairing(alloc, store, own, work, begins, table),
        None => start_repair(alloc, store, own, table),
    }
}

/// One event of a statement.
fn act<D: Disk>(
    alloc: Global,
    store: &mut Store<D>,
    scans: &mut Scans,
    shrinks: &[OpenShrink],
    labels: &Labels,
    statement: &Statement,
    who: u8,
    own: Option<TxnId>,
    doing: Doing,
    begins: Lsn,
    hint: Option<u32>,
    changed: &mut Changed,
) -> Result<Acted, StoreFault>
    requires least { 1 ≤ who }
    requires most { who ≤ MOST_SESSIONS }
    requires unspent { store.old.fault ≡ None }
    requires spelled { IsSpelled statement.now }
    requires built { IsBuilt statement.now }
    ensures turned { (x : Span) → begins ≡ length x.begun → KnowsShrinks x shrinks.now doing → IsTurnOf D.meaning x (Some statement.now) who own labels.now (place who scans.old) doing store.old → HasTurned D.meaning x (Some statement.now) who scans.old scans.new store.old store.new result }
    ensures called { HasCalled D.meaning store.old store.new result }
{
    match statement {
        Statement::Table { name, pctfree } => make_table(alloc, store, own, name, *pctfree),
        Statement::Movement { table, on } => set_movement(alloc, store, own, shrinks, table, *on),
        Statement::Insert { table, label, text } => {
            let _ = label;
            insert(alloc, store, who, own, &doing, table, text, hint, changed)
        }
        Statement::Update {
            table,
            target,
            text,
        } => {
            let bound = row_by(labels, target);
            update(
                alloc, store, who, own, &doing, table, target, bound, text, hint, changed,
            )
        }
        Statement::Delete { table, target } => {
            let bound = row_by(labels, target);
            delete(
                alloc, store, who, own, &doing, table, target, bound, changed,
            )
        }
        Statement::Commit => commit_own(store, own),
        Statement::Rollback => roll(alloc, store, own, &doing, changed),
        Statement::Scan { table } => scan(alloc, store, scans, who, own, table),
        Statement::Usage { table } => tell_usage(alloc, store, own, table),
        Statement::Fix {
            table,
            block,
            value,
        } => fix(alloc, store, own, table, *block, *value),
        Statement::Repair { table } => repair(alloc, store, own, doing, begins, table),
        Statement::Shrink { table, compact } => shrink(
            alloc, store, scans, own, doing, shrinks, table, *compact, changed,
        ),
        Statement::Checkpoint => Err(StoreFault::NoMemory),
    }
}

/// One event of what a session has next.
pub fn act_next<D: Disk>(
    alloc: Global,
    store: &mut Store<D>,
    scans: &mut Scans,
    shrinks: &[OpenShrink],
    labels: &Labels,
    script: &[Statement],
    told: usize,
    who: u8,
    own: Option<TxnId>,
    doing: Doing,
    begins: Lsn,
    hint: Option<u32>,
    changed: &mut Changed,
) -> Result<Acted, StoreFault>
    requires least { 1 ≤ who }
    requires most { who ≤ MOST_SESSIONS }
    requires unspent { store.old.fault ≡ None }
    requires spelled { (i : ℕ) (st : TheStatement) → slice_get script.now i ≡ Some st → IsSpelled st }
    requires built { (i : ℕ) (st : TheStatement) → slice_get script.now i ≡ Some st → IsBuilt st }
    ensures turned { (x : Span) → begins ≡ length x.begun → KnowsShrinks x shrinks.now doing → (slice_get script.now told ≡ None → own ≡ None → ⊥) → IsTurnOf D.meaning x (slice_get script.now told) who own labels.now (place who scans.old) doing store.old → HasTurned D.meaning x (slice_get script.now told) who scans.old scans.new store.old store.new result }
    ensures called { HasCalled D.meaning store.old store.new result }
{
    match script.get(told) {
        Some(statement) => act(
            alloc, store, scans, shrinks, labels, statement, who, own, doing, begins, hint, changed,
        ),
        None => roll(alloc, store, own, &doing, changed),
    }
}
