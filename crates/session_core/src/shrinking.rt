// The events of a shrink until it stops.
ghost use Rattle.std.specs.Prelude.{◌≡◌, ◌<◌, ◌^◌, ◌-◌, ℕ, List, Bool, Option, None, Some, IfOk, IfErr};
ghost use Rattle.redo_model.specs.Model.{table_named};
ghost use Rattle.script_text.specs.declared.statement.Statement.TheVariants as asked;
ghost use Rattle.history_model.specs.Spans.{Span};
ghost use Rattle.scan_table.specs.declared.scan.OpenScan.{OpenScan};
ghost use Rattle.session_core.specs.Acting.{HasCalled, IsAt, IsStarting};
ghost use Rattle.session_core.specs.Blocks.{HasNoted};
ghost use Rattle.session_core.specs.Leaving.{no_blocks};
ghost use Rattle.session_core.specs.ShrinkEvents.{ComesFurther, IsShrinking, after_step, begun_if, blocks_after, not_shrunk, step_told, told_compacted};
ghost use Rattle.session_core.specs.Marks.{HasActedMarking};
ghost use Rattle.session_core.specs.Shrinkers.{AreShrunk};
ghost use Rattle.session_core.specs.Starting.{IsBusyBy};

use crate::changed::Changed;
use crate::naming::{find_named, is_log_full};
use crate::session::{Doing, LowerWork, OpenShrink, ShrinkWork};
use crate::shrinkers::shrinker_of;
use crate::testing::test_movement;
use crate::turned::{Acted, Turned, refused};
use disk_model::Disk;
use history_model::Kept;
use history_text::{Outcome, Refusal};
use seg_base::{Lsn, Name, Obj, TxnId};
use shrink_move::{Shrink, ShrinkFault, ShrinkStep};
use std::alloc::Global;
use store_core::{Store, StoreFault};

/// The shrink doesn't begin or go on, or the store failed.
fn not_shrunk(fault: ShrinkFault, own: Option<TxnId>) -> Result<Acted, StoreFault>
    ensures { result ≡ not_shrunk fault own }
{
    match fault {
        ShrinkFault::MovementOff => Ok(refused(Refusal::MovementOff, own)),
        ShrinkFault::ShrinkBusy { session } => Ok(refused(Refusal::ShrinkBusy { session }, own)),
        ShrinkFault::UndoFull { holders } => Ok(refused(Refusal::UndoFull { holders }, own)),
        ShrinkFault::Store(fault) => Err(fault),
    }
}

// ---- its first event

/// The shrink begins with no row moved, or a test refuses it.
fn begun_if(tested: Result<(), Refusal>, shrink: Shrink, own: Option<TxnId>) -> Acted
    ensures { result ≡ begun_if tested shrink own }
{
    match tested {
        Ok(()) => Acted {
            turned: Turned::On(Doing::Shrinking(ShrinkWork { shrink, moved: 0 })),
            own,
        },
        Err(refusal) => refused(refusal, own),
    }
}

/// Begins the shrink of a table that is there. That its row movement is off is tested first; that another session shrinks it comes
/// after an open transaction, so it is tested here.
fn try_shrink<D: Disk>(
    alloc: Global,
    store: &mut Store<D>,
    own: Option<TxnId>,
    busy: Option<u8>,
    obj: Obj,
) -> Result<Acted, StoreFault>
    requires unspent { store.old.fault ≡ None }
    ensures acted { (x : Span) (name : List ℕ) (compact : Bool) (scans : List (Option OpenScan)) → IsAt D.meaning x own store.old → IsStarting x → IsBusyBy x name busy → table_named x.ended name ≡ Some obj → HasActedMarking D.meaning x (Some (asked.Shrink name compact)) scans scans store.old store.new result }
    ensures called { HasCalled D.meaning store.old store.new result }
{
    match Shrink::start(alloc, store, obj, 0, None) {
        Ok(shrink) => {
            let full = is_log_full(store);
            let tested = test_movement(own.is_some(), busy, full);
            Ok(begun_if(tested, shrink, own))
        }
        Err(fault) => not_shrunk(fault, own),
    }
}

/// The first event of a shrink: past its tests its cursor is set on the table's last formatted position. It moves no row, and never
/// stops. The list has the shrinks of other sessions that are under way: one of the table refuses it.
pub fn start_shrink<D: Disk>(
    alloc: Global,
    store: &mut Store<D>,
    own: Option<TxnId>,
    shrinks: &[OpenShrink],
    name: &Name,
) -> Result<Acted, StoreFault>
    requires unspent { store.old.fault ≡ None }
    ensures acted { (x : Span) (compact : Bool) (scans : List (Option OpenScan)) → IsAt D.meaning x own store.old → IsStarting x → AreShrunk x shrinks.now → HasActedMarking D.meaning x (Some (asked.Shrink name.now compact)) scans scans store.old store.new result }
    ensures called { HasCalled D.meaning store.old store.new result }
{
    let named = match find_named(alloc, store, name) {
        Ok(named) => named,
        Err(fault) => return Err(fault),
    };
    match named.obj {
        Some(obj) => try_shrink(alloc, store, own, shrinker_of(shrinks, obj), obj),
        None => Ok(refused(Refusal::NoTable, own)),
    }
}

// ---- its next event

/// What the shrink is at after a step, which stopped with so many records if it did.
fn after_step(step: &ShrinkStep, shrink: Shrink, moved: u64, records: Lsn) -> Doing
    requires { moved < 2 ^ 64 - 1 }
    ensures { result ≡ after_step step.now shrink moved records }
{
    match step {
        ShrinkStep::Moved(_) => Doing::Shrinking(ShrinkWork {
            shrink,
            moved: moved + 1,
        }),
        ShrinkStep::Skipped { .. } => Doing::Shrinking(ShrinkWork { shrink, moved }),
        ShrinkStep::Stopped(stop) => Doing::Lowering(LowerWork {
            obj: shrink.obj,
            skips: shrink.skips,
            moved,
            stopped: records,
            stop: *stop,
        }),
    }
}

/// A step that moved a row changed these row blocks.
fn note_step(step: &ShrinkStep, obj: &Obj, changed: &mut Changed)
    ensures { changed.new ≡ blocks_after step.now obj.now changed.old }
{
    if let ShrinkStep::Moved(blocks) = step {
        *changed = Changed::of(blocks.as_slice()).in_table(*obj);
    }
}

/// The shrink only compacts, and is over.
fn told_compacted(work: LowerWork, table: Name, own: Option<TxnId>) -> Acted
    ensures { result ≡ told_compacted work table own }
{
    let skipped = work.skips.len() as u64;
    Acted {
        turned: Turned::Over {
            outcome: Outcome::Compacted {
                table,
                moved: work.moved,
                skipped,
                stop: work.stop,
            },
            kept: Kept::Stopped {
                skips: work.skips,
                records: work.stopped,
            },
        },
        own,
    }
}

/// The shrink goes on, but for one that has stopped and only compacts, which is over.
fn step_told(
    alloc: Global,
    doing: Doing,
    compact: bool,
    name: &Name,
    own: Option<TxnId>,
) -> Result<Acted, StoreFault>
    ensures told { IfOk result (λ a. a ≡ step_told doing compact name.now own) }
    ensures cause { IfErr result (λ f. f ≡ StoreFault.NoMemory) }
{
    match doing {
        Doing::Lowering(work) if compact => match name.duplicate(alloc) {
            Ok(table) => Ok(told_compacted(work, table, own)),
            Err(_) => Err(StoreFault::NoMemory),
        },
        doing => Ok(Acted {
            turned: Turned::On(doing),
            own,
        }),
    }
}

/// One step of a shrink that has moved so many rows.
fn step_on<D: Disk>(
    alloc: Global,
    store: &mut Store<D>,
    own: Option<TxnId>,
    mut shrink: Shrink,
    moved: u64,
    name: &Name,
    compact: bool,
    changed: &mut Changed,
) -> Result<Acted, StoreFault>
    requires unspent { store.old.fault ≡ None }
    requires few { moved < 2 ^ 64 - 1 }
    ensures acted { (x : Span) (scans : List (Option OpenScan)) → IsAt D.meaning x own store.old → IsShrinking store.old.shape x name.now compact (record { shrink = shrink; moved = moved }) → HasActedMarking D.meaning x (Some (asked.Shrink name.now compact)) scans scans store.old store.new result }
    ensures noted { (x : Span) → IsAt D.meaning x own store.old → IsShrinking store.old.shape x name.now compact (record { shrink = shrink; moved = moved }) → changed.old ≡ no_blocks → HasNoted D.meaning x.ended store.new changed.new }
    ensures further { (x : Span) → IsAt D.meaning x own store.old → IsShrinking store.old.shape x name.now compact (record { shrink = shrink; moved = moved }) → IfOk result (λ a. ComesFurther (record { shrink = shrink; moved = moved }) a.turned) }
    ensures called { HasCalled D.meaning store.old store.new result }
{
    match shrink.step(alloc, store) {
        Ok(step) => {
            note_step(&step, &shrink.obj, changed);
            let doing = after_step(&step, shrink, moved, Lsn(store.log_len()));
            step_told(alloc, doing, compact, name, own)
        }
        Err(fault) => not_shrunk(fault, own),
    }
}

/// The next event of a shrink: one step of its cursor moves a row, skips a slot or stops. `shrink .. compact` is over as it stops;
/// another one goes on to lower its table's marks. Where a row is to be moved and undo is full, the shrink is refused, with the rows
/// that it moved where they are now.
pub fn go_on_shrinking<D: Disk>(
    alloc: Global,
    store: &mut Store<D>,
    own: Option<TxnId>,
    work: ShrinkWork,
    name: &Name,
    compact: bool,
    changed: &mut Changed,
) -> Result<Acted, StoreFault>
    requires unspent { store.old.fault ≡ None }
    ensures acted { (x : Span) (scans : List (Option OpenScan)) → IsAt D.meaning x own store.old → IsShrinking store.old.shape x name.now compact work → HasActedMarking D.meaning x (Some (asked.Shrink name.now compact)) scans scans store.old store.new result }
    ensures noted { (x : Span) → IsAt D.meaning x own store.old → IsShrinking store.old.shape x name.now compact work → changed.old ≡ no_blocks → HasNoted D.meaning x.ended store.new changed.new }
    ensures further { (x : Span) → IsAt D.meaning x own store.old → IsShrinking store.old.shape x name.now compact work → IfOk result (λ a. ComesFurther work a.turned) }
    ensures called { HasCalled D.meaning store.old store.new result }
{
    let ShrinkWork { shrink, moved } = work;
    if moved == u64::MAX {
        return Err(StoreFault::NoMemory);
    }
    step_on(alloc, store, own, shrink, moved, name, compact, changed)
}
