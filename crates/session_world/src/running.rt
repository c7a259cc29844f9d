// A whole run of a script.
ghost use Rattle.std.specs.Prelude.{◌≡◌, ◌≤◌, ℕ, List, length, Option, None, IsErrOf, OnOk};
ghost use Rattle.seg_words.specs.Types.{Rose};
ghost use Rattle.redo_model.specs.Records.{Record};
ghost use Rattle.session_step.specs.declared.forms.TheConstants.{BUILT_FORMS};
ghost use Rattle.script_text.specs.declared.statement.Statement.{Statement as TheStatement};
ghost use Rattle.script_text.specs.Spelled.{IsScript};
ghost use Rattle.store_core.specs.Store.{Held, IsTrue};
ghost use Rattle.store_core.specs.declared.fault.StoreFault.TheVariants as faults;
ghost use Rattle.session_model.specs.Laws.{NoneActive};
ghost use Rattle.session_core.specs.Acting.{KeepsLoan};
ghost use Rattle.session_world.specs.declared.events.Run.{Run as TheRun};
ghost use Rattle.session_world.specs.Order.{after_schedule};
ghost use Rattle.session_world.specs.Whole.{HasRunIn, HasRunScript, HasRunTurnsOf};
ghost use Rattle.session_world.specs.Scripts.{AreScripts};
ghost use Rattle.session_world.specs.Calling.{HasServed};
ghost use Rattle.session_world.specs.Between.{IsFresh, IsIdle, IsSoFar};
ghost use Rattle.session_world.specs.Rounds.{HasComeToEnd};

use crate::events::Run;
use crate::fault::RunFault;
use crate::rounds::{follow_schedule, go_to_end};
use disk_model::Disk;
use script_text::{Scripts, Statement, Turns};
use seg_base::Sequence;
use std::alloc::Global;
use store_core::{Store, StoreFault};
use text_port::Sink;

/// The turns of the schedule, and then rounds of all sessions, until each of them has ended.
pub fn run_sessions<D: Disk, K: Sink>(
    alloc: Global,
    store: &mut Store<D>,
    run: &mut Run,
    scripts: &[Sequence<Statement>],
    schedule: &[Turns],
    sink: &mut K,
) -> Result<(), RunFault>
    requires unspent { store.old.fault ≡ None }
    requires runnable { AreScripts scripts.now }
    ensures comes { (R0 R : List Record) (called : List ℕ) (first : Held D) (before : Option (List ℕ)) → IsSoFar D.meaning scripts.now R0 R called first store.old before (K.written sink.old) run.old → HasComeToEnd D.meaning scripts.now R0 (after_schedule schedule.now called) first store.new before (K.written sink.new) run.new result }
    ensures served { HasServed D.meaning store.old store.new (K.fault_count sink.old) (K.fault_count sink.new) result }
{
    match follow_schedule(alloc, store, run, scripts, schedule, sink) {
        Ok(()) => go_to_end(alloc, store, run, scripts, sink),
        Err(fault) => Err(fault),
    }
}

/// Makes all records stable, as a run has come to its end.
pub fn close_run<D: Disk>(store: &mut Store<D>) -> Result<(), RunFault>
    requires unspent { store.old.fault ≡ None }
    ensures closed { (scripts : List (List TheStatement)) (R0 : List Record) (called : List ℕ) (first : Held D) (before after : Option (List ℕ)) (run : TheRun) → IsIdle D.meaning scripts R0 called first store.old before after run → HasRunTurnsOf D.meaning scripts R0 called first store.new before after run.history result }
    ensures served { (faults : ℕ) → HasServed D.meaning store.old store.new faults faults result }
{
    match store.flush_log() {
        Ok(()) => Ok(()),
        Err(fault) => Err(RunFault::Store(fault)),
    }
}

/// Runs a script in a run of which no session has started: the items of its schedule, then turns of all sessions from 1 on, one
/// event each, until each of them has ended; then all records are made stable. An item for 0 is passed over, as is one for a
/// session that has ended. No session has a transaction as the run begins. At Ok the run has the history.
pub fn run_in<D: Disk, K: Sink>(
    alloc: Global,
    store: &mut Store<D>,
    run: &mut Run,
    scripts: &Scripts,
    sink: &mut K,
) -> Result<(), RunFault>
    requires unspent { store.old.fault ≡ None }
    requires built { IsScript BUILT_FORMS scripts.now }
    requires fresh { IsFresh (length scripts.now.sessions) run.old }
    ensures ran { (R0 : List Record) → IsTrue D.meaning R0 store.old → NoneActive R0 → HasRunIn D.meaning scripts.now R0 store.old store.new (K.written sink.old) (K.written sink.new) run.new.history result }
    ensures served { HasServed D.meaning store.old store.new (K.fault_count sink.old) (K.fault_count sink.new) result }
{
    match run_sessions(
        alloc,
        store,
        run,
        scripts.sessions(),
        scripts.schedule(),
        sink,
    ) {
        Ok(()) => close_run(store),
        Err(fault) => Err(fault),
    }
}

/// Runs a script in a run that nobody asks about afterwards.
fn run_fresh<D: Disk, K: Sink>(
    alloc: Global,
    store: &mut Store<D>,
    run: Run,
    scripts: &Scripts,
    sink: &mut K,
) -> Result<(), RunFault>
    requires unspent { store.old.fault ≡ None }
    requires built { IsScript BUILT_FORMS scripts.now }
    requires fresh { IsFresh (length scripts.now.sessions) run }
    ensures ran { (R0 : List Record) → IsTrue D.meaning R0 store.old → NoneActive R0 → HasRunScript D.meaning scripts.now R0 store.old store.new (K.written sink.old) (K.written sink.new) result }
    ensures served { HasServed D.meaning store.old store.new (K.fault_count sink.old) (K.fault_count sink.new) result }
{
    let mut run = run;
    run_in(alloc, store, &mut run, scripts, sink)
}

/// Runs a script, as `run_in` does.
pub fn run_scripts<D: Disk, K: Sink>(
    alloc: Global,
    store: &mut Store<D>,
    scripts: &Scripts,
    sink: &mut K,
) -> Result<(), RunFault>
    requires unspent { store.old.fault ≡ None }
    requires built { IsScript BUILT_FORMS scripts.now }
    ensures ran { (R0 : List Record) → IsTrue D.meaning R0 store.old → NoneActive R0 → HasRunScript D.meaning scripts.now R0 store.old store.new (K.written sink.old) (K.written sink.new) result }
    ensures loan { KeepsLoan D.meaning store.old store.new }
    ensures device_fault { IsErrOf result (RunFault.Store faults.DeviceFault) → Rose (D.meaning.fault_count store.old.disk) (D.meaning.fault_count store.new.disk) }
    ensures write_fault { IsErrOf result RunFault.WriteFault → Rose (K.fault_count sink.old) (K.fault_count sink.new) }
    ensures later { K.fault_count sink.old ≤ K.fault_count sink.new }
    ensures unspent { OnOk result (store.new.fault ≡ None) }
{
    match Run::new(alloc, scripts.sessions().len()) {
        Err(_) => Err(RunFault::Store(StoreFault::NoMemory)),
        Ok(run) => run_fresh(alloc, store, run, scripts, sink),
    }
}
