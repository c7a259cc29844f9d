// Turns of the sessions of a run: those that the schedule names, and rounds of all.
ghost use Rattle.std.specs.Prelude.{◌≡◌, ℕ, List, Option, None};
ghost use Rattle.redo_model.specs.Records.{Record};
ghost use Rattle.store_core.specs.Store.{Held};
ghost use Rattle.session_world.specs.Scripts.{AreScripts};
ghost use Rattle.session_world.specs.Calling.{HasServed};
ghost use Rattle.session_world.specs.Order.{after_item, after_schedule};
ghost use Rattle.session_world.specs.Between.{GoesOn, IsSoFar};
ghost use Rattle.session_world.specs.Rounds.{HasComeToEnd, HasGoneRound, HasTurned};

use crate::events::{Run, step_run};
use crate::fault::RunFault;
use disk_model::Disk;
use script_text::{Statement, Turns};
use seg_base::Sequence;
use session_step::Turn;
use std::alloc::Global;
use store_core::{Store, StoreFault};
use text_port::Sink;

/// A turn of a session: whether it made an event.
fn take_turn<D: Disk, K: Sink>(
    alloc: Global,
    store: &mut Store<D>,
    run: &mut Run,
    scripts: &[Sequence<Statement>],
    who: u8,
    sink: &mut K,
) -> Result<bool, RunFault>
    requires unspent { store.old.fault ≡ None }
    requires runnable { AreScripts scripts.now }
    ensures turned { (R0 R : List Record) (called : List ℕ) (first : Held D) (before : Option (List ℕ)) → IsSoFar D.meaning scripts.now R0 R called first store.old before (K.written sink.old) run.old → HasTurned D.meaning scripts.now R0 R called who first store.new before (K.written sink.new) run.old run.new result }
    ensures served { HasServed D.meaning store.old store.new (K.fault_count sink.old) (K.fault_count sink.new) result }
{
    match step_run(alloc, store, run, scripts, who, None, sink) {
        Ok(Turn::Made) => Ok(true),
        Ok(Turn::Ended) => Ok(false),
        Err(fault) => Err(fault),
    }
}

/// So many turns of a session. Where it has ended the others are passed over.
fn take_turns<D: Disk, K: Sink>(
    alloc: Global,
    store: &mut Store<D>,
    run: &mut Run,
    scripts: &[Sequence<Statement>],
    turns: &Turns,
    sink: &mut K,
) -> Result<(), RunFault>
    requires unspent { store.old.fault ≡ None }
    requires runnable { AreScripts scripts.now }
    ensures goes { (R0 R : List Record) (called : List ℕ) (first : Held D) (before : Option (List ℕ)) → IsSoFar D.meaning scripts.now R0 R called first store.old before (K.written sink.old) run.old → GoesOn D.meaning scripts.now R0 (after_item turns.now.who turns.now.times called) first store.new before (K.written sink.new) run.new result }
    ensures served { HasServed D.meaning store.old store.new (K.fault_count sink.old) (K.fault_count sink.new) result }
{
    for taken in 0..turns.times {
        let _ = taken;
        match take_turn(alloc, store, run, scripts, turns.who, sink) {
            Ok(true) => {}
            Ok(false) => return Ok(()),
            Err(fault) => return Err(fault),
        }
    }
    Ok(())
}

/// The turns of a schedule. An item of a session that has ended is passed over, and so is one for 0.
pub fn follow_schedule<D: Disk, K: Sink>(
    alloc: Global,
    store: &mut Store<D>,
    run: &mut Run,
    scripts: &[Sequence<Statement>],
    schedule: &[Turns],
    sink: &mut K,
) -> Result<(), RunFault>
    requires unspent { store.old.fault ≡ None }
    requires runnable { AreScripts scripts.now }
    ensures goes { (R0 R : List Record) (called : List ℕ) (first : Held D) (before : Option (List ℕ)) → IsSoFar D.meaning scripts.now R0 R called first store.old before (K.written sink.old) run.old → GoesOn D.meaning scripts.now R0 (after_schedule schedule.now called) first store.new before (K.written sink.new) run.new result }
    ensures served { HasServed D.meaning store.old store.new (K.fault_count sink.old) (K.fault_count sink.new) result }
{
    for turns in schedule {
        match take_turns(alloc, store, run, scripts, turns, sink) {
            Ok(()) => {}
            Err(fault) => return Err(fault),
        }
    }
    Ok(())
}

/// A turn of each session, from session 1 on: whether any of them made an event.
fn go_round<D: Disk, K: Sink>(
    alloc: Global,
    store: &mut Store<D>,
    run: &mut Run,
    scripts: &[Sequence<Statement>],
    sink: &mut K,
) -> Result<bool, RunFault>
    requires unspent { store.old.fault ≡ None }
    requires runnable { AreScripts scripts.now }
    ensures goes { (R0 R : List Record) (called : List ℕ) (first : Held D) (before : Option (List ℕ)) → IsSoFar D.meaning scripts.now R0 R called first store.old before (K.written sink.old) run.old → HasGoneRound D.meaning scripts.now R0 called first store.new before (K.written sink.new) run.new result }
    ensures served { HasServed D.meaning store.old store.new (K.fault_count sink.old) (K.fault_count sink.new) result }
{
    let mut made = false;
    for at in 0..scripts.len() {
        match take_turn(alloc, store, run, scripts, at as u8 + 1, sink) {
            Ok(turned) => made = made || turned,
            Err(fault) => return Err(fault),
        }
    }
    Ok(made)
}

/// Rounds of all sessions, until one in which each of them has ended.
pub fn go_to_end<D: Disk, K: Sink>(
    alloc: Global,
    store: &mut Store<D>,
    run: &mut Run,
    scripts: &[Sequence<Statement>],
    sink: &mut K,
) -> Result<(), RunFault>
    requires unspent { store.old.fault ≡ None }
    requires runnable { AreScripts scripts.now }
    ensures comes { (R0 R : List Record) (called : List ℕ) (first : Held D) (before : Option (List ℕ)) → IsSoFar D.meaning scripts.now R0 R called first store.old before (K.written sink.old) run.old → HasComeToEnd D.meaning scripts.now R0 called first store.new before (K.written sink.new) run.new result }
    ensures served { HasServed D.meaning store.old store.new (K.fault_count sink.old) (K.fault_count sink.new) result }
{
    for round in 0..u64::MAX {
        let _ = round;
        match go_round(alloc, store, run, scripts, sink) {
            Ok(true) => {}
            Ok(false) => return Ok(()),
            Err(fault) => return Err(fault),
        }
    }
    // No run makes so many events.
    Err(RunFault::Store(StoreFault::NoMemory))
}
