// A run: any of its sessions makes an event.
ghost use Rattle.std.specs.Prelude.{◌≡◌, ◌≤◌, ◌<◌, ◌^◌, ◌-◌, ℕ, List, length, Option, None, IfOk};
ghost use Rattle.seg_words.specs.Types.{MOST_SESSIONS};
ghost use Rattle.redo_model.specs.Records.{Record};
ghost use Rattle.script_text.specs.declared.statement.Statement.{Statement as TheStatement};
ghost use Rattle.store_core.specs.Store.{Held};
ghost use Rattle.session_core.specs.Acting.{HasCalled};
ghost use Rattle.history_model.specs.History.{IsSession, script_of};
ghost use Rattle.session_model.specs.Sessions.{Session as TheSession};
ghost use Rattle.session_step.specs.Stages.{StandsAt, stage};
ghost use Rattle.session_step.specs.Telling.{Grows};
ghost use Rattle.session_step.specs.Stepping.{HasStepped};
ghost use Rattle.session_world.specs.Scripts.{AreRunnable, AreScripts};
ghost use Rattle.session_world.specs.Seats.{AreShrinks};
ghost use Rattle.session_world.specs.Calling.{HasServed};
ghost use Rattle.session_world.specs.Between.{IsFresh, IsRunAt, IsSoFar, TakesTurn};
ghost use Rattle.session_world.specs.Moving.{HasMoved};

use crate::fault::RunFault;
use crate::lines::hand_out;
use crate::seats::{Seat, fresh_seats, open_shrinks};
use disk_model::Disk;
use history_model::HistoryItem;
use scan_table::Scans;
use script_text::Statement;
use seg_base::{Newest, NoMemory, Sequence};
use session_core::OpenShrink;
use session_step::{Labels, Turn, step_session};
use std::alloc::Global;
use store_core::{Store, StoreFault};
use text_port::Sink;

/// What the sessions of a run are at: each session with what it is to settle, the open scans, the rows that labels stand for, and
/// the history so far.
#[derive(Drop)]
pub struct Run {
    pub seats: Vec<Seat>,
    pub scans: Scans,
    pub labels: Labels,
    pub history: Newest<HistoryItem>,
}

impl Run {
    /// So many sessions, of which none has started.
    pub fn new(alloc: Global, sessions: usize) -> Result<Run, NoMemory>
        ensures { IfOk result (λ run. IsFresh sessions run) }
    {
        let seats = fresh_seats(alloc, sessions)?;
        let scans = Scans::new(alloc)?;
        Ok(Run {
            seats,
            scans,
            labels: Labels::new(alloc),
            history: Newest::new(alloc),
        })
    }
}

/// One event of a session, whose seat is handed in beside what all sessions share.
fn step_in<D: Disk>(
    alloc: Global,
    store: &mut Store<D>,
    history: &mut Newest<HistoryItem>,
    scans: &mut Scans,
    shrinks: &[OpenShrink],
    labels: &mut Labels,
    seat: &mut Seat,
    script: &[Statement],
    who: u8,
    hint: Option<u32>,
) -> Result<Turn, StoreFault>
    requires least { 1 ≤ who }
    requires most { who ≤ MOST_SESSIONS }
    requires unspent { store.old.fault ≡ None }
    requires runnable { AreRunnable script.now }
    requires short { length script.now < 2 ^ 32 - 1 }
    ensures stepped { (scripts : List (List TheStatement)) (R0 R : List Record) (sessions : ℕ → TheSession) → script_of scripts who ≡ script.now → StandsAt D.meaning scripts R0 R sessions who (stage store.old history.old scans.old shrinks.now labels.old seat.old.dues seat.old.session) → HasStepped D.meaning scripts R0 R sessions who (stage store.old history.old scans.old shrinks.now labels.old seat.old.dues seat.old.session) (stage store.new history.new scans.new shrinks.now labels.new seat.new.dues seat.new.session) result }
    ensures called { HasCalled D.meaning store.old store.new result }
    ensures grows { Grows seat.old.session seat.new.session history.old history.new }
{
    step_session(
        alloc,
        store,
        history,
        scans,
        shrinks,
        labels,
        &mut seat.dues,
        script,
        who,
        &mut seat.session,
        hint,
    )
}

/// One event of a session that has a seat, where the others shrink these tables.
fn step_seat<D: Disk>(
    alloc: Global,
    store: &mut Store<D>,
    run: &mut Run,
    shrinks: &[OpenShrink],
    script: &[Statement],
    who: u8,
    hint: Option<u32>,
) -> Result<Turn, StoreFault>
    requires least { 1 ≤ who }
    requires most { who ≤ MOST_SESSIONS }
    requires seated { who ≤ length run.old.seats.items }
    requires told { AreShrinks run.old.seats.items who (length run.old.seats.items) shrinks.now }
    requires unspent { store.old.fault ≡ None }
    requires runnable { AreRunnable script.now }
    requires short { length script.now < 2 ^ 32 - 1 }
    ensures moved { (scripts : List (List TheStatement)) (R0 R : List Record) → script_of scripts who ≡ script.now → IsSession scripts who → IsRunAt D.meaning scripts R0 R store.old run.old → HasMoved D.meaning scripts R0 R who store.old store.new run.old run.new result }
    ensures called { HasCalled D.meaning store.old store.new result }
{
    step_in(
        alloc,
        store,
        &mut run.history,
        &mut run.scans,
        shrinks,
        &mut run.labels,
        &mut run.seats[usize::from(who) - 1],
        script,
        who,
        hint,
    )
}

/// One event of a session that has a seat.
fn step_among<D: Disk>(
    alloc: Global,
    store: &mut Store<D>,
    run: &mut Run,
    script: &[Statement],
    who: u8,
    hint: Option<u32>,
) -> Result<Turn, StoreFault>
    requires least { 1 ≤ who }
    requires most { who ≤ MOST_SESSIONS }
    requires seated { who ≤ length run.old.seats.items }
    requires unspent { store.old.fault ≡ None }
    requires runnable { AreRunnable script.now }
    requires short { length script.now < 2 ^ 32 - 1 }
    ensures moved { (scripts : List (List TheStatement)) (R0 R : List Record) → script_of scripts who ≡ script.now → IsSession scripts who → IsRunAt D.meaning scripts R0 R store.old run.old → HasMoved D.meaning scripts R0 R who store.old store.new run.old run.new result }
    ensures called { HasCalled D.meaning store.old store.new result }
{
    match open_shrinks(alloc, run.seats.as_slice(), who) {
        Ok(shrinks) => step_seat(alloc, store, run, shrinks.as_slice(), script, who, hint),
        Err(_) => Err(StoreFault::NoMemory),
    }
}

/// One event of a session that has a seat and a script.
fn step_script<D: Disk>(
    alloc: Global,
    store: &mut Store<D>,
    run: &mut Run,
    script: &[Statement],
    who: u8,
    hint: Option<u32>,
) -> Result<Turn, StoreFault>
    requires least { 1 ≤ who }
    requires most { who ≤ MOST_SESSIONS }
    requires seated { who ≤ length run.old.seats.items }
    requires unspent { store.old.fault ≡ None }
    requires runnable { AreRunnable script.now }
    ensures moved { (scripts : List (List TheStatement)) (R0 R : List Record) → script_of scripts who ≡ script.now → IsSession scripts who → IsRunAt D.meaning scripts R0 R store.old run.old → HasMoved D.meaning scripts R0 R who store.old store.new run.old run.new result }
    ensures called { HasCalled D.meaning store.old store.new result }
{
    // No script comes near the last ordinal.
    if script.len() >= u32::MAX as usize {
        return Err(StoreFault::NoMemory);
    }
    step_among(alloc, store, run, script, who, hint)
}

/// One event of a session, or none where the scripts have no such session.
fn step_any<D: Disk>(
    alloc: Global,
    store: &mut Store<D>,
    run: &mut Run,
    scripts: &[Sequence<Statement>],
    who: u8,
    hint: Option<u32>,
) -> Result<Turn, StoreFault>
    requires unspent { store.old.fault ≡ None }
    requires runnable { AreScripts scripts.now }
    ensures moved { (R0 R : List Record) → IsRunAt D.meaning scripts.now R0 R store.old run.old → HasMoved D.meaning scripts.now R0 R who store.old store.new run.old run.new result }
    ensures called { HasCalled D.meaning store.old store.new result }
{
    if who == 0 {
        return Ok(Turn::Ended);
    }
    if usize::from(who) > run.seats.len() {
        return Ok(Turn::Ended);
    }
    match scripts.get(usize::from(who) - 1) {
        None => Ok(Turn::Ended),
        Some(script) => step_script(alloc, store, run, script.as_slice(), who, hint),
    }
}

/// One event of a session. Where it told an entry, the entry's lines are handed to the sink in the same event. `Ended` where the
/// session has ended, or the scripts have none of this number, and then nothing is done.
pub fn step_run<D: Disk, K: Sink>(
    alloc: Global,
    store: &mut Store<D>,
    run: &mut Run,
    scripts: &[Sequence<Statement>],
    who: u8,
    hint: Option<u32>,
    sink: &mut K,
) -> Result<Turn, RunFault>
    requires unspent { store.old.fault ≡ None }
    requires runnable { AreScripts scripts.now }
    ensures turns { (R0 R : List Record) (called : List ℕ) (first : Held D) (before : Option (List ℕ)) → IsSoFar D.meaning scripts.now R0 R called first store.old before (K.written sink.old) run.old → TakesTurn D.meaning scripts.now R0 R called who first store.new before (K.written sink.new) run.old run.new result }
    ensures served { HasServed D.meaning store.old store.new (K.fault_count sink.old) (K.fault_count sink.new) result }
{
    let before = run.history.len();
    match step_any(alloc, store, run, scripts, who, hint) {
        Err(fault) => Err(RunFault::Store(fault)),
        Ok(turn) => match hand_out(alloc, &run.history, before, sink) {
            Ok(()) => Ok(turn),
            Err(fault) => Err(fault),
        },
    }
}
