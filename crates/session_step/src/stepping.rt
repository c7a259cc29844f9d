// One event of a session.
ghost use Rattle.std.specs.Prelude.{◌≡◌, ◌≤◌, ◌<◌, ◌^◌, ◌-◌, ℕ, List, Option, None, Some, length, slice_get, is_some, OnOk, OnErr, IfErr};
ghost use Rattle.seg_words.specs.Types.{MOST_SESSIONS};
ghost use Rattle.redo_model.specs.Records.{Record};
ghost use Rattle.script_text.specs.declared.statement.Statement.{Statement as TheStatement};
ghost use Rattle.script_text.specs.Spelled.{IsSpelled};
ghost use Rattle.history_model.specs.History.{Task, script_of};
ghost use Rattle.session_model.specs.Sessions.{Session as TheSession};
ghost use Rattle.session_core.specs.Acting.{HasCalled};
ghost use Rattle.session_step.specs.Turning.{IsBuilt};
ghost use Rattle.store_core.specs.declared.fault.StoreFault.TheVariants.{NoMemory};
ghost use Rattle.session_core.specs.Dues.{noted_after};
ghost use Rattle.session_step.specs.Bindings.{AreBoundTurned};
ghost use Rattle.session_step.specs.Telling.{Ends, Finishes, Grows};
ghost use Rattle.session_step.specs.Stages.{IsMidway, StandsAt, stage};
ghost use Rattle.session_step.specs.Stepping.{HasPaidStep, HasRunOn, HasStepped, Owes};

use crate::acting::act_next;
use crate::binding::bind_turned;
use crate::labels::Labels;
use crate::session::{Session, Turn};
use crate::telling::{begin, finish};
use disk_model::Disk;
use history_model::HistoryItem;
use scan_table::Scans;
use script_text::Statement;
use seg_base::{Lsn, MOST_SESSIONS, Newest};
use session_core::{Acted, Changed, Doing, Dues, OpenShrink};
use std::alloc::Global;
use std::mem;
use store_core::{Store, StoreFault};

/// The statement goes on, or its entry is told.
fn tell<D: Disk>(
    store: &Store<D>,
    history: &mut Newest<HistoryItem>,
    script: &[Statement],
    who: u8,
    session: &mut Session,
    acted: Acted,
) -> Result<(), StoreFault>
    requires short { length script.now < 2 ^ 32 - 1 }
    requires few { session.old.told ≤ length script.now }
    ensures finishes { OnOk result (Finishes who (length script.now) store.now.log.count (D.meaning.clock store.now.disk) acted session.old session.new history.old history.new) }
    ensures ends { Ends session.old.told history.old session.new.told history.new }
    ensures failed { OnErr result ((session.new ≡ session.old) × (history.new ≡ history.old)) }
    ensures cause { IfErr result (λ e. e ≡ NoMemory) }
{
    let records = Lsn(store.log_len());
    let moment = store.moment();
    match finish(history, session, who, script.len(), records, moment, acted) {
        Ok(()) => Ok(()),
        Err(_) => Err(StoreFault::NoMemory),
    }
}

/// The same, and the blocks that the event changed are owed.
fn tell_owing<D: Disk>(
    store: &Store<D>,
    history: &mut Newest<HistoryItem>,
    dues: &mut Dues,
    script: &[Statement],
    who: u8,
    session: &mut Session,
    acted: Acted,
    changed: &Changed,
) -> Result<(), StoreFault>
    requires short { length script.now < 2 ^ 32 - 1 }
    requires few { session.old.told ≤ length script.now }
    ensures owes { OnOk result (dues.new ≡ noted_after changed.now (is_some acted.own) dues.old) }
    ensures finishes { OnOk result (Finishes who (length script.now) store.now.log.count (D.meaning.clock store.now.disk) acted session.old session.new history.old history.new) }
    ensures ends { Ends session.old.told history.old session.new.told history.new }
    ensures failed { OnErr result ((session.new ≡ session.old) × (history.new ≡ history.old)) }
    ensures cause { IfErr result (λ e. e ≡ NoMemory) }
{
    match dues.note(changed, acted.own.is_some()) {
        Ok(()) => tell(store, history, script, who, session, acted),
        Err(_) => Err(StoreFault::NoMemory),
    }
}

/// The same, and the label of a row that was inserted stands for it. Nothing is told where memory is wanting.
fn tell_all<D: Disk>(
    alloc: Global,
    store: &Store<D>,
    history: &mut Newest<HistoryItem>,
    labels: &mut Labels,
    dues: &mut Dues,
    script: &[Statement],
    who: u8,
    session: &mut Session,
    acted: Acted,
    changed: &Changed,
) -> Result<(), StoreFault>
    requires short { length script.now < 2 ^ 32 - 1 }
    requires few { session.old.told ≤ length script.now }
    ensures bound { OnOk result (AreBoundTurned (slice_get script.now session.old.told) acted.turned labels.old labels.new) }
    ensures owes { OnOk result (dues.new ≡ noted_after changed.now (is_some acted.own) dues.old) }
    ensures finishes { OnOk result (Finishes who (length script.now) store.now.log.count (D.meaning.clock store.now.disk) acted session.old session.new history.old history.new) }
    ensures ends { Ends session.old.told history.old session.new.told history.new }
    ensures failed { OnErr result ((session.new ≡ session.old) × (history.new ≡ history.old)) }
    ensures cause { IfErr result (λ e. e ≡ NoMemory) }
{
    match bind_turned(alloc, labels, script, session.told, &acted.turned) {
        Ok(()) => tell_owing(store, history, dues, script, who, session, acted, changed),
        Err(_) => Err(StoreFault::NoMemory),
    }
}

/// What an event does after its start.
fn run_statement<D: Disk>(
    alloc: Global,
    store: &mut Store<D>,
    history: &mut Newest<HistoryItem>,
    scans: &mut Scans,
    shrinks: &[OpenShrink],
    labels: &mut Labels,
    dues: &mut Dues,
    script: &[Statement],
    who: u8,
    session: &mut Session,
    hint: Option<u32>,
) -> Result<(), StoreFault>
    requires least { 1 ≤ who }
    requires most { who ≤ MOST_SESSIONS }
    requires unspent { store.old.fault ≡ None }
    requires spelled { (i : ℕ) (st : TheStatement) → slice_get script.now i ≡ Some st → IsSpelled st }
    requires built { (i : ℕ) (st : TheStatement) → slice_get script.now i ≡ Some st → IsBuilt st }
    requires short { length script.now < 2 ^ 32 - 1 }
    requires few { session.old.told ≤ length script.now }
    ensures ran { (scripts : List (List TheStatement)) (R0 R : List Record) (sessions : ℕ → TheSession) (task : Task) → script_of scripts who ≡ script.now → IsMidway D.meaning scripts R0 R sessions who task (stage store.old history.old scans.old shrinks.now labels.old dues.old session.old) → HasRunOn D.meaning scripts R0 R sessions who (stage store.old history.old scans.old shrinks.now labels.old dues.old session.old) (stage store.new history.new scans.new shrinks.now labels.new dues.new session.new) result }
    ensures owes { OnOk result (Owes dues.old dues.new session.new.own) }
    ensures called { HasCalled D.meaning store.old store.new result }
    ensures ends { Ends session.old.told history.old session.new.told history.new }
{
    let mut changed = Changed::none();
    let doing = mem::replace(&mut session.doing, Doing::Waiting);
    let acted = act_next(
        alloc,
        store,
        scans,
        shrinks,
        labels,
        script,
        session.told,
        who,
        session.own,
        doing,
        session.begins,
        hint,
        &mut changed,
    );
    match acted {
        Ok(acted) => tell_all(
            alloc, store, history, labels, dues, script, who, session, acted, &changed,
        ),
        Err(fault) => Err(fault),
    }
}

/// An event of a session that owes nothing that calls for anything.
fn step_paid<D: Disk>(
    alloc: Global,
    store: &mut Store<D>,
    history: &mut Newest<HistoryItem>,
    scans: &mut Scans,
    shrinks: &[OpenShrink],
    labels: &mut Labels,
    dues: &mut Dues,
    script: &[Statement],
    who: u8,
    session: &mut Session,
    hint: Option<u32>,
) -> Result<Turn, StoreFault>
    requires least { 1 ≤ who }
    requires most { who ≤ MOST_SESSIONS }
    requires unspent { store.old.fault ≡ None }
    requires spelled { (i : ℕ) (st : TheStatement) → slice_get script.now i ≡ Some st → IsSpelled st }
    requires built { (i : ℕ) (st : TheStatement) → slice_get script.now i ≡ Some st → IsBuilt st }
    requires short { length script.now < 2 ^ 32 - 1 }
    requires few { session.old.told ≤ length script.now }
    ensures stepped { (scripts : List (List TheStatement)) (R0 R : List Record) (sessions : ℕ → TheSession) → script_of scripts who ≡ script.now → StandsAt D.meaning scripts R0 R sessions who (stage store.old history.old scans.old shrinks.now labels.old dues.old session.old) → HasPaidStep D.meaning scripts R0 R sessions who (stage store.old history.old scans.old shrinks.now labels.old dues.old session.old) (stage store.new history.new scans.new shrinks.now labels.new dues.new session.new) result }
    ensures called { HasCalled D.meaning store.old store.new result }
    ensures grows { Grows session.old session.new history.old history.new }
{
    let records = Lsn(store.log_len());
    match begin(history, session, who, script.len(), records) {
        Err(_) => Err(StoreFault::NoMemory),
        Ok(false) => Ok(Turn::Ended),
        Ok(true) => match run_statement(
            alloc, store, history, scans, shrinks, labels, dues, script, who, session, hint,
        ) {
            Ok(()) => Ok(Turn::Made),
            Err(fault) => Err(fault),
        },
    }
}

/// One event of a session of a run; `shrinks` are the shrinks of the other sessions that are under way. The first of the blocks that
/// it owes and that calls for it is settled, and the event is over; else its next statement starts or goes on, and where it is over
/// its entry is told and its label stands for its row. `Ended` where nothing is left of it. After a fault the session is of no use
/// any more.
pub fn step_session<D: Disk>(
    alloc: Global,
    store: &mut Store<D>,
    history: &mut Newest<HistoryItem>,
    scans: &mut Scans,
    shrinks: &[OpenShrink],
    labels: &mut Labels,
    dues: &mut Dues,
    script: &[Statement],
    who: u8,
    session: &mut Session,
    hint: Option<u32>,
) -> Result<Turn, StoreFault>
    requires least { 1 ≤ who }
    requires most { who ≤ MOST_SESSIONS }
    requires unspent { store.old.fault ≡ None }
    requires spelled { (i : ℕ) (st : TheStatement) → slice_get script.now i ≡ Some st → IsSpelled st }
    requires built { (i : ℕ) (st : TheStatement) → slice_get script.now i ≡ Some st → IsBuilt st }
    requires short { length script.now < 2 ^ 32 - 1 }
    ensures stepped { (scripts : List (List TheStatement)) (R0 R : List Record) (sessions : ℕ → TheSession) → script_of scripts who ≡ script.now → StandsAt D.meaning scripts R0 R sessions who (stage store.old history.old scans.old shrinks.now labels.old dues.old session.old) → HasStepped D.meaning scripts R0 R sessions who (stage store.old history.old scans.old shrinks.now labels.old dues.old session.old) (stage store.new history.new scans.new shrinks.now labels.new dues.new session.new) result }
    ensures called { HasCalled D.meaning store.old store.new result }
    ensures grows { Grows session.old session.new history.old history.new }
{
    match dues.settle(alloc, store) {
        Err(fault) => Err(fault),
        Ok(true) => Ok(Turn::Made),
        Ok(false) => {
            if session.told > script.len() {
                return Ok(Turn::Ended);
            }
            step_paid(
                alloc, store, history, scans, shrinks, labels, dues, script, who, session, hint,
            )
        }
    }
}
