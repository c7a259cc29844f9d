// A run over the store and the sink that it was lent.
ghost use Rattle.std.specs.Prelude.{◌≡◌, ℕ, List, length, Option, None, IfOk};
ghost use Rattle.redo_model.specs.Records.{Record};
ghost use Rattle.session_step.specs.declared.forms.TheConstants.{BUILT_FORMS};
ghost use Rattle.script_text.specs.Spelled.{IsScript};
ghost use Rattle.store_core.specs.Store.{Held};
ghost use Rattle.session_world.specs.Calling.{HasServed};
ghost use Rattle.session_world.specs.Between.{IsFresh, IsIdle, IsSoFar, TakesTurn};
ghost use Rattle.session_world.specs.Whole.{HasRunTurns};
ghost use Rattle.session_world.specs.Lent.{fault_in};

use crate::events::{Run, step_run};
use crate::fault::RunFault;
use crate::running::close_run;
use disk_model::Disk;
use history_model::HistoryItem;
use script_text::Scripts;
use seg_base::{Newest, NoMemory};
use session_step::Turn;
use std::alloc::Global;
use std::marker::Model;
use store_core::Store;
use text_port::Sink;

/// What a world begins with: a script of which no session has started.
#[derive(Drop)]
pub struct Parts {
    pub alloc: Global,
    pub run: Run,
    pub scripts: Scripts,
}

impl Parts {
    pub fn new(alloc: Global, scripts: Scripts) -> Result<Parts, NoMemory>
        ensures fresh { IfOk result (λ parts. IsFresh (length scripts.sessions) parts.run) }
        ensures kept { IfOk result (λ parts. parts.scripts ≡ scripts) }
    {
        let run = Run::new(alloc, scripts.sessions().len())?;
        Ok(Parts {
            alloc,
            run,
            scripts,
        })
    }
}

/// One event of a session, or none where it has ended.
fn step_parts<D: Disk, K: Sink>(
    store: &mut Store<D>,
    parts: &mut Parts,
    who: u8,
    hint: Option<u32>,
    sink: &mut K,
) -> Result<Turn, RunFault>
    requires unspent { store.old.fault ≡ None }
    requires built { IsScript BUILT_FORMS parts.old.scripts }
    ensures turns { (R0 R : List Record) (called : List ℕ) (first : Held D) (before : Option (List ℕ)) → IsSoFar D.meaning parts.old.scripts.sessions R0 R called first store.old before (K.written sink.old) parts.old.run → TakesTurn D.meaning parts.old.scripts.sessions R0 R called who first store.new before (K.written sink.new) parts.old.run parts.new.run result }
    ensures served { HasServed D.meaning store.old store.new (K.fault_count sink.old) (K.fault_count sink.new) result }
    ensures kept { parts.new.scripts ≡ parts.old.scripts }
{
    step_run(
        parts.alloc,
        store,
        &mut parts.run,
        parts.scripts.sessions(),
        who,
        hint,
        sink,
    )
}

fn fault_of<T>(outcome: &Result<T, RunFault>) -> Option<RunFault>
    ensures { result ≡ fault_in outcome.now }
{
    match outcome {
        Ok(_) => None,
        Err(fault) => Some(*fault),
    }
}

/// A run with the store and the sink over which it goes. After a fault it is spent.
#[derive(Drop)]
pub struct World<'a, D: Disk, K: Sink> {
    store: Store<'a, D>,
    parts: Parts,
    sink: &'a mut K,
    fault: Option<RunFault>,
}

impl<'a, D: Disk, K: Sink> Model for World<'a, D, K> {
    ghost use Rattle.session_world.specs.Lent.{Lent, IsLent};

    ghost Value = { Lent D K };

    ghost view = { λ w. record { store = w.store; run = w.parts.run; script = w.parts.scripts; sink = w.sink.now; sink_loan = w.sink.ghost_name; fault = w.fault } };

    ghost invariant = { λ w. IsLent (record { store = w.store; run = w.parts.run; script = w.parts.scripts; sink = w.sink.now; sink_loan = w.sink.ghost_name; fault = w.fault }) };
}

impl<'a, D: Disk, K: Sink> World<'a, D, K> {
    /// The run over a store and a sink, of which no session has started.
    pub fn over(store: Store<'a, D>, parts: Parts, sink: &'a mut K) -> World<'a, D, K>
        requires unspent { store.fault ≡ None }
        requires built { IsScript BUILT_FORMS parts.scripts }
        ensures store { result.store ≡ store.entry }
        ensures run { result.run ≡ parts.run }
        ensures script { result.script ≡ parts.scripts }
        ensures sink { result.sink ≡ sink.old }
        ensures loan { result.sink_loan ≡ sink.entry.ghost_name }
        ensures fault { result.fault ≡ None }
    {
        World {
            store,
            parts,
            sink,
            fault: None,
        }
    }

    /// The store and the sink, which the world no longer holds.
    pub fn into_lent(self) -> (Store<'a, D>, &'a mut K)
        ensures store { result.0 ≡ self.entry.store }
        ensures loan { result.1.ghost_name ≡ self.entry.sink_loan }
        ensures sink { result.1.now ≡ self.entry.sink }
    {
        let World {
            store,
            parts: _,
            sink,
            fault: _,
        } = self;
        (store, sink)
    }

    /// The fault that spent the world.
    pub fn fault(&self) -> Option<RunFault>
        ensures { result ≡ self.now.fault }
    {
        self.fault
    }

    /// The starts and the entries so far.
    pub fn history(&self) -> &Newest<HistoryItem>
        ensures { result.now ≡ self.now.run.history }
    {
        &self.parts.run.history
    }

    /// One event of a session, under a hint or none. `Ended` where the session has ended, or the script has none of this number, and
    /// then nothing is done. After a fault the world is spent.
    pub fn step(&mut self, who: u8, hint: Option<u32>) -> Result<Turn, RunFault>
        requires { self.old.fault ≡ None }
        ensures turns { (R0 R : List Record) (called : List ℕ) (first : Held D) (before : Option (List ℕ)) → IsSoFar D.meaning self.old.script.sessions R0 R called first self.old.store before (K.written self.old.sink) self.old.run → TakesTurn D.meaning self.old.script.sessions R0 R called who first self.new.store before (K.written self.new.sink) self.old.run self.new.run result }
        ensures served { HasServed D.meaning self.old.store self.new.store (K.fault_count self.old.sink) (K.fault_count self.new.sink) result }
        ensures spent { self.new.fault ≡ fault_in result }
        ensures script { self.new.script ≡ self.old.script }
        ensures loan { self.new.sink_loan ≡ self.old.sink_loan }
    {
        let stepped = step_parts(&mut self.store, &mut self.parts, who, hint, self.sink);
        self.fault = fault_of(&stepped);
        stepped
    }

    /// Makes all records stable, once each session has ended. After a fault the world is spent.
    pub fn finish(&mut self) -> Result<(), RunFault>
        requires { self.old.fault ≡ None }
        ensures closed { (R0 : List Record) (called : List ℕ) (first : Held D) (before : Option (List ℕ)) → IsIdle D.meaning self.old.script.sessions R0 called first self.old.store before (K.written self.old.sink) self.old.run → HasRunTurns D.meaning self.old.script.sessions R0 called first self.new.store before (K.written self.new.sink) result }
        ensures served { HasServed D.meaning self.old.store self.new.store (K.fault_count self.old.sink) (K.fault_count self.new.sink) result }
        ensures spent { self.new.fault ≡ fault_in result }
        ensures script { self.new.script ≡ self.old.script }
        ensures loan { self.new.sink_loan ≡ self.old.sink_loan }
    {
        let closed = close_run(&mut self.store);
        self.fault = fault_of(&closed);
        closed
    }
}
