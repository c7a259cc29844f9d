// A shrink of a table.
ghost use Rattle.std.specs.Prelude.{◌≡◌, ◌<◌, List, [], ◌∷◌, None, length, IfOk, IfErr, OnOk, OnErr};
ghost use Rattle.redo_model.specs.Records.{Record};
ghost use Rattle.redo_model.specs.Model.{HasMovement, IsTable, data_blocks};
ghost use Rattle.store_core.specs.Adding.{HasTried};
ghost use Rattle.store_core.specs.Causes.{HasLooked, IsSoundFault};
ghost use Rattle.store_core.specs.Store.{HasList, IsTrue};
ghost use Rattle.store_core.specs.declared.fault.StoreFault.TheVariants as store_faults;
ghost use Rattle.shrink_laws.specs.Cursor.{skip_of};
ghost use Rattle.shrink_move.specs.declared.fault.ShrinkFault.TheVariants as faults;
ghost use Rattle.shrink_move.specs.declared.next.Next.TheVariants as nexts;
ghost use Rattle.shrink_move.specs.declared.stepping.ShrinkStep.TheVariants as answers;
ghost use Rattle.shrink_move.specs.Known.{Knows};
ghost use Rattle.shrink_move.specs.Nexts.{NextIs};
ghost use Rattle.shrink_move.specs.Starts.{IsSoundStart, StartIs, other_session, store_part};
ghost use Rattle.shrink_move.specs.Stepping.{MayStep, StepIs, shrink_with, with_skip};

use crate::ShrinkFault;
use crate::come::Come;
use crate::ground::{Ground, read_ground};
use crate::last::last_formatted;
use crate::next::{Next, next_from};
use crate::stepping::{ShrinkStep, move_to_block, move_to_body};
use disk_model::Disk;
use history_text::Stop;
use seg_base::{Dba, Lsn, Newest, Obj, Rowid, TxnId};
use shrink_laws::Skip;
use std::alloc::Global;
use store_core::{Store, StoreFault};

/// A shrink of a table: where its cursor stands, as a position of the table, and the slots that it skipped.
#[derive(Drop)]
pub struct Shrink {
    pub obj: Obj,
    pub cursor: u32,
    pub skips: Newest<Skip>,
}

/// The session that shrinks the table, where it is another one than `who`.
fn other_session(busy: Option<u8>, who: u8) -> Option<u8>
    ensures { result ≡ other_session busy who }
{
    match busy {
        None => None,
        Some(session) => {
            if session == who {
                return None;
            }
            Some(session)
        }
    }
}

fn shrink_at(alloc: Global, obj: Obj, cursor: u32) -> Shrink
    ensures obj { result.obj ≡ obj }
    ensures cursor { result.cursor ≡ cursor }
    ensures skips { result.skips ≡ [] }
{
    Shrink {
        obj,
        cursor,
        skips: Newest::new(alloc),
    }
}

/// The skip of a slot, for an active transaction, as the records are now.
fn skip_of<D: Disk>(store: &Store<D>, at: &Rowid, txn: &TxnId) -> Skip
    ensures { (R : List Record) → HasList D.meaning R store.now → result ≡ skip_of R at.now.dba at.now.slot txn.now }
{
    Skip {
        block: at.dba,
        slot: at.slot,
        txn: *txn,
        records: Lsn(store.log_len()),
    }
}

impl Shrink {
    /// Begins a shrink of a table that is there, for the session `who`. `busy` is the session that has an open shrink of the table,
    /// if one does. The cursor stands on the last position whose block is formatted, or on 0. `MovementOff` comes exactly where row
    /// movement is off, `ShrinkBusy` exactly where it is on and `busy` is another session; `UndoFull` never. Nothing is changed.
    pub fn start<D: Disk>(
        alloc: Global,
        store: &mut Store<D>,
        obj: Obj,
        who: u8,
        busy: Option<u8>,
    ) -> Result<Shrink, ShrinkFault>
        ensures looked { HasLooked D.meaning store.old store.new (store_part result) }
        ensures starts { (R : List Record) → IsTrue D.meaning R store.old → IsTable R obj → StartIs store.old.shape R obj who busy result }
        ensures sound { (R : List Record) → IsTrue D.meaning R store.old → IsTable R obj → store.old.fault ≡ None → IsSoundStart result }
    {
        let ground = match read_ground(alloc, store, obj) {
            Ok(ground) => ground,
            Err(fault) => return Err(ShrinkFault::Store(fault)),
        };
        if !ground.segment.movement {
            return Err(ShrinkFault::MovementOff);
        }
        if let Some(session) = other_session(busy, who) {
            return Err(ShrinkFault::ShrinkBusy { session });
        }
        match last_formatted(store, &ground) {
            Ok(cursor) => Ok(shrink_at(alloc, obj, cursor)),
            Err(fault) => Err(ShrinkFault::Store(fault)),
        }
    }

    /// What the next step is. The table is there, and was lowered never since the shrink began, so that the cursor stands on one of
    /// its positions. Nothing is changed.
    pub fn next<D: Disk>(&self, alloc: Global, store: &mut Store<D>) -> Result<Next, StoreFault>
        ensures looked { HasLooked D.meaning store.old store.new result }
        ensures says { (R : List Record) → IsTrue D.meaning R store.old → IsTable R self.now.obj → IfOk result (NextIs store.old.shape R self.now.obj self.now.skips self.now.cursor) }
        ensures sound { (R : List Record) → IsTrue D.meaning R store.old → IsTable R self.now.obj → self.now.cursor < length (data_blocks store.old.shape R self.now.obj) → store.old.fault ≡ None → IfErr result IsSoundFault }
    {
        match read_ground(alloc, store, self.obj) {
            Ok(ground) => next_from(alloc, store, &ground, &self.skips, self.cursor),
            Err(fault) => Err(fault),
        }
    }

    /// Keeps a skip, and the cursor at a position. Without memory nothing is changed.
    fn keep(&mut self, skip: Skip, place: u32) -> Result<(), ShrinkFault>
        ensures ok { OnOk result (self.new ≡ shrink_with self.old.obj place (skip ∷ self.old.skips)) }
        ensures err { OnErr result (self.new ≡ self.old) }
        ensures memory { IfErr result (λ f. f ≡ faults.Store store_faults.NoMemory) }
    {
        match self.skips.push(skip) {
            Ok(()) => {
                self.cursor = place;
                Ok(())
            }
            Err(_) => Err(ShrinkFault::Store(StoreFault::NoMemory)),
        }
    }

    /// Skips a slot whose row an active transaction wrote last.
    fn skip<D: Disk>(
        &mut self,
        store: &Store<D>,
        come: &Come,
        txn: &TxnId,
    ) -> Result<ShrinkStep, ShrinkFault>
        ensures skips { (R : List Record) → HasList D.meaning R store.now → OnOk result (self.new ≡ with_skip R self.old come.now txn.now) }
        ensures answer { IfOk result (λ y. y ≡ answers.Skipped come.now.at txn.now) }
        ensures err { OnErr result (self.new ≡ self.old) }
        ensures memory { IfErr result (λ f. f ≡ faults.Store store_faults.NoMemory) }
    {
        match self.keep(skip_of(store, &come.at, txn), come.place) {
            Ok(()) => Ok(ShrinkStep::Skipped {
                at: come.at,
                txn: *txn,
            }),
            Err(fault) => Err(fault),
        }
    }

    /// Makes the body of a head the row.
    fn go_to_body<D: Disk>(
        &mut self,
        alloc: Global,
        store: &mut Store<D>,
        ground: &Ground,
        come: &Come,
        body: &Rowid,
    ) -> Result<ShrinkStep, ShrinkFault>
        requires unspent { store.old.fault ≡ None }
        ensures steps { (R : List Record) → Knows D.meaning R self.old.obj store.old ground.now → HasMovement R self.old.obj → NextIs ground.now.shape R self.old.obj self.old.skips self.old.cursor (nexts.ToBody come.now body.now) → StepIs D.meaning ground.now.shape R store.old store.new self.old self.new result }
        ensures tried { HasTried D.meaning store.old store.new (store_part result) }
        ensures err { OnErr result (self.new ≡ self.old) }
    {
        match move_to_body(alloc, store, ground, self.obj, &come.at, body) {
            Ok(blocks) => {
                self.cursor = come.place;
                Ok(ShrinkStep::Moved(blocks))
            }
            Err(fault) => Err(fault),
        }
    }

    /// Moves the row of a slot to a block.
    fn go_to_block<D: Disk>(
        &mut self,
        alloc: Global,
        store: &mut Store<D>,
        ground: &Ground,
        come: &Come,
        target: Dba,
    ) -> Result<ShrinkStep, ShrinkFault>
        requires unspent { store.old.fault ≡ None }
        ensures steps { (R : List Record) → Knows D.meaning R self.old.obj store.old ground.now → HasMovement R self.old.obj → NextIs ground.now.shape R self.old.obj self.old.skips self.old.cursor (nexts.ToBlock come.now target) → StepIs D.meaning ground.now.shape R store.old store.new self.old self.new result }
        ensures tried { HasTried D.meaning store.old store.new (store_part result) }
        ensures err { OnErr result (self.new ≡ self.old) }
    {
        match move_to_block(alloc, store, ground, self.obj, &come.at, target) {
            Ok(blocks) => {
                self.cursor = come.place;
                Ok(ShrinkStep::Moved(blocks))
            }
            Err(fault) => Err(fault),
        }
    }

    /// Takes the next step.
    fn take<D: Disk>(
        &mut self,
        alloc: Global,
        store: &mut Store<D>,
        ground: &Ground,
        next: &Next,
    ) -> Result<ShrinkStep, ShrinkFault>
        requires unspent { store.old.fault ≡ None }
        ensures steps { (R : List Record) → Knows D.meaning R self.old.obj store.old ground.now → HasMovement R self.old.obj → NextIs ground.now.shape R self.old.obj self.old.skips self.old.cursor next.now → StepIs D.meaning ground.now.shape R store.old store.new self.old self.new result }
        ensures tried { HasTried D.meaning store.old store.new (store_part result) }
        ensures err { OnErr result (self.new ≡ self.old) }
    {
        match next {
            Next::Bottom => Ok(ShrinkStep::Stopped(Stop::Bottom)),
            Next::NoFit(come) => Ok(ShrinkStep::Stopped(Stop::NoFit(come.at))),
            Next::Skips(come, txn) => self.skip(&*store, come, txn),
            Next::ToBody(come, body) => self.go_to_body(alloc, store, ground, come, body),
            Next::ToBlock(come, target) => self.go_to_block(alloc, store, ground, come, *target),
        }
    }

    /// Takes one step: moves the row of the slot to which the cursor comes, by one Move after a Reuse where its undo asks for one, or
    /// skips the slot, or stops and stays as it was. The table is there and its row movement on, and it was lowered never since the
    /// shrink began. `UndoFull` comes exactly where the row that is to be moved has no room for its undo. A refusal and a fault add
    /// nothing, and leave the shrink as it was.
    pub fn step<D: Disk>(
        &mut self,
        alloc: Global,
        store: &mut Store<D>,
    ) -> Result<ShrinkStep, ShrinkFault>
        ensures steps { (R : List Record) → IsTrue D.meaning R store.old → MayStep store.old.shape R self.old → StepIs D.meaning store.old.shape R store.old store.new self.old self.new result }
        ensures tried { HasTried D.meaning store.old store.new (store_part result) }
        ensures err { OnErr result (self.new ≡ self.old) }
    {
        let ground = match read_ground(alloc, store, self.obj) {
            Ok(ground) => ground,
            Err(fault) => return Err(ShrinkFault::Store(fault)),
        };
        match next_from(alloc, store, &ground, &self.skips, self.cursor) {
            Ok(next) => self.take(alloc, store, &ground, &next),
            Err(fault) => Err(ShrinkFault::Store(fault)),
        }
    }
}
