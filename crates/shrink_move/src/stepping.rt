// The row of a slot moved.
ghost use Rattle.std.specs.Prelude.{◌≡◌, ℕ, List, None, IfOk, IfErr};
ghost use Rattle.redo_model.specs.Records.{Record};
ghost use Rattle.redo_model.specs.Model.{HasMovement, image};
ghost use Rattle.change_laws.specs.Types.{Fill, fills_size, spot_for};
ghost use Rattle.store_core.specs.Adding.{HasTried};
ghost use Rattle.shrink_laws.specs.declared.skip.Skip.{Skip};
ghost use Rattle.shrink_move.specs.Drafting.{IsMoving};
ghost use Rattle.shrink_move.specs.Known.{Knows};
ghost use Rattle.shrink_move.specs.MoveLaws.{block_fills, body_fills};
ghost use Rattle.shrink_move.specs.Moves.{MovedAt};
ghost use Rattle.shrink_move.specs.Nexts.{GoesToBlock, GoesToBody};
ghost use Rattle.shrink_move.specs.Starts.{store_part};
ghost use Rattle.shrink_move.specs.Stepping.{IsMoved};

use crate::ShrinkFault;
use crate::draft::Moving;
use crate::filling::{to_block, to_body};
use crate::ground::Ground;
use crate::plan::{make, plan};
use disk_model::Disk;
use history_text::Stop;
use seg_base::{Dba, Obj, Rowid, Sequence, TxnId};
use std::alloc::Global;
use store_core::Store;

/// What a step of a shrink did.
#[derive(Debug, Drop)]
pub enum ShrinkStep {
    /// A row was moved; its Move changed these row blocks, in the order head, body, target.
    Moved(Sequence<Dba>),
    /// The row of this slot was last written by this active transaction.
    Skipped { at: Rowid, txn: TxnId },
    /// Nothing is left to move, or no block takes the row of a slot.
    Stopped(Stop),
}

/// Moves a row, by what becomes of its slots.
fn carry_out<D: Disk>(
    alloc: Global,
    store: &mut Store<D>,
    ground: &Ground,
    obj: Obj,
    moving: Moving,
) -> Result<Sequence<Dba>, ShrinkFault>
    requires unspent { store.old.fault ≡ None }
    ensures moves { (R : List Record) (o n : ℕ) (gs : List Fill) → Knows D.meaning R o store.old ground.now → IsMoving R moving n gs → MovedAt ground.now.shape R obj n gs (spot_for ground.now.shape R (fills_size R gs)) → IsMoved D.meaning ground.now.shape R obj n gs store.old store.new result }
    ensures tried { HasTried D.meaning store.old store.new (store_part result) }
{
    match plan(alloc, store, ground, obj, moving) {
        Ok(planned) => make(store, planned),
        Err(fault) => Err(ShrinkFault::Store(fault)),
    }
}

/// Moves the row of a slot to a block, and empties its head and its old body.
pub fn move_to_block<D: Disk>(
    alloc: Global,
    store: &mut Store<D>,
    ground: &Ground,
    obj: Obj,
    at: &Rowid,
    target: Dba,
) -> Result<Sequence<Dba>, ShrinkFault>
    requires unspent { store.old.fault ≡ None }
    ensures moves { (R : List Record) (cursor place : ℕ) (skips : List Skip) → Knows D.meaning R obj store.old ground.now → HasMovement R obj → GoesToBlock ground.now.shape R obj skips cursor place at.now.dba at.now.slot target → IsMoved D.meaning ground.now.shape R obj (image R at.now.dba at.now.slot).row (block_fills R at.now.dba at.now.slot target) store.old store.new result }
    ensures tried { HasTried D.meaning store.old store.new (store_part result) }
{
    match to_block(alloc, store, ground, at, target) {
        Ok(moving) => carry_out(alloc, store, ground, obj, moving),
        Err(fault) => Err(ShrinkFault::Store(fault)),
    }
}

/// Makes the body of a row the row, and empties its head.
pub fn move_to_body<D: Disk>(
    alloc: Global,
    store: &mut Store<D>,
    ground: &Ground,
    obj: Obj,
    at: &Rowid,
    body: &Rowid,
) -> Result<Sequence<Dba>, ShrinkFault>
    requires unspent { store.old.fault ≡ None }
    ensures moves { (R : List Record) (cursor place : ℕ) (skips : List Skip) → Knows D.meaning R obj store.old ground.now → HasMovement R obj → GoesToBody ground.now.shape R obj skips cursor place at.now.dba at.now.slot body.now → IsMoved D.meaning ground.now.shape R obj (image R at.now.dba at.now.slot).row (body_fills R at.now.dba at.now.slot body.now) store.old store.new result }
    ensures tried { HasTried D.meaning store.old store.new (store_part result) }
{
    match to_body(alloc, store, ground, at, body) {
        Ok(moving) => carry_out(alloc, store, ground, obj, moving),
        Err(fault) => Err(ShrinkFault::Store(fault)),
    }
}
