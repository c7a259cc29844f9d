// A change planned: its records, or that undo is full for it.
ghost use Rattle.std.specs.Prelude.{◌≡◌, ℕ, List, Option, None, IfOk, IfErr};
ghost use Rattle.redo_model.specs.Records.{Record};
ghost use Rattle.redo_model.specs.Model.{IsTable};
ghost use Rattle.change_laws.specs.Types.{Change as TheChange, undo_start};
ghost use Rattle.store_core.specs.Causes.{HasLooked, IsSoundFault};
ghost use Rattle.store_core.specs.Store.{IsTrue};
ghost use Rattle.row_change.specs.Acting.{MayAct};
ghost use Rattle.row_change.specs.Drafting.{ChangeIs};
ghost use Rattle.row_change.specs.Opening.{ActsBy};
ghost use Rattle.row_change.specs.Planning.{CanBeMade, PlanMeans, planned};
ghost use Rattle.row_change.specs.Spots.{HasPlace};

use crate::actor::Actor;
use crate::draft::{Additions, Change, draft, size_of};
use crate::opening::Opening;
use crate::spot::{Spot, find_spot};
use disk_model::Disk;
use redo_record::ReuseRecord;
use seg_base::{Dba, NoMemory, Sequence, TxnId, UndoAddr};
use std::alloc::Global;
use store_core::{Store, StoreFault};

/// The records of a change, or the other undo blocks with their holders where undo is full for it.
#[derive(Drop)]
pub enum Planned {
    Adds(Additions),
    Spent(Sequence<(Dba, TxnId)>),
}

/// Where undo goes first in a block that is taken into use.
pub fn undo_start(reuse: ReuseRecord) -> UndoAddr
    ensures { result ≡ undo_start reuse }
{
    UndoAddr {
        block: reuse.block,
        seq: reuse.sequence,
        nth: 0,
    }
}

fn plan_at(alloc: Global, actor: &Actor, change: Change, spot: Spot) -> Result<Planned, NoMemory>
    requires { HasPlace spot }
    ensures { IfOk result (λ p. p ≡ planned actor.now change spot) }
{
    match spot {
        Spot::Here(undo) => {
            let adds = draft(alloc, actor, change, undo, None)?;
            Ok(Planned::Adds(adds))
        }
        Spot::Next(reuse) => {
            let adds = draft(alloc, actor, change, undo_start(reuse), Some(reuse))?;
            Ok(Planned::Adds(adds))
        }
        Spot::Full(holders) => Ok(Planned::Spent(holders)),
    }
}

/// Finds where the undo of a change goes, and drafts its records.
pub fn plan<D: Disk>(
    alloc: Global,
    store: &mut Store<D>,
    opening: &Opening,
    change: Change,
) -> Result<Planned, StoreFault>
    requires unspent { store.old.fault ≡ None }
    ensures looked { HasLooked D.meaning store.old store.new result }
    ensures says { (R : List Record) (who : ℕ) (own : Option ℕ) (c : TheChange) → IsTrue D.meaning R store.old → MayAct R who own → ActsBy R who own opening.now → ChangeIs R own change c → CanBeMade store.old.shape R own c → IfOk result (PlanMeans store.old.shape R who own c) }
    ensures sound { (R : List Record) (o who : ℕ) (own : Option ℕ) → IsTrue D.meaning R store.old → ActsBy R who own opening.now → IsTable R o → IfErr result IsSoundFault }
{
    let need = size_of(&change.fills);
    let spot = match find_spot(alloc, store, &opening.table, need) {
        Ok(spot) => spot,
        Err(fault) => return Err(fault),
    };
    match plan_at(alloc, &opening.actor, change, spot) {
        Ok(planned) => Ok(planned),
        Err(_) => Err(StoreFault::NoMemory),
    }
}
