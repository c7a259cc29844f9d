// A move planned: what it adds, or that undo is full for it.
ghost use Rattle.std.specs.Prelude.{◌≡◌, ℕ, suc, ◌-◌, ◌≤◌, ◌^◌, List, None, IfOk, IfErr, IfSome, IfNone};
ghost use Rattle.redo_model.specs.Records.{Record};
ghost use Rattle.redo_model.specs.Model.{IsTable, commit_count};
ghost use Rattle.change_laws.specs.Types.{Fill, fills_size, spot_for};
ghost use Rattle.row_change.specs.Spots.{HasPlace};
ghost use Rattle.store_core.specs.Adding.{HasTried};
ghost use Rattle.store_core.specs.Causes.{HasLooked, IsSoundFault};
ghost use Rattle.store_core.specs.Store.{IsTrue};
ghost use Rattle.shrink_move.specs.Drafting.{IsMoving, PlanMade, PlanMeans, planned};
ghost use Rattle.shrink_move.specs.Known.{Knows};
ghost use Rattle.shrink_move.specs.Moves.{MovedAt};
ghost use Rattle.shrink_move.specs.Starts.{store_part};
ghost use Rattle.shrink_move.specs.Stepping.{IsMoved};

use crate::ShrinkFault;
use crate::draft::{Addition, Moving, draft, size_of};
use crate::ground::Ground;
use disk_model::Disk;
use row_change::{Spot, add_change, find_spot, next_number, undo_start};
use seg_base::{Dba, NoMemory, Obj, Scn, Sequence, TXN_TABLE_BLOCK, TxnId};
use std::alloc::Global;
use store_core::{Store, StoreFault};

/// What a move adds, or the other undo blocks with their holders where undo is full for it.
#[derive(Drop)]
pub enum Planned {
    Adds(Addition),
    Spent(Sequence<(Dba, TxnId)>),
}

fn commit_after(commits: Scn) -> Option<Scn>
    ensures next { IfSome result (λ n. n ≡ suc commits) }
    ensures greatest { IfNone result (2 ^ 64 - 1 ≤ commits) }
{
    match next_number(commits.0) {
        Some(number) => Some(Scn(number)),
        None => None,
    }
}

/// The number of the next commit.
fn next_commit<D: Disk>(store: &mut Store<D>) -> Result<Scn, StoreFault>
    requires unspent { store.old.fault ≡ None }
    ensures looked { HasLooked D.meaning store.old store.new result }
    ensures says { (R : List Record) → IsTrue D.meaning R store.old → IfOk result (λ n. n ≡ suc (commit_count R)) }
    ensures sound { (R : List Record) (o : ℕ) → IsTrue D.meaning R store.old → IsTable R o → IfErr result IsSoundFault }
{
    let commits = store.commits();
    match commit_after(commits) {
        Some(number) => Ok(number),
        None => Err(store.refuse(Dba(TXN_TABLE_BLOCK))),
    }
}

fn plan_at(
    alloc: Global,
    obj: Obj,
    number: Scn,
    moving: Moving,
    spot: Spot,
) -> Result<Planned, NoMemory>
    requires { HasPlace spot }
    ensures { IfOk result (λ p. p ≡ planned obj number moving spot) }
{
    match spot {
        Spot::Here(undo) => {
            let adds = draft(alloc, obj, number, moving, undo, None)?;
            Ok(Planned::Adds(adds))
        }
        Spot::Next(reuse) => {
            let adds = draft(alloc, obj, number, moving, undo_start(reuse), Some(reuse))?;
            Ok(Planned::Adds(adds))
        }
        Spot::Full(holders) => Ok(Planned::Spent(holders)),
    }
}

/// Finds where the undo of a move goes, and drafts what it adds.
pub fn plan<D: Disk>(
    alloc: Global,
    store: &mut Store<D>,
    ground: &Ground,
    obj: Obj,
    moving: Moving,
) -> Result<Planned, StoreFault>
    requires unspent { store.old.fault ≡ None }
    ensures looked { HasLooked D.meaning store.old store.new result }
    ensures says { (R : List Record) (o n : ℕ) (gs : List Fill) → Knows D.meaning R o store.old ground.now → IsMoving R moving n gs → MovedAt ground.now.shape R obj n gs (spot_for ground.now.shape R (fills_size R gs)) → IfOk result (PlanMeans ground.now.shape R obj n gs) }
    ensures sound { (R : List Record) (o : ℕ) → Knows D.meaning R o store.old ground.now → IfErr result IsSoundFault }
{
    let number = match next_commit(store) {
        Ok(number) => number,
        Err(fault) => return Err(fault),
    };
    let need = size_of(&moving.fills);
    let spot = match find_spot(alloc, store, &ground.table, need) {
        Ok(spot) => spot,
        Err(fault) => return Err(fault),
    };
    match plan_at(alloc, obj, number, moving, spot) {
        Ok(planned) => Ok(planned),
        Err(_) => Err(StoreFault::NoMemory),
    }
}

/// Adds what a move adds, and answers the row blocks that it changed.
fn add_move<D: Disk>(store: &mut Store<D>, addition: Addition) -> Result<Sequence<Dba>, ShrinkFault>
    ensures moves { (R : List Record) (o n : ℕ) (gs : List Fill) → IsTrue D.meaning R store.old → PlanMade store.old.shape R o n gs addition → IsMoved D.meaning store.old.shape R o n gs store.old store.new result }
    ensures tried { HasTried D.meaning store.old store.new (store_part result) }
{
    let Addition {
        reuse,
        moved,
        blocks,
    } = addition;
    match add_change(store, reuse, &moved) {
        Ok(()) => Ok(blocks),
        Err(fault) => Err(ShrinkFault::Store(fault)),
    }
}

/// Makes a planned move, or refuses it where undo is full.
pub fn make<D: Disk>(store: &mut Store<D>, planned: Planned) -> Result<Sequence<Dba>, ShrinkFault>
    requires unspent { store.old.fault ≡ None }
    ensures moves { (R : List Record) (o n : ℕ) (gs : List Fill) → IsTrue D.meaning R store.old → PlanMeans store.old.shape R o n gs planned → IsMoved D.meaning store.old.shape R o n gs store.old store.new result }
    ensures tried { HasTried D.meaning store.old store.new (store_part result) }
{
    match planned {
        Planned::Adds(addition) => add_move(store, addition),
        Planned::Spent(holders) => Err(ShrinkFault::UndoFull { holders }),
    }
}
