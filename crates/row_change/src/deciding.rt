// What comes of an update or a delete, and how it is carried out.
ghost use Rattle.std.specs.Prelude.{◌≡◌, ℕ, List, Option, None, IfOk, IfErr};
ghost use Rattle.redo_model.specs.Records.{Record};
ghost use Rattle.redo_model.specs.Model.{IsTable};
ghost use Rattle.change_laws.specs.Types.{Answer, Change as TheChange, by_spot, change_size, spot_for};
ghost use Rattle.store_core.specs.Causes.{HasCause, HasLooked, IsSoundFault};
ghost use Rattle.store_core.specs.Store.{IsTrue, SameLoan};
ghost use Rattle.row_change.specs.Acting.{MayAct};
ghost use Rattle.row_change.specs.Answering.{Answers, store_answer};
ghost use Rattle.row_change.specs.Deciding.{DecisionMeans};
ghost use Rattle.row_change.specs.Drafting.{ChangeIs};
ghost use Rattle.row_change.specs.Opening.{ActsBy};
ghost use Rattle.row_change.specs.Planning.{CanBeMade};

use crate::answer::{ChangeFault, Done};
use crate::draft::Change;
use crate::making::make;
use crate::opening::Opening;
use crate::plan::{Planned, plan};
use disk_model::Disk;
use seg_base::{Scn, Sequence, TxnId};
use std::alloc::Global;
use store_core::{Store, StoreFault};

/// A change that is planned, or why it isn't made.
#[derive(Drop)]
pub enum Decision {
    Makes(Planned),
    Changed(Scn),
    Busy(TxnId),
    NoSlot(Sequence<TxnId>),
    NeedsBlock(u16),
}

/// Decides for a change that has all it needs but its undo.
pub fn decide<D: Disk>(
    alloc: Global,
    store: &mut Store<D>,
    opening: &Opening,
    change: Change,
) -> Result<Decision, StoreFault>
    requires unspent { store.old.fault ≡ None }
    ensures looked { HasLooked D.meaning store.old store.new result }
    ensures says { (R : List Record) (who : ℕ) (own : Option ℕ) (c : TheChange) → IsTrue D.meaning R store.old → MayAct R who own → ActsBy R who own opening.now → ChangeIs R own change c → CanBeMade store.old.shape R own c → IfOk result (DecisionMeans store.old.shape R who own (by_spot c (spot_for store.old.shape R (change_size R c)))) }
    ensures sound { (R : List Record) (o who : ℕ) (own : Option ℕ) → IsTrue D.meaning R store.old → ActsBy R who own opening.now → IsTable R o → IfErr result IsSoundFault }
{
    match plan(alloc, store, opening, change) {
        Ok(planned) => Ok(Decision::Makes(planned)),
        Err(fault) => Err(fault),
    }
}

/// Adds the records of a change, or says why it isn't made.
pub fn carry_out<D: Disk>(store: &mut Store<D>, decision: Decision) -> Result<Done, ChangeFault>
    requires unspent { store.old.fault ≡ None }
    ensures answers { (R : List Record) (who : ℕ) (own : Option ℕ) (a : Answer) → IsTrue D.meaning R store.old → DecisionMeans store.old.shape R who own a decision → Answers D.meaning R who own a store.old store.new result }
    ensures loan { SameLoan D.meaning store.old store.new }
    ensures cause { HasCause D.meaning store.old store.new (store_answer result) }
{
    match decision {
        Decision::Makes(planned) => make(store, planned),
        Decision::Changed(commits) => Err(ChangeFault::Changed { commits }),
        Decision::Busy(txn) => Err(ChangeFault::Busy { txn }),
        Decision::NoSlot(txns) => Err(ChangeFault::NoSlot { txns }),
        Decision::NeedsBlock(len) => Err(ChangeFault::NeedsBlock { len }),
    }
}
