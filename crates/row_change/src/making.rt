// A planned change made.
ghost use Rattle.std.specs.Prelude.{◌≡◌, ℕ, List, Option, None};
ghost use Rattle.redo_model.specs.Records.{Record};
ghost use Rattle.change_laws.specs.Types.{Change, by_spot, change_size, spot_for};
ghost use Rattle.store_core.specs.Causes.{HasCause};
ghost use Rattle.store_core.specs.Store.{IsTrue, SameLoan};
ghost use Rattle.row_change.specs.Answering.{Answers, store_answer};
ghost use Rattle.row_change.specs.Planning.{PlanMeans};

use crate::adding::add_all;
use crate::answer::{ChangeFault, Done};
use crate::plan::Planned;
use disk_model::Disk;
use store_core::Store;

/// Adds the records of a planned change, or refuses it where undo is full.
pub fn make<D: Disk>(store: &mut Store<D>, planned: Planned) -> Result<Done, ChangeFault>
    requires unspent { store.old.fault ≡ None }
    ensures answers { (R : List Record) (who : ℕ) (own : Option ℕ) (c : Change) → IsTrue D.meaning R store.old → PlanMeans store.old.shape R who own c planned → Answers D.meaning R who own (by_spot c (spot_for store.old.shape R (change_size R c))) store.old store.new result }
    ensures loan { SameLoan D.meaning store.old store.new }
    ensures cause { HasCause D.meaning store.old store.new (store_answer result) }
{
    match planned {
        Planned::Spent(holders) => Err(ChangeFault::UndoFull { holders }),
        Planned::Adds(x) => match add_all(store, &x) {
            Ok(()) => Ok(x.done),
            Err(fault) => Err(ChangeFault::Store(fault)),
        },
    }
}
