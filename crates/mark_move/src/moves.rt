// The calls that change tables and marks.
ghost use Rattle.std.specs.Prelude.{◌≡◌, ◌∷◌, List, Some};
ghost use Rattle.redo_model.specs.Records.{Movement as MovementOf, Record};
ghost use Rattle.redo_model.specs.Model.{IsTable};
ghost use Rattle.mark_laws.specs.Drafts.{drafted_movement, mark_record};
ghost use Rattle.mark_laws.specs.Movements.{next_mark};
ghost use Rattle.store_core.specs.Adding.{Adds, HasTried};
ghost use Rattle.store_core.specs.Store.{IsTrue};

use crate::adding::add;
use crate::draft_movement;
use crate::recording::mark_record_of;
use disk_model::Disk;
use mark_laws::MarkStep;
use redo_record::Record;
use seg_base::Obj;
use store_core::{Store, StoreFault};
use store_read::read_segment;

/// Turns the row movement of a table on or off, by one record. The table is there.
pub fn movement<D: Disk>(store: &mut Store<D>, obj: Obj, on: bool) -> Result<(), StoreFault>
    ensures adds { (R : List Record) → IsTrue D.meaning R store.old → IsTable R obj → Adds D.meaning R (MovementOf (drafted_movement store.old.shape R obj on) ∷ R) store.old store.new result }
    ensures tried { HasTried D.meaning store.old store.new result }
{
    match read_segment(store, obj) {
        Ok(segment) => add(store, &Record::Movement(draft_movement(&segment, on))),
        Err(fault) => Err(fault),
    }
}

/// Moves the marks of a table, by one record. The table is there, and this is the next movement of its marks.
pub fn step<D: Disk>(store: &mut Store<D>, obj: Obj, step: MarkStep) -> Result<(), StoreFault>
    ensures adds { (R : List Record) → IsTrue D.meaning R store.old → IsTable R obj → next_mark store.old.shape R obj ≡ Some step → Adds D.meaning R (mark_record store.old.shape R obj step ∷ R) store.old store.new result }
    ensures tried { HasTried D.meaning store.old store.new result }
{
    match mark_record_of(store, obj, step) {
        Ok(rec) => add(store, &rec),
        Err(fault) => Err(fault),
    }
}
