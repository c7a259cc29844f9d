// Whether a block was released since a statement began.
ghost use Rattle.std.specs.Prelude.{◌≡◌, None, List, length, IfOk, IfErr};
ghost use Rattle.redo_model.specs.Records.{Record};
ghost use Rattle.redo_model.specs.Model.{Extends, IsRowBlock, IsTable};
ghost use Rattle.scan_laws.specs.Staying.{is_released_since};
ghost use Rattle.store_core.specs.Causes.{HasLooked, IsSoundFault};
ghost use Rattle.store_core.specs.Store.{IsTrue};
ghost use Rattle.session_core.specs.RepairEvents.{is_later};

use disk_model::Disk;
use row_change::incarnation_of;
use seg_base::{Dba, Lsn, Obj};
use std::alloc::Global;
use store_core::{Store, StoreFault};

/// Whether an extent is newer than so many records, or there is none.
fn is_later(records: Lsn, born: Option<Lsn>) -> bool
    ensures { result ≡ is_later records born }
{
    match born {
        Some(born) => records.0 < born.0,
        None => true,
    }
}

/// Whether a block was released that was a formatted data block of its table under the high mark when there were so many records.
/// One that was released and taken again counts as released: its extent is another one.
pub fn is_released<D: Disk>(
    alloc: Global,
    store: &mut Store<D>,
    obj: Obj,
    dba: Dba,
    records: Lsn,
) -> Result<bool, StoreFault>
    ensures looked { HasLooked D.meaning store.old store.new result }
    ensures says { (Q R : List Record) → IsTrue D.meaning R store.old → Extends Q R → records ≡ length Q → IsTable Q obj → IsRowBlock store.old.shape Q obj dba → IfOk result (λ y. y ≡ is_released_since store.old.shape (length Q) R obj dba) }
    ensures sound { (R : List Record) → IsTrue D.meaning R store.old → IsTable R obj → store.old.fault ≡ None → IfErr result IsSoundFault }
{
    match incarnation_of(alloc, store, obj, dba) {
        Ok(born) => Ok(is_later(records, born)),
        Err(fault) => Err(fault),
    }
}
