// One block of a repair.
ghost use Rattle.std.specs.Prelude.{◌≡◌, None, List};
ghost use Rattle.redo_model.specs.Records.{Record};
ghost use Rattle.space_usage.specs.Settles.{HasBlock};
ghost use Rattle.session_core.specs.Acting.{HasCalled};
ghost use Rattle.session_core.specs.Repairing.{HasRepaired};

use disk_model::Disk;
use history_model::Settled;
use seg_base::{Dba, Lsn, Obj};
use space_usage::settle;
use std::alloc::Global;
use store_core::{Store, StoreFault};

/// A block that a repair settled, with the numbers of records before and after it, and whether its kept class changed.
#[derive(Debug, Drop)]
pub struct Repaired {
    pub settled: Settled,
    pub changed: bool,
}

/// Settles the next block of a repair, a formatted one of its table under the high mark.
pub fn repair_block<D: Disk>(
    alloc: Global,
    store: &mut Store<D>,
    obj: Obj,
    dba: Dba,
) -> Result<Repaired, StoreFault>
    requires unspent { store.old.fault ≡ None }
    ensures repaired { (R : List Record) → HasBlock D.meaning R obj dba store.old → HasRepaired D.meaning R obj dba store.old store.new result }
    ensures called { HasCalled D.meaning store.old store.new result }
{
    let before = store.log_len();
    match settle(alloc, store, obj, dba) {
        Ok(changed) => Ok(Repaired {
            settled: Settled {
                block: dba,
                before: Lsn(before),
                after: Lsn(store.log_len()),
            },
            changed,
        }),
        Err(fault) => Err(fault),
    }
}
