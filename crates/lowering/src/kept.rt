// How many extents a table keeps.
ghost use Rattle.std.specs.Prelude.{ℕ, ◌≡◌, ◌≤◌, true, None, List, IfOk, IfErr};
ghost use Rattle.seg_words.specs.Types.{MOST_EXTENTS, is_shape};
ghost use Rattle.redo_model.specs.Records.{Record};
ghost use Rattle.store_core.specs.Causes.{HasLooked, IsSoundFault};
ghost use Rattle.lower_laws.specs.Drafts.{kept_extents};
ghost use Rattle.lowering.specs.Known.{Knows};

use crate::extent::is_vacant;
use crate::ground::Ground;
use disk_model::Disk;
use std::alloc::Global;
use store_core::{Store, StoreFault};

/// How many extents the table keeps: the first, and those up to the last one that isn't vacant. From the last one down, each is
/// looked at only while all behind it are vacant.
pub fn kept_extents<D: Disk>(
    alloc: Global,
    store: &mut Store<D>,
    ground: &Ground,
) -> Result<u16, StoreFault>
    requires shape { is_shape ground.now.shape ≡ true }
    requires few { ground.now.segment.extents ≤ MOST_EXTENTS }
    requires unspent { store.old.fault ≡ None }
    ensures looked { HasLooked D.meaning store.old store.new result }
    ensures says { (R : List Record) (o : ℕ) → Knows D.meaning R o store.old ground.now → IfOk result (λ n. n ≡ kept_extents ground.now.shape R o) }
    ensures sound { (R : List Record) (o : ℕ) → Knows D.meaning R o store.old ground.now → IfErr result IsSoundFault }
{
    let count = ground.segment.extents;
    for passed in 1..count {
        match is_vacant(alloc, store, ground, count - passed) {
            Err(fault) => return Err(fault),
            Ok(false) => return Ok(count - passed + 1),
            Ok(true) => {}
        }
    }
    Ok(1)
}
