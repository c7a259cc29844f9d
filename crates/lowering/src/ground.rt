// What a lowering knows of its table before it looks at blocks.
ghost use Rattle.std.specs.Prelude.{◌≡◌, ◌≤◌, true, None, List, IfOk, IfErr};
ghost use Rattle.seg_words.specs.Types.{MOST_EXTENTS, is_shape};
ghost use Rattle.redo_model.specs.Records.{Record};
ghost use Rattle.redo_model.specs.Model.{IsTable};
ghost use Rattle.store_core.specs.Causes.{HasLooked, IsSoundFault};
ghost use Rattle.store_core.specs.Store.{IsTrue};
ghost use Rattle.lowering.specs.Known.{Knows};

use disk_model::Disk;
use seg_base::{CATALOGUE_BLOCK, Dba, Obj, Shape};
use segment_read::Segment;
use std::alloc::Global;
use store_core::{Store, StoreFault};
use store_read::read_segment;
use txn_block::TxnBlock;

/// The store's shape, the segment of the table, and a copy of the transaction table.
#[derive(Drop)]
pub struct Ground {
    pub shape: Shape,
    pub segment: Segment,
    pub table: TxnBlock,
}

/// What is known of a table that is there.
pub fn read_ground<D: Disk>(
    alloc: Global,
    store: &mut Store<D>,
    obj: Obj,
) -> Result<Ground, StoreFault>
    ensures looked { HasLooked D.meaning store.old store.new result }
    ensures says { (R : List Record) → IsTrue D.meaning R store.old → IsTable R obj → IfOk result (Knows D.meaning R obj store.new) }
    ensures sound { (R : List Record) → IsTrue D.meaning R store.old → IsTable R obj → store.old.fault ≡ None → IfErr result IsSoundFault }
    ensures shape { IfOk result (λ g. is_shape g.shape ≡ true) }
    ensures most { IfOk result (λ g. g.segment.extents ≤ MOST_EXTENTS) }
{
    let shape = store.shape();
    if !shape.is_within_limits() {
        return Err(store.refuse(Dba(CATALOGUE_BLOCK)));
    }
    let segment = match read_segment(store, obj) {
        Ok(segment) => segment,
        Err(fault) => return Err(fault),
    };
    match store.copy_table(alloc) {
        Ok(table) => Ok(Ground {
            shape,
            segment,
            table,
        }),
        Err(fault) => Err(fault),
    }
}
