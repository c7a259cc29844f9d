// What a search knows before it looks at blocks.
ghost use Rattle.std.specs.Prelude.{◌≡◌, ◌≤◌, true, None, List, IfOk, IfErr};
ghost use Rattle.seg_words.specs.Types.{MOST_EXTENTS, MOST_PCTFREE, is_shape};
ghost use Rattle.redo_model.specs.Records.{Record};
ghost use Rattle.redo_model.specs.Model.{IsTable};
ghost use Rattle.store_core.specs.Causes.{HasLooked, IsSoundFault};
ghost use Rattle.store_core.specs.Store.{IsTrue};
ghost use Rattle.free_search.specs.Looks.{IsLook};

use disk_model::Disk;
use seg_base::{Dba, Obj, Shape, TXN_TABLE_BLOCK, Taker};
use segment_read::Segment;
use std::alloc::Global;
use store_core::{Store, StoreFault};
use store_read::read_segment;
use txn_block::TxnBlock;

/// A row for which a block is searched: its length, who puts it there, and the blocks that are left out.
#[derive(Clone, Copy, Debug, Drop)]
pub struct Row {
    pub len: u16,
    pub taker: Taker,
    pub but: [Option<Dba>; 2],
}

/// What a formatted block is searched for.
#[derive(Clone, Copy, Debug, PartialEq, Eq, Drop)]
pub enum Wanted {
    /// It takes the row.
    Usable,
    /// It takes the row, and its kept class is one from Fs1 to Fs4.
    Good,
}

/// The table, the transactions and the row of a search.
#[derive(Drop)]
pub struct Look {
    pub shape: Shape,
    pub segment: Segment,
    pub table: TxnBlock,
    pub row: Row,
}

/// What a search for a block of a table knows of it. The table is there.
pub fn look_at<D: Disk>(
    alloc: Global,
    store: &mut Store<D>,
    obj: Obj,
    row: Row,
) -> Result<Look, StoreFault>
    ensures looked { HasLooked D.meaning store.old store.new result }
    ensures says { (R : List Record) → IsTrue D.meaning R store.old → IsTable R obj → IfOk result (λ l. IsLook store.old.shape R obj row l) }
    ensures sound { (R : List Record) → IsTrue D.meaning R store.old → IsTable R obj → store.old.fault ≡ None → IfErr result IsSoundFault }
    ensures shape { IfOk result (λ l. is_shape l.shape ≡ true) }
    ensures most { IfOk result (λ l. l.segment.extents ≤ MOST_EXTENTS) }
    ensures percent { IfOk result (λ l. l.segment.pctfree ≤ MOST_PCTFREE) }
{
    let shape = store.shape();
    if !shape.is_within_limits() {
        return Err(store.refuse(Dba(TXN_TABLE_BLOCK)));
    }
    let segment = match read_segment(store, obj) {
        Ok(segment) => segment,
        Err(fault) => return Err(fault),
    };
    match store.copy_table(alloc) {
        Ok(table) => Ok(Look {
            shape,
            segment,
            table,
            row,
        }),
        Err(fault) => Err(fault),
    }
}
