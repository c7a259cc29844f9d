// How a scan begins.
ghost use Rattle.std.specs.Prelude.{◌≡◌, List, None, IfOk, IfErr};
ghost use Rattle.redo_model.specs.Records.{Record};
ghost use Rattle.redo_model.specs.Model.{IsTable};
ghost use Rattle.store_core.specs.Causes.{HasLooked, IsSoundFault};
ghost use Rattle.store_core.specs.Store.{IsTrue};
ghost use Rattle.scan_table.specs.Standing.{IsOpened};

use crate::listing::{Listing, list_blocks};
use crate::rows::Rows;
use crate::scan::OpenScan;
use disk_model::Disk;
use seg_base::{Dba, Obj, TXN_TABLE_BLOCK, TxnId};
use std::alloc::Global;
use store_core::{Store, StoreFault};
use store_read::read_segment;

/// A scan that has yet to read all of its blocks. The table is there.
pub fn open_scan<D: Disk>(
    alloc: Global,
    store: &mut Store<D>,
    obj: Obj,
    own: Option<TxnId>,
) -> Result<OpenScan, StoreFault>
    ensures looked { HasLooked D.meaning store.old store.new result }
    ensures says { (R : List Record) → IsTrue D.meaning R store.old → IsTable R obj → IfOk result (IsOpened store.old.shape R obj own) }
    ensures sound { (R : List Record) → IsTrue D.meaning R store.old → IsTable R obj → store.old.fault ≡ None → IfErr result IsSoundFault }
{
    let shape = store.shape();
    if !shape.is_within_limits() {
        return Err(store.refuse(Dba(TXN_TABLE_BLOCK)));
    }
    let at = store.commits();
    let segment = match read_segment(store, obj) {
        Ok(segment) => segment,
        Err(fault) => return Err(fault),
    };
    let listing = Listing { shape, segment };
    match list_blocks(alloc, store, &listing) {
        Ok(blocks) => Ok(OpenScan {
            shape,
            obj,
            own,
            at,
            blocks,
            read: 0,
            rows: Rows::new(alloc),
            mark: None,
        }),
        Err(fault) => Err(fault),
    }
}
