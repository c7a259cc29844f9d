// One row block settled.
ghost use Rattle.std.specs.Prelude.{List};
ghost use Rattle.redo_model.specs.Records.{Record};
ghost use Rattle.version_laws.specs.Types.{HoldsTable};
ghost use Rattle.store_core.specs.Causes.{HasCause};
ghost use Rattle.store_core.specs.Store.{SameLoan};
ghost use Rattle.space_usage.specs.Settles.{HasBlock, Settles};

use crate::cleaning::clean_block_of;
use crate::keeping::keep_class_of;
use disk_model::Disk;
use seg_base::{Dba, Obj};
use std::alloc::Global;
use store_core::{Store, StoreFault};
use txn_block::TxnBlock;

/// The two records of a settling, by a table that is the store's.
fn settle_by<D: Disk>(
    alloc: Global,
    store: &mut Store<D>,
    table: &TxnBlock,
    obj: Obj,
    dba: Dba,
) -> Result<bool, StoreFault>
    ensures settles { (R : List Record) → HasBlock D.meaning R obj dba store.old → HoldsTable R table.now → Settles D.meaning R obj dba store.old store.new result }
    ensures loan { SameLoan D.meaning store.old store.new }
    ensures cause { HasCause D.meaning store.old store.new result }
{
    match clean_block_of(alloc, store, table, dba) {
        Ok(()) => keep_class_of(alloc, store, table, obj, dba),
        Err(fault) => Err(fault),
    }
}

/// Settles a formatted block of a table under its high mark: by a Clean where a slot names a transaction that committed and
/// isn't forgotten, and then by a Class where the kept class isn't the block's. Answers whether the kept class changed. After a
/// fault the Clean may stand.
pub fn settle<D: Disk>(
    alloc: Global,
    store: &mut Store<D>,
    obj: Obj,
    dba: Dba,
) -> Result<bool, StoreFault>
    ensures settles { (R : List Record) → HasBlock D.meaning R obj dba store.old → Settles D.meaning R obj dba store.old store.new result }
    ensures loan { SameLoan D.meaning store.old store.new }
    ensures cause { HasCause D.meaning store.old store.new result }
{
    match store.copy_table(alloc) {
        Ok(table) => settle_by(alloc, store, &table, obj, dba),
        Err(fault) => Err(fault),
    }
}
