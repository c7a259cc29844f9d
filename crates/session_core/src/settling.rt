// What a session owes, settled one block an event.
ghost use Rattle.std.specs.Prelude.{◌≡◌, None, List};
ghost use Rattle.redo_model.specs.Records.{Record};
ghost use Rattle.redo_model.specs.Model.{IsTable, IsRowBlock};
ghost use Rattle.store_core.specs.Store.{IsTrue};
ghost use Rattle.space_usage.specs.Settles.{HasBlock};
ghost use Rattle.session_core.specs.Acting.{HasCalled};
ghost use Rattle.session_core.specs.Owing.{HasSettled, HasSettledFirst, HasSettledIt, HasTold, IsThere, is_numbered, told_block};

use crate::owed::{Owed, OwedBlock};
use disk_model::Disk;
use seg_base::{Class, Dba, Obj};
use space_usage::{FixFault, fix_status, settle};
use std::alloc::Global;
use store_core::{Store, StoreFault};
use store_read::count_tables;

/// Settles a formatted block of a table under its high mark. Answers whether it called for anything, that is, whether a record
/// was added.
pub fn settle_block<D: Disk>(
    alloc: Global,
    store: &mut Store<D>,
    obj: Obj,
    dba: Dba,
) -> Result<bool, StoreFault>
    requires unspent { store.old.fault ≡ None }
    ensures settled { (R : List Record) → HasBlock D.meaning R obj dba store.old → HasSettled D.meaning R obj dba store.old store.new result }
    ensures called { HasCalled D.meaning store.old store.new result }
{
    let before = store.log_len();
    match settle(alloc, store, obj, dba) {
        Ok(_) => Ok(before < store.log_len()),
        Err(fault) => Err(fault),
    }
}

/// Whether a table has one of the first numbers, which begin with 1.
fn is_numbered(obj: &Obj, tables: u8) -> bool
    ensures { result ≡ is_numbered tables obj.now }
{
    if obj.0 < 1 {
        return false;
    }
    obj.0 <= tables
}

/// Whether there is a table of this number.
fn is_table<D: Disk>(store: &mut Store<D>, obj: &Obj) -> Result<bool, StoreFault>
    requires unspent { store.old.fault ≡ None }
    ensures told { (R : List Record) → IsTrue D.meaning R store.old → HasTold D.meaning R (IsTable R obj.now) store.old store.new result }
    ensures called { HasCalled D.meaning store.old store.new result }
{
    match count_tables(store) {
        Ok(tables) => Ok(is_numbered(obj, tables)),
        Err(fault) => Err(fault),
    }
}

/// The value of no class.
const NO_CLASS: u32 = 0;

/// What the setting of a class by the value of none says of the block.
fn told_block(fixed: Result<Class, FixFault>) -> Result<bool, StoreFault>
    ensures { result ≡ told_block fixed }
{
    match fixed {
        Ok(_) => Ok(true),
        Err(FixFault::BadValue { value: _ }) => Ok(true),
        Err(FixFault::NotDataBlock { dba: _ }) => Ok(false),
        Err(FixFault::Store(fault)) => Err(fault),
    }
}

/// Whether a block is a formatted data block of a table that is there, under its high mark: the value of no class is refused as such
/// exactly where it is one, and changes nothing.
fn is_row_block<D: Disk>(
    alloc: Global,
    store: &mut Store<D>,
    obj: Obj,
    dba: Dba,
) -> Result<bool, StoreFault>
    requires unspent { store.old.fault ≡ None }
    ensures told { (R : List Record) → IsTrue D.meaning R store.old → IsTable R obj → HasTold D.meaning R (IsRowBlock store.old.shape R obj dba) store.old store.new result }
    ensures called { HasCalled D.meaning store.old store.new result }
{
    let fixed = fix_status(alloc, store, obj, dba, Some(NO_CLASS));
    told_block(fixed)
}

/// Whether an owed block is still there: its table is, and it is a formatted data block of it under the high mark.
fn is_there<D: Disk>(
    alloc: Global,
    store: &mut Store<D>,
    block: &OwedBlock,
) -> Result<bool, StoreFault>
    requires unspent { store.old.fault ≡ None }
    ensures told { (R : List Record) → IsTrue D.meaning R store.old → HasTold D.meaning R (IsThere store.old.shape R block.now.obj block.now.dba) store.old store.new result }
    ensures called { HasCalled D.meaning store.old store.new result }
{
    match is_table(store, &block.obj) {
        Ok(true) => is_row_block(alloc, store, block.obj, block.dba),
        Ok(false) => Ok(false),
        Err(fault) => Err(fault),
    }
}

/// Settles an owed block, and answers whether it called for anything. One that was released doesn't.
fn settle_it<D: Disk>(
    alloc: Global,
    store: &mut Store<D>,
    block: &OwedBlock,
) -> Result<bool, StoreFault>
    requires unspent { store.old.fault ≡ None }
    ensures settled { (R : List Record) → IsTrue D.meaning R store.old → HasSettledIt D.meaning R block.now.obj block.now.dba store.old store.new result }
    ensures called { HasCalled D.meaning store.old store.new result }
{
    match is_there(alloc, store, block) {
        Ok(true) => settle_block(alloc, store, block.obj, block.dba),
        Ok(false) => Ok(false),
        Err(fault) => Err(fault),
    }
}

/// Settles the first owed block that calls for it, and answers whether there was one. Those before it, which were released or
/// call for nothing, are owed no more; it and those after it stay owed.
pub fn settle_owed<D: Disk>(
    alloc: Global,
    store: &mut Store<D>,
    owed: &mut Owed,
) -> Result<bool, StoreFault>
    requires unspent { store.old.fault ≡ None }
    ensures settled { (R : List Record) → IsTrue D.meaning R store.old → HasSettledFirst D.meaning R owed.old owed.new store.old store.new result }
    ensures called { HasCalled D.meaning store.old store.new result }
{
    while let Some(block) = owed.next() {
        match settle_it(alloc, store, &block) {
            Ok(true) => return Ok(true),
            Ok(false) => owed.drop_next(),
            Err(fault) => return Err(fault),
        }
    }
    Ok(false)
}
