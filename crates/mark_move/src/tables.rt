// New tables.
ghost use Rattle.std.specs.Prelude.{◌≡◌, ◌≤◌, ◌+◌, ◌∷◌, suc, true, false, None, Some, List, IfOk, IfErr};
ghost use Rattle.seg_words.specs.Types.{MOST_BLOCKS};
ghost use Rattle.redo_model.specs.Records.{Record, Extend as ExtendOf, Table as TableOf};
ghost use Rattle.redo_model.specs.Model.{table_count};
ghost use Rattle.mark_laws.specs.Movements.{least_free};
ghost use Rattle.mark_laws.specs.Moves.{MayMake};
ghost use Rattle.store_core.specs.Adding.{Adds, HasTried};
ghost use Rattle.store_core.specs.Causes.{HasLooked, IsSoundFault};
ghost use Rattle.store_core.specs.Store.{IsTrue};
ghost use Rattle.mark_move.specs.Tables.{AnswersTable, DraftsTable, store_part, with_table, with_table_in};

use crate::MarkFault;
use crate::adding::add_two;
use data_places::block_in;
use disk_model::Disk;
use redo_record::{ExtendRecord, Record, TableRecord};
use seg_base::{Dba, MOST_TABLES, Name, Obj, SPACE_BLOCK};
use std::alloc::Global;
use store_core::{Store, StoreFault};
use store_read::{count_tables, find_free};

/// A table's number, and its two records.
#[derive(Debug, Drop)]
pub struct Drafted {
    pub obj: Obj,
    pub table: Record,
    pub first: Record,
}

/// The records of a new table whose first extent begins at this block.
fn both_records(first: Dba, extent: u32, obj: Obj, pctfree: u8, name: Name) -> Drafted
    requires { first ≤ MOST_BLOCKS }
    ensures obj { result.obj ≡ obj }
    ensures table { result.table ≡ TableOf (record { obj = obj; header = first + 3; pctfree = pctfree; name = name }) }
    ensures first { result.first ≡ ExtendOf (record { obj = obj; header = first + 3; index = 0; extent = extent; l2 = first + 1; l3 = first + 2 }) }
{
    let header = Dba(first.0 + 3);
    Drafted {
        obj,
        table: Record::Table(TableRecord {
            obj,
            header,
            pctfree,
            name,
        }),
        first: Record::Extend(ExtendRecord {
            obj,
            header,
            index: 0,
            extent,
            l2: Dba(first.0 + 1),
            l3: Dba(first.0 + 2),
        }),
    }
}

/// The records of the next table, which gets this extent, the least free one.
fn draft_table<D: Disk>(
    alloc: Global,
    store: &mut Store<D>,
    name: &Name,
    pctfree: u8,
    extent: u32,
) -> Result<Drafted, StoreFault>
    ensures looked { HasLooked D.meaning store.old store.new result }
    ensures says { (R : List Record) → IsTrue D.meaning R store.old → IfOk result (DraftsTable store.old.shape R name.now pctfree extent) }
    ensures sound { (R : List Record) → IsTrue D.meaning R store.old → MayMake R name.now pctfree → least_free store.old.shape R ≡ Some extent → store.old.fault ≡ None → IfErr result IsSoundFault }
{
    let shape = store.shape();
    if !shape.is_within_limits() {
        return Err(store.refuse(Dba(SPACE_BLOCK)));
    }
    let first = match block_in(&shape, extent, 0) {
        Some(first) => first,
        None => return Err(store.refuse(Dba(SPACE_BLOCK))),
    };
    let count = match count_tables(store) {
        Ok(count) => count,
        Err(fault) => return Err(fault),
    };
    if count >= MOST_TABLES {
        return Err(store.refuse(Dba(SPACE_BLOCK)));
    }
    match name.duplicate(alloc) {
        Ok(copy) => Ok(both_records(first, extent, Obj(count + 1), pctfree, copy)),
        Err(_) => Err(StoreFault::NoMemory),
    }
}

/// Makes a table in this extent, the least free one.
fn make_table<D: Disk>(
    alloc: Global,
    store: &mut Store<D>,
    name: &Name,
    pctfree: u8,
    extent: u32,
) -> Result<Obj, StoreFault>
    ensures adds { (R : List Record) → IsTrue D.meaning R store.old → MayMake R name.now pctfree → least_free store.old.shape R ≡ Some extent → Adds D.meaning R (with_table_in store.old.shape R name.now pctfree extent) store.old store.new result }
    ensures tried { HasTried D.meaning store.old store.new result }
    ensures number { (R : List Record) → IsTrue D.meaning R store.old → IfOk result (λ o. o ≡ suc (table_count R)) }
{
    match draft_table(alloc, store, name, pctfree, extent) {
        Ok(drafted) => match add_two(store, &drafted.table, &drafted.first) {
            Ok(()) => Ok(drafted.obj),
            Err(fault) => Err(fault),
        },
        Err(fault) => Err(fault),
    }
}

/// Makes a table with its first extent, the least free one, by two records in one group of the log, and answers its number. The
/// name is new, there are fewer than 32 tables, and `pctfree` is at most 50. `NoSpace` comes exactly where no extent is free;
/// then nothing is added.
pub fn new_table<D: Disk>(
    alloc: Global,
    store: &mut Store<D>,
    name: &Name,
    pctfree: u8,
) -> Result<Obj, MarkFault>
    ensures adds { (R : List Record) → IsTrue D.meaning R store.old → MayMake R name.now pctfree → Adds D.meaning R (with_table store.old.shape R name.now pctfree) store.old store.new (store_part result) }
    ensures tried { HasTried D.meaning store.old store.new (store_part result) }
    ensures answers { (R : List Record) → IsTrue D.meaning R store.old → AnswersTable store.old.shape R result }
{
    match find_free(store) {
        Ok(Some(extent)) => match make_table(alloc, store, name, pctfree, extent) {
            Ok(obj) => Ok(obj),
            Err(fault) => Err(MarkFault::Store(fault)),
        },
        Ok(None) => Err(MarkFault::NoSpace { need: 0 }),
        Err(fault) => Err(MarkFault::Store(fault)),
    }
}
