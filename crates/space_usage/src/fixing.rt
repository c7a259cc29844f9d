// The kept class of one block set.
ghost use Rattle.std.specs.Prelude.{ℕ, ◌≡◌, ◌≤◌, None, Option, Some, List, IfOk, IfErr};
ghost use Rattle.seg_words.specs.Types.{MOST_PCTFREE, class_code};
ghost use Rattle.redo_model.specs.Records.{Record};
ghost use Rattle.redo_model.specs.Model.{IsTable};
ghost use Rattle.usage_laws.specs.Types.{ruled_class};
ghost use Rattle.version_laws.specs.Types.{HoldsTable};
ghost use Rattle.store_core.specs.Adding.{HasTried};
ghost use Rattle.store_core.specs.Causes.{HasLooked, IsSoundFault};
ghost use Rattle.store_core.specs.Store.{IsTrue};
ghost use Rattle.segment_read.specs.Segments.{IsSegment};
ghost use Rattle.space_usage.specs.Fixing.{IsFixed, IsWanted, class_of_value, store_part};
ghost use Rattle.space_usage.specs.Settles.{HasBlock};

use crate::FixFault;
use crate::finding::find_block;
use crate::keeping::{ClassOf, keep};
use disk_model::Disk;
use seg_base::{Class, Dba, Obj, class_from};
use segment_read::Segment;
use std::alloc::Global;
use store_core::{Store, StoreFault, ask};
use txn_block::TxnBlock;

/// The class of a value: 1 full, 2 to 5 Fs1 to Fs4.
fn class_of_value(value: u32) -> Option<Class>
    ensures { result ≡ class_of_value value }
{
    if value < 1 {
        return None;
    }
    if value > 5 {
        return None;
    }
    class_from(value as u8)
}

/// The class that a formatted block of the segment's table has.
fn own_class_by<D: Disk>(
    alloc: Global,
    store: &mut Store<D>,
    table: &TxnBlock,
    segment: &Segment,
    dba: Dba,
) -> Result<Class, StoreFault>
    requires { segment.now.pctfree ≤ MOST_PCTFREE }
    ensures looked { HasLooked D.meaning store.old store.new result }
    ensures says { (R : List Record) (o : ℕ) → HasBlock D.meaning R o dba store.old → IsSegment store.old.shape R o segment.now → HoldsTable R table.now → IfOk result (λ c. c ≡ ruled_class R o dba) }
    ensures sound { (R : List Record) (o : ℕ) → HasBlock D.meaning R o dba store.old → IsSegment store.old.shape R o segment.now → HoldsTable R table.now → store.old.fault ≡ None → IfErr result IsSoundFault }
{
    let question = ClassOf {
        table,
        pctfree: segment.pctfree,
    };
    ask(alloc, store, dba, &question)
}

fn own_class<D: Disk>(
    alloc: Global,
    store: &mut Store<D>,
    segment: &Segment,
    dba: Dba,
) -> Result<Class, StoreFault>
    requires { segment.now.pctfree ≤ MOST_PCTFREE }
    ensures looked { HasLooked D.meaning store.old store.new result }
    ensures says { (R : List Record) (o : ℕ) → HasBlock D.meaning R o dba store.old → IsSegment store.old.shape R o segment.now → IfOk result (λ c. c ≡ ruled_class R o dba) }
    ensures sound { (R : List Record) (o : ℕ) → HasBlock D.meaning R o dba store.old → IsSegment store.old.shape R o segment.now → store.old.fault ≡ None → IfErr result IsSoundFault }
{
    match store.copy_table(alloc) {
        Ok(table) => own_class_by(alloc, store, &table, segment, dba),
        Err(fault) => Err(fault),
    }
}

/// Keeps a class, and answers it.
fn keep_as<D: Disk>(
    alloc: Global,
    store: &mut Store<D>,
    segment: &Segment,
    dba: Dba,
    class: Class,
) -> Result<Class, FixFault>
    ensures fixes { (R : List Record) (o : ℕ) (value : Option ℕ) → HasBlock D.meaning R o dba store.old → IsSegment store.old.shape R o segment.now → 1 ≤ class_code class → IsWanted R o dba value class → IsFixed D.meaning store.old.shape R o dba value store.old store.new result }
    ensures tried { HasTried D.meaning store.old store.new (store_part result) }
{
    match keep(alloc, store, segment, dba, class) {
        Ok(_) => Ok(class),
        Err(fault) => Err(FixFault::Store(fault)),
    }
}

/// Keeps the block's own class, and answers it.
fn keep_own<D: Disk>(
    alloc: Global,
    store: &mut Store<D>,
    segment: &Segment,
    dba: Dba,
) -> Result<Class, FixFault>
    requires { segment.now.pctfree ≤ MOST_PCTFREE }
    ensures fixes { (R : List Record) (o : ℕ) → HasBlock D.meaning R o dba store.old → IsSegment store.old.shape R o segment.now → IsFixed D.meaning store.old.shape R o dba None store.old store.new result }
    ensures tried { HasTried D.meaning store.old store.new (store_part result) }
{
    match own_class(alloc, store, segment, dba) {
        Ok(class) => keep_as(alloc, store, segment, dba, class),
        Err(fault) => Err(FixFault::Store(fault)),
    }
}

/// Keeps the class of a value.
fn keep_value<D: Disk>(
    alloc: Global,
    store: &mut Store<D>,
    segment: &Segment,
    dba: Dba,
    value: u32,
) -> Result<Class, FixFault>
    requires { store.old.fault ≡ None }
    ensures fixes { (R : List Record) (o : ℕ) → HasBlock D.meaning R o dba store.old → IsSegment store.old.shape R o segment.now → IsFixed D.meaning store.old.shape R o dba (Some value) store.old store.new result }
    ensures tried { HasTried D.meaning store.old store.new (store_part result) }
{
    match class_of_value(value) {
        Some(class) => keep_as(alloc, store, segment, dba, class),
        None => Err(FixFault::BadValue { value }),
    }
}

fn fix_in<D: Disk>(
    alloc: Global,
    store: &mut Store<D>,
    segment: &Segment,
    dba: Dba,
    value: Option<u32>,
) -> Result<Class, FixFault>
    requires percent { segment.now.pctfree ≤ MOST_PCTFREE }
    requires unspent { store.old.fault ≡ None }
    ensures fixes { (R : List Record) (o : ℕ) → HasBlock D.meaning R o dba store.old → IsSegment store.old.shape R o segment.now → IsFixed D.meaning store.old.shape R o dba value store.old store.new result }
    ensures tried { HasTried D.meaning store.old store.new (store_part result) }
{
    match value {
        Some(value) => keep_value(alloc, store, segment, dba, value),
        None => keep_own(alloc, store, segment, dba),
    }
}

/// Keeps the class of a value, 1 full and 2 to 5 Fs1 to Fs4, for a block of a table that is there, or without a value the class that
/// the block has, and answers it. One Class is added, or none where that class is kept. `NotDataBlock` comes exactly where the block
/// isn't a formatted data block of the table under its high mark, `BadValue` exactly where it is and the value is none of these.
pub fn fix_status<D: Disk>(
    alloc: Global,
    store: &mut Store<D>,
    obj: Obj,
    dba: Dba,
    value: Option<u32>,
) -> Result<Class, FixFault>
    ensures fixes { (R : List Record) → IsTrue D.meaning R store.old → IsTable R obj → IsFixed D.meaning store.old.shape R obj dba value store.old store.new result }
    ensures tried { HasTried D.meaning store.old store.new (store_part result) }
{
    match find_block(store, obj, dba) {
        Ok(Some(segment)) => fix_in(alloc, store, &segment, dba, value),
        Ok(None) => Err(FixFault::NotDataBlock { dba }),
        Err(fault) => Err(FixFault::Store(fault)),
    }
}
