// The blocks of a table under its high mark, counted.
ghost use Rattle.std.specs.Prelude.{ℕ, ◌≡◌, ◌≤◌, ◌<◌, true, None, List, IfOk, IfErr};
ghost use Rattle.seg_words.specs.Types.{MOST_PCTFREE, is_shape};
ghost use Rattle.redo_model.specs.Records.{Record};
ghost use Rattle.redo_model.specs.Model.{IsTable};
ghost use Rattle.version_laws.specs.Types.{HoldsTable};
ghost use Rattle.store_core.specs.Causes.{HasLooked, IsSoundFault};
ghost use Rattle.store_core.specs.Store.{IsTrue};
ghost use Rattle.space_usage.specs.Counting.{IsCoded, IsUsage, Knows, inexact_count, is_inexact};

use crate::counts::{none_of, one_if, with_code};
use crate::keeping::ClassOf;
use crate::walking::{Coded, coded_at};
use data_places::place_at;
use disk_model::Disk;
use history_text::Usage;
use seg_base::{CATALOGUE_BLOCK, Dba, Obj, Shape, class_code};
use segment_read::Segment;
use std::alloc::Global;
use store_core::{Store, StoreFault, ask};
use store_read::read_segment;
use txn_block::TxnBlock;

fn count_blocks<D: Disk>(
    store: &mut Store<D>,
    segment: &Segment,
    shape: &Shape,
) -> Result<Usage, StoreFault>
    requires shape { is_shape shape.now ≡ true }
    requires unspent { store.old.fault ≡ None }
    ensures looked { HasLooked D.meaning store.old store.new result }
    ensures says { (R : List Record) (o : ℕ) → Knows D.meaning R o store.old shape.now segment.now → IfOk result (IsUsage shape.now R o) }
    ensures sound { (R : List Record) (o : ℕ) → Knows D.meaning R o store.old shape.now segment.now → IfErr result IsSoundFault }
{
    let mut usage = none_of(segment);
    let mut place = place_at(shape, segment.extents, 0);
    for _ in 0..segment.high {
        let at = match place {
            Some(at) => at,
            None => return Err(store.refuse(segment.header)),
        };
        let block = match coded_at(store, segment, shape, &at) {
            Ok(block) => block,
            Err(fault) => return Err(fault),
        };
        usage = with_code(&usage, block.code);
        place = at.next(shape, segment.extents);
    }
    Ok(usage)
}

/// How full the blocks of a table under its high mark are, by their kept classes. The table is there.
pub fn usage<D: Disk>(store: &mut Store<D>, obj: Obj) -> Result<Usage, StoreFault>
    ensures looked { HasLooked D.meaning store.old store.new result }
    ensures says { (R : List Record) → IsTrue D.meaning R store.old → IsTable R obj → IfOk result (IsUsage store.old.shape R obj) }
    ensures sound { (R : List Record) → IsTrue D.meaning R store.old → IsTable R obj → store.old.fault ≡ None → IfErr result IsSoundFault }
{
    let shape = store.shape();
    if !shape.is_within_limits() {
        return Err(store.refuse(Dba(CATALOGUE_BLOCK)));
    }
    match read_segment(store, obj) {
        Ok(segment) => count_blocks(store, &segment, &shape),
        Err(fault) => Err(fault),
    }
}

/// Whether a block under the high mark is formatted and has another class than the kept one.
fn is_inexact<D: Disk>(
    alloc: Global,
    store: &mut Store<D>,
    table: &TxnBlock,
    segment: &Segment,
    block: Coded,
) -> Result<bool, StoreFault>
    requires percent { segment.now.pctfree ≤ MOST_PCTFREE }
    requires unspent { store.old.fault ≡ None }
    ensures looked { HasLooked D.meaning store.old store.new result }
    ensures says { (R : List Record) (o position : ℕ) → Knows D.meaning R o store.old store.old.shape segment.now → HoldsTable R table.now → position < segment.now.high → IsCoded store.old.shape R o position block → IfOk result (λ y. y ≡ is_inexact store.old.shape R o block.dba) }
    ensures sound { (R : List Record) (o position : ℕ) → Knows D.meaning R o store.old store.old.shape segment.now → HoldsTable R table.now → position < segment.now.high → IsCoded store.old.shape R o position block → IfErr result IsSoundFault }
{
    if block.code == 0 {
        return Ok(false);
    }
    let question = ClassOf {
        table,
        pctfree: segment.pctfree,
    };
    match ask(alloc, store, block.dba, &question) {
        Ok(class) => Ok(class_code(class) != block.code),
        Err(fault) => Err(fault),
    }
}

fn count_inexact<D: Disk>(
    alloc: Global,
    store: &mut Store<D>,
    table: &TxnBlock,
    segment: &Segment,
    shape: &Shape,
) -> Result<u32, StoreFault>
    requires shape { is_shape shape.now ≡ true }
    requires percent { segment.now.pctfree ≤ MOST_PCTFREE }
    requires unspent { store.old.fault ≡ None }
    ensures looked { HasLooked D.meaning store.old store.new result }
    ensures says { (R : List Record) (o : ℕ) → Knows D.meaning R o store.old shape.now segment.now → HoldsTable R table.now → IfOk result (λ n. n ≡ inexact_count shape.now R o) }
    ensures sound { (R : List Record) (o : ℕ) → Knows D.meaning R o store.old shape.now segment.now → HoldsTable R table.now → IfErr result IsSoundFault }
{
    let mut count = 0;
    let mut place = place_at(shape, segment.extents, 0);
    for _ in 0..segment.high {
        let at = match place {
            Some(at) => at,
            None => return Err(store.refuse(segment.header)),
        };
        let block = match coded_at(store, segment, shape, &at) {
            Ok(block) => block,
            Err(fault) => return Err(fault),
        };
        let inexact = match is_inexact(alloc, store, table, segment, block) {
            Ok(inexact) => inexact,
            Err(fault) => return Err(fault),
        };
        count += one_if(inexact);
        place = at.next(shape, segment.extents);
    }
    Ok(count)
}

fn inexact_by<D: Disk>(
    alloc: Global,
    store: &mut Store<D>,
    table: &TxnBlock,
    obj: Obj,
) -> Result<u32, StoreFault>
    ensures looked { HasLooked D.meaning store.old store.new result }
    ensures says { (R : List Record) → IsTrue D.meaning R store.old → IsTable R obj → HoldsTable R table.now → IfOk result (λ n. n ≡ inexact_count store.old.shape R obj) }
    ensures sound { (R : List Record) → IsTrue D.meaning R store.old → IsTable R obj → HoldsTable R table.now → store.old.fault ≡ None → IfErr result IsSoundFault }
{
    let shape = store.shape();
    if !shape.is_within_limits() {
        return Err(store.refuse(Dba(CATALOGUE_BLOCK)));
    }
    match read_segment(store, obj) {
        Ok(segment) => count_inexact(alloc, store, table, &segment, &shape),
        Err(fault) => Err(fault),
    }
}

/// How many formatted blocks of a table under its high mark have another class than the kept one. The table is there.
pub fn inexact<D: Disk>(alloc: Global, store: &mut Store<D>, obj: Obj) -> Result<u32, StoreFault>
    ensures looked { HasLooked D.meaning store.old store.new result }
    ensures says { (R : List Record) → IsTrue D.meaning R store.old → IsTable R obj → IfOk result (λ n. n ≡ inexact_count store.old.shape R obj) }
    ensures sound { (R : List Record) → IsTrue D.meaning R store.old → IsTable R obj → store.old.fault ≡ None → IfErr result IsSoundFault }
{
    match store.copy_table(alloc) {
        Ok(table) => inexact_by(alloc, store, &table, obj),
        Err(fault) => Err(fault),
    }
}
