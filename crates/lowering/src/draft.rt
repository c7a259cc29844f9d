// The Lower of a table that keeps so many extents, drafted from pages.
ghost use Rattle.std.specs.Prelude.{ℕ, ◌≡◌, ◌≤◌, ◌<◌, suc, min, true, None, List, drop, length, map, take, IfOk, IfErr};
ghost use Rattle.seg_words.specs.Types.{MOST_EXTENTS, is_shape};
ghost use Rattle.redo_model.specs.Records.{Record};
ghost use Rattle.redo_model.specs.Model.{Extent, extents_of, lowering_count};
ghost use Rattle.store_core.specs.Causes.{HasLooked, IsSoundFault};
ghost use Rattle.data_places.specs.Places.{data_count as count_of};
ghost use Rattle.lower_laws.specs.Drafts.{lower_to};
ghost use Rattle.lowering.specs.Drafted.{AreGroups, AreTops, record_with};
ghost use Rattle.lowering.specs.Known.{Knows};

use crate::extent::block_of;
use crate::ground::Ground;
use crate::groups::{Groups, groups_of};
use crate::pages::{NextLowering, ReleasedFrom};
use data_places::data_count;
use disk_model::Disk;
use redo_record::{Extents, LowerRecord};
use seg_base::{Dba, SPACE_BLOCK};
use std::alloc::Global;
use store_core::{Store, StoreFault, ask};

/// The third level of a table, and the number of the next lowering.
#[derive(Clone, Copy, Debug, Drop)]
pub struct Tops {
    pub l3: Dba,
    pub lowering: u64,
}

fn lowering_of<D: Disk>(
    alloc: Global,
    store: &mut Store<D>,
    ground: &Ground,
) -> Result<u64, StoreFault>
    ensures looked { HasLooked D.meaning store.old store.new result }
    ensures says { (R : List Record) (o : ℕ) → Knows D.meaning R o store.old ground.now → IfOk result (λ n. n ≡ suc (lowering_count R)) }
    ensures sound { (R : List Record) (o : ℕ) → Knows D.meaning R o store.old ground.now → store.old.fault ≡ None → IfErr result IsSoundFault }
{
    let _ = ground;
    ask(alloc, store, Dba(SPACE_BLOCK), &NextLowering)
}

fn tops_of<D: Disk>(
    alloc: Global,
    store: &mut Store<D>,
    ground: &Ground,
) -> Result<Tops, StoreFault>
    requires { is_shape ground.now.shape ≡ true }
    ensures looked { HasLooked D.meaning store.old store.new result }
    ensures says { (R : List Record) (o : ℕ) → Knows D.meaning R o store.old ground.now → IfOk result (AreTops ground.now.shape R o) }
    ensures sound { (R : List Record) (o : ℕ) → Knows D.meaning R o store.old ground.now → store.old.fault ≡ None → IfErr result IsSoundFault }
{
    let l3 = match block_of(store, ground, 0, 2) {
        Ok(l3) => l3,
        Err(fault) => return Err(fault),
    };
    match lowering_of(alloc, store, ground) {
        Ok(lowering) => Ok(Tops { l3, lowering }),
        Err(fault) => Err(fault),
    }
}

/// The extents of the table from this index on.
fn released_from<D: Disk>(
    alloc: Global,
    store: &mut Store<D>,
    ground: &Ground,
    kept: u16,
) -> Result<Extents, StoreFault>
    ensures looked { HasLooked D.meaning store.old store.new result }
    ensures says { (R : List Record) (o : ℕ) → Knows D.meaning R o store.old ground.now → IfOk result (λ x. x ≡ map (λ (e : Extent). e.number) (drop kept (extents_of R o))) }
    ensures sound { (R : List Record) (o : ℕ) → Knows D.meaning R o store.old ground.now → store.old.fault ≡ None → IfErr result IsSoundFault }
{
    ask(alloc, store, ground.segment.header, &ReleasedFrom { kept })
}

fn record_of(
    ground: &Ground,
    kept: u16,
    groups: Groups,
    tops: &Tops,
    released: Extents,
) -> LowerRecord
    requires shape { is_shape ground.now.shape ≡ true }
    requires few { kept ≤ MOST_EXTENTS }
    ensures { result ≡ record_with ground.now kept groups tops.now released }
{
    let Groups { l2, bests } = groups;
    let high = ground.segment.high.min(data_count(&ground.shape, kept));
    LowerRecord {
        obj: ground.segment.obj,
        header: ground.segment.header,
        lowering: tops.lowering,
        kept,
        low: ground.segment.low.min(high),
        high,
        l2,
        l3: tops.l3,
        bests,
        released,
    }
}

/// The record, by the second levels that were read.
fn draft_with<D: Disk>(
    alloc: Global,
    store: &mut Store<D>,
    ground: &Ground,
    kept: u16,
    groups: Groups,
) -> Result<LowerRecord, StoreFault>
    requires shape { is_shape ground.now.shape ≡ true }
    requires few { kept ≤ MOST_EXTENTS }
    ensures looked { HasLooked D.meaning store.old store.new result }
    ensures says { (R : List Record) (o : ℕ) → Knows D.meaning R o store.old ground.now → kept ≤ ground.now.segment.extents → AreGroups ground.now.shape R o kept groups → IfOk result (λ l. l ≡ lower_to ground.now.shape R o kept) }
    ensures sound { (R : List Record) (o : ℕ) → Knows D.meaning R o store.old ground.now → store.old.fault ≡ None → IfErr result IsSoundFault }
{
    let tops = match tops_of(alloc, store, ground) {
        Ok(tops) => tops,
        Err(fault) => return Err(fault),
    };
    match released_from(alloc, store, ground, kept) {
        Ok(released) => Ok(record_of(ground, kept, groups, &tops, released)),
        Err(fault) => Err(fault),
    }
}

/// The Lower that leaves the table so many extents.
pub fn draft_lower<D: Disk>(
    alloc: Global,
    store: &mut Store<D>,
    ground: &Ground,
    kept: u16,
) -> Result<LowerRecord, StoreFault>
    requires shape { is_shape ground.now.shape ≡ true }
    requires few { kept ≤ MOST_EXTENTS }
    requires unspent { store.old.fault ≡ None }
    ensures looked { HasLooked D.meaning store.old store.new result }
    ensures says { (R : List Record) (o : ℕ) → Knows D.meaning R o store.old ground.now → kept ≤ ground.now.segment.extents → IfOk result (λ l. l ≡ lower_to ground.now.shape R o kept) }
    ensures sound { (R : List Record) (o : ℕ) → Knows D.meaning R o store.old ground.now → kept ≤ ground.now.segment.extents → IfErr result IsSoundFault }
{
    match groups_of(alloc, store, ground, kept) {
        Ok(groups) => draft_with(alloc, store, ground, kept, groups),
        Err(fault) => Err(fault),
    }
}
