// The second levels of the extents that are kept.
ghost use Rattle.std.specs.Prelude.{ℕ, ◌≡◌, ◌≤◌, ◌<◌, ◌-◌, min, true, None, List, Some, IfOk, IfErr};
ghost use Rattle.seg_words.specs.Types.{EXTENTS_OF_L2, is_shape};
ghost use Rattle.redo_model.specs.Records.{Record};
ghost use Rattle.redo_model.specs.Model.{block_in as nth_block, extent_at, extents_of, group_start};
ghost use Rattle.store_core.specs.Causes.{HasLooked, IsSoundFault};
ghost use Rattle.lowering.specs.Drafted.{AreGroups, IsGroup, all_of};
ghost use Rattle.lowering.specs.Known.{Knows};

use crate::extent::block_of;
use crate::ground::Ground;
use crate::pages::BestBelow;
use disk_model::Disk;
use seg_base::{Dba, EXTENTS_OF_L2};
use std::alloc::Global;
use store_core::{Store, StoreFault, ask};

/// A second level, where the first extent that it covers is kept, and the best of those that are.
#[derive(Clone, Copy, Debug, Drop)]
pub struct Group {
    pub l2: Option<Dba>,
    pub best: u8,
}

/// The three second levels that a table may have.
#[derive(Clone, Copy, Debug, Drop)]
pub struct Groups {
    pub l2: [Option<Dba>; 3],
    pub bests: [u8; 3],
}

/// How many of the extents are kept that the second level covers whose first one has this index.
fn kept_of_group(kept: u16, start: u16) -> u16
    requires { start ≤ kept }
    ensures { result ≡ min (kept - start) EXTENTS_OF_L2 }
{
    (kept - start).min(EXTENTS_OF_L2 as u16)
}

/// The second level at this block, which covers the extents from index `start` on.
fn group_of<D: Disk>(
    alloc: Global,
    store: &mut Store<D>,
    ground: &Ground,
    dba: Dba,
    kept: u16,
    start: u16,
) -> Result<Group, StoreFault>
    requires { start < kept }
    ensures looked { HasLooked D.meaning store.old store.new result }
    ensures says { (R : List Record) (o : ℕ) → Knows D.meaning R o store.old ground.now → kept ≤ ground.now.segment.extents → group_start start ≡ start → dba ≡ nth_block ground.now.shape (extent_at (extents_of R o) start) 1 → IfOk result (IsGroup ground.now.shape R o kept start) }
    ensures sound { (R : List Record) (o : ℕ) → Knows D.meaning R o store.old ground.now → kept ≤ ground.now.segment.extents → group_start start ≡ start → dba ≡ nth_block ground.now.shape (extent_at (extents_of R o) start) 1 → store.old.fault ≡ None → IfErr result IsSoundFault }
{
    let _ = ground;
    let question = BestBelow {
        count: kept_of_group(kept, start),
    };
    match ask(alloc, store, dba, &question) {
        Ok(best) => Ok(Group {
            l2: Some(dba),
            best,
        }),
        Err(fault) => Err(fault),
    }
}

/// The second level that covers the extents from this index on, where so many are kept.
fn group_at<D: Disk>(
    alloc: Global,
    store: &mut Store<D>,
    ground: &Ground,
    kept: u16,
    start: u16,
) -> Result<Group, StoreFault>
    requires shape { is_shape ground.now.shape ≡ true }
    requires unspent { store.old.fault ≡ None }
    ensures looked { HasLooked D.meaning store.old store.new result }
    ensures says { (R : List Record) (o : ℕ) → Knows D.meaning R o store.old ground.now → kept ≤ ground.now.segment.extents → group_start start ≡ start → IfOk result (IsGroup ground.now.shape R o kept start) }
    ensures sound { (R : List Record) (o : ℕ) → Knows D.meaning R o store.old ground.now → kept ≤ ground.now.segment.extents → group_start start ≡ start → IfErr result IsSoundFault }
{
    if start >= kept {
        return Ok(Group { l2: None, best: 0 });
    }
    match block_of(store, ground, start, 1) {
        Ok(dba) => group_of(alloc, store, ground, dba, kept, start),
        Err(fault) => Err(fault),
    }
}

fn all_of(first: Group, second: Group, third: Group) -> Groups
    ensures { result ≡ all_of first second third }
{
    Groups {
        l2: [first.l2, second.l2, third.l2],
        bests: [first.best, second.best, third.best],
    }
}

/// The second and the third one, behind the first.
fn groups_after<D: Disk>(
    alloc: Global,
    store: &mut Store<D>,
    ground: &Ground,
    kept: u16,
    first: Group,
) -> Result<Groups, StoreFault>
    requires shape { is_shape ground.now.shape ≡ true }
    requires unspent { store.old.fault ≡ None }
    ensures looked { HasLooked D.meaning store.old store.new result }
    ensures says { (R : List Record) (o : ℕ) → Knows D.meaning R o store.old ground.now → kept ≤ ground.now.segment.extents → IsGroup ground.now.shape R o kept 0 first → IfOk result (AreGroups ground.now.shape R o kept) }
    ensures sound { (R : List Record) (o : ℕ) → Knows D.meaning R o store.old ground.now → kept ≤ ground.now.segment.extents → IfErr result IsSoundFault }
{
    let second = match group_at(alloc, store, ground, kept, EXTENTS_OF_L2 as u16) {
        Ok(second) => second,
        Err(fault) => return Err(fault),
    };
    match group_at(alloc, store, ground, kept, 2 * EXTENTS_OF_L2 as u16) {
        Ok(third) => Ok(all_of(first, second, third)),
        Err(fault) => Err(fault),
    }
}

/// The second levels of a table that keeps so many extents.
pub fn groups_of<D: Disk>(
    alloc: Global,
    store: &mut Store<D>,
    ground: &Ground,
    kept: u16,
) -> Result<Groups, StoreFault>
    requires shape { is_shape ground.now.shape ≡ true }
    requires unspent { store.old.fault ≡ None }
    ensures looked { HasLooked D.meaning store.old store.new result }
    ensures says { (R : List Record) (o : ℕ) → Knows D.meaning R o store.old ground.now → kept ≤ ground.now.segment.extents → IfOk result (AreGroups ground.now.shape R o kept) }
    ensures sound { (R : List Record) (o : ℕ) → Knows D.meaning R o store.old ground.now → kept ≤ ground.now.segment.extents → IfErr result IsSoundFault }
{
    match group_at(alloc, store, ground, kept, 0) {
        Ok(first) => groups_after(alloc, store, ground, kept, first),
        Err(fault) => Err(fault),
    }
}
