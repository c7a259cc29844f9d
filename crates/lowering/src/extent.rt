// Whether an extent of a table is vacant: each of its data blocks is unformatted or vacant.
ghost use Rattle.std.specs.Prelude.{ℕ, ◌≡◌, ◌≤◌, ◌<◌, ◌+◌, true, None, List, Some, length, IfOk, IfErr};
ghost use Rattle.seg_words.specs.Types.{MOST_BLOCKS, MOST_EXTENT_BLOCKS, is_shape};
ghost use Rattle.redo_model.specs.Records.{Record};
ghost use Rattle.redo_model.specs.Model.{Extent, block_in as nth_block, code_of, data_blocks, extent_at, extents_of, is_vacant};
ghost use Rattle.redo_laws.specs.Among.{is_in};
ghost use Rattle.store_core.specs.Causes.{HasLooked, IsSoundFault};
ghost use Rattle.lowering.specs.Known.{Knows};
ghost use Rattle.lowering.specs.Walks.{AreData, BeginsAt, DoPass, IsData, is_free};

use crate::ground::Ground;
use crate::slots::is_vacant_block;
use data_places::{block_in, head_blocks};
use disk_model::Disk;
use seg_base::Dba;
use std::alloc::Global;
use store_core::{Store, StoreFault};
use store_read::{code_at, extent_number};

/// The nth block of the extent at an index of the table.
pub fn block_of<D: Disk>(
    store: &mut Store<D>,
    ground: &Ground,
    index: u16,
    nth: u16,
) -> Result<Dba, StoreFault>
    requires { is_shape ground.now.shape ≡ true }
    ensures looked { HasLooked D.meaning store.old store.new result }
    ensures says { (R : List Record) (o : ℕ) → Knows D.meaning R o store.old ground.now → IfOk result (λ d. d ≡ nth_block ground.now.shape (extent_at (extents_of R o) index) nth) }
    ensures sound { (R : List Record) (o : ℕ) → Knows D.meaning R o store.old ground.now → index < length (extents_of R o) → nth < ground.now.shape.extent → store.old.fault ≡ None → IfErr result IsSoundFault }
    ensures most { IfOk result (λ d. d ≤ MOST_BLOCKS) }
{
    let extent = match extent_number(store, &ground.segment, index) {
        Ok(extent) => extent,
        Err(fault) => return Err(fault),
    };
    match block_in(&ground.shape, extent, nth) {
        Some(dba) => Ok(dba),
        None => Err(store.refuse(ground.segment.header)),
    }
}

/// Whether a data block with this code in its bitmap is unformatted or vacant.
fn is_free<D: Disk>(
    alloc: Global,
    store: &mut Store<D>,
    ground: &Ground,
    dba: Dba,
    code: u8,
) -> Result<bool, StoreFault>
    requires unspent { store.old.fault ≡ None }
    ensures looked { HasLooked D.meaning store.old store.new result }
    ensures says { (R : List Record) (o : ℕ) → Knows D.meaning R o store.old ground.now → is_in dba (data_blocks ground.now.shape R o) ≡ true → code ≡ code_of ground.now.shape R dba → IfOk result (λ y. y ≡ is_free ground.now.shape R dba) }
    ensures sound { (R : List Record) (o : ℕ) → Knows D.meaning R o store.old ground.now → is_in dba (data_blocks ground.now.shape R o) ≡ true → code ≡ code_of ground.now.shape R dba → IfErr result IsSoundFault }
{
    if code == 0 {
        return Ok(true);
    }
    is_vacant_block(alloc, store, ground, dba)
}

fn nth_after(first: Dba, nth: u16) -> Dba
    requires { first ≤ MOST_BLOCKS }
    ensures { result ≡ first + nth }
{
    Dba(first.0 + u32::from(nth))
}

/// Whether the nth block of an extent that begins at this block is unformatted or vacant. It is a data block.
fn is_free_at<D: Disk>(
    alloc: Global,
    store: &mut Store<D>,
    ground: &Ground,
    first: Dba,
    nth: u16,
) -> Result<bool, StoreFault>
    requires first { first ≤ MOST_BLOCKS }
    requires near { nth < MOST_EXTENT_BLOCKS }
    ensures looked { HasLooked D.meaning store.old store.new result }
    ensures says { (R : List Record) (o index : ℕ) (e : Extent) → Knows D.meaning R o store.old ground.now → BeginsAt ground.now.shape R o index e first → IsData ground.now.shape index nth → IfOk result (λ y. y ≡ is_free ground.now.shape R (first + nth)) }
    ensures sound { (R : List Record) (o index : ℕ) (e : Extent) → Knows D.meaning R o store.old ground.now → BeginsAt ground.now.shape R o index e first → IsData ground.now.shape index nth → store.old.fault ≡ None → IfErr result IsSoundFault }
{
    match code_at(store, first, nth) {
        Ok(code) => is_free(alloc, store, ground, nth_after(first, nth), code),
        Err(fault) => Err(fault),
    }
}

/// Whether each of the blocks from one number on and below another is, in an extent that begins at this block. They are data
/// blocks.
fn are_free<D: Disk>(
    alloc: Global,
    store: &mut Store<D>,
    ground: &Ground,
    first: Dba,
    from: u16,
    to: u16,
) -> Result<bool, StoreFault>
    requires first { first ≤ MOST_BLOCKS }
    requires few { to ≤ MOST_EXTENT_BLOCKS }
    requires unspent { store.old.fault ≡ None }
    ensures looked { HasLooked D.meaning store.old store.new result }
    ensures says { (R : List Record) (o index : ℕ) (e : Extent) → Knows D.meaning R o store.old ground.now → BeginsAt ground.now.shape R o index e first → AreData ground.now.shape index from to → IfOk result (DoPass (is_free ground.now.shape R) first from to) }
    ensures sound { (R : List Record) (o index : ℕ) (e : Extent) → Knows D.meaning R o store.old ground.now → BeginsAt ground.now.shape R o index e first → AreData ground.now.shape index from to → IfErr result IsSoundFault }
{
    for nth in from..to {
        match is_free_at(alloc, store, ground, first, nth) {
            Err(fault) => return Err(fault),
            Ok(false) => return Ok(false),
            Ok(true) => {}
        }
    }
    Ok(true)
}

/// Whether the extent at an index of the table is vacant.
pub fn is_vacant<D: Disk>(
    alloc: Global,
    store: &mut Store<D>,
    ground: &Ground,
    index: u16,
) -> Result<bool, StoreFault>
    requires { is_shape ground.now.shape ≡ true }
    ensures looked { HasLooked D.meaning store.old store.new result }
    ensures says { (R : List Record) (o : ℕ) (e : Extent) → Knows D.meaning R o store.old ground.now → extent_at (extents_of R o) index ≡ Some e → IfOk result (λ y. y ≡ is_vacant ground.now.shape R index e.number) }
    ensures sound { (R : List Record) (o : ℕ) → Knows D.meaning R o store.old ground.now → index < length (extents_of R o) → store.old.fault ≡ None → IfErr result IsSoundFault }
{
    let first = match block_of(store, ground, index, 0) {
        Ok(first) => first,
        Err(fault) => return Err(fault),
    };
    let head = head_blocks(index);
    let count = ground.shape.extent as u16;
    are_free(alloc, store, ground, first, head, count)
}
