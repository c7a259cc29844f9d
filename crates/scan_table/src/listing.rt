// The blocks that a scan reads: the formatted ones under a table's high mark, in order of position.
ghost use Rattle.std.specs.Prelude.{◌≡◌, ℕ, ◌+◌, ◌<◌, true, None, Some, List, [], ◌∷◌, cond, eqb, IfOk, IfErr, IfSome, IsSome, OnOk};
ghost use Rattle.seg_words.specs.Types.{is_extent, is_shape};
ghost use Rattle.redo_model.specs.Records.{Record};
ghost use Rattle.redo_model.specs.Model.{Extent, IsTable, extent_at, extents_of};
ghost use Rattle.redo_laws.specs.Scan.{scan_list};
ghost use Rattle.data_places.specs.Places.{IsPlace};
ghost use Rattle.store_core.specs.Causes.{HasLooked, IsSoundFault};
ghost use Rattle.store_core.specs.Store.{IsTrue};
ghost use Rattle.scan_table.specs.Listing.{AddsFormatted, FormattedAt, IsFound, IsListing};

use data_places::{Place, block_in, place_at};
use disk_model::Disk;
use seg_base::{Dba, Obj, Sequence, Shape, TXN_TABLE_BLOCK};
use segment_read::Segment;
use std::alloc::Global;
use store_core::{Store, StoreFault};
use store_read::{code_at, extent_number, read_segment};

/// A table of a store of this shape.
#[derive(Drop)]
pub struct Listing {
    pub shape: Shape,
    pub segment: Segment,
}

/// A block, and the first block of its extent.
#[derive(Clone, Copy, Drop)]
pub struct FoundBlock {
    pub first: Dba,
    pub dba: Dba,
}

fn found_in(shape: &Shape, extent: u32, nth: u16) -> Option<FoundBlock>
    ensures says { IfSome result (IsFound shape.now extent nth) }
    ensures right { is_extent shape.now extent ≡ true → nth < shape.now.extent → IsSome result }
{
    match block_in(shape, extent, 0) {
        None => None,
        Some(first) => match block_in(shape, extent, nth) {
            None => None,
            Some(dba) => Some(FoundBlock { first, dba }),
        },
    }
}

/// The block at a place of the table.
fn block_at<D: Disk>(
    store: &mut Store<D>,
    listing: &Listing,
    place: &Place,
) -> Result<FoundBlock, StoreFault>
    ensures looked { HasLooked D.meaning store.old store.new result }
    ensures says { (R : List Record) (o : ℕ) (e : Extent) → IsTrue D.meaning R store.old → IsListing store.old.shape R o listing.now → extent_at (extents_of R o) place.now.index ≡ Some e → IfOk result (IsFound listing.now.shape e.number place.now.nth) }
    ensures sound { (R : List Record) (o : ℕ) (e : Extent) → IsTrue D.meaning R store.old → IsListing store.old.shape R o listing.now → extent_at (extents_of R o) place.now.index ≡ Some e → place.now.nth < listing.now.shape.extent → store.old.fault ≡ None → IfErr result IsSoundFault }
{
    let extent = match extent_number(store, &listing.segment, place.index) {
        Ok(extent) => extent,
        Err(fault) => return Err(fault),
    };
    match found_in(&listing.shape, extent, place.nth) {
        None => Err(store.refuse(listing.segment.header)),
        Some(found) => Ok(found),
    }
}

/// The block where its code is one of a formatted block.
fn if_formatted(code: u8, dba: Dba) -> Option<Dba>
    ensures { result ≡ cond (eqb code 0) None (Some dba) }
{
    if code == 0 {
        return None;
    }
    Some(dba)
}

/// The data block at a place, where it is formatted.
fn formatted_at<D: Disk>(
    store: &mut Store<D>,
    listing: &Listing,
    place: &Place,
) -> Result<Option<Dba>, StoreFault>
    ensures looked { HasLooked D.meaning store.old store.new result }
    ensures says { (R : List Record) (o position : ℕ) → IsTrue D.meaning R store.old → IsListing store.old.shape R o listing.now → IsPlace listing.now.shape listing.now.segment.extents place.now position → IfOk result (FormattedAt listing.now.shape R o position) }
    ensures sound { (R : List Record) (o position : ℕ) → IsTrue D.meaning R store.old → IsListing store.old.shape R o listing.now → IsPlace listing.now.shape listing.now.segment.extents place.now position → store.old.fault ≡ None → IfErr result IsSoundFault }
{
    match block_at(store, listing, place) {
        Err(fault) => Err(fault),
        Ok(found) => match code_at(store, found.first, place.nth) {
            Err(fault) => Err(fault),
            Ok(code) => Ok(if_formatted(code, found.dba)),
        },
    }
}

/// Adds the data block at a place, where it is formatted.
fn add_block<D: Disk>(
    store: &mut Store<D>,
    listing: &Listing,
    place: &Place,
    blocks: &mut Sequence<Dba>,
) -> Result<(), StoreFault>
    ensures looked { HasLooked D.meaning store.old store.new result }
    ensures says { (R : List Record) (o position : ℕ) → IsTrue D.meaning R store.old → IsListing store.old.shape R o listing.now → IsPlace listing.now.shape listing.now.segment.extents place.now position → OnOk result (AddsFormatted listing.now.shape R o position blocks.old blocks.new) }
    ensures sound { (R : List Record) (o position : ℕ) → IsTrue D.meaning R store.old → IsListing store.old.shape R o listing.now → IsPlace listing.now.shape listing.now.segment.extents place.now position → store.old.fault ≡ None → IfErr result IsSoundFault }
{
    match formatted_at(store, listing, place) {
        Err(fault) => Err(fault),
        Ok(None) => Ok(()),
        Ok(Some(dba)) => match blocks.push(dba) {
            Ok(()) => Ok(()),
            Err(_) => Err(StoreFault::NoMemory),
        },
    }
}

/// The formatted blocks of a table under its high mark, in order of position.
pub fn list_blocks<D: Disk>(
    alloc: Global,
    store: &mut Store<D>,
    listing: &Listing,
) -> Result<Sequence<Dba>, StoreFault>
    requires shape { is_shape listing.now.shape ≡ true }
    requires unspent { store.old.fault ≡ None }
    ensures looked { HasLooked D.meaning store.old store.new result }
    ensures says { (R : List Record) (o : ℕ) → IsTrue D.meaning R store.old → IsListing store.old.shape R o listing.now → IfOk result (λ blocks. blocks ≡ scan_list listing.now.shape R o) }
    ensures sound { (R : List Record) (o : ℕ) → IsTrue D.meaning R store.old → IsListing store.old.shape R o listing.now → IfErr result IsSoundFault }
{
    let extents = listing.segment.extents;
    let mut blocks = Sequence::new(alloc);
    let mut next = place_at(&listing.shape, extents, 0);
    for position in 0..listing.segment.high {
        let _ = position;
        match next {
            None => return Ok(blocks),
            Some(here) => match add_block(store, listing, &here, &mut blocks) {
                Err(fault) => return Err(fault),
                Ok(()) => next = here.next(&listing.shape, extents),
            },
        }
    }
    Ok(blocks)
}

/// The formatted blocks of a table that is there under its high mark, in order of position.
pub fn list_table<D: Disk>(
    alloc: Global,
    store: &mut Store<D>,
    obj: Obj,
) -> Result<Sequence<Dba>, StoreFault>
    ensures looked { HasLooked D.meaning store.old store.new result }
    ensures says { (R : List Record) → IsTrue D.meaning R store.old → IsTable R obj → IfOk result (λ blocks. blocks ≡ scan_list store.old.shape R obj) }
    ensures sound { (R : List Record) → IsTrue D.meaning R store.old → IsTable R obj → store.old.fault ≡ None → IfErr result IsSoundFault }
{
    let shape = store.shape();
    if !shape.is_within_limits() {
        return Err(store.refuse(Dba(TXN_TABLE_BLOCK)));
    }
    match read_segment(store, obj) {
        Ok(segment) => list_blocks(alloc, store, &Listing { shape, segment }),
        Err(fault) => Err(fault),
    }
}
