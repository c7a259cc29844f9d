// The data blocks of a table, by position, with what the bitmaps say of them.
ghost use Rattle.std.specs.Prelude.{ℕ, ◌≡◌, ◌≤◌, ◌<◌, ◌+◌, true, None, List, Some, length, IfOk, IfErr};
ghost use Rattle.seg_words.specs.Types.{MOST_BLOCKS, first_block, head_blocks, is_shape};
ghost use Rattle.redo_model.specs.Records.{Record};
ghost use Rattle.redo_model.specs.Model.{Extent, code_of, data_blocks, extent_at, extents_of};
ghost use Rattle.data_places.specs.Places.{IsPlace};
ghost use Rattle.store_core.specs.Causes.{HasLooked, IsSoundFault};
ghost use Rattle.shrink_move.specs.Known.{Knows};
ghost use Rattle.shrink_move.specs.Walks.{IsCoded};

use crate::ground::Ground;
use data_places::{Place, block_in, place_at};
use disk_model::Disk;
use seg_base::Dba;
use store_core::{Store, StoreFault};
use store_read::{code_at, extent_number};

/// A data block, and its code in the bitmap: 1 to 5 for the kept class of a formatted one, else 0.
#[derive(Clone, Copy, Debug, Drop)]
pub struct Coded {
    pub dba: Dba,
    pub code: u8,
}

fn nth_block(first: Dba, nth: u16) -> Dba
    requires { first ≤ MOST_BLOCKS }
    ensures { result ≡ first + nth }
{
    Dba(first.0 + u32::from(nth))
}

/// The nth block of the extent with this number, a data block.
fn coded_in<D: Disk>(
    store: &mut Store<D>,
    ground: &Ground,
    extent: u32,
    nth: u16,
) -> Result<Coded, StoreFault>
    requires { is_shape ground.now.shape ≡ true }
    ensures looked { HasLooked D.meaning store.old store.new result }
    ensures says { (R : List Record) (o index : ℕ) (e : Extent) → Knows D.meaning R o store.old ground.now → extent_at (extents_of R o) index ≡ Some e → e.number ≡ extent → head_blocks index ≤ nth → nth < ground.now.shape.extent → IfOk result (λ x. x ≡ record { dba = first_block ground.now.shape extent + nth; code = code_of ground.now.shape R (first_block ground.now.shape extent + nth) }) }
    ensures sound { (R : List Record) (o index : ℕ) (e : Extent) → Knows D.meaning R o store.old ground.now → extent_at (extents_of R o) index ≡ Some e → e.number ≡ extent → nth < ground.now.shape.extent → store.old.fault ≡ None → IfErr result IsSoundFault }
{
    let first = match block_in(&ground.shape, extent, 0) {
        Some(first) => first,
        None => return Err(store.refuse(ground.segment.header)),
    };
    match code_at(store, first, nth) {
        Ok(code) => Ok(Coded {
            dba: nth_block(first, nth),
            code,
        }),
        Err(fault) => Err(fault),
    }
}

/// The data block at a place of the table.
fn coded_at<D: Disk>(
    store: &mut Store<D>,
    ground: &Ground,
    place: &Place,
) -> Result<Coded, StoreFault>
    requires { is_shape ground.now.shape ≡ true }
    ensures looked { HasLooked D.meaning store.old store.new result }
    ensures says { (R : List Record) (o position : ℕ) → Knows D.meaning R o store.old ground.now → IsPlace ground.now.shape ground.now.segment.extents place.now position → IfOk result (IsCoded ground.now.shape R o position) }
    ensures sound { (R : List Record) (o position : ℕ) → Knows D.meaning R o store.old ground.now → IsPlace ground.now.shape ground.now.segment.extents place.now position → store.old.fault ≡ None → IfErr result IsSoundFault }
{
    match extent_number(store, &ground.segment, place.index) {
        Ok(extent) => coded_in(store, ground, extent, place.nth),
        Err(fault) => Err(fault),
    }
}

/// The data block at a position of the table.
pub fn coded_position<D: Disk>(
    store: &mut Store<D>,
    ground: &Ground,
    position: u32,
) -> Result<Coded, StoreFault>
    requires { is_shape ground.now.shape ≡ true }
    ensures looked { HasLooked D.meaning store.old store.new result }
    ensures says { (R : List Record) (o : ℕ) → Knows D.meaning R o store.old ground.now → IfOk result (IsCoded ground.now.shape R o position) }
    ensures sound { (R : List Record) (o : ℕ) → Knows D.meaning R o store.old ground.now → position < length (data_blocks ground.now.shape R o) → store.old.fault ≡ None → IfErr result IsSoundFault }
{
    match place_at(&ground.shape, ground.segment.extents, position) {
        Some(place) => coded_at(store, ground, &place),
        None => Err(store.refuse(ground.segment.header)),
    }
}
