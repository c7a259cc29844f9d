// The slot to which the cursor comes, going down.
ghost use Rattle.std.specs.Prelude.{◌≡◌, ◌<◌, ℕ, true, None, List, length, IfOk, IfErr};
ghost use Rattle.seg_words.specs.Types.{is_shape};
ghost use Rattle.redo_model.specs.Records.{Record};
ghost use Rattle.redo_model.specs.Model.{data_blocks};
ghost use Rattle.store_core.specs.Causes.{HasLooked, IsSoundFault};
ghost use Rattle.shrink_move.specs.Known.{Knows};
ghost use Rattle.shrink_move.specs.Walks.{ComesAt, ComesDown, IsCoded};

use crate::ground::Ground;
use crate::opened::OpenIn;
use crate::walking::{Coded, coded_position};
use disk_model::Disk;
use seg_base::{Dba, Newest, Rowid};
use shrink_laws::Skip;
use std::alloc::Global;
use store_core::{Store, StoreFault, ask};

/// A slot to which the cursor comes, at a position of the table.
#[derive(Clone, Copy, Debug, PartialEq, Eq, Drop)]
pub struct Come {
    pub place: u32,
    pub at: Rowid,
}

fn come_to(position: u32, dba: Dba, slot: u8) -> Come
    ensures { result ≡ record { place = position; at = record { dba = dba; slot = slot } } }
{
    Come {
        place: position,
        at: Rowid { dba, slot },
    }
}

/// The slot of a data block to which the cursor comes there.
fn come_in<D: Disk>(
    alloc: Global,
    store: &mut Store<D>,
    ground: &Ground,
    skips: &Newest<Skip>,
    position: u32,
    block: &Coded,
) -> Result<Option<Come>, StoreFault>
    requires unspent { store.old.fault ≡ None }
    ensures looked { HasLooked D.meaning store.old store.new result }
    ensures says { (R : List Record) (o : ℕ) → Knows D.meaning R o store.old ground.now → IsCoded ground.now.shape R o position block.now → IfOk result (ComesAt ground.now.shape R o skips.now position) }
    ensures sound { (R : List Record) (o : ℕ) → Knows D.meaning R o store.old ground.now → IsCoded ground.now.shape R o position block.now → IfErr result IsSoundFault }
{
    let _ = ground;
    if block.code == 0 {
        return Ok(None);
    }
    let question = OpenIn {
        dba: block.dba,
        skips,
    };
    match ask(alloc, store, block.dba, &question) {
        Ok(Some(slot)) => Ok(Some(come_to(position, block.dba, slot))),
        Ok(None) => Ok(None),
        Err(fault) => Err(fault),
    }
}

/// The slot of the block at a position to which the cursor comes there.
fn come_at<D: Disk>(
    alloc: Global,
    store: &mut Store<D>,
    ground: &Ground,
    skips: &Newest<Skip>,
    position: u32,
) -> Result<Option<Come>, StoreFault>
    requires { is_shape ground.now.shape ≡ true }
    ensures looked { HasLooked D.meaning store.old store.new result }
    ensures says { (R : List Record) (o : ℕ) → Knows D.meaning R o store.old ground.now → IfOk result (ComesAt ground.now.shape R o skips.now position) }
    ensures sound { (R : List Record) (o : ℕ) → Knows D.meaning R o store.old ground.now → position < length (data_blocks ground.now.shape R o) → store.old.fault ≡ None → IfErr result IsSoundFault }
{
    match coded_position(store, ground, position) {
        Ok(block) => come_in(alloc, store, ground, skips, position, &block),
        Err(fault) => Err(fault),
    }
}

/// The slot to which the cursor comes from a position down. None exactly where each slot above the first position that holds
/// something was skipped.
pub fn come_down<D: Disk>(
    alloc: Global,
    store: &mut Store<D>,
    ground: &Ground,
    skips: &Newest<Skip>,
    cursor: u32,
) -> Result<Option<Come>, StoreFault>
    requires shape { is_shape ground.now.shape ≡ true }
    requires unspent { store.old.fault ≡ None }
    ensures looked { HasLooked D.meaning store.old store.new result }
    ensures says { (R : List Record) (o : ℕ) → Knows D.meaning R o store.old ground.now → IfOk result (ComesDown ground.now.shape R o skips.now cursor) }
    ensures sound { (R : List Record) (o : ℕ) → Knows D.meaning R o store.old ground.now → cursor < length (data_blocks ground.now.shape R o) → IfErr result IsSoundFault }
{
    for passed in 0..cursor {
        match come_at(alloc, store, ground, skips, cursor - passed) {
            Err(fault) => return Err(fault),
            Ok(Some(come)) => return Ok(Some(come)),
            Ok(None) => {}
        }
    }
    Ok(None)
}
