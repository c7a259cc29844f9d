// Whether a block stands at a lower position.
ghost use Rattle.std.specs.Prelude.{◌≡◌, ◌<◌, ◌≤◌, ℕ, true, None, List, eqb, length, IfOk, IfErr};
ghost use Rattle.seg_words.specs.Types.{is_shape};
ghost use Rattle.redo_model.specs.Records.{Record};
ghost use Rattle.redo_model.specs.Model.{data_blocks};
ghost use Rattle.store_core.specs.Causes.{HasLooked, IsSoundFault};
ghost use Rattle.shrink_move.specs.Known.{Knows};
ghost use Rattle.shrink_move.specs.Walks.{IsBelow, IsThere};

use crate::ground::Ground;
use crate::walking::{Coded, coded_position};
use disk_model::Disk;
use seg_base::Dba;
use store_core::{Store, StoreFault};

fn is_block(block: &Coded, dba: &Dba) -> bool
    ensures { result ≡ eqb block.now.dba dba.now }
{
    block.dba == *dba
}

/// Whether the block stands at this position.
fn is_there<D: Disk>(
    store: &mut Store<D>,
    ground: &Ground,
    dba: &Dba,
    position: u32,
) -> Result<bool, StoreFault>
    requires { is_shape ground.now.shape ≡ true }
    ensures looked { HasLooked D.meaning store.old store.new result }
    ensures says { (R : List Record) (o : ℕ) → Knows D.meaning R o store.old ground.now → IfOk result (IsThere ground.now.shape R o position dba.now) }
    ensures sound { (R : List Record) (o : ℕ) → Knows D.meaning R o store.old ground.now → position < length (data_blocks ground.now.shape R o) → store.old.fault ≡ None → IfErr result IsSoundFault }
{
    match coded_position(store, ground, position) {
        Ok(block) => Ok(is_block(&block, dba)),
        Err(fault) => Err(fault),
    }
}

/// Whether the block stands at a position of the table below this one.
pub fn stands_below<D: Disk>(
    store: &mut Store<D>,
    ground: &Ground,
    dba: &Dba,
    place: u32,
) -> Result<bool, StoreFault>
    requires shape { is_shape ground.now.shape ≡ true }
    requires unspent { store.old.fault ≡ None }
    ensures looked { HasLooked D.meaning store.old store.new result }
    ensures says { (R : List Record) (o : ℕ) → Knows D.meaning R o store.old ground.now → IfOk result (IsBelow ground.now.shape R o place dba.now) }
    ensures sound { (R : List Record) (o : ℕ) → Knows D.meaning R o store.old ground.now → place ≤ length (data_blocks ground.now.shape R o) → IfErr result IsSoundFault }
{
    for position in 0..place {
        match is_there(store, ground, dba, position) {
            Err(fault) => return Err(fault),
            Ok(true) => return Ok(true),
            Ok(false) => {}
        }
    }
    Ok(false)
}
