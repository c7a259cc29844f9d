// The last formatted block of a table.
ghost use Rattle.std.specs.Prelude.{◌≡◌, ◌<◌, ◌≤◌, ℕ, true, None, List, length, IfOk, IfErr};
ghost use Rattle.seg_words.specs.Types.{MOST_EXTENTS, is_shape};
ghost use Rattle.redo_model.specs.Records.{Record};
ghost use Rattle.redo_model.specs.Model.{data_blocks};
ghost use Rattle.store_core.specs.Causes.{HasLooked, IsSoundFault};
ghost use Rattle.shrink_laws.specs.Stops.{last_formatted};
ghost use Rattle.shrink_move.specs.Known.{Knows};
ghost use Rattle.shrink_move.specs.Walks.{FormattedAt};

use crate::ground::Ground;
use crate::walking::coded_position;
use data_places::data_count;
use disk_model::Disk;
use store_core::{Store, StoreFault};

/// Whether the block at a position is formatted.
fn is_formatted<D: Disk>(
    store: &mut Store<D>,
    ground: &Ground,
    position: u32,
) -> Result<bool, StoreFault>
    requires { is_shape ground.now.shape ≡ true }
    ensures looked { HasLooked D.meaning store.old store.new result }
    ensures says { (R : List Record) (o : ℕ) → Knows D.meaning R o store.old ground.now → IfOk result (FormattedAt ground.now.shape R o position) }
    ensures sound { (R : List Record) (o : ℕ) → Knows D.meaning R o store.old ground.now → position < length (data_blocks ground.now.shape R o) → store.old.fault ≡ None → IfErr result IsSoundFault }
{
    match coded_position(store, ground, position) {
        Ok(block) => Ok(block.code != 0),
        Err(fault) => Err(fault),
    }
}

/// The last position whose block is formatted, or 0 where none is.
pub fn last_formatted<D: Disk>(store: &mut Store<D>, ground: &Ground) -> Result<u32, StoreFault>
    requires shape { is_shape ground.now.shape ≡ true }
    requires most { ground.now.segment.extents ≤ MOST_EXTENTS }
    requires unspent { store.old.fault ≡ None }
    ensures looked { HasLooked D.meaning store.old store.new result }
    ensures says { (R : List Record) (o : ℕ) → Knows D.meaning R o store.old ground.now → IfOk result (λ n. n ≡ last_formatted ground.now.shape R o) }
    ensures sound { (R : List Record) (o : ℕ) → Knows D.meaning R o store.old ground.now → IfErr result IsSoundFault }
{
    let count = data_count(&ground.shape, ground.segment.extents);
    for passed in 0..count {
        match is_formatted(store, ground, count - 1 - passed) {
            Err(fault) => return Err(fault),
            Ok(true) => return Ok(count - 1 - passed),
            Ok(false) => {}
        }
    }
    Ok(0)
}
