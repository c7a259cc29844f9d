// The checkpoint that a data file says.
ghost use Rattle.std.specs.Prelude.{◌≡◌, ℕ, List, true, IfOk, IfErr, IsErrOf};
ghost use Rattle.disk_model.specs.Types.{Causes, Untouched};
ghost use Rattle.page_store.specs.Types.{IsStore, Names, block, is_place};
ghost use Rattle.checkpoint_block.specs.Points.{point_of, IsSaid};

use crate::Checkpoint;
use crate::point::{BLOCK, point_on};
use disk_model::Disk;
use page_bytes::PageFault as DecodeFault;
use page_set::decode;
use page_store::{PageFault, PageStore};
use seg_base::{BLOCK_SIZE, CHECKPOINT_BLOCK, NoMemory};
use std::alloc::Global;

// The checkpoint that the bytes of block 0 say, if they are those of a page that says one.
fn point_in(alloc: Global, bytes: &[u8; BLOCK_SIZE]) -> Result<Option<Checkpoint>, NoMemory>
    ensures { IfOk result (λ point. point ≡ point_of bytes.now) }
{
    match decode(alloc, BLOCK, bytes) {
        Ok(page) => Ok(point_on(&page)),
        Err(DecodeFault::BadPage { offset: _ }) => Ok(None),
        Err(DecodeFault::NoMemory) => Err(NoMemory),
    }
}

/// The last checkpoint of a store, which block 0 of its data file says; of a store that had none yet that of an empty list.
/// `BadPage` comes exactly where block 0 isn't there whole, or spells no page of it, or one of another kind.
pub fn read<D: Disk>(
    alloc: Global,
    disk: &mut D,
    store: &mut PageStore,
) -> Result<Checkpoint, PageFault>
    requires { is_place store.old CHECKPOINT_BLOCK ≡ true }
    ensures page { (pages : ℕ → List ℕ) → IsStore D.meaning disk.old store.old pages → IsSaid (pages CHECKPOINT_BLOCK) result }
    ensures found { D.meaning.told disk.old → IsSaid (block CHECKPOINT_BLOCK (D.meaning.files disk.old).data_bytes) result }
    ensures names { IfErr result (Names (λ b. b ≡ CHECKPOINT_BLOCK)) }
    ensures same { store.new ≡ store.old }
    ensures cause { Causes D.meaning disk.old disk.new (IsErrOf result PageFault.DeviceFault) }
    ensures untouched { Untouched D.meaning disk.old disk.new }
    ensures reads { D.meaning.told disk.old → D.meaning.log_reads disk.new ≡ D.meaning.log_reads disk.old }
{
    let mut bytes = [0; BLOCK_SIZE];
    match store.get(disk, BLOCK, &mut bytes) {
        Ok(()) => {}
        Err(fault) => return Err(fault),
    }
    match point_in(alloc, &bytes) {
        Ok(Some(point)) => Ok(point),
        Ok(None) => Err(PageFault::BadPage { dba: BLOCK }),
        Err(NoMemory) => Err(PageFault::NoMemory),
    }
}
