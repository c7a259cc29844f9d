// A checkpoint that is written.
ghost use Rattle.std.specs.Prelude.{◌≡◌, ◌↔◌, ℕ, List, Some, true, IfErr, IsErr, OnOk};
ghost use Rattle.disk_model.specs.Types.{Leaves, Causes, OnlyFile};
ghost use Rattle.disk_model.specs.declared.disk.File.TheVariants.{Data};
ghost use Rattle.page_store.specs.Types.{AsLong, IsStore, Leads, LeavesLog, is_place};
ghost use Rattle.checkpoint_block.specs.Points.{point_of, spelled_point, with_point, PointOrNot};

use crate::Checkpoint;
use crate::point::page_of;
use disk_model::Disk;
use page_store::{PageFault, PageStore};
use seg_base::CHECKPOINT_BLOCK;

/// Writes a checkpoint into block 0, by a batch of its own. At any moment of the call a crash leaves block 0 as it was, or with
/// the new checkpoint, and each other page as it was, in a file as long as before. At `Ok` each crash from then on leaves the new
/// one. It takes no memory. After an `Err` the data file has to be opened again.
pub fn write<D: Disk>(
    disk: &mut D,
    store: &mut PageStore,
    point: &Checkpoint,
) -> Result<(), PageFault>
    requires { is_place store.old CHECKPOINT_BLOCK ≡ true }
    ensures any_moment { (pages : ℕ → List ℕ) → IsStore D.meaning disk.old store.old pages
        → Leaves D.meaning disk.old disk.new (OnlyFile D.meaning disk.old Data (AsLong (D.meaning.files disk.old).data_bytes (PointOrNot store.old pages point.now))) }
    ensures done { (pages : ℕ → List ℕ) → IsStore D.meaning disk.old store.old pages
        → OnOk result (Leads D.meaning disk.old disk.new store.old (with_point point.now pages)) }
    // What is written is read.
    ensures said { point_of (spelled_point point.now) ≡ Some point.now }
    ensures same { store.new ≡ store.old }
    ensures log { LeavesLog D.meaning disk.old disk.new }
    ensures cause { Causes D.meaning disk.old disk.new (IsErr result) }
    ensures only { IfErr result (λ e. e ≡ PageFault.DeviceFault) }
    ensures told { D.meaning.told disk.new ↔ D.meaning.told disk.old }
    ensures reads { D.meaning.log_reads disk.new ≡ D.meaning.log_reads disk.old }
{
    point.numbers_in_range();
    let page = page_of(point);
    store.put_all(disk, &[page])
}
