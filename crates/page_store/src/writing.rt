// The steps of a batch, each synced before the next one begins.
ghost use Rattle.std.specs.Prelude.{◌-◌, ◌≡◌, ◌↔◌, ◌≤◌, ◌+◌, ◌*◌, ◌∷◌, ◌++◌, [], ℕ, List, length, drop, true, OnOk, IfErr, IsErr, IsErrOf, flat_map};
ghost use Rattle.seg_words.specs.Types.{w32, to_be_bytes, Shape};
ghost use Rattle.page_bytes.specs.Types.{page_of as page_with};
ghost use Rattle.disk_model.specs.Types.{written, Torn, Leaves, Causes, OnlyFile, IsSettled, IsPut, Settles};
ghost use Rattle.disk_model.specs.declared.disk.File.TheVariants.{Data};
ghost use Rattle.page_store.specs.declared.page.RawPage.{RawPage};
ghost use Rattle.page_store.specs.Pages.{HasPages, is_batch, block, head_blocks};
ghost use Rattle.page_store.specs.Batches.{AsLong, after, blocks_of, IsShut, IsStore, LeavesLog, WholeOrNot, Answers};
ghost use Rattle.page_store.specs.Steps.{IsCopied, IsOpened, IsPlaced, dba_bytes};

use crate::area::{AREA_AT, AREA_END, AREA_HEAD, COPIES_AT, read_page};
use crate::{PageFault, RawPage};
use disk_model::{Disk, File};
use page_bytes::{add, begin};
use seg_base::{BLOCK_SIZE, DOUBLE_WRITE_BLOCK, DOUBLE_WRITE_PAGES, Failed};

// The head of the area for a batch, its gate closed.
fn head_bytes(batch: &[RawPage]) -> [u8; BLOCK_SIZE]
    requires { length batch.now ≤ DOUBLE_WRITE_PAGES }
    ensures { result ≡ page_with (0 ∷ length batch.now ∷ flat_map dba_bytes batch.now) }
{
    let mut head = [0; BLOCK_SIZE];
    let start = begin(&mut head);
    let mut at = add(&mut head, start, &[0, batch.len() as u8]);
    for page in batch {
        at = add(&mut head, at, &page.dba_bytes());
    }
    head
}

// All of the head but its gate.
fn behind_gate(head: &[u8; BLOCK_SIZE]) -> &[u8]
    ensures bytes { result.now ≡ drop 1 head.now }
    ensures long { length result.now ≡ BLOCK_SIZE - 1 }
{
    let (_gate, rest) = head.split_at(1);
    rest
}

/// Writes the head of the area behind its closed gate, and the copies.
pub(crate) fn write_copies<D: Disk>(disk: &mut D, batch: &[RawPage]) -> Result<(), Failed>
    requires { length batch.now ≤ DOUBLE_WRITE_PAGES }
    ensures any_moment { (shape : Shape) (pages : ℕ → List ℕ) → IsStore D.meaning disk.old shape pages → is_batch shape (blocks_of batch.now) ≡ true
        → Leaves D.meaning disk.old disk.new (OnlyFile D.meaning disk.old Data (AsLong (D.meaning.files disk.old).data_bytes (IsShut shape pages))) }
    ensures done { (shape : Shape) (pages : ℕ → List ℕ) → IsStore D.meaning disk.old shape pages → is_batch shape (blocks_of batch.now) ≡ true
        → OnOk result (Settles D.meaning disk.old disk.new Data (AsLong (D.meaning.files disk.old).data_bytes (IsCopied shape pages batch.now))) }
    ensures log { LeavesLog D.meaning disk.old disk.new }
    ensures cause { Causes D.meaning disk.old disk.new (IsErr result) }
    ensures told { D.meaning.told disk.new ↔ D.meaning.told disk.old }
    ensures reads { D.meaning.log_reads disk.new ≡ D.meaning.log_reads disk.old }
{
    let head = head_bytes(batch);
    disk.write_at(File::Data, AREA_AT + 1, behind_gate(&head))?;
    for (i, page) in batch.iter().enumerate() {
        let at = COPIES_AT + BLOCK_SIZE as u64 * i as u64;
        disk.write_at(File::Data, at, page.as_slice())?;
    }
    disk.sync(File::Data)
}

// Writes the gate of the area, and syncs the file.
fn set_gate<D: Disk>(disk: &mut D, gate: u8) -> Result<(), Failed>
    ensures any_moment { IsSettled D.meaning disk.old Data → Leaves D.meaning disk.old disk.new (OnlyFile D.meaning disk.old Data (Torn AREA_AT 1 (D.meaning.files disk.old).data_bytes)) }
    ensures put { IsSettled D.meaning disk.old Data → OnOk result (IsPut D.meaning disk.old disk.new Data (written (D.meaning.files disk.old).data_bytes AREA_AT (gate ∷ []))) }
    ensures log { LeavesLog D.meaning disk.old disk.new }
    ensures cause { Causes D.meaning disk.old disk.new (IsErr result) }
    ensures told { D.meaning.told disk.new ↔ D.meaning.told disk.old }
    ensures reads { D.meaning.log_reads disk.new ≡ D.meaning.log_reads disk.old }
{
    disk.write_at(File::Data, AREA_AT, &[gate])?;
    disk.sync(File::Data)
}

/// Opens the gate of the area: from then on the copies count.
pub(crate) fn open_area<D: Disk>(disk: &mut D) -> Result<(), Failed>
    ensures any_moment { (shape : Shape) (pages : ℕ → List ℕ) (batch : List RawPage) → IsSettled D.meaning disk.old Data → IsCopied shape pages batch (D.meaning.files disk.old).data_bytes
        → Leaves D.meaning disk.old disk.new (OnlyFile D.meaning disk.old Data (AsLong (D.meaning.files disk.old).data_bytes (WholeOrNot shape pages batch))) }
    ensures done { (shape : Shape) (pages : ℕ → List ℕ) (batch : List RawPage) → IsSettled D.meaning disk.old Data → IsCopied shape pages batch (D.meaning.files disk.old).data_bytes
        → OnOk result (Settles D.meaning disk.old disk.new Data (AsLong (D.meaning.files disk.old).data_bytes (IsOpened shape pages batch))) }
    ensures log { LeavesLog D.meaning disk.old disk.new }
    ensures cause { Causes D.meaning disk.old disk.new (IsErr result) }
    ensures told { D.meaning.told disk.new ↔ D.meaning.told disk.old }
    ensures reads { D.meaning.log_reads disk.new ≡ D.meaning.log_reads disk.old }
{
    set_gate(disk, 1)
}

/// Writes the pages to their blocks.
pub(crate) fn write_places<D: Disk>(disk: &mut D, batch: &[RawPage]) -> Result<(), Failed>
    ensures any_moment { (shape : Shape) (pages : ℕ → List ℕ) → IsSettled D.meaning disk.old Data → IsOpened shape pages batch.now (D.meaning.files disk.old).data_bytes
        → Leaves D.meaning disk.old disk.new (OnlyFile D.meaning disk.old Data (AsLong (D.meaning.files disk.old).data_bytes (HasPages shape (after batch.now pages)))) }
    ensures done { (shape : Shape) (pages : ℕ → List ℕ) → IsSettled D.meaning disk.old Data → IsOpened shape pages batch.now (D.meaning.files disk.old).data_bytes
        → OnOk result (Settles D.meaning disk.old disk.new Data (AsLong (D.meaning.files disk.old).data_bytes (IsPlaced shape pages batch.now))) }
    ensures log { LeavesLog D.meaning disk.old disk.new }
    ensures cause { Causes D.meaning disk.old disk.new (IsErr result) }
    ensures told { D.meaning.told disk.new ↔ D.meaning.told disk.old }
    ensures reads { D.meaning.log_reads disk.new ≡ D.meaning.log_reads disk.old }
{
    for page in batch {
        disk.write_at(File::Data, page.offset(), page.as_slice())?;
    }
    disk.sync(File::Data)
}

/// Writes the copies of the area to their blocks.
pub(crate) fn place_copies<D: Disk>(disk: &mut D, blocks: &[u32]) -> Result<(), PageFault>
    requires { length blocks.now ≤ DOUBLE_WRITE_PAGES }
    ensures any_moment { (shape : Shape) (pages : ℕ → List ℕ) (batch : List RawPage) → IsSettled D.meaning disk.old Data → IsOpened shape pages batch (D.meaning.files disk.old).data_bytes
        → blocks.now ≡ head_blocks (block DOUBLE_WRITE_BLOCK (D.meaning.files disk.old).data_bytes)
        → Leaves D.meaning disk.old disk.new (OnlyFile D.meaning disk.old Data (AsLong (D.meaning.files disk.old).data_bytes (HasPages shape (after batch pages)))) }
    ensures done { (shape : Shape) (pages : ℕ → List ℕ) (batch : List RawPage) → IsSettled D.meaning disk.old Data → IsOpened shape pages batch (D.meaning.files disk.old).data_bytes
        → blocks.now ≡ head_blocks (block DOUBLE_WRITE_BLOCK (D.meaning.files disk.old).data_bytes)
        → Answers result (λ _. Settles D.meaning disk.old disk.new Data (AsLong (D.meaning.files disk.old).data_bytes (IsPlaced shape pages batch))) }
    ensures whole { D.meaning.told disk.old → AREA_END ≤ length (D.meaning.files disk.old).data_bytes → IfErr result (λ e. e ≡ PageFault.DeviceFault) }
    ensures log { LeavesLog D.meaning disk.old disk.new }
    ensures cause { Causes D.meaning disk.old disk.new (IsErrOf result PageFault.DeviceFault) }
    ensures told { D.meaning.told disk.new ↔ D.meaning.told disk.old }
    ensures reads { D.meaning.told disk.old → D.meaning.log_reads disk.new ≡ D.meaning.log_reads disk.old }
{
    let mut page = [0; BLOCK_SIZE];
    for (i, block) in blocks.iter().enumerate() {
        if !read_page(disk, COPIES_AT + BLOCK_SIZE as u64 * i as u64, &mut page)? {
            return Err(PageFault::BadPage { dba: AREA_HEAD });
        }
        disk.write_at(File::Data, BLOCK_SIZE as u64 * u64::from(*block), &page)?;
    }
    disk.sync(File::Data)?;
    Ok(())
}

/// Closes the gate of the area, whose pages stand in their blocks.
pub(crate) fn close_area<D: Disk>(disk: &mut D) -> Result<(), Failed>
    ensures any_moment { (shape : Shape) (pages : ℕ → List ℕ) (batch : List RawPage) → IsSettled D.meaning disk.old Data → IsPlaced shape pages batch (D.meaning.files disk.old).data_bytes
        → Leaves D.meaning disk.old disk.new (OnlyFile D.meaning disk.old Data (AsLong (D.meaning.files disk.old).data_bytes (HasPages shape (after batch pages)))) }
    ensures done { (shape : Shape) (pages : ℕ → List ℕ) (batch : List RawPage) → IsSettled D.meaning disk.old Data → IsPlaced shape pages batch (D.meaning.files disk.old).data_bytes
        → OnOk result (Settles D.meaning disk.old disk.new Data (AsLong (D.meaning.files disk.old).data_bytes (IsShut shape (after batch pages)))) }
    ensures log { LeavesLog D.meaning disk.old disk.new }
    ensures cause { Causes D.meaning disk.old disk.new (IsErr result) }
    ensures told { D.meaning.told disk.new ↔ D.meaning.told disk.old }
    ensures reads { D.meaning.log_reads disk.new ≡ D.meaning.log_reads disk.old }
{
    set_gate(disk, 0)
}
