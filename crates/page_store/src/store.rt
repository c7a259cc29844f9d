// The pages of a data file.
ghost use Rattle.std.specs.Prelude.{◌≡◌, ◌≢◌, ◌↔◌, ◌≤◌, ℕ, List, length, true, false, IfOk, IfErr, OnOk, IsErr, IsErrOf};
ghost use Rattle.seg_words.specs.Types.{Shape};
ghost use Rattle.disk_model.specs.Types.{Leaves, Causes, Untouched, OnlyFile, IsSettled, Settles};
ghost use Rattle.disk_model.specs.declared.disk.File.TheVariants.{Data};
ghost use Rattle.page_store.specs.declared.page.RawPage.{RawPage};
ghost use Rattle.page_store.specs.Pages.{HasPages, is_place, is_batch, needs_finish};
ghost use Rattle.page_store.specs.Batches.{AsLong, after, blocks_of, IsShut, IsStore, IsUnfinished, Leads, LeavesLog, WholeOrNot, IsOpening, IsLook, Answers, Names};

use crate::area::{AREA_END, find_area, read_page};
use crate::page::offset_of;
use crate::writing::{close_area, open_area, place_copies, write_copies, write_places};
use crate::{PageFault, RawPage};
use disk_model::Disk;
use seg_base::{BLOCK_SIZE, DOUBLE_WRITE_PAGES, Dba, Failed, Shape};
use std::marker::Model;

/// The data file of a store as a map of pages, seen as the store's shape.
#[derive(Clone, Copy, Debug, PartialEq, Eq, Drop)]
pub struct PageStore {
    shape: Shape,
}

impl Model for PageStore {
    ghost use Rattle.seg_words.specs.Types.{Shape};

    ghost Value = { Shape };

    ghost view = { λ store. store.shape };

    ghost inverse = { λ shape. record { shape = shape } };
}

// Finishes the batch that the area has copies of.
#[tactic(auto, using(crate::proofs::Logs::log_then, crate::proofs::Logs::log_looked))]
fn finish<D: Disk>(disk: &mut D, blocks: &[u32]) -> Result<(), PageFault>
    requires { length blocks.now ≤ DOUBLE_WRITE_PAGES }
    ensures any_moment { (shape : Shape) (pages : ℕ → List ℕ) → IsSettled D.meaning disk.old Data → IsUnfinished shape pages blocks.now (D.meaning.files disk.old).data_bytes
        → Leaves D.meaning disk.old disk.new (OnlyFile D.meaning disk.old Data (AsLong (D.meaning.files disk.old).data_bytes (HasPages shape pages))) }
    ensures done { (shape : Shape) (pages : ℕ → List ℕ) → IsSettled D.meaning disk.old Data → IsUnfinished shape pages blocks.now (D.meaning.files disk.old).data_bytes
        → Answers result (λ _. Settles D.meaning disk.old disk.new Data (AsLong (D.meaning.files disk.old).data_bytes (IsShut shape pages))) }
    ensures whole { D.meaning.told disk.old → AREA_END ≤ length (D.meaning.files disk.old).data_bytes → IfErr result (λ e. e ≡ PageFault.DeviceFault) }
    ensures log { LeavesLog D.meaning disk.old disk.new }
    ensures cause { Causes D.meaning disk.old disk.new (IsErrOf result PageFault.DeviceFault) }
    ensures told { D.meaning.told disk.new ↔ D.meaning.told disk.old }
    ensures reads { D.meaning.told disk.old → D.meaning.log_reads disk.new ≡ D.meaning.log_reads disk.old }
{
    match place_copies(disk, blocks) {
        Ok(()) => {}
        Err(fault) => return Err(fault),
    }
    match close_area(disk) {
        Ok(()) => Ok(()),
        Err(Failed) => Err(PageFault::DeviceFault),
    }
}

// Writes a batch.
#[tactic(auto, using(crate::proofs::Logs::log_then, crate::proofs::Logs::log_looked))]
fn put_batch<D: Disk>(disk: &mut D, batch: &[RawPage]) -> Result<(), Failed>
    requires { length batch.now ≤ DOUBLE_WRITE_PAGES }
    ensures any_moment { (shape : Shape) (pages : ℕ → List ℕ) → IsStore D.meaning disk.old shape pages → is_batch shape (blocks_of batch.now) ≡ true
        → Leaves D.meaning disk.old disk.new (OnlyFile D.meaning disk.old Data (AsLong (D.meaning.files disk.old).data_bytes (WholeOrNot shape pages batch.now))) }
    ensures done { (shape : Shape) (pages : ℕ → List ℕ) → IsStore D.meaning disk.old shape pages → is_batch shape (blocks_of batch.now) ≡ true
        → OnOk result (Leads D.meaning disk.old disk.new shape (after batch.now pages)) }
    ensures log { LeavesLog D.meaning disk.old disk.new }
    ensures cause { Causes D.meaning disk.old disk.new (IsErr result) }
    ensures told { D.meaning.told disk.new ↔ D.meaning.told disk.old }
    ensures reads { D.meaning.log_reads disk.new ≡ D.meaning.log_reads disk.old }
{
    write_copies(disk, batch)?;
    open_area(disk)?;
    write_places(disk, batch)?;
    close_area(disk)
}

/// Opens the data file. Where the gate of the double-write area is open, a batch was not finished: its pages are written
/// to their blocks, and the gate is closed. `BadPage` of block 4 comes exactly where the file ends before the area does,
/// or the gate is open and the area's head doesn't name 1 to 32 different blocks of the store outside the area.
///
/// At any moment of the call a crash leaves the pages of a store as they were, as `open` reads them, in a file as long
/// as before.
#[tactic(auto, using(crate::proofs::Logs::log_then, crate::proofs::Logs::log_looked))]
pub fn open<D: Disk>(disk: &mut D, shape: Shape) -> Result<PageStore, PageFault>
    ensures any_moment { (pages : ℕ → List ℕ) → IsSettled D.meaning disk.old Data → HasPages shape pages (D.meaning.files disk.old).data_bytes
        → Leaves D.meaning disk.old disk.new (OnlyFile D.meaning disk.old Data (AsLong (D.meaning.files disk.old).data_bytes (HasPages shape pages))) }
    ensures opened { (pages : ℕ → List ℕ) → IsSettled D.meaning disk.old Data → HasPages shape pages (D.meaning.files disk.old).data_bytes
        → Answers result (λ _. Leads D.meaning disk.old disk.new shape pages) }
    ensures shape { IfOk result (λ store. store ≡ shape) }
    ensures found { D.meaning.told disk.old → IsOpening shape (D.meaning.files disk.old).data_bytes result }
    // Whatever the file holds, the log stays.
    ensures log { LeavesLog D.meaning disk.old disk.new }
    // What is refused, or was closed already, is left as it was.
    ensures unless_open { D.meaning.told disk.old → needs_finish shape (D.meaning.files disk.old).data_bytes ≡ false → Untouched D.meaning disk.old disk.new }
    ensures cause { Causes D.meaning disk.old disk.new (IsErrOf result PageFault.DeviceFault) }
    ensures told { D.meaning.told disk.new ↔ D.meaning.told disk.old }
    ensures reads { D.meaning.told disk.old → D.meaning.log_reads disk.new ≡ D.meaning.log_reads disk.old }
{
    let area = match find_area(disk, &shape) {
        Ok(Some(area)) => area,
        Ok(None) => return Ok(PageStore { shape }),
        Err(fault) => return Err(fault),
    };
    match finish(disk, area.as_slice()) {
        Ok(()) => Ok(PageStore { shape }),
        Err(fault) => Err(fault),
    }
}

impl PageStore {
    pub fn shape(&self) -> Shape
        ensures { result ≡ self.now }
    {
        self.shape
    }

    /// Writes 1 to 32 pages to different blocks. At any moment of the call a crash leaves all pages as they were, or all
    /// of them with those of the batch, in a file as long as before. At `Ok` each crash from then on leaves them with
    /// those of the batch. It takes no memory. After an `Err` the data file has to be opened again.
    pub fn put_all<D: Disk>(&mut self, disk: &mut D, batch: &[RawPage]) -> Result<(), PageFault>
        requires { is_batch self.old (blocks_of batch.now) ≡ true }
        ensures any_moment { (pages : ℕ → List ℕ) → IsStore D.meaning disk.old self.old pages
            → Leaves D.meaning disk.old disk.new (OnlyFile D.meaning disk.old Data (AsLong (D.meaning.files disk.old).data_bytes (WholeOrNot self.old pages batch.now))) }
        ensures done { (pages : ℕ → List ℕ) → IsStore D.meaning disk.old self.old pages
            → OnOk result (Leads D.meaning disk.old disk.new self.old (after batch.now pages)) }
        ensures same { self.new ≡ self.old }
        ensures log { LeavesLog D.meaning disk.old disk.new }
        ensures cause { Causes D.meaning disk.old disk.new (IsErr result) }
        ensures only { IfErr result (λ e. e ≡ PageFault.DeviceFault) }
        ensures told { D.meaning.told disk.new ↔ D.meaning.told disk.old }
        ensures reads { D.meaning.log_reads disk.new ≡ D.meaning.log_reads disk.old }
    {
        match put_batch(disk, batch) {
            Ok(()) => Ok(()),
            Err(Failed) => Err(PageFault::DeviceFault),
        }
    }

    /// Reads the page of a block. `BadPage` comes exactly where the file ends within it, never in the file of a store.
    pub fn get<D: Disk>(
        &mut self,
        disk: &mut D,
        dba: Dba,
        into: &mut [u8; BLOCK_SIZE],
    ) -> Result<(), PageFault>
        requires { is_place self.old dba ≡ true }
        ensures page { (pages : ℕ → List ℕ) → IsStore D.meaning disk.old self.old pages → Answers result (λ _. into.new ≡ pages dba) }
        ensures found { D.meaning.told disk.old → IsLook (D.meaning.files disk.old).data_bytes dba into.new result }
        ensures names { IfErr result (Names (λ b. b ≡ dba)) }
        ensures same { self.new ≡ self.old }
        ensures cause { Causes D.meaning disk.old disk.new (IsErrOf result PageFault.DeviceFault) }
        ensures untouched { Untouched D.meaning disk.old disk.new }
        ensures reads { D.meaning.told disk.old → D.meaning.log_reads disk.new ≡ D.meaning.log_reads disk.old }
    {
        match read_page(disk, offset_of(dba), into) {
            Ok(true) => Ok(()),
            Ok(false) => Err(PageFault::BadPage { dba }),
            Err(Failed) => Err(PageFault::DeviceFault),
        }
    }
}
