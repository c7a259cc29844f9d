// Reading the page of a block.
ghost use Rattle.std.specs.Prelude.{◌≡◌, ℕ, List, true, IfErr, IsErrOf, OnOk};
ghost use Rattle.disk_model.specs.Types.{Causes, Untouched};
ghost use Rattle.page_store.specs.Types.{IsStore, Names, block};
ghost use Rattle.page_set.specs.Spelled.{meaning_of};
ghost use Rattle.buffer_pool.specs.Frames.{has_page as is_page, in_file, IsSpelled};
ghost use Rattle.buffer_pool.specs.Reading.{IsReading, IsSpelledIn};

use crate::frame::has_page;
use disk_model::Disk;
use page_bytes::PageFault as DecodeFault;
use page_set::{Page, decode};
use page_store::{PageFault, PageStore};
use seg_base::{BLOCK_SIZE, Dba};
use std::alloc::Global;

/// The page of a block as its bytes in the data file spell it.
pub(crate) fn read_page<D: Disk>(
    alloc: Global,
    store: &mut PageStore,
    disk: &mut D,
    dba: Dba,
) -> Result<Page, PageFault>
    ensures page { (pages : ℕ → List ℕ) → IsStore D.meaning disk.old store.old pages → IsReading store.old dba (IsSpelled dba (pages dba)) (λ page. page ≡ in_file pages dba) result }
    ensures found { D.meaning.told disk.old → IsReading store.old dba (IsSpelledIn dba (D.meaning.files disk.old).data_bytes) (λ page. page ≡ meaning_of dba (block dba (D.meaning.files disk.old).data_bytes)) result }
    ensures has { OnOk result (is_page store.old dba ≡ true) }
    ensures names { IfErr result (Names (λ b. b ≡ dba)) }
    ensures same { store.new ≡ store.old }
    ensures cause { Causes D.meaning disk.old disk.new (IsErrOf result PageFault.DeviceFault) }
    ensures untouched { Untouched D.meaning disk.old disk.new }
    ensures reads { D.meaning.told disk.old → D.meaning.log_reads disk.new ≡ D.meaning.log_reads disk.old }
{
    if !has_page(&store.shape(), dba) {
        return Err(PageFault::BadPage { dba });
    }
    let mut bytes = [0; BLOCK_SIZE];
    match store.get(disk, dba, &mut bytes) {
        Ok(()) => {}
        Err(fault) => return Err(fault),
    }
    match decode(alloc, dba, &bytes) {
        Ok(page) => Ok(page),
        Err(DecodeFault::BadPage { offset: _ }) => Err(PageFault::BadPage { dba }),
        Err(DecodeFault::NoMemory) => Err(PageFault::NoMemory),
    }
}
