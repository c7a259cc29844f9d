// Faults of a store as those of its files.
ghost use Rattle.std.specs.Prelude.{◌≡◌, ◌≤◌, ◌⊎◌, slice_index};
ghost use Rattle.seg_words.specs.Types.{Rose};
ghost use Rattle.disk_model.specs.Types.{Causes, Untouched};
ghost use Rattle.store_files.specs.declared.fault.OpenFault.TheVariants as refusals;
ghost use Rattle.store_core.specs.declared.fault.StoreFault.TheVariants as faults;
ghost use Rattle.store_core.specs.declared.fault.StoreOpen.TheVariants as opens;
ghost use Rattle.recovery.specs.FaultOf.{IsFirstByte, IsPageFault, IsReadFault, IsStoreFault};

use disk_model::{Disk, File};
use seg_base::{BLOCK_SIZE, Dba};
use store_core::{StoreFault, StoreOpen};
use store_files::OpenFault;

/// That the page of a block is wrong: the place where it begins in the data file, and the byte there.
#[tactic(auto, using(disk_model::proofs::Going::untouched_call))]
pub fn bad_page<D: Disk>(disk: &mut D, dba: Dba) -> OpenFault
    ensures place { IsPageFault dba result }
    ensures byte { D.meaning.told disk.old → IsFirstByte (D.meaning.files disk.old) dba result }
    ensures cause { Causes D.meaning disk.old disk.new (result ≡ refusals.DeviceFault) }
    ensures untouched { Untouched D.meaning disk.old disk.new }
{
    let offset = u64::from(dba.0) * BLOCK_SIZE as u64;
    let mut byte = [0u8; 1];
    match disk.read(File::Data, offset, &mut byte) {
        Ok(_count) => OpenFault::BadFile {
            file: File::Data,
            offset,
            seen: byte[0],
        },
        Err(_) => OpenFault::DeviceFault,
    }
}

/// Why the log wasn't read, or its records make no pages.
#[tactic(auto, using(disk_model::proofs::Going::untouched_start))]
pub(crate) fn of_open<D: Disk>(disk: &mut D, fault: StoreOpen) -> OpenFault
    ensures same { D.meaning.told disk.old → IsReadFault (D.meaning.files disk.old) fault result }
    ensures later { D.meaning.fault_count disk.old ≤ D.meaning.fault_count disk.new }
    ensures device { result ≡ refusals.DeviceFault → (fault ≡ opens.DeviceFault) ⊎ Rose (D.meaning.fault_count disk.old) (D.meaning.fault_count disk.new) }
    ensures only { result ≡ refusals.AlreadyFormatted → ⊥ }
    ensures untouched { Untouched D.meaning disk.old disk.new }
{
    match fault {
        StoreOpen::DeviceFault => OpenFault::DeviceFault,
        StoreOpen::NotOpen => OpenFault::NotFormatted,
        StoreOpen::BadLog { offset, seen } => OpenFault::BadFile {
            file: File::Log,
            offset,
            seen,
        },
        StoreOpen::BadPage { dba } => bad_page(disk, dba),
        StoreOpen::NoMemory => OpenFault::NoMemory,
    }
}

/// Why what was left active wasn't taken back.
#[tactic(auto, using(disk_model::proofs::Going::untouched_start))]
pub(crate) fn of_store<D: Disk>(disk: &mut D, fault: StoreFault) -> OpenFault
    ensures same { D.meaning.told disk.old → IsStoreFault (D.meaning.files disk.old) fault result }
    ensures later { D.meaning.fault_count disk.old ≤ D.meaning.fault_count disk.new }
    ensures device { result ≡ refusals.DeviceFault → (fault ≡ faults.DeviceFault) ⊎ Rose (D.meaning.fault_count disk.old) (D.meaning.fault_count disk.new) }
    ensures only { result ≡ refusals.AlreadyFormatted → ⊥ }
    ensures untouched { Untouched D.meaning disk.old disk.new }
{
    match fault {
        StoreFault::DeviceFault => OpenFault::DeviceFault,
        StoreFault::BadPage { dba } => bad_page(disk, dba),
        StoreFault::NoMemory => OpenFault::NoMemory,
    }
}
