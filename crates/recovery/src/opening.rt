// Opening a store.
ghost use Rattle.std.specs.Prelude.{◌≡◌, ◌↔◌, ◌⊎◌, ℕ, List, length, None, false, IfOk, IfErr, IsErrOf};
ghost use Rattle.seg_words.specs.Types.{Shape as TheShape};
ghost use Rattle.disk_model.specs.Types.{Causes, Untouched, IsSettled};
ghost use Rattle.disk_model.specs.declared.disk.File.TheVariants.{Log};
ghost use Rattle.log_frame.specs.Types.{is_formatted};
ghost use Rattle.redo_model.specs.Records.{Record};
ghost use Rattle.rollback_laws.specs.Closing.{closed};
ghost use Rattle.store_files.specs.Store.{IsDurable};
ghost use Rattle.store_core.specs.Store.{IsTrue};
ghost use Rattle.store_core.specs.Survives.{IsSound, Survives};
ghost use Rattle.recovery.specs.Refused.{IsLeftActive, IsRead, IsReadOrRefused, IsRefused, IsSoundRefusal, Shows};
ghost use Rattle.recovery.specs.Opened.{IsOpened, Over, ReopensSince, TakesBack};

use crate::closing::take_back_active;
use crate::refusing::{of_open, of_store};
use disk_model::Disk;
use std::alloc::Global;
use store_core::{Loaded, Store, StoreFault, prepare};
use store_files::{OpenFault, read_head};

/// Reads the files and makes the pages that the records of the log make. No file is changed.
fn read_store<D: Disk>(alloc: Global, disk: &mut D) -> Result<Loaded<D>, OpenFault>
    ensures found { D.meaning.told disk.old → IsReadOrRefused (D.meaning.files disk.old) result }
    ensures shows { D.meaning.told disk.old → IfErr result (Shows (D.meaning.files disk.old)) }
    ensures list { (sh : TheShape) (R : List Record) → IsSettled D.meaning disk.old Log → IsSound sh R (D.meaning.files disk.old) → IfOk result (Over (IsTrue D.meaning R) disk.new) }
    ensures shape { (sh : TheShape) (R : List Record) → D.meaning.told disk.old → IsSound sh R (D.meaning.files disk.old) → IfOk result (λ loaded. loaded.shape ≡ sh) }
    ensures sound { (sh : TheShape) (R : List Record) → IsSettled D.meaning disk.old Log → IsSound sh R (D.meaning.files disk.old) → IfErr result IsSoundRefusal }
    ensures survives { (sh : TheShape) (R : List Record) → IsDurable D.meaning disk.old → IsSound sh R (D.meaning.files disk.old)
        → IfOk result (Over (Survives D.meaning (D.meaning.clock disk.old) (λ m. length R) R) disk.new) }
    ensures first { IfOk result (λ loaded. Untouched D.meaning disk.old loaded.first) }
    ensures unspent { IfOk result (λ loaded. loaded.fault ≡ None) }
    ensures cause { Causes D.meaning disk.old disk.new (IsErrOf result OpenFault.DeviceFault) }
    ensures only { IsErrOf result OpenFault.AlreadyFormatted → ⊥ }
    ensures untouched { Untouched D.meaning disk.old disk.new }
{
    let _shape = match read_head(disk) {
        Ok(shape) => shape,
        Err(fault) => return Err(fault),
    };
    match prepare(alloc, disk) {
        Ok(loaded) => Ok(loaded),
        Err(fault) => Err(of_open(disk, fault)),
    }
}

/// Takes back what is active in what was read of a disk, over that disk.
fn take_back_read<D: Disk>(
    alloc: Global,
    disk: &mut D,
    loaded: Loaded<D>,
) -> Result<Loaded<D>, StoreFault>
    requires { loaded.fault ≡ None }
    ensures { TakesBack D.meaning disk.old disk.new loaded result }
{
    let mut store = Store::over(disk, loaded);
    let taken = take_back_active(alloc, &mut store);
    let (disk, loaded) = store.into_parts();
    give_back(disk);
    match taken {
        Ok(()) => Ok(loaded),
        Err(fault) => Err(fault),
    }
}

// The store's loan ends here.
fn give_back<D>(_disk: &mut D)
    ensures { _disk.new ≡ _disk.old }
{}

/// Reads the store of a disk, takes back the transactions that were left active in it, and makes that stable. `Store::over` makes the
/// store of what it answers.
///
/// The files are tested in the order head of the log, length of the data file, groups of the log, pages. `NotFormatted` comes exactly
/// where the log isn't formatted, `BadFile` with the first wrong byte of the log, with the length of a data file that is
/// too short, or with the first byte of the block on whose page a record doesn't fit; then nothing is written. A sound store is
/// never refused. At each moment of the call a crash leaves an image of which an opening gives the same store.
pub fn recover<D: Disk>(alloc: Global, disk: &mut D) -> Result<Loaded<D>, OpenFault>
    ensures read { D.meaning.told disk.old → IfOk result (λ loaded. IsRead loaded.shape (D.meaning.files disk.old)) }
    ensures refused { IsSettled D.meaning disk.old Log
        → IfErr result (λ e. (Untouched D.meaning disk.old disk.new × IsRefused (D.meaning.files disk.old) e) ⊎ IsLeftActive (D.meaning.files disk.old) e) }
    ensures shows { D.meaning.told disk.old → IfErr result (Shows (D.meaning.files disk.new)) }
    ensures opened { (sh : TheShape) (R : List Record) → IsSettled D.meaning disk.old Log → IsSound sh R (D.meaning.files disk.old) → IfOk result (Over (IsOpened D.meaning sh R) disk.new) }
    ensures sound { (sh : TheShape) (R : List Record) → IsSettled D.meaning disk.old Log → IsSound sh R (D.meaning.files disk.old) → IfErr result IsSoundRefusal }
    ensures survives { (sh : TheShape) (R : List Record) → IsDurable D.meaning disk.old → IsSound sh R (D.meaning.files disk.old)
        → IfOk result (Over (Survives D.meaning (D.meaning.clock disk.old) (λ m. length R) (closed R)) disk.new) }
    ensures any_moment { (sh : TheShape) (R : List Record) → IsDurable D.meaning disk.old → IsSound sh R (D.meaning.files disk.old)
        → ReopensSince D.meaning (D.meaning.clock disk.old) sh R (D.meaning.files disk.old).data_bytes disk.new }
    ensures first { IfOk result (λ loaded. Untouched D.meaning disk.old loaded.first) }
    ensures unspent { IfOk result (λ loaded. loaded.fault ≡ None) }
    ensures cause { Causes D.meaning disk.old disk.new (IsErrOf result OpenFault.DeviceFault) }
    ensures only { IsErrOf result OpenFault.AlreadyFormatted → ⊥ }
    ensures told { D.meaning.told disk.new ↔ D.meaning.told disk.old }
{
    let loaded = match read_store(alloc, disk) {
        Ok(loaded) => loaded,
        Err(fault) => return Err(fault),
    };
    match take_back_read(alloc, disk, loaded) {
        Ok(loaded) => Ok(loaded),
        Err(fault) => Err(of_store(disk, fault)),
    }
}

/// Opens the store of a disk, by `recover`. Of the disk after an `Err` it says nothing: use `recover` and `Store::over` where
/// that counts.
pub fn open<'a, D: Disk>(alloc: Global, disk: &'a mut D) -> Result<Store<'a, D>, OpenFault>
    ensures read { D.meaning.told disk.old → IfOk result (λ store. IsRead store.shape (D.meaning.files disk.old)) }
    ensures refused { IsSettled D.meaning disk.old Log → IfErr result (λ e. IsRefused (D.meaning.files disk.old) e ⊎ IsLeftActive (D.meaning.files disk.old) e) }
    ensures opened { (sh : TheShape) (R : List Record) → IsSettled D.meaning disk.old Log → IsSound sh R (D.meaning.files disk.old) → IfOk result (IsOpened D.meaning sh R) }
    ensures sound { (sh : TheShape) (R : List Record) → IsSettled D.meaning disk.old Log → IsSound sh R (D.meaning.files disk.old) → IfErr result IsSoundRefusal }
    ensures survives { (sh : TheShape) (R : List Record) → IsDurable D.meaning disk.old → IsSound sh R (D.meaning.files disk.old)
        → IfOk result (Survives D.meaning (D.meaning.clock disk.old) (λ m. length R) (closed R)) }
    ensures any_moment { (sh : TheShape) (R : List Record) → IsDurable D.meaning disk.old → IsSound sh R (D.meaning.files disk.old)
        → IfOk result (λ store. ReopensSince D.meaning (D.meaning.clock disk.old) sh R (D.meaning.files disk.old).data_bytes store.disk) }
    ensures first { IfOk result (λ store. Untouched D.meaning disk.old store.first) }
    ensures loan { IfOk result (λ store. store.loan ≡ disk.entry.ghost_name) }
    ensures unspent { IfOk result (λ store. store.fault ≡ None) }
{
    let loaded = recover(alloc, disk)?;
    Ok(Store::over(disk, loaded))
}
