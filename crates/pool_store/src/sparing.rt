// Frames for pages that are to be fetched or changed.
ghost use Rattle.std.specs.Prelude.{◌≡◌, ◌≤◌, List, None, length, OnOk, IfErr, IsOk};
ghost use Rattle.redo_model.specs.Records.{Record};
ghost use Rattle.buffer_pool.specs.declared.frame.TheConstants.{MOST_DIRTY};
ghost use Rattle.page_store.specs.declared.fault.PageFault.TheVariants as pages_fault;
ghost use Rattle.pool_store.specs.Store.{IsTrue};
ghost use Rattle.pool_store.specs.Causes.{HasLooked, IsSoundFault, lasting_fault, page_fault};
ghost use Rattle.pool_store.specs.declared.fault.StoreFault.TheVariants as faults;

use crate::{Store, StoreFault};
use disk_model::Disk;
use page_store::PageFault;

// The fault that a store keeps of one that it answers.
pub(crate) fn lasting(fault: &StoreFault) -> Option<StoreFault>
    ensures { result ≡ lasting_fault fault.now }
{
    match fault {
        StoreFault::NoMemory => None,
        StoreFault::DeviceFault => Some(StoreFault::DeviceFault),
        StoreFault::BadPage { dba } => Some(StoreFault::BadPage { dba: *dba }),
    }
}

// The fault of the pages as the store's.
pub(crate) fn of_page(fault: PageFault) -> StoreFault
    ensures same { result ≡ page_fault fault }
    ensures memory { fault ≡ pages_fault.NoMemory → result ≡ faults.NoMemory }
    ensures device { result ≡ faults.DeviceFault → fault ≡ pages_fault.DeviceFault }
{
    match fault {
        PageFault::DeviceFault => StoreFault::DeviceFault,
        PageFault::BadPage { dba } => StoreFault::BadPage { dba },
        PageFault::NoMemory => StoreFault::NoMemory,
    }
}

impl<'a, D: Disk> Store<'a, D> {
    // Puts a batch of pages, of which the log has all records, into the data file where too many are dirty.
    pub(crate) fn put_spare(&mut self) -> Result<(), StoreFault>
        requires { self.old.fault ≡ None }
        ensures looked { HasLooked D.meaning self.old self.new result }
        ensures room { OnOk result (self.new.pages.dirty ≤ MOST_DIRTY) }
        ensures sound { (R : List Record) → IsTrue D.meaning R self.old → self.old.log.stable ≡ length R → IfErr result IsSoundFault }
    {
        // After so many records no page is known to read back as it was written.
        if self.log.count().0 == u64::MAX {
            return Err(StoreFault::NoMemory);
        }
        let stable = self.log.stable();
        match self.pages.spare(self.disk, stable) {
            Ok(()) => Ok(()),
            Err(fault) => {
                let fault = of_page(fault);
                self.fault = lasting(&fault);
                Err(fault)
            }
        }
    }

    // Where more pages are dirty than may be before one is fetched or changed, all records become stable, and a batch of pages is
    // put into the data file.
    pub(crate) fn spare(&mut self) -> Result<(), StoreFault>
        ensures looked { HasLooked D.meaning self.old self.new result }
        ensures room { OnOk result (self.new.pages.dirty ≤ MOST_DIRTY) }
        ensures none { self.old.fault ≡ None → self.old.pages.dirty ≤ MOST_DIRTY → IsOk result × (self.new ≡ self.old) }
        ensures sound { (R : List Record) → IsTrue D.meaning R self.old → self.old.fault ≡ None → IfErr result IsSoundFault }
    {
        if let Some(fault) = self.fault {
            return Err(fault);
        }
        if !self.pages.is_over() {
            return Ok(());
        }
        match self.flush_log() {
            Ok(()) => self.put_spare(),
            Err(fault) => Err(fault),
        }
    }
}
