// Dirty pages that are put into the data file when somebody asks for it.
ghost use Rattle.std.specs.Prelude.{◌≡◌, ◌+◌, ◌≤◌, List, None, length, min, IfErr, IfOk, OnOk};
ghost use Rattle.seg_words.specs.Types.{DOUBLE_WRITE_PAGES};
ghost use Rattle.redo_model.specs.Records.{Record};
ghost use Rattle.buffer_pool.specs.Frames.{dirty_count};
ghost use Rattle.store_pages.specs.Pages.{HasPut};
ghost use Rattle.pool_store.specs.Store.{HasList, IsTrue};
ghost use Rattle.pool_store.specs.Causes.{HasLooked, IsSoundFault};

use crate::sparing::{lasting, of_page};
use crate::{Store, StoreFault};
use disk_model::Disk;
use seg_base::DOUBLE_WRITE_PAGES;

impl<'a, D: Disk> Store<'a, D> {
    /// How many pages are dirty: changed, and not in the data file yet.
    pub fn dirty(&self) -> u16
        ensures value { result ≡ self.now.pages.dirty }
        ensures count { result ≡ dirty_count self.now.pages.held }
    {
        self.pages.dirty()
    }

    // Puts dirty pages, of which the log has all records, into the data file.
    fn put_stable(&mut self, most: u8) -> Result<u8, StoreFault>
        requires unspent { self.old.fault ≡ None }
        requires most { most ≤ DOUBLE_WRITE_PAGES }
        ensures looked { HasLooked D.meaning self.old self.new result }
        ensures put { IfOk result (λ n. self.new.pages.dirty + n ≡ self.old.pages.dirty) }
        ensures least { IfOk result (λ n. HasPut most self.new.log.stable n self.old.pages self.new.pages) }
        ensures many { (R : List Record) → IsTrue D.meaning R self.old → self.old.log.stable ≡ length R → IfOk result (λ n. n ≡ min most self.old.pages.dirty) }
        ensures sound { IfErr result IsSoundFault }
    {
        // After so many records no page is known to read back as it was written.
        if self.log.count().0 == u64::MAX {
            return Err(StoreFault::NoMemory);
        }
        let stable = self.log.stable();
        match self.pages.put_batch(self.disk, most, stable) {
            Ok(count) => Ok(count),
            Err(fault) => {
                let fault = of_page(fault);
                self.fault = lasting(&fault);
                Err(fault)
            }
        }
    }

    /// Makes all records stable, and puts the dirty pages of least number into the data file, `most` of them or all where fewer
    /// are dirty. Answers how many: where `most` isn't 0, 0 exactly where none is dirty. At each moment of the call a crash leaves all of
    /// these pages in the file or none.
    pub fn put_batch(&mut self, most: u8) -> Result<u8, StoreFault>
        requires { most ≤ DOUBLE_WRITE_PAGES }
        ensures looked { HasLooked D.meaning self.old self.new result }
        ensures stable { (R : List Record) → HasList D.meaning R self.old → OnOk result (self.new.log.stable ≡ length R) }
        ensures put { IfOk result (λ n. self.new.pages.dirty + n ≡ self.old.pages.dirty) }
        ensures least { IfOk result (λ n. HasPut most self.new.log.stable n self.old.pages self.new.pages) }
        ensures many { (R : List Record) → IsTrue D.meaning R self.old → IfOk result (λ n. n ≡ min most self.old.pages.dirty) }
        ensures sound { self.old.fault ≡ None → IfErr result IsSoundFault }
    {
        match self.flush_log() {
            Ok(()) => self.put_stable(most),
            Err(fault) => Err(fault),
        }
    }
}
