// The pages of a store.
ghost use Rattle.std.specs.Prelude.{◌≡◌, ◌≤◌, List, None, Some, true, false, IsSome, OnOk, IfOk, IfErr, IsErrOf};
ghost use Rattle.disk_model.specs.Crash.{Untouched};
ghost use Rattle.redo_model.specs.Records.{Record};
ghost use Rattle.buffer_pool.specs.declared.frame.TheConstants.{MOST_DIRTY};
ghost use Rattle.buffer_pool.specs.Frames.{frame_at};
ghost use Rattle.page_set.specs.Folded.{page_of};
ghost use Rattle.pool_store.specs.Store.{IsFetched, IsTrue, has_page as is_page};
ghost use Rattle.pool_store.specs.Causes.{HasLooked, IsSoundFault};
ghost use Rattle.pool_store.specs.declared.fault.StoreFault.TheVariants as faults;

use crate::sparing::{lasting, of_page};
use crate::{Store, StoreFault};
use buffer_pool::has_page;
use disk_model::Disk;
use page_set::Page;
use seg_base::Dba;

impl<'a, D: Disk> Store<'a, D> {
    // Brings the page of a block into a frame, where a frame can be had.
    fn bring(&mut self, dba: Dba) -> Result<(), StoreFault>
        requires unspent { self.old.fault ≡ None }
        requires room { self.old.pages.dirty ≤ MOST_DIRTY }
        ensures looked { HasLooked D.meaning self.old self.new result }
        ensures fetched { OnOk result (IsFetched dba self.new) }
        ensures hit { IsSome (frame_at self.old.pages.held dba) → self.new.disk ≡ self.old.disk }
        ensures unchanged { Untouched D.meaning self.old.disk self.new.disk }
        ensures stays { self.new.log ≡ self.old.log }
        ensures sound { (R : List Record) → IsTrue D.meaning R self.old → is_page self.old.shape dba ≡ true → IfErr result IsSoundFault }
    {
        match self.pages.fetch(self.disk, dba) {
            Ok(()) => Ok(()),
            Err(fault) => {
                let fault = of_page(fault);
                self.fault = lasting(&fault);
                Err(fault)
            }
        }
    }

    /// Brings the page of a block into a frame, from which `frame` then lends it: one that is there costs no call on the disk,
    /// another one read. Where more pages are dirty than may be, all records become stable first, and a batch of pages is put into
    /// the data file. `BadPage` comes for a block that has no page: one past the last, the checkpoint, or one of the double-write
    /// area.
    pub fn fetch(&mut self, dba: Dba) -> Result<(), StoreFault>
        ensures looked { HasLooked D.meaning self.old self.new result }
        ensures fetched { OnOk result (IsFetched dba self.new) }
        ensures has { OnOk result (is_page self.old.shape dba ≡ true) }
        ensures hit { IsSome (frame_at self.old.pages.held dba) → self.old.pages.dirty ≤ MOST_DIRTY → self.new.disk ≡ self.old.disk }
        ensures unchanged { self.old.pages.dirty ≤ MOST_DIRTY → Untouched D.meaning self.old.disk self.new.disk }
        ensures stays { self.old.pages.dirty ≤ MOST_DIRTY → self.new.log ≡ self.old.log }
        ensures none { self.old.fault ≡ None → is_page self.old.shape dba ≡ false → IfErr result (λ e. e ≡ faults.BadPage dba) }
        ensures sound { (R : List Record) → IsTrue D.meaning R self.old → self.old.fault ≡ None → is_page self.old.shape dba ≡ true → IfErr result IsSoundFault }
    {
        if let Some(fault) = self.fault {
            return Err(fault);
        }
        if !has_page(&self.shape, dba) {
            return Err(self.refuse(dba));
        }
        match self.spare() {
            Ok(()) => self.bring(dba),
            Err(fault) => Err(fault),
        }
    }

    /// The page of the block that was fetched last, with no other call on the store since that isn't one by `&`.
    pub fn frame(&self, dba: Dba) -> &Page
        requires { IsFetched dba self.now }
        ensures { (R : List Record) → IsTrue D.meaning R self.now → result.now ≡ page_of self.now.shape R dba }
    {
        self.pages.frame(dba)
    }

    /// The page of a block, found and lent. Of the store afterwards it says nothing: use `fetch` and `frame` where that counts.
    pub fn page(&mut self, dba: Dba) -> Result<&Page, StoreFault>
        ensures page { (R : List Record) → IsTrue D.meaning R self.old → IfOk result (λ page. page.now ≡ page_of self.old.shape R dba) }
        ensures unspent { OnOk result (self.old.fault ≡ None) }
        ensures answers { (fault : StoreFault) → self.old.fault ≡ Some fault → IsErrOf result fault }
        ensures has { OnOk result (is_page self.old.shape dba ≡ true) }
        ensures none { self.old.fault ≡ None → is_page self.old.shape dba ≡ false → IfErr result (λ e. e ≡ faults.BadPage dba) }
        ensures sound { (R : List Record) → IsTrue D.meaning R self.old → self.old.fault ≡ None → is_page self.old.shape dba ≡ true → IfErr result IsSoundFault }
    {
        match self.fetch(dba) {
            Ok(()) => Ok(self.frame(dba)),
            Err(fault) => Err(fault),
        }
    }
}
