// The pages of a store.
ghost use Rattle.std.specs.Prelude.{◌≡◌, ◌<◌, ◌≤◌, List, length, None, Some, true, false, OnOk, IfOk, IfErr, IsErrOf};
ghost use Rattle.redo_model.specs.Records.{Record};
ghost use Rattle.page_set.specs.Folded.{page_of};
ghost use Rattle.store_core.specs.Store.{HasList, IsFetched, has_page as is_page};
ghost use Rattle.store_core.specs.Causes.{HasLooked, IsSoundFault};
ghost use Rattle.store_core.specs.declared.fault.StoreFault.TheVariants as faults;

use crate::{Store, StoreFault};
use disk_model::Disk;
use page_map::Pages;
use page_set::Page;
use seg_base::{CHECKPOINT_BLOCK, DOUBLE_WRITE_BLOCK, Dba, OWN_BLOCKS, Shape};

// That the store gives a page of the block.
fn has_page(shape: &Shape, dba: Dba) -> bool
    ensures { result ≡ is_page shape.now dba }
{
    dba.0 < shape.blocks
        && dba.0 != CHECKPOINT_BLOCK
        && (dba.0 < DOUBLE_WRITE_BLOCK || dba.0 > OWN_BLOCKS - 1)
}

// That the page of the block is there.
fn is_there(shape: &Shape, pages: &Pages, dba: Dba) -> bool
    ensures has { result ≡ true → is_page shape.now dba ≡ true }
    ensures within { result ≡ true → dba < length pages.now }
    ensures no_page { is_page shape.now dba ≡ false → result ≡ false }
    ensures past { result ≡ false → is_page shape.now dba ≡ true → length pages.now ≤ dba }
{
    if !has_page(shape, dba) {
        return false;
    }
    (dba.0 as usize) < pages.len()
}

impl<'a, D: Disk> Store<'a, D> {
    /// Finds the page of a block, which `frame` then lends. `BadPage` comes for a block that has none: one past the last, the
    /// checkpoint, or one of the double-write area.
    pub fn fetch(&mut self, dba: Dba) -> Result<(), StoreFault>
        ensures looked { HasLooked D.meaning self.old self.new result }
        ensures fetched { OnOk result (IsFetched dba self.new) }
        ensures has { OnOk result (is_page self.old.shape dba ≡ true) }
        ensures none { self.old.fault ≡ None → is_page self.old.shape dba ≡ false → IfErr result (λ e. e ≡ faults.BadPage dba) }
        ensures sound { (R : List Record) → HasList D.meaning R self.old → self.old.fault ≡ None → is_page self.old.shape dba ≡ true → IfErr result IsSoundFault }
    {
        if let Some(fault) = self.fault {
            return Err(fault);
        }
        if is_there(&self.shape, &self.pages, dba) {
            return Ok(());
        }
        self.fault = Some(StoreFault::BadPage { dba });
        Err(StoreFault::BadPage { dba })
    }

    /// The page of the block that was fetched last, with no other call on the store since that isn't one by `&`.
    pub fn frame(&self, dba: Dba) -> &Page
        requires { IsFetched dba self.now }
        ensures { (R : List Record) → HasList D.meaning R self.now → result.now ≡ page_of self.now.shape R dba }
    {
        self.pages.frame(dba)
    }

    /// The page of a block, found and lent. Of the store afterwards it says nothing: use `fetch` and `frame` where that counts.
    pub fn page(&mut self, dba: Dba) -> Result<&Page, StoreFault>
        ensures page { (R : List Record) → HasList D.meaning R self.old → IfOk result (λ page. page.now ≡ page_of self.old.shape R dba) }
        ensures unspent { OnOk result (self.old.fault ≡ None) }
        ensures answers { (fault : StoreFault) → self.old.fault ≡ Some fault → IsErrOf result fault }
        ensures has { OnOk result (is_page self.old.shape dba ≡ true) }
        ensures none { self.old.fault ≡ None → is_page self.old.shape dba ≡ false → IfErr result (λ e. e ≡ faults.BadPage dba) }
        ensures sound { (R : List Record) → HasList D.meaning R self.old → self.old.fault ≡ None → is_page self.old.shape dba ≡ true → IfErr result IsSoundFault }
    {
        match self.fetch(dba) {
            Ok(()) => Ok(self.frame(dba)),
            Err(fault) => Err(fault),
        }
    }
}
