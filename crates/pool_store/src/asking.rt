// One question to the page of one block.
ghost use Rattle.std.specs.Prelude.{◌≡◌, List, true, None, Some, IfOk, IfErr};
ghost use Rattle.redo_model.specs.Records.{Record};
ghost use Rattle.page_set.specs.Folded.{page_of};
ghost use Rattle.pool_store.specs.Causes.{HasLooked, IsSoundFault};
ghost use Rattle.pool_store.specs.Store.{IsFetched, IsTrue, has_page};

use crate::{Store, StoreFault};
use disk_model::Disk;
use page_set::Page;
use seg_base::{Dba, NoMemory};
use std::alloc::Global;

/// A question that a page is asked.
pub trait Question {
    ghost use Rattle.std.specs.Prelude.{◌≡◌, Option, IfOk};
    ghost use Rattle.page_set.specs.declared.page.Page.{Page};

    type Answer: Drop;

    /// The answer of a page, none of one that can't be asked so.
    ghost reads: { Self → Page → Option Self.Answer };

    fn read(&self, alloc: Global, page: &Page) -> Result<Option<Self::Answer>, NoMemory>
        ensures { IfOk result (λ x. x ≡ reads self.now page.now) };
}

/// The answer of the page that was fetched.
fn read_frame<D: Disk, Q: Question>(
    alloc: Global,
    store: &Store<D>,
    at: Dba,
    question: &Q,
) -> Result<Option<Q::Answer>, NoMemory>
    requires { IsFetched at store.now }
    ensures { (R : List Record) → IsTrue D.meaning R store.now → IfOk result (λ x. x ≡ Q.reads question.now (page_of store.now.shape R at)) }
{
    question.read(alloc, store.frame(at))
}

/// The answer of a block's page. A page that can't be asked so is refused.
pub fn ask<D: Disk, Q: Question>(
    alloc: Global,
    store: &mut Store<D>,
    at: Dba,
    question: &Q,
) -> Result<Q::Answer, StoreFault>
    ensures looked { HasLooked D.meaning store.old store.new result }
    ensures says { (R : List Record) → IsTrue D.meaning R store.old → IfOk result (λ x. Q.reads question.now (page_of store.old.shape R at) ≡ Some x) }
    ensures sound { (R : List Record) (x : Q.Answer) → IsTrue D.meaning R store.old → store.old.fault ≡ None → has_page store.old.shape at ≡ true → Q.reads question.now (page_of store.old.shape R at) ≡ Some x → IfErr result IsSoundFault }
{
    match store.fetch(at) {
        Ok(()) => {}
        Err(fault) => return Err(fault),
    }
    match read_frame(alloc, &*store, at, question) {
        Ok(Some(answer)) => Ok(answer),
        Ok(None) => Err(store.refuse(at)),
        Err(_) => Err(StoreFault::NoMemory),
    }
}
