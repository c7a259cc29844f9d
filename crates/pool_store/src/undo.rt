// Undo pages and the transaction table.
ghost use Rattle.std.specs.Prelude.{◌≡◌, List, None, option_map, IfOk, IfErr};
ghost use Rattle.redo_model.specs.Records.{Record};
ghost use Rattle.version_laws.specs.Types.{HoldsTable};
ghost use Rattle.page_set.specs.Folded.{page_of};
ghost use Rattle.pool_store.specs.Store.{IsFetched, IsTrue};
ghost use Rattle.pool_store.specs.Causes.{HasLooked, IsSoundFault};
ghost use Rattle.pool_store.specs.Undo.{undo_of, table_of};

use crate::{Store, StoreFault};
use disk_model::Disk;
use page_set::Page;
use seg_base::{Dba, NoMemory, TXN_TABLE_BLOCK};
use std::alloc::Global;
use txn_block::TxnBlock;
use undo_block::UndoBlock;
use version_read::UndoPages;

const TABLE: Dba = Dba(TXN_TABLE_BLOCK);

fn undo_in(page: &Page) -> Option<&UndoBlock>
    ensures { option_map (λ u. u.now) result ≡ undo_of page.now }
{
    match page {
        Page::Undo(block) => Some(block),
        _ => None,
    }
}

fn table_in(alloc: Global, page: &Page) -> Result<Option<TxnBlock>, NoMemory>
    ensures { IfOk result (λ x. x ≡ table_of page.now) }
{
    match page {
        Page::Zero(_) => Ok(Some(TxnBlock::new(alloc, TABLE)?)),
        Page::Txns(table) => Ok(Some(table.duplicate(alloc)?)),
        _ => Ok(None),
    }
}

impl<'a, D: Disk> UndoPages for Store<'a, D> {
    ghost use Rattle.std.specs.Prelude.{◌≡◌};
    ghost use Rattle.pool_store.specs.Store.{IsFetched};
    ghost use Rattle.pool_store.specs.Causes.{IsSoundFault};
    ghost use Rattle.pool_store.specs.Undo.{IsWorking, Looks, looks_none, LooksAndFails, looks_on, fails_on, looks_work};

    type Fault = StoreFault;

    ghost has_list = { λ sh R s. IsWorking D.meaning sh R s };

    ghost lends = { λ d s. IsFetched d s };

    ghost looked = { λ a b. Looks D.meaning a b };

    ghost failed = { λ a b f. LooksAndFails D.meaning a b f };

    ghost is_sound = { λ f. IsSoundFault f };

    fn fetch_undo(&mut self, block: u32) -> Result<(), StoreFault> {
        self.fetch(Dba(block))
    }

    fn undo(&self, block: u32) -> Option<&UndoBlock> {
        undo_in(self.frame(Dba(block)))
    }

    fn refuse_undo(&mut self, block: u32) -> StoreFault {
        self.refuse(Dba(block))
    }

    ghost kept = { λ sh R a b l w. looks_work D.meaning sh R a b l w };

    ghost looked_none = { λ a. looks_none };

    ghost looked_on = { λ a b c p q. looks_on D.meaning a b c p q };

    ghost failed_on = { λ a b c f p q. fails_on D.meaning a b c f p q };
}

impl<'a, D: Disk> Store<'a, D> {
    fn told_table(&self, alloc: Global) -> Result<Option<TxnBlock>, NoMemory>
        requires { IsFetched 1 self.now }
        ensures { (R : List Record) → IsTrue D.meaning R self.now → IfOk result (λ x. x ≡ table_of (page_of self.now.shape R 1)) }
    {
        table_in(alloc, self.frame(TABLE))
    }

    /// A copy of the transaction table; before the first transaction begins, a new one.
    pub fn copy_table(&mut self, alloc: Global) -> Result<TxnBlock, StoreFault>
        ensures looked { HasLooked D.meaning self.old self.new result }
        ensures holds { (R : List Record) → IsTrue D.meaning R self.old → IfOk result (HoldsTable R) }
        ensures sound { (R : List Record) → IsTrue D.meaning R self.old → self.old.fault ≡ None → IfErr result IsSoundFault }
    {
        match self.fetch(TABLE) {
            Ok(()) => {}
            Err(fault) => return Err(fault),
        }
        match self.told_table(alloc) {
            Ok(Some(table)) => Ok(table),
            Ok(None) => Err(self.refuse(TABLE)),
            Err(_) => Err(StoreFault::NoMemory),
        }
    }
}
