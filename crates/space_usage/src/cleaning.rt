// The Clean of a row block.
ghost use Rattle.std.specs.Prelude.{◌≡◌, ◌∷◌, ℕ, List, IfOk, OnOk};
ghost use Rattle.seg_words.specs.Types.{AllByRecursion};
ghost use Rattle.redo_model.specs.Records.{Clean, HasSpelling, Record};
ghost use Rattle.redo_model.specs.Model.{IsLawful};
ghost use Rattle.usage_laws.specs.Types.{with_clean};
ghost use Rattle.version_laws.specs.Types.{HoldsTable};
ghost use Rattle.store_core.specs.Adding.{Adds, HasTried};
ghost use Rattle.store_core.specs.Store.{HasList, IsTrue};
ghost use Rattle.space_usage.specs.Asked.{clean_in};
ghost use Rattle.space_usage.specs.Named.{IsShort};
ghost use Rattle.space_usage.specs.Settles.{HasBlock, HasSomeList};

use crate::adding::add;
use crate::named::{ended_named, names_known};
use disk_model::Disk;
use page_bytes::in_range;
use page_set::Page;
use redo_record::{CleanRecord, EndedTransactions, Record};
use seg_base::{Dba, NoMemory, Scn, TxnId};
use std::alloc::Global;
use store_core::{Question, Store, StoreFault, ask};
use txn_block::TxnBlock;

fn clean_in(
    alloc: Global,
    table: &TxnBlock,
    page: &Page,
) -> Result<Option<Option<EndedTransactions>>, NoMemory>
    ensures { IfOk result (λ x. x ≡ clean_in table.now page.now) }
{
    let Page::Rows(block) = page else {
        return Ok(None);
    };
    if !names_known(table, block) {
        return Ok(Some(None));
    }
    match ended_named(alloc, table, block) {
        Ok(ended) => Ok(Some(Some(ended))),
        Err(fault) => Err(fault),
    }
}

/// Asks a row block for the ended transactions that it names, where one of its slots names one that committed and isn't
/// forgotten.
#[derive(Drop)]
struct CleanOf<'a> {
    table: &'a TxnBlock,
}

impl<'a> Question for CleanOf<'a> {
    ghost use Rattle.space_usage.specs.Asked.{clean_in};

    type Answer = Option<EndedTransactions>;

    ghost reads = { λ q page. clean_in q.table.now page };

    fn read(
        &self,
        alloc: Global,
        page: &Page,
    ) -> Result<Option<Option<EndedTransactions>>, NoMemory> {
        clean_in(alloc, self.table, page)
    }
}

/// The numbers are in the ranges of their types.
fn numbers_in_range(ended: &[(TxnId, Scn)])
    ensures { AllByRecursion IsShort ended.now }
{
    match ended {
        [] => {}
        [first, rest @ ..] => {
            in_range(0, first.0.0);
            in_range(0, first.1.0);
            numbers_in_range(rest);
        }
    }
}

fn clean_spelled(rec: &CleanRecord)
    ensures { HasSpelling (Clean rec.now) }
{
    in_range(rec.dba.0, 0);
    numbers_in_range(rec.ended.as_slice());
}

fn add_clean<D: Disk>(store: &mut Store<D>, rec: CleanRecord) -> Result<(), StoreFault>
    ensures adds { (R : List Record) → IsTrue D.meaning R store.old → IsLawful store.old.shape (Clean rec ∷ R) → Adds D.meaning R (Clean rec ∷ R) store.old store.new result }
    ensures list { (R : List Record) → HasList D.meaning R store.old → OnOk result (HasList D.meaning (Clean rec ∷ R) store.new) }
    ensures tried { HasTried D.meaning store.old store.new result }
{
    clean_spelled(&rec);
    add(store, &Record::Clean(rec))
}

/// Cleans a row block where one of its slots names a transaction that committed and isn't forgotten. The table is the store's.
pub fn clean_block_of<D: Disk>(
    alloc: Global,
    store: &mut Store<D>,
    table: &TxnBlock,
    dba: Dba,
) -> Result<(), StoreFault>
    ensures cleans { (R : List Record) (o : ℕ) → HasBlock D.meaning R o dba store.old → HoldsTable R table.now → Adds D.meaning R (with_clean R dba) store.old store.new result }
    ensures list { (R : List Record) → HasList D.meaning R store.old → OnOk result (HasSomeList D.meaning store.new) }
    ensures tried { HasTried D.meaning store.old store.new result }
{
    match ask(alloc, store, dba, &CleanOf { table }) {
        Ok(Some(ended)) => add_clean(store, CleanRecord { dba, ended }),
        Ok(None) => Ok(()),
        Err(fault) => Err(fault),
    }
}
