// The transaction that is taken back next.
ghost use Rattle.std.specs.Prelude.{◌≡◌, List, length, None, IfOk, IfErr};
ghost use Rattle.redo_model.specs.Records.{Record};
ghost use Rattle.store_core.specs.Causes.{HasLooked, IsSoundFault};
ghost use Rattle.store_core.specs.Store.{IsTrue};
ghost use Rattle.recovery.specs.Next.{active_by, active_in, lesser, least_among, next_in, IsNext};

use disk_model::Disk;
use page_set::Page;
use seg_base::{Dba, NoMemory, TXN_ENTRIES, TXN_TABLE_BLOCK, TxnId};
use std::alloc::Global;
use store_core::{Question, Store, StoreFault, ask};
use txn_block::{State, TxnBlock};

fn active_by(state: State, txn: TxnId) -> Option<TxnId>
    ensures { result ≡ active_by state txn }
{
    match state {
        State::Active => Some(txn),
        State::Committed(_) | State::RolledBack | State::Forgotten => None,
    }
}

fn active_in(entry: Option<(TxnId, State)>) -> Option<TxnId>
    ensures { result ≡ active_in entry }
{
    match entry {
        None => None,
        Some((txn, state)) => active_by(state, txn),
    }
}

fn lesser(first: Option<TxnId>, second: Option<TxnId>) -> Option<TxnId>
    ensures { result ≡ lesser first second }
{
    match first {
        None => second,
        Some(first) => match second {
            None => Some(first),
            Some(second) => Some(TxnId(first.0.min(second.0))),
        },
    }
}

/// The least transaction that is active by the table.
fn least_active(table: &TxnBlock) -> Option<TxnId>
    ensures { result ≡ least_among table.now.entries (length table.now.entries) }
{
    table.has_spelling();
    let mut least = None;
    for i in 0..TXN_ENTRIES {
        least = lesser(least, active_in(table.entry(i)));
    }
    least
}

fn next_in(page: &Page) -> Option<Option<TxnId>>
    ensures { result ≡ next_in page.now }
{
    match page {
        Page::Zero(_) => Some(None),
        Page::Txns(table) => Some(least_active(table)),
        _ => None,
    }
}

/// Asks the page of the transaction table for the least active transaction.
#[derive(Clone, Copy, Debug, Drop)]
struct NextActive;

impl Question for NextActive {
    ghost use Rattle.recovery.specs.Next.{next_in};

    type Answer = Option<TxnId>;

    ghost reads = { λ q page. next_in page };

    fn read(&self, alloc: Global, page: &Page) -> Result<Option<Option<TxnId>>, NoMemory> {
        let _ = alloc;
        Ok(next_in(page))
    }
}

/// The least active transaction, None where none is active.
pub fn next_active<D: Disk>(
    alloc: Global,
    store: &mut Store<D>,
) -> Result<Option<TxnId>, StoreFault>
    ensures looked { HasLooked D.meaning store.old store.new result }
    ensures says { (R : List Record) → IsTrue D.meaning R store.old → IfOk result (IsNext R) }
    ensures sound { (R : List Record) → IsTrue D.meaning R store.old → store.old.fault ≡ None → IfErr result IsSoundFault }
{
    ask(alloc, store, Dba(TXN_TABLE_BLOCK), &NextActive)
}
