// Where a transaction stands in the transaction table.
ghost use Rattle.std.specs.Prelude.{◌≡◌};
ghost use Rattle.txn_end.specs.Reading.{standing_in};

use page_set::Page;
use seg_base::{NoMemory, TxnId, UndoAddr};
use std::alloc::Global;
use store_core::Question;

/// A transaction's entry, and where its newest undo stands.
#[derive(Clone, Copy, Debug, PartialEq, Eq, Drop)]
pub struct Standing {
    pub entry: u8,
    pub last: Option<UndoAddr>,
}

fn standing_in(page: &Page, txn: TxnId) -> Option<Standing>
    ensures { result ≡ standing_in page.now txn }
{
    match page {
        Page::Txns(table) => match table.entry_of(txn) {
            None => None,
            Some(entry) => Some(Standing {
                entry,
                last: table.last_undo(txn),
            }),
        },
        _ => None,
    }
}

/// Asks where a transaction stands.
#[derive(Clone, Copy, Debug, Drop)]
pub struct StandingOf {
    pub txn: TxnId,
}

impl Question for StandingOf {
    ghost use Rattle.txn_end.specs.Reading.{standing_in};

    type Answer = Standing;

    ghost reads = { λ q page. standing_in page q.txn };

    fn read(&self, alloc: Global, page: &Page) -> Result<Option<Standing>, NoMemory> {
        let _ = alloc;
        Ok(standing_in(page, self.txn))
    }
}
