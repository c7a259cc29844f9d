// Which transactions have ended, by the transaction table.
ghost use Rattle.std.specs.Prelude.{◌≡◌};
ghost use Rattle.version_laws.specs.Types.{state_of, is_over};

use seg_base::{Ended, TxnId};
use txn_block::{State, TxnBlock};

/// How a transaction stands by the table. One that has not begun is as forgotten.
pub fn state_of(table: &TxnBlock, txn: TxnId) -> State
    ensures { result ≡ state_of table.now txn }
{
    if txn.0 <= table.last_txn().0 {
        table.state_of(txn)
    } else {
        State::Forgotten
    }
}

fn is_over(state: State) -> bool
    ensures { result ≡ is_over state }
{
    match state {
        State::Active => false,
        State::Committed(_) | State::RolledBack | State::Forgotten => true,
    }
}

/// The transactions that have ended, as the table knows them: how row blocks and undo blocks are asked.
#[derive(Drop)]
pub struct EndedIn<'a> {
    table: &'a TxnBlock,
}

impl<'a> EndedIn<'a> {
    pub fn of(table: &'a TxnBlock) -> EndedIn<'a>
        ensures { result.table.now ≡ table.now }
    {
        EndedIn { table }
    }
}

impl<'a> Ended for EndedIn<'a> {
    ghost use Rattle.version_laws.specs.Types.{ended_by};

    ghost has_ended = { λ e. ended_by e.table.now };

    fn ended(&self, txn: TxnId) -> bool {
        is_over(state_of(self.table, txn))
    }
}
