// The tests with which statements begin.
ghost use Rattle.std.specs.Prelude.{◌≡◌};
ghost use Rattle.session_core.specs.Tests.{tested_full, tested_movement, tested_table};

use crate::naming::Named;
use history_text::Refusal;
use seg_base::MOST_TABLES;

pub fn test_full(full: bool) -> Result<(), Refusal>
    ensures { result ≡ tested_full full }
{
    if full {
        return Err(Refusal::LogFull);
    }
    Ok(())
}

/// Of `table`.
pub fn test_table(named: Named, in_txn: bool, full: bool) -> Result<(), Refusal>
    ensures { result ≡ tested_table named in_txn full }
{
    if named.obj.is_some() {
        return Err(Refusal::TableExists);
    }
    if named.tables >= MOST_TABLES {
        return Err(Refusal::TooManyTables);
    }
    if in_txn {
        return Err(Refusal::TransactionOpen);
    }
    test_full(full)
}

/// Of `movement`, of a table that is there.
pub fn test_movement(in_txn: bool, busy: Option<u8>, full: bool) -> Result<(), Refusal>
    ensures { result ≡ tested_movement in_txn busy full }
{
    if in_txn {
        return Err(Refusal::TransactionOpen);
    }
    match busy {
        Some(session) => Err(Refusal::ShrinkBusy { session }),
        None => test_full(full),
    }
}
