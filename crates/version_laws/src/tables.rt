// What the transaction table tells.
ghost use Rattle.version_laws.specs.Tables.{BegunFromOne, TablesTell};

/// Transactions are numbered from 1.
pub fn begun_from_one()
    ensures { BegunFromOne }
{}

/// What the page of the transaction table tells of a transaction is its state, its newest undo and its entry; who has ended
/// by the page is who has ended.
pub fn tables_tell()
    ensures { TablesTell }
{}
