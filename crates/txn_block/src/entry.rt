// Entries of the transaction table.
ghost use Rattle.std.specs.Prelude.{◌≡◌};
ghost use Rattle.txn_block.specs.Entries.{names, is_unused, is_taken_back, is_rolled_back, number_of, committed, state_of_outcome};

use seg_base::{Scn, TxnId, UndoAddr};

/// How a transaction stands. One whose entry another one took is forgotten: it has ended.
#[derive(Clone, Copy, Debug, PartialEq, Eq, Drop)]
pub enum State {
    Active,
    Committed(Scn),
    RolledBack,
    Forgotten,
}

/// What an entry knows of its transaction.
#[derive(Clone, Copy, Debug, PartialEq, Eq, Drop)]
pub enum Outcome {
    Active,
    Committed(Scn),
    RolledBack,
}

/// A transaction's entry.
#[derive(Clone, Copy, Debug, PartialEq, Eq, Drop)]
pub struct TxnEntry {
    pub txn: TxnId,
    pub outcome: Outcome,
    /// Where the undo of its newest row record stands that isn't taken back.
    pub last_undo: Option<UndoAddr>,
}

#[derive(Clone, Copy, Debug, PartialEq, Eq, Drop)]
pub enum TableEntry {
    Unused,
    Used(TxnEntry),
}

pub fn state_of_outcome(outcome: Outcome) -> State
    ensures { result ≡ state_of_outcome outcome }
{
    match outcome {
        Outcome::Active => State::Active,
        Outcome::Committed(number) => State::Committed(number),
        Outcome::RolledBack => State::RolledBack,
    }
}

pub fn names(entry: &TableEntry, txn: TxnId) -> bool
    ensures { result ≡ names txn entry.now }
{
    match entry {
        TableEntry::Unused => false,
        TableEntry::Used(entry) => entry.txn.0 == txn.0,
    }
}

pub fn is_unused(entry: &TableEntry) -> bool
    ensures { result ≡ is_unused entry.now }
{
    match entry {
        TableEntry::Unused => true,
        TableEntry::Used(_) => false,
    }
}

fn is_taken_back(outcome: Outcome) -> bool
    ensures { result ≡ is_taken_back outcome }
{
    match outcome {
        Outcome::RolledBack => true,
        Outcome::Active | Outcome::Committed(_) => false,
    }
}

pub fn is_rolled_back(entry: &TableEntry) -> bool
    ensures { result ≡ is_rolled_back entry.now }
{
    match entry {
        TableEntry::Unused => false,
        TableEntry::Used(entry) => is_taken_back(entry.outcome),
    }
}

fn number_of(outcome: Outcome) -> Option<Scn>
    ensures { result ≡ number_of outcome }
{
    match outcome {
        Outcome::Committed(number) => Some(number),
        Outcome::Active | Outcome::RolledBack => None,
    }
}

/// The commit number of a committed entry.
pub fn committed(entry: &TableEntry) -> Option<Scn>
    ensures { result ≡ committed entry.now }
{
    match entry {
        TableEntry::Unused => None,
        TableEntry::Used(entry) => number_of(entry.outcome),
    }
}
