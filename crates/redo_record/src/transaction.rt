// Records that begin and end transactions, that use undo blocks again, and that clean blocks.
ghost use Rattle.std.specs.Prelude.{◌≡◌, ◌<◌, ◌^◌, ◌++◌, ◌∷◌, [], length, OnErr, OnOk};

use seg_base::{Dba, NoMemory, Scn, TxnId};
use std::alloc::Global;
use std::marker::Model;

#[derive(Clone, Copy, Debug, Drop)]
pub struct BeginRecord {
    pub txn: TxnId,
    pub session: u8,
    /// The transaction's place in the transaction table.
    pub entry: u8,
    /// The control number of the transaction table from now on.
    pub control: Scn,
}

/// An undo block that is used, or used again.
#[derive(Clone, Copy, Debug, Drop)]
pub struct ReuseRecord {
    pub block: u32,
    pub sequence: u64,
}

#[derive(Clone, Copy, Debug, Drop)]
pub struct CommitRecord {
    pub txn: TxnId,
    pub number: Scn,
    pub entry: u8,
}

/// The end of a transaction that is rolled back.
#[derive(Clone, Copy, Debug, Drop)]
pub struct EndedRecord {
    pub txn: TxnId,
    pub entry: u8,
}

/// A block in which transactions that have ended leave their slots and list entries.
#[derive(Debug, Drop)]
pub struct CleanRecord {
    pub dba: Dba,
    pub ended: EndedTransactions,
}

/// Transactions that have ended, fewer than 256, each with its commit number: 0 for a forgotten one and for one that
/// was rolled back.
#[derive(Debug, Drop)]
pub struct EndedTransactions {
    ended: Vec<(TxnId, Scn)>,
}

impl Model for EndedTransactions {
    ghost use Rattle.std.specs.Prelude.{List, ℕ, ◌<◌, ◌^◌, length};

    ghost Value = { List (ℕ × ℕ) };

    ghost view = { λ e. e.ended.items };

    ghost invariant = { λ e. length e.ended.items < 2 ^ 8 };
}

impl EndedTransactions {
    pub fn new(alloc: Global) -> EndedTransactions
        ensures { result ≡ [] }
    {
        EndedTransactions {
            ended: Vec::new(alloc),
        }
    }

    /// Takes the transactions as they are, without a copy.
    pub fn from_vec(ended: Vec<(TxnId, Scn)>) -> EndedTransactions
        requires { length ended.items < 2 ^ 8 }
        ensures { result ≡ ended.items }
    {
        EndedTransactions { ended }
    }

    /// Adds a transaction at the end. Without memory nothing is added.
    pub fn push(&mut self, txn: TxnId, number: Scn) -> Result<(), NoMemory>
        requires { length self.old < 255 }
        ensures ok { OnOk result (self.new ≡ self.old ++ (txn, number) ∷ []) }
        ensures err { OnErr result (self.new ≡ self.old) }
    {
        self.ended.push((txn, number))?;
        Ok(())
    }

    pub fn as_slice(&self) -> &[(TxnId, Scn)]
        ensures same { result.now ≡ self.now }
        ensures most { length self.now < 2 ^ 8 }
    {
        self.ended.as_slice()
    }
}
