// A part of undo.
ghost use Rattle.std.specs.Prelude.{◌≡◌, ◌+◌, ◌<◌, ◌≤◌, ◌^◌, List, ℕ, length, slice_index, IfOk};
ghost use Rattle.undo_block.specs.Parts.{part_size};

use seg_base::{Dba, NoMemory, Slot, TxnId, UndoPlace};
use std::alloc::Global;

/// What one slot was before a record changed it.
#[derive(Debug, Drop)]
pub struct Part {
    /// The record's transaction, 0 for a move of shrink.
    pub txn: TxnId,
    /// Where the undo of the transaction's record before this one begins.
    pub previous: Option<UndoPlace>,
    pub dba: Dba,
    pub slot: u8,
    /// How many parts the record has.
    pub parts: u8,
    pub old: Slot,
}

impl Part {
    pub fn duplicate(&self, alloc: Global) -> Result<Part, NoMemory>
        ensures { IfOk result (λ part. part ≡ self.now) }
    {
        let old = self.old.duplicate(alloc)?;
        Ok(Part {
            txn: self.txn,
            previous: self.previous,
            dba: self.dba,
            slot: self.slot,
            parts: self.parts,
            old,
        })
    }
}
