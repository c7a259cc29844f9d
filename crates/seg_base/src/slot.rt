// A slot of a row block, as the contracts of all layers see it too.
ghost use Rattle.std.specs.Prelude.{◌≡◌, IfOk};

use crate::number::{Dba, RowNo, Scn, TxnId};
use crate::{NoMemory, Text};
use std::alloc::Global;

/// What a slot holds: nothing, a row, the pointer that a migrated row left behind, or a migrated row.
#[derive(Clone, Copy, Debug, PartialEq, Eq, Drop)]
pub enum Kind {
    Empty,
    Row,
    Head,
    Body,
}

/// Who wrote an image: a transaction, or a commit whose number is known.
#[derive(Clone, Copy, Debug, PartialEq, Eq, Drop)]
pub enum Writer {
    By(TxnId),
    At(Scn),
}

/// Where a part of undo stands: its block, the sequence of that block's use, its place from 0.
#[derive(Clone, Copy, Debug, PartialEq, Eq, Drop)]
pub struct UndoAddr {
    pub block: u32,
    pub seq: u64,
    pub nth: u8,
}

/// Where a row stands: a block and a slot of it.
#[derive(Clone, Copy, Debug, PartialEq, Eq, Drop)]
pub struct Rowid {
    pub dba: Dba,
    pub slot: u8,
}

/// For whom room is sought: a transaction that has not begun, an open one, or a move of shrink.
#[derive(Clone, Copy, Debug, PartialEq, Eq, Drop)]
pub enum Taker {
    New,
    Open(TxnId),
    Shrink,
}

/// The image of a slot. A Head links its body and a Body its head; `room` is the length that the slot counts
/// while its writer is active.
#[derive(Debug, Drop)]
pub struct Slot {
    pub kind: Kind,
    pub writer: Writer,
    pub undo: Option<UndoAddr>,
    pub row: RowNo,
    pub link: Option<Rowid>,
    pub bytes: Text,
    pub room: u16,
}

impl Slot {
    pub fn duplicate(&self, alloc: Global) -> Result<Slot, NoMemory>
        ensures { IfOk result (λ slot. slot ≡ self.now) }
    {
        let bytes = self.bytes.duplicate(alloc)?;
        Ok(Slot {
            kind: self.kind,
            writer: self.writer,
            undo: self.undo,
            row: self.row,
            link: self.link,
            bytes,
            room: self.room,
        })
    }
}

/// An entry of a block's transaction list: a transaction, 0 for none, and its commit number, 0 while not known.
#[derive(Clone, Copy, Debug, PartialEq, Eq, Drop)]
pub struct ListEntry {
    pub txn: TxnId,
    pub number: Scn,
}
