// Records that change rows.
use crate::part::{BackPart, Parts, RowPart};
use seg_base::{Obj, RowNo, Scn, TxnId, UndoAddr, UndoPlace};

/// A change of a row by a transaction.
#[derive(Debug, Drop)]
pub struct RowBody {
    pub txn: TxnId,
    /// The transaction's place in the transaction table.
    pub entry: u8,
    pub obj: Obj,
    pub row: RowNo,
    /// Where the undo of the first part stands; that of the others follows it.
    pub undo: UndoAddr,
    /// The transaction's newest row record before this one that isn't taken back.
    pub previous: Option<UndoPlace>,
    pub parts: Parts<RowPart>,
}

/// A transaction's newest row record taken back: the undo places are those of that record, the new images are the
/// old ones of that record.
#[derive(Debug, Drop)]
pub struct BackRecord {
    pub txn: TxnId,
    pub entry: u8,
    pub obj: Obj,
    pub row: RowNo,
    pub undo: UndoAddr,
    pub previous: Option<UndoPlace>,
    pub parts: Parts<BackPart>,
    /// The transaction's last undo address from now on.
    pub last: Option<UndoAddr>,
}

/// A row that shrink moves: a commit of its own, without a transaction.
#[derive(Debug, Drop)]
pub struct MoveRecord {
    pub obj: Obj,
    pub row: RowNo,
    pub undo: UndoAddr,
    pub parts: Parts<RowPart>,
    pub number: Scn,
}
