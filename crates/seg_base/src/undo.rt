// Where a transaction's undo goes on.

/// Where the undo of an earlier record of the same transaction begins: its block, and its place from 0. The block's
/// sequence is left out, since no block with a part of an active transaction is used again.
#[derive(Clone, Copy, Debug, PartialEq, Eq, Drop)]
pub struct UndoPlace {
    pub block: u32,
    pub nth: u8,
}
