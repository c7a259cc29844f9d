// Where a row was found.
use seg_base::{Lsn, Rowid, Scn, UndoAddr};

/// Where a row stands as its transaction, or a reader without one, saw it at a moment: the slot that holds the row, the
/// incarnation of the extent that the slot's block is in, the undo address of the image that was seen, the number of commits
/// then, and the slot of its head, which only a migrated row has.
#[derive(Clone, Copy, Debug, PartialEq, Eq, Drop)]
pub struct Place {
    pub at: Rowid,
    pub born: Lsn,
    pub undo: UndoAddr,
    pub start: Scn,
    pub head: Option<Rowid>,
}
