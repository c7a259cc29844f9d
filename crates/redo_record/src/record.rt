use crate::row::{BackRecord, MoveRecord, RowBody};
use crate::space::{
    AdvanceRecord, ClassRecord, ExtendRecord, FormatBlockRecord, LowerRecord, MovementRecord,
    TableRecord,
};
use crate::transaction::{BeginRecord, CleanRecord, CommitRecord, EndedRecord, ReuseRecord};

/// A redo record: one change of the store, with all that the blocks need that it touches.
#[derive(Debug, Drop)]
pub enum Record {
    Table(TableRecord),
    Movement(MovementRecord),
    Extend(ExtendRecord),
    FormatBlock(FormatBlockRecord),
    Class(ClassRecord),
    Advance(AdvanceRecord),
    Lower(LowerRecord),
    Begin(BeginRecord),
    Reuse(ReuseRecord),
    Insert(RowBody),
    Update(RowBody),
    Migrate(RowBody),
    /// An update by which a migrated row goes back to its head's slot.
    Return(RowBody),
    Delete(RowBody),
    Commit(CommitRecord),
    Back(BackRecord),
    Ended(EndedRecord),
    Move(MoveRecord),
    Clean(CleanRecord),
}
