//! Redo records: nineteen kinds, each with the fields that its bytes state, and each with one spelling.
#![tactic(auto)]

mod codec;
mod fault;
mod input;
#[tactic(auto, using(crate::proofs::Adding::adding))]
mod output;
mod part;
mod reading;
mod record;
mod row;
mod space;
#[cfg(test)]
mod tests;
mod transaction;
#[tactic(auto, using(crate::proofs::Adding::adding))]
mod writing;

pub use codec::{decode, encode, no_spelling_begins_another, one_split};
pub use fault::RecordFault;
pub use part::{BackPart, Parts, RowPart};
pub use record::Record;
pub use row::{BackRecord, MoveRecord, RowBody};
pub use space::{
    AdvanceRecord, ClassRecord, ExtendRecord, Extents, FormatBlockRecord, LowerRecord,
    MovementRecord, TableRecord,
};
pub use transaction::{
    BeginRecord, CleanRecord, CommitRecord, EndedRecord, EndedTransactions, ReuseRecord,
};
