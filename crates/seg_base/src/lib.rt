//! What every crate of the store speaks of: numbers of things, names and texts, slots, free classes, places in
//! the data file, number fields, lists, and the plain errors.
#![tactic(auto)]

mod class;
mod ended;
mod failure;
mod field;
mod gate;
mod image;
mod limit;
mod list;
mod number;
mod shape;
mod slot;
#[cfg(test)]
mod tests;
mod text;
mod undo;
mod word;

pub use class::{Class, class_code, class_from, class_of};
pub use ended::Ended;
pub use failure::{Failed, NoMemory};
pub use field::{get_u16, get_u32, get_u64, put_at, put_u16, put_u32, put_u64, what_is_put_is_got};
pub use gate::{Gate, Open};
pub use image::{
    kind_code, kind_from, link_or_zeros, slot_bytes, undo_or_zeros, writer_from, writer_number,
    writer_tag,
};
pub use limit::{
    ADVANCE_BLOCKS, BLOCK_ROOM, BLOCK_SIZE, CATALOGUE_BLOCK, CHECKPOINT_BLOCK, DOUBLE_WRITE_BLOCK,
    DOUBLE_WRITE_PAGES, EXTENTS_OF_L2, FIRST_GATE, LEAST_BLOCKS, LEAST_EXTENT_BLOCKS,
    LEAST_LIST_ENTRIES, LEAST_UNDO_BLOCKS, LIST_ENTRY_SIZE, LOG_HEAD_SIZE, LONGEST_NAME,
    LONGEST_ROW, MOST_BLOCKS, MOST_EXTENT_BLOCKS, MOST_EXTENTS, MOST_L2, MOST_LIST_ENTRIES,
    MOST_PCTFREE, MOST_SESSIONS, MOST_SLOTS, MOST_TABLES, MOST_UNDO_BLOCKS, MOST_UNDO_PARTS,
    OWN_BLOCKS, PAGE_HEAD_SIZE, SLOT_SIZE, SPACE_BLOCK, TXN_ENTRIES, TXN_TABLE_BLOCK,
    UNDO_PART_SIZE,
};
pub use list::{Newest, Sequence};
pub use number::{Dba, Lsn, Obj, RowNo, Scn, TxnId};
pub use shape::{Shape, place_of};
pub use slot::{Kind, ListEntry, Rowid, Slot, Taker, UndoAddr, Writer};
pub use text::Text;
pub use undo::UndoPlace;
pub use word::{Name, is_name};
