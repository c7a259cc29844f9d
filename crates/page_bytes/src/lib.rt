//! The bytes of pages: what the pages of every kind begin and end with, number fields, slots, and the one form in
//! which a page is decoded.
#![tactic(auto)]

mod compare;
mod entry;
mod fault;
mod field;
mod form;
mod front;
mod page;
mod piece;
mod slot;

pub use compare::first_wrong;
pub use fault::PageFault;
pub use field::{cut, head_bytes, in_range, number_u16, number_u32, number_u64};
pub use form::{byte_in_range, has_slot_form, slot_in_range};
pub use front::{add, add_all, begin};
pub use page::{PageForm, decode};
pub use piece::{Piece, read_all};
pub use slot::{SlotFields, undo_as};
