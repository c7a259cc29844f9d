//! Versions of a row: what a slot holds at a commit number for a transaction, read from its image and, where that doesn't
//! count, down through undo.
//!
//! `look` tells of one image, `look_in` of a slot's, `follow` of one part of undo. `walk` chains them over a store that lends one undo page at a
//! time, from the address to which the slot's image leads. No row is copied: an answer says where its image stands, and
//! `image_at` lends it there.
#![tactic(auto)]

mod chain;
mod ended;
mod pages;
#[cfg(test)]
mod tests;
mod version;

pub use chain::{Seen, image_at, walk};
pub use ended::{EndedIn, state_of};
pub use pages::UndoPages;
pub use version::{Version, follow, look, look_in};
