//! An undo block: the parts of undo that records left there, by place, since the block was last taken into use.
#![tactic(auto)]

mod block;
mod fault;
mod form;
mod page;
mod part;
mod parts;
#[cfg(test)]
mod tests;

pub use block::UndoBlock;
pub use fault::UndoFault;
pub use form::have_part_form;
pub use part::Part;
