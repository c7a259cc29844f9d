//! A log of groups, each behind a gate that is opened last.
#![tactic(auto)]

mod fault;
mod head;
mod log;
mod reader;
mod spelling;
#[cfg(test)]
mod tests;

pub use fault::{FrameFault, WrongByte};
pub use head::{
    BLOCKS_AT, EXTENT_AT, HEAD_NAME, HEAD_ZEROS, UNDO_AT, ZEROS_AT, make_head, read_shape,
};
pub use log::{GROUP_HEAD_SIZE, Group, LogFile, open};
pub use reader::GroupReader;
pub use spelling::a_log_has_one_spelling;
