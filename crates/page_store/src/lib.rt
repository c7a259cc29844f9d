//! The data file as a map of pages, written in batches that a crash leaves whole or not at all.
#![tactic(auto)]

mod area;
mod fault;
mod page;
mod store;
#[cfg(test)]
mod tests;
mod writing;

pub use area::{AREA_AT, AREA_END, COPIES_AT, FIRST_COPY, LAST_COPY, NUMBERS_AT};
pub use fault::PageFault;
pub use page::{RawPage, is_place};
pub use store::{PageStore, open};
