//! The pages of a store: what redo records do to them, and how they are spelled. A page is the fold of the records that
//! touch it.
#![tactic(auto)]

mod catalogue;
mod changing;
mod coding;
mod fault;
mod header;
mod laws;
mod maps;
mod page;
mod rows;
mod space;
mod starting;
#[cfg(test)]
mod tests;
mod touching;
mod txns;
mod undo;

pub use changing::{apply, change, changed, commit_in_place};
pub use coding::{decode, encode};
pub use fault::Unfit;
pub use laws::{lsns_tell, others_stay, pages_say, touched_are_listed};
pub use page::{Page, dba_of, lsn_of};
pub use touching::touches;
