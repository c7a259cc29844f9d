//! The pages of a store over its data file: in frames where they were fetched or changed, and put into the file in batches. The
//! page of each block is the fold of the redo list.
//!
//! `open` makes them of a data file and the records of the log. `fetch` and `frame` lend a page, `prepare` and `install` add a
//! record, `commit` adds a Commit and takes no memory. A page is fetched or changed only while at most 240 are dirty: `spare`
//! sees to that, and `put_batch` writes dirty pages whose records the log has.
#![tactic(auto)]

mod batches;
mod laws;
mod opening;
mod pages;
#[cfg(test)]
mod tests;

pub use laws::{
    folds_of_files_have_fewer, folds_of_files_reach_back, folds_of_files_stay, new_files_have_folds,
};
pub use opening::open;
pub use pages::StorePages;
