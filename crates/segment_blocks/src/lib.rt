//! The blocks that keep a store's tables and space: the catalogue, the space bitmap, a segment's header, the checkpoint.
#![tactic(auto)]

mod catalogue;
mod checkpoint;
mod entry;
mod extent;
mod header;
mod space;
#[cfg(test)]
mod tests;

pub use catalogue::Catalogue;
pub use checkpoint::CheckpointPage;
pub use entry::{CatalogueEntry, NamedTable};
pub use header::SegmentHeader;
pub use space::SpaceBitmap;
