// A frame, and how many there are.
ghost use Rattle.std.specs.Prelude.{◌≡◌};
ghost use Rattle.buffer_pool.specs.Frames.{has_page as is_page};
ghost use Rattle.buffer_pool.specs.Batches.{is_due};

use page_set::{Page, lsn_of};
use page_store::is_place;
use seg_base::{CHECKPOINT_BLOCK, Dba, Lsn, Shape};

/// How many frames a pool has beside that of the transaction table.
pub const FRAMES: usize = 256;

/// How many pages may be dirty before a page is fetched or changed: the frames left are enough for all pages that a record
/// or two change.
pub const MOST_DIRTY: u16 = 240;

/// How many blocks a record or two may touch, counted for each.
pub(crate) const MOST_TOUCHED: usize = FRAMES - MOST_DIRTY as usize;

/// A page in memory, and whether it was changed since it was read or written.
#[derive(Drop)]
pub struct Frame {
    pub page: Page,
    pub dirty: bool,
}

impl Frame {
    /// Whether it is to be written, and no record after `upto` changed it.
    pub(crate) fn is_due(&self, upto: Lsn) -> bool
        ensures { result ≡ is_due upto self.now }
    {
        self.dirty && lsn_of(&self.page) <= upto
    }
}

/// Whether a block may have a frame: each block that has a page in the data file, but the checkpoint.
pub fn has_page(shape: &Shape, dba: Dba) -> bool
    ensures { result ≡ is_page shape.now dba }
{
    dba.0 != CHECKPOINT_BLOCK && is_place(shape, dba)
}
