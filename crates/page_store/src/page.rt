// Pages and the blocks that they may stand in.
ghost use Rattle.std.specs.Prelude.{◌≡◌, ◌*◌, length};
ghost use Rattle.page_store.specs.Pages.{is_place as place_test};

use crate::area::LAST_COPY;
use seg_base::{BLOCK_SIZE, DOUBLE_WRITE_BLOCK, Dba, Shape};

/// A page as its block has it.
#[derive(Clone, Copy, Debug, PartialEq, Eq, Drop)]
pub struct RawPage {
    pub dba: Dba,
    pub bytes: [u8; BLOCK_SIZE],
}

/// Where a block begins in the data file.
pub(crate) fn offset_of(dba: Dba) -> u64
    ensures { result ≡ BLOCK_SIZE * dba }
{
    BLOCK_SIZE as u64 * u64::from(dba.0)
}

impl RawPage {
    ghost use Rattle.page_store.specs.Steps.{dba_bytes};

    /// Where its block begins in the data file.
    pub(crate) fn offset(&self) -> u64
        ensures { result ≡ BLOCK_SIZE * self.now.dba }
    {
        offset_of(self.dba)
    }

    /// The number of its block, as the head of the area has it.
    pub(crate) fn dba_bytes(&self) -> [u8; 4]
        ensures { result ≡ dba_bytes self.now }
    {
        self.dba.0.to_be_bytes()
    }

    /// Its 4,096 bytes.
    pub(crate) fn as_slice(&self) -> &[u8]
        ensures bytes { result.now ≡ self.now.bytes }
        ensures whole { length self.now.bytes ≡ BLOCK_SIZE }
    {
        &self.bytes
    }
}

/// Whether a store of this shape has a page there: in each of its blocks but those of the double-write area, 4 to 36.
pub fn is_place(shape: &Shape, dba: Dba) -> bool
    ensures { result ≡ place_test shape.now dba }
{
    dba.0 < shape.blocks && (dba.0 < DOUBLE_WRITE_BLOCK || dba.0 > LAST_COPY)
}
