// The bitmap above the extents.
use crate::upper_level::UpperLevel;
use page_bytes::PageForm;
use seg_base::{BLOCK_SIZE, EXTENTS_OF_L2, NoMemory};
use std::alloc::Global;

const KIND: u8 = 8;

/// The second level: the best code of each of 300 extents, by the L1 of each.
pub type L2 = UpperLevel<EXTENTS_OF_L2>;

impl PageForm for L2 {
    ghost use Rattle.bitmap_block.specs.Pages.{spelling_of_summary, summary_in, IsSummary};
    ghost use Rattle.bitmap_block.specs.Again.{summary_again};
    ghost use Rattle.seg_words.specs.Types.{EXTENTS_OF_L2};

    ghost spelling = { spelling_of_summary 8 };

    ghost meaning = { summary_in EXTENTS_OF_L2 };

    ghost HasSpelling = { IsSummary EXTENTS_OF_L2 };

    fn read(_alloc: Global, bytes: &[u8; BLOCK_SIZE]) -> Result<L2, NoMemory> {
        Ok(L2::read_from(bytes))
    }

    fn write(&self, out: &mut [u8; BLOCK_SIZE]) {
        self.write_as(KIND, out);
    }

    ghost reads_again = { summary_again 8 EXTENTS_OF_L2 };
}
