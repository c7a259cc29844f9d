// The bitmap above all.
use crate::upper_level::UpperLevel;
use page_bytes::PageForm;
use seg_base::{BLOCK_SIZE, MOST_L2, NoMemory};
use std::alloc::Global;

const KIND: u8 = 9;

/// The third level: the best code of each of the three L2 that a table may have.
pub type L3 = UpperLevel<MOST_L2>;

impl PageForm for L3 {
    ghost use Rattle.bitmap_block.specs.Pages.{spelling_of_summary, summary_in, IsSummary};
    ghost use Rattle.bitmap_block.specs.Again.{summary_again};
    ghost use Rattle.seg_words.specs.Types.{MOST_L2};

    ghost spelling = { spelling_of_summary 9 };

    ghost meaning = { summary_in MOST_L2 };

    ghost HasSpelling = { IsSummary MOST_L2 };

    fn read(_alloc: Global, bytes: &[u8; BLOCK_SIZE]) -> Result<L3, NoMemory> {
        Ok(L3::read_from(bytes))
    }

    fn write(&self, out: &mut [u8; BLOCK_SIZE]) {
        self.write_as(KIND, out);
    }

    ghost reads_again = { summary_again 9 MOST_L2 };
}
