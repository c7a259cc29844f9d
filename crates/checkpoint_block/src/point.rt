// What a checkpoint says, and the page that says it.
ghost use Rattle.std.specs.Prelude.{◌≡◌};
ghost use Rattle.checkpoint_block.specs.Points.{first_point, page_of_point, point_on, spelled_point, HasNumbers};

use page_bytes::in_range;
use page_set::{Page, encode};
use page_store::RawPage;
use seg_base::{BLOCK_SIZE, CHECKPOINT_BLOCK, Dba, FIRST_GATE, Lsn, Scn};
use segment_blocks::CheckpointPage;

/// The block of a store that says its checkpoint.
pub(crate) const BLOCK: Dba = Dba(CHECKPOINT_BLOCK);

/// What a checkpoint says: how many records the list had, the place of the log's closed gate behind them, and the number of
/// commits among them.
#[derive(Clone, Copy, Debug, PartialEq, Eq, Drop)]
pub struct Checkpoint {
    pub length: Lsn,
    pub end_gate: u64,
    pub commits: Scn,
}

/// The checkpoint of a store without a record, whose log ends at its first gate.
pub const FIRST: Checkpoint = Checkpoint {
    length: Lsn(0),
    end_gate: FIRST_GATE,
    commits: Scn(0),
};

impl Checkpoint {
    // Its numbers are in the ranges of their fields.
    pub(crate) fn numbers_in_range(&self)
        ensures { HasNumbers self.now }
    {
        let length = self.length;
        let commits = self.commits;
        in_range(0, length.0);
        in_range(0, self.end_gate);
        in_range(0, commits.0);
    }
}

// What a page of block 0 says of a checkpoint, where it is of a kind that does.
pub(crate) fn point_on(page: &Page) -> Option<Checkpoint>
    ensures { result ≡ point_on page.now }
{
    match page {
        Page::Zero(_) => Some(FIRST),
        Page::Checkpoint(point) => Some(Checkpoint {
            length: point.length(),
            end_gate: point.end_gate(),
            commits: point.commits(),
        }),
        _ => None,
    }
}

// The page of block 0 that says a checkpoint.
pub(crate) fn page_of(point: &Checkpoint) -> RawPage
    ensures { result ≡ record { dba = CHECKPOINT_BLOCK; bytes = spelled_point point.now } }
{
    let mut bytes = [0; BLOCK_SIZE];
    let page = CheckpointPage::new(BLOCK, point.length, point.end_gate, point.commits);
    encode(&Page::Checkpoint(page), &mut bytes);
    RawPage { dba: BLOCK, bytes }
}
