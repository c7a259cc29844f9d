// The checkpoint page, block 0.
ghost use Rattle.std.specs.Prelude.{◌≡◌};
ghost use Rattle.segment_blocks.specs.Checkpoints.{spelling_of_checkpoint, IsCheckpoint};

use page_bytes::{PageForm, add, begin, head_bytes, in_range, number_u32, number_u64};
use seg_base::{BLOCK_SIZE, Dba, Lsn, NoMemory, Scn};
use std::alloc::Global;
use std::marker::Model;

const KIND: u8 = 1;

/// What was on the data file when the last checkpoint ended: all of so many redo records. Its LSN is that number.
#[derive(Debug, Drop)]
pub struct CheckpointPage {
    dba: Dba,
    length: Lsn,
    end_gate: u64,
    commits: Scn,
}

impl Model for CheckpointPage {
    ghost use Rattle.segment_blocks.specs.Checkpoints.{Checkpoint};

    ghost Value = { Checkpoint };

    ghost view = { λ p. record { dba = p.dba; records = p.length; end_gate = p.end_gate; commits = p.commits } };
}

impl CheckpointPage {
    pub fn new(dba: Dba, length: Lsn, end_gate: u64, commits: Scn) -> CheckpointPage
        ensures { result ≡ record { dba = dba; records = length; end_gate = end_gate; commits = commits } }
    {
        CheckpointPage {
            dba,
            length,
            end_gate,
            commits,
        }
    }

    pub fn duplicate(&self) -> CheckpointPage
        ensures { result ≡ self.now }
    {
        CheckpointPage {
            dba: self.dba,
            length: self.length,
            end_gate: self.end_gate,
            commits: self.commits,
        }
    }

    pub fn dba(&self) -> Dba
        ensures { result ≡ self.now.dba }
    {
        self.dba
    }

    /// The number of redo records at the checkpoint.
    pub fn length(&self) -> Lsn
        ensures { result ≡ self.now.records }
    {
        self.length
    }

    /// The place in the log, in bytes, of the closed gate behind those records.
    pub fn end_gate(&self) -> u64
        ensures { result ≡ self.now.end_gate }
    {
        self.end_gate
    }

    /// The number of commits among those records.
    pub fn commits(&self) -> Scn
        ensures { result ≡ self.now.commits }
    {
        self.commits
    }

    /// Each of these pages has a spelling: what is written of it is read back.
    pub fn has_spelling(&self)
        ensures { IsCheckpoint self.now }
    {
        let dba = self.dba;
        let length = self.length;
        let commits = self.commits;
        in_range(dba.0, length.0);
        in_range(dba.0, commits.0);
        in_range(dba.0, self.end_gate);
    }
}

impl PageForm for CheckpointPage {
    ghost use Rattle.segment_blocks.specs.Checkpoints.{spelling_of_checkpoint, checkpoint_in, IsCheckpoint};
    ghost use Rattle.segment_blocks.specs.CheckpointAgain.{checkpoint_again};

    ghost spelling = { spelling_of_checkpoint };

    ghost meaning = { checkpoint_in };

    ghost HasSpelling = { IsCheckpoint };

    #[tactic(auto, unfolding(crate::specs::Checkpoints::checkpoint_in))]
    fn read(_alloc: Global, bytes: &[u8; BLOCK_SIZE]) -> Result<CheckpointPage, NoMemory> {
        Ok(CheckpointPage {
            dba: Dba(number_u32(bytes, 4)),
            length: Lsn(number_u64(bytes, 16)),
            end_gate: number_u64(bytes, 24),
            commits: Scn(number_u64(bytes, 32)),
        })
    }

    fn write(&self, out: &mut [u8; BLOCK_SIZE]) {
        let length = self.length;
        let commits = self.commits;
        write_page(self.dba, length.0, self.end_gate, commits.0, out);
    }

    ghost reads_again = { checkpoint_again };
}

fn write_page(dba: Dba, length: u64, end_gate: u64, commits: u64, out: &mut [u8; BLOCK_SIZE])
    ensures { out.new ≡ spelling_of_checkpoint (record { dba = dba; records = length; end_gate = end_gate; commits = commits }) }
{
    let start = begin(out);
    let length_at = add(out, start, &head_bytes(KIND, 0, 0, dba, Lsn(length)));
    let gate_at = add(out, length_at, &length.to_be_bytes());
    let commits_at = add(out, gate_at, &end_gate.to_be_bytes());
    add(out, commits_at, &commits.to_be_bytes());
}
