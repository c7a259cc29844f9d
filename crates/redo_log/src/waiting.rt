// Bytes that wait, with room kept for one commit more.
ghost use Rattle.std.specs.Prelude.{◌≡◌, ◌++◌, ◌+◌, ◌≤◌, ◌<◌, ◌^◌, [], length, true, false, IfOk, OnOk, OnErr};
ghost use Rattle.redo_record.specs.declared.record.Record.TheVariants.{Commit};
ghost use Rattle.redo_record.specs.Spelling.{spelling};
ghost use Rattle.redo_record.specs.Spelled.{HasSpelling};

use redo_record::CommitRecord;
use seg_base::NoMemory;
use std::alloc::Global;
use std::marker::Model;

/// How many bytes a Commit has.
pub const COMMIT_SIZE: usize = 18;

/// How many bytes a group has at most.
const LONGEST: usize = 4_294_967_295;

/// Bytes that wait to be written, with room kept for one Commit more.
#[derive(Drop)]
pub struct Waiting {
    bytes: Vec<u8>,
}

impl Model for Waiting {
    ghost use Rattle.std.specs.Prelude.{◌≤◌, ◌-◌, ◌^◌, min, vec_len, vec_capacity};
    ghost use Rattle.redo_log.specs.Kept.{Waiting};
    ghost use Rattle.redo_log.specs.declared.waiting.TheConstants.{COMMIT_SIZE};

    ghost Value = { Waiting };

    ghost view = { λ w. record { bytes = w.bytes.items; room = min (vec_capacity w.bytes - vec_len w.bytes) (2 ^ 32 - 1 - vec_len w.bytes) } };

    ghost invariant = { λ w. (COMMIT_SIZE ≤ vec_capacity w.bytes) × (vec_len w.bytes ≤ 2 ^ 32 - 1) };
}

impl Waiting {
    pub fn new(alloc: Global) -> Result<Waiting, NoMemory>
        ensures { IfOk result (λ w. (w.bytes ≡ []) × (COMMIT_SIZE ≤ w.room)) }
    {
        let mut bytes = Vec::new(alloc);
        bytes.reserve(COMMIT_SIZE)?;
        Ok(Waiting { bytes })
    }

    pub fn as_slice(&self) -> &[u8]
        ensures bytes { result.now ≡ self.now.bytes }
        ensures short { length result.now < 2 ^ 32 }
    {
        self.bytes.as_slice()
    }

    pub fn is_empty(&self) -> bool
        ensures yes { result ≡ true → self.now.bytes ≡ [] }
        ensures no { result ≡ false → 1 ≤ length self.now.bytes }
        ensures room { result ≡ true → COMMIT_SIZE ≤ self.now.room }
    {
        self.bytes.is_empty()
    }

    /// Adds some bytes, and keeps room for a Commit behind them. Without memory, and where all would be longer than a
    /// group may be, nothing is added.
    pub fn add(&mut self, more: &[u8]) -> Result<(), NoMemory>
        ensures ok { OnOk result (self.new.bytes ≡ self.old.bytes ++ more.now) }
        ensures room { OnOk result (COMMIT_SIZE ≤ self.new.room) }
        ensures err { OnErr result (self.new.bytes ≡ self.old.bytes) }
        ensures kept { OnErr result (self.old.room ≤ self.new.room) }
    {
        let left = LONGEST - self.bytes.len();
        if left < COMMIT_SIZE || more.len() > left - COMMIT_SIZE {
            return Err(NoMemory);
        }
        self.bytes.reserve(more.len() + COMMIT_SIZE)?;
        self.bytes.extend_from_slice(more)?;
        Ok(())
    }

    /// Adds some bytes where there is room, which takes no memory.
    pub fn add_within(&mut self, more: &[u8])
        requires { length more.now ≤ self.old.room }
        ensures { self.new.bytes ≡ self.old.bytes ++ more.now }
    {
        let _ = self.bytes.extend_from_slice(more);
    }

    pub fn clear(&mut self)
        ensures bytes { self.new.bytes ≡ [] }
        ensures room { COMMIT_SIZE ≤ self.new.room }
    {
        self.bytes.clear();
    }
}

/// A Commit, without memory.
#[tactic(auto, unfolding(redo_record::specs::Spelling::big_endian))]
pub fn commit_bytes(c: CommitRecord) -> [u8; COMMIT_SIZE]
    ensures bytes { result ≡ spelling (Commit c) }
    ensures spells { HasSpelling (Commit c) }
{
    let [a, b, d, e, f, g, h, i] = c.txn.0.to_be_bytes();
    let [j, k, l, m, n, o, p, q] = c.number.0.to_be_bytes();
    [15, a, b, d, e, f, g, h, i, j, k, l, m, n, o, p, q, c.entry]
}
