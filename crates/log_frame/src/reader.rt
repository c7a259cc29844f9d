// Groups that are read one after the other, from pieces of the file.
ghost use Rattle.std.specs.Prelude.{◌≡◌, ◌⊎◌, ◌+◌, ◌-◌, ◌≤◌, ◌<◌, ◌^◌, min, ℕ, List, [], length, take, drop, OnOk, OnErr, IfOk, IfErr, IfSome, Some, Ok, true, IsErr, IsErrOf};
ghost use Rattle.disk_model.specs.Types.{Causes, Untouched};
ghost use Rattle.log_frame.specs.Frame.{size_found};
ghost use Rattle.log_frame.specs.Found.{IsSizeFound, AnswersInMemory};
ghost use Rattle.log_frame.specs.Reading.{Passes, Covers, IsReached, IsBegun, IsFront, IsAdvance, payload_read, window};

use crate::log::{GROUP_HEAD_SIZE, expect_open, size_in};
use crate::{FrameFault, LogFile};
use disk_model::{Disk, File};
use std::alloc::Global;
use std::marker::Model;

/// How many bytes of the log are read at once, where no group has more.
const PIECE: u64 = 262_144;

/// The groups of a log from a gate on. The file is read once, in pieces.
#[derive(Debug, Drop)]
pub struct GroupReader {
    alloc: Global,
    /// The length of the file.
    len: u64,
    /// Where the bytes stand that were read.
    start: u64,
    bytes: Vec<u8>,
    /// The gate that comes next, and the length of the payload in front of it.
    next: u64,
    size: u32,
}

impl Model for GroupReader {
    ghost use Rattle.std.specs.Prelude.{◌≤◌};
    ghost use Rattle.log_frame.specs.Frame.{size_found};
    ghost use Rattle.log_frame.specs.Found.{IsSizeFound, AnswersInMemory};
    ghost use Rattle.log_frame.specs.Reading.{Passes, Reading};

    ghost Value = { Reading };

    ghost view = { λ r. record { len = r.len; start = r.start; read = r.bytes.items; next = r.next; size = r.size } };

    ghost invariant = { λ r. r.start ≤ r.next };
}

impl GroupReader {
    /// Begins at a gate of a log, where its head's gate is open. `NotOpen` comes exactly where the log has fewer than 64
    /// bytes or its first byte isn't 1.
    #[tactic(auto, using(disk_model::proofs::Going::untouched_then))]
    pub fn open<D: Disk>(alloc: Global, disk: &mut D, from: u64) -> Result<GroupReader, FrameFault>
        ensures begins { D.meaning.told disk.old → IsBegun (D.meaning.files disk.old).log_bytes from result }
        ensures at { IfOk result (λ r. r.next ≡ from) }
        ensures cause { Causes D.meaning disk.old disk.new (IsErrOf result FrameFault.DeviceFault) }
        ensures untouched { Untouched D.meaning disk.old disk.new }
    {
        let reader = match GroupReader::from_gate(alloc, disk, from) {
            Ok(reader) => reader,
            Err(fault) => return Err(fault),
        };
        match expect_open(disk, reader.len) {
            Ok(()) => Ok(reader),
            Err(fault) => Err(fault),
        }
    }

    /// Begins at a gate.
    #[tactic(auto, using(disk_model::proofs::Going::untouched_call))]
    pub fn from_gate<D: Disk>(
        alloc: Global,
        disk: &mut D,
        from: u64,
    ) -> Result<GroupReader, FrameFault>
        ensures begins { D.meaning.told disk.old → IfOk result (Covers (D.meaning.files disk.old).log_bytes) }
        ensures at { IfOk result (λ r. r.next ≡ from) }
        ensures len { D.meaning.told disk.old → IfOk result (λ r. r.len ≡ length (D.meaning.files disk.old).log_bytes) }
        ensures only { IfErr result (λ e. e ≡ FrameFault.DeviceFault) }
        ensures cause { Causes D.meaning disk.old disk.new (IsErr result) }
        ensures untouched { Untouched D.meaning disk.old disk.new }
    {
        let Ok(len) = disk.len(File::Log) else {
            return Err(FrameFault::DeviceFault);
        };
        Ok(GroupReader {
            alloc,
            len,
            start: from,
            bytes: Vec::new(alloc),
            next: from,
            size: 0,
        })
    }

    // Reads on, so that so many bytes from the next gate on are there, or all of the file from there on.
    #[tactic(auto, using(disk_model::proofs::Going::untouched_call, disk_model::proofs::Going::untouched_start))]
    fn reach<D: Disk>(&mut self, disk: &mut D, need: u64) -> Result<(), FrameFault>
        ensures reached { D.meaning.told disk.old → Covers (D.meaning.files disk.old).log_bytes self.old → AnswersInMemory result (λ _. IsReached (D.meaning.files disk.old).log_bytes need self.new) }
        ensures next { self.new.next ≡ self.old.next }
        ensures len { self.new.len ≡ self.old.len }
        ensures cause { Causes D.meaning disk.old disk.new (IsErrOf result FrameFault.DeviceFault) }
        ensures untouched { Untouched D.meaning disk.old disk.new }
    {
        let want = need.min(self.len.saturating_sub(self.next));
        let there = (self.bytes.len() as u64).saturating_sub(self.next - self.start);
        if want <= there {
            return Ok(());
        }
        let Ok(mut bytes) = vec![in self.alloc; 0u8; want.max(PIECE) as usize] else {
            return Err(FrameFault::NoMemory);
        };
        let Ok(count) = disk.read(File::Log, self.next, &mut bytes) else {
            return Err(FrameFault::DeviceFault);
        };
        bytes.truncate(count);
        self.start = self.next;
        self.bytes = bytes;
        Ok(())
    }

    // The bytes that were read from the next gate on.
    fn ahead(&self) -> &[u8]
        ensures { result.now ≡ window self.now }
    {
        let passed = (self.next - self.start) as usize;
        &self.bytes[passed.min(self.bytes.len())..]
    }

    // The first of them, as many as a group has before its payload, and zeros where there are fewer.
    fn front(&self) -> [u8; GROUP_HEAD_SIZE]
        ensures { (file : List ℕ) → IsReached file GROUP_HEAD_SIZE self.now → IsFront file self.now.next result }
    {
        let mut front = [0; GROUP_HEAD_SIZE];
        let ahead = self.ahead();
        let count = ahead.len().min(GROUP_HEAD_SIZE);
        front[..count].copy_from_slice(&ahead[..count]);
        front
    }

    // The length of the payload behind the next gate, whose front was read.
    fn size_ahead(&self) -> Result<Option<u32>, FrameFault>
        ensures found { (file : List ℕ) → IsReached file GROUP_HEAD_SIZE self.now → IsSizeFound (size_found file self.now.next) result }
        ensures within { IfOk result (λ o. IfSome o (λ size. self.now.next + GROUP_HEAD_SIZE + size < 2 ^ 64)) }
        ensures here { IsErrOf result FrameFault.DeviceFault → ⊥ }
    {
        size_in(&self.front(), self.next, self.len)
    }

    // Goes on over the group at the next gate, which was read.
    fn pass(&mut self, size: u32)
        requires { self.old.next + GROUP_HEAD_SIZE + size < 2 ^ 64 }
        ensures next { self.new.next ≡ self.old.next + GROUP_HEAD_SIZE + size }
        ensures passes { (file : List ℕ) → IsReached file (GROUP_HEAD_SIZE + size) self.old → size_found file self.old.next ≡ Ok (Some size) → Passes file self.old.next self.new }
    {
        self.next = self.next + GROUP_HEAD_SIZE as u64 + u64::from(size);
        self.size = size;
    }

    /// Goes on over the group at the next gate, and answers whether there is one: none where the gate is closed. A fault
    /// comes as for `open`.
    #[tactic(auto, using(disk_model::proofs::Going::untouched_then))]
    pub fn advance<D: Disk>(&mut self, disk: &mut D) -> Result<bool, FrameFault>
        ensures goes { D.meaning.told disk.old → Covers (D.meaning.files disk.old).log_bytes self.old → IsAdvance (D.meaning.files disk.old).log_bytes self.old.next self.new result }
        ensures on { IfOk result (λ more. more ≡ true → self.old.next < self.new.next) }
        ensures room { self.old.next < 2 ^ 64 → self.new.next < 2 ^ 64 }
        ensures cause { Causes D.meaning disk.old disk.new (IsErrOf result FrameFault.DeviceFault) }
        ensures untouched { Untouched D.meaning disk.old disk.new }
    {
        match self.reach(disk, GROUP_HEAD_SIZE as u64) {
            Ok(()) => {}
            Err(fault) => return Err(fault),
        }
        let size = match self.size_ahead() {
            Ok(Some(size)) => size,
            Ok(None) => return Ok(false),
            Err(fault) => return Err(fault),
        };
        match self.reach(disk, GROUP_HEAD_SIZE as u64 + u64::from(size)) {
            Ok(()) => {}
            Err(fault) => return Err(fault),
        }
        self.pass(size);
        Ok(true)
    }

    /// The place of the payload of the group that was passed last.
    pub fn payload_at(&self) -> u64
        ensures at { result ≡ self.now.next - self.now.size }
        ensures fits { result + length (payload_read self.now) < 2 ^ 64 }
    {
        self.next.saturating_sub(self.size.into())
    }

    /// The payload of the group that was passed last.
    pub fn payload(&self) -> &[u8]
        ensures { result.now ≡ payload_read self.now }
    {
        let size = self.size as usize;
        let at = self
            .next
            .saturating_sub(self.size.into())
            .saturating_sub(self.start) as usize;
        let from = at.min(self.bytes.len());
        let behind = &self.bytes[from..];
        &behind[..size.min(behind.len())]
    }

    /// The gate that comes next.
    pub fn next_gate(&self) -> u64
        ensures { result ≡ self.now.next }
    {
        self.next
    }

    /// The log, whose closed gate comes next.
    pub fn into_log(self) -> LogFile
        ensures { result ≡ self.next }
    {
        LogFile::at(self.next)
    }
}
