// Groups behind gates.
ghost use Rattle.std.specs.Prelude.{◌≡◌, ◌≢◌, ◌↔◌, ◌+◌, ◌-◌, ◌≤◌, ◌<◌, ◌^◌, ◌++◌, [], ◌∷◌, List, ℕ, length, take, drop, slice_index, OnOk, OnErr, IfOk, IfErr, IfSome, IsErr, IsErrOf};
ghost use Rattle.seg_words.specs.Types.{Shape};
ghost use Rattle.disk_model.specs.Types.{Leaves, Causes, Untouched, OnlyFile, IsSettled};
ghost use Rattle.disk_model.specs.declared.disk.File.TheVariants.{Log};
ghost use Rattle.log_frame.specs.Frame.{frames, IsPayload, size_found, group_found};
ghost use Rattle.log_frame.specs.Found.{IsSizeFound, IsGroupFound, IsOpen, IsEndFound, IsOpening, Answers, AnswersInMemory, IsFirst};
ghost use Rattle.log_frame.specs.Spelling.{IsLog, WithOrWithout};
ghost use Rattle.log_frame.specs.Reading.{IsFront};
ghost use Rattle.log_frame.specs.Ready.{IsReady, Leads};

use crate::FrameFault;
use disk_model::{Disk, File, write_and_sync, write_framed_and_sync};
use seg_base::{FIRST_GATE, LOG_HEAD_SIZE, Text};
use std::alloc::Global;
use std::marker::Model;

/// Bytes of a group's gate and of its payload's length, in front of the payload.
pub const GROUP_HEAD_SIZE: usize = 5;

/// A group of a log: what it holds, and where the next gate stands.
#[derive(Debug, Drop)]
pub struct Group {
    pub payload: Text,
    pub next: u64,
}

/// A log that was opened, seen as the place of its closed gate.
#[derive(Debug, Drop)]
pub struct LogFile {
    end: u64,
}

impl Model for LogFile {
    ghost use Rattle.std.specs.Prelude.{ℕ};

    ghost Value = { ℕ };

    ghost view = { λ log. log.end };

    ghost inverse = { λ end. record { end = end } };
}

// The length of the payload behind a gate, in a log of this length, by the five bytes that were read there.
pub(crate) fn size_in(
    front: &[u8; GROUP_HEAD_SIZE],
    at: u64,
    len: u64,
) -> Result<Option<u32>, FrameFault>
    ensures found { (file : List ℕ) → len ≡ length file → IsFront file at front.now → IsSizeFound (size_found file at) result }
    ensures within { IfOk result (λ o. IfSome o (λ size. at + GROUP_HEAD_SIZE + size < len)) }
    ensures here { IsErrOf result FrameFault.DeviceFault → ⊥ }
{
    if len <= at {
        return Err(FrameFault::BadFrame {
            offset: at,
            seen: 0,
        });
    }
    let [gate, a, b, c, d] = *front;
    if gate != 1 {
        return Ok(None);
    }
    let size = u32::from_be_bytes([a, b, c, d]);
    let left = len - at;
    if left < GROUP_HEAD_SIZE as u64 {
        return Err(FrameFault::BadFrame {
            offset: len,
            seen: 0,
        });
    }
    if size == 0 {
        return Err(FrameFault::BadFrame {
            offset: at + 1,
            seen: 0,
        });
    }
    if left <= GROUP_HEAD_SIZE as u64 + u64::from(size) {
        return Err(FrameFault::BadFrame {
            offset: len,
            seen: 0,
        });
    }
    Ok(Some(size))
}

// The length of the payload behind a gate, in a log of this length.
#[tactic(auto, using(disk_model::proofs::Going::untouched_call))]
fn size_at<D: Disk>(disk: &mut D, at: u64, len: u64) -> Result<Option<u32>, FrameFault>
    ensures found { D.meaning.told disk.old → len ≡ length (D.meaning.files disk.old).log_bytes → IsSizeFound (size_found (D.meaning.files disk.old).log_bytes at) result }
    ensures within { IfOk result (λ o. IfSome o (λ size. at + GROUP_HEAD_SIZE + size < len)) }
    ensures cause { Causes D.meaning disk.old disk.new (IsErrOf result FrameFault.DeviceFault) }
    ensures untouched { Untouched D.meaning disk.old disk.new }
{
    let mut front = [0u8; GROUP_HEAD_SIZE];
    let Ok(_) = disk.read(File::Log, at, &mut front) else {
        return Err(FrameFault::DeviceFault);
    };
    size_in(&front, at, len)
}

// The group at a gate.
#[tactic(auto, using(disk_model::proofs::Going::untouched_then, disk_model::proofs::Going::untouched_call))]
fn read_group_at<D: Disk>(alloc: Global, disk: &mut D, at: u64) -> Result<Option<Group>, FrameFault>
    ensures found { D.meaning.told disk.old → IsGroupFound (group_found (D.meaning.files disk.old).log_bytes at) result }
    ensures next { IfOk result (λ o. IfSome o (λ group. group.next ≡ at + GROUP_HEAD_SIZE + length group.payload)) }
    ensures cause { Causes D.meaning disk.old disk.new (IsErrOf result FrameFault.DeviceFault) }
    ensures untouched { Untouched D.meaning disk.old disk.new }
{
    let Ok(len) = disk.len(File::Log) else {
        return Err(FrameFault::DeviceFault);
    };
    let size = match size_at(disk, at, len) {
        Ok(Some(size)) => size,
        Ok(None) => return Ok(None),
        Err(fault) => return Err(fault),
    };
    let Ok(mut bytes) = vec![in alloc; 0u8; size as usize] else {
        return Err(FrameFault::NoMemory);
    };
    let start = at + GROUP_HEAD_SIZE as u64;
    let Ok(count) = disk.read(File::Log, start, &mut bytes) else {
        return Err(FrameFault::DeviceFault);
    };
    if count < bytes.len() {
        let offset = start + count as u64;
        return Err(FrameFault::BadFrame { offset, seen: 0 });
    }
    let next = start + u64::from(size);
    Ok(Some(Group {
        payload: Text::from_vec(bytes),
        next,
    }))
}

// That the log has a head, whose gate is open.
#[tactic(auto, using(disk_model::proofs::Going::untouched_call))]
pub(crate) fn expect_open<D: Disk>(disk: &mut D, len: u64) -> Result<(), FrameFault>
    ensures open { D.meaning.told disk.old → len ≡ length (D.meaning.files disk.old).log_bytes → IsOpen (D.meaning.files disk.old).log_bytes result }
    ensures cause { Causes D.meaning disk.old disk.new (IsErrOf result FrameFault.DeviceFault) }
    ensures untouched { Untouched D.meaning disk.old disk.new }
{
    let mut gate = [0u8; 1];
    let Ok(_) = disk.read(File::Log, 0, &mut gate) else {
        return Err(FrameFault::DeviceFault);
    };
    if len < LOG_HEAD_SIZE as u64 || gate[0] != 1 {
        return Err(FrameFault::NotOpen);
    }
    Ok(())
}

// The place of the closed gate, from a gate on.
fn end_from<D: Disk>(disk: &mut D, from: u64, len: u64) -> Result<u64, FrameFault>
    ensures found { D.meaning.told disk.old → len ≡ length (D.meaning.files disk.old).log_bytes → IsEndFound (D.meaning.files disk.old).log_bytes from result }
    ensures cause { Causes D.meaning disk.old disk.new (IsErrOf result FrameFault.DeviceFault) }
    ensures untouched { Untouched D.meaning disk.old disk.new }
{
    let mut at = from;
    'groups: loop {
        match size_at(disk, at, len) {
            Ok(Some(size)) => at = at + GROUP_HEAD_SIZE as u64 + u64::from(size),
            Ok(None) => return Ok(at),
            Err(fault) => return Err(fault),
        }
    }
}

// A walk over the log's groups.
fn walk<D: Disk>(disk: &mut D, from: u64) -> Result<LogFile, FrameFault>
    ensures found { D.meaning.told disk.old → IsOpening (D.meaning.files disk.old).log_bytes from result }
    ensures cause { Causes D.meaning disk.old disk.new (IsErrOf result FrameFault.DeviceFault) }
    ensures untouched { Untouched D.meaning disk.old disk.new }
{
    let Ok(len) = disk.len(File::Log) else {
        return Err(FrameFault::DeviceFault);
    };
    match expect_open(disk, len) {
        Ok(()) => {}
        Err(fault) => return Err(fault),
    }
    match end_from(disk, from, len) {
        Ok(end) => Ok(LogFile { end }),
        Err(fault) => Err(fault),
    }
}

/// Opens the log, walking over its groups from a gate on. `NotOpen` comes exactly where the log has fewer than 64 bytes
/// or its first byte isn't 1. `BadFrame` comes where no byte stands at the gate, where a payload's length is 0, and
/// where the log ends before the gate behind an open group. What the head says besides is for `read_shape`.
/// On the log of a store it finds the closed gate, from each gate on.
pub fn open<D: Disk>(disk: &mut D, from: u64) -> Result<LogFile, FrameFault>
    ensures found { D.meaning.told disk.old → IsOpening (D.meaning.files disk.old).log_bytes from result }
    ensures whole { (shape : Shape) (before after : List (List ℕ)) → IsSettled D.meaning disk.old Log
        → IsLog shape (before ++ after) (D.meaning.files disk.old).log_bytes → from ≡ FIRST_GATE + length (frames before)
        → Answers result (λ end. IsReady D.meaning disk.new shape (before ++ after) end) }
    ensures cause { Causes D.meaning disk.old disk.new (IsErrOf result FrameFault.DeviceFault) }
    ensures untouched { Untouched D.meaning disk.old disk.new }
{
    walk(disk, from)
}

impl LogFile {
    // A log whose closed gate stands there.
    pub(crate) fn at(end: u64) -> LogFile
        ensures { result ≡ end }
    {
        LogFile { end }
    }

    /// Adds a group. At any moment of the call a crash leaves the log as it was or with this group, and the data file as
    /// before. At `Ok` each crash from then on leaves the log with the group. It takes no memory. After an `Err` the log
    /// has to be opened again.
    pub fn append_group<D: Disk>(&mut self, disk: &mut D, payload: &[u8]) -> Result<(), FrameFault>
        requires { IsPayload payload.now }
        ensures any_moment { (shape : Shape) (groups : List (List ℕ)) → IsReady D.meaning disk.old shape groups self.old
            → Leaves D.meaning disk.old disk.new (OnlyFile D.meaning disk.old Log (WithOrWithout shape groups payload.now)) }
        ensures added { (shape : Shape) (groups : List (List ℕ)) → IsReady D.meaning disk.old shape groups self.old
            → OnOk result (Leads D.meaning disk.old disk.new shape (groups ++ payload.now ∷ []) self.new) }
        ensures kept { OnErr result (self.new ≡ self.old) }
        ensures cause { Causes D.meaning disk.old disk.new (IsErr result) }
        ensures only { IfErr result (λ e. e ≡ FrameFault.DeviceFault) }
        ensures told { D.meaning.told disk.new ↔ D.meaning.told disk.old }
        ensures reads { D.meaning.log_reads disk.new ≡ D.meaning.log_reads disk.old }
    {
        let gate = self.end;
        let size = (payload.len() as u32).to_be_bytes();
        let start = gate.saturating_add(1);
        write_framed_and_sync(disk, File::Log, start, &size, payload, &[0])?;
        write_and_sync(disk, File::Log, gate, &[1])?;
        self.end = start.saturating_add(4).saturating_add(payload.len() as u64);
        Ok(())
    }

    /// The group at a gate, and none where it is closed. The next gate stands behind its payload. `BadFrame` comes as for
    /// `open`, never on the log of a store.
    pub fn read_group<D: Disk>(
        &self,
        alloc: Global,
        disk: &mut D,
        at: u64,
    ) -> Result<Option<Group>, FrameFault>
        ensures found { D.meaning.told disk.old → IsGroupFound (group_found (D.meaning.files disk.old).log_bytes at) result }
        ensures whole { (shape : Shape) (before after : List (List ℕ)) → D.meaning.told disk.old
            → IsLog shape (before ++ after) (D.meaning.files disk.old).log_bytes → at ≡ FIRST_GATE + length (frames before)
            → AnswersInMemory result (IsFirst after at) }
        ensures next { IfOk result (λ o. IfSome o (λ group. group.next ≡ at + GROUP_HEAD_SIZE + length group.payload)) }
        ensures cause { Causes D.meaning disk.old disk.new (IsErrOf result FrameFault.DeviceFault) }
        ensures untouched { Untouched D.meaning disk.old disk.new }
    {
        read_group_at(alloc, disk, at)
    }

    /// The place of the closed gate.
    pub fn end(&self) -> u64
        ensures { result ≡ self.now }
    {
        self.end
    }
}
