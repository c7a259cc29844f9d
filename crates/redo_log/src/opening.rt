// The groups of a log from a gate on, as records.
ghost use Rattle.std.specs.Prelude.{◌≡◌, ◌+◌, ◌-◌, ◌<◌, ◌≤◌, ◌^◌, ◌++◌, [], ℕ, List, length, min, reverse, true, IfOk, IsErr, IsErrOf};
ghost use Rattle.seg_words.specs.Types.{Shape};
ghost use Rattle.disk_model.specs.Types.{Causes, Untouched, IsSettled};
ghost use Rattle.disk_model.specs.declared.disk.File.TheVariants.{Log};
ghost use Rattle.log_frame.specs.Types.{frames, IsLog, Covers, payload_read};
ghost use Rattle.redo_record.specs.declared.record.Record.{Record};
ghost use Rattle.redo_log.specs.Kept.{last_number, Holds};
ghost use Rattle.redo_log.specs.Found.{IsAdded, IsCounted, IsReadFrom, IsOpening, AnswersInMemory};
ghost use Rattle.redo_log.specs.Lasting.{IsOpened};

use crate::fault::of_frame;
use crate::payload::add_records;
use crate::waiting::COMMIT_SIZE;
use crate::{LogFault, RedoLog};
use disk_model::Disk;
use log_frame::GroupReader;
use redo_record::Record;
use seg_base::{FIRST_GATE, Lsn, NoMemory};
use std::alloc::Global;

// Adds the records of the group that was passed last.
fn add_group(alloc: Global, groups: &GroupReader, into: &mut Vec<Record>) -> Result<(), LogFault>
    ensures { IsAdded (payload_read groups.now) (groups.now.next - groups.now.size) (reverse into.old.items) (reverse into.new.items) result }
{
    add_records(alloc, groups.payload(), groups.payload_at(), into)
}

/// The number of the record so many after another, which ends at 2^64 - 1.
pub(crate) fn number_after(count: Lsn, more: usize) -> Lsn
    ensures { result ≡ min (count + more) (2 ^ 64 - 1) }
{
    Lsn(count.0.saturating_add(more as u64))
}

// The number of the last record, where the groups are passed from here on to the closed gate.
fn count_records<D: Disk>(
    alloc: Global,
    disk: &mut D,
    groups: &mut GroupReader,
    before: Lsn,
) -> Result<Lsn, LogFault>
    requires { groups.old.next < 2 ^ 64 }
    ensures counted { (R0 : List Record) → D.meaning.told disk.old → Covers (D.meaning.files disk.old).log_bytes groups.old → before ≡ last_number R0
        → IsCounted (D.meaning.files disk.old).log_bytes groups.old.next R0 groups.new.next result }
    ensures cause { Causes D.meaning disk.old disk.new (IsErrOf result LogFault.DeviceFault) }
    ensures untouched { Untouched D.meaning disk.old disk.new }
{
    let mut count = before;
    let mut records = Vec::new(alloc);
    'groups: loop {
        match groups.advance(disk) {
            Ok(true) => {}
            Ok(false) => return Ok(count),
            Err(fault) => return Err(of_frame(fault)),
        }
        records.clear();
        match add_group(alloc, groups, &mut records) {
            Ok(()) => {}
            Err(fault) => return Err(fault),
        }
        count = number_after(count, records.len());
    }
}

// All records of the groups from here on to the closed gate, in order.
fn read_records<D: Disk>(
    alloc: Global,
    disk: &mut D,
    groups: &mut GroupReader,
) -> Result<Vec<Record>, LogFault>
    requires { groups.old.next < 2 ^ 64 }
    ensures read { D.meaning.told disk.old → Covers (D.meaning.files disk.old).log_bytes groups.old → IsReadFrom (D.meaning.files disk.old).log_bytes groups.old.next result }
    ensures cause { Causes D.meaning disk.old disk.new (IsErrOf result LogFault.DeviceFault) }
    ensures untouched { Untouched D.meaning disk.old disk.new }
{
    let mut records = Vec::new(alloc);
    'groups: loop {
        match groups.advance(disk) {
            Ok(true) => {}
            Ok(false) => return Ok(records),
            Err(fault) => return Err(of_frame(fault)),
        }
        match add_group(alloc, groups, &mut records) {
            Ok(()) => {}
            Err(fault) => return Err(fault),
        }
    }
}

/// Opens the log from a gate on, before which stand so many records: it passes over its groups to the closed gate, and
/// counts their records. The file is read once, in pieces. `NotOpen` comes exactly where the log has fewer than 64 bytes
/// or its first byte isn't 1. `BadLog` comes for the first group whose frame or payload isn't right, its frame before its
/// payload: with the first wrong byte of the frame, or the place of the first record that isn't one.
pub fn open<D: Disk>(
    alloc: Global,
    disk: &mut D,
    from: u64,
    before: Lsn,
) -> Result<RedoLog, LogFault>
    ensures found { (R0 : List Record) → D.meaning.told disk.old → before ≡ last_number R0 → IsOpening (D.meaning.files disk.old).log_bytes from R0 result }
    ensures whole { (shape : Shape) (passed after : List (List ℕ)) (R0 R : List Record) → IsSettled D.meaning disk.old Log → IsLog shape (passed ++ after) (D.meaning.files disk.old).log_bytes
        → from ≡ FIRST_GATE + length (frames passed) → before ≡ last_number R0 → Holds after R0 R → AnswersInMemory result (IsOpened D.meaning disk.new shape (passed ++ after) after R0 R) }
    ensures room { IfOk result (λ log. COMMIT_SIZE ≤ log.waiting.room) }
    ensures none { IfOk result (λ log. log.waiting.bytes ≡ []) }
    ensures cause { Causes D.meaning disk.old disk.new (IsErrOf result LogFault.DeviceFault) }
    ensures untouched { Untouched D.meaning disk.old disk.new }
{
    let mut groups = match GroupReader::open(alloc, disk, from) {
        Ok(groups) => groups,
        Err(fault) => return Err(of_frame(fault)),
    };
    let count = match count_records(alloc, disk, &mut groups, before) {
        Ok(count) => count,
        Err(fault) => return Err(fault),
    };
    match RedoLog::over(alloc, groups.into_log(), count) {
        Ok(log) => Ok(log),
        Err(NoMemory) => Err(LogFault::NoMemory),
    }
}

/// All records of the groups from a gate on to the closed gate, in order. `BadLog` comes as for `open`.
pub(crate) fn read_from<D: Disk>(
    alloc: Global,
    disk: &mut D,
    at: u64,
) -> Result<Vec<Record>, LogFault>
    ensures read { D.meaning.told disk.old → IsReadFrom (D.meaning.files disk.old).log_bytes at result }
    ensures cause { Causes D.meaning disk.old disk.new (IsErrOf result LogFault.DeviceFault) }
    ensures untouched { Untouched D.meaning disk.old disk.new }
{
    let mut groups = match GroupReader::from_gate(alloc, disk, at) {
        Ok(groups) => groups,
        Err(fault) => return Err(of_frame(fault)),
    };
    read_records(alloc, disk, &mut groups)
}
