// Two files in memory. They keep each call that changed something, and so can say what a crash at any moment may leave.
ghost use Rattle.std.specs.Prelude.{◌≡◌, ◌+◌, ◌-◌, ◌^◌, ◌<◌, ◌≤◌, ◌++◌, [], ◌∷◌, length, OnOk, OnErr, IfOk, IsTrue, min, take, drop, replicate, ◌⊎◌, false, true};
ghost use Rattle.seg_words.specs.Types.{list_all};
ghost use Rattle.disk_model.specs.Files.{Files, content, put, written, AreShort};
ghost use Rattle.disk_model.specs.History.{both, seen_step, seen_after, is_by, fits, is_in_range};

use crate::{Disk, File};
use seg_base::{Failed, NoMemory, Text};
use std::alloc::{AllocError, Global};

/// What each range that was not synced holds after a crash.
#[derive(Clone, Copy, Debug, PartialEq, Eq)]
pub enum Tear {
    Old,
    New,
    Zero,
}

/// What a call made of a file.
#[derive(Drop)]
pub enum Change {
    Write(File, u64, Text),
    /// A write that failed, of so many bytes.
    Broken(File, u64, u64),
    Sync(File),
}

/// A change, and how many calls had returned with it.
#[derive(Drop)]
pub struct DatedChange {
    pub moment: u64,
    pub change: Change,
}

/// Two files in memory, of which some calls fail. A call that finds no memory fails, too.
#[derive(Drop)]
pub struct Memory {
    pub(crate) alloc: Global,
    pub(crate) first_data: Vec<u8>,
    pub(crate) first_log: Vec<u8>,
    data_bytes: Vec<u8>,
    log_bytes: Vec<u8>,
    pub(crate) changes: Vec<DatedChange>,
    fails: Vec<u64>,
    clock: u64,
    fault_count: u64,
    log_reads: u64,
    // The changes are of the calls so far.
    ghost so_far: { IsTrue (list_all (is_by clock) changes.items) },
    ghost in_range: { IsTrue (list_all is_in_range changes.items) },
    ghost first_short: { AreShort (both first_data.items first_log.items) },
    // What is there is what they made.
    ghost data_is: { data_bytes.items ≡ (seen_after (both first_data.items first_log.items) changes.items).data_bytes },
    ghost log_is: { log_bytes.items ≡ (seen_after (both first_data.items first_log.items) changes.items).log_bytes },
    ghost reads_so_far: { log_reads ≤ clock },
    ghost in_time: { clock ≤ 2 ^ 64 - 1 },
}

// Zeros behind the bytes, up to that length. Where there is no memory for them, nothing is changed.
fn lengthen(file: &mut Vec<u8>, len: usize) -> Result<(), AllocError>
    ensures ok { OnOk result (file.new.items ≡ file.old.items ++ replicate (len - length file.old.items) 0) }
    ensures err { OnErr result (file.new.items ≡ file.old.items) }
{
    if file.len() < len {
        file.resize(len, 0)
    } else {
        Ok(())
    }
}

// Writes over a part of the bytes.
fn replace_part(all: &mut [u8], start: usize, bytes: &[u8])
    requires { start + length bytes.now ≤ length all.old }
    ensures { all.new ≡ take start all.old ++ bytes.now ++ drop (start + length bytes.now) all.old }
{
    all[start..start + bytes.len()].copy_from_slice(bytes);
}

// Writes over the bytes, and past their end. Where there is no memory for that, nothing is changed.
pub(crate) fn overwrite(file: &mut Vec<u8>, offset: u64, bytes: &[u8]) -> Result<(), AllocError>
    ensures ok { OnOk result (file.new.items ≡ written file.old.items offset bytes.now) }
    ensures err { OnErr result (file.new.items ≡ file.old.items) }
{
    let start = offset as usize;
    let Some(end) = start.checked_add(bytes.len()) else {
        return Err(AllocError);
    };
    lengthen(file, end)?;
    replace_part(file, start, bytes);
    Ok(())
}

// Writes and keeps the change, or does neither.
fn write_and_keep(
    file: &mut Vec<u8>,
    changes: &mut Vec<DatedChange>,
    offset: u64,
    bytes: &[u8],
    change: DatedChange,
) -> Result<(), NoMemory>
    ensures file { OnOk result (file.new.items ≡ written file.old.items offset bytes.now) }
    ensures changes { OnOk result (changes.new.items ≡ changes.old.items ++ change ∷ []) }
    ensures err { OnErr result ((file.new.items ≡ file.old.items) × (changes.new.items ≡ changes.old.items)) }
{
    changes.reserve(1)?;
    overwrite(file, offset, bytes)?;
    changes.push(change).unwrap();
    Ok(())
}

impl Memory {
    ghost use Rattle.disk_model.specs.Memory.{memory_files, first_files, IsNew, IsDurable, PassesOver, Stays, Adds, fails_at};
    ghost use Rattle.disk_model.specs.declared.memory.Change.TheVariants.{Write, Broken, Sync};
    ghost use Rattle.disk_model.specs.Crash.{CanWrite, Rises};
    ghost use Rattle.seg_words.specs.Types.{HasCause};

    /// Both files with these bytes, all of them on the disk. The calls with these numbers, from 0, fail.
    pub fn new(
        alloc: Global,
        data_bytes: &[u8],
        log_bytes: &[u8],
        fails: &[u64],
    ) -> Result<Memory, NoMemory>
        ensures new { IfOk result (IsNew (both data_bytes.now log_bytes.now) fails.now) }
        ensures durable { IfOk result IsDurable }
    {
        Ok(Memory {
            alloc,
            first_data: data_bytes.to_vec(alloc)?,
            first_log: log_bytes.to_vec(alloc)?,
            data_bytes: data_bytes.to_vec(alloc)?,
            log_bytes: log_bytes.to_vec(alloc)?,
            changes: Vec::new(alloc),
            fails: fails.to_vec(alloc)?,
            clock: 0,
            fault_count: 0,
            log_reads: 0,
        })
    }

    /// What is there.
    pub fn bytes(&self, file: File) -> &[u8]
        ensures { result.now ≡ content file (memory_files self.now) }
    {
        match file {
            File::Data => &self.data_bytes,
            File::Log => &self.log_bytes,
        }
    }

    // That the next call is to fail.
    fn is_to_fail(&self) -> bool
        ensures listed { result ≡ fails_at self.now.fails.items self.now.clock }
        ensures time { result ≡ false → self.now.clock < 2 ^ 64 - 1 }
    {
        self.clock == u64::MAX || self.fails.contains(&self.clock)
    }

    // A call that has answered and changed nothing.
    fn pass(&mut self, log_reads: u64)
        requires time { self.old.clock < 2 ^ 64 - 1 }
        requires reads { log_reads ≤ self.old.clock + 1 }
        ensures over { PassesOver self.old self.new }
        ensures faults { self.new.fault_count ≡ self.old.fault_count }
        ensures reads { self.new.log_reads ≡ log_reads }
    {
        self.log_reads = log_reads;
        self.clock += 1;
    }

    // A call that has failed and changed nothing.
    fn fail(&mut self) -> Failed
        ensures over { PassesOver self.old self.new }
        ensures faults { Rises self.old.fault_count self.new.fault_count }
        ensures reads { self.new.log_reads ≡ self.old.log_reads }
    {
        self.clock = self.clock.saturating_add(1);
        self.fault_count = self.fault_count.saturating_add(1);
        Failed
    }

    // A call that has written.
    fn keep_write(&mut self, file: File, offset: u64, bytes: &[u8]) -> Result<(), NoMemory>
        requires { CanWrite self.old.clock offset (length bytes.now) }
        ensures ok { OnOk result (Adds (Write file offset bytes.now) self.old self.new) }
        ensures err { OnErr result (Stays self.old self.new) }
        ensures faults { self.new.fault_count ≡ self.old.fault_count }
        ensures reads { self.new.log_reads ≡ self.old.log_reads }
    {
        let kept = Text::copy(self.alloc, bytes)?;
        let moment = self.clock + 1;
        let change = DatedChange {
            moment,
            change: Change::Write(file, offset, kept),
        };
        match file {
            File::Data => {
                write_and_keep(
                    &mut self.data_bytes,
                    &mut self.changes,
                    offset,
                    bytes,
                    change,
                )?;
                self.clock = moment;
                return Ok(());
            }
            File::Log => {
                write_and_keep(
                    &mut self.log_bytes,
                    &mut self.changes,
                    offset,
                    bytes,
                    change,
                )?;
                self.clock = moment;
                return Ok(());
            }
        }
    }

    // A call that has synced or failed to write.
    fn keep_mark(&mut self, change: Change) -> Result<(), AllocError>
        requires time { self.old.clock < 2 ^ 64 - 1 }
        requires mark { (seen : Files) → seen_step change seen ≡ seen }
        requires fits { fits change ≡ true }
        ensures ok { OnOk result (Adds change self.old self.new) }
        ensures err { OnErr result (Stays self.old self.new) }
        ensures faults { self.new.fault_count ≡ self.old.fault_count }
        ensures reads { self.new.log_reads ≡ self.old.log_reads }
    {
        let moment = self.clock + 1;
        self.changes.push(DatedChange { moment, change })?;
        self.clock = moment;
        Ok(())
    }

    // A sync.
    fn try_sync(&mut self, file: File) -> Result<(), Failed>
        ensures ok { OnOk result (Adds (Sync file) self.old self.new) }
        ensures err { OnErr result (PassesOver self.old self.new) }
        ensures faults { HasCause self.old.fault_count self.new.fault_count result }
        ensures reads { self.new.log_reads ≡ self.old.log_reads }
        ensures time { OnOk result (self.old.clock < 2 ^ 64 - 1) }
    {
        if self.is_to_fail() {
            return Err(self.fail());
        }
        match self.keep_mark(Change::Sync(file)) {
            Ok(()) => Ok(()),
            Err(_) => Err(self.fail()),
        }
    }

    // A write that is to fail. Where there is memory to keep it, the range may hold any bytes after a crash.
    fn break_write(&mut self, file: File, offset: u64, len: u64) -> Failed
        requires { CanWrite self.old.clock offset len }
        ensures broken { PassesOver self.old self.new ⊎ Adds (Broken file offset len) self.old self.new }
        ensures faults { Rises self.old.fault_count self.new.fault_count }
        ensures reads { self.new.log_reads ≡ self.old.log_reads }
    {
        match self.keep_mark(Change::Broken(file, offset, len)) {
            Ok(()) => {
                self.fault_count = self.fault_count.saturating_add(1);
                Failed
            }
            Err(_) => self.fail(),
        }
    }

    fn try_write(&mut self, file: File, offset: u64, bytes: &[u8]) -> Result<(), Failed>
        ensures ok { OnOk result (Adds (Write file offset bytes.now) self.old self.new) }
        ensures err { OnErr result (PassesOver self.old self.new ⊎ (CanWrite self.old.clock offset (length bytes.now) × Adds (Broken file offset (length bytes.now)) self.old self.new)) }
        ensures faults { HasCause self.old.fault_count self.new.fault_count result }
        ensures reads { self.new.log_reads ≡ self.old.log_reads }
        ensures can { OnOk result (CanWrite self.old.clock offset (length bytes.now)) }
    {
        let len = bytes.len() as u64;
        if self.clock == u64::MAX || len > u64::MAX - offset {
            return Err(self.fail());
        }
        if self.is_to_fail() {
            return Err(self.break_write(file, offset, len));
        }
        match self.keep_write(file, offset, bytes) {
            Ok(()) => Ok(()),
            Err(_) => Err(self.fail()),
        }
    }
}

// What a read gives: how many bytes, and the buffer.
fn copy_out(bytes: &[u8], offset: u64, buf: &mut [u8]) -> usize
    ensures count { result ≡ min (length buf.old) (length bytes.now - offset) }
    ensures bytes { buf.new ≡ take result (drop offset bytes.now) ++ drop result buf.old }
{
    let start = bytes.len().min(offset as usize);
    let count = buf.len().min(bytes.len() - start);
    buf[..count].copy_from_slice(&bytes[start..start + count]);
    count
}

impl Disk for Memory {
    ghost use Rattle.disk_model.specs.Memory.{memory_meaning};
    ghost use Rattle.disk_model.specs.AsRead.{memory_as_read};
    ghost use Rattle.disk_model.specs.Short.{memory_short};

    ghost meaning = { memory_meaning };

    ghost as_read = { λ m _. memory_as_read m };

    ghost in_time = { λ m. m.in_time };

    ghost short = { memory_short };

    fn read(&mut self, file: File, offset: u64, buf: &mut [u8]) -> Result<usize, Failed> {
        if self.is_to_fail() {
            return Err(self.fail());
        }
        let reads = match file {
            File::Data => self.log_reads,
            File::Log => self.log_reads + 1,
        };
        self.pass(reads);
        Ok(copy_out(self.bytes(file), offset, buf))
    }

    fn write_at(&mut self, file: File, offset: u64, bytes: &[u8]) -> Result<(), Failed> {
        self.try_write(file, offset, bytes)
    }

    fn len(&mut self, file: File) -> Result<u64, Failed> {
        if self.is_to_fail() {
            return Err(self.fail());
        }
        let reads = self.log_reads;
        self.pass(reads);
        Ok(self.bytes(file).len() as u64)
    }

    fn sync(&mut self, file: File) -> Result<(), Failed> {
        self.try_sync(file)
    }

    fn moment(&self) -> u64 {
        self.clock
    }

    fn faults(&self) -> u64 {
        self.fault_count
    }
}
