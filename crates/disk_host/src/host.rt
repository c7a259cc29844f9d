// A disk over two named files.
ghost use Rattle.std.specs.Prelude.{◌≡◌, ◌+◌, ◌-◌, ◌^◌, ◌<◌, ◌≤◌, length, min, IsErr, IfOk, OnErr};
ghost use Rattle.seg_words.specs.Types.{Rose, HasCause};
ghost use Rattle.disk_host.specs.Host.{StartsAtZero};

use crate::StoreFile;
use crate::store_files::StoreFiles;
use disk_model::{Disk, File};
use io_cause::Cause;
use seg_base::Failed;
use std::fs::Files;

/// Two named files, for this process alone while it lasts.
///
/// The first call opens and locks those that are there, without waiting, and syncs them and their folder; a missing one
/// has no bytes, and is made by the first call that writes it. Where one can't be opened or locked, and after a sync
/// that failed, each call fails. Each failure counts as a fault, and the first one's cause is kept.
pub struct Host<'a, R: Files> {
    files: StoreFiles<'a, R>,
    clock: u64,
    fault_count: u64,
    first_cause: Option<Cause<'a>>,
    ghost in_time: { clock ≤ 2 ^ 64 - 1 },
}

impl<R: Files> Drop for Host<'_, R> {
    fn drop(self) {
        let Host {
            files: _files,
            clock: _,
            fault_count: _,
            first_cause: _,
        } = self;
    }
}

impl<'a, R: Files> Host<'a, R>
where
    R::File: StoreFile,
{
    /// Calls no file yet.
    pub fn new(rt: &'a R, data_name: &'a str, log_name: &'a str) -> Host<'a, R>
        ensures { StartsAtZero ⟦<Host<'a, R> as Disk>⟧.meaning result }
    {
        Host {
            files: StoreFiles::new(rt, data_name, log_name),
            clock: 0,
            fault_count: 0,
            first_cause: None,
        }
    }

    /// Why the first call that failed did, where one has: its file, the call, and what the system said.
    pub fn cause(&self) -> Option<Cause<'a>> {
        self.first_cause
    }

    // A call has returned.
    fn count<T: Drop>(&mut self, answer: Result<T, Cause<'a>>) -> Result<T, Failed>
        requires { self.old.clock < 2 ^ 64 - 1 }
        ensures time { self.new.clock ≡ self.old.clock + 1 }
        ensures cause { HasCause self.old.fault_count self.new.fault_count result }
    {
        match answer {
            Ok(value) => {
                self.clock += 1;
                Ok(value)
            }
            Err(cause) => {
                self.first_cause = self.first_cause.or(Some(cause));
                Err(self.fail())
            }
        }
    }

    // A call has returned and has failed. At its end the clock stays.
    fn fail(&mut self) -> Failed
        ensures time { self.new.clock ≡ min (self.old.clock + 1) (2 ^ 64 - 1) }
        ensures later { self.old.fault_count ≤ self.new.fault_count }
        ensures rose { Rose self.old.fault_count self.new.fault_count }
    {
        self.clock = self.clock.saturating_add(1);
        self.fault_count = self.fault_count.saturating_add(1);
        Failed
    }
}

impl<R: Files> Disk for Host<'_, R>
where
    R::File: StoreFile,
{
    ghost use Rattle.disk_host.specs.Host.{untold};

    ghost meaning = { untold (λ h. h.clock) (λ h. h.fault_count) };

    ghost as_read = { λ h told. absurd told };

    ghost in_time = { λ h. h.in_time };

    ghost short = { λ h moment image is. absurd is };

    fn read(&mut self, file: File, offset: u64, buf: &mut [u8]) -> Result<usize, Failed> {
        if self.clock == u64::MAX {
            return Err(self.fail());
        }
        let count = self.files.read(file, offset, buf);
        self.count(count)
    }

    fn write_at(&mut self, file: File, offset: u64, bytes: &[u8]) -> Result<(), Failed> {
        if self.clock == u64::MAX || bytes.len() as u64 > u64::MAX - offset {
            return Err(self.fail());
        }
        let done = self.files.write_at(file, offset, bytes);
        self.count(done)
    }

    fn len(&mut self, file: File) -> Result<u64, Failed> {
        if self.clock == u64::MAX {
            return Err(self.fail());
        }
        let len = self.files.len(file);
        self.count(len)
    }

    fn sync(&mut self, file: File) -> Result<(), Failed> {
        if self.clock == u64::MAX {
            return Err(self.fail());
        }
        let done = self.files.sync(file);
        self.count(done)
    }

    fn moment(&self) -> u64 {
        self.clock
    }

    fn faults(&self) -> u64 {
        self.fault_count
    }
}
