// A disk that passes so many writes and then fails every call.
ghost use Rattle.std.specs.Prelude.{◌≡◌, ◌+◌, ◌-◌, ◌^◌, ◌≤◌, ◌<◌, min};

use crate::{Disk, File};
use seg_base::Failed;

/// A disk that passes so many writes to the one inside, and then fails every call.
#[derive(Drop)]
pub struct Stopping<D> {
    disk: D,
    left: u64,
    // Calls that were failed here, and faults that were counted here.
    extra: u64,
    fault_count: u64,
    ghost passing: { 0 < left → extra ≡ 0 },
}

impl<D: Disk> Stopping<D> {
    ghost use Rattle.disk_model.specs.Stopping.{inside, IsPassing, StopsHere};

    pub fn new(disk: D, writes: u64) -> Stopping<D>
        ensures { IsPassing disk writes result }
    {
        Stopping {
            disk,
            left: writes,
            extra: 0,
            fault_count: 0,
        }
    }

    pub fn into_disk(self) -> D
        ensures { result ≡ inside self }
    {
        let Stopping {
            disk,
            left: _,
            extra: _,
            fault_count: _,
        } = self;
        disk
    }

    fn fail(&mut self) -> Failed
        requires { self.old.left ≡ 0 }
        ensures { StopsHere self.old self.new }
    {
        self.extra = self.extra.saturating_add(1);
        self.fault_count = self.fault_count.saturating_add(1);
        Failed
    }
}

impl<D: Disk> Disk for Stopping<D> {
    ghost use Rattle.disk_model.specs.Stopping.{stopping_meaning, stopping_as_read, stopping_in_time};

    ghost meaning = { stopping_meaning D.meaning };

    ghost as_read = { λ s told. stopping_as_read D.meaning D.in_time D.as_read s told };

    ghost in_time = { stopping_in_time D.meaning };

    ghost short = { λ s moment image is. D.short s.disk (min moment (D.meaning.clock s.disk)) image is };

    fn read(&mut self, file: File, offset: u64, buf: &mut [u8]) -> Result<usize, Failed> {
        if self.left == 0 {
            return Err(self.fail());
        }
        self.disk.read(file, offset, buf)
    }

    fn write_at(&mut self, file: File, offset: u64, bytes: &[u8]) -> Result<(), Failed> {
        if self.left == 0 {
            return Err(self.fail());
        }
        self.left -= 1;
        self.disk.write_at(file, offset, bytes)
    }

    fn len(&mut self, file: File) -> Result<u64, Failed> {
        if self.left == 0 {
            return Err(self.fail());
        }
        self.disk.len(file)
    }

    fn sync(&mut self, file: File) -> Result<(), Failed> {
        if self.left == 0 {
            return Err(self.fail());
        }
        self.disk.sync(file)
    }

    fn moment(&self) -> u64 {
        self.disk.moment().saturating_add(self.extra)
    }

    fn faults(&self) -> u64 {
        self.disk.faults().saturating_add(self.fault_count)
    }
}
