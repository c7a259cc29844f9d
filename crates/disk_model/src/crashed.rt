// Files in memory after a crash.
ghost use Rattle.std.specs.Prelude.{◌≡◌, ◌≤◌, [], OnOk, IfOk, filter, length, replicate};
ghost use Rattle.disk_model.specs.Files.{Files, content, put, written};
ghost use Rattle.disk_model.specs.History.{both, seen_step, is_by};
ghost use Rattle.disk_model.specs.Contents.{files_of};
ghost use Rattle.disk_model.specs.Picked.{torn_bytes, pick_step, picked};

use crate::File;
use crate::memory::{Change, DatedChange, Memory, Tear, overwrite};
use seg_base::NoMemory;
use std::alloc::{AllocError, Global};

/// The bytes of both files.
#[derive(Drop)]
pub struct Contents {
    pub data_bytes: Vec<u8>,
    pub log_bytes: Vec<u8>,
}

impl Contents {
    pub fn content(&self, file: File) -> &[u8]
        ensures { result.now ≡ content file (files_of self.now) }
    {
        match file {
            File::Data => &self.data_bytes,
            File::Log => &self.log_bytes,
        }
    }

    pub fn set(&mut self, file: File, bytes: Vec<u8>)
        ensures { files_of self.new ≡ put file bytes.items (files_of self.old) }
    {
        match file {
            File::Data => self.data_bytes = bytes,
            File::Log => self.log_bytes = bytes,
        }
    }

    fn write(&mut self, file: File, offset: u64, bytes: &[u8]) -> Result<(), AllocError>
        ensures { OnOk result (files_of self.new ≡ put file (written (content file (files_of self.old)) offset bytes.now) (files_of self.old)) }
    {
        match file {
            File::Data => overwrite(&mut self.data_bytes, offset, bytes),
            File::Log => overwrite(&mut self.log_bytes, offset, bytes),
        }
    }

    // What is there after a write and a crash.
    fn tear(
        &mut self,
        alloc: Global,
        tear: Tear,
        file: File,
        offset: u64,
        bytes: &[u8],
    ) -> Result<(), AllocError>
        ensures { OnOk result (files_of self.new ≡ put file (torn_bytes tear (content file (files_of self.old)) offset bytes.now) (files_of self.old)) }
    {
        match tear {
            Tear::Old => Ok(()),
            Tear::New => self.write(file, offset, bytes),
            Tear::Zero => {
                let zeros = vec![in alloc; 0u8; bytes.len()]?;
                self.write(file, offset, &zeros)
            }
        }
    }
}

// One change more, as it is read and as a crash leaves it.
fn step(
    alloc: Global,
    tear: Tear,
    change: &Change,
    seen: &mut Contents,
    image: &mut Contents,
) -> Result<(), AllocError>
    ensures seen { OnOk result (files_of seen.new ≡ seen_step change.now (files_of seen.old)) }
    ensures image { OnOk result (files_of image.new ≡ pick_step tear change.now (files_of seen.old) (files_of image.old)) }
{
    match change {
        Change::Write(file, offset, bytes) => {
            image.tear(alloc, tear, *file, *offset, bytes.as_slice())?;
            seen.write(*file, *offset, bytes.as_slice())
        }
        Change::Broken(..) => Ok(()),
        Change::Sync(file) => {
            image.set(*file, seen.content(*file).to_vec(alloc)?);
            Ok(())
        }
    }
}

fn replay(
    alloc: Global,
    moment: u64,
    tear: Tear,
    changes: &[DatedChange],
    seen: &mut Contents,
    image: &mut Contents,
) -> Result<(), AllocError>
    ensures { OnOk result (files_of image.new ≡ picked tear (files_of seen.old) (files_of image.old) (filter (is_by moment) changes.now)) }
{
    for dated in changes {
        if dated.moment <= moment {
            step(alloc, tear, &dated.change, seen, image)?;
        }
    }
    Ok(())
}

impl Memory {
    ghost use Rattle.disk_model.specs.Memory.{memory_files, memory_crash_at, IsNew, IsDurable};
    ghost use Rattle.disk_model.specs.Picked.{picked_files};

    // A new disk with the image that is picked.
    fn picked_copy(&self, moment: u64, tear: Tear) -> Result<Memory, NoMemory>
        ensures new { IfOk result (IsNew (picked_files tear moment self.now) []) }
        ensures durable { IfOk result IsDurable }
    {
        let alloc = self.alloc;
        let mut seen = Contents {
            data_bytes: self.first_data.to_vec(alloc)?,
            log_bytes: self.first_log.to_vec(alloc)?,
        };
        let mut image = Contents {
            data_bytes: self.first_data.to_vec(alloc)?,
            log_bytes: self.first_log.to_vec(alloc)?,
        };
        replay(alloc, moment, tear, &self.changes, &mut seen, &mut image)?;
        Memory::new(alloc, &image.data_bytes, &image.log_bytes, &[])
    }

    /// A new disk with one image of a crash at that moment: the one in which each range that wasn't synced by then
    /// holds its old bytes, its new ones or zeros.
    pub fn crashed(&self, moment: u64, tear: Tear) -> Result<Memory, NoMemory>
        requires { moment ≤ self.now.clock }
        ensures image { IfOk result (λ m. memory_crash_at self.now moment (memory_files m)) }
        ensures new { IfOk result (IsNew (picked_files tear moment self.now) []) }
        // Of the new disk a crash leaves what a read gives.
        ensures durable { IfOk result IsDurable }
    {
        self.picked_copy(moment, tear)
    }
}
