// Writes that are on the disk when they return.
ghost use Rattle.std.specs.Prelude.{◌≡◌, ◌+◌, ◌++◌, ◌↔◌, ℕ, List, length, IfSome, OnOk, IsErr};
ghost use Rattle.disk_model.specs.Files.{Files, content, put, written, Torn};
ghost use Rattle.disk_model.specs.Crash.{Leaves, Causes};
ghost use Rattle.disk_model.specs.Only.{OnlyFile, IsSettled, IsPut};

use crate::{Disk, File};
use arrayvec::ArrayVec;
use seg_base::Failed;

/// Writes, and then syncs the file.
pub fn write_and_sync<D: Disk>(
    disk: &mut D,
    file: File,
    offset: u64,
    bytes: &[u8],
) -> Result<(), Failed>
    ensures any_moment { IsSettled D.meaning disk.old file → Leaves D.meaning disk.old disk.new
        (OnlyFile D.meaning disk.old file (Torn offset (length bytes.now) (content file (D.meaning.files disk.old)))) }
    ensures put { IsSettled D.meaning disk.old file → OnOk result (IsPut D.meaning disk.old disk.new file
        (written (content file (D.meaning.files disk.old)) offset bytes.now)) }
    ensures cause { Causes D.meaning disk.old disk.new (IsErr result) }
    ensures told { D.meaning.told disk.new ↔ D.meaning.told disk.old }
    ensures reads { D.meaning.log_reads disk.new ≡ D.meaning.log_reads disk.old }
{
    disk.write_at(file, offset, bytes)?;
    disk.sync(file)
}

// The most bytes that are joined for one write.
const SMALL: usize = 4096;

// The three pieces in one, where that is small.
fn join(front: &[u8], body: &[u8], back: &[u8]) -> Option<ArrayVec<u8, SMALL>>
    ensures { IfSome result (λ all. all.items ≡ front.now ++ body.now ++ back.now) }
{
    let mut all = ArrayVec::new();
    all.try_extend_from_slice(front).ok()?;
    all.try_extend_from_slice(body).ok()?;
    all.try_extend_from_slice(back).ok()?;
    Some(all)
}

// Writes three pieces in a row, and then syncs the file. It is as one write of all three.
fn write_pieces_and_sync<D: Disk>(
    disk: &mut D,
    file: File,
    offset: u64,
    front: &[u8],
    body: &[u8],
    back: &[u8],
) -> Result<(), Failed>
    ensures any_moment { IsSettled D.meaning disk.old file → Leaves D.meaning disk.old disk.new
        (OnlyFile D.meaning disk.old file (Torn offset (length front.now + length body.now + length back.now) (content file (D.meaning.files disk.old)))) }
    ensures put { IsSettled D.meaning disk.old file → OnOk result (IsPut D.meaning disk.old disk.new file
        (written (content file (D.meaning.files disk.old)) offset (front.now ++ body.now ++ back.now))) }
    ensures cause { Causes D.meaning disk.old disk.new (IsErr result) }
    ensures told { D.meaning.told disk.new ↔ D.meaning.told disk.old }
    ensures reads { D.meaning.log_reads disk.new ≡ D.meaning.log_reads disk.old }
{
    disk.write_at(file, offset, front)?;
    let body_at = offset.saturating_add(front.len() as u64);
    disk.write_at(file, body_at, body)?;
    let back_at = body_at.saturating_add(body.len() as u64);
    disk.write_at(file, back_at, back)?;
    disk.sync(file)
}

/// Writes three pieces in a row, in one call where they are small, and then syncs the file. It is as one write of all
/// three.
pub fn write_framed_and_sync<D: Disk>(
    disk: &mut D,
    file: File,
    offset: u64,
    front: &[u8],
    body: &[u8],
    back: &[u8],
) -> Result<(), Failed>
    ensures any_moment { IsSettled D.meaning disk.old file → Leaves D.meaning disk.old disk.new
        (OnlyFile D.meaning disk.old file (Torn offset (length front.now + length body.now + length back.now) (content file (D.meaning.files disk.old)))) }
    ensures put { IsSettled D.meaning disk.old file → OnOk result (IsPut D.meaning disk.old disk.new file
        (written (content file (D.meaning.files disk.old)) offset (front.now ++ body.now ++ back.now))) }
    ensures cause { Causes D.meaning disk.old disk.new (IsErr result) }
    ensures told { D.meaning.told disk.new ↔ D.meaning.told disk.old }
    ensures reads { D.meaning.log_reads disk.new ≡ D.meaning.log_reads disk.old }
{
    match join(front, body, back) {
        Some(all) => write_and_sync(disk, file, offset, all.as_slice()),
        None => write_pieces_and_sync(disk, file, offset, front, body, back),
    }
}
