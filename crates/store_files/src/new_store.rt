// Both files of a new store. The head's gate is opened last.
ghost use Rattle.std.specs.Prelude.{◌≡◌, ◌↔◌, ◌+◌, ◌-◌, ◌^◌, ◌<◌, ◌≤◌, ℕ, length, replicate, OnOk, IfErr, IsErr, IsErrOf, false, true};
ghost use Rattle.disk_model.specs.Types.{Files, content, written, Torn, Leaves, Causes, Untouched, OnlyFile, IsSettled, IsPut};
ghost use Rattle.disk_model.specs.declared.disk.File.TheVariants.{Data, Log};
ghost use Rattle.seg_words.specs.Types.{is_shape};
ghost use Rattle.log_frame.specs.Types.{is_formatted};
ghost use Rattle.store_files.specs.Store.{FormatAnswers, IsDurable, IsEmptyStore, IsFormatFault, NoneOrEmpty};

use crate::OpenFault;
use disk_model::{Disk, File};
use log_frame::{FrameFault, make_head, read_shape};
use seg_base::{BLOCK_SIZE, Failed, Shape};

// How many bytes are written at once.
const PIECE: u64 = 65_536;

// Writes zeros from the start of the data file on, in pieces, and syncs it.
fn write_zeros<D: Disk>(disk: &mut D, total: u64) -> Result<(), Failed>
    ensures any_moment { IsSettled D.meaning disk.old Data → Leaves D.meaning disk.old disk.new
        (OnlyFile D.meaning disk.old Data (Torn 0 total (D.meaning.files disk.old).data_bytes)) }
    ensures put { IsSettled D.meaning disk.old Data → OnOk result (IsPut D.meaning disk.old disk.new Data
        (written (D.meaning.files disk.old).data_bytes 0 (replicate total 0))) }
    ensures cause { Causes D.meaning disk.old disk.new (IsErr result) }
    ensures told { D.meaning.told disk.new ↔ D.meaning.told disk.old }
    ensures reads { D.meaning.log_reads disk.new ≡ D.meaning.log_reads disk.old }
{
    let zeros = [0u8; PIECE as usize];
    let mut done = 0;
    'pieces: while done < total {
        let size = PIECE.min(total - done);
        disk.write_at(File::Data, done, &zeros[..size as usize])?;
        done += size;
    }
    disk.sync(File::Data)
}

// Refuses a log that is formatted.
fn expect_unformatted<D: Disk>(disk: &mut D) -> Result<(), OpenFault>
    ensures answer { D.meaning.told disk.old → FormatAnswers (D.meaning.files disk.old).log_bytes result }
    ensures only { IfErr result (λ e. IsFormatFault e) }
    ensures cause { Causes D.meaning disk.old disk.new (IsErrOf result OpenFault.DeviceFault) }
    ensures untouched { Untouched D.meaning disk.old disk.new }
{
    match read_shape(disk) {
        Err(FrameFault::NotOpen) => Ok(()),
        Err(FrameFault::DeviceFault) => Err(OpenFault::DeviceFault),
        Err(FrameFault::BadFrame { .. }) => Err(OpenFault::AlreadyFormatted),
        Ok(_) => Err(OpenFault::AlreadyFormatted),
        Err(FrameFault::NoMemory) => Err(OpenFault::NoMemory),
    }
}

// Writes both files of an empty store.
fn write_store<D: Disk>(disk: &mut D, shape: &Shape) -> Result<(), OpenFault>
    requires { is_shape shape.now ≡ true }
    ensures any_moment { IsDurable D.meaning disk.old → is_formatted (D.meaning.files disk.old).log_bytes ≡ false
        → Leaves D.meaning disk.old disk.new (NoneOrEmpty shape.now) }
    ensures made { IsDurable D.meaning disk.old → is_formatted (D.meaning.files disk.old).log_bytes ≡ false
        → OnOk result (IsDurable D.meaning disk.new × IsEmptyStore shape.now (D.meaning.files disk.new)) }
    ensures cause { Causes D.meaning disk.old disk.new (IsErr result) }
    ensures only { IfErr result (λ e. e ≡ OpenFault.DeviceFault) }
    ensures told { D.meaning.told disk.new ↔ D.meaning.told disk.old }
{
    let total = u64::from(shape.blocks) * BLOCK_SIZE as u64;
    let Ok(()) = write_zeros(disk, total) else {
        return Err(OpenFault::DeviceFault);
    };
    let Ok(()) = make_head(disk, shape) else {
        return Err(OpenFault::DeviceFault);
    };
    Ok(())
}

/// Makes both files of an empty store: the data file's zeros first, the log's head last, and its gate after that. At any
/// moment of the call a crash leaves a log that isn't formatted, on which this can be called again, or the whole store.
/// A formatted log is refused, and nothing is written.
pub fn format<D: Disk>(disk: &mut D, shape: Shape) -> Result<(), OpenFault>
    requires { is_shape shape ≡ true }
    ensures answer { D.meaning.told disk.old → FormatAnswers (D.meaning.files disk.old).log_bytes result }
    ensures any_moment { IsDurable D.meaning disk.old → is_formatted (D.meaning.files disk.old).log_bytes ≡ false
        → Leaves D.meaning disk.old disk.new (NoneOrEmpty shape) }
    ensures made { IsDurable D.meaning disk.old → OnOk result (IsDurable D.meaning disk.new × IsEmptyStore shape (D.meaning.files disk.new)) }
    ensures only { IfErr result (λ e. IsFormatFault e) }
    ensures refused { IsErrOf result OpenFault.AlreadyFormatted → Untouched D.meaning disk.old disk.new }
    ensures kept { D.meaning.told disk.old → is_formatted (D.meaning.files disk.old).log_bytes ≡ true → Untouched D.meaning disk.old disk.new }
    ensures cause { Causes D.meaning disk.old disk.new (IsErrOf result OpenFault.DeviceFault) }
    ensures told { D.meaning.told disk.new ↔ D.meaning.told disk.old }
{
    match expect_unformatted(disk) {
        Ok(()) => write_store(disk, &shape),
        Err(fault) => Err(fault),
    }
}
