// The two files of a store as they are opened.
ghost use Rattle.std.specs.Prelude.{◌≡◌, ◌+◌, ◌++◌, ℕ, List, length, IsErrOf};
ghost use Rattle.seg_words.specs.Types.{Shape};
ghost use Rattle.disk_model.specs.Types.{Causes, Untouched, IsSettled};
ghost use Rattle.disk_model.specs.declared.disk.File.TheVariants.{Log};
ghost use Rattle.log_frame.specs.Types.{frames, IsLog, IsReady};
ghost use Rattle.store_files.specs.Store.{data_size, IsStore, IsShapeFound, IsLogOpened, Answers};

use crate::OpenFault;
use disk_model::{Disk, File};
use log_frame::{LogFile, open, read_shape};
use seg_base::{BLOCK_SIZE, FIRST_GATE, Shape};

/// Reads the head of the log and tests it, and then that the data file has its blocks. `NotFormatted` comes exactly
/// where the log isn't formatted, `BadFile` for the log as `BadFrame` for its head, and for the data file with its length
/// where it is shorter than its blocks.
#[tactic(auto, using(disk_model::proofs::Going::untouched_then, disk_model::proofs::Going::untouched_call, crate::proofs::Faults::head_refused, crate::proofs::Faults::refused_answers, crate::proofs::Faults::not_made))]
pub fn read_head<D: Disk>(disk: &mut D) -> Result<Shape, OpenFault>
    ensures found { D.meaning.told disk.old → IsShapeFound (D.meaning.files disk.old) result }
    ensures whole { (shape : Shape) (groups : List (List ℕ)) → D.meaning.told disk.old → IsStore shape groups (D.meaning.files disk.old)
        → Answers result (λ answer. answer ≡ shape) }
    ensures only { IsErrOf result OpenFault.AlreadyFormatted → ⊥ }
    ensures cause { Causes D.meaning disk.old disk.new (IsErrOf result OpenFault.DeviceFault) }
    ensures untouched { Untouched D.meaning disk.old disk.new }
{
    let shape = read_shape(disk)?;
    let Ok(len) = disk.len(File::Data) else {
        return Err(OpenFault::DeviceFault);
    };
    if len < u64::from(shape.blocks) * BLOCK_SIZE as u64 {
        return Err(OpenFault::BadFile {
            file: File::Data,
            offset: len,
            seen: 0,
        });
    }
    Ok(shape)
}

/// Opens the log from a gate on.
#[tactic(auto, using(crate::proofs::Faults::log_refused, crate::proofs::Faults::refused_answers, crate::proofs::Faults::not_made))]
pub fn open_log<D: Disk>(disk: &mut D, from: u64) -> Result<LogFile, OpenFault>
    ensures found { D.meaning.told disk.old → IsLogOpened (D.meaning.files disk.old) from result }
    ensures whole { (shape : Shape) (before after : List (List ℕ)) → IsSettled D.meaning disk.old Log
        → IsStore shape (before ++ after) (D.meaning.files disk.old) → from ≡ FIRST_GATE + length (frames before)
        → Answers result (λ end. IsReady D.meaning disk.new shape (before ++ after) end) }
    ensures only { IsErrOf result OpenFault.AlreadyFormatted → ⊥ }
    ensures cause { Causes D.meaning disk.old disk.new (IsErrOf result OpenFault.DeviceFault) }
    ensures untouched { Untouched D.meaning disk.old disk.new }
{
    Ok(open(disk, from)?)
}
