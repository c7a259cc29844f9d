// What can be wrong with a store's files.
ghost use Rattle.std.specs.Prelude.{◌≡◌};
ghost use Rattle.store_files.specs.Store.{fault_of};

use disk_model::File;
use log_frame::FrameFault;
use thiserror::Error;

/// A refusal to make or to open a store. `BadFile` says the first wrong byte's place and the byte that was seen there,
/// 0 where the file ends before it.
#[derive(Clone, Copy, Debug, PartialEq, Eq, Error)]
pub enum OpenFault {
    #[error("the disk has failed")]
    DeviceFault,
    #[error("the files are not formatted")]
    NotFormatted,
    #[error("no store: byte {offset} of the {file:?} file is {seen}")]
    BadFile { file: File, offset: u64, seen: u8 },
    #[error("the files are formatted already")]
    AlreadyFormatted,
    #[error("no memory")]
    NoMemory,
}

impl From<FrameFault> for OpenFault {
    ghost from_gives = { λ frame fault. fault ≡ fault_of frame };

    fn from(fault: FrameFault) -> OpenFault {
        match fault {
            FrameFault::DeviceFault => OpenFault::DeviceFault,
            FrameFault::NotOpen => OpenFault::NotFormatted,
            FrameFault::BadFrame { offset, seen } => OpenFault::BadFile {
                file: File::Log,
                offset,
                seen,
            },
            FrameFault::NoMemory => OpenFault::NoMemory,
        }
    }
}
