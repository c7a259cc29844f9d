// What can be wrong with a redo log.
ghost use Rattle.std.specs.Prelude.{◌≡◌};
ghost use Rattle.redo_log.specs.Faults.{fault_of};

use log_frame::FrameFault;
use seg_base::NoMemory as OutOfMemory;
use thiserror::Error;

/// A refusal of a redo log. `BadLog` says the place of the first byte that is wrong, or of the first record that isn't
/// one, and the byte that was seen there, 0 where the log ends before it.
#[derive(Clone, Copy, Debug, PartialEq, Eq, Error)]
pub enum LogFault {
    #[error("the disk has failed")]
    DeviceFault,
    #[error("the log isn't formatted")]
    NotOpen,
    #[error("no log: byte {offset} is {seen}")]
    BadLog { offset: u64, seen: u8 },
    #[error("no memory")]
    NoMemory,
}

/// The fault of a frame as one of the redo log.
pub(crate) fn of_frame(fault: FrameFault) -> LogFault
    ensures same { result ≡ fault_of fault }
    ensures device { result ≡ LogFault.DeviceFault → fault ≡ FrameFault.DeviceFault }
{
    match fault {
        FrameFault::DeviceFault => LogFault::DeviceFault,
        FrameFault::NotOpen => LogFault::NotOpen,
        FrameFault::BadFrame { offset, seen } => LogFault::BadLog { offset, seen },
        FrameFault::NoMemory => LogFault::NoMemory,
    }
}

impl From<FrameFault> for LogFault {
    ghost use Rattle.std.specs.Prelude.{◌≡◌};
    ghost use Rattle.redo_log.specs.Faults.{fault_of};

    ghost from_gives = { λ f e. e ≡ fault_of f };

    fn from(fault: FrameFault) -> LogFault {
        of_frame(fault)
    }
}

impl From<OutOfMemory> for LogFault {
    ghost use Rattle.std.specs.Prelude.{◌≡◌};
    ghost use Rattle.redo_log.specs.declared.fault.LogFault.TheVariants as of;

    ghost from_gives = { λ _ e. e ≡ of.NoMemory };

    fn from(_: OutOfMemory) -> LogFault {
        LogFault::NoMemory
    }
}
