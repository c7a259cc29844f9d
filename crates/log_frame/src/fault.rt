// What can be wrong with a log.
use seg_base::{Failed, NoMemory};
use std::alloc::AllocError;
use thiserror::Error;

/// A refusal of a log. `BadFrame` says the first wrong byte's place and the byte that was seen there, 0 where the log
/// ends before it.
#[derive(Clone, Copy, Debug, PartialEq, Eq, Error)]
pub enum FrameFault {
    #[error("the disk has failed")]
    DeviceFault,
    #[error("the log isn't formatted")]
    NotOpen,
    #[error("no log: byte {offset} is {seen}")]
    BadFrame { offset: u64, seen: u8 },
    #[error("no memory")]
    NoMemory,
}

/// A byte that isn't the one that should stand there.
#[derive(Clone, Copy, Debug, PartialEq, Eq)]
pub struct WrongByte {
    pub offset: u64,
    pub seen: u8,
}

impl From<Failed> for FrameFault {
    ghost use Rattle.std.specs.Prelude.{◌≡◌};
    ghost use Rattle.log_frame.specs.declared.fault.FrameFault.TheVariants.{DeviceFault};

    ghost from_gives = { λ _ e. e ≡ DeviceFault };

    fn from(_: Failed) -> FrameFault {
        FrameFault::DeviceFault
    }
}

impl From<NoMemory> for FrameFault {
    ghost use Rattle.std.specs.Prelude.{◌≡◌};
    ghost use Rattle.log_frame.specs.declared.fault.FrameFault.TheVariants as of;

    ghost from_gives = { λ _ e. e ≡ of.NoMemory };

    fn from(_: NoMemory) -> FrameFault {
        FrameFault::NoMemory
    }
}

impl From<AllocError> for FrameFault {
    ghost use Rattle.std.specs.Prelude.{◌≡◌};
    ghost use Rattle.log_frame.specs.declared.fault.FrameFault.TheVariants as of;

    ghost from_gives = { λ _ e. e ≡ of.NoMemory };

    fn from(_: AllocError) -> FrameFault {
        FrameFault::NoMemory
    }
}
