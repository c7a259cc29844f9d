// What can be wrong with a data file.
ghost use Rattle.std.specs.Prelude.{◌≡◌};
ghost use Rattle.page_store.specs.declared.fault.PageFault.TheVariants.{DeviceFault};

use seg_base::{Dba, Failed};
use thiserror::Error;

/// A refusal of the data file. `BadPage` names the block that isn't there whole, or block 4 where the double-write area
/// is damaged.
#[derive(Clone, Copy, Debug, PartialEq, Eq, Error)]
pub enum PageFault {
    #[error("the disk has failed")]
    DeviceFault,
    #[error("block {} is no page", dba.0)]
    BadPage { dba: Dba },
    #[error("no memory")]
    NoMemory,
}

impl From<Failed> for PageFault {
    ghost from_gives = { λ _ e. e ≡ DeviceFault };

    fn from(_: Failed) -> PageFault {
        PageFault::DeviceFault
    }
}
