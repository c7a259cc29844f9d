// Why a run stopped before its end.
ghost use Rattle.std.specs.Prelude.{◌≡◌};
ghost use Rattle.session_world.specs.declared.fault.RunFault.TheVariants as stops;
ghost use Rattle.store_core.specs.declared.fault.StoreFault.TheVariants as faults;

use seg_base::NoMemory;
use store_core::StoreFault;
use thiserror::Error;

/// The store's fault, or the sink's: a line wasn't taken whole.
#[derive(Clone, Copy, Debug, PartialEq, Eq, Error)]
pub enum RunFault {
    #[error(transparent)]
    Store(StoreFault),
    #[error("the sink has failed")]
    WriteFault,
}

impl From<NoMemory> for RunFault {
    ghost from_gives = { λ _ e. e ≡ stops.Store faults.NoMemory };

    fn from(_: NoMemory) -> RunFault {
        RunFault::Store(StoreFault::NoMemory)
    }
}
