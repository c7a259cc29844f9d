// A session between its events.
ghost use Rattle.std.specs.Prelude.{◌≡◌};
ghost use Rattle.session_step.specs.Turning.{shrunk_in};

use seg_base::{Lsn, Obj, TxnId};
use session_core::Doing;

/// A session: how many of its statements have their entry, with how many records the one under way began, what it is at, and
/// its active transaction.
#[derive(Drop)]
pub struct Session {
    pub told: usize,
    pub begins: Lsn,
    pub doing: Doing,
    pub own: Option<TxnId>,
}

impl Session {
    /// The table that it shrinks.
    pub fn shrinks(&self) -> Option<Obj>
        ensures { result ≡ shrunk_in self.now.doing }
    {
        match &self.doing {
            Doing::Shrinking(work) => Some(work.shrink.obj),
            Doing::Lowering(work) => Some(work.obj),
            _ => None,
        }
    }
}

/// Whether an event was made.
#[derive(Clone, Copy, Debug, PartialEq, Eq, Drop)]
pub enum Turn {
    Made,
    /// The session has ended and owes nothing, and nothing was done.
    Ended,
}
