// What an event of a statement leads to.
ghost use Rattle.std.specs.Prelude.{◌≡◌};

use crate::session::Doing;
use history_model::Kept;
use history_text::{Outcome, Refusal};
use seg_base::TxnId;

/// The statement goes on, or it is over.
#[derive(Drop)]
pub enum Turned {
    On(Doing),
    Over { outcome: Outcome, kept: Kept },
}

/// What an event did that didn't fail, and the session's transaction afterwards.
#[derive(Drop)]
pub struct Acted {
    pub turned: Turned,
    pub own: Option<TxnId>,
}

/// The statement is over, and keeps nothing beside its outcome.
pub fn over(outcome: Outcome, own: Option<TxnId>) -> Acted
    ensures { result ≡ record { turned = Turned.Over outcome Kept.Nothing; own = own } }
{
    Acted {
        turned: Turned::Over {
            outcome,
            kept: Kept::Nothing,
        },
        own,
    }
}

pub fn refused(refusal: Refusal, own: Option<TxnId>) -> Acted
    ensures { result ≡ record { turned = Turned.Over (Outcome.Refused refusal) Kept.Nothing; own = own } }
{
    over(Outcome::Refused(refusal), own)
}
