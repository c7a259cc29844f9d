// Where a row stands.
ghost use Rattle.std.specs.Prelude.{◌≡◌};
ghost use Rattle.change_laws.specs.Types.{stand_of};
ghost use Rattle.row_change.specs.Standing.{told_stand};

use crate::looking::Front;
use seg_base::{Kind, Rowid};

/// Whole in one slot, or with its head in one and its body in another.
#[derive(Clone, Copy, Drop)]
pub enum Stand {
    Whole(Rowid),
    Apart(Rowid, Rowid),
}

/// Where the row stands whose newest image this is.
pub fn stand_of(front: &Front, at: &Rowid) -> Stand
    ensures { told_stand result ≡ stand_of front.now.kind front.now.link at.now }
{
    match front.kind {
        Kind::Empty | Kind::Row | Kind::Head => Stand::Whole(*at),
        Kind::Body => match front.link {
            None => Stand::Whole(*at),
            Some(head) => Stand::Apart(head, *at),
        },
    }
}
