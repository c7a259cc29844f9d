// Which session shrinks a table.
ghost use Rattle.std.specs.Prelude.{◌≡◌};
ghost use Rattle.session_core.specs.Shrinkers.{shrinker_of};

use crate::session::OpenShrink;
use seg_base::Obj;

/// The session of the first of these shrinks that is of this table.
pub fn shrinker_of(shrinks: &[OpenShrink], obj: Obj) -> Option<u8>
    ensures { result ≡ shrinker_of shrinks.now obj }
{
    match shrinks {
        [] => None,
        [shrink, rest @ ..] => {
            if shrink.obj.0 == obj.0 {
                return Some(shrink.who);
            }
            shrinker_of(rest, obj)
        }
    }
}
