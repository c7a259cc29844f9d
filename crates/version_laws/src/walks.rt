// Where a walk down a slot ends, and how far it goes.
ghost use Rattle.version_laws.specs.Ends.{ChainsEnd, NowIsFound};
ghost use Rattle.version_laws.specs.Walks.{NowIsReached, WalksEnd};

/// A walk down a slot ends at the image that a reader sees, at a part that the reader needs and that was reused, or at an
/// image that is reached and names a forgotten transaction while the control number is above the reader's.
pub fn chains_end()
    ensures { ChainsEnd }
{}

/// At all commits a walk for an active transaction, or for none, always ends at the image that it sees.
pub fn now_is_found()
    ensures { NowIsFound }
{}

/// The parts of undo that the images of a slot name are in the ring. Those in the present use of one undo block stand at
/// places that fall, below 63; so there are at most 63 for each block of the ring.
pub fn walks_end()
    ensures { WalksEnd }
{}

/// No undo that is needed at all commits was used again, for an active transaction or for none.
pub fn now_is_reached()
    ensures { NowIsReached }
{}
