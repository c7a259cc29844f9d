//! What a pool of frames may count on where the records are those of an allowed list: how many blocks a record touches, how
//! far its pages have come, and that they can be written and read again. Each is the contract of a function that does nothing.
#![tactic(auto)]

ghost use Rattle.frame_laws.specs.Showing.{FramesComeSoFar, PagesComeSoFar, PagesReadBack};
ghost use Rattle.frame_laws.specs.Touching.{PairsTouchFew, RecordsTouchFew};

/// An allowed record touches at most six blocks: 6 a Lower, 5 an Extend and a change of a row, 4 a FormatBlock, a Back and a
/// Move, 3 a Class, 2 a Table and a Reuse, 1 each other. The frames that a pool has beside its dirty ones are enough for them.
pub fn records_touch_few()
    ensures { RecordsTouchFew }
{}

/// An allowed record and the one after it touch at most 12 blocks, those of each counted, and at most 7 where the first calls for
/// the second: 2 and 5. The frames that a pool has beside its dirty ones are enough for them.
pub fn pairs_touch_few()
    ensures { PairsTouchFew }
{}

/// The page of a block has an LSN of at most the number of records, whatever the list.
pub fn pages_come_so_far()
    ensures { PagesComeSoFar }
{}

/// No page in a frame of a pool that shows the pages after some records was changed by a later one.
pub fn frames_come_so_far()
    ensures { FramesComeSoFar }
{}

/// After fewer than 2 to the 64th less 1 records, all allowed, the page of each block has a spelling and the block's own number:
/// so what a batch writes of it reads as the page again.
pub fn pages_read_back()
    ensures { PagesReadBack }
{}
