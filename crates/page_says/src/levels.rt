// What the pages of the three levels of bitmaps say.
ghost use Rattle.page_says.specs.Levels.{FirstLevelsSay, SecondLevelsSay, ThirdLevelsSay};
ghost use Rattle.page_says.specs.LevelsWorked.{LevelsRight};

/// The first block of each extent of a table has the page of a first level, from the record on by which the table got the
/// extent: the LSN of that record, the kept class of each data block of the extent that is formatted, 0 of each other block.
#[tactic(auto, using(crate::proofs::FirstLevel::first_levels_say))]
pub fn first_levels_say()
    ensures { FirstLevelsSay }
{}

/// The page of a second level has the bests of the first levels that it covers, and 0 past the table's last extent. It is there
/// from the record on by which the table got the first of the extents that it covers.
#[tactic(auto, using(crate::proofs::SecondLevel::second_levels_say))]
pub fn second_levels_say()
    ensures { SecondLevelsSay }
{}

/// The page of a third level has the bests of the table's second levels, and 0 for one that isn't there. It is there from the
/// record on by which the table got its first extent.
#[tactic(auto, using(crate::proofs::ThirdLevel::third_levels_say))]
pub fn third_levels_say()
    ensures { ThirdLevelsSay }
{}

/// What the pages and the model say after two small runs, computed.
pub fn levels_compute()
    ensures { LevelsRight }
{}
