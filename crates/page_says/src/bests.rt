// The bests of extents and groups, read from the pages of the bitmaps.
ghost use Rattle.page_says.specs.LevelBests.{BestsAreRead, ClassBestsAreRead, LowerBestsAreRead};

/// The best of a first level's codes is that of its extent, and the best of a second level's codes that of its group.
#[tactic(auto, using(crate::proofs::BestsRead::bests_are_read))]
pub fn bests_are_read()
    ensures { BestsAreRead }
{}

/// The bests that a Class must state are those of the codes with the block's new one, and then with the extent's new best.
#[tactic(auto, using(crate::proofs::BestsRead::class_bests_are_read))]
pub fn class_bests_are_read()
    ensures { ClassBestsAreRead }
{}

/// The bests that a Lower must state are those of the codes up to the extents that are kept.
#[tactic(auto, using(crate::proofs::BestsRead::lower_bests_are_read))]
pub fn lower_bests_are_read()
    ensures { LowerBestsAreRead }
{}
