// What the page of a checkpoint says, and what it leaves.
ghost use Rattle.checkpoint_block.specs.Points.{EachPointIsSaid, OtherPagesStay, ZerosSayTheFirstPoint};

/// The page that a checkpoint is written as says it again.
#[tactic(auto, using(crate::proofs::Again::said_again))]
pub fn each_point_is_said()
    ensures { EachPointIsSaid }
{}

/// A page of zeros says the checkpoint of a store without a record.
#[tactic(auto, using(crate::proofs::Again::zeros_say))]
pub fn zeros_say_the_first_point()
    ensures { ZerosSayTheFirstPoint }
{}

/// Where a checkpoint was written, block 0 has its page, and each other block the page that it had.
#[tactic(auto, using(crate::proofs::Again::others_stay))]
pub fn other_pages_stay()
    ensures { OtherPagesStay }
{}
