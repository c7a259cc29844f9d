//! Which checkpoints are those of a log: laws of the log's groups, each the contract of a function that does nothing.
#![tactic(auto)]

ghost use Rattle.checkpoint_laws.specs.Points.{AllIsAPoint, NoneIsAPoint, PointsAreBoundaries, PointsStay, PointsStayWithAGroup};

/// The checkpoint of an empty list is one of a log without a group.
#[tactic(auto, using(crate::proofs::Boundaries::none_is_a_point))]
pub fn none_is_a_point()
    ensures { NoneIsAPoint }
{}

/// So many records as a log's groups hold, the place of its closed gate and the number of commits are a checkpoint of it.
#[tactic(auto, using(crate::proofs::Boundaries::all_is_a_point))]
pub fn all_is_a_point()
    ensures { AllIsAPoint }
{}

/// A checkpoint of a log stays one when groups are appended.
#[tactic(auto, using(crate::proofs::Boundaries::points_stay))]
pub fn points_stay()
    ensures { PointsStay }
{}

/// It stays one when the records that wait become a group, and where none wait.
#[tactic(auto, using(crate::proofs::Boundaries::points_stay_with_a_group))]
pub fn points_stay_with_a_group()
    ensures { PointsStayWithAGroup }
{}

/// The groups hold all records, those before the checkpoint are the first of them, as many as it says, and so are the commits.
pub fn points_are_boundaries()
    ensures { PointsAreBoundaries }
{}
