// What pages say, of any list of records, lawful or not.
ghost use Rattle.page_set.specs.Says.{LsnsTell, OthersStay, PagesSay, TouchedAreListed};

/// The page of a row block has the slots and list entries of the model's block, and the page of an undo block the parts that
/// the model says it holds.
#[tactic(auto, using(crate::proofs::SaysLaw::says))]
pub fn pages_say()
    ensures { PagesSay }
{}

/// A page is the fold of the first so many records as its LSN field says, whatever comes after them.
#[tactic(auto, using(crate::proofs::LsnLaw::lsns_tell))]
pub fn lsns_tell()
    ensures { LsnsTell }
{}

/// A record leaves each page that isn't among those that it touches.
#[tactic(auto, using(crate::proofs::ListedLaw::others_stay))]
pub fn others_stay()
    ensures { OthersStay }
{}

/// The list of touched blocks has each once.
#[tactic(auto, using(crate::proofs::ListedLaw::are_listed))]
pub fn touched_are_listed()
    ensures { TouchedAreListed }
{}
