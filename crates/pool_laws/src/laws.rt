// Laws of pages that are older than the list of records.
ghost use Rattle.pool_laws.specs.Reached.{AllAreReached, NewPagesAreReached, ReachedPagesStay, RecordsAreRedone, WrittenPagesAreReached};
ghost use Rattle.pool_laws.specs.Folds.{BatchesKeepFolds, FoldsHaveFewer, FoldsReachBack, FoldsStay, NewFilesAreFolded};

/// A data file of zeros has come as far as no record.
#[tactic(auto, using(crate::proofs::Redoing::new_reached))]
pub fn new_pages_are_reached()
    ensures { NewPagesAreReached }
{}

/// Redoing the next record, on each page that has a lesser LSN, brings the pages as far as that record.
#[tactic(auto, using(crate::proofs::Redoing::redo))]
pub fn records_are_redone()
    ensures { RecordsAreRedone }
{}

/// A page that has come as far as all records is the page after them.
#[tactic(auto, using(crate::proofs::Redoing::all_reached))]
pub fn all_are_reached()
    ensures { AllAreReached }
{}

/// A page stays as far as it has come when a record is added.
#[tactic(auto, using(crate::proofs::Redoing::reached_stays))]
pub fn reached_pages_stay()
    ensures { ReachedPagesStay }
{}

/// A page that is written while no record that changed it is missing in the log has come as far as any count of the log's
/// records, whichever newer records the log lacks.
#[tactic(auto, using(crate::proofs::Written::written_reached))]
pub fn written_pages_are_reached()
    ensures { WrittenPagesAreReached }
{}

/// A data file of zeros is that of a store without a record, and of any other that begins with one.
pub fn new_files_are_folded()
    ensures { NewFilesAreFolded }
{}

/// The pages of a data file are folds of the log's records also when the log has more.
pub fn folds_stay()
    ensures { FoldsStay }
{}

/// They are folds of the log's first records where no page has one behind those.
pub fn folds_have_fewer()
    ensures { FoldsHaveFewer }
{}

/// Where each page has the first m records, it has the first k of them, for any k up to m.
pub fn folds_reach_back()
    ensures { FoldsReachBack }
{}

/// A batch that is taken of the pages after all records, up to what the log has, leaves a data file whose pages are folds of the
/// log's records.
pub fn batches_keep_folds()
    ensures { BatchesKeepFolds }
{}
