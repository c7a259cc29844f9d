// Laws of data files whose pages are folds of a log.
ghost use Rattle.store_pages.specs.Filed.{FoldsOfFilesHaveFewer, FoldsOfFilesReachBack, FoldsOfFilesStay, NewFilesHaveFolds};

/// A data file whose blocks are zeros is that of a store with any log, of which no page has a record.
pub fn new_files_have_folds()
    ensures { NewFilesHaveFolds }
{}

/// The pages of a file are folds of the log also when the log has more records.
pub fn folds_of_files_stay()
    ensures { FoldsOfFilesStay }
{}

/// They are folds of the log's first records where no page has one behind those.
pub fn folds_of_files_have_fewer()
    ensures { FoldsOfFilesHaveFewer }
{}

/// Where each page has the first m records, it has the first k of them, for any k up to m.
pub fn folds_of_files_reach_back()
    ensures { FoldsOfFilesReachBack }
{}
