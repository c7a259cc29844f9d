//! Laws of a store whose pages stand in a pool over its data file, where its list of records is lawful: that only disk and memory can
//! keep an allowed record from its pages, and the redo of such a list from its end. Each is the contract of a function that
//! does nothing.
#![tactic(auto)]

ghost use Rattle.pool_fit.specs.Fitting.{CommitsFit, LawfulListsDontStop, LawfulListsFit, PairsFit, RecordsFit, TouchedHavePages};

/// Each block that an allowed record touches has a page: it lies in the store, and is neither the checkpoint nor one of the
/// double-write area.
pub fn touched_have_pages()
    ensures { TouchedHavePages }
{}

/// An allowed record fits on the page of each block that it touches; but for a Reuse before any transaction, which comes with
/// the record that it was made for.
pub fn records_fit()
    ensures { RecordsFit }
{}

/// So do a Table with its first Extend, and a Reuse with the record that it was made for, one after the other.
pub fn pairs_fit()
    ensures { PairsFit }
{}

/// An allowed Commit fits on the page of the transaction table.
pub fn commits_fit()
    ensures { CommitsFit }
{}

/// Each record of a lawful list fits on the pages that it touches, as the records before it leave them.
pub fn lawful_lists_fit()
    ensures { LawfulListsFit }
{}

/// So the redo of a lawful list, from any of its records on, stops at no block.
pub fn lawful_lists_dont_stop()
    ensures { LawfulListsDontStop }
{}
