//! Laws on the pages of a lawful list of records: that an allowed record fits each page that it touches, and what the pages say.
//! Each is the contract of a function that does nothing.
#![tactic(auto)]

ghost use Rattle.page_fit.specs.FitPages.{FormattedBlocksHaveRows, RecordsFitPages, SequencesAreCounts};
ghost use Rattle.page_fit.specs.Headers.{HeadersAreStated, HeadersSay};
ghost use Rattle.page_fit.specs.Tables.{TablesSay};

/// An allowed record fits every page that it touches, but for a Reuse before any transaction: it comes with the record that it
/// was made for, and then a transaction has begun.
pub fn records_fit_pages()
    ensures { RecordsFitPages }
{}

/// A row block of a table has the page of a row block.
pub fn formatted_blocks_have_rows()
    ensures { FormattedBlocksHaveRows }
{}

/// The sequence of an undo page is how often its block was taken into use.
pub fn sequences_are_counts()
    ensures { SequencesAreCounts }
{}

/// Each of the 96 entries of the transaction table's page is that of its user: its state and its last undo. The page's
/// numbers are those of the list.
pub fn tables_say()
    ensures { TablesSay }
{}

/// The page of a table's header has the table's number, its PCTFREE, whether its rows may be moved, its marks and its extents.
pub fn headers_say()
    ensures { HeadersSay }
{}

/// The header that a table's Table states is the one that the model names.
pub fn headers_are_stated()
    ensures { HeadersAreStated }
{}
