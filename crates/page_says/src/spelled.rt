// The bytes of pages.
ghost use Rattle.page_says.specs.SpelledPages.{PagesAreSpelled};

/// The page of each block has a spelling of its own, after fewer than 2 to the 64th records: what encoding it writes is read as
/// the same page.
pub fn pages_are_spelled()
    ensures { PagesAreSpelled }
{}
