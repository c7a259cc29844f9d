// The page of the catalogue.
ghost use Rattle.page_says.specs.Named.{CataloguesSay};
ghost use Rattle.page_says.specs.TwoTables.{TwoRight};

/// From the first Table on block 2 has the page of the catalogue: as many entries as there are tables, each with the name and
/// the header of its own. So a name leads to the table that has it, and a table's number to its header.
#[tactic(auto, using(crate::proofs::NamedLaw::catalogues_say))]
pub fn catalogues_say()
    ensures { CataloguesSay }
{}

/// The catalogue of a small store with two tables: its page, and what it finds.
#[tactic(auto, using(crate::proofs::TwoTables::two_right))]
pub fn two_tables_compute()
    ensures { TwoRight }
{}
