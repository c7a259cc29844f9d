//! Laws on what the pages of a lawful list of records say, by the model's words, and that each page has a spelling. Each is the
//! contract of a function that does nothing.
#![tactic(auto)]

mod bests;
mod catalogue;
mod levels;
mod spelled;

ghost use Rattle.page_says.specs.Space.{SpacesSay};

pub use bests::{bests_are_read, class_bests_are_read, lower_bests_are_read};
pub use catalogue::{catalogues_say, two_tables_compute};
pub use levels::{first_levels_say, levels_compute, second_levels_say, third_levels_say};
pub use spelled::pages_are_spelled;

/// The page of the space bitmap has an extent in use exactly where some table has it, and counts how often marks were lowered. Where
/// it was never written, no table has an extent.
pub fn spaces_say()
    ensures { SpacesSay }
{}
