//! Open scans over a store. A scan begins with the number of commits and the list of the formatted blocks under a table's high
//! mark, and reads one block an event: the rows that were committed when it began, with its own transaction's changes, whatever
//! others change, move or take back meanwhile.
#![tactic(auto)]

mod answer;
mod laws;
mod listing;
mod marking;
mod opening;
mod reader;
mod rows;
mod scan;
mod scans;
mod slots;

pub use answer::{ScanFault, ScanStep, Scanned};
pub use history_text::RowOut;
pub use laws::{marks_are_lowerings, scans_are_work, scans_stay};
pub use listing::list_table;
pub use scans::Scans;
