//! One event of one session of a run over a store: an owed block is settled, or the next statement starts or goes on, and its
//! entry is told where it is over.
#![tactic(auto)]

mod acting;
mod binding;
mod forms;
mod labels;
mod rows;
mod session;
mod shrinking;
mod stepping;
mod telling;

pub use forms::BUILT_FORMS;
pub use labels::Labels;
pub use session::{Session, Turn};
pub use stepping::step_session;
