//! Scripts of sessions: from bytes to statements, and back.
#![tactic(auto)]

mod draft;
mod form;
mod labels;
mod laws;
mod limit;
mod parsing;
mod pieces;
mod printing;
mod row;
mod schedule;
mod scripts;
mod statement;
#[cfg(test)]
mod tests;
mod why;

pub use form::{ALL_FORMS, Form, Forms};
pub use laws::{one_spelling, scripts_are_spelled};
pub use parsing::parse;
pub use pieces::number;
pub use printing::print;
pub use scripts::Scripts;
pub use statement::{Statement, Target, Turns};
pub use why::{ScriptFault, Why};
