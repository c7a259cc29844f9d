//! The sessions of a run over a store: any of them makes an event, whose entry's lines are handed out as it ends, and a whole
//! run of a script.
#![tactic(auto)]

mod events;
mod fault;
mod lines;
mod rounds;
mod running;
mod seats;
mod world;

pub use events::{Run, step_run};
pub use fault::RunFault;
pub use running::{run_in, run_scripts, run_sessions};
pub use seats::Seat;
pub use world::{Parts, World};
