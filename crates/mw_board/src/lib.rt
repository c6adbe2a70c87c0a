//! The board: one instruction a cycle, for a number of cycles, on an image.
#![tactic(auto)]

mod run;
mod simulation;
mod turn;

pub use run::{Run, RunFault};
pub use simulation::simulate;
