//! Interrupts: which one is taken in place of the next instruction, and what one makes of the registers when it is taken.
#![tactic(auto)]

mod choosing;
mod taking;

pub use choosing::choose;
pub use taking::take;
