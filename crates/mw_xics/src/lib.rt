//! The board's interrupt controller: priorities, one processor's pending interrupt, accept and end of interrupt.
#![tactic(auto)]

mod register;
mod xics;

pub use xics::Xics;
