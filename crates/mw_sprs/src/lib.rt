//! Registers by number: what one holds, what a write leaves, and which use of a number is refused; and what the
//! instructions of the system do to registers and devices.
#![tactic(auto)]

mod content;
mod moving;
mod numbers;
mod system;

pub use moving::{read, write, write_refusal};
pub use system::{carry, system_deed, system_raises};
