//! The executable step of the sequential machine: what the next instruction is and comes to, told before anything
//! changes, and the same carried out; and the interrupt that is taken in its place.
#![tactic(auto)]

mod between;
mod carry;
mod fetch;
mod judge;
mod long;
mod look;
mod packet;
mod place;
mod prepared;
mod storage;

pub use between::{chosen, interrupt};
pub use carry::carry_out;
pub use look::prepare;
pub use prepared::Prepared;
pub use storage::{read, write};
