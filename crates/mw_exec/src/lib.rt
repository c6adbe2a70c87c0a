//! What an instruction comes to, by the unit that its row belongs to.
#![tactic(auto)]

mod arithmetic;
mod bits;
mod branching;
mod ending;
mod fields;
mod finish;
mod inputs;
mod long;
mod numbers;
mod outcome;
mod picking;
mod privilege;
mod scopes;
mod storage;
mod system;
mod trapping;
mod unit;

pub use finish::{finished, product_out, quotient_out};
pub use outcome::{behind_insn, next_of};
pub use unit::{exec, exec_into};
