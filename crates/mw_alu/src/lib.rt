//! What the rows that are done in one cycle give: a value with its carries and overflows, from numbers alone.
#![tactic(auto)]

mod adder;
mod counts;
mod extend;
mod logic;
mod op;
mod permutes;
mod places;
mod rotate;
mod shift;
mod unit;

pub use op::{AluOp, AluOut};
pub use rotate::rotl32_of;
pub use unit::alu;
