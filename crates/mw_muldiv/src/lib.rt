//! A multiplier that takes sixteen bits of a factor a tick, and a divider that finds one bit of the quotient a tick.
#![tactic(auto)]

mod divider;
mod multiplier;
mod numbers;
mod signs;
mod steps;

pub use divider::Div;
pub use multiplier::Mul;
pub use numbers::{DivKind, DivOut, MulKind, Wide128};
