//! The board's RAM: 16 MiB, byte by byte, the words that a fetch reads, the operands of loads and stores,
//! and numbers by their bytes.
#![tactic(auto)]

mod order;
mod ram;

pub use order::{number, number_bytes};
pub use ram::{RAM_SIZE, Ram};
