//! Numbers as text: in hexadecimal digits and in decimal ones, written into a slice or appended to a list of
//! bytes.
#![tactic(auto)]

mod decimal;
mod hex_digits;

pub use decimal::{add_decimal, add_signed};
pub use hex_digits::{add_hex, add_short_hex, hexadecimal, write_hex};
