//! What a word is, and which word an instruction has.
#![tactic(auto)]

mod decoder;
mod encoder;
mod groups;
mod insn;
mod rule;
mod unavailable;
mod word;

pub use decoder::{decode, decode_into, is_prefix};
pub use encoder::encode;
pub use insn::{Code, Decoded, Facility, Insn};
pub use rule::{Rule, is_illegal_form};
