//! The tokens of a line of assembler text, and the first byte at which none stands.
#![tactic(auto)]

mod line;
mod number;
mod piece;
mod token;
mod tokens;

pub use line::{LineFault, read_line};
pub use token::{Token, TokenKind};
pub use tokens::Tokens;
