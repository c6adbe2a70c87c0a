//! The two words of a prefixed instruction: what a prefix and a suffix are, and the words again.
#![tactic(auto)]

mod wide;

pub use wide::{NotWide, Wide, join, split};
