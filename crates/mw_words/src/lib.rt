//! The words of the command line: their grammar, and what they ask for.
#![tactic(auto)]

mod command;
mod order;
mod reader;
mod said;
mod verb;

pub use command::{Command, RunCommand};
pub use order::{MOST_CYCLES, WordsFault, read_words};
