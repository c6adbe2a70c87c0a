//! The command line: its words, what they ask for, and what is written and reported.
#![tactic(auto)]

mod assembly;
mod disassembly;
mod main_call;
mod process;
mod product;
mod refusal;
mod report;
mod run;
mod script;
mod seeded;
mod status;
mod transfer;
mod writing;

pub use main_call::mw_main;
pub use mw_generator::generate;
pub use process::{mw_process, words_of};
pub use refusal::Refusal;
pub use status::Status;
