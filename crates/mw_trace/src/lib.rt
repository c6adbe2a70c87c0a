//! The text of a run: its events, its end and the registers, a line each, and a dump of RAM; and the events that a text
//! of their lines is read as.
#![tactic(auto)]

mod dump;
mod event_line;
mod laws;
mod lines;
mod numerals;
mod piece;
mod reading;
mod registers;
mod summaries;
mod text;
mod words;

pub use laws::{lines_read, texts_spell};
pub use piece::{EVENTS_AT_ONCE, events_fit, print_behind, set_lines};
pub use reading::{BadLine, read};
pub use summaries::summary;
pub use text::{end_line, event_lines, print};
