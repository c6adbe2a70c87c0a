//! A line of assembler source by itself: its label, its statement, and its operands as they are written.
#![tactic(auto)]

mod data;
mod expression;
mod fault;
mod item;
mod line;
mod mnemonic;
mod operands;
mod reading;
mod spelling;
mod statement;
mod values;

pub use expression::{Addend, Base, Expression};
pub use fault::{LineFault, Refusal, What};
pub use item::{Item, Kind, items_of, pattern_items};
pub use line::{parse_line, shape_at};
pub use mnemonic::{Mnemonic, Pattern};
pub use spelling::mnemonic_of;
pub use statement::{Label, Line, Statement, Unit};
pub use values::Values;
