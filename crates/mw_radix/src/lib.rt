//! Radix translation: a walker that asks for one doubleword of a tree's tables at a time, and what an effective address
//! comes to.
#![tactic(auto)]

mod entry;
mod stage;
mod tables;
mod translating;
mod walker;

pub use mw_isa::{Leaf, WalkFault};
pub use tables::{RamTables, Tables};
pub use translating::{found_by, is_translated, permits, quadrant_of, translate};
pub use walker::Walker;
