//! The update discipline: what is kept beside the machine of changed code, and the access that breaks the discipline.
#![tactic(auto)]

mod blocks;
mod entries;
mod monitor;
mod order;
mod place;

pub use monitor::Monitor;
pub use mw_isa::KeptEntry;
pub use mw_radix::{RamTables, Tables};
