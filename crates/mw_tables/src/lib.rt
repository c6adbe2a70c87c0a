//! The table of instructions: each row with its name, its fixed bits and where its operands stand.
#![tactic(auto)]

mod fields;
mod layout;
mod operand;
mod row;
mod table;

pub use fields::{fields_of, flags_of};
pub use layout::{Field, Layout, Piece};
pub use operand::{code_with, is_in_field, operand_in};
pub use row::{PrefixKind, Row, Shape};
pub use table::{by_name, layout_at, row_at, rows};
