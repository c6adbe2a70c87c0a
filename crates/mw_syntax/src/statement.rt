use crate::expression::Expression;
use crate::mnemonic::Mnemonic;
use crate::values::Values;
use arrayvec::ArrayVec;

/// What a directive of data gives for each expression.
#[derive(Clone, Copy, Debug, PartialEq, Eq)]
pub enum Unit {
    /// `.byte`: one byte.
    Byte,
    /// `.long`: 4 bytes, the least significant first.
    Long,
    /// `.quad`: 8 bytes, the least significant first.
    Quad,
    /// `.be64`: 8 bytes, the most significant first.
    BigQuad,
}

/// A statement. Columns are counted from 1.
#[derive(Drop)]
pub enum Statement {
    /// No statement.
    Nothing,
    /// `.org`: the address moves up.
    Org {
        /// The column of `.org`.
        name: u32,
        /// The address to move up to.
        to: Expression,
    },
    /// Data.
    Data {
        /// The column of the directive.
        name: u32,
        /// What each value gives.
        unit: Unit,
        /// The values, in order.
        values: Values,
    },
    /// An instruction, with the operands that are written.
    Instruction {
        /// The column of the mnemonic.
        name: u32,
        /// What the mnemonic means.
        mnemonic: Mnemonic,
        /// The operands, in order.
        operands: ArrayVec<Expression, 6>,
    },
}

/// A label: its name is the line's bytes from `from` to `to`.
#[derive(Clone, Copy, Debug, PartialEq, Eq)]
pub struct Label {
    /// How many bytes of the line stand before the label's name.
    pub from: u32,
    /// How many bytes of the line stand before the name's end.
    pub to: u32,
}

/// A line that isn't refused by itself.
#[derive(Drop)]
pub struct Line {
    /// The label.
    pub label: Option<Label>,
    /// The statement.
    pub statement: Statement,
}
