use mw_syntax::What;

/// A refused place of a source.
#[derive(Clone, Copy, Debug, PartialEq, Eq)]
pub struct Place {
    /// The line, counted from 1.
    pub line: u32,
    /// The column; the line's first byte is column 1.
    pub column: u32,
    /// What is refused.
    pub what: What,
}

/// Why a source isn't assembled.
#[derive(Clone, Copy, Debug, PartialEq, Eq)]
pub enum AsmFault {
    /// The source is refused at this place, its first one.
    Bad {
        /// The line, counted from 1.
        line: u32,
        /// The column; the line's first byte is column 1.
        column: u32,
        /// What is refused there.
        what: What,
    },
    /// Memory was wanting.
    NoMemory,
}
