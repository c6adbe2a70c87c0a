/// What a refused place of a source is. A line by itself is refused as one of the first three alone; the
/// others are the assembler's.
#[derive(Clone, Copy, Debug, PartialEq, Eq)]
pub enum What {
    /// A byte at which no token stands.
    Token,
    /// An unknown name or directive.
    Name,
    /// A token that can't stand there, or an operand that is missing.
    Operand,
    /// A value out of its field's range, one that isn't a multiple of 4 where it has to be, or an illegal
    /// form.
    Range,
    /// A label that is defined twice, or never.
    Label,
    /// An `.org` that falls, or whose value isn't known yet.
    Org,
    /// An image of more than 16,777,216 bytes, or a source of more than 4 MiB.
    TooLong,
}

/// A refused place of a line.
#[derive(Clone, Copy, Debug, PartialEq, Eq)]
pub struct Refusal {
    /// The column; the line's first byte is column 1.
    pub column: u32,
    /// What is refused.
    pub what: What,
}

/// Why a line isn't read.
#[derive(Clone, Copy, Debug, PartialEq, Eq)]
pub enum LineFault {
    /// The line is refused.
    Refused(Refusal),
    /// There was no memory for the line.
    NoMemory,
}
