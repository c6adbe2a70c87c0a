/// What a token is.
#[derive(Clone, Copy, Debug, PartialEq, Eq)]
pub enum TokenKind {
    /// A name: of an instruction, a register, a directive or a label.
    Word,
    /// A decimal or hexadecimal number, of at most 64 bits.
    Number(u64),
    /// `,`.
    Comma,
    /// `:`.
    Colon,
    /// `(`.
    Open,
    /// `)`.
    Close,
    /// `+`.
    Plus,
    /// `-`.
    Minus,
    /// `.` alone, the statement's address.
    Here,
}

/// A token of a line.
#[derive(Clone, Copy, Debug, PartialEq, Eq)]
pub struct Token {
    /// What the token is.
    pub kind: TokenKind,
    /// How many bytes of the line stand before the token.
    pub from: u32,
    /// How many bytes of the line stand before the token's end: its text is `line[from..to]`.
    pub to: u32,
}
