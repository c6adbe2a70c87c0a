/// How the operands that are written become those of the row.
#[derive(Clone, Copy, Debug, PartialEq, Eq)]
pub enum Pattern {
    /// The operands that are written are those of the row.
    Row,
    /// `li RT,SI`: RA is 0.
    Li,
    /// `lis RT,SI`: RA is 0, and SI may be unsigned too.
    Lis,
    /// `mr RA,RS`: RB is RS.
    Mr,
    /// `nop`: three zeros.
    Nop,
    /// `blr` and `bctr`: BO is 20, BI and BH are 0.
    Always,
    /// `lwsync`: L is 1.
    Light,
    /// `ptesync`: L is 2.
    Tables,
}

/// What a mnemonic means.
#[derive(Clone, Copy, Debug, PartialEq, Eq)]
pub struct Mnemonic {
    /// The place of the mnemonic's row in the table of instructions.
    pub row: u16,
    /// OE=1: the mnemonic has the ending `o`.
    pub oe: bool,
    /// Rc=1: the mnemonic has the ending `.`.
    pub rc: bool,
    /// AA=1: the mnemonic has the ending `a`.
    pub aa: bool,
    /// LK=1: the mnemonic has the ending `l`.
    pub lk: bool,
    /// How the mnemonic's operands are written.
    pub pattern: Pattern,
}
