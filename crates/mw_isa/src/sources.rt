use crate::slot::Slot;

/// The registers among an instruction's operands that it reads, by what they are to it.
#[derive(Clone, Copy, Debug, PartialEq, Eq)]
pub struct Sources {
    /// The register that is read as a.
    pub a: Option<Slot>,
    /// The register that is read as b.
    pub b: Option<Slot>,
    /// The register that is read as c.
    pub c: Option<Slot>,
}

/// What an instruction reads of the registers beside those among its operands.
#[derive(Clone, Copy, Debug, PartialEq, Eq)]
pub struct Special {
    /// The fields of the condition register, as a mask whose leftmost bit is field 0's.
    pub fields: u8,
    /// Whether the fixed-point exception register is read.
    pub xer: bool,
    /// Whether the link register is read.
    pub lr: bool,
    /// Whether the count register is read.
    pub ctr: bool,
    /// Whether the target address register is read.
    pub tar: bool,
}
