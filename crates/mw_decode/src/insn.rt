ghost use Rattle.std.specs.Prelude.{◌≡◌};
ghost use Rattle.mw_decode.specs.Blank.{no_insn};

use arrayvec::ArrayVec;

/// An instruction: its row in the table, its operands in the order of the row, and its forms.
#[derive(Debug, PartialEq, Eq, Drop)]
pub struct Insn {
    /// The place of the row in the table.
    pub row: u16,
    /// The operands in order, each in its field's range.
    pub ops: ArrayVec<i64, 6>,
    /// OE=1: overflow is recorded.
    pub oe: bool,
    /// Rc=1: CR field 0 is set.
    pub rc: bool,
    /// AA=1: the target is absolute.
    pub aa: bool,
    /// LK=1: the link register is set.
    pub lk: bool,
}

impl Insn {
    /// A place for `decode_into` to write to: row 0 with no operand and no form. It takes no memory, and can't
    /// fail.
    pub fn new() -> Insn
        ensures { result ≡ no_insn }
    {
        Insn {
            row: 0,
            ops: ArrayVec::new(),
            oe: false,
            rc: false,
            aa: false,
            lk: false,
        }
    }
}

/// A facility that the machine doesn't have (Book III, unavailable interrupts).
#[derive(Clone, Copy, Debug, PartialEq, Eq)]
pub enum Facility {
    /// Floating point.
    Fp,
    /// Vector.
    Vector,
    /// Vector-scalar.
    Vsx,
}

/// What a word, or a prefix with its suffix, is.
#[derive(Debug, PartialEq, Eq, Drop)]
pub enum Decoded {
    /// An instruction of the table.
    Insn(Insn),
    /// A word of a facility that isn't there.
    Unavailable(Facility),
    /// An access that raises an alignment interrupt, at RA|0, RB where there is one, and `disp`.
    Alignment {
        /// The field RA: a register, where 0 stands for the number 0.
        ra: u8,
        /// The field RB, of the moves of strings whose length stands in XER.
        rb: Option<u8>,
        /// The displacement in bytes, of load and store multiple, and else 0.
        disp: i64,
    },
    /// Any other word, and an illegal form of a row.
    Illegal,
}

/// The word of an instruction, or its prefix and its suffix.
#[derive(Clone, Copy, Debug, PartialEq, Eq)]
pub struct Code {
    /// The word, or the prefix.
    pub word: u32,
    /// The suffix, exactly where the primary opcode of `word` is 1.
    pub suffix: Option<u32>,
}
