use mw_bits::Scope;

/// What an instruction of the system asks for, with all that it takes of the registers among its operands.
#[derive(Clone, Copy, Debug, PartialEq, Eq)]
pub enum SysOp {
    /// A register is read by its number.
    ReadSpr {
        /// The register that gets its content.
        to: u8,
        /// The number.
        spr: u16,
    },
    /// A register is written by its number.
    WriteSpr {
        /// The number.
        spr: u16,
        /// What the register gets.
        value: u64,
    },
    /// The machine state register is written.
    WriteMsr {
        /// The source.
        value: u64,
        /// L: whether EE and RI alone are written.
        l: bool,
    },
    /// The instruction returns from an interrupt.
    Return {
        /// Whether it returns by HSRR0 and HSRR1, and not by SRR0 and SRR1.
        hypervisor: bool,
    },
    /// Kept translations are given up.
    Tlbie {
        /// The kept translations that are given up.
        scope: Scope,
    },
    /// Accesses are ordered.
    Sync {
        /// L: with 2 what was told of translations is done too.
        l: u8,
    },
    /// What is behind the instruction is fetched anew.
    Isync,
}
