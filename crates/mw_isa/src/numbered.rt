/// A register that is moved by number (Book III, special purpose registers).
#[derive(Clone, Copy, Debug, PartialEq, Eq)]
pub enum Numbered {
    /// The fixed-point exception register.
    Xer,
    /// The link register.
    Lr,
    /// The count register.
    Ctr,
    /// The data storage interrupt status register, of 32 bits.
    Dsisr,
    /// The data address register.
    Dar,
    /// The decrementer, of 32 bits, which a read extends with its sign.
    Dec,
    /// Machine status save and restore register 0.
    Srr0,
    /// Machine status save and restore register 1.
    Srr1,
    /// The process ID register, of 32 bits.
    Pidr,
    /// A software-use special purpose register, by its number, 0 to 3.
    Sprg(u8),
    /// The time base, counted in cycles.
    TimeBase,
    /// The upper 32 bits of the time base.
    TimeBaseUpper,
    /// A half of the time base as it is written, which has no effect on this board.
    TimeBaseHalf,
    /// The processor version register.
    Pvr,
    /// A hypervisor software-use special purpose register, by its number, 0 or 1.
    Hsprg(u8),
    /// Hypervisor machine status save and restore register 0.
    Hsrr0,
    /// Hypervisor machine status save and restore register 1.
    Hsrr1,
    /// The process table register.
    Prtbl,
    /// The target address register.
    Tar,
    /// The processor identification register.
    Pir,
}

/// How an instruction uses a register that it moves by number.
#[derive(Clone, Copy, Debug, PartialEq, Eq)]
pub enum Use {
    /// The instruction reads the register (mfspr, mftb).
    Read,
    /// The instruction writes the register (mtspr).
    Write,
}

/// Why a use of a number is refused (Book III, special purpose registers).
#[derive(Clone, Copy, Debug, PartialEq, Eq)]
pub enum SprRefusal {
    /// The number is privileged, and the machine in problem state.
    Privileged,
    /// The number stands for no register that can be used so.
    Illegal,
}

/// A line of the list of registers by number.
#[derive(Clone, Copy, Debug, PartialEq, Eq)]
pub struct NumberedLine {
    /// The number, below 1024.
    pub number: u16,
    /// The register that the number stands for.
    pub register: Numbered,
    /// Whether the register can be read.
    pub readable: bool,
    /// Whether the register can be written.
    pub writable: bool,
}
