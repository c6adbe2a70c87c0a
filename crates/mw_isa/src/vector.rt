ghost use Rattle.std.specs.Prelude.{◌≡◌};
ghost use Rattle.mw_isa.specs.Vectors.{address_of};

/// An interrupt, by the vector that it is taken to (Book III, interrupt definitions).
#[derive(Clone, Copy, Debug, PartialEq, Eq)]
pub enum Vector {
    /// A data access has no translation or isn't permitted.
    DataStorage,
    /// A data address lies in no segment.
    DataSegment,
    /// A fetch has no translation or isn't permitted.
    InstStorage,
    /// An instruction address lies in no segment.
    InstSegment,
    /// A device asks for attention.
    External,
    /// An access isn't aligned where it has to be.
    Alignment,
    /// The instruction is illegal or privileged, or a trap condition holds.
    Program,
    /// A floating-point instruction while there is no such facility.
    FpUnavailable,
    /// The decrementer has fallen below zero.
    Decrementer,
    /// A system call.
    SystemCall,
    /// A vector instruction while there is no such facility.
    VectorUnavailable,
    /// A VSX instruction while there is no such facility.
    VsxUnavailable,
}

impl Vector {
    /// The real address that the interrupt is taken to (Book III, interrupt vector locations).
    pub fn address(self) -> u64
        ensures { result ≡ address_of self }
    {
        match self {
            Vector::DataStorage => 0x300,
            Vector::DataSegment => 0x380,
            Vector::InstStorage => 0x400,
            Vector::InstSegment => 0x480,
            Vector::External => 0x500,
            Vector::Alignment => 0x600,
            Vector::Program => 0x700,
            Vector::FpUnavailable => 0x800,
            Vector::Decrementer => 0x900,
            Vector::SystemCall => 0xC00,
            Vector::VectorUnavailable => 0xF20,
            Vector::VsxUnavailable => 0xF40,
        }
    }
}
