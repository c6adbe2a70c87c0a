use crate::long::LongOp;
use crate::memory::MemOp;
use crate::slot::Slot;
use crate::system::SysOp;
use crate::vector::Vector;
use arrayvec::ArrayVec;

/// A register that an instruction writes, with its value once that is known.
#[derive(Clone, Copy, Debug, Default, PartialEq, Eq)]
pub struct Target {
    /// The register.
    pub slot: Slot,
    /// The register's value, once it is known.
    pub value: Option<u64>,
}

/// What an instruction reads of the registers; every part but MSR is 0 where it isn't read.
#[derive(Clone, Copy, Debug, PartialEq, Eq)]
pub struct Operands {
    /// The register that is read as a, as RA or RS.
    pub a: u64,
    /// The register that is read as b, as RB.
    pub b: u64,
    /// The register that is read as c, as that which is stored.
    pub c: u64,
    /// The condition register.
    pub cr: u32,
    /// The fixed-point exception register.
    pub xer: u64,
    /// The link register.
    pub lr: u64,
    /// The count register.
    pub ctr: u64,
    /// The target address register.
    pub tar: u64,
    /// The machine state register.
    pub msr: u64,
}

/// What an instruction comes to.
#[derive(Drop)]
pub enum Outcome {
    /// The instruction is done in one turn.
    Done {
        /// The registers that the instruction writes.
        targets: ArrayVec<Target, 8>,
        /// The address of the next instruction.
        next: u64,
    },
    /// The instruction takes several ticks of a unit.
    Long(LongOp),
    /// The instruction accesses storage.
    Memory(MemOp),
    /// The instruction is one of the system's.
    System(SysOp),
    /// The instruction raises an interrupt.
    Trap {
        /// The vector of the interrupt.
        vector: Vector,
        /// The bits of SRR1 that tell why, at their places; not the one that tells of a prefix.
        cause: u64,
    },
}
