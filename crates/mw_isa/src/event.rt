use crate::offence::Access;
use crate::vector::Vector;

/// What happens in a cycle, counted from 0: an instruction retires or traps, or an interrupt is taken.
/// Addresses are effective ones.
#[derive(Clone, Copy, Debug, PartialEq, Eq)]
pub enum Event {
    /// An instruction took effect.
    Retire {
        /// The cycle.
        cycle: u64,
        /// The instruction's address.
        cia: u64,
        /// The instruction's word, the prefix where it has one.
        word: u32,
        /// The word behind a prefix.
        suffix: Option<u32>,
    },
    /// An instruction raised an interrupt.
    Trap {
        /// The cycle.
        cycle: u64,
        /// The instruction's address.
        cia: u64,
        /// The interrupt.
        vector: Vector,
    },
    /// An interrupt came between two instructions.
    Irq {
        /// The cycle.
        cycle: u64,
        /// The address of the next instruction.
        nia: u64,
        /// The interrupt.
        vector: Vector,
    },
}

/// How a run ends.
#[derive(Clone, Copy, Debug, PartialEq, Eq)]
pub enum End {
    /// The run reached the number of cycles that was asked for.
    Ran {
        /// The number of cycles that was asked for.
        cycle: u64,
    },
    /// The next instruction has an access that breaks the update discipline: the run stops before it.
    Offence {
        /// The cycle at which that instruction was the next one.
        cycle: u64,
        /// Its first access that breaks the discipline.
        access: Access,
    },
}
