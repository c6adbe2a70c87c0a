use crate::vector::Vector;

/// An interrupt that an instruction raises (Book III, interrupt definitions).
#[derive(Clone, Copy, Debug, PartialEq, Eq)]
pub struct Raised {
    /// The vector of the interrupt.
    pub vector: Vector,
    /// The bits of SRR1 that tell why, at their places.
    pub cause: u64,
    /// What DAR becomes, where it changes.
    pub dar: Option<u64>,
    /// What DSISR becomes, where it changes.
    pub dsisr: Option<u32>,
}
