use crate::access::{Deed, Touch};
use crate::vector::Vector;
use arrayvec::ArrayVec;

/// What the update discipline sees of an instruction. Its accesses are the fetch at `cia`, and then those to data.
#[derive(Debug, Drop)]
pub struct Packet {
    /// The effective address of the instruction.
    pub cia: u64,
    /// The instruction's word, the prefix where it has one; 0 where its fetch failed.
    pub word: u32,
    /// The word behind a prefix.
    pub suffix: Option<u32>,
    /// Its accesses to pages of data, in order.
    pub touches: ArrayVec<Touch, 2>,
    /// What it does to changed code and changed translations; nothing where it raises an interrupt.
    pub deed: Deed,
    /// The interrupt that it raises, if it does.
    pub trap: Option<Vector>,
}
