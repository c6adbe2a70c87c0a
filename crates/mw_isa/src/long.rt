use mw_muldiv::{Div, Mul};

/// A result that takes several ticks of a unit: the unit, started, and what to do with its answer.
#[derive(Drop)]
pub enum LongOp {
    /// A product.
    Mul {
        /// The multiplier.
        unit: Mul,
        /// Whether the result is the high half.
        high: bool,
        /// Whether the factors are low words.
        word: bool,
        /// The register that gets the result.
        to: u8,
        /// Whether an overflow is recorded in XER.
        oe: bool,
        /// Whether the result is recorded in CR field 0.
        rc: bool,
    },
    /// A quotient or a rest.
    Div {
        /// The divider.
        unit: Div,
        /// Whether the result is the rest.
        rest: bool,
        /// Whether the numbers are low words.
        word: bool,
        /// The register that gets the result.
        to: u8,
        /// Whether an overflow is recorded in XER.
        oe: bool,
        /// Whether the result is recorded in CR field 0.
        rc: bool,
    },
}
