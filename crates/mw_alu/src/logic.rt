ghost use Rattle.std.specs.Prelude.{◌≡◌, bit_and, bit_or, bit_xor};
ghost use Rattle.std.specs.Int.{bit_not, w64};
ghost use Rattle.mw_alu.specs.Bits.{valued};

use crate::op::AluOut;

/// A result without carry or overflow.
pub fn valued(value: u64) -> AluOut
    ensures { result ≡ valued value }
{
    AluOut {
        value,
        ca: false,
        ca32: false,
        ov: false,
        ov32: false,
    }
}

/// The bits that both numbers have (Book I, fixed-point logical instructions).
pub fn and(x: u64, y: u64) -> AluOut
    ensures { result ≡ valued (bit_and x y) }
{
    valued(x & y)
}

/// The bits that either number has.
pub fn or(x: u64, y: u64) -> AluOut
    ensures { result ≡ valued (bit_or x y) }
{
    valued(x | y)
}

/// The bits that just one of the numbers has.
pub fn xor(x: u64, y: u64) -> AluOut
    ensures { result ≡ valued (bit_xor x y) }
{
    valued(x ^ y)
}

/// The bits that the numbers don't both have.
pub fn nand(x: u64, y: u64) -> AluOut
    ensures { result ≡ valued (bit_not w64 (bit_and x y)) }
{
    valued(!(x & y))
}

/// The bits that neither number has.
pub fn nor(x: u64, y: u64) -> AluOut
    ensures { result ≡ valued (bit_not w64 (bit_or x y)) }
{
    valued(!(x | y))
}

/// The bits in which the numbers agree.
pub fn eqv(x: u64, y: u64) -> AluOut
    ensures { result ≡ valued (bit_not w64 (bit_xor x y)) }
{
    valued(!(x ^ y))
}
