ghost use Rattle.std.specs.Prelude.{◌≡◌, ◌%◌, ◌^◌, ◌<◌, bit_and};
ghost use Rattle.mw_bits.specs.Fields.{rotl_of};
ghost use Rattle.mw_alu.specs.Bits.{inserted_of, rotl32_of, valued};

use crate::logic::valued;
use crate::op::AluOut;
use mw_bits::rotl;

/// A number rotated to the left by the low 6 bits of the count, under a mask (Book I, fixed-point rotate
/// instructions).
pub fn rotated(x: u64, count: u64, mask: u64) -> AluOut
    ensures { result ≡ valued (bit_and (rotl_of x (count % 2 ^ 6)) mask) }
{
    valued(rotl(x, (count % 64) as u32) & mask)
}

/// The low word of a number, doubled, rotated to the left by `n` places (Book I, ROTL32). It can't fail.
pub fn rotl32_of(x: u64, n: u64) -> u64
    requires { n < 32 }
    ensures { result ≡ rotl32_of x n }
{
    let low = x % 0x1_0000_0000;
    rotl(low * 0x1_0000_0000 + low, n as u32)
}

/// The low word, doubled, rotated to the left by the low 5 bits of the count, under a mask.
pub fn rotated_word(x: u64, count: u64, mask: u64) -> AluOut
    ensures { result ≡ valued (bit_and (rotl32_of x (count % 2 ^ 5)) mask) }
{
    valued(rotl32_of(x, count % 32) & mask)
}

/// The bits of a number where the mask has ones, and those of the other number elsewhere.
pub fn inserted(x: u64, mask: u64, other: u64) -> AluOut
    ensures { result ≡ valued (inserted_of x mask other) }
{
    valued((x & mask) | (other & !mask))
}
