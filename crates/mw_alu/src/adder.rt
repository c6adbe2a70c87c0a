ghost use Rattle.std.specs.Prelude.{◌≡◌};
ghost use Rattle.std.specs.Int.{from_bool};
ghost use Rattle.mw_alu.specs.Sums.{carries, carries_word, overflows, overflows_word, sum_by_ov, sum_of};

use crate::op::AluOut;

/// Whether a sum carries out of 64 bits.
fn carries(x: u64, y: u64, more: bool) -> bool
    ensures { result ≡ carries x y (from_bool more) }
{
    u128::from(x) + u128::from(y) + u128::from(more) > 0xffff_ffff_ffff_ffff
}

/// Whether the sum of the low words carries out of 32 bits.
fn carries_word(x: u64, y: u64, more: bool) -> bool
    ensures { result ≡ carries_word x y (from_bool more) }
{
    x % 0x1_0000_0000 + y % 0x1_0000_0000 + u64::from(more) > 0xffff_ffff
}

/// Whether the sum of the signed numbers doesn't fit 64 bits: both have one sign, and it has the other.
fn overflows(x: u64, y: u64, more: bool) -> bool
    ensures { result ≡ overflows x y (from_bool more) }
{
    let sum = x.wrapping_add(y).wrapping_add(u64::from(more));
    let is_positive = x < 0x8000_0000_0000_0000;
    is_positive == (y < 0x8000_0000_0000_0000) && is_positive != (sum < 0x8000_0000_0000_0000)
}

/// Whether the sum of the signed low words doesn't fit 32 bits: both have one sign, the sum the other.
fn overflows_word(x: u64, y: u64, more: bool) -> bool
    ensures { result ≡ overflows_word x y (from_bool more) }
{
    let low = x % 0x1_0000_0000;
    let other = y % 0x1_0000_0000;
    let sum = (low + other + u64::from(more)) % 0x1_0000_0000;
    let is_positive = low < 0x8000_0000;
    is_positive == (other < 0x8000_0000) && is_positive != (sum < 0x8000_0000)
}

/// The sum of two numbers, and of 1 where there is one more, modulo 2^64, with its carries and overflows
/// (Book I, fixed-point arithmetic instructions).
pub fn sum_of(x: u64, y: u64, more: bool) -> AluOut
    ensures { result ≡ sum_of x y (from_bool more) }
{
    AluOut {
        value: x.wrapping_add(y).wrapping_add(u64::from(more)),
        ca: carries(x, y, more),
        ca32: carries_word(x, y, more),
        ov: overflows(x, y, more),
        ov32: overflows_word(x, y, more),
    }
}

/// The sum of two numbers, and of 1 where OV is 1: its carries stand in place of the overflows (addex).
pub fn sum_by_ov(x: u64, y: u64, more: bool) -> AluOut
    ensures { result ≡ sum_by_ov x y (from_bool more) }
{
    AluOut {
        value: x.wrapping_add(y).wrapping_add(u64::from(more)),
        ca: false,
        ca32: false,
        ov: carries(x, y, more),
        ov32: carries_word(x, y, more),
    }
}
