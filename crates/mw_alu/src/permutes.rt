ghost use Rattle.std.specs.Prelude.{◌≡◌, ◌<◌};
ghost use Rattle.std.specs.Int.{swap_bytes, w64};
ghost use Rattle.mw_alu.specs.Bits.{valued};
ghost use Rattle.mw_alu.specs.Permutes.{bpermd_of, brh_of, brw_of, cfuged_of, cmpb_of, equality_of, numbered_bit, pdepd_of, pextd_of};

use crate::logic::valued;
use crate::op::AluOut;
use crate::places::{bit_at, byte_at, halfword_at};
use crate::shift::shifted_left;

/// A number with its bytes reversed (Book I, byte-reverse instructions).
pub fn reversed(x: u64) -> AluOut
    ensures { result ≡ valued (swap_bytes w64 x) }
{
    valued(x.swap_bytes())
}

/// The bytes reversed in each word.
pub fn brw_of(s: u64) -> u64
    ensures { result ≡ brw_of s }
{
    let high = (s >> 32) as u32;
    let low = (s & 0xffff_ffff) as u32;
    u64::from(high.swap_bytes()) << 32 | u64::from(low.swap_bytes())
}

/// The bytes reversed in each halfword.
pub fn brh_of(s: u64) -> u64
    ensures { result ≡ brh_of s }
{
    let mut reversed = 0;
    for place in 0..4 {
        reversed |= u64::from(halfword_at(s, place).swap_bytes()) << (16 * place);
    }
    reversed
}

/// The rightmost bits of `s`, in order, where the mask has ones, and zeros elsewhere (Book I, fixed-point
/// logical instructions).
pub fn pdepd_of(s: u64, mask: u64) -> u64
    ensures { result ≡ pdepd_of s mask }
{
    let mut spread = 0;
    let mut taken = 0;
    for place in 0..64 {
        let chosen = bit_at(mask, place);
        spread |= (chosen * bit_at(s, taken)) << place;
        taken += chosen;
    }
    spread
}

/// The bits of `s` where the mask has ones, in order, at the right.
pub fn pextd_of(s: u64, mask: u64) -> u64
    ensures { result ≡ pextd_of s mask }
{
    let mut gathered = 0;
    let mut taken = 0;
    for place in 0..64 {
        let chosen = bit_at(mask, place);
        gathered |= (chosen * bit_at(s, place)) << taken;
        taken += chosen;
    }
    gathered
}

/// The bits of `s` where the mask has zeros, in order, and to their right the others, in order.
pub fn cfuged_of(s: u64, mask: u64) -> u64
    ensures { result ≡ cfuged_of s mask }
{
    let ones = u64::from(mask.count_ones());
    shifted_left(pextd_of(s, !mask), ones) | pextd_of(s, mask)
}

/// The bit with this number, counted from the left, and 0 where there is none.
fn numbered_bit(x: u64, number: u64) -> u64
    ensures value { result ≡ numbered_bit x number }
    ensures bit { result < 2 }
{
    if number < 64 {
        bit_at(x, 63 - number)
    } else {
        0
    }
}

/// The eight bits of `b` whose numbers, counted from the left, the bytes of `s` have, in order, at the
/// right. A number of 64 or more gives 0.
pub fn bpermd_of(s: u64, b: u64) -> u64
    ensures { result ≡ bpermd_of s b }
{
    let mut bits = 0;
    for place in 0..8 {
        bits |= numbered_bit(b, u64::from(byte_at(s, place))) << place;
    }
    bits
}

/// A byte of ones where the bytes are equal, else of zeros.
fn equality_of(x: u8, y: u8) -> u8
    ensures { result ≡ equality_of x y }
{
    if x == y { 0xff } else { 0 }
}

/// Ones in each byte in which both numbers agree, and zeros in the others.
pub fn cmpb_of(s: u64, b: u64) -> u64
    ensures { result ≡ cmpb_of s b }
{
    let mut agreed = 0;
    for place in 0..8 {
        agreed |= u64::from(equality_of(byte_at(s, place), byte_at(b, place))) << (8 * place);
    }
    agreed
}
