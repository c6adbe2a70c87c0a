ghost use Rattle.std.specs.Prelude.{◌≡◌, ℕ, ◌≤◌, ◌<◌, ◌^◌};
ghost use Rattle.mw_isa.specs.Xer.{bit_at_place, has_bit, xer_bits, xer_of};

/// The bits of the fixed-point exception register.
#[derive(Clone, Copy, Debug, PartialEq, Eq)]
pub struct XerBits {
    /// SO: an overflow has been recorded; it stays.
    pub so: bool,
    /// OV: the result overflowed 64 bits.
    pub ov: bool,
    /// CA: the result carried out of 64 bits.
    pub ca: bool,
    /// OV32: the result overflowed 32 bits.
    pub ov32: bool,
    /// CA32: the result carried out of 32 bits.
    pub ca32: bool,
}

/// The place of SO, counted from the left of 64 bits.
const SO: u32 = 32;
/// The place of OV.
const OV: u32 = 33;
/// The place of CA.
const CA: u32 = 34;
/// The place of OV32.
const OV32: u32 = 44;
/// The place of CA32.
const CA32: u32 = 45;

/// Whether the bit at a place, counted from the left of 64, is 1. It can't fail.
pub fn has_bit(word: u64, place: u32) -> bool
    requires { place ≤ 63 }
    ensures { result ≡ has_bit word place }
{
    (word >> (63 - place)) % 2 == 1
}

/// The bits of the fixed-point exception register (Book I). The others aren't looked at.
pub fn xer_bits(xer: u64) -> XerBits
    ensures { result ≡ xer_bits xer }
{
    XerBits {
        so: has_bit(xer, SO),
        ov: has_bit(xer, OV),
        ca: has_bit(xer, CA),
        ov32: has_bit(xer, OV32),
        ca32: has_bit(xer, CA32),
    }
}

/// A number with a bit at a place alone, or with none.
fn bit_at_place(place: u32, set: bool) -> u64
    requires low { 32 ≤ place }
    requires in_word { place ≤ 63 }
    ensures value { result ≡ bit_at_place place set }
    ensures bound { result < 2 ^ 32 }
{
    if set { 1 << (63 - place) } else { 0 }
}

/// The fixed-point exception register with these bits; all others are 0.
pub fn xer_of(bits: XerBits) -> u64
    ensures { result ≡ xer_of bits }
{
    bit_at_place(SO, bits.so)
        + bit_at_place(OV, bits.ov)
        + bit_at_place(CA, bits.ca)
        + bit_at_place(OV32, bits.ov32)
        + bit_at_place(CA32, bits.ca32)
}
