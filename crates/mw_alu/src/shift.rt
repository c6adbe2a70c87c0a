ghost use Rattle.std.specs.Prelude.{◌≡◌, ◌*◌, ◌/◌, ◌%◌, ◌^◌};
ghost use Rattle.std.specs.Int.{cast_unsigned, int_shr, w64};
ghost use Rattle.mw_bits.specs.Fields.{sext_of};
ghost use Rattle.mw_alu.specs.Bits.{carried, loses_ones, signed_right, signed_right_word, valued};

use crate::logic::valued;
use crate::op::AluOut;
use mw_bits::sext;

/// What 64 bits keep of a number that is shifted left: nothing from 64 places on.
#[tactic(auto, using(crate::proofs::ShiftLemmas::shl_out))]
pub fn shifted_left(x: u64, places: u64) -> u64
    ensures { result ≡ x * 2 ^ places % 2 ^ 64 }
{
    if places < 64 { x << places } else { 0 }
}

/// What is left of a number that is shifted right: nothing from 64 places on.
#[tactic(auto, using(crate::proofs::ShiftLemmas::shr_out))]
pub fn shifted_right(x: u64, places: u64) -> u64
    ensures { result ≡ x / 2 ^ places }
{
    if places < 64 { x >> places } else { 0 }
}

/// What is left of a signed number that is shifted right, in 64 bits: only its sign from 63 places on.
#[tactic(auto, using(crate::proofs::ShiftLemmas::sign_out))]
fn signed_shifted(x: i64, places: u64) -> u64
    ensures { result ≡ cast_unsigned w64 (int_shr x places) }
{
    (x >> places.min(63)).cast_unsigned()
}

/// What a shift to the right takes away of a number: all of it from 64 places on.
#[tactic(auto, using(crate::proofs::ShiftLemmas::low_bits, crate::proofs::ShiftLemmas::all_bits))]
pub fn shifted_out(x: u64, places: u64) -> u64
    ensures { result ≡ x % 2 ^ places }
{
    if places < 64 {
        x & ((1 << places) - 1)
    } else {
        x
    }
}

/// Whether a number with this sign bit is negative and loses a 1 in a shift to the right.
fn loses_ones(sign: u64, x: u64, places: u64) -> bool
    ensures { result ≡ loses_ones sign x places }
{
    sign <= x && 0 < shifted_out(x, places)
}

/// A result with one carry for CA and CA32.
fn carried(value: u64, carry: bool) -> AluOut
    ensures { result ≡ carried value carry }
{
    AluOut {
        value,
        ca: carry,
        ca32: carry,
        ov: false,
        ov32: false,
    }
}

/// A number shifted left (Book I, fixed-point shift instructions).
pub fn left(x: u64, places: u64) -> AluOut
    ensures { result ≡ valued (x * 2 ^ places % 2 ^ 64) }
{
    valued(shifted_left(x, places))
}

/// A number shifted right.
pub fn right(x: u64, places: u64) -> AluOut
    ensures { result ≡ valued (x / 2 ^ places) }
{
    valued(shifted_right(x, places))
}

/// The low word shifted left, in 32 bits.
pub fn left_word(x: u64, places: u64) -> AluOut
    ensures { result ≡ valued (x % 2 ^ 32 * 2 ^ places % 2 ^ 32) }
{
    valued(shifted_left(x % 0x1_0000_0000, places) % 0x1_0000_0000)
}

/// The low word shifted right.
pub fn right_word(x: u64, places: u64) -> AluOut
    ensures { result ≡ valued (x % 2 ^ 32 / 2 ^ places) }
{
    valued(shifted_right(x % 0x1_0000_0000, places))
}

/// A signed number shifted right, with its carry.
pub fn signed_right(x: u64, places: u64) -> AluOut
    ensures { result ≡ signed_right x places }
{
    carried(
        signed_shifted(x.cast_signed(), places),
        loses_ones(0x8000_0000_0000_0000, x, places),
    )
}

/// The signed low word shifted right, with its carry.
pub fn signed_right_word(x: u64, places: u64) -> AluOut
    ensures { result ≡ signed_right_word x places }
{
    let low = (x % 0x1_0000_0000) as u32;
    carried(
        signed_shifted(i64::from(low.cast_signed()), places),
        loses_ones(0x8000_0000, u64::from(low), places),
    )
}

/// The signed low word shifted left, by less than 64 places.
pub fn extended_left(x: u64, places: u64) -> AluOut
    ensures { result ≡ valued (sext_of x 32 * 2 ^ places % 2 ^ 64) }
{
    valued(shifted_left(sext(x, 32), places))
}
