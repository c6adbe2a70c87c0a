ghost use Rattle.std.specs.Prelude.{◌≡◌, ◌≤◌, unsigned_abs};
ghost use Rattle.mw_muldiv.specs.Division.{bits_of, dividend_of, divisor_of, fits, settled};
ghost use Rattle.mw_muldiv.specs.DivInside.{is_negative, ones_of, outcome_of, signed_of};

use crate::numbers::{DivKind, DivOut, Wide128, number_of};
use crate::steps::Partial;

/// The dividend as a number, without its sign.
pub fn dividend_size(kind: DivKind, dividend: Wide128) -> u128
    ensures { result ≡ unsigned_abs (dividend_of kind dividend) }
{
    match kind {
        DivKind::Signed64 => number_of(dividend).cast_signed().unsigned_abs(),
        DivKind::Unsigned64 => number_of(dividend),
        DivKind::Signed32 => u128::from(dividend.low.cast_signed().unsigned_abs()),
        DivKind::Unsigned32 => u128::from(dividend.low),
    }
}

/// The divisor as a number, without its sign.
pub fn divisor_size(kind: DivKind, divisor: u64) -> u64
    ensures { result ≡ unsigned_abs (divisor_of kind divisor) }
{
    let low = (divisor & 0xffff_ffff) as u32;
    match kind {
        DivKind::Signed64 => divisor.cast_signed().unsigned_abs(),
        DivKind::Unsigned64 => divisor,
        DivKind::Signed32 => u64::from(low.cast_signed().unsigned_abs()),
        DivKind::Unsigned32 => u64::from(low),
    }
}

/// Whether the dividend is below 0.
fn is_dividend_negative(kind: DivKind, dividend: Wide128) -> bool
    ensures { result ≡ is_negative (dividend_of kind dividend) }
{
    match kind {
        DivKind::Signed64 => dividend.high >= 0x8000_0000_0000_0000,
        DivKind::Signed32 => dividend.low >= 0x8000_0000_0000_0000,
        DivKind::Unsigned64 | DivKind::Unsigned32 => false,
    }
}

/// Whether the divisor is below 0.
fn is_divisor_negative(kind: DivKind, divisor: u64) -> bool
    ensures { result ≡ is_negative (divisor_of kind divisor) }
{
    match kind {
        DivKind::Signed64 => divisor >= 0x8000_0000_0000_0000,
        DivKind::Signed32 => divisor & 0xffff_ffff >= 0x8000_0000,
        DivKind::Unsigned64 | DivKind::Unsigned32 => false,
    }
}

/// All bits that the kind's results have.
fn ones_of(kind: DivKind) -> u64
    ensures { result ≡ ones_of kind }
{
    match kind {
        DivKind::Signed64 | DivKind::Unsigned64 => 0xffff_ffff_ffff_ffff,
        DivKind::Signed32 | DivKind::Unsigned32 => 0xffff_ffff,
    }
}

/// Whether a quotient of this sign and size fits.
fn fits(kind: DivKind, negative: bool, size: u64) -> bool
    ensures { result ≡ fits kind (signed_of negative size) }
{
    match (kind, negative) {
        (DivKind::Signed64, false) => size <= 0x7fff_ffff_ffff_ffff,
        (DivKind::Signed64, true) => size <= 0x8000_0000_0000_0000,
        (DivKind::Signed32, false) => size <= 0x7fff_ffff,
        (DivKind::Signed32, true) => size <= 0x8000_0000,
        (DivKind::Unsigned64, false) => true,
        (DivKind::Unsigned32, false) => size <= 0xffff_ffff,
        (DivKind::Unsigned64 | DivKind::Unsigned32, true) => size == 0,
    }
}

/// A number with this sign in the kind's bits.
fn bits_of(kind: DivKind, negative: bool, size: u64) -> u64
    requires { size ≤ ones_of kind }
    ensures { result ≡ bits_of kind (signed_of negative size) }
{
    if negative {
        size.wrapping_neg() & ones_of(kind)
    } else {
        size
    }
}

/// Quotient and rest with the quotient's and the dividend's sign, if the quotient fits.
fn settled(kind: DivKind, quotient_negative: bool, negative: bool, so_far: Partial) -> DivOut
    requires { so_far.rest ≤ ones_of kind }
    ensures { result ≡ settled kind (signed_of quotient_negative so_far.low) (signed_of negative so_far.rest) }
{
    if fits(kind, quotient_negative, so_far.low) {
        DivOut::Done {
            quotient: bits_of(kind, quotient_negative, so_far.low),
            rest: bits_of(kind, negative, so_far.rest),
        }
    } else {
        DivOut::NoQuotient
    }
}

/// What the division comes to once all bits were taken: the rest has the dividend's sign, and where it isn't
/// below the divisor there is no quotient of 64 bits.
pub fn outcome_of(kind: DivKind, dividend: Wide128, divisor: u64, so_far: Partial) -> DivOut
    ensures { result ≡ outcome_of kind dividend divisor so_far }
{
    if so_far.rest >= divisor_size(kind, divisor) {
        return DivOut::NoQuotient;
    }
    let negative = is_dividend_negative(kind, dividend);
    let quotient_negative = negative != is_divisor_negative(kind, divisor);
    settled(kind, quotient_negative, negative, so_far)
}
