ghost use Rattle.std.specs.Prelude.{◌≡◌, ◌<◌, ◌≤◌};
ghost use Rattle.mw_isa.specs.Condition.{byte_at, compare_field, cr_bit, cr_field, flags_field, has_byte, is_below, is_between, is_in_range, logic_of, match_field, order_field, plain_part, signed_part, with_bit};

use mw_bits::sext;
use mw_isa::{BitLogic, XerBits};

/// A bit of the condition register, counted from the left of 32.
pub fn cr_bit(cr: u32, number: u8) -> bool
    requires { number < 32 }
    ensures { result ≡ cr_bit cr number }
{
    (cr >> (31 - number)) % 2 == 1
}

/// A field of the condition register, counted from the left of eight, or of the low word of a number.
pub fn cr_field(cr: u64, number: u8) -> u64
    requires { number < 8 }
    ensures value { result ≡ cr_field cr number }
    ensures bound { result < 16 }
{
    (cr >> (28 - 4 * number)) % 16
}

/// Four bits with another one at a place, counted from the left.
pub fn with_bit(digit: u64, place: u8, bit: bool) -> u64
    requires place { place < 4 }
    requires digit { digit < 16 }
    ensures { result ≡ with_bit digit place bit }
{
    let low = 1 << (3 - place);
    ((digit >> (4 - place)) * 2 + u64::from(bit)) * low + digit % low
}

/// A number as a comparison reads it as signed: whole, or its low word with its sign.
fn signed_part(long: bool, number: u64) -> i64
    ensures { result ≡ signed_part long number }
{
    let part = if long { number } else { sext(number, 32) };
    part.cast_signed()
}

/// A number as a comparison reads it as unsigned: whole, or its low word.
pub fn plain_part(long: bool, number: u64) -> u64
    ensures { result ≡ plain_part long number }
{
    if long { number } else { number % 0x1_0000_0000 }
}

/// Whether one number is less than another (Book I, fixed-point compare instructions).
pub fn is_below(signed: bool, long: bool, x: u64, y: u64) -> bool
    ensures { result ≡ is_below signed long x y }
{
    if signed {
        signed_part(long, x) < signed_part(long, y)
    } else {
        plain_part(long, x) < plain_part(long, y)
    }
}

/// LT, GT or EQ as the value of a field.
fn order_field(less: bool, greater: bool) -> u64
    ensures value { result ≡ order_field less greater }
    ensures bound { result ≤ 8 }
{
    if less {
        8
    } else if greater {
        4
    } else {
        2
    }
}

/// How one number stands to another, and SO (Book I, fixed-point compare instructions).
pub fn compare_field(signed: bool, long: bool, x: u64, y: u64, so: bool) -> u64
    ensures { result ≡ compare_field signed long x y so }
{
    order_field(is_below(signed, long, x, y), is_below(signed, long, y, x)) + u64::from(so)
}

/// A byte of a number, counted from the right.
fn byte_at(number: u64, place: u8) -> u64
    requires { place < 8 }
    ensures { result ≡ byte_at number place }
{
    (number >> (8 * place)) % 256
}

/// Whether a byte lies between two others that stand side by side, the lower one to the right.
fn is_between(x: u64, bounds: u64, place: u8) -> bool
    requires { place < 7 }
    ensures { result ≡ is_between x bounds place }
{
    byte_at(bounds, place) <= x && x <= byte_at(bounds, place + 1)
}

/// Whether the low byte of a number lies in the first range of bytes, or where two are asked in the second.
pub fn is_in_range(two: bool, x: u64, bounds: u64) -> bool
    ensures { result ≡ is_in_range two x bounds }
{
    let low = byte_at(x, 0);
    is_between(low, bounds, 0) || (two && is_between(low, bounds, 2))
}

/// Whether the low byte of a number is one of another's.
pub fn has_byte(x: u64, bytes: u64) -> bool
    ensures { result ≡ has_byte x bytes 8 }
{
    let low = byte_at(x, 0);
    let mut found = false;
    for place in 0..8u8 {
        found = found || low == byte_at(bytes, place);
    }
    found
}

/// What a field gets of a match: its second bit.
pub fn match_field(found: bool) -> u64
    ensures { result ≡ match_field found }
{
    if found { 4 } else { 0 }
}

/// What a field gets of XER: OV, OV32, CA and CA32.
pub fn flags_field(bits: XerBits) -> u64
    ensures { result ≡ flags_field bits }
{
    u64::from(bits.ov) * 8
        + u64::from(bits.ov32) * 4
        + u64::from(bits.ca) * 2
        + u64::from(bits.ca32)
}

/// What is made of two bits (Book I, condition register logical instructions).
pub fn logic_of(logic: BitLogic, a: bool, b: bool) -> bool
    ensures { result ≡ logic_of logic a b }
{
    match logic {
        BitLogic::Crnor => !(a || b),
        BitLogic::Crandc => a && !b,
        BitLogic::Crxor => { if a { !b } else { b } }
        BitLogic::Crnand => !(a && b),
        BitLogic::Crand => a && b,
        BitLogic::Creqv => { if a { b } else { !b } }
        BitLogic::Crorc => a || !b,
        BitLogic::Cror => a || b,
    }
}
