ghost use Rattle.std.specs.Prelude.{◌≡◌, ◌+◌, ◌*◌, ◌-◌, ◌/◌, ◌%◌, ◌^◌, ◌<◌, ◌↔◌, IsTrue};
ghost use Rattle.mw_tables.specs.Layouts.{InRange, bits_from, code_with, gathered, is_readable, is_within, operand_from, operand_in, pieces_of, scattered, signed_of, slot, width_of};

use crate::layout::{Field, Piece};

/// The number with ones in its low `width` bits.
fn ones(width: u32) -> u64
    requires { width < 64 }
    ensures { result ≡ 2 ^ width - 1 }
{
    (1 << width) - 1
}

/// The number in a piece of a code.
fn slot(code: u64, piece: Piece) -> u64
    requires { IsTrue (is_within piece) }
    ensures { result ≡ slot code piece }
{
    (code >> piece.low) & ones(piece.width)
}

/// The low bits of a number, moved to a piece of a code that is 0 elsewhere.
fn placed(number: u64, piece: Piece) -> u64
    requires { IsTrue (is_within piece) }
    ensures { result ≡ number % 2 ^ piece.width * 2 ^ piece.low }
{
    (number & ones(piece.width)) << piece.low
}

/// How many bits a field has.
fn width_of(field: &Field) -> u32
    requires { IsTrue (is_readable field.now) }
    ensures { result ≡ width_of field.now }
{
    field.low.width + (field.middle.width + field.high.width)
}

/// The number in the pieces of a field.
fn gathered(code: u64, field: &Field) -> u64
    requires { IsTrue (is_readable field.now) }
    ensures value { result ≡ gathered code (pieces_of field.now) }
    ensures bound { result < 2 ^ width_of field.now }
{
    let low = slot(code, field.low);
    let middle = slot(code, field.middle);
    let high = slot(code, field.high);
    low | (middle | high << field.middle.width) << field.low.width
}

/// A code with a number in the pieces of a field, and 0 elsewhere.
fn scattered(number: u64, field: &Field) -> u64
    requires { IsTrue (is_readable field.now) }
    ensures { result ≡ scattered number (pieces_of field.now) }
{
    let above_low = number >> field.low.width;
    let above_middle = above_low >> field.middle.width;
    let low = placed(number, field.low);
    let middle = placed(above_low, field.middle);
    let high = placed(above_middle, field.high);
    low | (middle | high)
}

/// A number of `width` bits, read as a signed one.
fn signed_of(number: u64, width: u32) -> i64
    requires narrow { width < 63 }
    requires fits { number < 2 ^ width }
    ensures { result ≡ signed_of width number }
{
    if number < 1 << width.saturating_sub(1) {
        number as i64
    } else {
        number as i64 - (1 << width)
    }
}

/// The operand that the bits of a field stand for.
fn operand_from(bits: u64, field: &Field) -> i64
    requires readable { IsTrue (is_readable field.now) }
    requires fits { bits < 2 ^ width_of field.now }
    ensures { result ≡ operand_from field.now bits }
{
    let number = bits << field.shift;
    if field.signed {
        signed_of(number, width_of(field) + field.shift)
    } else {
        number as i64
    }
}

/// The bits of a field that stand for an operand; of one that is out of range, its low bits.
fn bits_from(operand: i64, field: &Field) -> u64
    requires { IsTrue (is_readable field.now) }
    ensures value { result ≡ bits_from field.now operand }
    ensures bound { result < 2 ^ width_of field.now }
{
    (operand.cast_unsigned() >> field.shift) & ones(width_of(field))
}

/// The operand that `code` has in a field: a word, or a prefix times 2^32 and a suffix.
pub fn operand_in(code: u64, field: &Field) -> i64
    requires { IsTrue (is_readable field.now) }
    ensures { result ≡ operand_in code field.now }
{
    operand_from(gathered(code, field), field)
}

/// A code that has the operand in a field, and 0 elsewhere. Of an operand that is out of range it has
/// the low bits.
pub fn code_with(operand: i64, field: &Field) -> u64
    requires { IsTrue (is_readable field.now) }
    ensures { result ≡ code_with field.now operand }
{
    scattered(bits_from(operand, field), field)
}

/// Whether a field can hold the operand: it lies between the lowest and the highest, and is a multiple
/// of 4 where the field leaves two bits out.
pub fn is_in_field(operand: i64, field: &Field) -> bool
    requires { IsTrue (is_readable field.now) }
    ensures { IsTrue result ↔ InRange field.now operand }
{
    operand_from(bits_from(operand, field), field) == operand
}
