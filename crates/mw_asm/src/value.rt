ghost use Rattle.std.specs.Prelude.{◌≡◌, ◌+◌, ◌-◌, ◌^◌, ◌<◌, ◌≤ℤ◌, ◌<ℤ◌, pos, neg_ℤ, if◌then◌else◌, IsTrue, IfSome};
ghost use Rattle.std.specs.Int.{w64, cast_unsigned};
ghost use Rattle.mw_tables.specs.Layouts.{is_readable};
ghost use Rattle.mw_asm.specs.Values.{part_of, base_value, sum_value, value_of, label_column, displacement_of, converted, fits_field, if_fits};
ghost use Rattle.mw_syntax.specs.Bounds.{IsPart, IsBase};
ghost use Rattle.mw_asm.specs.Sizes.{IsSmall};

use crate::labels::Labels;
use mw_syntax::{Addend, Base, Expression, Kind};
use mw_tables::{Field, is_in_field};

/// The bytes of a line from a place to another.
pub(crate) fn part_of<'a>(line: &'a [u8], from: u32, to: u32) -> &'a [u8]
    requires { IsPart line.now from to }
    ensures { result.now ≡ part_of line.now from to }
{
    &line[from as usize..to as usize]
}

/// What a base is worth at an address, if its label is known.
fn base_value(labels: &Labels, at: u32, line: &[u8], base: Base) -> Option<i128>
    requires { IsBase line.now base }
    ensures value { result ≡ base_value labels.now at line.now base }
    ensures small { IfSome result (IsSmall (2 ^ 64)) }
{
    match base {
        Base::Number(number) => Some(i128::from(number)),
        Base::Negative(number) => Some(-i128::from(number)),
        Base::Name { from, to } => match labels.address_of(part_of(line, from, to)) {
            Some(address) => Some(i128::from(address)),
            None => None,
        },
        Base::Here => Some(i128::from(at)),
    }
}

/// A value with what stands behind it; the sum is exact.
fn sum_value(addend: Addend, value: i128) -> i128
    requires { IsSmall (2 ^ 64) value }
    ensures value { result ≡ sum_value addend value }
    ensures small { IsSmall (2 ^ 65) result }
{
    match addend {
        Addend::Nothing => value,
        Addend::Plus(number) => value + i128::from(number),
        Addend::Minus(number) => value - i128::from(number),
    }
}

/// What an expression is worth at an address, if its label is known.
pub(crate) fn value_of(
    labels: &Labels,
    at: u32,
    line: &[u8],
    expression: Expression,
) -> Option<i128>
    requires { IsBase line.now expression.base }
    ensures value { result ≡ value_of labels.now at line.now expression }
    ensures small { IfSome result (IsSmall (2 ^ 65)) }
{
    match base_value(labels, at, line, expression.base) {
        Some(value) => Some(sum_value(expression.addend, value)),
        None => None,
    }
}

/// The column of the label that an expression begins with, or 0.
pub(crate) fn label_column(base: Base) -> u32
    requires { label_column base < 2 ^ 32 }
    ensures { result ≡ label_column base }
{
    match base {
        Base::Name { from, .. } => from + 1,
        Base::Number(_) | Base::Negative(_) | Base::Here => 0,
    }
}

/// The low 64 bits of a number.
pub(crate) fn low_bits(value: i128) -> u64
    requires low { neg_ℤ (pos (2 ^ 64)) ≤ℤ value }
    requires high { value <ℤ pos (2 ^ 64) }
    ensures { result ≡ cast_unsigned w64 value }
{
    if value < 0 {
        (value + 0x1_0000_0000_0000_0000) as u64
    } else {
        value as u64
    }
}

/// The address that a target counts from: the statement's, or 0 with AA.
fn origin(absolute: bool, at: u32) -> u32
    ensures { result ≡ (if absolute then 0 else at) }
{
    if absolute { 0 } else { at }
}

/// A target as a displacement, which wraps at 2^64: from the statement's address, or from 0 with AA.
fn displacement_of(absolute: bool, at: u32, value: i128) -> i64
    requires low { neg_ℤ (pos (2 ^ 63)) ≤ℤ value }
    requires high { value <ℤ pos (2 ^ 64) }
    ensures { result ≡ displacement_of absolute at value }
{
    low_bits(value - i128::from(origin(absolute, at))).cast_signed()
}

/// What an operand's value becomes, unless it is out of range by itself.
pub(crate) fn converted(kind: Kind, absolute: bool, at: u32, value: i128) -> Option<i128>
    ensures { result ≡ converted kind absolute at value }
{
    match kind {
        Kind::Target => {
            if -0x8000_0000_0000_0000 <= value && value < 0x1_0000_0000_0000_0000 {
                Some(i128::from(displacement_of(absolute, at, value)))
            } else {
                None
            }
        }
        Kind::Upper => Some(if 32768 <= value && value < 65536 {
            value - 65536
        } else {
            value
        }),
        Kind::Register | Kind::Value => Some(value),
    }
}

/// Whether the field can hold the operand.
fn fits_field(field: &Field, operand: i128) -> bool
    requires { IsTrue (is_readable field.now) }
    ensures { result ≡ fits_field field.now operand }
{
    match i64::try_from(operand) {
        Ok(operand) => is_in_field(operand, field),
        Err(_) => false,
    }
}

/// An operand that the field can hold, or nothing.
pub(crate) fn if_fits(field: &Field, operand: Option<i128>) -> Option<i64>
    requires { IsTrue (is_readable field.now) }
    ensures { result ≡ if_fits field.now operand }
{
    match operand {
        Some(operand) => {
            if fits_field(field, operand) {
                Some(operand as i64)
            } else {
                None
            }
        }
        None => None,
    }
}
