ghost use Rattle.std.specs.Prelude.{◌≡◌, ◌+◌, ◌-◌, ◌*◌, ◌%◌, ◌^◌, ◌<◌, ◌≤◌, ◌++◌, pos, ◌≤ℤ◌, unsigned_abs, Ok, Err, All, IfOk, IfErr, IfSome, OnOk, length, replicate};
ghost use Rattle.std.specs.Option.{option_map_or};
ghost use Rattle.mw_asm.specs.Assembled.{image_limit, statement_bytes};
ghost use Rattle.mw_asm.specs.Passes.{IsInside};
ghost use Rattle.mw_syntax.specs.Bounds.{IsExpression, IsStatement};
ghost use Rattle.mw_asm.specs.Faults.{IsAdded};
ghost use Rattle.mw_asm.specs.Values.{data_bytes, fits_unit, unit_bytes, unit_size, value_by, value_of};

use crate::instruction::add_instruction;
use crate::labels::Labels;
use crate::value::{label_column, low_bits, value_of};
use mw_bits::Bytes;
use mw_syntax::{Expression, LineFault, Refusal, Statement, Unit, What};
use std::alloc::AllocError as NoMemory;

/// Whether a unit can hold the value, signed or unsigned.
fn fits_unit(unit: Unit, value: i128) -> bool
    ensures { result ≡ fits_unit unit value }
{
    match unit {
        Unit::Byte => -0x80 <= value && value < 0x100,
        Unit::Long => -0x8000_0000 <= value && value < 0x1_0000_0000,
        Unit::Quad | Unit::BigQuad => {
            -0x8000_0000_0000_0000 <= value && value < 0x1_0000_0000_0000_0000
        }
    }
}

/// The number whose low bytes a value of data gives, or its refusal: of its label, then of its range.
fn number_of(
    labels: &Labels,
    at: u32,
    line: &[u8],
    unit: Unit,
    expression: Expression,
) -> Result<u64, Refusal>
    requires short { length line.now < 2 ^ 32 - 1 }
    requires is { IsExpression line.now expression }
    ensures ok { IfOk result
        (λ number. value_by unit expression (value_of labels.now at line.now expression)
        ≡ Ok (unit_bytes unit (number % 2 ^ (8 * unit_size unit)))) }
    ensures err { IfErr result
        (λ refusal. value_by unit expression (value_of labels.now at line.now expression) ≡ Err refusal) }
{
    match value_of(labels, at, line, expression) {
        Some(value) => {
            if fits_unit(unit, value) {
                Ok(low_bits(value))
            } else {
                Err(Refusal {
                    column: expression.column,
                    what: What::Range,
                })
            }
        }
        None => Err(Refusal {
            column: label_column(expression.base),
            what: What::Label,
        }),
    }
}

/// Appends the low bytes of a number as a unit.
fn add_unit(image: &mut Bytes, unit: Unit, number: u64) -> Result<(), NoMemory>
    ensures { OnOk result (image.new ≡ image.old ++ unit_bytes unit (number % 2 ^ (8 * unit_size unit))) }
{
    match unit {
        Unit::Byte => image.add(&[(number % 0x100) as u8]),
        Unit::Long => image.add(&((number % 0x1_0000_0000) as u32).to_le_bytes()),
        Unit::Quad => image.add(&number.to_le_bytes()),
        Unit::BigQuad => image.add(&number.to_be_bytes()),
    }
}

/// Appends data of the line at an address, up to the first value that is refused.
fn add_data(
    image: &mut Bytes,
    labels: &Labels,
    at: u32,
    line: &[u8],
    unit: Unit,
    values: &[Expression],
) -> Result<(), LineFault>
    requires short { length line.now < 2 ^ 32 - 1 }
    requires each { All (IsExpression line.now) values.now }
    ensures { IsAdded result image.old image.new (data_bytes labels.now at line.now unit values.now) }
{
    for value in values {
        match number_of(labels, at, line, unit, *value) {
            Ok(number) => match add_unit(image, unit, number) {
                Ok(()) => {}
                Err(_) => return Err(LineFault::NoMemory),
            },
            Err(refusal) => return Err(LineFault::Refused(refusal)),
        }
    }
    Ok(())
}

/// How many zeros are appended at once.
const AT_ONCE: usize = 256;

static ZEROS: [u8; AT_ONCE] = [0; AT_ONCE];

/// A slice of so many zeros.
fn zeros(count: usize) -> &'static [u8]
    requires { count ≤ AT_ONCE }
    ensures { result.now ≡ replicate count 0 }
{
    &ZEROS[..count]
}

/// Appends zeros.
fn add_zeros(image: &mut Bytes, count: u32) -> Result<(), NoMemory>
    ensures { OnOk result (image.new ≡ image.old ++ replicate count 0) }
{
    let mut left = count as usize;
    while left > 0 {
        let piece = left.min(AT_ONCE);
        image.add(zeros(piece))?;
        left -= piece;
    }
    Ok(())
}

/// Appends the zeros that `.org` leaves, from an address up to the value of its expression.
fn add_gap(
    image: &mut Bytes,
    labels: &Labels,
    at: u32,
    line: &[u8],
    to: Expression,
) -> Result<(), LineFault>
    requires is { IsExpression line.now to }
    requires inside { IfSome (value_of labels.now at line.now to)
        (λ value. (pos 0 ≤ℤ value) × (value ≤ℤ pos image_limit)) }
    ensures { IsAdded result image.old image.new
        (Ok (replicate (option_map_or unsigned_abs (value_of labels.now at line.now to) at - at) 0)) }
{
    let count = match value_of(labels, at, line, to) {
        Some(value) => (value as u32).saturating_sub(at),
        None => 0,
    };
    match add_zeros(image, count) {
        Ok(()) => Ok(()),
        Err(_) => Err(LineFault::NoMemory),
    }
}

/// Appends the bytes of a statement of the line at an address.
pub(crate) fn add_statement(
    image: &mut Bytes,
    labels: &Labels,
    at: u32,
    line: &[u8],
    statement: &Statement,
) -> Result<(), LineFault>
    requires short { length line.now < 2 ^ 32 - 1 }
    requires is { IsStatement line.now statement.now }
    requires inside { IsInside labels.now at line.now statement.now }
    ensures { IsAdded result image.old image.new (statement_bytes labels.now at line.now statement.now) }
{
    match statement {
        Statement::Nothing => Ok(()),
        Statement::Org { to, .. } => add_gap(image, labels, at, line, *to),
        Statement::Data { unit, values, .. } => {
            add_data(image, labels, at, line, *unit, values.as_slice())
        }
        Statement::Instruction {
            name,
            mnemonic,
            operands,
        } => add_instruction(
            image,
            labels,
            at,
            line,
            *name,
            *mnemonic,
            operands.as_slice(),
        ),
    }
}
