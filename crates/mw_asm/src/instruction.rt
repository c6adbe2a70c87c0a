ghost use Rattle.std.specs.Prelude.{◌≡◌, ◌+◌, ◌-◌, ◌^◌, ◌<◌, ◌≤◌, ◌++◌, Some, Ok, Err, All, IfOk, IfErr, IsTrue, OnOk, length, slice_get};
ghost use Rattle.std.specs.List.{list_all};
ghost use Rattle.mw_tables.specs.Rows.{row_count};
ghost use Rattle.mw_tables.specs.Layouts.{is_readable};
ghost use Rattle.mw_syntax.specs.Bounds.{IsExpression, IsInstruction};
ghost use Rattle.mw_asm.specs.Faults.{IsAdded};
ghost use Rattle.mw_syntax.specs.Items.{kinds_of, pattern_items};
ghost use Rattle.mw_syntax.specs.Lines.{shape_at};
ghost use Rattle.mw_asm.specs.Sizes.{IsWritten};
ghost use Rattle.mw_asm.specs.Values.{code_bytes, fields_at, filled, insn_of, instruction_bytes, operand_by, operands_of, value_of, written_fields};

use crate::labels::Labels;
use crate::value::{converted, if_fits, label_column, value_of};
use arrayvec::ArrayVec;
use mw_bits::Bytes;
use mw_decode::{Code, Insn, encode, is_illegal_form};
use mw_syntax::{
    Expression, Item, Kind, LineFault, Mnemonic, Pattern, Refusal, What, pattern_items, shape_at,
};
use mw_tables::{Field, fields_of, layout_at};
use std::alloc::AllocError as NoMemory;

/// The operand that an expression stands for in a field, or its refusal: of its label, then of its range.
fn operand_by(
    labels: &Labels,
    at: u32,
    line: &[u8],
    absolute: bool,
    expression: Expression,
    kind: Kind,
    field: &Field,
) -> Result<i64, Refusal>
    requires short { length line.now < 2 ^ 32 - 1 }
    requires is { IsExpression line.now expression }
    requires readable { IsTrue (is_readable field.now) }
    ensures { result
        ≡ operand_by expression kind field.now absolute at (value_of labels.now at line.now expression) }
{
    match value_of(labels, at, line, expression) {
        Some(value) => match if_fits(field, converted(kind, absolute, at, value)) {
            Some(operand) => Ok(operand),
            None => Err(Refusal {
                column: expression.column,
                what: What::Range,
            }),
        },
        None => Err(Refusal {
            column: label_column(expression.base),
            what: What::Label,
        }),
    }
}

/// The kinds of the operands among items.
fn kinds_of(items: &[Item]) -> ArrayVec<Kind, 6>
    requires { length (kinds_of items.now) ≤ 6 }
    ensures { result.items ≡ kinds_of items.now }
{
    let mut kinds = ArrayVec::new();
    for item in items {
        if let Item::Operand(kind) = item {
            kinds.push(*kind);
        }
    }
    kinds
}

/// The field of the operand that is written at a place.
fn written_field<'a>(pattern: Pattern, fields: &'a [Field], place: usize) -> &'a Field
    requires { place < length (written_fields pattern fields.now) }
    ensures { slice_get (written_fields pattern fields.now) place ≡ Some result.now }
{
    match pattern {
        Pattern::Li | Pattern::Lis => {
            if place == 0 {
                &fields[0]
            } else {
                &fields[place + 1]
            }
        }
        Pattern::Row
        | Pattern::Mr
        | Pattern::Nop
        | Pattern::Always
        | Pattern::Light
        | Pattern::Tables => &fields[place],
    }
}

/// The operands that are written, from left to right, or the first refusal.
fn written_operands(
    labels: &Labels,
    at: u32,
    line: &[u8],
    absolute: bool,
    expressions: &[Expression],
    kinds: &[Kind],
    pattern: Pattern,
    fields: &[Field],
) -> Result<ArrayVec<i64, 6>, Refusal>
    requires short { length line.now < 2 ^ 32 - 1 }
    requires each { All (IsExpression line.now) expressions.now }
    requires readable { IsTrue (list_all is_readable fields.now) }
    requires kinds { length expressions.now ≡ length kinds.now }
    requires fields { length kinds.now ≡ length (written_fields pattern fields.now) }
    requires few { length kinds.now ≤ 6 }
    ensures ok { IfOk result
        (λ operands. operands_of labels.now at line.now absolute expressions.now kinds.now (written_fields pattern fields.now)
        ≡ Ok operands.items) }
    ensures err { IfErr result
        (λ refusal. operands_of labels.now at line.now absolute expressions.now kinds.now (written_fields pattern fields.now)
        ≡ Err refusal) }
{
    let mut operands = ArrayVec::new();
    for (place, expression) in expressions.iter().enumerate() {
        let field = written_field(pattern, fields, place);
        let operand = operand_by(labels, at, line, absolute, *expression, kinds[place], field)?;
        operands.push(operand);
    }
    Ok(operands)
}

/// A list of these operands.
fn listed(operands: &[i64]) -> ArrayVec<i64, 6>
    requires { length operands.now ≤ 6 }
    ensures { result.items ≡ operands.now }
{
    let mut list = ArrayVec::new();
    for operand in operands {
        list.push(*operand);
    }
    list
}

/// The operands of the row, from those that are written.
fn filled(pattern: Pattern, written: ArrayVec<i64, 6>) -> ArrayVec<i64, 6>
    requires { IsWritten pattern (length written.items) }
    ensures { result.items ≡ filled pattern written.items }
{
    match pattern {
        Pattern::Row => written,
        Pattern::Li | Pattern::Lis => listed(&[written[0], 0, written[1]]),
        Pattern::Mr => listed(&[written[0], written[1], written[1]]),
        Pattern::Nop => listed(&[0, 0, 0]),
        Pattern::Always => listed(&[20, 0, 0]),
        Pattern::Light => listed(&[1]),
        Pattern::Tables => listed(&[2]),
    }
}

/// The kinds of the operands that are written for a mnemonic.
fn kinds_for(mnemonic: Mnemonic) -> ArrayVec<Kind, 6>
    ensures { result.items ≡ kinds_of (pattern_items mnemonic.pattern (shape_at mnemonic.row)) }
{
    kinds_of(pattern_items(mnemonic.pattern, shape_at(mnemonic.row)))
}

/// Where the operands of the row at a place stand.
fn fields_at(place: u16) -> &'static [Field]
    requires { place < row_count }
    ensures value { result.now ≡ fields_at place }
    ensures readable { IsTrue (list_all is_readable result.now) }
{
    fields_of(layout_at(place))
}

/// The instruction of a mnemonic with the operands that are written.
fn insn_of(mnemonic: Mnemonic, written: ArrayVec<i64, 6>) -> Insn
    requires { IsWritten mnemonic.pattern (length written.items) }
    ensures { result ≡ insn_of mnemonic written.items }
{
    Insn {
        row: mnemonic.row,
        ops: filled(mnemonic.pattern, written),
        oe: mnemonic.oe,
        rc: mnemonic.rc,
        aa: mnemonic.aa,
        lk: mnemonic.lk,
    }
}

/// The words of an instruction of the line, whose name stands at a column, at an address; or the first
/// refusal of its operands; or that of an illegal form, at its name.
fn code_of(
    labels: &Labels,
    at: u32,
    line: &[u8],
    name: u32,
    mnemonic: Mnemonic,
    expressions: &[Expression],
) -> Result<Code, Refusal>
    requires short { length line.now < 2 ^ 32 - 1 }
    requires is { IsInstruction line.now name mnemonic expressions.now }
    ensures ok { IfOk result
        (λ code. instruction_bytes labels.now at line.now name mnemonic expressions.now ≡ Ok (code_bytes code)) }
    ensures err { IfErr result
        (λ refusal. instruction_bytes labels.now at line.now name mnemonic expressions.now ≡ Err refusal) }
{
    let kinds = kinds_for(mnemonic);
    let fields = fields_at(mnemonic.row);
    let written = written_operands(
        labels,
        at,
        line,
        mnemonic.aa,
        expressions,
        kinds.as_slice(),
        mnemonic.pattern,
        fields,
    )?;
    let insn = insn_of(mnemonic, written);
    if is_illegal_form(insn.row, insn.ops.as_slice()) {
        return Err(Refusal {
            column: name,
            what: What::Range,
        });
    }
    Ok(encode(&insn))
}

/// Appends the words of an instruction, the least significant byte of each first.
fn add_code(image: &mut Bytes, code: Code) -> Result<(), NoMemory>
    ensures { OnOk result (image.new ≡ image.old ++ code_bytes code) }
{
    image.add(&code.word.to_le_bytes())?;
    if let Some(suffix) = code.suffix {
        image.add(&suffix.to_le_bytes())?;
    }
    Ok(())
}

/// Appends an instruction of the line, whose name stands at a column, at an address.
pub(crate) fn add_instruction(
    image: &mut Bytes,
    labels: &Labels,
    at: u32,
    line: &[u8],
    name: u32,
    mnemonic: Mnemonic,
    expressions: &[Expression],
) -> Result<(), LineFault>
    requires short { length line.now < 2 ^ 32 - 1 }
    requires is { IsInstruction line.now name mnemonic expressions.now }
    ensures { IsAdded result image.old image.new
        (instruction_bytes labels.now at line.now name mnemonic expressions.now) }
{
    match code_of(labels, at, line, name, mnemonic, expressions) {
        Ok(code) => match add_code(image, code) {
            Ok(()) => Ok(()),
            Err(_) => Err(LineFault::NoMemory),
        },
        Err(refusal) => Err(LineFault::Refused(refusal)),
    }
}
