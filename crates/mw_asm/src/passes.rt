ghost use Rattle.std.specs.Prelude.{◌≡◌, ◌+◌, ◌-◌, ◌^◌, ◌<◌, ◌≤◌, [], ◌∷◌, Ok, Err, IfOk, IfErr, IfSome, length};
ghost use Rattle.std.specs.Option.{option_map_or};
ghost use Rattle.mw_tables.specs.Rows.{row_count};
ghost use Rattle.mw_syntax.specs.Bounds.{IsExpression, IsPart, IsStatement};
ghost use Rattle.mw_asm.specs.Faults.{IsAdded};
ghost use Rattle.mw_asm.specs.Values.{unit_size, value_of};
ghost use Rattle.mw_asm.specs.Assembled.{behind_bytes, behind_statement, code_size, first_line, first_pass, image_limit, lines_of, org_by, second_line, second_pass, source_limit};
ghost use Rattle.mw_asm.specs.Passes.{IfBad, IsLabelled, IsPlaced, LeavesLabels, LiesInside, fault_at, start};

use crate::fault::AsmFault;
use crate::image::add_statement;
use crate::labels::Labels;
use crate::value::{part_of, value_of};
use mw_bits::Bytes;
use mw_syntax::{Expression, Label, LineFault, Refusal, Statement, Unit, What, parse_line};
use mw_tables::{PrefixKind, row_at};
use std::alloc::Global;

/// An image has at most so many bytes.
const IMAGE_LIMIT: u32 = 16_777_216;

/// The bytes before the next line feed, and those behind it, if there is one.
pub(crate) fn cut_line<'a>(text: &'a [u8]) -> (&'a [u8], Option<&'a [u8]>)
    ensures lines { lines_of text.entry.now ≡ result.0.now ∷ option_map_or (λ behind. lines_of behind.now) result.1 [] }
    ensures within { length result.0.now ≤ length text.entry.now }
    ensures shorter { IfSome result.1 (λ behind. length behind.now < length text.entry.now) }
{
    for (place, byte) in text.iter().enumerate() {
        if *byte == b'\n' {
            return (&text[..place], Some(&text[place + 1..]));
        }
    }
    (text, None)
}

/// A fault of the line of this number.
fn fault_at(number: u32, fault: LineFault) -> AsmFault
    ensures { result ≡ fault_at number fault }
{
    match fault {
        LineFault::Refused(refusal) => AsmFault::Bad {
            line: number,
            column: refusal.column,
            what: refusal.what,
        },
        LineFault::NoMemory => AsmFault::NoMemory,
    }
}

/// How many bytes a unit of data has.
fn unit_size(unit: Unit) -> u32
    ensures value { result ≡ unit_size unit }
    ensures small { result ≤ 8 }
{
    match unit {
        Unit::Byte => 1,
        Unit::Long => 4,
        Unit::Quad | Unit::BigQuad => 8,
    }
}

/// How many bytes an instruction has: 8 where its row has a prefix.
fn code_size(row: u16) -> u32
    requires { row < row_count }
    ensures value { result ≡ code_size row }
    ensures small { result ≤ 8 }
{
    match row_at(row).prefix {
        PrefixKind::Plain => 4,
        PrefixKind::Mls | PrefixKind::Eight | PrefixKind::Nop => 8,
    }
}

/// The address behind so many bytes of the statement whose name stands at a column; it lies in the image.
fn behind_bytes(at: u32, name: u32, size: u128) -> Result<u32, Refusal>
    requires { size < 2 ^ 100 }
    ensures value { result ≡ behind_bytes at name size }
    ensures inside { IfOk result (λ next. next ≤ image_limit) }
{
    let next = u128::from(at) + size;
    if next > u128::from(IMAGE_LIMIT) {
        Err(Refusal {
            column: name,
            what: What::TooLong,
        })
    } else {
        Ok(next as u32)
    }
}

/// The address behind `.org`, whose name stands at a column: it is known, it doesn't fall, and it lies in
/// the image.
fn org_by(labels: &Labels, at: u32, line: &[u8], name: u32, to: Expression) -> Result<u32, Refusal>
    requires { IsExpression line.now to }
    ensures value { result ≡ org_by at name to (value_of labels.now at line.now to) }
    ensures inside { IfOk result (λ next. next ≤ image_limit) }
{
    match value_of(labels, at, line, to) {
        Some(value) => {
            if value < i128::from(at) {
                Err(Refusal {
                    column: to.column,
                    what: What::Org,
                })
            } else if value > i128::from(IMAGE_LIMIT) {
                Err(Refusal {
                    column: name,
                    what: What::TooLong,
                })
            } else {
                Ok(value as u32)
            }
        }
        None => Err(Refusal {
            column: to.column,
            what: What::Org,
        }),
    }
}

/// The address behind a statement, by the labels that are known.
fn behind_statement(
    labels: &Labels,
    at: u32,
    line: &[u8],
    statement: &Statement,
) -> Result<u32, Refusal>
    requires is { IsStatement line.now statement.now }
    requires inside { at ≤ image_limit }
    ensures value { result ≡ behind_statement labels.now at line.now statement.now }
    ensures inside { IfOk result (λ next. next ≤ image_limit) }
{
    match statement {
        Statement::Nothing => Ok(at),
        Statement::Org { name, to } => org_by(labels, at, line, *name, *to),
        Statement::Data { name, unit, values } => behind_bytes(
            at,
            *name,
            u128::from(unit_size(*unit)) * values.as_slice().len() as u128,
        ),
        Statement::Instruction { name, mnemonic, .. } => {
            behind_bytes(at, *name, u128::from(code_size(mnemonic.row)))
        }
    }
}

/// Adds the label of a line, unless it is there already.
fn add_label<'a>(
    labels: &mut Labels<'a>,
    at: u32,
    line: &'a [u8],
    label: Option<Label>,
) -> Result<(), LineFault>
    requires { IfSome label (λ l. IsPart line.now l.from l.to) }
    ensures { IsLabelled result labels.old labels.new at line.now label }
{
    let Some(label) = label else {
        return Ok(());
    };
    let name = part_of(line, label.from, label.to);
    if labels.address_of(name).is_some() {
        return Err(LineFault::Refused(Refusal {
            column: label.from + 1,
            what: What::Label,
        }));
    }
    match labels.add(name, at) {
        Ok(()) => Ok(()),
        Err(_) => Err(LineFault::NoMemory),
    }
}

/// The first pass over a line: adds its label, and gives the address behind its statement.
fn place_line<'a>(
    alloc: Global,
    labels: &mut Labels<'a>,
    at: u32,
    line: &'a [u8],
) -> Result<u32, LineFault>
    requires short { length line.now < 2 ^ 32 - 1 }
    requires inside { at ≤ image_limit }
    ensures says { IsPlaced result labels.new (first_line (record { at = at; known = labels.old }) line.now) }
    ensures inside { IfOk result (λ next. next ≤ image_limit) }
{
    let read = parse_line(alloc, line)?;
    add_label(labels, at, line, read.label)?;
    match behind_statement(labels, at, line, &read.statement) {
        Ok(next) => Ok(next),
        Err(refusal) => Err(LineFault::Refused(refusal)),
    }
}

/// The first pass: the labels of a source, or its first place that is refused before values are known.
pub(crate) fn place_labels<'a>(alloc: Global, source: &'a [u8]) -> Result<Labels<'a>, AsmFault>
    requires { length source.now ≤ source_limit }
    ensures ok { IfOk result (λ labels. LeavesLabels labels source.now) }
    ensures err { IfErr result (λ fault. IfBad fault (λ place. first_pass 1 start (lines_of source.now) ≡ Err place)) }
{
    let mut labels = Labels::new(alloc);
    let mut at = 0;
    let mut number = 1;
    let mut rest = source;
    loop {
        let (line, behind) = cut_line(rest);
        match place_line(alloc, &mut labels, at, line) {
            Ok(next) => at = next,
            Err(fault) => return Err(fault_at(number, fault)),
        }
        match behind {
            Some(behind) => rest = behind,
            None => return Ok(labels),
        }
        number += 1;
    }
}

/// The second pass over a line: appends its bytes.
fn write_line(
    alloc: Global,
    image: &mut Bytes,
    labels: &Labels,
    line: &[u8],
) -> Result<(), LineFault>
    requires short { length line.now < 2 ^ 32 - 1 }
    requires inside { length image.old ≤ image_limit }
    requires placed { LiesInside labels.now (length image.old) line.now }
    ensures { IsAdded result image.old image.new (second_line labels.now (length image.old) line.now) }
{
    let at = image.as_slice().len() as u32;
    match parse_line(alloc, line) {
        Ok(read) => add_statement(image, labels, at, line, &read.statement),
        Err(fault) => Err(fault),
    }
}

/// The second pass: the bytes of a source with these labels, or its first place that is refused for a
/// value.
pub(crate) fn write_lines(alloc: Global, source: &[u8], labels: &Labels) -> Result<Bytes, AsmFault>
    requires short { length source.now ≤ source_limit }
    requires placed { LeavesLabels labels.now source.now }
    ensures ok { IfOk result (λ bytes. second_pass 1 labels.now 0 (lines_of source.now) ≡ Ok bytes) }
    ensures err { IfErr result (λ fault. IfBad fault (λ place. second_pass 1 labels.now 0 (lines_of source.now) ≡ Err place)) }
    ensures fits { IfOk result (λ bytes. length bytes ≤ image_limit) }
{
    let mut image = Bytes::new(alloc);
    let mut number = 1;
    let mut rest = source;
    loop {
        let (line, behind) = cut_line(rest);
        match write_line(alloc, &mut image, labels, line) {
            Ok(()) => {}
            Err(fault) => return Err(fault_at(number, fault)),
        }
        match behind {
            Some(behind) => rest = behind,
            None => return Ok(image),
        }
        number += 1;
    }
}
