ghost use Rattle.std.specs.Prelude.{◌≡◌, ◌-◌, ◌^◌, ◌<◌, ◌≤◌, length, slice_get, All, IfOk, OnSome};
ghost use Rattle.mw_text.specs.Lines.{IsSpan};
ghost use Rattle.mw_syntax.specs.declared.fault.LineFault.TheVariants.{Refused};
ghost use Rattle.mw_syntax.specs.declared.fault.What.TheVariants.{Operand};
ghost use Rattle.mw_syntax.specs.declared.statement.Statement.TheVariants.{Org, Data};
ghost use Rattle.mw_syntax.specs.Expressions.{column_at, expression_at};
ghost use Rattle.mw_syntax.specs.Lines.{refusal, only, or_operand, values_at, shape_at, instruction_by, statement_by, statement_at, label_of, statement_place, line_by, line_of};
ghost use Rattle.mw_syntax.specs.Bounds.{IsLine};
ghost use Rattle.mw_syntax.specs.Faults.{IsReadAs};

use crate::data::{ValuesFault, read_values, unit_of};
use crate::expression::Expression;
use crate::fault::{LineFault, Refusal, What};
use crate::item::pattern_items;
use crate::mnemonic::Mnemonic;
use crate::operands::{read_operands, text_of};
use crate::reading::{column_at, expression_at, kind_at};
use crate::spelling::mnemonic_of;
use crate::statement::{Label, Line, Statement, Unit};
use mw_tables::{Shape, rows};
use mw_text::{Token, TokenKind, read_line};
use std::alloc::Global;

/// A refusal of the token at a place, or of the line's end.
fn refused_at(line: &[u8], tokens: &[Token], place: usize) -> LineFault
    requires short { length line.now < 2 ^ 32 - 1 }
    requires within { All (IsSpan (length line.now)) tokens.now }
    ensures { result ≡ Refused (refusal Operand (column_at line.now tokens.now place)) }
{
    LineFault::Refused(Refusal {
        column: column_at(line, tokens, place),
        what: What::Operand,
    })
}

/// The expression at a place, alone up to the line's end.
fn read_only(line: &[u8], tokens: &[Token], place: usize) -> Result<Expression, usize>
    requires short { length line.now < 2 ^ 32 - 1 }
    requires within { All (IsSpan (length line.now)) tokens.now }
    requires inside { place ≤ length tokens.now }
    ensures { result ≡ only tokens.now (expression_at line.now tokens.now place) }
{
    let read = expression_at(line, tokens, place)?;
    if read.next == tokens.len() {
        Ok(read.expression)
    } else {
        Err(read.next)
    }
}

/// `.org`, whose expression begins at a place.
fn read_org(line: &[u8], tokens: &[Token], name: u32, place: usize) -> Result<Statement, LineFault>
    requires short { length line.now < 2 ^ 32 - 1 }
    requires within { All (IsSpan (length line.now)) tokens.now }
    requires inside { place ≤ length tokens.now }
    ensures { IsReadAs result
        (or_operand line.now tokens.now (Org name)
        (only tokens.now (expression_at line.now tokens.now place))) }
{
    match read_only(line, tokens, place) {
        Ok(to) => Ok(Statement::Org { name, to }),
        Err(place) => Err(refused_at(line, tokens, place)),
    }
}

/// Data, whose values begin at a place.
fn read_data(
    alloc: Global,
    line: &[u8],
    tokens: &[Token],
    name: u32,
    unit: Unit,
    place: usize,
) -> Result<Statement, LineFault>
    requires short { length line.now < 2 ^ 32 - 1 }
    requires within { All (IsSpan (length line.now)) tokens.now }
    requires inside { place ≤ length tokens.now }
    ensures { IsReadAs result
        (or_operand line.now tokens.now (Data name unit)
        (values_at (length tokens.now) line.now tokens.now place)) }
{
    match read_values(alloc, line, tokens, place) {
        Ok(values) => Ok(Statement::Data { name, unit, values }),
        Err(ValuesFault::Refused { place }) => Err(refused_at(line, tokens, place)),
        Err(ValuesFault::NoMemory) => Err(LineFault::NoMemory),
    }
}

/// The list of operands of the row at a place of the table, or the empty one where there is no such row.
pub fn shape_at(place: u16) -> Shape
    ensures { result ≡ shape_at place }
{
    match rows().get(usize::from(place)) {
        Some(row) => row.shape,
        None => Shape::Empty,
    }
}

/// An instruction, whose operands begin at a place.
fn read_instruction(
    line: &[u8],
    tokens: &[Token],
    name: u32,
    mnemonic: Mnemonic,
    place: usize,
) -> Result<Statement, LineFault>
    requires short { length line.now < 2 ^ 32 - 1 }
    requires within { All (IsSpan (length line.now)) tokens.now }
    requires inside { place ≤ length tokens.now }
    ensures { IsReadAs result (instruction_by line.now tokens.now name place (Some mnemonic)) }
{
    let items = pattern_items(mnemonic.pattern, shape_at(mnemonic.row));
    match read_operands(items, line, tokens, place) {
        Ok(operands) => Ok(Statement::Instruction {
            name,
            mnemonic,
            operands,
        }),
        Err(place) => Err(refused_at(line, tokens, place)),
    }
}

/// The statement of a name, whose operands begin at a place.
fn read_named(
    alloc: Global,
    line: &[u8],
    tokens: &[Token],
    name: u32,
    text: &[u8],
    place: usize,
) -> Result<Statement, LineFault>
    requires short { length line.now < 2 ^ 32 - 1 }
    requires within { All (IsSpan (length line.now)) tokens.now }
    requires inside { place ≤ length tokens.now }
    ensures { IsReadAs result (statement_by line.now tokens.now name place text.now) }
{
    if text == b".org".as_slice() {
        return read_org(line, tokens, name, place);
    }
    if let Some(unit) = unit_of(text) {
        return read_data(alloc, line, tokens, name, unit, place);
    }
    match mnemonic_of(text) {
        Some(mnemonic) => read_instruction(line, tokens, name, mnemonic, place),
        None => Err(LineFault::Refused(Refusal {
            column: name,
            what: What::Name,
        })),
    }
}

/// The statement at a place, where there are tokens.
fn read_statement(
    alloc: Global,
    line: &[u8],
    tokens: &[Token],
    place: usize,
) -> Result<Statement, LineFault>
    requires short { length line.now < 2 ^ 32 - 1 }
    requires within { All (IsSpan (length line.now)) tokens.now }
    ensures { IsReadAs result
        (statement_at line.now tokens.now place (slice_get tokens.now place)) }
{
    match tokens.get(place) {
        Some(token) => match token.kind {
            TokenKind::Word => read_named(
                alloc,
                line,
                tokens,
                token.from + 1,
                text_of(line, token),
                place + 1,
            ),
            _ => Err(LineFault::Refused(Refusal {
                column: token.from + 1,
                what: What::Name,
            })),
        },
        None => Ok(Statement::Nothing),
    }
}

/// The label that a line begins with.
fn label_of(tokens: &[Token]) -> Option<Label>
    ensures value { result ≡ label_of tokens.now }
    ensures inside { OnSome result (2 ≤ length tokens.now) }
{
    match (kind_at(tokens, 0), kind_at(tokens, 1)) {
        (Some(TokenKind::Word), Some(TokenKind::Colon)) => Some(Label {
            from: tokens[0].from,
            to: tokens[0].to,
        }),
        _ => None,
    }
}

/// The place of the statement behind a label.
fn statement_place(label: Option<Label>) -> usize
    ensures { result ≡ statement_place label }
{
    match label {
        Some(_) => 2,
        None => 0,
    }
}

/// The line of these tokens.
fn parse_tokens(alloc: Global, line: &[u8], tokens: &[Token]) -> Result<Line, LineFault>
    requires short { length line.now < 2 ^ 32 - 1 }
    requires within { All (IsSpan (length line.now)) tokens.now }
    ensures { IsReadAs result (line_by line.now tokens.now) }
{
    let label = label_of(tokens);
    match read_statement(alloc, line, tokens, statement_place(label)) {
        Ok(statement) => Ok(Line { label, statement }),
        Err(fault) => Err(fault),
    }
}

/// Reads a line by itself, which is given without its line feed and has fewer than 2^32 - 1 bytes: its label
/// and its statement. The error is the first refused column, counted from 1, with what is refused there, or
/// want of memory.
#[tactic(auto, unfolding(crate::specs::Lines::line_of))]
pub fn parse_line(alloc: Global, line: &[u8]) -> Result<Line, LineFault>
    requires { length line.now < 2 ^ 32 - 1 }
    ensures says { IsReadAs result (line_of line.now) }
    ensures bounds { IfOk result (IsLine line.now) }
{
    match read_line(alloc, line) {
        Ok(tokens) => parse_tokens(alloc, line, tokens.as_slice()),
        Err(mw_text::LineFault::Bad { column }) => Err(LineFault::Refused(Refusal {
            column,
            what: What::Token,
        })),
        Err(mw_text::LineFault::NoMemory) => Err(LineFault::NoMemory),
    }
}
