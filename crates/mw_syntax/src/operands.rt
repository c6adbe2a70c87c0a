ghost use Rattle.std.specs.Prelude.{◌≡◌, ◌-◌, ◌^◌, ◌<◌, ◌≤◌, length, slice_get, All, Ok, Err, IfOk, IfErr, IsTrue};
ghost use Rattle.mw_text.specs.Lines.{IsSpan};
ghost use Rattle.mw_syntax.specs.Expressions.{kind_at};
ghost use Rattle.mw_syntax.specs.declared.item.Kind.TheVariants.{Register};
ghost use Rattle.mw_syntax.specs.Items.{kinds_of, register_of, text_of, register_in, operand_at, is_mark, operands_at};

use crate::expression::{Addend, Base, Expression, Read};
use crate::item::{Item, Kind};
use crate::reading::{column_at, expression_at, kind_at};
use arrayvec::ArrayVec;
use mw_text::{Token, TokenKind};

/// The register that a word names: `r0` to `r9`, or `r10` to `r31`.
fn register_of(word: &[u8]) -> Option<u64>
    ensures { result ≡ register_of word.now }
{
    if word.len() == 2 && word[0] == b'r' && word[1].is_ascii_digit() {
        Some(u64::from(word[1] - b'0'))
    } else if word.len() == 3
        && word[0] == b'r'
        && word[1] > b'0'
        && word[1].is_ascii_digit()
        && word[2].is_ascii_digit()
        && (word[1] - b'0') * 10 + (word[2] - b'0') < 32
    {
        Some(u64::from((word[1] - b'0') * 10 + (word[2] - b'0')))
    } else {
        None
    }
}

/// The bytes of a token.
pub(crate) fn text_of<'a>(line: &'a [u8], token: &Token) -> &'a [u8]
    requires { IsSpan (length line.now) token.now }
    ensures { result.now ≡ text_of line.now token.now }
{
    &line[token.from as usize..token.to as usize]
}

/// The register that the token at a place names.
fn register_in(line: &[u8], tokens: &[Token], place: usize) -> Option<u64>
    requires { All (IsSpan (length line.now)) tokens.now }
    ensures { result ≡ register_in line.now (slice_get tokens.now place) }
{
    match tokens.get(place) {
        Some(token) => match token.kind {
            TokenKind::Word => register_of(text_of(line, token)),
            _ => None,
        },
        None => None,
    }
}

/// A register or an expression at a place, and the place behind it.
fn read_register(line: &[u8], tokens: &[Token], place: usize) -> Result<Read, usize>
    requires short { length line.now < 2 ^ 32 - 1 }
    requires within { All (IsSpan (length line.now)) tokens.now }
    requires inside { place ≤ length tokens.now }
    ensures value { result ≡ operand_at Register line.now tokens.now place }
    ensures next { IfOk result (λ read. read.next ≤ length tokens.now) }
{
    match register_in(line, tokens, place) {
        Some(number) => Ok(Read {
            expression: Expression {
                column: column_at(line, tokens, place),
                base: Base::Number(number),
                addend: Addend::Nothing,
            },
            next: place + 1,
        }),
        None => expression_at(line, tokens, place),
    }
}

/// An operand of a kind at a place, and the place behind it.
fn operand_at(kind: Kind, line: &[u8], tokens: &[Token], place: usize) -> Result<Read, usize>
    requires short { length line.now < 2 ^ 32 - 1 }
    requires within { All (IsSpan (length line.now)) tokens.now }
    requires inside { place ≤ length tokens.now }
    ensures value { result ≡ operand_at kind line.now tokens.now place }
    ensures next { IfOk result (λ read. read.next ≤ length tokens.now) }
{
    match kind {
        Kind::Register => read_register(line, tokens, place),
        Kind::Value | Kind::Target | Kind::Upper => { expression_at(line, tokens, place) }
    }
}

/// A mark stands at a place.
pub(crate) fn is_mark(mark: Item, tokens: &[Token], place: usize) -> bool
    ensures value { result ≡ is_mark mark (kind_at tokens.now place) }
    ensures inside { IsTrue result → place < length tokens.now }
{
    match (mark, kind_at(tokens, place)) {
        (Item::Comma, Some(TokenKind::Comma)) => true,
        (Item::Open, Some(TokenKind::Open)) => true,
        (Item::Close, Some(TokenKind::Close)) => true,
        _ => false,
    }
}

/// The operands that are written from a place on, up to the line's end, or the place of the token that
/// can't stand there.
pub(crate) fn read_operands(
    items: &[Item],
    line: &[u8],
    tokens: &[Token],
    start: usize,
) -> Result<ArrayVec<Expression, 6>, usize>
    requires few { length (kinds_of items.now) ≤ 6 }
    requires short { length line.now < 2 ^ 32 - 1 }
    requires within { All (IsSpan (length line.now)) tokens.now }
    requires inside { start ≤ length tokens.now }
    ensures ok { IfOk result
        (λ operands. operands_at items.now line.now tokens.now start ≡ Ok operands.items) }
    ensures err { IfErr result
        (λ place. operands_at items.now line.now tokens.now start ≡ Err place) }
    ensures count { IfOk result
        (λ operands. length operands.items ≡ length (kinds_of items.now)) }
{
    let mut operands = ArrayVec::new();
    let mut place = start;
    for item in items {
        match item {
            Item::Operand(kind) => {
                let read = operand_at(*kind, line, tokens, place)?;
                operands.push(read.expression);
                place = read.next;
            }
            Item::Comma | Item::Open | Item::Close => {
                if !is_mark(*item, tokens, place) {
                    return Err(place);
                }
                place += 1;
            }
        }
    }
    if place == tokens.len() {
        Ok(operands)
    } else {
        Err(place)
    }
}
