ghost use Rattle.std.specs.Prelude.{◌≡◌, ◌-◌, ◌^◌, ◌<◌, ◌≤◌, length, All, IfOk, OnSome};
ghost use Rattle.mw_text.specs.Lines.{IsSpan};
ghost use Rattle.mw_syntax.specs.Expressions.{kind_at, column_at, name_at, behind_base, expression_at};

use crate::expression::{Addend, Base, Expression, Read};
use mw_text::{Token, TokenKind};

/// What the token at a place is, if there is one.
pub(crate) fn kind_at(tokens: &[Token], place: usize) -> Option<TokenKind>
    ensures value { result ≡ kind_at tokens.now place }
    ensures inside { OnSome result (place < length tokens.now) }
{
    match tokens.get(place) {
        Some(token) => Some(token.kind),
        None => None,
    }
}

/// The column of the token at a place, or the place behind the line.
pub(crate) fn column_at(line: &[u8], tokens: &[Token], place: usize) -> u32
    requires short { length line.now < 2 ^ 32 - 1 }
    requires within { All (IsSpan (length line.now)) tokens.now }
    ensures { result ≡ column_at line.now tokens.now place }
{
    match tokens.get(place) {
        Some(token) => token.from + 1,
        None => line.len() as u32 + 1,
    }
}

/// The label that the token at a place names.
fn name_at(tokens: &[Token], place: usize) -> Base
    ensures { result ≡ name_at tokens.now place }
{
    match tokens.get(place) {
        Some(token) => Base::Name {
            from: token.from,
            to: token.to,
        },
        None => Base::Here,
    }
}

/// The expression of a base that ends before a place.
fn behind_base(tokens: &[Token], column: u32, base: Base, place: usize) -> Result<Read, usize>
    requires { place ≤ length tokens.now }
    ensures value { result ≡ behind_base tokens.now column base place }
    ensures next { IfOk result (λ read. read.next ≤ length tokens.now) }
{
    let (addend, next) = match kind_at(tokens, place) {
        Some(TokenKind::Plus) => match kind_at(tokens, place + 1) {
            Some(TokenKind::Number(number)) => (Addend::Plus(number), place + 2),
            _ => return Err(place + 1),
        },
        Some(TokenKind::Minus) => match kind_at(tokens, place + 1) {
            Some(TokenKind::Number(number)) => (Addend::Minus(number), place + 2),
            _ => return Err(place + 1),
        },
        _ => (Addend::Nothing, place),
    };
    Ok(Read {
        expression: Expression {
            column,
            base,
            addend,
        },
        next,
    })
}

/// The expression at a place and the place behind it, or the place of the token that can't stand there.
#[tactic(auto, unfolding(crate::specs::Expressions::expression_at))]
pub(crate) fn expression_at(line: &[u8], tokens: &[Token], place: usize) -> Result<Read, usize>
    requires short { length line.now < 2 ^ 32 - 1 }
    requires within { All (IsSpan (length line.now)) tokens.now }
    requires inside { place ≤ length tokens.now }
    ensures value { result ≡ expression_at line.now tokens.now place }
    ensures next { IfOk result (λ read. read.next ≤ length tokens.now) }
{
    let column = column_at(line, tokens, place);
    match kind_at(tokens, place) {
        Some(TokenKind::Number(number)) => {
            behind_base(tokens, column, Base::Number(number), place + 1)
        }
        Some(TokenKind::Minus) => match kind_at(tokens, place + 1) {
            Some(TokenKind::Number(number)) => {
                behind_base(tokens, column, Base::Negative(number), place + 2)
            }
            _ => Err(place + 1),
        },
        Some(TokenKind::Word) => { behind_base(tokens, column, name_at(tokens, place), place + 1) }
        Some(TokenKind::Here) => behind_base(tokens, column, Base::Here, place + 1),
        _ => Err(place),
    }
}
