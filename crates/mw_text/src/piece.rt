ghost use Rattle.std.specs.Prelude.{◌≡◌, ℕ, ◌+◌, ◌≤◌, Bool, length, slice_index};
ghost use Rattle.std.specs.List.{prefix_len};
ghost use Rattle.std.specs.Char.{is_ascii_digit, is_ascii_hexdigit};
ghost use Rattle.mw_text.specs.Pieces.{begins_hexadecimal, begins_word, decimal_piece, hexadecimal_piece, is_blank, is_of_word, mark_piece, piece_at, FitsPiece};

use crate::number::number_of;
use crate::token::TokenKind;

/// What stands at the front of the rest of a line.
#[derive(Clone, Copy)]
pub enum Piece {
    /// A space or a tab.
    Blank,
    /// A comment, which ends the line.
    Comment,
    /// A token.
    Found {
        /// What the token is.
        kind: TokenKind,
        /// How many bytes the token has.
        length: usize,
    },
    /// A byte at which no token stands, or a number above 64 bits.
    Bad,
}

/// The byte at this place, or 0 where the bytes have ended.
fn byte_at(rest: &[u8], place: usize) -> u8
    ensures { result ≡ slice_index rest.now place }
{
    if place < rest.len() { rest[place] } else { 0 }
}

/// A byte that may stand in a word.
fn is_of_word(byte: u8) -> bool
    ensures { result ≡ is_of_word byte }
{
    byte.is_ascii_alphanumeric() || byte == b'_' || byte == b'.'
}

/// How many bytes of the front may stand in a word.
fn word_length(rest: &[u8]) -> usize
    ensures { result ≡ prefix_len is_of_word rest.now }
{
    rest.iter().take_while(|byte| is_of_word(**byte)).count()
}

/// How many bytes of the front are decimal digits.
fn decimal_length(rest: &[u8]) -> usize
    ensures { result ≡ prefix_len is_ascii_digit rest.now }
{
    rest.iter().take_while(|byte| byte.is_ascii_digit()).count()
}

/// How many bytes of the front are hexadecimal digits.
fn hexadecimal_length(rest: &[u8]) -> usize
    ensures { result ≡ prefix_len is_ascii_hexdigit rest.now }
{
    rest.iter()
        .take_while(|byte| byte.is_ascii_hexdigit())
        .count()
}

/// A word begins: by a letter, `_`, or a `.` that a letter follows.
fn begins_word(rest: &[u8]) -> bool
    ensures { result ≡ begins_word rest.now }
{
    let first = byte_at(rest, 0);
    first.is_ascii_alphabetic()
        || first == b'_'
        || first == b'.' && byte_at(rest, 1).is_ascii_alphabetic()
}

/// A hexadecimal number begins: by `0x` and a digit.
fn begins_hexadecimal(rest: &[u8]) -> bool
    ensures { result ≡ begins_hexadecimal rest.now }
{
    byte_at(rest, 0) == b'0' && byte_at(rest, 1) == b'x' && byte_at(rest, 2).is_ascii_hexdigit()
}

/// The decimal number at the front.
#[tactic(auto, unfolding(crate::specs::Pieces::decimal_piece))]
fn decimal_piece(rest: &[u8]) -> Piece
    ensures { result ≡ decimal_piece rest.now }
{
    let length = decimal_length(rest);
    match number_of(&rest[..length], 10) {
        Some(value) => Piece::Found {
            kind: TokenKind::Number(value),
            length,
        },
        None => Piece::Bad,
    }
}

/// The hexadecimal number at the front, behind its `0x`.
#[tactic(auto, unfolding(crate::specs::Pieces::hexadecimal_piece))]
fn hexadecimal_piece(rest: &[u8]) -> Piece
    requires { 2 ≤ length rest.now }
    ensures { result ≡ hexadecimal_piece rest.now }
{
    let digits = &rest[2..];
    let length = hexadecimal_length(digits);
    match number_of(&digits[..length], 16) {
        Some(value) => Piece::Found {
            kind: TokenKind::Number(value),
            length: 2 + length,
        },
        None => Piece::Bad,
    }
}

/// The mark that the byte is.
fn mark_piece(byte: u8) -> Piece
    ensures { result ≡ mark_piece byte }
{
    let kind = match byte {
        b',' => TokenKind::Comma,
        b':' => TokenKind::Colon,
        b'(' => TokenKind::Open,
        b')' => TokenKind::Close,
        b'+' => TokenKind::Plus,
        b'-' => TokenKind::Minus,
        b'.' => TokenKind::Here,
        _ => return Piece::Bad,
    };
    Piece::Found { kind, length: 1 }
}

/// What stands at the front of the rest of a line.
#[tactic(auto, unfolding(crate::specs::Pieces::piece_at))]
pub fn piece_at(rest: &[u8]) -> Piece
    ensures value { result ≡ piece_at rest.now }
    ensures fits { FitsPiece (length rest.now) result }
{
    let first = byte_at(rest, 0);
    if first == b' ' || first == b'\t' {
        Piece::Blank
    } else if first == b'#' {
        Piece::Comment
    } else if begins_word(rest) {
        Piece::Found {
            kind: TokenKind::Word,
            length: word_length(rest),
        }
    } else if begins_hexadecimal(rest) {
        hexadecimal_piece(rest)
    } else if first.is_ascii_digit() {
        decimal_piece(rest)
    } else {
        mark_piece(first)
    }
}
