ghost use Rattle.std.specs.Prelude.{◌≡◌, ◌+◌, ◌≤◌, Err, length, IfOk, IfErr};
ghost use Rattle.std.specs.Char.{digit_value, is_ascii_digit};
ghost use Rattle.std.specs.List.{prefix_len};
ghost use Rattle.std.specs.Option.{SomeIff};
ghost use Rattle.std.specs.Str.Parse.{digits_value};
ghost use Rattle.hex.specs.Hex.{decode_of, is_hex_digit};
ghost use Rattle.mw_uart.specs.Script.{cycle_of, is_numeral, is_skipped, last_cycle, line_of, bytes_behind, line_behind, text_limit};
ghost use Rattle.mw_uart.specs.Inside.{IfRefused};

use hex::{FromHexError, decode};
use std::alloc::Global;

/// No byte arrives after this cycle.
const LAST_CYCLE: u64 = 4_000_000;

/// What a line gives.
#[derive(Drop)]
pub struct Line {
    /// The line's cycle, or that of the line before where it is skipped.
    pub cycle: u64,
    /// The bytes that arrive then, in order.
    pub bytes: Vec<u8>,
}

/// Why a line gives nothing.
#[derive(Clone, Copy)]
pub enum LineFault {
    /// The line is refused.
    Refused {
        /// The first refused column, counted from 1.
        column: u32,
    },
    /// There was no memory for the line's bytes.
    NoMemory,
}

/// The value of a digit or a letter, from 0 for `0` to 35 for `z` and `Z`, and 36 for any other byte.
fn digit_value(byte: u8) -> u64
    ensures value { result ≡ digit_value byte }
    ensures small { result ≤ 36 }
{
    match byte {
        b'0'..=b'9' => u64::from(byte - b'0'),
        b'A'..=b'Z' => u64::from(byte - b'A') + 10,
        b'a'..=b'z' => u64::from(byte - b'a') + 10,
        _ => 36,
    }
}

/// The number that the decimal digits write, where it isn't above the last cycle.
fn number_of(digits: &[u8]) -> Option<u64>
    ensures { SomeIff result (digits_value 10 digits.now ≤ last_cycle) (digits_value 10 digits.now) }
{
    let mut value = 0;
    for digit in digits {
        let longer = value * 10 + digit_value(*digit);
        if longer > LAST_CYCLE {
            return None;
        }
        value = longer;
    }
    Some(value)
}

/// Whether there are digits, and the first of several isn't 0.
fn is_numeral(digits: &[u8]) -> bool
    ensures { result ≡ is_numeral digits.now }
{
    match digits {
        [] => false,
        [_] => true,
        [first, ..] => *first != b'0',
    }
}

/// The cycle that the digits write, where it isn't too large and doesn't fall.
fn cycle_of(before: u64, digits: &[u8]) -> Option<u64>
    ensures { result ≡ cycle_of before digits.now }
{
    if !is_numeral(digits) {
        return None;
    }
    match number_of(digits) {
        Some(cycle) => { if before <= cycle { Some(cycle) } else { None } }
        None => None,
    }
}

/// How many bytes of the front are decimal digits.
fn decimal_length(rest: &[u8]) -> usize
    ensures { result ≡ prefix_len is_ascii_digit rest.now }
{
    rest.iter().take_while(|byte| byte.is_ascii_digit()).count()
}

/// Whether the byte is a hexadecimal digit, of either case.
fn is_hex_digit(byte: u8) -> bool
    ensures { result ≡ is_hex_digit byte }
{
    byte.is_ascii_hexdigit()
}

/// How many bytes of the front are hexadecimal digits.
fn hexadecimal_length(rest: &[u8]) -> usize
    ensures count { result ≡ prefix_len is_hex_digit rest.now }
    ensures within { result ≤ length rest.now }
{
    rest.iter().take_while(|byte| is_hex_digit(**byte)).count()
}

/// The column of the first byte that is no hexadecimal digit, of the rest of a line that begins at this place.
fn refused(place: usize, rest: &[u8]) -> LineFault
    requires { place + length rest.now ≤ text_limit }
    ensures { IfRefused result (λ column. column ≡ place + prefix_len is_hex_digit rest.now + 1) }
{
    LineFault::Refused {
        column: (place + hexadecimal_length(rest)) as u32 + 1,
    }
}

/// The bytes that the hexadecimal digits write, which are all of the rest of a line that begins at this place.
fn bytes_behind(alloc: Global, cycle: u64, place: usize, rest: &[u8]) -> Result<Line, LineFault>
    requires { place + length rest.now ≤ text_limit }
    ensures ok { IfOk result (λ line. bytes_behind cycle place rest.now (decode_of rest.now) ≡ Ok (record { cycle = line.cycle; bytes = line.bytes.items })) }
    ensures refused { IfErr result (λ fault. IfRefused fault (λ column. bytes_behind cycle place rest.now (decode_of rest.now) ≡ Err column)) }
    ensures cycle { IfOk result (λ line. line.cycle ≡ cycle) }
{
    match decode(alloc, rest) {
        Ok(bytes) => {
            if bytes.is_empty() {
                Err(refused(place, rest))
            } else {
                Ok(Line { cycle, bytes })
            }
        }
        Err(FromHexError::OutOfMemory) => Err(LineFault::NoMemory),
        Err(_) => Err(refused(place, rest)),
    }
}

/// What a line gives behind the cycle of the line before.
#[tactic(auto, unfolding(crate::specs::Script::line_of))]
pub fn read_line(alloc: Global, before: u64, line: &[u8]) -> Result<Line, LineFault>
    requires { length line.now ≤ text_limit }
    ensures ok { IfOk result (λ given. line_of before line.now ≡ Ok (record { cycle = given.cycle; bytes = given.bytes.items })) }
    ensures refused { IfErr result (λ fault. IfRefused fault (λ column. line_of before line.now ≡ Err column)) }
    ensures rises { IfOk result (λ given. before ≤ given.cycle) }
    ensures low { before ≤ last_cycle → IfOk result (λ given. given.cycle ≤ last_cycle) }
{
    if line.is_empty() || line[0] == b'#' {
        return Ok(Line {
            cycle: before,
            bytes: Vec::new(alloc),
        });
    }
    let count = decimal_length(line);
    let Some(cycle) = cycle_of(before, &line[..count]) else {
        return Err(LineFault::Refused { column: 1 });
    };
    if count < line.len() && line[count] == b' ' {
        bytes_behind(alloc, cycle, count + 1, &line[count + 1..])
    } else {
        Err(LineFault::Refused {
            column: count as u32 + 1,
        })
    }
}
