ghost use Rattle.std.specs.Prelude.{◌≡◌, ◌+◌, ◌<◌, ◌≤◌, ◌∷◌, ◌++◌, [], Ok, Err, length, nat_lt, IfOk, IfErr, IfSome, OnOk};
ghost use Rattle.std.specs.Option.{option_map_or};
ghost use Rattle.std.specs.Result.{IsOkAnd};
ghost use Rattle.mw_uart.specs.Script.{last_cycle, last_of, line_of, lines_of, pairs_of, place_behind, read_from, script_of, text_limit};
ghost use Rattle.mw_uart.specs.Pairs.{IfBad, RisesTo};
ghost use Rattle.mw_uart.specs.Inside.{IfRefused, fault_at};

use crate::line::{LineFault, read_line};
use std::alloc::{AllocError as NoMemory, Global};
use std::marker::Model;

/// A text has at most so many bytes.
const TEXT_LIMIT: usize = 1_048_576;

/// The bytes that arrive at the UART. Clauses see them as a list of pairs of a cycle and a byte: the cycles don't fall, and
/// are at most 4,000,000.
#[derive(Drop)]
pub struct Script {
    /// Each byte behind the cycle at which it arrives.
    pairs: Vec<(u64, u8)>,
}

impl Model for Script {
    ghost use Rattle.std.specs.Prelude.{ℕ, List};
    ghost use Rattle.mw_uart.specs.Script.{last_cycle};
    ghost use Rattle.mw_uart.specs.Pairs.{RisesTo};

    ghost Value = { List (ℕ × ℕ) };

    ghost view = { λ s. s.pairs.items };

    ghost invariant = { λ s. RisesTo 0 last_cycle s.pairs.items };
}

/// Why a text gives no script.
#[derive(Clone, Copy, Debug, PartialEq, Eq)]
pub enum BadScript {
    /// The text is refused at this place, its first refused one.
    Bad {
        /// The line, counted from 1.
        line: u32,
        /// The column; the line's first byte is column 1.
        column: u32,
    },
    /// There was no memory for the script.
    NoMemory,
}

/// The bytes before the next line feed, and those behind it, if there is one.
fn cut_line<'a>(text: &'a [u8]) -> (&'a [u8], Option<&'a [u8]>)
    ensures lines { lines_of text.entry.now ≡ result.0.now ∷ option_map_or (λ behind. lines_of behind.now) result.1 [] }
    ensures within { length result.0.now ≤ length text.entry.now }
    ensures shorter { IfSome result.1 (λ behind. length behind.now < length text.entry.now) }
{
    for (place, byte) in text.iter().enumerate() {
        if *byte == b'\n' {
            return (&text[..place], Some(&text[place + 1..]));
        }
    }
    (text, None)
}

/// The place behind a text.
fn place_behind(text: &[u8]) -> BadScript
    requires { length text.now ≤ text_limit }
    ensures { IfBad result (λ place. place ≡ place_behind text.now) }
{
    let mut line = 1;
    let mut rest = text;
    loop {
        let (first, behind) = cut_line(rest);
        match behind {
            Some(behind) => rest = behind,
            None => {
                return BadScript::Bad {
                    line,
                    column: first.len() as u32 + 1,
                };
            }
        }
        line += 1;
    }
}

/// Puts each byte behind its cycle at the end of the pairs.
fn add_bytes(pairs: &mut Vec<(u64, u8)>, cycle: u64, bytes: &[u8]) -> Result<(), NoMemory>
    requires { RisesTo 0 cycle pairs.old.items }
    ensures ok { OnOk result (pairs.new.items ≡ pairs.old.items ++ pairs_of cycle bytes.now) }
    ensures rises { RisesTo 0 cycle pairs.new.items }
{
    for byte in bytes {
        pairs.push((cycle, *byte))?;
    }
    Ok(())
}

/// Puts what a line gives at the end of the pairs, and gives its cycle.
fn add_line(
    alloc: Global,
    pairs: &mut Vec<(u64, u8)>,
    before: u64,
    line: &[u8],
) -> Result<u64, LineFault>
    requires rises { RisesTo 0 before pairs.old.items }
    requires low { before ≤ last_cycle }
    requires short { length line.now ≤ text_limit }
    ensures ok { IfOk result (λ cycle. IsOkAnd (line_of before line.now) (λ given. (given.cycle ≡ cycle) × (pairs.new.items ≡ pairs.old.items ++ pairs_of given.cycle given.bytes))) }
    ensures refused { IfErr result (λ fault. IfRefused fault (λ column. line_of before line.now ≡ Err column)) }
    ensures rises { IfOk result (λ cycle. RisesTo 0 cycle pairs.new.items) }
    ensures low { IfOk result (λ cycle. cycle ≤ last_cycle) }
{
    let given = match read_line(alloc, before, line) {
        Ok(given) => given,
        Err(fault) => return Err(fault),
    };
    let Ok(()) = add_bytes(pairs, given.cycle, given.bytes.as_slice()) else {
        return Err(LineFault::NoMemory);
    };
    Ok(given.cycle)
}

/// A fault of the line of this number.
fn fault_at(line: u32, fault: LineFault) -> BadScript
    ensures { result ≡ fault_at line fault }
{
    match fault {
        LineFault::Refused { column } => BadScript::Bad { line, column },
        LineFault::NoMemory => BadScript::NoMemory,
    }
}

/// The script of a text that isn't too long.
fn read_lines(alloc: Global, text: &[u8]) -> Result<Script, BadScript>
    requires { length text.now ≤ text_limit }
    ensures ok { IfOk result (λ script. read_from 1 0 [] (lines_of text.now) ≡ Ok script) }
    ensures bad { IfErr result (λ fault. IfBad fault (λ place. read_from 1 0 [] (lines_of text.now) ≡ Err place)) }
{
    let mut pairs = Vec::new(alloc);
    let mut before = 0;
    let mut number = 1;
    let mut rest = text;
    loop {
        let (line, behind) = cut_line(rest);
        match add_line(alloc, &mut pairs, before, line) {
            Ok(cycle) => before = cycle,
            Err(fault) => return Err(fault_at(number, fault)),
        }
        match behind {
            Some(behind) => rest = behind,
            None => return Ok(Script { pairs }),
        }
        number += 1;
    }
}

/// A text has more bytes than it may have.
fn is_too_long(text: &[u8]) -> bool
    ensures { result ≡ nat_lt text_limit (length text.now) }
{
    text.len() > TEXT_LIMIT
}

/// The script that a text describes, or its first refused place.
///
/// An empty line, or one that begins with `#`, is skipped. Any other line is a cycle, one space and an even, positive
/// number of hexadecimal digits of either case: two for each byte that arrives at this cycle. A cycle is a decimal number
/// without leading zeros, at most 4,000,000 and not less than that of the line before; one that isn't is refused at its
/// first digit. A text of more than 1,048,576 bytes is refused at the first byte past these, before all else. The other
/// error is want of memory.
pub fn read_script(alloc: Global, text: &[u8]) -> Result<Script, BadScript>
    ensures ok { IfOk result (λ script. script_of text.now ≡ Ok script) }
    ensures bad { IfErr result (λ fault. IfBad fault (λ place. script_of text.now ≡ Err place)) }
{
    if is_too_long(text) {
        return Err(place_behind(&text[..TEXT_LIMIT]));
    }
    read_lines(alloc, text)
}

impl Script {
    /// The script of which no byte arrives.
    pub fn new(alloc: Global) -> Script
        ensures { result ≡ [] }
    {
        Script {
            pairs: Vec::new(alloc),
        }
    }

    /// A copy of the script. The only error is want of memory.
    pub fn copy(&self) -> Result<Script, NoMemory>
        ensures { IfOk result (λ script. script ≡ self.now) }
    {
        Ok(Script {
            pairs: Vec::from_slice(*self.pairs.allocator(), self.pairs.as_slice())?,
        })
    }

    /// The bytes in order, each behind the cycle at which it arrives.
    pub fn as_slice(&self) -> &[(u64, u8)]
        ensures { result.now ≡ self.now }
    {
        self.pairs.as_slice()
    }
}
