ghost use Rattle.std.specs.Prelude.{◌≡◌, ◌≤◌, map, string_bytes, option_map, option_and_then, IfSome, IfOk, IfErr, bytes_eq, decimal, None, Some};
ghost use Rattle.clap.specs.Words.{found_of};
ghost use Rattle.mw_words.specs.Reader.{said_found};
ghost use Rattle.mw_words.specs.Grammar.{all_said, idle, unsaid, number_up_to, span_by, span_of, dump_of, run_by, seed_by, named_order, order_by, order_of};
ghost use Rattle.mw_words.specs.Commands.{said_in, order_in, IsBounded, IsInRam};
ghost use Rattle.mw_words.specs.declared.order.WordsFault.TheVariants.{Usage};

use crate::command::{Command, RunCommand};
use crate::reader::{id_of, read};
use crate::said::{Said, are_said};
use crate::verb::{Key, Verb, verb_of};
use clap::ArgMatches;
use mw_bus::RAM_SIZE;
use mw_isa::Span;
use std::alloc::Global;

/// The greatest number of cycles that a run may be asked for.
pub const MOST_CYCLES: u64 = 4000000;

/// How many bytes of RAM there are.
const RAM_BYTES: u64 = RAM_SIZE as u64;

/// The greatest number of bytes that a dump may be asked for.
const MOST_DUMPED: u64 = 65536;

/// Why words ask for nothing.
#[derive(Clone, Copy, Debug, PartialEq, Eq)]
pub enum WordsFault {
    /// They aren't in the grammar.
    Usage,
    /// There was no memory to read them.
    NoMemory,
}

/// Whether a word is the decimal digits of a number, without a leading zero.
fn is_decimal(number: u64, word: &str) -> bool
    ensures { result ≡ bytes_eq (decimal number) word.now }
{
    itoa::Buffer::new().format(number) == word
}

/// The number that a word writes in decimal digits without a leading zero, if it isn't too great.
fn number_up_to(most: u64, word: &str) -> Option<u64>
    ensures value { result ≡ number_up_to most word.now }
    ensures small { IfSome result (λ n. n ≤ most) }
{
    let Ok(number) = word.parse::<u64>() else {
        return None;
    };
    if !is_decimal(number, word) {
        return None;
    }
    if number > most {
        return None;
    }
    Some(number)
}

/// The stretch of RAM that two words name, its address and its length, if it is one.
fn span_by(at: &str, len: &str) -> Option<Span>
    ensures value { result ≡ span_by at.now len.now }
    ensures room { IsInRam result }
{
    let at = number_up_to(RAM_BYTES, at)?;
    let len = number_up_to(MOST_DUMPED, len)?;
    if len >= 1 && at + len <= RAM_BYTES {
        Some(Span {
            at: at as u32,
            len: len as u32,
        })
    } else {
        None
    }
}

/// The stretch of RAM that a word A:L names, if it is one.
fn span_of(word: &str) -> Option<Span>
    ensures value { result ≡ span_of word.now }
    ensures room { IsInRam result }
{
    match word.split_once(':') {
        Some((at, len)) => span_by(at, len),
        None => None,
    }
}

/// The dump that is asked for: none, or the stretch of RAM that a word names.
fn dump_of(word: Option<&str>) -> Option<Option<Span>>
    ensures value { result ≡ dump_of (option_map (λ w. w.now) word.entry) }
    ensures room { IfSome result IsInRam }
{
    match word {
        None => Some(None),
        Some(word) => match span_of(word) {
            Some(span) => Some(Some(span)),
            None => None,
        },
    }
}

/// A run of this image, by what else was said.
fn run_by<'a>(said: Said<'a>, image: &'a str) -> Option<Command<'a>>
    ensures value { option_map order_in result ≡ run_by (said_in said.entry) image.now }
    ensures bounded { IfSome result IsBounded }
{
    let Some(word) = said.cycles else {
        return None;
    };
    let Some(cycles) = number_up_to(MOST_CYCLES, word) else {
        return None;
    };
    match dump_of(said.dump) {
        Some(dump) => Some(Command::Run(RunCommand {
            image,
            cycles,
            dump,
            script: said.script,
        })),
        None => None,
    }
}

/// A run of an image that is made from the seed that a word writes, by what else was said.
fn seed_by<'a>(said: Said<'a>, word: &'a str) -> Option<Command<'a>>
    ensures value { option_map order_in result ≡ seed_by (said_in said.entry) word.now }
    ensures bounded { IfSome result IsBounded }
{
    let Some(seed) = number_up_to(u64::MAX, word) else {
        return None;
    };
    let Some(digits) = said.cycles else {
        return None;
    };
    match number_up_to(MOST_CYCLES, digits) {
        Some(cycles) => Some(Command::Generate { seed, cycles }),
        None => None,
    }
}

/// What a command asks for with this name, by what else was said.
fn named_order<'a>(verb: Verb, said: Said<'a>, name: &'a str) -> Option<Command<'a>>
    ensures value { option_map order_in result ≡ named_order verb (said_in said.entry) name.now }
    ensures bounded { IfSome result IsBounded }
{
    match verb {
        Verb::Run => run_by(said, name),
        Verb::Assemble => Some(Command::Assemble { source: name }),
        Verb::Disassemble => Some(Command::Disassemble { image: name }),
        Verb::Generate => seed_by(said, name),
    }
}

/// What a command asks for, by what its words say.
fn order_by<'a>(verb: Verb, said: Said<'a>) -> Option<Command<'a>>
    ensures value { option_map order_in result ≡ order_by verb (said_in said.entry) }
    ensures bounded { IfSome result IsBounded }
{
    match said.name {
        Some(name) => named_order(verb, said, name),
        None => None,
    }
}

/// What the reader found.
fn said_in<'a>(matches: &ArgMatches<'a>) -> Said<'a>
    ensures { said_in result ≡ said_found (found_of matches.now) }
{
    Said {
        name: matches.get_str(id_of(Key::Name)),
        cycles: matches.get_str(id_of(Key::Cycles)),
        script: matches.get_str(id_of(Key::Script)),
        dump: matches.get_str(id_of(Key::Dump)),
    }
}

/// What the words behind a command's say, as the reader found it. An `Err` says that they aren't in the grammar, or that
/// memory is wanting.
fn read_said<'a>(alloc: Global, verb: Verb, words: &'a [String]) -> Result<Said<'a>, WordsFault>
    ensures said { IfOk result (λ said. all_said verb (idle unsaid) (map string_bytes words.now) ≡ Some (said_in said)) }
    ensures refused { IfErr result (λ fault. fault ≡ Usage → all_said verb (idle unsaid) (map string_bytes words.now) ≡ None) }
{
    if !are_said(verb, words) {
        return Err(WordsFault::Usage);
    }
    match read(alloc, verb, words) {
        Ok(matches) => Ok(said_in(&matches)),
        Err(_) => Err(WordsFault::NoMemory),
    }
}

/// What the words behind the program's name ask for, if they are in the grammar: a command's word, and behind it in any
/// order a name and options, `--x v` or `--x=v`, each at most once. `run IMAGE --cycles N [--script FILE] [--dump A:L]`,
/// `asm SOURCE`, `dis IMAGE`, `gen SEED --cycles N`. No name and no value is empty or begins with a minus. Numbers are
/// decimal, without sign or leading zero: N at most 4,000,000, SEED below 2^64, A and L in bytes, L from 1 to 65,536, A + L
/// at most 16,777,216. An `Err` says that the words aren't in the grammar, or that memory is wanting. The grammar is this
/// board's own.
#[tactic(auto, unfolding(crate::specs::Grammar::order_of))]
pub fn read_words(alloc: Global, words: &[String]) -> Result<Command<'_>, WordsFault>
    ensures value { IfOk result (λ command. order_of (map string_bytes words.now) ≡ Some (order_in command)) }
    ensures refused { IfErr result (λ fault. fault ≡ Usage → order_of (map string_bytes words.now) ≡ None) }
    ensures bounded { IfOk result IsBounded }
{
    let [first, others @ ..] = words else {
        return Err(WordsFault::Usage);
    };
    let Some(verb) = verb_of(first.as_str()) else {
        return Err(WordsFault::Usage);
    };
    let said = match read_said(alloc, verb, others) {
        Ok(said) => said,
        Err(fault) => return Err(fault),
    };
    match order_by(verb, said) {
        Some(command) => Ok(command),
        None => Err(WordsFault::Usage),
    }
}
