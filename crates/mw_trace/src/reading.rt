ghost use Rattle.std.specs.Prelude.{◌≡◌, ◌==◌, [], ◌∷◌, ◌++◌, position, bytes_eq, IfOk, IfErr, IfSome, MatchOption};
ghost use Rattle.std.specs.Option.{option_map_or};
ghost use Rattle.mw_isa.specs.Text.{line, event_words};
ghost use Rattle.mw_isa.specs.Reading.{event_of, words_of, lines_of, events_of};
ghost use Rattle.mw_isa.specs.Replay.{cycle_of_event};
ghost use Rattle.mw_trace.specs.Inside.{Lacks, IsCut, event_with, event_of_four, prefixed_with, event_of_five};
ghost use Rattle.mw_trace.specs.ReadLines.{comes_behind, rising_behind, events_read, IfBad};

use crate::numerals::{address_in, decimal_in, instruction_in, vector_in};
use mw_isa::{Event, Events};
use std::alloc::Global;

/// Why a text isn't read as events.
#[derive(Clone, Copy, Debug, PartialEq, Eq)]
pub enum BadLine {
    /// This line is the first that isn't an event's line or whose cycle doesn't rise.
    Bad {
        /// The number of the line, counted from 1.
        line: u64,
    },
    /// There was no memory for the events.
    NoMemory,
}

/// The place of the first such byte, if there is one.
fn place_of(text: &[u8], byte: u8) -> Option<usize>
    ensures { result ≡ position (λ other. other == byte) text.now }
{
    text.iter().position(|other| *other == byte)
}

/// What stands before the first such byte and what behind it, if there is one.
fn cut<'a>(text: &'a [u8], byte: u8) -> Option<(&'a [u8], &'a [u8])>
    ensures { MatchOption result (Lacks byte text.entry.now)
        (λ parts. IsCut byte text.entry.now parts.0.now parts.1.now) }
{
    let place = place_of(text, byte)?;
    Some((&text[..place], &text[place + 1..]))
}

/// The first word of a line and what stands behind its blank, if the line has a blank.
fn cut_word<'a>(line: &'a [u8]) -> Option<(&'a [u8], &'a [u8])>
    ensures { words_of line.entry.now
        ≡ option_map_or (λ parts. parts.0.now ∷ words_of parts.1.now) result (line.entry.now ∷ []) }
{
    cut(line, b' ')
}

/// The first line of a text and what stands behind its line feed, if the text has a line feed.
fn cut_line<'a>(text: &'a [u8]) -> Option<(&'a [u8], &'a [u8])>
    ensures lines { lines_of text.entry.now ≡ option_map_or (λ parts. parts.0.now ∷ lines_of parts.1.now) result [] }
    ensures whole { IfSome result (λ parts. text.entry.now ≡ parts.0.now ++ 10 ∷ parts.1.now) }
{
    cut(text, b'\n')
}

/// The event of a kind, a cycle, an address, and a word that is an instruction's or an interrupt's address.
fn event_with(kind: &[u8], cycle: u64, at: u64, last: &[u8]) -> Option<Event>
    ensures { result ≡ event_with kind.now cycle at last.now }
{
    match kind {
        b"R" => Some(Event::Retire {
            cycle,
            cia: at,
            word: instruction_in(last)?,
            suffix: None,
        }),
        b"T" => Some(Event::Trap {
            cycle,
            cia: at,
            vector: vector_in(last)?,
        }),
        b"I" => Some(Event::Irq {
            cycle,
            nia: at,
            vector: vector_in(last)?,
        }),
        _ => None,
    }
}

/// The event of these four words.
fn event_of_four(kind: &[u8], cycle: &[u8], at: &[u8], last: &[u8]) -> Option<Event>
    ensures { result ≡ event_of_four kind.now cycle.now at.now last.now }
{
    event_with(kind, decimal_in(cycle)?, address_in(at)?, last)
}

/// The event of an instruction with a prefix.
fn prefixed_with(cycle: u64, cia: u64, word: &[u8], suffix: &[u8]) -> Option<Event>
    ensures { result ≡ prefixed_with cycle cia word.now suffix.now }
{
    Some(Event::Retire {
        cycle,
        cia,
        word: instruction_in(word)?,
        suffix: Some(instruction_in(suffix)?),
    })
}

/// The event of these five words.
fn event_of_five(kind: &[u8], cycle: &[u8], at: &[u8], word: &[u8], suffix: &[u8]) -> Option<Event>
    ensures { result ≡ event_of_five kind.now cycle.now at.now word.now suffix.now }
{
    match kind {
        b"R" => prefixed_with(decimal_in(cycle)?, address_in(at)?, word, suffix),
        _ => None,
    }
}

/// The event of a line without its line feed, if it is an event's.
#[tactic(auto, unfolding(mw_isa::specs::Reading::event_of))]
fn event_in(line: &[u8]) -> Option<Event>
    ensures { result ≡ event_of (words_of line.now) }
{
    let (kind, rest) = cut_word(line)?;
    let (cycle, rest) = cut_word(rest)?;
    let (at, rest) = cut_word(rest)?;
    let Some((word, suffix)) = cut_word(rest) else {
        return event_of_four(kind, cycle, at, rest);
    };
    if cut_word(suffix).is_some() {
        return None;
    }
    event_of_five(kind, cycle, at, word, suffix)
}

/// The cycle of an event.
fn cycle_of(event: Event) -> u64
    ensures { result ≡ cycle_of_event event }
{
    match event {
        Event::Retire { cycle, .. } | Event::Trap { cycle, .. } | Event::Irq { cycle, .. } => cycle,
    }
}

/// Whether an event comes behind a cycle, if there is one.
fn comes_behind(before: Option<u64>, event: Event) -> bool
    ensures { result ≡ comes_behind before event }
{
    match before {
        Some(before) => before < cycle_of(event),
        None => true,
    }
}

/// The event of a text's first line and what stands behind the line, if it is an event's line whose cycle is above the
/// one before, if there is one.
fn next_event<'a>(before: Option<u64>, text: &'a [u8]) -> Option<(Event, &'a [u8])>
    ensures front { rising_behind before (events_of text.entry.now) ≡ option_map_or
        (λ parts. parts.0 ∷ rising_behind (Some (cycle_of_event parts.0)) (events_of parts.1.now)) result [] }
    ensures whole { IfSome result (λ parts. text.entry.now ≡ line (event_words parts.0) ++ parts.1.now) }
{
    let (first, behind) = cut_line(text)?;
    let event = event_in(first)?;
    if comes_behind(before, event) {
        Some((event, behind))
    } else {
        None
    }
}

/// The events whose lines a text is, each with its line feed, with cycles that rise strictly. An event's line is one as
/// `event_lines` gives it: single blanks, a cycle of 64 bits without leading zeros, lower case digits of the exact length,
/// an interrupt's address. `Bad` has the number of the first line that isn't one or whose cycle isn't above that of the
/// line before, counted from 1; a last line without its line feed isn't one, and no empty line is. The other error is want
/// of memory. The form of the text is this board's own.
pub fn read(alloc: Global, text: &[u8]) -> Result<Events, BadLine>
    ensures ok { IfOk result (λ events. events_read text.now ≡ Ok events) }
    ensures bad { IfErr result (λ fault. IfBad fault (λ number. events_read text.now ≡ Err number)) }
{
    let mut events = Events::new(alloc);
    let mut before = None;
    let mut rest = text;
    while let Some((event, behind)) = next_event(before, rest) {
        let Ok(()) = events.push(event) else {
            return Err(BadLine::NoMemory);
        };
        before = Some(cycle_of(event));
        rest = behind;
    }
    if rest.is_empty() {
        Ok(events)
    } else {
        Err(BadLine::Bad {
            line: events.as_slice().len() as u64 + 1,
        })
    }
}
