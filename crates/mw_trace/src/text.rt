ghost use Rattle.std.specs.Prelude.{◌≡◌, ◌+◌, ◌≤◌, All, IfOk, IfSome, OnOk};
ghost use Rattle.mw_bus.specs.Memory.{ram_size};
ghost use Rattle.mw_isa.specs.State.{seen};
ghost use Rattle.mw_isa.specs.Text.{event_lines, end_line, text_of};
ghost use Rattle.mw_isa.specs.Reading.{FitsEvent, FitsEnd, Spells};

use crate::dump::add_dump;
use crate::lines::{add_end, add_events};
use crate::registers::add_state;
use mw_bits::Bytes;
use mw_isa::{End, Event, Span, State};
use std::alloc::{AllocError as NoMemory, Global};

/// The lines of events, each `R CYCLE CIA WORD`, `R CYCLE CIA PREFIX SUFFIX`, `T CYCLE CIA VECTOR` or `I CYCLE NIA
/// VECTOR` with a line feed: cycles in decimal, addresses in 16 hexadecimal digits, words in 8, vectors in 4, in lower
/// case. The cycles are in clock ticks from 0 on, in any order. The only error is want of memory. The form of the lines
/// is this board's own.
pub fn event_lines(alloc: Global, events: &[Event]) -> Result<Bytes, NoMemory>
    ensures lines { IfOk result (λ text. text ≡ event_lines events.now) }
    ensures fit { OnOk result (All FitsEvent events.now) }
{
    let mut text = Bytes::new(alloc);
    add_events(&mut text, events)?;
    Ok(text)
}

/// The line of an end, `end ran CYCLE`, `end offence CYCLE KIND EA page KEPT FRESH` or `end offence CYCLE KIND EA block
/// BLOCK STATUS` with a line feed: KIND is `fetch`, `load` or `store`, FRESH a page or `fault VECTOR`, STATUS `changed`
/// or `invalidated`; EA, pages and blocks have 16 hexadecimal digits. The cycle is in clock ticks from 0 on. The only
/// error is want of memory. The form of the line is this board's own.
pub fn end_line(alloc: Global, end: &End) -> Result<Bytes, NoMemory>
    ensures line { IfOk result (λ text. text ≡ end_line end.now) }
    ensures fits { OnOk result (FitsEnd end.now) }
{
    let mut text = Bytes::new(alloc);
    add_end(&mut text, *end)?;
    Ok(text)
}

/// The text of a run: a line for each event, the end, the registers and the UART, and where one is
/// asked for a dump of the last state's RAM. The dump's address and length are in bytes, and it ends in
/// RAM. The cycles of the events and of the end are in clock ticks from 0 on. The only error is want of
/// memory. The form of the text is this board's own.
#[tactic(auto, unfolding(mw_isa::specs::Text::text_of))]
pub fn print(
    alloc: Global,
    events: &[Event],
    end: &End,
    state: &State,
    dump: Option<Span>,
) -> Result<Bytes, NoMemory>
    requires { IfSome dump (λ span. span.at + span.len ≤ ram_size) }
    ensures text { IfOk result (λ text. text ≡ text_of events.now end.now (seen state.now) dump) }
    ensures events_fit { OnOk result (All FitsEvent events.now) }
    ensures end_fits { OnOk result (FitsEnd end.now) }
    ensures spells { IfOk result (λ text. Spells text events.now end.now) }
{
    let mut text = event_lines(alloc, events)?;
    add_end(&mut text, *end)?;
    add_state(&mut text, state)?;
    add_dump(&mut text, &state.ram, dump)?;
    Ok(text)
}
