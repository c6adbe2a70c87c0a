ghost use Rattle.std.specs.Prelude.{◌≡◌, ◌+◌, ◌≤◌, ◌++◌, length, All, IfOk, IfSome, OnOk};
ghost use Rattle.mw_bus.specs.Memory.{ram_size};
ghost use Rattle.mw_isa.specs.State.{seen};
ghost use Rattle.mw_isa.specs.Text.{event_lines, end_line, state_lines};
ghost use Rattle.mw_isa.specs.Reading.{FitsEvent, FitsEnd};

use crate::dump::add_dump;
use crate::event_line::set_event;
use crate::lines::add_end;
use crate::registers::add_state;
use arrayvec::ArrayVec;
use mw_bits::Bytes;
use mw_isa::{End, Event, Span, State};
use std::alloc::{AllocError as NoMemory, Global};

/// The lines of so many events fit a piece of a text.
pub const EVENTS_AT_ONCE: usize = 1024;

/// The lines of at most 1,024 events, as `event_lines` has them, in place of what the piece was. It takes no memory and
/// can't fail.
pub fn set_lines(piece: &mut ArrayVec<u8, 65536>, events: &[Event])
    requires { length events.now ≤ 1024 }
    ensures { piece.new.items ≡ event_lines events.now }
{
    piece.clear();
    let mut row = ArrayVec::new();
    for event in events {
        set_event(&mut row, *event);
        let Ok(()) = piece.try_extend_from_slice(row.as_slice()) else {
            unreachable!();
        };
    }
}

/// The text of a run behind the lines of its events, as `print` has it: the end, the registers and the UART, and where one is
/// asked for a dump of the last state's RAM. The dump's address and length are in bytes, and it ends in RAM. The only error
/// is want of memory.
pub fn print_behind(
    alloc: Global,
    end: &End,
    state: &State,
    dump: Option<Span>,
) -> Result<Bytes, NoMemory>
    requires { IfSome dump (λ span. span.at + span.len ≤ ram_size) }
    ensures text { IfOk result (λ text. text ≡ end_line end.now ++ state_lines (seen state.now) dump) }
    ensures end_fits { OnOk result (FitsEnd end.now) }
{
    let mut text = Bytes::new(alloc);
    add_end(&mut text, *end)?;
    add_state(&mut text, state)?;
    add_dump(&mut text, &state.ram, dump)?;
    Ok(text)
}

/// The numbers of an event fit their types.
fn event_fits(event: Event)
    ensures { FitsEvent event }
{
    match event {
        Event::Retire { .. } => {}
        Event::Trap { .. } => {}
        Event::Irq { .. } => {}
    }
}

/// The numbers of events fit their types: a law, for which nothing is done.
pub fn events_fit(events: &[Event])
    ensures { All FitsEvent events.now }
{
    for event in events {
        event_fits(*event);
    }
}
