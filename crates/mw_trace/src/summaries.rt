ghost use Rattle.std.specs.Prelude.{◌≡◌, [], ◌∷◌, ◌++◌, count_by, IfOk, OnOk};
ghost use Rattle.mw_isa.specs.Reading.{FitsEnd};
ghost use Rattle.mw_trace.specs.Summary.{is_retirement, is_trap, is_interrupt, sum_of, number_line, count_lines, sum_line, summary_of};

use crate::lines::add_end;
use crate::words::add_hex;
use mw_bits::Bytes;
use mw_digits::add_decimal;
use mw_isa::{End, Event};
use std::alloc::{AllocError as NoMemory, Global};

/// Whether an instruction took effect.
fn is_retirement(event: &Event) -> bool
    ensures { result ≡ is_retirement event.now }
{
    matches!(event, Event::Retire { .. })
}

/// Whether an instruction raised an interrupt.
fn is_trap(event: &Event) -> bool
    ensures { result ≡ is_trap event.now }
{
    matches!(event, Event::Trap { .. })
}

/// Whether an interrupt came between two instructions.
fn is_interrupt(event: &Event) -> bool
    ensures { result ≡ is_interrupt event.now }
{
    matches!(event, Event::Irq { .. })
}

/// How many of the events are retirements.
fn count_retirements(events: &[Event]) -> usize
    ensures { result ≡ count_by is_retirement events.now }
{
    events.iter().filter(|event| is_retirement(event)).count()
}

/// How many of the events are traps.
fn count_traps(events: &[Event]) -> usize
    ensures { result ≡ count_by is_trap events.now }
{
    events.iter().filter(|event| is_trap(event)).count()
}

/// How many of the events are interrupts.
fn count_interrupts(events: &[Event]) -> usize
    ensures { result ≡ count_by is_interrupt events.now }
{
    events.iter().filter(|event| is_interrupt(event)).count()
}

/// The contents added modulo 2^64.
fn sum_of(contents: &[u64]) -> u64
    ensures { result ≡ sum_of contents.now }
{
    let mut sum = 0u64;
    for content in contents {
        sum = sum.wrapping_add(*content);
    }
    sum
}

/// Appends the line of a name and a number in decimal digits.
#[tactic(auto, unfolding(mw_isa::specs::Text::line))]
fn add_number(text: &mut Bytes, name: &[u8], number: u64) -> Result<(), NoMemory>
    ensures { OnOk result (text.new ≡ text.old ++ number_line name.now number) }
{
    text.add(name)?;
    text.add(b" ")?;
    add_decimal(text, number)?;
    text.add(b"\n")
}

/// Appends the lines of how many events of each kind there are.
fn add_counts(text: &mut Bytes, events: &[Event]) -> Result<(), NoMemory>
    ensures { OnOk result (text.new ≡ text.old ++ count_lines events.now) }
{
    add_number(text, b"retired", count_retirements(events) as u64)?;
    add_number(text, b"trapped", count_traps(events) as u64)?;
    add_number(text, b"interrupted", count_interrupts(events) as u64)
}

/// Appends the line of the sum of the general purpose registers' contents.
#[tactic(auto, unfolding(mw_isa::specs::Text::line))]
fn add_sum(text: &mut Bytes, gpr: &[u64; 32]) -> Result<(), NoMemory>
    ensures { OnOk result (text.new ≡ text.old ++ sum_line gpr.now) }
{
    text.add(b"sum")?;
    add_hex(text, 16, sum_of(gpr))?;
    text.add(b"\n")
}

/// The summary of a run that was made from a seed, seven lines with a line feed each: `gen SEED`, `cycles CYCLES`,
/// `retired COUNT`, `trapped COUNT`, `interrupted COUNT`, the end's line as `end_line` has it, and `sum SUM`. The seed,
/// the cycles, in clock ticks, and the counts of the events of each kind are in decimal; the sum is r0 to r31 added
/// modulo 2^64, in 16 hexadecimal digits, in lower case. The only error is want of memory. The form of the lines is this
/// board's own.
#[tactic(auto, unfolding(crate::specs::Summary::summary_of))]
pub fn summary(
    alloc: Global,
    seed: u64,
    cycles: u64,
    events: &[Event],
    end: &End,
    gpr: &[u64; 32],
) -> Result<Bytes, NoMemory>
    ensures text { IfOk result (λ text. text ≡ summary_of seed cycles events.now end.now gpr.now) }
    ensures fits { OnOk result (FitsEnd end.now) }
{
    let mut text = Bytes::new(alloc);
    add_number(&mut text, b"gen", seed)?;
    add_number(&mut text, b"cycles", cycles)?;
    add_counts(&mut text, events)?;
    add_end(&mut text, *end)?;
    add_sum(&mut text, gpr)?;
    Ok(text)
}
