ghost use Rattle.std.specs.Prelude.{◌≡◌};
ghost use Rattle.mw_isa.specs.Sprs.{allows, is_always_illegal, is_privileged_number, is_reserved, numbered_lines, refusal_of, refusal_outside, register_for, register_in};

use mw_isa::{Numbered, NumberedLine, SprRefusal, Use};

/// The line of a register that is read and written.
macro_rules! both {
    ($number:literal, $register:expr) => {
        NumberedLine { number: $number, register: $register, readable: true, writable: true }
    };
}

/// The line of a register that is only read.
macro_rules! read_only {
    ($number:literal, $register:expr) => {
        NumberedLine { number: $number, register: $register, readable: true, writable: false }
    };
}

/// The line of a register that is only written.
macro_rules! write_only {
    ($number:literal, $register:expr) => {
        NumberedLine { number: $number, register: $register, readable: false, writable: true }
    };
}

/// The registers by number.
#[rattlefmt::skip]
static NUMBERED_LINES: [NumberedLine; 26] = [
    both!(1, Numbered::Xer),
    both!(8, Numbered::Lr),
    both!(9, Numbered::Ctr),
    both!(18, Numbered::Dsisr),
    both!(19, Numbered::Dar),
    both!(22, Numbered::Dec),
    both!(26, Numbered::Srr0),
    both!(27, Numbered::Srr1),
    both!(48, Numbered::Pidr),
    read_only!(259, Numbered::Sprg(3)),
    read_only!(268, Numbered::TimeBase),
    read_only!(269, Numbered::TimeBaseUpper),
    both!(272, Numbered::Sprg(0)),
    both!(273, Numbered::Sprg(1)),
    both!(274, Numbered::Sprg(2)),
    both!(275, Numbered::Sprg(3)),
    write_only!(284, Numbered::TimeBaseHalf),
    write_only!(285, Numbered::TimeBaseHalf),
    read_only!(287, Numbered::Pvr),
    both!(304, Numbered::Hsprg(0)),
    both!(305, Numbered::Hsprg(1)),
    both!(314, Numbered::Hsrr0),
    both!(315, Numbered::Hsrr1),
    both!(720, Numbered::Prtbl),
    both!(815, Numbered::Tar),
    read_only!(1023, Numbered::Pir),
];

/// The lines of the registers by number.
#[tactic(auto, unfolding(mw_isa::specs::Sprs::numbered_lines))]
fn numbered_lines() -> &'static [NumberedLine]
    ensures { result.now ≡ numbered_lines }
{
    &NUMBERED_LINES
}

/// Whether a line allows a use of its register.
fn allows(way: Use, line: NumberedLine) -> bool
    ensures { result ≡ allows way line }
{
    match way {
        Use::Read => line.readable,
        Use::Write => line.writable,
    }
}

/// The register of the first line that has a number and allows a use.
fn register_in(lines: &[NumberedLine], way: Use, number: u16) -> Option<Numbered>
    ensures { result ≡ register_in lines.now way number }
{
    for line in lines {
        if line.number == number && allows(way, *line) {
            return Some(line.register);
        }
    }
    None
}

/// The register that a number stands for in a use.
#[tactic(auto, unfolding(mw_isa::specs::Sprs::register_for))]
pub fn register_for(way: Use, number: u16) -> Option<Numbered>
    ensures { result ≡ register_for way number }
{
    register_in(numbered_lines(), way, number)
}

/// Whether each use of a number is no operation.
fn is_reserved(number: u16) -> bool
    ensures { result ≡ is_reserved number }
{
    808 <= number && number <= 811
}

/// Whether a number is privileged.
fn is_privileged_number(number: u16) -> bool
    ensures { result ≡ is_privileged_number number }
{
    number / 0x10 % 2 == 1
}

/// Whether a use outside the list is illegal in every state.
fn is_always_illegal(way: Use, number: u16) -> bool
    ensures { result ≡ is_always_illegal way number }
{
    match way {
        Use::Read => number == 0 || (4 <= number && number <= 6),
        Use::Write => number == 0,
    }
}

/// The refusal of a use of a number outside the list.
fn refusal_outside(way: Use, number: u16, problem: bool) -> Option<SprRefusal>
    ensures { result ≡ refusal_outside way number problem }
{
    if problem || is_always_illegal(way, number) {
        Some(SprRefusal::Illegal)
    } else {
        None
    }
}

/// The refusal of a use of a number, in problem state or not.
#[tactic(auto, unfolding(mw_isa::specs::Sprs::refusal_of))]
pub fn refusal_of(way: Use, number: u16, problem: bool) -> Option<SprRefusal>
    ensures { result ≡ refusal_of way number problem }
{
    if is_reserved(number) {
        None
    } else if is_privileged_number(number) && problem {
        Some(SprRefusal::Privileged)
    } else if register_for(way, number).is_some() {
        None
    } else {
        refusal_outside(way, number, problem)
    }
}
