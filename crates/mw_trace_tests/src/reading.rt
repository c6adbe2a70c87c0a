use mw_isa::{Event, Vector};
use mw_trace::{BadLine, event_lines, read};
use std::test::Fail;

/// An event of each kind, with the greatest numbers that fit.
#[rattlefmt::skip]
static EVENTS: [Event; 6] = [
    Event::Retire { cycle: 0, cia: 0, word: 0x3860_0005, suffix: None },
    Event::Trap { cycle: 7, cia: 0x24, vector: Vector::DataStorage },
    Event::Retire { cycle: 10, cia: 0x3c, word: 0x0600_0000, suffix: Some(0x3860_0005) },
    Event::Irq { cycle: 20, nia: 0xfedc_ba98_7654_3210, vector: Vector::Decrementer },
    Event::Trap { cycle: 4_000_000, cia: 0x40, vector: Vector::VsxUnavailable },
    Event::Retire { cycle: u64::MAX, cia: u64::MAX, word: u32::MAX, suffix: Some(u32::MAX) },
];

/// The lines of these events.
const LINES: &str = "\
R 0 0000000000000000 38600005
T 7 0000000000000024 0300
R 10 000000000000003c 06000000 38600005
I 20 fedcba9876543210 0900
T 4000000 0000000000000040 0f40
R 18446744073709551615 ffffffffffffffff ffffffff ffffffff
";

/// A text that isn't read, and the number of its line that is refused.
struct Refused(&'static str, u64);

#[rattlefmt::skip]
static REFUSED: [Refused; 30] = [
    // too few words, and too many
    Refused("R 5\n", 1),
    Refused("R 5", 1),
    Refused("R 0 0000000000000000\n", 1),
    Refused("R 0 0000000000000000 06000000 38600005 60000000\n", 1),
    Refused("T 0 0000000000000000 0700 60000000\n", 1),
    // the last line lacks its line feed
    Refused("R 0 0000000000000000 38600005", 1),
    Refused("R 0 0000000000000000 38600005\nR 1 0000000000000004 48000000", 2),
    // a line is empty
    Refused("\n", 1),
    Refused("R 0 0000000000000000 38600005\n\n", 2),
    Refused("R 0 0000000000000000 38600005\n\nR 1 0000000000000004 48000000\n", 2),
    // a cycle stands twice, or falls
    Refused("R 0 0000000000000000 38600005\nR 0 0000000000000004 48000000\n", 2),
    Refused("R 7 0000000000000000 38600005\nR 8 0000000000000004 48000000\nI 3 0000000000000004 0900\n", 3),
    // a vector that there isn't, and one of another length
    Refused("T 0 0000000000000000 0701\n", 1),
    Refused("T 0 0000000000000000 700\n", 1),
    Refused("I 0 0000000000000000 00000900\n", 1),
    // digits and kinds of the other case
    Refused("R 0 000000000000003C 38600005\n", 1),
    Refused("R 0 000000000000003c 7C0802A6\n", 1),
    Refused("T 0 0000000000000000 0F40\n", 1),
    Refused("r 0 0000000000000000 38600005\n", 1),
    // two blanks, and blanks at the ends
    Refused("R 0  0000000000000000 38600005\n", 1),
    Refused("R 0 0000000000000000 38600005 \n", 1),
    Refused(" R 0 0000000000000000 38600005\n", 1),
    // leading zeros, a sign, no digit
    Refused("R 00 0000000000000000 38600005\n", 1),
    Refused("R 01 0000000000000000 38600005\n", 1),
    Refused("R +1 0000000000000000 38600005\n", 1),
    Refused("R  0000000000000000 38600005\n", 1),
    // the digits of an address and a word are too few
    Refused("R 0 000000000000000 38600005\n", 1),
    Refused("R 0 0000000000000000 3860005\n", 1),
    // a number of 65 bits
    Refused("R 18446744073709551616 0000000000000000 38600005\n", 1),
    // an end's line
    Refused("R 0 0000000000000000 38600005\nend ran 1\n", 2),
];

#[test]
fn events_have_their_lines(rt: HostRuntime) -> Result<(), Fail> {
    let lines = event_lines(rt.alloc(), &EVENTS)?;
    assert!(rt; lines.as_slice() == LINES.as_bytes());
    Ok(())
}

#[test]
fn lines_are_read_as_their_events(rt: HostRuntime) {
    match read(rt.alloc(), LINES.as_bytes()) {
        Ok(events) => assert_eq!(rt; events.as_slice(), EVENTS.as_slice()),
        Err(fault) => panic!(rt; "{fault:?}"),
    }
}

#[test]
fn no_line_is_no_event(rt: HostRuntime) {
    match read(rt.alloc(), b"") {
        Ok(events) => assert!(rt; events.as_slice().is_empty()),
        Err(fault) => panic!(rt; "{fault:?}"),
    }
}

#[test]
fn other_lines_are_refused(rt: HostRuntime) {
    for Refused(text, line) in &REFUSED {
        match read(rt.alloc(), text.as_bytes()) {
            Ok(_) => panic!(rt; "{text:?}"),
            Err(fault) => assert!(rt;
                fault == BadLine::Bad { line: *line },
                "{text:?}: {fault:?}"
            ),
        }
    }
}
