use arrayvec::ArrayVec;
use mw_board::simulate;
use mw_isa::{End, Event, Vector};
use mw_trace::{end_line, event_lines, print, print_behind, read, set_lines};
use mw_uart::Script;
use std::alloc::{AllocError as NoMemory, Global};
use std::test::Fail;

// li r3,0; oris r3,r3,0xc000; ori r5,r3,0x2000; li r6,2; std r6,32(r5); ori r7,r3,0x5800; li r8,5; stwbrx r8,r0,r7;
// ori r9,r3,0x4004; li r10,255; stb r10,0(r9); li r11,-1; mtspr 22,r11; mfmsr r4; ori r4,r4,0x8000; mtmsrd r4,1; b .
#[rattlefmt::skip]
const PROGRAM: [u32; 17] = [
    0x3860_0000, 0x6463_c000, 0x6065_2000, 0x38c0_0002, 0xf8c5_0020, 0x6067_5800, 0x3900_0005, 0x7d00_3d2c,
    0x6069_4004, 0x3940_00ff, 0x9949_0000, 0x3960_ffff, 0x7d76_03a6, 0x7c80_00a6, 0x6084_8000, 0x7c81_0164,
    0x4800_0000,
];

// lwbrx r12,r0,r9; rfid
const EXTERNAL: [u32; 2] = [0x7d80_4c2c, 0x4c00_0024];

// lis r11,0x7fff; mtspr 22,r11; rfid
const DECREMENTER: [u32; 3] = [0x3d60_7fff, 0x7d76_03a6, 0x4c00_0024];

/// `li r3,5; b .`
const LOOP: &[u8] = b"\x05\x00\x60\x38\x00\x00\x00\x48";

/// The first three lines of its events.
const LOOP_LINES: &str = "\
R 0 0000000000000000 38600005
R 1 0000000000000004 48000000
R 2 0000000000000004 48000000
";

/// All that happens in 24 cycles.
#[rattlefmt::skip]
static EVENTS: [Event; 24] = [
    Event::Retire { cycle: 0, cia: 0, word: 0x3860_0000, suffix: None },
    Event::Retire { cycle: 1, cia: 0x4, word: 0x6463_c000, suffix: None },
    Event::Retire { cycle: 2, cia: 0x8, word: 0x6065_2000, suffix: None },
    Event::Retire { cycle: 3, cia: 0xc, word: 0x38c0_0002, suffix: None },
    Event::Retire { cycle: 4, cia: 0x10, word: 0xf8c5_0020, suffix: None },
    Event::Retire { cycle: 5, cia: 0x14, word: 0x6067_5800, suffix: None },
    Event::Retire { cycle: 6, cia: 0x18, word: 0x3900_0005, suffix: None },
    Event::Retire { cycle: 7, cia: 0x1c, word: 0x7d00_3d2c, suffix: None },
    Event::Retire { cycle: 8, cia: 0x20, word: 0x6069_4004, suffix: None },
    Event::Retire { cycle: 9, cia: 0x24, word: 0x3940_00ff, suffix: None },
    Event::Retire { cycle: 10, cia: 0x28, word: 0x9949_0000, suffix: None },
    Event::Retire { cycle: 11, cia: 0x2c, word: 0x3960_ffff, suffix: None },
    Event::Retire { cycle: 12, cia: 0x30, word: 0x7d76_03a6, suffix: None },
    Event::Retire { cycle: 13, cia: 0x34, word: 0x7c80_00a6, suffix: None },
    Event::Retire { cycle: 14, cia: 0x38, word: 0x6084_8000, suffix: None },
    Event::Retire { cycle: 15, cia: 0x3c, word: 0x7c81_0164, suffix: None },
    Event::Irq { cycle: 16, nia: 0x40, vector: Vector::External },
    Event::Retire { cycle: 17, cia: 0x500, word: 0x7d80_4c2c, suffix: None },
    Event::Retire { cycle: 18, cia: 0x504, word: 0x4c00_0024, suffix: None },
    Event::Irq { cycle: 19, nia: 0x40, vector: Vector::Decrementer },
    Event::Retire { cycle: 20, cia: 0x900, word: 0x3d60_7fff, suffix: None },
    Event::Retire { cycle: 21, cia: 0x904, word: 0x7d76_03a6, suffix: None },
    Event::Retire { cycle: 22, cia: 0x908, word: 0x4c00_0024, suffix: None },
    Event::Retire { cycle: 23, cia: 0x40, word: 0x4800_0000, suffix: None },
];

/// The lines of the events, and that of the end.
const LINES: &str = "\
R 0 0000000000000000 38600000
R 1 0000000000000004 6463c000
R 2 0000000000000008 60652000
R 3 000000000000000c 38c00002
R 4 0000000000000010 f8c50020
R 5 0000000000000014 60675800
R 6 0000000000000018 39000005
R 7 000000000000001c 7d003d2c
R 8 0000000000000020 60694004
R 9 0000000000000024 394000ff
R 10 0000000000000028 99490000
R 11 000000000000002c 3960ffff
R 12 0000000000000030 7d7603a6
R 13 0000000000000034 7c8000a6
R 14 0000000000000038 60848000
R 15 000000000000003c 7c810164
I 16 0000000000000040 0500
R 17 0000000000000500 7d804c2c
R 18 0000000000000504 4c000024
I 19 0000000000000040 0900
R 20 0000000000000900 3d607fff
R 21 0000000000000904 7d7603a6
R 22 0000000000000908 4c000024
R 23 0000000000000040 48000000
end ran 24
";

/// What the general purpose registers hold behind the run, r0 first.
#[rattlefmt::skip]
static GENERAL: [u64; 32] = [
    0, 0, 0, 0xc000_0000, 0x9000_0000_0000_9001, 0xc000_2000, 2, 0xc000_5800,
    5, 0xc000_4004, 0xff, 0x7fff_0000, 0xff00_0010, 0, 0, 0,
    0, 0, 0, 0, 0, 0, 0, 0,
    0, 0, 0, 0, 0, 0, 0, 0,
];

/// The digits of a register of 64 bits that holds 0.
const ZERO: &str = "0000000000000000";

/// The names of the lines behind those registers, with what stands in each.
#[rattlefmt::skip]
static NAMED: [(&str, &str); 23] = [
    ("cr", "00000000"), ("xer", ZERO), ("lr", ZERO), ("ctr", ZERO), ("tar", ZERO),
    ("cia", "0000000000000040"), ("msr", "9000000000009001"),
    ("srr0", "0000000000000040"), ("srr1", "9000000000009001"), ("hsrr0", ZERO), ("hsrr1", ZERO),
    ("dar", ZERO), ("dsisr", "00000000"), ("dec", "7ffefffd"), ("pidr", "00000000"),
    ("sprg0", ZERO), ("sprg1", ZERO), ("sprg2", ZERO), ("sprg3", ZERO), ("hsprg0", ZERO), ("hsprg1", ZERO),
    ("prtbl", ZERO), ("uart", "-"),
];

/// Appends words in little-endian order at an address, with zeros before them.
fn push_words(image: &mut Vec<u8>, address: usize, words: &[u32]) -> Result<(), NoMemory> {
    image.resize(address, 0)?;
    for word in words {
        image.extend_from_slice(&word.to_le_bytes())?;
    }
    Ok(())
}

/// The program with its two handlers.
fn image_of(alloc: Global) -> Result<Vec<u8>, NoMemory> {
    let mut image = Vec::new(alloc);
    push_words(&mut image, 0, &PROGRAM)?;
    push_words(&mut image, 0x500, &EXTERNAL)?;
    push_words(&mut image, 0x900, &DECREMENTER)?;
    Ok(image)
}

/// The whole text of the run.
fn text_of_run(alloc: Global) -> Result<String, NoMemory> {
    let mut text = String::from_str(alloc, LINES)?;
    for (number, content) in GENERAL.iter().enumerate() {
        writeln!(text, "r{number} {content:016x}")?;
    }
    for (name, digits) in &NAMED {
        writeln!(text, "{name} {digits}")?;
    }
    Ok(text)
}

#[test]
fn a_run_takes_both_interrupts(rt: HostRuntime) -> Result<(), Fail> {
    let alloc = rt.alloc();
    let image = image_of(alloc)?;
    match simulate(alloc, image.as_slice(), &Script::new(alloc), 24) {
        Ok(run) => {
            assert_eq!(rt; run.end, End::Ran { cycle: 24 });
            assert_eq!(rt; run.events.as_slice(), EVENTS.as_slice());
            let text = print(alloc, run.events.as_slice(), &run.end, &run.state, None)?;
            let wanted = text_of_run(alloc)?;
            assert!(rt; text.as_slice() == wanted.as_bytes());
            let mut piece = ArrayVec::new();
            set_lines(&mut piece, run.events.as_slice());
            let behind = print_behind(alloc, &run.end, &run.state, None)?;
            let length = piece.as_slice().len().wrapping_add(behind.as_slice().len());
            assert_eq!(rt; length, wanted.len());
            assert!(rt; wanted.as_bytes().starts_with(piece.as_slice()));
            assert!(rt; wanted.as_bytes().ends_with(behind.as_slice()));
        }
        Err(fault) => panic!(rt; "{fault:?}"),
    }
    Ok(())
}

#[test]
fn the_lines_of_a_run_are_read_back(rt: HostRuntime) -> Result<(), Fail> {
    let alloc = rt.alloc();
    match simulate(alloc, LOOP, &Script::new(alloc), 20_000) {
        Ok(run) => {
            let lines = event_lines(alloc, run.events.as_slice())?;
            assert!(rt; lines.as_slice().starts_with(LOOP_LINES.as_bytes()));
            match read(alloc, lines.as_slice()) {
                Ok(events) => {
                    assert_eq!(rt; events.as_slice().len(), 20_000);
                    assert!(rt; events.as_slice() == run.events.as_slice());
                    let again = event_lines(alloc, events.as_slice())?;
                    assert!(rt; again.as_slice() == lines.as_slice());
                }
                Err(fault) => panic!(rt; "{fault:?}"),
            }
            let end = end_line(alloc, &run.end)?;
            assert!(rt; end.as_slice() == "end ran 20000\n".as_bytes());
        }
        Err(fault) => panic!(rt; "{fault:?}"),
    }
    Ok(())
}
