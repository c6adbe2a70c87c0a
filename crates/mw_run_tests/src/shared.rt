use std::alloc::{AllocError, Global};

/// `addi r3,0,5` at 0, and `b .` at 4, little-endian.
pub const LOOP: &[u8] = b"\x05\x00\x60\x38\x00\x00\x00\x48";

/// The first instruction of `LOOP` alone: behind it stands the word 0, which is illegal.
pub const SINGLE: &[u8] = b"\x05\x00\x60\x38";

/// paddi r3,0,-8589934592,1 and behind it `b .`: a prefix and its suffix, and a word.
pub const PREFIXED: &[u8] = b"\x00\x00\x12\x06\x00\x00\x60\x38\x00\x00\x00\x48";

/// The lines between that of the decrementer and that of the UART.
pub const BEHIND: &str = "\
pidr 00000000
sprg0 0000000000000000
sprg1 0000000000000000
sprg2 0000000000000000
sprg3 0000000000000000
hsprg0 0000000000000000
hsprg1 0000000000000000
prtbl 0000000000000000
";

/// The digits of the register of a number: those given for it, or zeros.
fn digits_of<'a>(set: &[(usize, &'a str)], number: usize) -> &'a str {
    for (register, digits) in set {
        if *register == number {
            return *digits;
        }
    }
    "0000000000000000"
}

/// What a run leaves: the registers of a number, with their digits, all others being 0; CR; the address; SRR0, SRR1 and
/// DAR; the decrementer; and what the UART sent.
#[derive(Clone, Copy)]
pub struct Left<'a> {
    pub set: &'a [(usize, &'a str)],
    pub cr: &'a str,
    pub cia: &'a str,
    pub saved: [&'a str; 3],
    pub dec: &'a str,
    pub uart: &'a str,
}

/// No interrupt was taken, and DAR wasn't set.
pub const UNSAVED: [&str; 3] = ["0000000000000000", "0000000000000000", "0000000000000000"];

/// Appends the lines from that of MSR to that of DSISR.
pub fn push_between(text: &mut String, saved: &[&str; 3]) -> Result<(), AllocError> {
    let [srr0, srr1, dar] = saved;
    text.push_str("msr 9000000000001001\n")?;
    writeln!(text, "srr0 {srr0}")?;
    writeln!(text, "srr1 {srr1}")?;
    text.push_str("hsrr0 0000000000000000\nhsrr1 0000000000000000\n")?;
    writeln!(text, "dar {dar}")?;
    text.push_str("dsisr 00000000\n")
}

/// Appends the lines behind the end's.
pub fn push_behind(text: &mut String, left: &Left) -> Result<(), AllocError> {
    for number in 0..32 {
        let digits = digits_of(left.set, number);
        writeln!(text, "r{number} {digits}")?;
    }
    writeln!(text, "cr {}", left.cr)?;
    for name in ["xer", "lr", "ctr", "tar"] {
        writeln!(text, "{name} 0000000000000000")?;
    }
    writeln!(text, "cia {}", left.cia)?;
    push_between(text, &left.saved)?;
    writeln!(text, "dec {}", left.dec)?;
    text.push_str(BEHIND)?;
    writeln!(text, "uart {}", left.uart)?;
    Ok(())
}

/// Appends the lines from the end's on, of a run that reached its number of cycles.
pub fn push_left(text: &mut String, cycles: u64, left: &Left) -> Result<(), AllocError> {
    writeln!(text, "end ran {cycles}")?;
    push_behind(text, left)
}

/// Appends the lines from the end's on, of a run that took no interrupt and left CR 0.
pub fn push_state<'l>(
    text: &mut String,
    cycles: u64,
    set: &'l [(usize, &'l str)],
    cia: &'l str,
    dec: &'l str,
    uart: &'l str,
) -> Result<(), AllocError> {
    let left = Left {
        set,
        cr: "00000000",
        cia,
        saved: UNSAVED,
        dec,
        uart,
    };
    push_left(text, cycles, &left)
}

/// Whether the cycles of events count where two texts are compared. A board with other cycles has the same events.
#[derive(Clone, Copy)]
pub enum Cycles {
    Count,
    LeftOut,
}

/// A line, without the cycle if it is that of an event.
fn without_cycle(line: &[u8]) -> (&[u8], &[u8]) {
    if line.len() < 2 || line[1] != b' ' {
        return (line, b"");
    }
    match line[2..].iter().position(|byte| *byte == b' ') {
        None => (line, b""),
        Some(length) => (&line[..1], &line[2 + length..]),
    }
}

/// Whether a printed text is the wanted one.
pub fn is_text(printed: &[u8], wanted: &[u8], cycles: Cycles) -> bool {
    match cycles {
        Cycles::Count => printed == wanted,
        Cycles::LeftOut => {
            let lines = printed.split(|byte| *byte == b'\n').map(without_cycle);
            let others = wanted.split(|byte| *byte == b'\n').map(without_cycle);
            lines.eq(others)
        }
    }
}

/// The text of so many cycles of the loop, with the digits of r3, of the address and of the decrementer that it leaves.
pub fn text_of_loop(
    alloc: Global,
    cycles: u64,
    r3: &str,
    cia: &str,
    dec: &str,
) -> Result<String, AllocError> {
    let mut text = String::new(alloc);
    for cycle in 0..cycles {
        if cycle == 0 {
            text.push_str("R 0 0000000000000000 38600005\n")?;
        } else {
            writeln!(text, "R {cycle} 0000000000000004 48000000")?;
        }
    }
    push_state(&mut text, cycles, &[(3, r3)], cia, dec, "-")?;
    Ok(text)
}

/// The words between blanks.
pub fn words_of(alloc: Global, line: &str) -> Result<Vec<String>, AllocError> {
    let mut words = Vec::new(alloc);
    for word in line.split(' ') {
        words.push(String::from_str(alloc, word)?)?;
    }
    Ok(words)
}
