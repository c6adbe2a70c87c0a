use crate::shared::{Cycles, is_text, push_state, words_of};
use mw_cli::{Status, mw_main};
use mw_io::{SureHost, SureSink};
use std::alloc::{AllocError, Global};
use std::test::Fail;

// li r3,0; oris r3,r3,0xc000; ori r3,r3,0x2000
const UART: [u32; 3] = [0x3860_0000, 0x6463_c000, 0x6063_2000];

/// The words behind those that put the UART's address into r3, the text of a script, a number of cycles, registers with
/// their contents, the decrementer, and what the UART sent.
struct Arrival(
    &'static [u32],
    &'static [u8],
    u64,
    &'static [(usize, &'static str)],
    &'static str,
    &'static str,
);

#[rattlefmt::skip]
static ARRIVALS: [Arrival; 5] = [
    // lbz r4,8(r3); lbz r5,9(r3); lbz r6,8(r3); lbz r7,8(r3); b .
    Arrival(&[0x8883_0008, 0x88a3_0009, 0x88c3_0008, 0x88e3_0008], b"4 41", 20, &[(6, "0000000000000041")], "7fffffeb", "-"),
    // the byte arrives in the cycle of the load
    Arrival(&[0x8883_0008, 0x88a3_0009, 0x88c3_0008, 0x88e3_0008], b"3 41", 20, &[(4, "0000000000000041")], "7fffffeb", "-"),
    // ld r4,16(r3); lbz r5,8(r3); lbz r6,8(r3); ld r7,16(r3); b . with 17 bytes, of which one is lost
    Arrival(&[0xe883_0010, 0x88a3_0008, 0x88c3_0008, 0xe8e3_0010], b"0 000102030405060708090a0b0c0d0e0f10", 600, &[(4, "0000000000000006"), (6, "0000000000000001"), (7, "0000000000000002")], "7ffffda7", "-"),
    // lbz r4,8(r3); stb r4,0(r3); lbz r4,8(r3); stb r4,0(r3); b .: what arrives is sent back
    Arrival(&[0x8883_0008, 0x9883_0000, 0x8883_0008, 0x9883_0000], b"# a greeting\n0 4865\n", 325, &[(4, "0000000000000065")], "7ffffeba", "4865"),
    Arrival(&[0x8883_0008, 0x9883_0000, 0x8883_0008, 0x9883_0000], b"0 4865\n", 323, &[(4, "0000000000000065")], "7ffffebc", "48"),
];

/// The bytes of words in little-endian order.
fn push_words(image: &mut Vec<u8>, words: &[u32]) -> Result<(), AllocError> {
    for word in words {
        image.extend_from_slice(&word.to_le_bytes())?;
    }
    Ok(())
}

/// The last two digits of the addresses of the seven words in front of `b .`.
const PLACES: [&str; 7] = ["00", "04", "08", "0c", "10", "14", "18"];

/// The text of so many cycles of these words and b ., with the registers, the decrementer and what the UART sent.
fn text_of_arrival<'l>(
    alloc: Global,
    words: &[u32],
    cycles: u64,
    set: &'l [(usize, &'l str)],
    dec: &'l str,
    uart: &'l str,
) -> Result<String, AllocError> {
    let mut text = String::new(alloc);
    for ((cycle, word), place) in words.iter().enumerate().zip(&PLACES) {
        writeln!(text, "R {cycle} 00000000000000{place} {word:08x}")?;
    }
    for cycle in 7..cycles {
        writeln!(text, "R {cycle} 000000000000001c 48000000")?;
    }
    push_state(&mut text, cycles, set, "000000000000001c", dec, uart)?;
    Ok(text)
}

#[test]
fn bytes_arrive_at_a_run(rt: HostRuntime) -> Result<(), Fail> {
    let alloc = rt.alloc();
    for Arrival(words, script, cycles, contents, dec, uart) in &ARRIVALS {
        let mut all = Vec::new(alloc);
        all.extend_from_slice(&UART)?;
        all.extend_from_slice(*words)?;
        let mut image = Vec::new(alloc);
        push_words(&mut image, all.as_slice())?;
        push_words(&mut image, &[0x4800_0000])?;
        let mut set = Vec::new(alloc);
        set.push((3, "00000000c0002000"))?;
        set.extend_from_slice(*contents)?;
        let mut host = SureHost::new(alloc);
        host.put("img", image.as_slice())?;
        host.put("s", *script)?;
        let mut out = SureSink::new(alloc);
        let mut err = SureSink::new(alloc);
        let line = format!(in alloc; "run img --cycles {cycles} --script s")?;
        let words = words_of(alloc, line.as_str())?;
        let status = mw_main(alloc, words.as_slice(), &mut host, &mut out, &mut err);
        assert_eq!(rt; status, Status::Done, "{script:?}");
        let text = text_of_arrival(alloc, all.as_slice(), *cycles, set.as_slice(), *dec, *uart)?;
        assert!(rt;
            is_text(out.as_slice(), text.as_bytes(), Cycles::Count),
            "{script:?} at {cycles}"
        );
        assert!(rt; err.as_slice().is_empty(), "{script:?}");
    }
    Ok(())
}

/// A script is read behind a dump, and where no byte of it arrives within the run.
#[test]
fn a_script_stands_behind_a_dump(rt: HostRuntime) -> Result<(), Fail> {
    let alloc = rt.alloc();
    let mut host = SureHost::new(alloc);
    host.put("img", b"\x00\x00\x00\x48")?;
    host.put("s", b"\n# nothing yet\n4000000 41\n")?;
    let mut out = SureSink::new(alloc);
    let mut err = SureSink::new(alloc);
    let words = words_of(alloc, "run img --cycles 2 --dump 0:4 --script s")?;
    let status = mw_main(alloc, words.as_slice(), &mut host, &mut out, &mut err);
    assert_eq!(rt; status, Status::Done);
    let mut text = String::new(alloc);
    text.push_str("R 0 0000000000000000 48000000\nR 1 0000000000000000 48000000\n")?;
    push_state(&mut text, 2, &[], "0000000000000000", "7ffffffd", "-")?;
    text.push_str("m 0000000000000000 00000048\n")?;
    assert_eq!(rt; out.as_slice(), text.as_bytes());
    assert!(rt; err.as_slice().is_empty());
    Ok(())
}

/// A console: li r3,0; oris r3,r3,0xc000; ori r3,r3,0x2000; li r4,53; std r4,24(r3); li r5,text; next: lbz r6,0(r5);
/// cmpli 0,1,r6,0; bc 12,2,echo; send: ld r7,16(r3); andi. r7,r7,8; bc 4,2,send; stb r6,0(r3); addi r5,r5,1; b next;
/// echo: ld r7,16(r3); andi. r7,r7,1; bc 4,2,echo; lbz r6,8(r3); put: ld r7,16(r3); andi. r7,r7,8; bc 4,2,put; stb
/// r6,0(r3); b echo; text: "Hello World", a new line and a zero.
#[rattlefmt::skip]
const CONSOLE: [u32; 28] = [
    0x3860_0000, 0x6463_c000, 0x6063_2000, 0x3880_0035, 0xf883_0018, 0x38a0_0060, 0x88c5_0000, 0x2826_0000,
    0x4182_001c, 0xe8e3_0010, 0x70e7_0008, 0x4082_fff8, 0x98c3_0000, 0x38a5_0001, 0x4bff_ffe0, 0xe8e3_0010,
    0x70e7_0001, 0x4082_fff8, 0x88c3_0008, 0xe8e3_0010, 0x70e7_0008, 0x4082_fff8, 0x98c3_0000, 0x4bff_ffe0,
    0x6c6c_6548, 0x6f57_206f, 0x0a64_6c72, 0x0000_0000,
];

/// The console's greeting goes out, a byte every 8,640 cycles, and behind it each byte that arrives.
#[test]
fn a_console_greets_and_sends_back(rt: HostRuntime) -> Result<(), Fail> {
    let alloc = rt.alloc();
    let mut image = Vec::new(alloc);
    push_words(&mut image, &CONSOLE)?;
    let mut host = SureHost::new(alloc);
    host.put("img", image.as_slice())?;
    host.put(
        "s",
        b"200000 61\n220000 62\n240000 63\n260000 0d\n280000 0a\n",
    )?;
    let mut out = SureSink::new(alloc);
    let mut err = SureSink::new(alloc);
    let words = words_of(alloc, "run img --cycles 600000 --script s")?;
    let status = mw_main(alloc, words.as_slice(), &mut host, &mut out, &mut err);
    assert_eq!(rt; status, Status::Done);
    assert!(rt;
        out.as_slice()
            .ends_with(b"\nuart 48656c6c6f20576f726c640a6162630d0a\n")
    );
    assert!(rt; err.as_slice().is_empty());
    Ok(())
}

/// li r3,0; oris r3,r3,0xc000; ori r3,r3,0x2000; ld r4,16(r3); li r5,16; mtspr 9,r5; li r6,0; loop: lbz r7,8(r3); add
/// r6,r6,r7; bc 16,0,loop; ld r9,16(r3); lbz r10,8(r3); b .
#[rattlefmt::skip]
const SUMMING: [u32; 13] = [
    0x3860_0000, 0x6463_c000, 0x6063_2000, 0xe883_0010, 0x38a0_0010, 0x7ca9_03a6, 0x38c0_0000, 0x88e3_0008,
    0x7cc6_3a14, 0x4200_fff8, 0xe923_0010, 0x8943_0008, 0x4800_0000,
];

/// The registers behind `SUMMING` that aren't 0: the queue is full of 16 bytes, whose sum is 0x78, and then it is empty.
#[rattlefmt::skip]
const SUMMED: [(usize, &str); 6] = [
    (3, "00000000c0002000"), (4, "0000000000000006"), (5, "0000000000000010"), (6, "0000000000000078"),
    (7, "000000000000000f"), (9, "0000000000000003"),
];

/// Seventeen bytes arrive in one cycle, and the last of them is lost.
#[test]
fn what_arrives_at_once_is_summed_up(rt: HostRuntime) -> Result<(), Fail> {
    let alloc = rt.alloc();
    let mut image = Vec::new(alloc);
    push_words(&mut image, &SUMMING)?;
    let mut host = SureHost::new(alloc);
    host.put("img", image.as_slice())?;
    host.put("s", b"0 000102030405060708090a0b0c0d0e0f10")?;
    let mut out = SureSink::new(alloc);
    let mut err = SureSink::new(alloc);
    let words = words_of(alloc, "run img --cycles 600000 --script s")?;
    let status = mw_main(alloc, words.as_slice(), &mut host, &mut out, &mut err);
    assert_eq!(rt; status, Status::Done);
    let mut text = String::new(alloc);
    push_state(
        &mut text,
        600000,
        &SUMMED,
        "0000000000000030",
        "7ff6d83f",
        "-",
    )?;
    assert!(rt; out.as_slice().ends_with(text.as_bytes()));
    assert!(rt; err.as_slice().is_empty());
    Ok(())
}
