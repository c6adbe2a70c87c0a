use crate::shared::{Cycles, LOOP, PREFIXED, SINGLE, is_text, push_state, text_of_loop, words_of};
use mw_board::simulate;
use mw_cli::{Status, mw_main};
use mw_io::{SureHost, SureSink};
use mw_trace::print;
use mw_uart::Script;
use std::alloc::{AllocError, Global};
use std::test::Fail;

#[test]
fn a_suffix_is_printed_behind_its_prefix(rt: HostRuntime) -> Result<(), Fail> {
    let alloc = rt.alloc();
    let mut host = SureHost::new(alloc);
    host.put("img", PREFIXED)?;
    let mut out = SureSink::new(alloc);
    let mut err = SureSink::new(alloc);
    let words = words_of(alloc, "run img --cycles 20000")?;
    let status = mw_main(alloc, words.as_slice(), &mut host, &mut out, &mut err);
    assert_eq!(rt; status, Status::Done);
    let mut text = String::from_str(alloc, "R 0 0000000000000000 06120000 38600000\n")?;
    for cycle in 1..20000 {
        writeln!(text, "R {cycle} 0000000000000008 48000000")?;
    }
    let r3 = [(3, "fffffffe00000000")];
    push_state(&mut text, 20000, &r3, "0000000000000008", "7fffb1df", "-")?;
    assert!(rt; is_text(out.as_slice(), text.as_bytes(), Cycles::Count));
    Ok(())
}

#[test]
fn a_run_is_printed_whole(rt: HostRuntime) -> Result<(), Fail> {
    let alloc = rt.alloc();
    let zero = "0000000000000000";
    let four = "0000000000000004";
    let five = "0000000000000005";
    for (image, cycles, r3, cia, dec) in [
        (LOOP, 4000000, five, four, "7fc2f6ff"),
        (LOOP, 20000, five, four, "7fffb1df"),
        (LOOP, 3, five, four, "7ffffffc"),
        (SINGLE, 1, five, four, "7ffffffe"),
        (LOOP, 0, zero, zero, "7fffffff"),
        (b"".as_slice(), 0, zero, zero, "7fffffff"),
    ] {
        let mut host = SureHost::new(alloc);
        host.put("img", image)?;
        let mut out = SureSink::new(alloc);
        let mut err = SureSink::new(alloc);
        let line = format!(in alloc; "run img --cycles {cycles}")?;
        let words = words_of(alloc, line.as_str())?;
        let status = mw_main(alloc, words.as_slice(), &mut host, &mut out, &mut err);
        assert_eq!(rt; status, Status::Done, "{cycles}");
        let text = text_of_loop(alloc, cycles, r3, cia, dec)?;
        assert!(rt;
            is_text(out.as_slice(), text.as_bytes(), Cycles::Count),
            "{cycles}"
        );
        assert_eq!(rt; err.as_slice(), b"".as_slice(), "{cycles}");
    }
    Ok(())
}

#[test]
fn what_is_written_is_what_is_simulated(rt: HostRuntime) -> Result<(), Fail> {
    let alloc = rt.alloc();
    let mut host = SureHost::new(alloc);
    host.put("img", LOOP)?;
    let mut out = SureSink::new(alloc);
    let mut err = SureSink::new(alloc);
    let words = words_of(alloc, "run img --cycles 20000")?;
    let status = mw_main(alloc, words.as_slice(), &mut host, &mut out, &mut err);
    assert_eq!(rt; status, Status::Done);
    match simulate(alloc, LOOP, &Script::new(alloc), 20000) {
        Ok(run) => {
            let text = print(alloc, run.events.as_slice(), &run.end, &run.state, None)?;
            assert!(rt; out.as_slice() == text.as_slice());
        }
        Err(fault) => panic!(rt; "{fault:?}"),
    }
    Ok(())
}

/// `addi r3,0,256`, `addi r4,0,-1`, `std r4,4(r3)`, `lwz r5,8(r3)`, `lha r6,2(r3)`, `b .`
const STORING: &[u8] =
    b"\x00\x01\x60\x38\xff\xff\x80\x38\x04\x00\x83\xf8\x08\x00\xa3\x80\x02\x00\xc3\xa8\x00\x00\x00\x48";

/// The text of 60,000 cycles of `STORING`, with the 16 bytes from 256 on.
fn text_of_storing(alloc: Global) -> Result<String, AllocError> {
    let mut text = String::new(alloc);
    text.push_str(
        "\
R 0 0000000000000000 38600100
R 1 0000000000000004 3880ffff
R 2 0000000000000008 f8830004
R 3 000000000000000c 80a30008
R 4 0000000000000010 a8c30002
",
    )?;
    for cycle in 5..60000 {
        writeln!(text, "R {cycle} 0000000000000014 48000000")?;
    }
    let set = [
        (3, "0000000000000100"),
        (4, "ffffffffffffffff"),
        (5, "00000000ffffffff"),
    ];
    push_state(&mut text, 60000, &set, "0000000000000014", "7fff159f", "-")?;
    text.push_str("m 0000000000000100 00000000ffffffffffffffff00000000\n")?;
    Ok(text)
}

#[test]
fn a_store_is_dumped(rt: HostRuntime) -> Result<(), Fail> {
    let alloc = rt.alloc();
    let mut host = SureHost::new(alloc);
    host.put("img", STORING)?;
    let mut out = SureSink::new(alloc);
    let mut err = SureSink::new(alloc);
    let words = words_of(alloc, "run img --cycles 60000 --dump 256:16")?;
    let status = mw_main(alloc, words.as_slice(), &mut host, &mut out, &mut err);
    assert_eq!(rt; status, Status::Done);
    let text = text_of_storing(alloc)?;
    assert!(rt; is_text(out.as_slice(), text.as_bytes(), Cycles::Count));
    assert_eq!(rt; err.as_slice(), b"".as_slice());
    Ok(())
}

/// `ld r3,32(0)`, `addi r4,0,65`, `stb r4,0(r3)`, `b .`, zeros, and at 32 the address of the UART.
const SENDING: &[u8] =
    b"\x20\x00\x60\xe8\x41\x00\x80\x38\x00\x00\x83\x98\x00\x00\x00\x48\0\0\0\0\0\0\0\0\0\0\0\0\0\0\0\0\x00\x20\x00\xc0\0\0\0\0";

/// The text of so many cycles of `SENDING`, with the digits of the decrementer and what the UART sent.
fn text_of_sending(
    alloc: Global,
    cycles: u64,
    dec: &str,
    uart: &str,
) -> Result<String, AllocError> {
    let mut text = String::new(alloc);
    text.push_str(
        "\
R 0 0000000000000000 e8600020
R 1 0000000000000004 38800041
R 2 0000000000000008 98830000
",
    )?;
    for cycle in 3..cycles {
        writeln!(text, "R {cycle} 000000000000000c 48000000")?;
    }
    let set = [(3, "00000000c0002000"), (4, "0000000000000041")];
    push_state(&mut text, cycles, &set, "000000000000000c", dec, uart)?;
    Ok(text)
}

#[test]
fn a_byte_is_sent(rt: HostRuntime) -> Result<(), Fail> {
    let alloc = rt.alloc();
    for (cycles, dec, uart) in [
        (161, "7fffff5e", "-"),
        (162, "7fffff5d", "41"),
        (40000, "7fff63bf", "41"),
    ] {
        let mut host = SureHost::new(alloc);
        host.put("img", SENDING)?;
        let mut out = SureSink::new(alloc);
        let mut err = SureSink::new(alloc);
        let line = format!(in alloc; "run img --cycles {cycles}")?;
        let words = words_of(alloc, line.as_str())?;
        let status = mw_main(alloc, words.as_slice(), &mut host, &mut out, &mut err);
        assert_eq!(rt; status, Status::Done, "{cycles}");
        let text = text_of_sending(alloc, cycles, dec, uart)?;
        assert!(rt;
            is_text(out.as_slice(), text.as_bytes(), Cycles::Count),
            "{cycles}"
        );
        assert_eq!(rt; err.as_slice(), b"".as_slice(), "{cycles}");
    }
    Ok(())
}
