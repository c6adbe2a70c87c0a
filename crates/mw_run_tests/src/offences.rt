use crate::shared::{Left, UNSAVED, push_behind, words_of};
use mw_cli::{Status, mw_main, mw_process};
use mw_io::{MemHost, MemSink, SureHost, SureSink};
use std::alloc::{AllocError, Global};
use std::process::ExitCode;
use std::test::Fail;

/// `addis r3,0,0x6000`, `stw r3,8(0)`, `addi r5,0,1`, `b .`: the store changes the third instruction, before which the run
/// ends.
const CHANGING: &[u8] = b"\x00\x60\x60\x3c\x08\x00\x60\x90\x01\x00\xa0\x38\x00\x00\x00\x48";

/// How a run of `CHANGING` ends that comes to the third instruction.
const OFFENCE: &str = "end offence 2 fetch 0000000000000008 block 0000000000000000 changed\n";

/// The text of two cycles of `CHANGING`, with its end.
fn text_of_changing(alloc: Global, end: &str) -> Result<String, AllocError> {
    let mut text = String::new(alloc);
    text.push_str("R 0 0000000000000000 3c606000\nR 1 0000000000000004 90600008\n")?;
    text.push_str(end)?;
    let set = [(3, "0000000060000000")];
    let left = Left {
        set: &set,
        cr: "00000000",
        cia: "0000000000000008",
        saved: UNSAVED,
        dec: "7ffffffd",
        uart: "-",
    };
    push_behind(&mut text, &left)?;
    Ok(text)
}

#[test]
fn changed_code_stops_the_run(rt: HostRuntime) -> Result<(), Fail> {
    let alloc = rt.alloc();
    for (cycles, end, want) in [
        (40000, OFFENCE, Status::Offence),
        (3, OFFENCE, Status::Offence),
        (2, "end ran 2\n", Status::Done),
    ] {
        let line = format!(in alloc; "run img --cycles {cycles} --dump 0:16")?;
        let mut text = text_of_changing(alloc, end)?;
        text.push_str("m 0000000000000000 0060603c080060900000006000000048\n")?;
        let mut host = SureHost::new(alloc);
        host.put("img", CHANGING)?;
        let mut out = SureSink::new(alloc);
        let mut err = SureSink::new(alloc);
        let words = words_of(alloc, line.as_str())?;
        let status = mw_main(alloc, words.as_slice(), &mut host, &mut out, &mut err);
        assert_eq!(rt; status, want, "{cycles}");
        assert!(rt; out.as_slice() == text.as_bytes(), "{cycles}");
        assert_eq!(rt; err.as_slice(), b"".as_slice(), "{cycles}");
    }
    Ok(())
}

#[test]
fn a_process_ends_with_the_number_of_an_offence(rt: HostRuntime) -> Result<(), Fail> {
    let alloc = rt.alloc();
    for (line, end, number) in [
        ("run img --cycles 40000", OFFENCE, 1u8),
        ("run img --cycles 2", "end ran 2\n", 0),
    ] {
        let text = text_of_changing(alloc, end)?;
        let mut host = SureHost::new(alloc);
        host.put("img", CHANGING)?;
        let mut out = SureSink::new(alloc);
        let mut err = SureSink::new(alloc);
        let words = words_of(alloc, line);
        let code = mw_process(alloc, words, &mut host, &mut out, &mut err);
        assert!(rt; code == ExitCode::from(number), "{line}");
        assert!(rt; out.as_slice() == text.as_bytes(), "{line}");
        assert_eq!(rt; err.as_slice(), b"".as_slice(), "{line}");
    }
    Ok(())
}

/// A call of the host or of out that fails is told in place of the offence, and a failed write to err isn't.
#[test]
fn a_fault_is_told_before_an_offence(rt: HostRuntime) -> Result<(), Fail> {
    let alloc = rt.alloc();
    let never = 99;
    let text = text_of_changing(alloc, OFFENCE)?;
    for (of_host, of_out, of_err, want, said) in [
        (2, never, never, Status::ReadFault, "mw: cannot read img\n"),
        (never, 0, never, Status::WriteFault, "mw: cannot write\n"),
        (never, never, 0, Status::Offence, ""),
    ] {
        let mut host = MemHost::new(alloc);
        host.put("img", CHANGING)?;
        host.fail(of_host)?;
        let mut out = MemSink::new(alloc);
        out.fail(of_out)?;
        let mut err = MemSink::new(alloc);
        err.fail(of_err)?;
        let words = words_of(alloc, "run img --cycles 3")?;
        let status = mw_main(alloc, words.as_slice(), &mut host, &mut out, &mut err);
        assert_eq!(rt; status, want, "{said}");
        if want == Status::Offence {
            assert!(rt; out.as_slice() == text.as_bytes(), "{said}");
        } else {
            assert!(rt; out.as_slice().is_empty(), "{said}");
        }
        assert_eq!(rt; err.as_slice(), said.as_bytes(), "{said}");
    }
    Ok(())
}
