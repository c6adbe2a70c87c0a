use crate::shared::{Cycles, LOOP, is_text, text_of_loop, words_of};
use mw_cli::{Status, mw_main};
use mw_io::{SureHost, SureSink};
use std::test::Fail;

#[test]
fn a_dump_is_printed(rt: HostRuntime) -> Result<(), Fail> {
    let alloc = rt.alloc();
    let zero = "0000000000000000";
    for (span, lines) in [
        ("0:8", "m 0000000000000000 0500603800000048\n"),
        ("0:1", "m 0000000000000000 05\n"),
        ("3:4", "m 0000000000000003 38000000\n"),
        ("16777208:8", "m 0000000000fffff8 0000000000000000\n"),
        ("16777215:1", "m 0000000000ffffff 00\n"),
        (
            "0:33",
            "\
m 0000000000000000 0500603800000048000000000000000000000000000000000000000000000000
m 0000000000000020 00
",
        ),
    ] {
        let mut host = SureHost::new(alloc);
        host.put("img", LOOP)?;
        let mut out = SureSink::new(alloc);
        let mut err = SureSink::new(alloc);
        let line = format!(in alloc; "run img --cycles 0 --dump {span}")?;
        let words = words_of(alloc, line.as_str())?;
        let status = mw_main(alloc, words.as_slice(), &mut host, &mut out, &mut err);
        assert_eq!(rt; status, Status::Done, "{span}");
        let mut text = text_of_loop(alloc, 0, zero, zero, "7fffffff")?;
        text.push_str(lines)?;
        assert!(rt;
            is_text(out.as_slice(), text.as_bytes(), Cycles::Count),
            "{span}"
        );
        assert_eq!(rt; err.as_slice(), b"".as_slice(), "{span}");
    }
    Ok(())
}

#[test]
fn a_dump_is_in_its_bounds(rt: HostRuntime) -> Result<(), Fail> {
    let alloc = rt.alloc();
    for (option, want) in [
        ("--dump 0:65536", Status::Done),
        ("--dump 16711680:65536", Status::Done),
        ("--dump 16711681:65536", Status::Usage),
        ("--dump", Status::Usage),
        ("--dump=1:2", Status::Done),
        ("--dump=1=2", Status::Usage),
        ("--dump 0:8 0:8", Status::Usage),
        ("--dump 0:8 --dump 0:8", Status::Usage),
        ("-dump 0:8", Status::Usage),
        ("--dumps 0:8", Status::Usage),
        ("--dump ", Status::Usage),
        ("--dump 1", Status::Usage),
        ("--dump :", Status::Usage),
        ("--dump :1", Status::Usage),
        ("--dump 1:", Status::Usage),
        ("--dump 1:2:3", Status::Usage),
        ("--dump 1::2", Status::Usage),
        ("--dump 0:0", Status::Usage),
        ("--dump 16777216:1", Status::Usage),
        ("--dump 16777215:2", Status::Usage),
        ("--dump 16777216:0", Status::Usage),
        ("--dump 1:65537", Status::Usage),
        ("--dump 16777217:1", Status::Usage),
        ("--dump 4294967296:1", Status::Usage),
        ("--dump 0:4294967297", Status::Usage),
        ("--dump 0:18446744073709551617", Status::Usage),
        ("--dump 01:1", Status::Usage),
        ("--dump 1:01", Status::Usage),
        ("--dump +1:1", Status::Usage),
        ("--dump 1:+1", Status::Usage),
        ("--dump -1:1", Status::Usage),
        ("--dump 0x1:1", Status::Usage),
        ("--dump 1:0x1", Status::Usage),
        ("--dump a:1", Status::Usage),
        ("--dump 1;1", Status::Usage),
    ] {
        let mut host = SureHost::new(alloc);
        host.put("img", LOOP)?;
        let mut out = SureSink::new(alloc);
        let mut err = SureSink::new(alloc);
        let line = format!(in alloc; "run img --cycles 3 {option}")?;
        let words = words_of(alloc, line.as_str())?;
        let status = mw_main(alloc, words.as_slice(), &mut host, &mut out, &mut err);
        assert_eq!(rt; status, want, "{option}");
        assert_eq!(rt; out.as_slice().is_empty(), want != Status::Done, "{option}");
        assert_eq!(rt; err.as_slice().is_empty(), want == Status::Done, "{option}");
    }
    Ok(())
}
