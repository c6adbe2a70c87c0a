use crate::shared::{LOOP, PREFIXED, words_of};
use mw_cli::{Status, mw_main};
use mw_io::{SureHost, SureSink};
use std::test::Fail;

/// The disassembly of `LOOP`.
const LISTING: &str = "\
0000000000000000 38600005 addi r3,r0,5
0000000000000004 48000000 b 0x4
";

#[test]
fn a_file_is_assembled_or_disassembled(rt: HostRuntime) -> Result<(), Fail> {
    let alloc = rt.alloc();
    let none = b"".as_slice();
    for (line, file, want) in [
        ("asm s", b"li r3,5\nb .\n".as_slice(), LOOP),
        ("asm s", b"li r3,5\nb .".as_slice(), LOOP),
        (
            "asm s",
            b"paddi r3,0,-8589934592,1\nb .\n".as_slice(),
            PREFIXED,
        ),
        ("asm s", b"# nothing\n".as_slice(), none),
        ("asm s", none, none),
        ("dis s", LOOP, LISTING.as_bytes()),
        ("dis s", none, none),
    ] {
        let mut host = SureHost::new(alloc);
        host.put("s", file)?;
        let mut out = SureSink::new(alloc);
        let mut err = SureSink::new(alloc);
        let words = words_of(alloc, line)?;
        let status = mw_main(alloc, words.as_slice(), &mut host, &mut out, &mut err);
        assert_eq!(rt; status, Status::Done, "{line}");
        assert_eq!(rt; out.as_slice(), want, "{line}");
        assert_eq!(rt; err.as_slice(), none, "{line}");
    }
    Ok(())
}

#[test]
fn the_largest_image_is_served(rt: HostRuntime) -> Result<(), Fail> {
    let alloc = rt.alloc();
    let zeros = vec![in alloc; 0u8; 16777217]?;
    let mut host = SureHost::new(alloc);
    host.put("over", zeros.as_slice())?;
    host.put("full", zeros.as_slice().split_at(16777216).0)?;
    for (line, want, said) in [
        ("run full --cycles 0", Status::Done, ""),
        (
            "run over --cycles 0",
            Status::ImageTooLarge,
            "mw: image exceeds 16777216 bytes\n",
        ),
        (
            "dis over",
            Status::ImageTooLarge,
            "mw: image exceeds 16777216 bytes\n",
        ),
    ] {
        let mut out = SureSink::new(alloc);
        let mut err = SureSink::new(alloc);
        let words = words_of(alloc, line)?;
        let status = mw_main(alloc, words.as_slice(), &mut host, &mut out, &mut err);
        assert_eq!(rt; status, want, "{line}");
        assert_eq!(rt; out.as_slice().is_empty(), want != Status::Done, "{line}");
        assert_eq!(rt; err.as_slice(), said.as_bytes(), "{line}");
    }
    Ok(())
}

#[test]
fn the_longest_source_is_served(rt: HostRuntime) -> Result<(), Fail> {
    let alloc = rt.alloc();
    let comment = vec![in alloc; b'#'; 4194305]?;
    let lines = vec![in alloc; b'\n'; 4194305]?;
    let mut host = SureHost::new(alloc);
    host.put("full", comment.as_slice().split_at(4194304).0)?;
    host.put("long", comment.as_slice())?;
    host.put("tall", lines.as_slice())?;
    for (line, want, said) in [
        ("asm full", Status::Done, ""),
        (
            "asm long",
            Status::BadInput,
            "mw: long:1:4194305: bad input\n",
        ),
        (
            "asm tall",
            Status::BadInput,
            "mw: tall:4194305:1: bad input\n",
        ),
    ] {
        let mut out = SureSink::new(alloc);
        let mut err = SureSink::new(alloc);
        let words = words_of(alloc, line)?;
        let status = mw_main(alloc, words.as_slice(), &mut host, &mut out, &mut err);
        assert_eq!(rt; status, want, "{line}");
        assert!(rt; out.as_slice().is_empty(), "{line}");
        assert_eq!(rt; err.as_slice(), said.as_bytes(), "{line}");
    }
    Ok(())
}
