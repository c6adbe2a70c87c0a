use crate::shared::{LOOP, USAGE, words_by};
use mw_cli::{Status, mw_main};
use mw_io::{SureHost, SureSink};
use std::alloc::{AllocError, Global};
use std::test::Fail;

/// What a call answers, and what out and err took.
#[derive(Drop)]
struct Answer {
    status: Status,
    out: SureSink,
    err: SureSink,
}

/// What is answered to words that a bar separates, over a host with an image, a script and a source.
fn answer_to(alloc: Global, line: &str) -> Result<Answer, AllocError> {
    let mut host = SureHost::new(alloc);
    host.put("img", LOOP)?;
    host.put("s", b"2 41\n")?;
    host.put("a=b:c d", b"2 41\n")?;
    host.put("src", b"li r3,5\nb .\n")?;
    let mut out = SureSink::new(alloc);
    let mut err = SureSink::new(alloc);
    let words = words_by(alloc, line, '|')?;
    let status = mw_main(alloc, words.as_slice(), &mut host, &mut out, &mut err);
    Ok(Answer { status, out, err })
}

/// Words that ask for the same.
#[rattlefmt::skip]
static SAME: [&[&str]; 4] = [
    &["run|img|--cycles|5", "run|--cycles|5|img", "run|img|--cycles=5", "run|--cycles=5|img"],
    &["run|img|--cycles|5|--dump|0:16", "run|--dump=0:16|img|--cycles=5", "run|img|--dump|0:16|--cycles|5"],
    &[
        "run|img|--cycles|5|--dump|0:16|--script|s", "run|--script=s|--dump=0:16|--cycles=5|img",
        "run|--dump|0:16|img|--script=a=b:c d|--cycles|5", "run|--script|a=b:c d|--cycles|5|--dump=0:16|img",
    ],
    &["gen|0|--cycles|0", "gen|--cycles|0|0"],
];

#[test]
fn words_stand_in_any_order(rt: HostRuntime) -> Result<(), Fail> {
    let alloc = rt.alloc();
    for lines in &SAME {
        let first = answer_to(alloc, lines[0])?;
        assert_eq!(rt; first.status, Status::Done, "{}", lines[0]);
        assert!(rt; !first.out.as_slice().is_empty(), "{}", lines[0]);
        for line in &lines[1..] {
            let answer = answer_to(alloc, *line)?;
            assert_eq!(rt; answer.status, Status::Done, "{line}");
            assert!(rt; answer.out.as_slice() == first.out.as_slice(), "{line}");
            assert_eq!(rt; answer.err.as_slice(), b"".as_slice(), "{line}");
        }
    }
    Ok(())
}

/// Words that are in no command's grammar.
#[rattlefmt::skip]
static REFUSED: [&str; 82] = [
    "", "run", "Run|img|--cycles|5", "help", "--help", "-h", "--version", "--cycles|5|run|img", "|run|img|--cycles|5",
    "run|img", "run|--cycles|5", "run|img|--cycles", "run|--cycles|img", "run|img|img|--cycles|5", "run||--cycles|5",
    "run|img|--cycles|05", "run|img|--cycles|00", "run|img|--cycles|+5", "run|img|--cycles|-5", "run|img|--cycles|0x5",
    "run|img|--cycles|4000001", "run|img|--cycles|18446744073709551617", "run|img|--cycles|", "run|img|--cycles=",
    "run|img|--cycles=05", "run|img|--cycles=-5", "run|img|--cycles|5 ", "run|img|--cycles| 5", "run|img|--cycles|5=",
    "run|img|--cycles|5|--cycles|5", "run|img|--cycles=5|--cycles|6", "run|img|--cycles|5|--cycles=5",
    "run|img|--cycles|--cycles|5", "run|img|--cycles|5|img", "run|img|--cycles|5|3",
    "run|img|--cycles|5|--", "run|--cycles|5|--|img", "run|img|--|--cycles|5", "run|img|--cycles|5|-",
    "run|img|--cycles|5|--help", "run|img|--cycles|5|-h", "run|img|--cycles|5|help", "run|img|--cycles|5|--version",
    "run|img|--cyc|5", "run|img|--Cycles|5", "run|img|-cycles|5", "run|img|cycles|5", "run|img|--cycles5", "run|img|-c5",
    "run|img|--cycles|5|--=x", "run|img|--cycles|5|--=", "run|img|--cycles|5|--x=y", "run|img|--cycles|5|",
    "run|img|--cycles|5|--script", "run|img|--cycles|5|--script|", "run|img|--cycles|5|--script=",
    "run|img|--cycles|5|--script=-x", "run|img|--cycles|5|--script|-s", "run|img|--cycles|5|--Script|s",
    "run|img|--cycles|5|--script|s|--script|s", "run|img|--script|--cycles|5", "run|-img|--cycles|5",
    "run|img|--cycles|5|--dump|0:0", "run|img|--cycles|5|--dump|16777216:1", "run|img|--cycles|5|--dump|0:65537",
    "run|img|--cycles|5|--waits|1", "run|img|--cycles|5|--waits=1", "run|img|--cycles|5|--name|img",
    "run|--name|img|--cycles|5", "run|--name=img|--cycles|5",
    "asm", "asm|src|src", "asm|-src", "asm|src|--cycles|5", "asm|src|--script|s", "dis", "dis|img|--dump|0:8",
    "gen|x|--cycles|5", "gen|18446744073709551616|--cycles|5", "gen|00|--cycles|5", "gen|0", "gen|0|--cycles|5|--dump|0:8",
];

#[test]
fn other_words_are_refused_with_the_whole_line(rt: HostRuntime) -> Result<(), Fail> {
    let alloc = rt.alloc();
    for line in &REFUSED {
        let answer = answer_to(alloc, *line)?;
        assert_eq!(rt; answer.status, Status::Usage, "{line}");
        assert_eq!(rt; answer.out.as_slice(), b"".as_slice(), "{line}");
        assert_eq!(rt; answer.err.as_slice(), USAGE.as_bytes(), "{line}");
    }
    Ok(())
}
