use crate::shared::{LOOP, words_of};
use mw_cli::{Status, mw_main};
use mw_io::{MemHost, MemSink};
use std::alloc::{AllocError, Global};
use std::test::Fail;

/// How a call ended: its status, and what out and err took.
#[derive(Drop)]
struct Ended {
    status: Status,
    out: MemSink,
    err: MemSink,
}

/// How these words end over one file, where these calls of the host, of out and of err fail.
fn end_of(alloc: Global, line: &str, file: &[u8], calls: [u64; 3]) -> Result<Ended, AllocError> {
    let mut host = MemHost::new(alloc);
    host.put("s", file)?;
    host.fail(calls[0])?;
    let mut out = MemSink::new(alloc);
    out.fail(calls[1])?;
    let mut err = MemSink::new(alloc);
    err.fail(calls[2])?;
    let words = words_of(alloc, line)?;
    let status = mw_main(alloc, words.as_slice(), &mut host, &mut out, &mut err);
    Ok(Ended { status, out, err })
}

/// A call of the host and of out each fails in turn, while a source is assembled and while an image is disassembled.
#[test]
fn each_call_for_a_file_fails_in_turn(rt: HostRuntime) -> Result<(), Fail> {
    let good = b"li r3,5\nb .\n".as_slice();
    let unread = "mw: cannot read s\n";
    let unwritten = "mw: cannot write\n";
    for (line, file, calls, want, said) in [
        ("asm s", good, [0, 99, 99], Status::ReadFault, unread),
        ("asm s", good, [1, 99, 99], Status::ReadFault, unread),
        ("asm s", good, [2, 99, 99], Status::ReadFault, unread),
        ("asm s", good, [99, 0, 99], Status::WriteFault, unwritten),
        ("dis s", LOOP, [0, 99, 99], Status::ReadFault, unread),
        ("dis s", LOOP, [99, 0, 99], Status::WriteFault, unwritten),
    ] {
        let ended = end_of(rt.alloc(), line, file, calls)?;
        assert_eq!(rt; ended.status, want, "{line} {calls:?}");
        assert!(rt; ended.out.as_slice().is_empty(), "{line} {calls:?}");
        assert_eq!(rt; ended.err.as_slice(), said.as_bytes(), "{line} {calls:?}");
    }
    let ended = end_of(rt.alloc(), "asm s", good, [3, 1, 99])?;
    assert_eq!(rt; ended.status, Status::Done);
    assert_eq!(rt; ended.out.as_slice(), LOOP);
    assert!(rt; ended.err.as_slice().is_empty());
    Ok(())
}

/// A refused source keeps its status whichever piece of its line fails on err.
#[test]
fn each_piece_of_a_refused_place_fails_in_turn(rt: HostRuntime) -> Result<(), Fail> {
    let bad = b"\nli @".as_slice();
    for (of_out, of_err, said) in [
        (99, 0, ""),
        (99, 1, "mw: "),
        (99, 2, "mw: s"),
        (99, 3, "mw: s:"),
        (99, 4, "mw: s:2"),
        (99, 5, "mw: s:2:"),
        (99, 6, "mw: s:2:4"),
        (0, 7, "mw: s:2:4: bad input\n"),
    ] {
        let ended = end_of(rt.alloc(), "asm s", bad, [99, of_out, of_err])?;
        assert_eq!(rt; ended.status, Status::BadInput, "{of_err}");
        assert!(rt; ended.out.as_slice().is_empty(), "{of_err}");
        assert_eq!(rt; ended.err.as_slice(), said.as_bytes(), "{of_err}");
    }
    Ok(())
}
