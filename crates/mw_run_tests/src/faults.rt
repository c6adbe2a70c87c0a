use crate::shared::{Cycles, LOOP, is_text, text_of_loop, words_of};
use mw_cli::{Status, mw_main};
use mw_io::{MemHost, MemSink};
use std::test::Fail;

/// A call of the host, of out and of err each fails in turn, and what status and what bytes on err come of it.
#[test]
fn each_call_fails_in_turn(rt: HostRuntime) -> Result<(), Fail> {
    let alloc = rt.alloc();
    let never = 99;
    let unread = "mw: cannot read img\n";
    let text = text_of_loop(
        alloc,
        20000,
        "0000000000000005",
        "0000000000000004",
        "7fffb1df",
    )?;
    // of the host: to open the file, to read it, to see its end; of out: to take the lines of 1,024 events, 20 times, and
    // then the rest; of err: a piece of the line
    for (of_host, of_out, of_err, want, said) in [
        (0, never, never, Status::ReadFault, unread),
        (1, never, never, Status::ReadFault, unread),
        (2, never, never, Status::ReadFault, unread),
        (3, never, never, Status::Done, ""),
        (never, 0, never, Status::WriteFault, "mw: cannot write\n"),
        (never, 1, never, Status::WriteFault, "mw: cannot write\n"),
        (never, 20, never, Status::WriteFault, "mw: cannot write\n"),
        (never, 21, never, Status::Done, ""),
        (0, never, 0, Status::ReadFault, ""),
        (0, never, 1, Status::ReadFault, "mw: cannot read "),
        (0, never, 2, Status::ReadFault, "mw: cannot read img"),
        (0, never, 3, Status::ReadFault, unread),
        (never, 0, 0, Status::WriteFault, ""),
        (never, never, 0, Status::Done, ""),
    ] {
        let mut host = MemHost::new(alloc);
        host.put("img", LOOP)?;
        host.fail(of_host)?;
        let mut out = MemSink::new(alloc);
        out.fail(of_out)?;
        let mut err = MemSink::new(alloc);
        err.fail(of_err)?;
        let words = words_of(alloc, "run img --cycles 20000")?;
        let status = mw_main(alloc, words.as_slice(), &mut host, &mut out, &mut err);
        assert_eq!(rt; status, want, "{of_host} {of_out} {of_err}");
        if want == Status::Done {
            assert!(rt;
                is_text(out.as_slice(), text.as_bytes(), Cycles::Count),
                "{of_host} {of_out} {of_err}"
            );
        } else {
            let none = of_out == 0 || want == Status::ReadFault;
            assert_eq!(rt;
                out.as_slice().is_empty(),
                none,
                "{of_host} {of_out} {of_err}"
            );
            assert!(rt;
                out.as_slice().len() < text.len(),
                "{of_host} {of_out} {of_err}"
            );
            assert!(rt;
                text.as_bytes().starts_with(out.as_slice()),
                "{of_host} {of_out} {of_err}"
            );
        }
        assert_eq!(rt;
            err.as_slice(),
            said.as_bytes(),
            "{of_host} {of_out} {of_err}"
        );
    }
    Ok(())
}
