use crate::shared::{LOOP, words_of};
use mw_cli::{Status, mw_main};
use mw_io::{MemHost, RealHost, SureSink};
use std::test::Fail;

/// Words, the image that they name, and what is answered and said.
struct Refused(&'static str, &'static [u8], Status, &'static str);

#[rattlefmt::skip]
static REFUSED: [Refused; 4] = [
    Refused("run absent --cycles 3", LOOP, Status::ReadFault, "mw: cannot read absent\n"),
    Refused("asm absent", b"", Status::ReadFault, "mw: cannot read absent\n"),
    Refused("dis absent", LOOP, Status::ReadFault, "mw: cannot read absent\n"),
    Refused("asm img", b"frob r3\n", Status::BadInput, "mw: img:1:1: bad input\n"),
];

#[test]
fn an_order_is_refused(rt: HostRuntime) -> Result<(), Fail> {
    let alloc = rt.alloc();
    for Refused(line, image, want, said) in &REFUSED {
        let mut host = MemHost::new(alloc);
        host.put("img", *image)?;
        let mut out = SureSink::new(alloc);
        let mut err = SureSink::new(alloc);
        let words = words_of(alloc, *line)?;
        let status = mw_main(alloc, words.as_slice(), &mut host, &mut out, &mut err);
        assert_eq!(rt; status, *want, "{line}");
        assert_eq!(rt; out.as_slice(), b"".as_slice(), "{line}");
        assert_eq!(rt; err.as_slice(), said.as_bytes(), "{line}");
    }
    Ok(())
}

#[test]
fn a_file_of_the_system_is_absent(rt: HostRuntime) -> Result<(), Fail> {
    let alloc = rt.alloc();
    let mut host = RealHost::new(&rt);
    let mut out = SureSink::new(alloc);
    let mut err = SureSink::new(alloc);
    let words = words_of(alloc, "run /no/such/image --cycles 3")?;
    let status = mw_main(alloc, words.as_slice(), &mut host, &mut out, &mut err);
    assert_eq!(rt; status, Status::ReadFault);
    assert_eq!(rt; out.as_slice(), b"".as_slice());
    assert_eq!(rt;
        err.as_slice(),
        b"mw: cannot read /no/such/image\n".as_slice()
    );
    Ok(())
}

#[test]
fn a_status_has_its_number(rt: HostRuntime) {
    for (status, number) in [
        (Status::Done, 0),
        (Status::Offence, 1),
        (Status::Usage, 2),
        (Status::ReadFault, 3),
        (Status::WriteFault, 4),
        (Status::ImageTooLarge, 5),
        (Status::BadInput, 6),
        (Status::NoMemory, 7),
    ] {
        assert_eq!(rt; status.number(), number);
    }
}
