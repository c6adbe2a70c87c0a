use crate::shared::{LOOP, words_of};
use mw_cli::{Status, mw_main};
use mw_io::{MemHost, RealHost, SureHost, SureSink};
use std::alloc::{AllocError, Global};
use std::test::Fail;

/// A script that is read, and one whose second line falls.
const GOOD: &[u8] = b"5 41\n";

const FALLING: &[u8] = b"5 41\n4 41";

/// Words, the image and the script that they name, and what is answered and said.
struct Refused(
    &'static str,
    &'static [u8],
    &'static [u8],
    Status,
    &'static str,
);

#[rattlefmt::skip]
static REFUSED: [Refused; 4] = [
    Refused("run img --cycles 3 --script absent", LOOP, GOOD, Status::ReadFault, "mw: cannot read absent\n"),
    Refused("run gone --cycles 3 --script absent", LOOP, GOOD, Status::ReadFault, "mw: cannot read gone\n"),
    Refused("run img --cycles 3 --script s", LOOP, b"5 4", Status::BadInput, "mw: s:1:4: bad input\n"),
    Refused("run img --cycles 3 --dump 0:8 --script s", LOOP, FALLING, Status::BadInput, "mw: s:2:1: bad input\n"),
];

#[test]
fn an_order_with_a_script_is_refused(rt: HostRuntime) -> Result<(), Fail> {
    let alloc = rt.alloc();
    for Refused(line, image, script, want, said) in &REFUSED {
        let mut host = MemHost::new(alloc);
        host.put("img", *image)?;
        host.put("s", *script)?;
        let mut out = SureSink::new(alloc);
        let mut err = SureSink::new(alloc);
        let words = words_of(alloc, *line)?;
        let status = mw_main(alloc, words.as_slice(), &mut host, &mut out, &mut err);
        assert_eq!(rt; status, *want, "{line}");
        assert_eq!(rt; out.as_slice(), b"".as_slice(), "{line}");
        assert_eq!(rt; err.as_slice(), said.as_bytes(), "{line}");
    }
    Ok(())
}

/// A call of the host fails in turn: the line names the image up to its last read, and the script from then on.
#[test]
fn each_call_for_a_script_fails_in_turn(rt: HostRuntime) -> Result<(), Fail> {
    let alloc = rt.alloc();
    let of_image = "mw: cannot read img\n";
    let of_script = "mw: cannot read s\n";
    for (call, want, said) in [
        (0, Status::ReadFault, of_image),
        (1, Status::ReadFault, of_image),
        (2, Status::ReadFault, of_image),
        (3, Status::ReadFault, of_script),
        (4, Status::ReadFault, of_script),
        (5, Status::ReadFault, of_script),
        (6, Status::Done, ""),
    ] {
        let mut host = MemHost::new(alloc);
        host.put("img", LOOP)?;
        host.put("s", GOOD)?;
        host.fail(call)?;
        let mut out = SureSink::new(alloc);
        let mut err = SureSink::new(alloc);
        let words = words_of(alloc, "run img --cycles 3 --script s")?;
        let status = mw_main(alloc, words.as_slice(), &mut host, &mut out, &mut err);
        assert_eq!(rt; status, want, "{call}");
        assert_eq!(rt; out.as_slice().is_empty(), want != Status::Done, "{call}");
        assert_eq!(rt; err.as_slice(), said.as_bytes(), "{call}");
    }
    Ok(())
}

#[test]
fn a_script_of_the_system_is_absent(rt: HostRuntime) -> Result<(), Fail> {
    let alloc = rt.alloc();
    let mut host = RealHost::new(&rt);
    let mut out = SureSink::new(alloc);
    let mut err = SureSink::new(alloc);
    let words = words_of(alloc, "run /dev/null --cycles 0 --script /no/such/script")?;
    let status = mw_main(alloc, words.as_slice(), &mut host, &mut out, &mut err);
    assert_eq!(rt; status, Status::ReadFault);
    assert!(rt; out.as_slice().is_empty());
    assert_eq!(rt;
        err.as_slice(),
        b"mw: cannot read /no/such/script\n".as_slice()
    );
    Ok(())
}

/// So many bytes of one value.
fn bytes_of(alloc: Global, byte: u8, count: usize) -> Result<Vec<u8>, AllocError> {
    vec![in alloc; byte; count]
}

/// Whether a run of no cycles of an image with a script is answered so, and err is told this.
fn is_answered(
    alloc: Global,
    image: &[u8],
    script: &[u8],
    want: Status,
    said: &str,
) -> Result<bool, AllocError> {
    let mut host = SureHost::new(alloc);
    host.put("img", image)?;
    host.put("s", script)?;
    let mut out = SureSink::new(alloc);
    let mut err = SureSink::new(alloc);
    let words = words_of(alloc, "run img --cycles 0 --script s")?;
    let status = mw_main(alloc, words.as_slice(), &mut host, &mut out, &mut err);
    Ok(status == want && err.as_slice() == said.as_bytes())
}

/// The longest script is read, and one byte more is refused; an image that is too large is refused before its script.
#[test]
fn the_longest_script_is_served(rt: HostRuntime) -> Result<(), Fail> {
    let alloc = rt.alloc();
    let longest = bytes_of(alloc, b'#', 1048576)?;
    let longer = bytes_of(alloc, b'#', 1048577)?;
    let large = bytes_of(alloc, 0, 16777217)?;
    let place = "mw: s:1:1048577: bad input\n";
    let limit = "mw: image exceeds 16777216 bytes\n";
    assert!(rt; is_answered(alloc, LOOP, longest.as_slice(), Status::Done, "")?);
    assert!(rt; is_answered(alloc, LOOP, longer.as_slice(), Status::BadInput, place)?);
    assert!(rt;
        is_answered(
            alloc,
            large.as_slice(),
            b"5 4",
            Status::ImageTooLarge,
            limit
        )?
    );
    Ok(())
}
