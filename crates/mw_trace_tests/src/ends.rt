use mw_bus::Ram;
use mw_isa::{Access, BlockStatus, End, Fresh, Kind, State, Vector, Why};
use mw_soc::Devices;
use mw_trace::{end_line, print};
use mw_uart::Script;
use std::test::Fail;

/// An end, and its line.
struct Ending(End, &'static str);

#[rattlefmt::skip]
static ENDINGS: [Ending; 8] = [
    Ending(End::Ran { cycle: 0 }, "end ran 0\n"),
    Ending(End::Ran { cycle: 20_000 }, "end ran 20000\n"),
    Ending(End::Ran { cycle: u64::MAX }, "end ran 18446744073709551615\n"),
    Ending(
        End::Offence { cycle: 2, access: Access { kind: Kind::Fetch, ea: 8, why: Why::Block {
            block: 0, status: BlockStatus::Changed } } },
        "end offence 2 fetch 0000000000000008 block 0000000000000000 changed\n"),
    Ending(
        End::Offence { cycle: 8, access: Access { kind: Kind::Fetch, ea: 0x44, why: Why::Block {
            block: 0x40, status: BlockStatus::Invalidated } } },
        "end offence 8 fetch 0000000000000044 block 0000000000000040 invalidated\n"),
    Ending(
        End::Offence { cycle: 15, access: Access { kind: Kind::Load, ea: 0x5000, why: Why::Page {
            kept: 0x5000, fresh: Fresh::Page(0x7000) } } },
        "end offence 15 load 0000000000005000 page 0000000000005000 0000000000007000\n"),
    Ending(
        End::Offence { cycle: 15, access: Access { kind: Kind::Store, ea: 0x5ffc, why: Why::Page {
            kept: 0x5000, fresh: Fresh::Fault(Vector::DataStorage) } } },
        "end offence 15 store 0000000000005ffc page 0000000000005000 fault 0300\n"),
    Ending(
        End::Offence { cycle: 400, access: Access { kind: Kind::Fetch, ea: 0xc000_0000_0000_0000, why: Why::Page {
            kept: 0xff_f000, fresh: Fresh::Fault(Vector::InstSegment) } } },
        "end offence 400 fetch c000000000000000 page 0000000000fff000 fault 0480\n"),
];

#[test]
fn ends_have_their_line(rt: HostRuntime) -> Result<(), Fail> {
    for Ending(end, line) in &ENDINGS {
        let text = end_line(rt.alloc(), end)?;
        assert!(rt; text.as_slice() == line.as_bytes(), "{line}");
    }
    Ok(())
}

#[test]
fn each_end_is_printed(rt: HostRuntime) -> Result<(), Fail> {
    let state = State::new(
        Ram::new(rt.alloc(), &[])?,
        Devices::new(rt.alloc(), Script::new(rt.alloc()), 64)?,
    );
    for Ending(end, line) in &ENDINGS {
        let text = print(rt.alloc(), &[], end, &state, None)?;
        assert!(rt; text.as_slice().starts_with(line.as_bytes()), "{line}");
    }
    Ok(())
}
