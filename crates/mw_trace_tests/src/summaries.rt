use mw_isa::{Access, BlockStatus, End, Event, Fresh, Kind, Vector, Why};
use mw_trace::summary;
use std::test::Fail;

/// Events of each kind: three retirements, two traps and an interrupt.
#[rattlefmt::skip]
static EVENTS: [Event; 6] = [
    Event::Retire { cycle: 0, cia: 0, word: 0x3860_0005, suffix: None },
    Event::Trap { cycle: 1, cia: 4, vector: Vector::Program },
    Event::Irq { cycle: 20, nia: 0x700, vector: Vector::Decrementer },
    Event::Retire { cycle: 21, cia: 0x900, word: 0x0600_0000, suffix: Some(0x3860_0005) },
    Event::Trap { cycle: 30, cia: 0x908, vector: Vector::DataStorage },
    Event::Retire { cycle: 31, cia: 0x300, word: 0x4800_0000, suffix: None },
];

/// A seed, a number of cycles, how many of the events are taken, the end, r0 to r31, and the summary.
struct Case(u64, u64, usize, End, [u64; 32], &'static str);

#[rattlefmt::skip]
static CASES: [Case; 4] = [
    Case(0, 0, 0, End::Ran { cycle: 0 }, [0; 32], "\
gen 0
cycles 0
retired 0
trapped 0
interrupted 0
end ran 0
sum 0000000000000000
"),
    // the sum is 2^64 - 1 and 496, the sum of 1 to 31
    Case(18446744073709551615, 4000, 6, End::Ran { cycle: 4000 },
        [0xffff_ffff_ffff_ffff, 1, 2, 3, 4, 5, 6, 7, 8, 9, 10, 11, 12, 13, 14, 15, 16, 17, 18, 19, 20, 21, 22, 23, 24,
            25, 26, 27, 28, 29, 30, 31], "\
gen 18446744073709551615
cycles 4000
retired 3
trapped 2
interrupted 1
end ran 4000
sum 00000000000001ef
"),
    // 32 times 2^60 and 1: twice 2^64, and 32
    Case(7, 20000, 2,
        End::Offence { cycle: 15, access: Access { kind: Kind::Store, ea: 0x5ffc, why: Why::Page {
            kept: 0x5000, fresh: Fresh::Fault(Vector::DataStorage) } } },
        [0x1000_0000_0000_0001; 32], "\
gen 7
cycles 20000
retired 1
trapped 1
interrupted 0
end offence 15 store 0000000000005ffc page 0000000000005000 fault 0300
sum 0000000000000020
"),
    // 32 times 2^64 - 1
    Case(10, 9, 3,
        End::Offence { cycle: 8, access: Access { kind: Kind::Fetch, ea: 0x44, why: Why::Block {
            block: 0x40, status: BlockStatus::Invalidated } } },
        [0xffff_ffff_ffff_ffff; 32], "\
gen 10
cycles 9
retired 1
trapped 1
interrupted 1
end offence 8 fetch 0000000000000044 block 0000000000000040 invalidated
sum ffffffffffffffe0
"),
];

#[test]
fn runs_have_their_summary(rt: HostRuntime) -> Result<(), Fail> {
    for Case(seed, cycles, taken, end, gpr, expected) in &CASES {
        let events = &EVENTS[..(*taken).min(EVENTS.len())];
        let text = summary(rt.alloc(), *seed, *cycles, events, end, gpr)?;
        assert!(rt; text.as_slice() == expected.as_bytes(), "{expected}");
    }
    Ok(())
}
