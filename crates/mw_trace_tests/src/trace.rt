ghost use Rattle.std.specs.Prelude.{◌≡◌, ◌+◌, ◌≤◌, length};

use mw_bus::Ram;
use mw_isa::{End, Event, Regs, Span, State, Vector};
use mw_soc::Devices;
use mw_trace::print;
use mw_uart::Script;
use std::alloc::{AllocError as NoMemory, Global};
use std::process::Abort;
use std::test::Fail;

/// How many bytes of output the devices below have memory for.
const ROOM: u64 = 64;

/// The whole text of an empty run of no cycle.
const START: &str = "\
end ran 0
r0 0000000000000000
r1 0000000000000000
r2 0000000000000000
r3 0000000000000000
r4 0000000000000000
r5 0000000000000000
r6 0000000000000000
r7 0000000000000000
r8 0000000000000000
r9 0000000000000000
r10 0000000000000000
r11 0000000000000000
r12 0000000000000000
r13 0000000000000000
r14 0000000000000000
r15 0000000000000000
r16 0000000000000000
r17 0000000000000000
r18 0000000000000000
r19 0000000000000000
r20 0000000000000000
r21 0000000000000000
r22 0000000000000000
r23 0000000000000000
r24 0000000000000000
r25 0000000000000000
r26 0000000000000000
r27 0000000000000000
r28 0000000000000000
r29 0000000000000000
r30 0000000000000000
r31 0000000000000000
cr 00000000
xer 0000000000000000
lr 0000000000000000
ctr 0000000000000000
tar 0000000000000000
cia 0000000000000000
msr 9000000000001001
srr0 0000000000000000
srr1 0000000000000000
hsrr0 0000000000000000
hsrr1 0000000000000000
dar 0000000000000000
dsisr 00000000
dec 7fffffff
pidr 00000000
sprg0 0000000000000000
sprg1 0000000000000000
sprg2 0000000000000000
sprg3 0000000000000000
hsprg0 0000000000000000
hsprg1 0000000000000000
prtbl 0000000000000000
uart -
";

/// The whole text of an empty run that leaves another content in each register.
const FULL: &str = "\
end ran 4096
r0 ab00000000000000
r1 ab00000000000001
r2 ab00000000000002
r3 ab00000000000003
r4 ab00000000000004
r5 ab00000000000005
r6 ab00000000000006
r7 ab00000000000007
r8 ab00000000000008
r9 ab00000000000009
r10 ab0000000000000a
r11 ab0000000000000b
r12 ab0000000000000c
r13 ab0000000000000d
r14 ab0000000000000e
r15 ab0000000000000f
r16 ab00000000000010
r17 ab00000000000011
r18 ab00000000000012
r19 ab00000000000013
r20 ab00000000000014
r21 ab00000000000015
r22 ab00000000000016
r23 ab00000000000017
r24 ab00000000000018
r25 ab00000000000019
r26 ab0000000000001a
r27 ab0000000000001b
r28 ab0000000000001c
r29 ab0000000000001d
r30 ab0000000000001e
r31 ab0000000000001f
cr f0000000
xer 1000000000000101
lr 1000000000000102
ctr 1000000000000103
tar 1000000000000104
cia 1000000000000105
msr 1000000000000106
srr0 1000000000000107
srr1 1000000000000108
hsrr0 1000000000000109
hsrr1 100000000000010a
dar 100000000000010b
dsisr f000000c
dec 7fffefff
pidr f000000e
sprg0 100000000000010f
sprg1 1000000000000110
sprg2 1000000000000111
sprg3 1000000000000112
hsprg0 1000000000000113
hsprg1 1000000000000114
prtbl 1000000000000115
uart -
";

/// The bytes that a UART is given at cycle 0, each of which takes 160 cycles, a cycle, and the last line of the text
/// then.
struct Sent(&'static [u8], u64, &'static str);

#[rattlefmt::skip]
static SENT: [Sent; 5] = [
    Sent(&[], 4096, "\nuart -\n"),
    Sent(&[0x41], 159, "\nuart -\n"),
    Sent(&[0x41], 160, "\nuart 41\n"),
    Sent(&[0x41, 0x42], 160, "\nuart 41\n"),
    Sent(&[0x00, 0x0a, 0x20, 0xff], 640, "\nuart 000a20ff\n"),
];

/// The lines of an event of each kind.
const EVENTS: &str = "\
R 0 0000000000000000 38600005
R 12 000000000000003c 06000000 38600005
T 7 0000000000000024 0300
T 11 0000000000000034 0700
I 20 0000000000000014 0900
end ran 4000000
";

/// The bytes of an image.
const IMAGE: &[u8] = b"\x05\x00\x60\x38\x00\x00\x00\x48ABCDEFGHIJKLMNOPQRSTUVWXYZ\xfe\xdc\xba\x98";

/// The last line of a dump up to RAM's end.
const LAST: &str = "\
m 0000000000ffffe0 0000000000000000000000000000000000000000000000000000000000000000
";

/// A stretch of the image, and the lines of its dump.
struct Dump(u32, u32, &'static str);

#[rattlefmt::skip]
static DUMPS: [Dump; 6] = [
    Dump(0, 1, "\
m 0000000000000000 05
"),
    Dump(0, 16, "\
m 0000000000000000 05006038000000484142434445464748
"),
    Dump(3, 32, "\
m 0000000000000003 38000000484142434445464748494a4b4c4d4e4f505152535455565758595afe
"),
    Dump(3, 33, "\
m 0000000000000003 38000000484142434445464748494a4b4c4d4e4f505152535455565758595afe
m 0000000000000023 dc
"),
    Dump(34, 66, "\
m 0000000000000022 fedcba9800000000000000000000000000000000000000000000000000000000
m 0000000000000042 0000000000000000000000000000000000000000000000000000000000000000
m 0000000000000062 0000
"),
    Dump(16777214, 2, "\
m 0000000000fffffe 0000
"),
];

/// The state at cycle 0 with so much in RAM.
fn start(alloc: Global, image: &[u8]) -> Result<State, NoMemory>
    requires { length image.now ≤ 16777216 }
{
    Ok(State::new(
        Ram::new(alloc, image)?,
        Devices::new(alloc, Script::new(alloc), ROOM)?,
    ))
}

/// Brings the devices to a cycle.
fn bring(rt: &impl Abort, devices: &mut Devices, cycle: u64)
    requires { devices.old.room ≡ 64 }
{
    assert!(rt; devices.cycle() <= cycle && cycle / 160 <= ROOM);
    devices.advance(cycle);
}

/// Devices at a cycle, whose UART was given bytes at cycle 0.
fn given(rt: &impl Abort, alloc: Global, bytes: &[u8], cycle: u64) -> Result<Devices, NoMemory> {
    let mut devices = Devices::new(alloc, Script::new(alloc), ROOM)?;
    for byte in bytes {
        devices.store(0xC000_2000, &[*byte]);
    }
    bring(rt, &mut devices, cycle);
    Ok(devices)
}

/// A stretch that ends in RAM.
fn stretch(rt: &impl Abort, at: u32, len: u32) -> Span
    ensures { result.at + result.len ≤ 16777216 }
{
    assert!(rt; at <= 16777216 && len <= 16777216 - at);
    Span { at, len }
}

#[test]
fn prints_the_start(rt: HostRuntime) -> Result<(), Fail> {
    let state = start(rt.alloc(), &[])?;
    assert_eq!(rt; state.cia(), 0);
    let text = print(rt.alloc(), &[], &End::Ran { cycle: 0 }, &state, None)?;
    assert!(rt; text.as_slice() == START.as_bytes());
    Ok(())
}

/// Registers with a content of its own in each.
fn each_its_own() -> Regs {
    Regs {
        gpr: [
            0xab00_0000_0000_0000,
            0xab00_0000_0000_0001,
            0xab00_0000_0000_0002,
            0xab00_0000_0000_0003,
            0xab00_0000_0000_0004,
            0xab00_0000_0000_0005,
            0xab00_0000_0000_0006,
            0xab00_0000_0000_0007,
            0xab00_0000_0000_0008,
            0xab00_0000_0000_0009,
            0xab00_0000_0000_000a,
            0xab00_0000_0000_000b,
            0xab00_0000_0000_000c,
            0xab00_0000_0000_000d,
            0xab00_0000_0000_000e,
            0xab00_0000_0000_000f,
            0xab00_0000_0000_0010,
            0xab00_0000_0000_0011,
            0xab00_0000_0000_0012,
            0xab00_0000_0000_0013,
            0xab00_0000_0000_0014,
            0xab00_0000_0000_0015,
            0xab00_0000_0000_0016,
            0xab00_0000_0000_0017,
            0xab00_0000_0000_0018,
            0xab00_0000_0000_0019,
            0xab00_0000_0000_001a,
            0xab00_0000_0000_001b,
            0xab00_0000_0000_001c,
            0xab00_0000_0000_001d,
            0xab00_0000_0000_001e,
            0xab00_0000_0000_001f,
        ],
        cr: 0xf000_0000,
        xer: 0x1000_0000_0000_0101,
        lr: 0x1000_0000_0000_0102,
        ctr: 0x1000_0000_0000_0103,
        tar: 0x1000_0000_0000_0104,
        cia: 0x1000_0000_0000_0105,
        msr: 0x1000_0000_0000_0106,
        srr0: 0x1000_0000_0000_0107,
        srr1: 0x1000_0000_0000_0108,
        hsrr0: 0x1000_0000_0000_0109,
        hsrr1: 0x1000_0000_0000_010a,
        dar: 0x1000_0000_0000_010b,
        dsisr: 0xf000_000c,
        pidr: 0xf000_000e,
        sprg: [
            0x1000_0000_0000_010f,
            0x1000_0000_0000_0110,
            0x1000_0000_0000_0111,
            0x1000_0000_0000_0112,
        ],
        hsprg: [0x1000_0000_0000_0113, 0x1000_0000_0000_0114],
        prtbl: 0x1000_0000_0000_0115,
        reserve: None,
    }
}

#[test]
fn prints_each_register(rt: HostRuntime) -> Result<(), Fail> {
    let state = State {
        regs: each_its_own(),
        ram: Ram::new(rt.alloc(), &[])?,
        devices: given(&rt, rt.alloc(), &[], 4096)?,
    };
    let text = print(rt.alloc(), &[], &End::Ran { cycle: 4096 }, &state, None)?;
    assert!(rt; text.as_slice() == FULL.as_bytes());
    Ok(())
}

#[test]
fn prints_what_the_uart_sent(rt: HostRuntime) -> Result<(), Fail> {
    for Sent(bytes, cycle, last) in &SENT {
        let state = State::new(
            Ram::new(rt.alloc(), &[])?,
            given(&rt, rt.alloc(), bytes, *cycle)?,
        );
        let text = print(rt.alloc(), &[], &End::Ran { cycle: *cycle }, &state, None)?;
        assert!(rt; text.as_slice().ends_with(last.as_bytes()), "at {cycle}");
    }
    Ok(())
}

#[test]
fn prints_each_event(rt: HostRuntime) -> Result<(), Fail> {
    let state = start(rt.alloc(), &[])?;
    let events = [
        Event::Retire {
            cycle: 0,
            cia: 0,
            word: 0x3860_0005,
            suffix: None,
        },
        Event::Retire {
            cycle: 12,
            cia: 0x3c,
            word: 0x0600_0000,
            suffix: Some(0x3860_0005),
        },
        Event::Trap {
            cycle: 7,
            cia: 0x24,
            vector: Vector::DataStorage,
        },
        Event::Trap {
            cycle: 11,
            cia: 0x34,
            vector: Vector::Program,
        },
        Event::Irq {
            cycle: 20,
            nia: 0x14,
            vector: Vector::Decrementer,
        },
    ];
    let text = print(
        rt.alloc(),
        &events,
        &End::Ran { cycle: 4000000 },
        &state,
        None,
    )?;
    assert!(rt; text.as_slice().starts_with(EVENTS.as_bytes()));
    Ok(())
}

#[test]
fn prints_dumps(rt: HostRuntime) -> Result<(), Fail> {
    let state = start(rt.alloc(), IMAGE)?;
    for Dump(at, len, lines) in &DUMPS {
        let span = stretch(&rt, *at, *len);
        let text = print(rt.alloc(), &[], &End::Ran { cycle: 0 }, &state, Some(span))?;
        let (others, dump) = text
            .as_slice()
            .split_at(START.len().min(text.as_slice().len()));
        assert!(rt; others == START.as_bytes());
        assert!(rt; dump == lines.as_bytes(), "{len} bytes from {at}");
    }
    Ok(())
}

#[test]
fn prints_the_longest_dump(rt: HostRuntime) -> Result<(), Fail> {
    let state = start(rt.alloc(), &[])?;
    let span = Span {
        at: 16711680,
        len: 65536,
    };
    let text = print(rt.alloc(), &[], &End::Ran { cycle: 0 }, &state, Some(span))?;
    // each of the 2,048 lines has 84 bytes
    assert_eq!(rt; text.as_slice().len(), START.len() + 2048 * 84);
    assert!(rt; text.as_slice().ends_with(LAST.as_bytes()));
    Ok(())
}
