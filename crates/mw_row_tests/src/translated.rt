use crate::tree::{happen, image_of};
use mw_board::{Run, simulate};
use mw_isa::{End, Event, Vector};
use mw_uart::Script;
use std::process::Abort;
use std::test::Fail;

/// A program in a tree of tables, and what it leaves.
struct Row {
    /// The number of the process.
    pid: u32,
    /// The words with their addresses: those behind the start, handlers, and doublewords that are loaded.
    parts: &'static [(u32, &'static [u32])],
    /// The doublewords of tables, with their addresses, that stand beside those of the tree or in their place.
    tables: &'static [(u32, u64)],
    /// The number of cycles.
    n: u64,
    /// Events of the run, among them all that are traps.
    events: &'static [Event],
    /// SRR0, SRR1, DAR, DSISR and CR at the end.
    saved: [u64; 5],
    /// General purpose registers with their contents at the end.
    contents: &'static [(usize, u64)],
    /// Eight bytes of RAM each, with the address of the first.
    bytes: &'static [(u32, [u8; 8])],
    /// What the UART sent.
    sent: &'static [u8],
}

// mfmsr 4; ori 4,4,16; mtmsrd 4,0
const START: &[u32] = &[0x7c80_00a6, 0x6084_0010, 0x7c80_0164];

/// SRR1 behind an interrupt that data translation was on before.
const ON: u64 = 0x9000_0000_0000_1011;

const ONES: [u8; 8] = [0xff, 0xff, 0xff, 0xff, 0xff, 0xff, 0xff, 0xff];

const LATER_ONES: [u8; 8] = [0, 0, 0, 0, 0xff, 0xff, 0xff, 0xff];

#[rattlefmt::skip]
static ROWS: [Row; 20] = [
    // the second of two pages has no translation: li 5,0x5ffc; li 6,-1; std 6,0(5); .org 0x300; b .
    Row { pid: 1, parts: &[(0x1c, &[0x38a0_5ffc, 0x38c0_ffff, 0xf8c5_0000])],
        tables: &[], n: 100000,
        events: &[Event::Trap { cycle: 9, cia: 0x24, vector: Vector::DataStorage }],
        saved: [0x24, ON, 0x6000, 0x4200_0000, 0], contents: &[], bytes: &[(0x5ff8, [0; 8]), (0x6000, [0; 8])], sent: b"" },
    // two pages that don't stand side by side: li 5,0x5ffc; li 6,-1; std 6,0(5); ld 7,0(5); b .
    Row { pid: 1, parts: &[(0x1c, &[0x38a0_5ffc, 0x38c0_ffff, 0xf8c5_0000, 0xe8e5_0000, 0x4800_0000])],
        tables: &[(0x3_2030, 0xc000_0000_0000_9186)], n: 100,
        events: &[],
        saved: [0; 5], contents: &[(7, 0xffff_ffff_ffff_ffff)],
        bytes: &[(0x5ff8, LATER_ONES), (0x6000, [0; 8]), (0x8ffc, LATER_ONES)], sent: b"" },
    // a store to a page without C is mended: li 5,0x5000; li 6,-1; std 6,0(5); b .; .org 0x300; lis 9,3; ori 9,9,0x202f; li 10,0x86; stb 10,0(9); rfid
    Row { pid: 1, parts: &[(0x1c, &[0x38a0_5000, 0x38c0_ffff, 0xf8c5_0000, 0x4800_0000]), (0x300, &[0x3d20_0003, 0x6129_202f, 0x3940_0086, 0x9949_0000, 0x4c00_0024])],
        tables: &[(0x3_2028, 0xc000_0000_0000_5106)], n: 200000,
        events: &[Event::Trap { cycle: 9, cia: 0x24, vector: Vector::DataStorage }, Event::Retire { cycle: 15, cia: 0x24, word: 0xf8c5_0000, suffix: None }],
        saved: [0x24, ON, 0x5000, 0x0204_0000, 0], contents: &[], bytes: &[(0x5000, ONES)], sent: b"" },
    // a directory of four bits: li 5,0x5000; li 6,-1; ld 7,0(5); b .
    Row { pid: 1, parts: &[(0x1c, &[0x38a0_5000, 0x38c0_ffff, 0xe8e5_0000, 0x4800_0000])],
        tables: &[(0x3_0000, 0x8000_0000_0003_1004)], n: 100,
        events: &[Event::Trap { cycle: 9, cia: 0x24, vector: Vector::DataStorage }],
        saved: [0x24, ON, 0x5000, 0x0008_0000, 0], contents: &[], bytes: &[], sent: b"" },
    // a directory that leads to itself: li 5,0; li 6,-1; ld 7,0(5); b .
    Row { pid: 1, parts: &[(0x1c, &[0x38a0_0000, 0x38c0_ffff, 0xe8e5_0000, 0x4800_0000])],
        tables: &[(0x3_0000, 0x8000_0000_0003_0009)], n: 100,
        events: &[Event::Trap { cycle: 9, cia: 0x24, vector: Vector::DataStorage }],
        saved: [0x24, ON, 0, 0x0008_0000, 0], contents: &[], bytes: &[], sent: b"" },
    // a page of 2 MiB: li 5,0x5000; ld 7,0(5); b .; .org 0x205000; .quad 0x66
    Row { pid: 1, parts: &[(0x1c, &[0x38a0_5000, 0xe8e5_0000, 0x4800_0000]), (0x20_5000, &[0x66, 0])],
        tables: &[(0x3_1000, 0xc000_0000_0020_1187)], n: 100,
        events: &[],
        saved: [0; 5], contents: &[(7, 0x66)], bytes: &[], sent: b"" },
    // quadrant 3 is process 0: li 5,3; rldicr 5,5,62,63; ori 5,5,0x5000; ld 7,0(5); b .; .org 0x5000; .quad 0x55
    Row { pid: 1, parts: &[(0x1c, &[0x38a0_0003, 0x78a5_f7e6, 0x60a5_5000, 0xe8e5_0000, 0x4800_0000]), (0x5000, &[0x55, 0])],
        tables: &[(0x1_0000, 0x4000_0000_0002_00ad)], n: 100,
        events: &[],
        saved: [0; 5], contents: &[(5, 0xc000_0000_0000_5000), (7, 0x55)], bytes: &[], sent: b"" },
    // quadrant 1: li 5,1; rldicr 5,5,62,63; ld 7,8(5); b .
    Row { pid: 1, parts: &[(0x1c, &[0x38a0_0001, 0x78a5_f7e6, 0xe8e5_0008, 0x4800_0000])],
        tables: &[], n: 100,
        events: &[Event::Trap { cycle: 9, cia: 0x24, vector: Vector::DataSegment }],
        saved: [0x24, ON, 0x4000_0000_0000_0008, 0, 0], contents: &[], bytes: &[], sent: b"" },
    // a bit above the tree's size: li 5,1; rldicr 5,5,52,63; ld 7,8(5); b .
    Row { pid: 1, parts: &[(0x1c, &[0x38a0_0001, 0x78a5_a7e6, 0xe8e5_0008, 0x4800_0000])],
        tables: &[], n: 100,
        events: &[Event::Trap { cycle: 9, cia: 0x24, vector: Vector::DataSegment }],
        saved: [0x24, ON, 0x0010_0000_0000_0008, 0, 0], contents: &[], bytes: &[], sent: b"" },
    // a page without a leaf: li 5,0x6000; ld 7,0(5); b .
    Row { pid: 1, parts: &[(0x1c, &[0x38a0_6000, 0xe8e5_0000, 0x4800_0000])],
        tables: &[], n: 100,
        events: &[Event::Trap { cycle: 8, cia: 0x20, vector: Vector::DataStorage }],
        saved: [0x20, ON, 0x6000, 0x4000_0000, 0], contents: &[], bytes: &[], sent: b"" },
    // a process beyond the table: li 5,0x6000; ld 7,0(5); b .
    Row { pid: 256, parts: &[(0x1c, &[0x38a0_6000, 0xe8e5_0000, 0x4800_0000])],
        tables: &[], n: 100,
        events: &[Event::Trap { cycle: 8, cia: 0x20, vector: Vector::DataStorage }],
        saved: [0x20, ON, 0x6000, 0x4000_0000, 0], contents: &[], bytes: &[], sent: b"" },
    // a store to a page that is read only: li 5,0x5000; std 7,0(5); b .
    Row { pid: 1, parts: &[(0x1c, &[0x38a0_5000, 0xf8e5_0000, 0x4800_0000])],
        tables: &[(0x3_2028, 0xc000_0000_0000_5184)], n: 100,
        events: &[Event::Trap { cycle: 8, cia: 0x20, vector: Vector::DataStorage }],
        saved: [0x20, ON, 0x5000, 0x0a00_0000, 0], contents: &[], bytes: &[], sent: b"" },
    // a load from a page without R: li 5,0x5000; ld 7,0(5); b .
    Row { pid: 1, parts: &[(0x1c, &[0x38a0_5000, 0xe8e5_0000, 0x4800_0000])],
        tables: &[(0x3_2028, 0xc000_0000_0000_5086)], n: 100,
        events: &[Event::Trap { cycle: 8, cia: 0x20, vector: Vector::DataStorage }],
        saved: [0x20, ON, 0x5000, 0x0004_0000, 0], contents: &[], bytes: &[], sent: b"" },
    // a block of a page without a leaf: li 5,0x6044; dcbz 0,5; b .
    Row { pid: 1, parts: &[(0x1c, &[0x38a0_6044, 0x7c00_2fec, 0x4800_0000])],
        tables: &[], n: 100,
        events: &[Event::Trap { cycle: 8, cia: 0x20, vector: Vector::DataStorage }],
        saved: [0x20, ON, 0x6040, 0x4200_0000, 0], contents: &[], bytes: &[], sent: b"" },
    // li 5,0x6044; dcbst 0,5; b .
    Row { pid: 1, parts: &[(0x1c, &[0x38a0_6044, 0x7c00_286c, 0x4800_0000])],
        tables: &[], n: 100,
        events: &[Event::Trap { cycle: 8, cia: 0x20, vector: Vector::DataStorage }],
        saved: [0x20, ON, 0x6044, 0x4000_0000, 0], contents: &[], bytes: &[], sent: b"" },
    // li 5,0x6044; dcbt 0,5; b .
    Row { pid: 1, parts: &[(0x1c, &[0x38a0_6044, 0x7c00_2a2c, 0x4800_0000])],
        tables: &[], n: 100,
        events: &[Event::Retire { cycle: 8, cia: 0x20, word: 0x7c00_2a2c, suffix: None }],
        saved: [0; 5], contents: &[], bytes: &[], sent: b"" },
    // the second page stands behind RAM: li 5,0x5ffc; ld 7,0(5); b .
    Row { pid: 1, parts: &[(0x1c, &[0x38a0_5ffc, 0xe8e5_0000, 0x4800_0000])],
        tables: &[(0x3_2030, 0xc000_0000_0100_0186)], n: 100,
        events: &[Event::Trap { cycle: 8, cia: 0x20, vector: Vector::Alignment }],
        saved: [0x20, ON, 0x5ffc, 0, 0], contents: &[], bytes: &[], sent: b"" },
    // the reservation is of the real block: li 5,0x5000; li 6,0x6008; ldarx 7,0,5; li 8,9; stdcx. 8,0,6; ld 7,8(5); b .
    Row { pid: 1, parts: &[(0x1c, &[0x38a0_5000, 0x38c0_6008, 0x7ce0_28a8, 0x3900_0009, 0x7d00_31ad, 0xe8e5_0008, 0x4800_0000])],
        tables: &[(0x3_2030, 0xc000_0000_0000_5186)], n: 100,
        events: &[],
        saved: [0, 0, 0, 0, 0x2000_0000], contents: &[(7, 9)], bytes: &[], sent: b"" },
    // the UART stands behind a page: li 5,0x5000; li 6,65; stb 6,0(5); b .
    Row { pid: 1, parts: &[(0x1c, &[0x38a0_5000, 0x38c0_0041, 0x98c5_0000, 0x4800_0000])],
        tables: &[(0x3_2028, 0xc000_0000_c000_2186)], n: 1000,
        events: &[],
        saved: [0; 5], contents: &[], bytes: &[], sent: b"\x41" },
    // the last process of the table: li 5,0x6000; ld 7,0(5); b .; .org 0x7000; .quad 0x77
    Row { pid: 255, parts: &[(0x1c, &[0x38a0_6000, 0xe8e5_0000, 0x4800_0000]), (0x7000, &[0x77, 0])],
        tables: &[(0x1_0ff0, 0x4000_0000_0002_00ad), (0x3_2030, 0xc000_0000_0000_7186)], n: 100,
        events: &[],
        saved: [0; 5], contents: &[(7, 0x77)], bytes: &[], sent: b"" },
];

/// Says where a run has another end than a row says.
fn compare(rt: &impl Abort, row: &Row, run: &Run) {
    let parts = row.parts;
    assert_eq!(rt; run.end, End::Ran { cycle: row.n }, "{parts:?}");
    happen(rt, run.events.as_slice(), row.events, &parts);
    let regs = &run.state.regs;
    assert_eq!(rt;
        [
            regs.srr0,
            regs.srr1,
            regs.dar,
            u64::from(regs.dsisr),
            u64::from(regs.cr),
        ],
        row.saved,
        "{parts:?}"
    );
    for (number, content) in row.contents {
        assert!(rt; *number < 32);
        assert_eq!(rt; regs.gpr[*number], *content, "r{number} of {parts:?}");
    }
    for (address, bytes) in row.bytes {
        assert_eq!(rt;
            run.state.ram.read(u64::from(*address), 8),
            *bytes,
            "{address:x} of {parts:?}"
        );
    }
    assert_eq!(rt; run.state.devices.output(), row.sent, "{parts:?}");
}

#[test]
fn data_is_translated(rt: HostRuntime) -> Result<(), Fail> {
    let alloc = rt.alloc();
    for row in &ROWS {
        assert!(rt; row.n <= 200000);
        let ram = image_of(alloc, row.pid, START, row.parts, row.tables)?;
        match simulate(alloc, ram.slice(0, 0x20_6000), &Script::new(alloc), row.n) {
            Ok(run) => compare(&rt, row, &run),
            Err(fault) => panic!(rt; "{fault:?} at {:?}", row.parts),
        }
    }
    Ok(())
}
