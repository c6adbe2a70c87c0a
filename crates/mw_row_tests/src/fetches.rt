use crate::left::Name::{Cia, Dar, Dsisr, Msr, Srr0, Srr1};
use crate::left::{Name, leaves};
use crate::tree::{happen, image_of};
use mw_board::simulate;
use mw_isa::{End, Event, Vector};
use mw_uart::Script;
use std::test::Fail;

/// A program of process 1 in a tree of tables, and what it leaves.
struct Row {
    /// The words behind those that set PIDR and PRTBL.
    start: &'static [u32],
    /// The words with their addresses: those behind the start, handlers, and those of other pages.
    parts: &'static [(u32, &'static [u32])],
    /// The doublewords of tables, with their addresses, that stand beside those of the tree or in their place.
    tables: &'static [(u32, u64)],
    /// The number of cycles.
    n: u64,
    /// Events of the run, among them all that are traps.
    events: &'static [Event],
    /// General purpose registers with their contents at the end.
    contents: &'static [(usize, u64)],
    /// Others with their contents at the end.
    names: &'static [(Name, u64)],
}

// mfmsr r4; ori r4,r4,32; mtmsrd r4,0
const TRANSLATED: &[u32] = &[0x7c80_00a6, 0x6084_0020, 0x7c80_0164];

/// Instructions whose addresses are translated, and accesses whose addresses aren't.
#[rattlefmt::skip]
static FETCHES: [Row; 11] = [
    // a page without a leaf: b 0x6000
    Row { start: TRANSLATED, parts: &[(0x1c, &[0x4800_5fe4])],
        tables: &[], n: 100,
        events: &[Event::Trap { cycle: 8, cia: 0x6000, vector: Vector::InstStorage }],
        contents: &[], names: &[(Srr0, 0x6000), (Srr1, 0x9000_0000_4000_1021), (Dar, 0), (Dsisr, 0), (Msr, 0x9000_0000_0000_1001), (Cia, 0x400)] },
    // a page that is read and written: b 0x5000
    Row { start: TRANSLATED, parts: &[(0x1c, &[0x4800_4fe4])],
        tables: &[], n: 100,
        events: &[Event::Trap { cycle: 8, cia: 0x5000, vector: Vector::InstStorage }],
        contents: &[], names: &[(Srr0, 0x5000), (Srr1, 0x9000_0000_1000_1021), (Dar, 0), (Dsisr, 0), (Cia, 0x400)] },
    // a page without R: b 0x5000
    Row { start: TRANSLATED, parts: &[(0x1c, &[0x4800_4fe4])],
        tables: &[(0x3_2028, 0xc000_0000_0000_5087)], n: 100,
        events: &[Event::Trap { cycle: 8, cia: 0x5000, vector: Vector::InstStorage }],
        contents: &[], names: &[(Srr0, 0x5000), (Srr1, 0x9000_0000_0004_1021), (Dar, 0), (Dsisr, 0), (Cia, 0x400)] },
    // a directory of four bits, which the next instruction meets
    Row { start: TRANSLATED, parts: &[],
        tables: &[(0x3_1000, 0x8000_0000_0003_2004)], n: 100,
        events: &[Event::Trap { cycle: 7, cia: 0x1c, vector: Vector::InstStorage }],
        contents: &[], names: &[(Srr0, 0x1c), (Srr1, 0x9000_0000_0008_1021), (Dar, 0), (Dsisr, 0), (Cia, 0x400)] },
    // quadrant 1: li r5,1; rldicr r5,r5,62,63; mtspr 9,r5; bctr
    Row { start: TRANSLATED, parts: &[(0x1c, &[0x38a0_0001, 0x78a5_f7e6, 0x7ca9_03a6, 0x4e80_0420])],
        tables: &[], n: 100,
        events: &[Event::Trap { cycle: 11, cia: 0x4000_0000_0000_0000, vector: Vector::InstSegment }],
        contents: &[], names: &[(Srr0, 0x4000_0000_0000_0000), (Srr1, 0x9000_0000_0000_1021), (Dar, 0), (Dsisr, 0), (Cia, 0x480)] },
    // the UART stands behind a page, and all ones is what is fetched there: b 0x5000
    Row { start: TRANSLATED, parts: &[(0x1c, &[0x4800_4fe4])],
        tables: &[(0x3_2028, 0xc000_0000_c000_2187)], n: 100,
        events: &[Event::Trap { cycle: 8, cia: 0x5000, vector: Vector::FpUnavailable }],
        contents: &[], names: &[(Srr0, 0x5000), (Srr1, 0x9000_0000_0000_1021), (Dar, 0), (Dsisr, 0), (Cia, 0x800)] },
    // a suffix that ends its block: b 0x5038; .org 0x7038; paddi r7,r0,5,0; b .
    Row { start: TRANSLATED, parts: &[(0x1c, &[0x4800_501c]), (0x7038, &[0x0600_0000, 0x38e0_0005, 0x4800_0000])],
        tables: &[(0x3_2028, 0xc000_0000_0000_7187)], n: 100,
        events: &[Event::Retire { cycle: 8, cia: 0x5038, word: 0x0600_0000, suffix: Some(0x38e0_0005) }],
        contents: &[(7, 5)], names: &[(Dar, 0), (Dsisr, 0), (Msr, 0x9000_0000_0000_1021), (Cia, 0x5040)] },
    // a prefix that ends its block: b 0x503c; .org 0x703c; .long 0x06000000,0x38e00005
    Row { start: TRANSLATED, parts: &[(0x1c, &[0x4800_5020]), (0x703c, &[0x0600_0000, 0x38e0_0005])],
        tables: &[(0x3_2028, 0xc000_0000_0000_7187)], n: 100,
        events: &[Event::Trap { cycle: 8, cia: 0x503c, vector: Vector::Alignment }],
        contents: &[(7, 0)], names: &[(Srr0, 0x503c), (Srr1, 0x9000_0000_3000_1021), (Dar, 0), (Dsisr, 0), (Cia, 0x600)] },
    // a prefix in a page that is read and written: b 0x5000; .org 0x5000; .long 0x06000000,0x38e00005
    Row { start: TRANSLATED, parts: &[(0x1c, &[0x4800_4fe4]), (0x5000, &[0x0600_0000, 0x38e0_0005])],
        tables: &[], n: 100,
        events: &[Event::Trap { cycle: 8, cia: 0x5000, vector: Vector::InstStorage }],
        contents: &[(7, 0)], names: &[(Srr0, 0x5000), (Srr1, 0x9000_0000_1000_1021), (Dar, 0), (Dsisr, 0), (Cia, 0x400)] },
    // a page that comes to stand elsewhere, mfmsr r8; ori r4,r8,32; lis r9,3; ori r9,r9,0x202e; li r10,0x71; mtmsrd r4,0; bl 0x5000; mtmsrd r8,0; stb r10,0(r9);
    // li r5,0x5000; li r12,1; rldicr r12,r12,32,31; tlbie r5,r12,0,1,1; ptesync; mtmsrd r4,0; bl 0x5000; b .; .org 0x5000; li r7,1; blr; .org 0x7000; li r7,2; blr
    Row { start: &[0x7d00_00a6, 0x6104_0020, 0x3d20_0003, 0x6129_202e, 0x3940_0071, 0x7c80_0164, 0x4800_4fd9, 0x7d00_0164, 0x9949_0000, 0x38a0_5000, 0x3980_0001, 0x798c_07c6, 0x7d83_2a64, 0x7c40_04ac, 0x7c80_0164, 0x4800_4fb5, 0x4800_0000],
        parts: &[(0x5000, &[0x38e0_0001, 0x4e80_0020]), (0x7000, &[0x38e0_0002, 0x4e80_0020])],
        tables: &[(0x3_2028, 0xc000_0000_0000_5187)], n: 200000,
        events: &[Event::Retire { cycle: 11, cia: 0x5000, word: 0x38e0_0001, suffix: None }, Event::Retire { cycle: 22, cia: 0x5000, word: 0x38e0_0002, suffix: None }],
        contents: &[(7, 2)], names: &[(Dar, 0), (Dsisr, 0), (Msr, 0x9000_0000_0000_1021), (Cia, 0x50)] },
    // data in a page that there is none of: li r5,0x6000; ld r7,0(r5); b .; .org 0x6000; .quad 0x66
    Row { start: TRANSLATED, parts: &[(0x1c, &[0x38a0_6000, 0xe8e5_0000, 0x4800_0000]), (0x6000, &[0x66, 0])],
        tables: &[], n: 100,
        events: &[],
        contents: &[(7, 0x66)], names: &[(Dar, 0), (Dsisr, 0), (Msr, 0x9000_0000_0000_1021), (Cia, 0x24)] },
];

// li r4,0x4000; mtspr 27,r4; li r5,0x24; mtspr 26,r5; rfid
const PROBLEM: &[u32] = &[
    0x3880_4000,
    0x7c9b_03a6,
    0x38a0_0024,
    0x7cba_03a6,
    0x4c00_0024,
];

/// Programs in problem state.
#[rattlefmt::skip]
static PROGRAMS: [Row; 5] = [
    // .long 0xc8200000
    Row { start: PROBLEM, parts: &[(0x24, &[0xc820_0000])],
        tables: &[], n: 150000,
        events: &[Event::Trap { cycle: 9, cia: 0x24, vector: Vector::FpUnavailable }],
        contents: &[], names: &[(Srr0, 0x24), (Srr1, 0x9000_0000_0000_d031), (Dar, 0), (Dsisr, 0), (Msr, 0x9000_0000_0000_1001), (Cia, 0x800)] },
    // mfmsr r6
    Row { start: PROBLEM, parts: &[(0x24, &[0x7cc0_00a6])],
        tables: &[], n: 150000,
        events: &[Event::Trap { cycle: 9, cia: 0x24, vector: Vector::Program }],
        contents: &[(6, 0)], names: &[(Srr0, 0x24), (Srr1, 0x9000_0000_0004_d031), (Dar, 0), (Dsisr, 0), (Cia, 0x700)] },
    // a service: li r7,7; sc; b .; .org 0xc00; mfspr r8,26; mfspr r9,27; rfid
    Row { start: PROBLEM, parts: &[(0x24, &[0x38e0_0007, 0x4400_0002, 0x4800_0000]), (0xc00, &[0x7d1a_02a6, 0x7d3b_02a6, 0x4c00_0024])],
        tables: &[], n: 200,
        events: &[Event::Trap { cycle: 10, cia: 0x28, vector: Vector::SystemCall }],
        contents: &[(7, 7), (8, 0x2c), (9, 0x9000_0000_0000_d031)], names: &[(Dar, 0), (Dsisr, 0), (Msr, 0x9000_0000_0000_d031), (Cia, 0x2c)] },
    // a page that is privileged: li r5,0x5000; ld r7,0(r5)
    Row { start: PROBLEM, parts: &[(0x24, &[0x38a0_5000, 0xe8e5_0000])],
        tables: &[(0x3_2028, 0xc000_0000_0000_518e)], n: 150000,
        events: &[Event::Trap { cycle: 10, cia: 0x28, vector: Vector::DataStorage }],
        contents: &[(7, 0)], names: &[(Srr0, 0x28), (Srr1, 0x9000_0000_0000_d031), (Dar, 0x5000), (Dsisr, 0x0800_0000), (Cia, 0x300)] },
    // the page of instructions is privileged: b .
    Row { start: PROBLEM, parts: &[(0x24, &[0x4800_0000])],
        tables: &[(0x3_2000, 0xc000_0000_0000_018f)], n: 150000,
        events: &[Event::Trap { cycle: 9, cia: 0x24, vector: Vector::InstStorage }],
        contents: &[], names: &[(Srr0, 0x24), (Srr1, 0x9000_0000_1000_d031), (Dar, 0), (Dsisr, 0), (Cia, 0x400)] },
];

// .org 0xc00; mfspr r9,27; b .
const SERVICE: (u32, &[u32]) = (0xc00, &[0x7d3b_02a6, 0x4800_0000]);

/// Writes of MSR with IR or PR of the source, and what `sc` behind each finds in MSR.
#[rattlefmt::skip]
static WAYS: [Row; 10] = [
    // li r4,0x20; mtmsr r4,0; sc
    Row { start: &[0x3880_0020, 0x7c80_0124, 0x4400_0002], parts: &[SERVICE], tables: &[], n: 20, events: &[Event::Trap { cycle: 6, cia: 0x18, vector: Vector::SystemCall }], contents: &[(9, 0x9000_0000_0000_1021)], names: &[(Cia, 0xc04)] },
    // li r4,0x4000; mtmsr r4,0; sc
    Row { start: &[0x3880_4000, 0x7c80_0124, 0x4400_0002], parts: &[SERVICE], tables: &[], n: 20, events: &[Event::Trap { cycle: 6, cia: 0x18, vector: Vector::SystemCall }], contents: &[(9, 0x9000_0000_0000_d031)], names: &[(Cia, 0xc04)] },
    // li r4,0x4030; mtmsr r4,1; sc
    Row { start: &[0x3880_4030, 0x7c81_0124, 0x4400_0002], parts: &[SERVICE], tables: &[], n: 20, events: &[Event::Trap { cycle: 6, cia: 0x18, vector: Vector::SystemCall }], contents: &[(9, 0x9000_0000_0000_1001)], names: &[(Cia, 0xc04)] },
    // li r4,0x20; mtmsrd r4,0; sc
    Row { start: &[0x3880_0020, 0x7c80_0164, 0x4400_0002], parts: &[SERVICE], tables: &[], n: 20, events: &[Event::Trap { cycle: 6, cia: 0x18, vector: Vector::SystemCall }], contents: &[(9, 0x9000_0000_0000_1021)], names: &[(Cia, 0xc04)] },
    // li r4,0x4000; mtmsrd r4,0; sc
    Row { start: &[0x3880_4000, 0x7c80_0164, 0x4400_0002], parts: &[SERVICE], tables: &[], n: 20, events: &[Event::Trap { cycle: 6, cia: 0x18, vector: Vector::SystemCall }], contents: &[(9, 0x9000_0000_0000_d031)], names: &[(Cia, 0xc04)] },
    // li r4,0x4030; mtmsrd r4,1; sc
    Row { start: &[0x3880_4030, 0x7c81_0164, 0x4400_0002], parts: &[SERVICE], tables: &[], n: 20, events: &[Event::Trap { cycle: 6, cia: 0x18, vector: Vector::SystemCall }], contents: &[(9, 0x9000_0000_0000_1001)], names: &[(Cia, 0xc04)] },
    // li r4,0x20; mtspr 27,r4; li r5,0x24; mtspr 26,r5; rfid; sc
    Row { start: &[0x3880_0020, 0x7c9b_03a6, 0x38a0_0024, 0x7cba_03a6, 0x4c00_0024, 0x4400_0002], parts: &[SERVICE], tables: &[], n: 20, events: &[Event::Trap { cycle: 9, cia: 0x24, vector: Vector::SystemCall }], contents: &[(9, 0x9000_0000_0000_1021)], names: &[(Cia, 0xc04)] },
    // li r4,0x4000; mtspr 27,r4; li r5,0x24; mtspr 26,r5; rfid; sc
    Row { start: &[0x3880_4000, 0x7c9b_03a6, 0x38a0_0024, 0x7cba_03a6, 0x4c00_0024, 0x4400_0002], parts: &[SERVICE], tables: &[], n: 20, events: &[Event::Trap { cycle: 9, cia: 0x24, vector: Vector::SystemCall }], contents: &[(9, 0x9000_0000_0000_d031)], names: &[(Cia, 0xc04)] },
    // li r4,0x20; mtspr 315,r4; li r5,0x24; mtspr 314,r5; hrfid; sc
    Row { start: &[0x3880_0020, 0x7c9b_4ba6, 0x38a0_0024, 0x7cba_4ba6, 0x4c00_0224, 0x4400_0002], parts: &[SERVICE], tables: &[], n: 20, events: &[Event::Trap { cycle: 9, cia: 0x24, vector: Vector::SystemCall }], contents: &[(9, 0x9000_0000_0000_1021)], names: &[(Cia, 0xc04)] },
    // li r4,0x4000; mtspr 315,r4; li r5,0x24; mtspr 314,r5; hrfid; sc
    Row { start: &[0x3880_4000, 0x7c9b_4ba6, 0x38a0_0024, 0x7cba_4ba6, 0x4c00_0224, 0x4400_0002], parts: &[SERVICE], tables: &[], n: 20, events: &[Event::Trap { cycle: 9, cia: 0x24, vector: Vector::SystemCall }], contents: &[(9, 0x9000_0000_0000_d031)], names: &[(Cia, 0xc04)] },
];

#[test]
fn instructions_are_translated(rt: HostRuntime) -> Result<(), Fail> {
    let alloc = rt.alloc();
    for rows in [FETCHES.as_slice(), PROGRAMS.as_slice(), WAYS.as_slice()] {
        for row in rows {
            assert!(rt; row.n <= 200000);
            let shown = (row.start, row.parts, row.tables);
            let ram = image_of(alloc, 1, row.start, row.parts, row.tables)?;
            match simulate(alloc, ram.slice(0, 0x20_6000), &Script::new(alloc), row.n) {
                Ok(run) => {
                    assert_eq!(rt; run.end, End::Ran { cycle: row.n }, "{shown:?}");
                    happen(&rt, run.events.as_slice(), row.events, &shown);
                    leaves(&rt, &run, row.contents, row.names, &shown)?;
                }
                Err(fault) => panic!(rt; "{fault:?} at {shown:?}"),
            }
        }
    }
    Ok(())
}
