use crate::left::Name::{Cia, Dec, Srr0};
use crate::left::{Name, leaves};
use crate::tree::{happen, ram_of};
use mw_board::simulate;
use mw_isa::BlockStatus::{Changed, Invalidated};
use mw_isa::{Access, BlockStatus, End, Event, Kind, Vector, Why};
use mw_uart::Script;
use std::test::Fail;

/// How a run ends.
enum Ends {
    /// It reaches its number of cycles.
    Runs,
    /// A fetch of this cycle stops it: its effective address, the real address of its block, and what was done to that.
    Stops {
        cycle: u64,
        ea: u64,
        block: u64,
        status: BlockStatus,
    },
}

/// A program that changes words, and what its run leaves.
struct Row {
    /// The words with their addresses.
    parts: &'static [(u32, &'static [u32])],
    /// The doublewords of tables, with their addresses, that stand beside those of the tree or in their place.
    tables: &'static [(u32, u64)],
    /// The number of cycles.
    n: u64,
    /// Events of the run, among them all that are traps.
    events: &'static [Event],
    /// The end.
    end: Ends,
    /// General purpose registers with their contents at the end.
    contents: &'static [(usize, u64)],
    /// Others with their contents at the end.
    names: &'static [(Name, u64)],
}

/// A word that is stored and then fetched, with what makes it known to instructions, with parts of that, and with none.
#[rattlefmt::skip]
static WORKED: [Row; 15] = [
    // a store to the block that the program runs in: lis r3,0x6000; stw r3,8(0); li r5,1; b .
    Row { parts: &[(0, &[0x3c60_6000, 0x9060_0008, 0x38a0_0001, 0x4800_0000])],
        tables: &[], n: 40000,
        events: &[Event::Retire { cycle: 0, cia: 0, word: 0x3c60_6000, suffix: None }, Event::Retire { cycle: 1, cia: 4, word: 0x9060_0008, suffix: None }],
        end: Ends::Stops { cycle: 2, ea: 8, block: 0, status: Changed },
        contents: &[(5, 0)], names: &[(Cia, 8), (Dec, 0x7fff_fffd)] },
    // the same, up to there: lis r3,0x6000; stw r3,8(0); li r5,1; b .
    Row { parts: &[(0, &[0x3c60_6000, 0x9060_0008, 0x38a0_0001, 0x4800_0000])],
        tables: &[], n: 2,
        events: &[Event::Retire { cycle: 0, cia: 0, word: 0x3c60_6000, suffix: None }, Event::Retire { cycle: 1, cia: 4, word: 0x9060_0008, suffix: None }],
        end: Ends::Runs,
        contents: &[(5, 0)], names: &[(Cia, 8), (Dec, 0x7fff_fffd)] },
    // a word that is stored and made known: lis r3,0x38a0; ori r3,r3,2; li r4,64; stw r3,0(r4); dcbst 0,r4; sync 0; icbi 0,r4; isync; b 64; .org 0x40; li r5,1; b .
    Row { parts: &[(0, &[0x3c60_38a0, 0x6063_0002, 0x3880_0040, 0x9064_0000, 0x7c00_206c, 0x7c00_04ac, 0x7c00_27ac, 0x4c00_012c, 0x4800_0020]), (0x40, &[0x38a0_0001, 0x4800_0000])],
        tables: &[], n: 120000,
        events: &[],
        end: Ends::Runs,
        contents: &[(5, 2)], names: &[(Cia, 0x44)] },
    // the same without the isync: lis r3,0x38a0; ori r3,r3,2; li r4,64; stw r3,0(r4); dcbst 0,r4; sync 0; icbi 0,r4; b 64; .org 0x40; li r5,1; b .
    Row { parts: &[(0, &[0x3c60_38a0, 0x6063_0002, 0x3880_0040, 0x9064_0000, 0x7c00_206c, 0x7c00_04ac, 0x7c00_27ac, 0x4800_0024]), (0x40, &[0x38a0_0001, 0x4800_0000])],
        tables: &[], n: 300,
        events: &[],
        end: Ends::Stops { cycle: 8, ea: 0x40, block: 0x40, status: Invalidated },
        contents: &[(5, 0)], names: &[(Cia, 0x40)] },
    // without the icbi: lis r3,0x38a0; ori r3,r3,2; li r4,64; stw r3,0(r4); dcbst 0,r4; sync 0; isync; b 64; .org 0x40; li r5,1; b .
    Row { parts: &[(0, &[0x3c60_38a0, 0x6063_0002, 0x3880_0040, 0x9064_0000, 0x7c00_206c, 0x7c00_04ac, 0x4c00_012c, 0x4800_0024]), (0x40, &[0x38a0_0001, 0x4800_0000])],
        tables: &[], n: 300,
        events: &[],
        end: Ends::Stops { cycle: 8, ea: 0x40, block: 0x40, status: Changed },
        contents: &[(5, 0)], names: &[(Cia, 0x40)] },
    // with neither, nor dcbst and sync: lis r3,0x38a0; ori r3,r3,2; li r4,64; stw r3,0(r4); b 64; .org 0x40; li r5,1; b .
    Row { parts: &[(0, &[0x3c60_38a0, 0x6063_0002, 0x3880_0040, 0x9064_0000, 0x4800_0030]), (0x40, &[0x38a0_0001, 0x4800_0000])],
        tables: &[], n: 300,
        events: &[],
        end: Ends::Stops { cycle: 5, ea: 0x40, block: 0x40, status: Changed },
        contents: &[(5, 0)], names: &[(Cia, 0x40)] },
    // a trap and the rfid behind it synchronize: lis r3,0x38a0; ori r3,r3,2; li r4,64; stw r3,0(r4); icbi 0,r4; sc; b 64; .org 0x40; li r5,1; b .; .org 0xc00; rfid
    Row { parts: &[(0, &[0x3c60_38a0, 0x6063_0002, 0x3880_0040, 0x9064_0000, 0x7c00_27ac, 0x4400_0002, 0x4800_0028]), (0x40, &[0x38a0_0001, 0x4800_0000]), (0xc00, &[0x4c00_0024])],
        tables: &[], n: 300,
        events: &[Event::Trap { cycle: 5, cia: 0x14, vector: Vector::SystemCall }],
        end: Ends::Runs,
        contents: &[(5, 2)], names: &[(Cia, 0x44)] },
    // a store between icbi and isync: lis r3,0x38a0; ori r3,r3,2; li r4,64; stw r3,0(r4); icbi 0,r4; stw r3,0(r4); isync; b 64; .org 0x40; li r5,1; b .
    Row { parts: &[(0, &[0x3c60_38a0, 0x6063_0002, 0x3880_0040, 0x9064_0000, 0x7c00_27ac, 0x9064_0000, 0x4c00_012c, 0x4800_0024]), (0x40, &[0x38a0_0001, 0x4800_0000])],
        tables: &[], n: 300,
        events: &[],
        end: Ends::Stops { cycle: 8, ea: 0x40, block: 0x40, status: Changed },
        contents: &[(5, 0)], names: &[(Cia, 0x40)] },
    // an icbi before the store: lis r3,0x38a0; ori r3,r3,2; li r4,64; icbi 0,r4; stw r3,0(r4); isync; b 64; .org 0x40; li r5,1; b .
    Row { parts: &[(0, &[0x3c60_38a0, 0x6063_0002, 0x3880_0040, 0x7c00_27ac, 0x9064_0000, 0x4c00_012c, 0x4800_0028]), (0x40, &[0x38a0_0001, 0x4800_0000])],
        tables: &[], n: 300,
        events: &[],
        end: Ends::Stops { cycle: 7, ea: 0x40, block: 0x40, status: Changed },
        contents: &[(5, 0)], names: &[(Cia, 0x40)] },
    // an interrupt and the rfid behind it synchronize: lis r3,0x38a0; ori r3,r3,2; li r4,64; mfmsr r6; ori r6,r6,0x8000; li r7,3; mtmsrd r6,1; mtspr 22,r7; stw r3,0(r4); icbi 0,r4; nop; nop; nop; b 64; .org 0x40; li r5,1; b .; .org 0x900; lis r8,0x7fff; mtspr 22,r8; rfid
    Row { parts: &[(0, &[0x3c60_38a0, 0x6063_0002, 0x3880_0040, 0x7cc0_00a6, 0x60c6_8000, 0x38e0_0003, 0x7cc1_0164, 0x7cf6_03a6, 0x9064_0000, 0x7c00_27ac, 0x6000_0000, 0x6000_0000, 0x6000_0000, 0x4800_000c]), (0x40, &[0x38a0_0001, 0x4800_0000]), (0x900, &[0x3d00_7fff, 0x7d16_03a6, 0x4c00_0024])],
        tables: &[], n: 100,
        events: &[Event::Irq { cycle: 11, nia: 0x2c, vector: Vector::Decrementer }],
        end: Ends::Runs,
        contents: &[(5, 2)], names: &[(Cia, 0x44)] },
    // dcbz is a store: li r4,64; dcbz 0,r4; b 64
    Row { parts: &[(0, &[0x3880_0040, 0x7c00_27ec, 0x4800_0038])],
        tables: &[], n: 100,
        events: &[],
        end: Ends::Stops { cycle: 3, ea: 0x40, block: 0x40, status: Changed },
        contents: &[], names: &[(Cia, 0x40)] },
    // a store-conditional that stores: lis r3,0x38a0; ori r3,r3,2; li r4,64; lwarx r5,0,r4; stwcx. r3,0,r4; b 64; .org 0x40; li r5,1; b .
    Row { parts: &[(0, &[0x3c60_38a0, 0x6063_0002, 0x3880_0040, 0x7ca0_2028, 0x7c60_212d, 0x4800_002c]), (0x40, &[0x38a0_0001, 0x4800_0000])],
        tables: &[], n: 100,
        events: &[],
        end: Ends::Stops { cycle: 6, ea: 0x40, block: 0x40, status: Changed },
        contents: &[(5, 0x38a0_0001)], names: &[(Cia, 0x40)] },
    // one that doesn't: lis r3,0x38a0; ori r3,r3,2; li r4,64; stwcx. r3,0,r4; b 64; .org 0x40; li r5,1; b .
    Row { parts: &[(0, &[0x3c60_38a0, 0x6063_0002, 0x3880_0040, 0x7c60_212d, 0x4800_0030]), (0x40, &[0x38a0_0001, 0x4800_0000])],
        tables: &[], n: 100,
        events: &[],
        end: Ends::Runs,
        contents: &[(5, 1)], names: &[(Cia, 0x44)] },
    // a handler that was stored to: lis r3,0x6000; stw r3,0x704(0); .long 0; .org 0x700; b .
    Row { parts: &[(0, &[0x3c60_6000, 0x9060_0704, 0]), (0x700, &[0x4800_0000])],
        tables: &[], n: 100,
        events: &[Event::Trap { cycle: 2, cia: 8, vector: Vector::Program }],
        end: Ends::Stops { cycle: 3, ea: 0x700, block: 0x700, status: Changed },
        contents: &[], names: &[(Cia, 0x700), (Srr0, 8)] },
    // a store through another page: li r3,1; mtspr 48,r3; lis r3,1; mtspr 720,r3; mfmsr r8; ori r4,r8,48; mtmsrd r4,0; lis r3,0x38a0; ori r3,r3,2; li r6,0x5800; stw r3,0(r6); b 0x800; .org 0x800; li r5,1; b .
    Row { parts: &[(0, &[0x3860_0001, 0x7c70_0ba6, 0x3c60_0001, 0x7c70_b3a6, 0x7d00_00a6, 0x6104_0030, 0x7c80_0164, 0x3c60_38a0, 0x6063_0002, 0x38c0_5800, 0x9066_0000, 0x4800_07d4]), (0x800, &[0x38a0_0001, 0x4800_0000])],
        tables: &[(0x3_2028, 0xc000_0000_0000_0187)], n: 300,
        events: &[],
        end: Ends::Stops { cycle: 12, ea: 0x800, block: 0x800, status: Changed },
        contents: &[(5, 0)], names: &[(Cia, 0x800)] },
];

/// Each event that synchronizes and one that doesn't, pages, and the edges of blocks.
#[rattlefmt::skip]
static BESIDE: [Row; 19] = [
    // the block is the real one, the address the effective one: li r3,1; mtspr 48,r3; lis r3,1; mtspr 720,r3; mfmsr r8; ori r4,r8,48; mtmsrd r4,0; lis r3,0x38a0; ori r3,r3,2; stw r3,0x800(0); b 0x5800; .org 0x800; li r5,1; b .
    Row { parts: &[(0, &[0x3860_0001, 0x7c70_0ba6, 0x3c60_0001, 0x7c70_b3a6, 0x7d00_00a6, 0x6104_0030, 0x7c80_0164, 0x3c60_38a0, 0x6063_0002, 0x9060_0800, 0x4800_57d8]), (0x800, &[0x38a0_0001, 0x4800_0000])],
        tables: &[(0x3_2028, 0xc000_0000_0000_0187)], n: 300,
        events: &[],
        end: Ends::Stops { cycle: 11, ea: 0x5800, block: 0x800, status: Changed },
        contents: &[(5, 0)], names: &[(Cia, 0x5800)] },
    // a block that is made known through another page: li r3,1; mtspr 48,r3; lis r3,1; mtspr 720,r3; mfmsr r8; ori r4,r8,48; mtmsrd r4,0; lis r3,0x38a0; ori r3,r3,2; li r6,0x5800; stw r3,0(r6); icbi 0,r6; isync; b 0x800; .org 0x800; li r5,1; b .
    Row { parts: &[(0, &[0x3860_0001, 0x7c70_0ba6, 0x3c60_0001, 0x7c70_b3a6, 0x7d00_00a6, 0x6104_0030, 0x7c80_0164, 0x3c60_38a0, 0x6063_0002, 0x38c0_5800, 0x9066_0000, 0x7c00_37ac, 0x4c00_012c, 0x4800_07cc]), (0x800, &[0x38a0_0001, 0x4800_0000])],
        tables: &[(0x3_2028, 0xc000_0000_0000_0187)], n: 300,
        events: &[],
        end: Ends::Runs,
        contents: &[(5, 2)], names: &[(Cia, 0x804)] },
    // a fetch that has a fault breaks no rule: li r3,1; mtspr 48,r3; lis r3,1; mtspr 720,r3; mfmsr r8; ori r4,r8,32; mtmsrd r4,0; stw r3,0x5000(0); b 0x5000; .org 0x400; b .
    Row { parts: &[(0, &[0x3860_0001, 0x7c70_0ba6, 0x3c60_0001, 0x7c70_b3a6, 0x7d00_00a6, 0x6104_0020, 0x7c80_0164, 0x9060_5000, 0x4800_4fe0]), (0x400, &[0x4800_0000])],
        tables: &[], n: 100,
        events: &[Event::Trap { cycle: 9, cia: 0x5000, vector: Vector::InstStorage }],
        end: Ends::Runs,
        contents: &[], names: &[(Cia, 0x400), (Srr0, 0x5000)] },
    // sync isn't among what synchronizes: lis r3,0x38a0; ori r3,r3,2; li r4,64; stw r3,0(r4); icbi 0,r4; sync 0; b 64; .org 0x40; li r5,1; b .
    Row { parts: &[(0, &[0x3c60_38a0, 0x6063_0002, 0x3880_0040, 0x9064_0000, 0x7c00_27ac, 0x7c00_04ac, 0x4800_0028]), (0x40, &[0x38a0_0001, 0x4800_0000])],
        tables: &[], n: 100,
        events: &[],
        end: Ends::Stops { cycle: 7, ea: 0x40, block: 0x40, status: Invalidated },
        contents: &[(5, 0)], names: &[(Cia, 0x40)] },
    // ptesync is: lis r3,0x38a0; ori r3,r3,2; li r4,64; stw r3,0(r4); icbi 0,r4; sync 2; b 64; .org 0x40; li r5,1; b .
    Row { parts: &[(0, &[0x3c60_38a0, 0x6063_0002, 0x3880_0040, 0x9064_0000, 0x7c00_27ac, 0x7c40_04ac, 0x4800_0028]), (0x40, &[0x38a0_0001, 0x4800_0000])],
        tables: &[], n: 100,
        events: &[],
        end: Ends::Runs,
        contents: &[(5, 2)], names: &[(Cia, 0x44)] },
    // rfid is: lis r3,0x38a0; ori r3,r3,2; li r4,64; stw r3,0(r4); icbi 0,r4; mtspr 26,r4; mfmsr r6; mtspr 27,r6; rfid; .org 0x40; li r5,1; b .
    Row { parts: &[(0, &[0x3c60_38a0, 0x6063_0002, 0x3880_0040, 0x9064_0000, 0x7c00_27ac, 0x7c9a_03a6, 0x7cc0_00a6, 0x7cdb_03a6, 0x4c00_0024]), (0x40, &[0x38a0_0001, 0x4800_0000])],
        tables: &[], n: 100,
        events: &[],
        end: Ends::Runs,
        contents: &[(5, 2)], names: &[(Cia, 0x44)] },
    // hrfid is: lis r3,0x38a0; ori r3,r3,2; li r4,64; stw r3,0(r4); icbi 0,r4; mtspr 314,r4; mfmsr r6; mtspr 315,r6; hrfid; .org 0x40; li r5,1; b .
    Row { parts: &[(0, &[0x3c60_38a0, 0x6063_0002, 0x3880_0040, 0x9064_0000, 0x7c00_27ac, 0x7c9a_4ba6, 0x7cc0_00a6, 0x7cdb_4ba6, 0x4c00_0224]), (0x40, &[0x38a0_0001, 0x4800_0000])],
        tables: &[], n: 100,
        events: &[],
        end: Ends::Runs,
        contents: &[(5, 2)], names: &[(Cia, 0x44)] },
    // a trap is, by itself: lis r3,0x38a0; ori r3,r3,2; li r4,64; stw r3,0(r4); icbi 0,r4; sc; .org 0x40; li r5,1; b .; .org 0xc00; ba 64
    Row { parts: &[(0, &[0x3c60_38a0, 0x6063_0002, 0x3880_0040, 0x9064_0000, 0x7c00_27ac, 0x4400_0002]), (0x40, &[0x38a0_0001, 0x4800_0000]), (0xc00, &[0x4800_0042])],
        tables: &[], n: 100,
        events: &[Event::Trap { cycle: 5, cia: 0x14, vector: Vector::SystemCall }],
        end: Ends::Runs,
        contents: &[(5, 2)], names: &[(Cia, 0x44)] },
    // an interrupt between instructions is, by itself: lis r3,0x38a0; ori r3,r3,2; li r4,64; mfmsr r6; ori r6,r6,0x8000; li r7,3; mtmsrd r6,1; mtspr 22,r7; stw r3,0(r4); icbi 0,r4; nop; nop; nop; b 64; .org 0x40; li r5,1; b .; .org 0x900; ba 64
    Row { parts: &[(0, &[0x3c60_38a0, 0x6063_0002, 0x3880_0040, 0x7cc0_00a6, 0x60c6_8000, 0x38e0_0003, 0x7cc1_0164, 0x7cf6_03a6, 0x9064_0000, 0x7c00_27ac, 0x6000_0000, 0x6000_0000, 0x6000_0000, 0x4800_000c]), (0x40, &[0x38a0_0001, 0x4800_0000]), (0x900, &[0x4800_0042])],
        tables: &[], n: 100,
        events: &[Event::Irq { cycle: 11, nia: 0x2c, vector: Vector::Decrementer }],
        end: Ends::Runs,
        contents: &[(5, 2)], names: &[(Cia, 0x44)] },
    // an isync before the icbi: lis r3,0x38a0; ori r3,r3,2; li r4,64; stw r3,0(r4); isync; icbi 0,r4; b 64; .org 0x40; li r5,1; b .
    Row { parts: &[(0, &[0x3c60_38a0, 0x6063_0002, 0x3880_0040, 0x9064_0000, 0x4c00_012c, 0x7c00_27ac, 0x4800_0028]), (0x40, &[0x38a0_0001, 0x4800_0000])],
        tables: &[], n: 100,
        events: &[],
        end: Ends::Stops { cycle: 7, ea: 0x40, block: 0x40, status: Invalidated },
        contents: &[(5, 0)], names: &[(Cia, 0x40)] },
    // an icbi behind the isync that made the block known: lis r3,0x38a0; ori r3,r3,2; li r4,64; stw r3,0(r4); icbi 0,r4; isync; icbi 0,r4; b 64; .org 0x40; li r5,1; b .
    Row { parts: &[(0, &[0x3c60_38a0, 0x6063_0002, 0x3880_0040, 0x9064_0000, 0x7c00_27ac, 0x4c00_012c, 0x7c00_27ac, 0x4800_0024]), (0x40, &[0x38a0_0001, 0x4800_0000])],
        tables: &[], n: 100,
        events: &[],
        end: Ends::Runs,
        contents: &[(5, 2)], names: &[(Cia, 0x44)] },
    // an interrupt that is pending comes before the offence: lis r3,0x38a0; ori r3,r3,2; li r4,64; mfmsr r6; ori r6,r6,0x8000; li r7,2; mtmsrd r6,1; mtspr 22,r7; stw r3,0(r4); b 64; .org 0x40; li r5,1; b .; .org 0x900; lis r8,0x7fff; mtspr 22,r8; rfid
    Row { parts: &[(0, &[0x3c60_38a0, 0x6063_0002, 0x3880_0040, 0x7cc0_00a6, 0x60c6_8000, 0x38e0_0002, 0x7cc1_0164, 0x7cf6_03a6, 0x9064_0000, 0x4800_001c]), (0x40, &[0x38a0_0001, 0x4800_0000]), (0x900, &[0x3d00_7fff, 0x7d16_03a6, 0x4c00_0024])],
        tables: &[], n: 100,
        events: &[Event::Irq { cycle: 10, nia: 0x40, vector: Vector::Decrementer }],
        end: Ends::Stops { cycle: 14, ea: 0x40, block: 0x40, status: Changed },
        contents: &[(5, 0)], names: &[(Cia, 0x40), (Srr0, 0x40)] },
    // a store across two blocks, by its first: lis r3,0x38a0; ori r3,r3,2; li r4,64; std r3,60(r4); b 64; .org 0x40; li r5,1; b .
    Row { parts: &[(0, &[0x3c60_38a0, 0x6063_0002, 0x3880_0040, 0xf864_003c, 0x4800_0030]), (0x40, &[0x38a0_0001, 0x4800_0000])],
        tables: &[], n: 100,
        events: &[],
        end: Ends::Stops { cycle: 5, ea: 0x40, block: 0x40, status: Changed },
        contents: &[(5, 0)], names: &[(Cia, 0x40)] },
    // by its second: lis r3,0x38a0; ori r3,r3,2; li r4,64; std r3,60(r4); b 0x84; .org 0x84; li r5,1; b .
    Row { parts: &[(0, &[0x3c60_38a0, 0x6063_0002, 0x3880_0040, 0xf864_003c, 0x4800_0074]), (0x84, &[0x38a0_0001, 0x4800_0000])],
        tables: &[], n: 100,
        events: &[],
        end: Ends::Stops { cycle: 5, ea: 0x84, block: 0x80, status: Changed },
        contents: &[(5, 0)], names: &[(Cia, 0x84)] },
    // behind it: lis r3,0x38a0; ori r3,r3,2; li r4,64; std r3,60(r4); b 0xc0; .org 0xc0; li r5,1; b .
    Row { parts: &[(0, &[0x3c60_38a0, 0x6063_0002, 0x3880_0040, 0xf864_003c, 0x4800_00b0]), (0xc0, &[0x38a0_0001, 0x4800_0000])],
        tables: &[], n: 100,
        events: &[],
        end: Ends::Runs,
        contents: &[(5, 1)], names: &[(Cia, 0xc4)] },
    // the last byte of a block: lis r3,0x38a0; ori r3,r3,2; li r4,64; stb r3,63(r4); b 64; .org 0x40; li r5,1; b .
    Row { parts: &[(0, &[0x3c60_38a0, 0x6063_0002, 0x3880_0040, 0x9864_003f, 0x4800_0030]), (0x40, &[0x38a0_0001, 0x4800_0000])],
        tables: &[], n: 100,
        events: &[],
        end: Ends::Stops { cycle: 5, ea: 0x40, block: 0x40, status: Changed },
        contents: &[(5, 0)], names: &[(Cia, 0x40)] },
    // the byte behind a block: lis r3,0x38a0; ori r3,r3,2; li r4,64; stb r3,64(r4); b 64; .org 0x40; li r5,1; b .
    Row { parts: &[(0, &[0x3c60_38a0, 0x6063_0002, 0x3880_0040, 0x9864_0040, 0x4800_0030]), (0x40, &[0x38a0_0001, 0x4800_0000])],
        tables: &[], n: 100,
        events: &[],
        end: Ends::Runs,
        contents: &[(5, 1)], names: &[(Cia, 0x44)] },
    // the last block of RAM: lis r4,0xff; ori r4,r4,0xffc0; stb r3,63(r4); mtspr 9,r4; bctr
    Row { parts: &[(0, &[0x3c80_00ff, 0x6084_ffc0, 0x9864_003f, 0x7c89_03a6, 0x4e80_0420])],
        tables: &[], n: 100,
        events: &[],
        end: Ends::Stops { cycle: 5, ea: 0xff_ffc0, block: 0xff_ffc0, status: Changed },
        contents: &[], names: &[(Cia, 0xff_ffc0)] },
    // a store that is refused: lis r3,0x38a0; ori r3,r3,2; li r4,64; lwarx r5,0,r4; li r6,66; stwcx. r3,0,r6; .org 0x40; li r5,1; b .; .org 0x600; ba 64
    Row { parts: &[(0, &[0x3c60_38a0, 0x6063_0002, 0x3880_0040, 0x7ca0_2028, 0x38c0_0042, 0x7c60_312d]), (0x40, &[0x38a0_0001, 0x4800_0000]), (0x600, &[0x4800_0042])],
        tables: &[], n: 100,
        events: &[Event::Trap { cycle: 5, cia: 0x14, vector: Vector::Alignment }],
        end: Ends::Runs,
        contents: &[(5, 1)], names: &[(Cia, 0x44), (Srr0, 0x14)] },
];

/// The end of a run of so many cycles that ends so.
fn end_of(n: u64, ends: &Ends) -> End {
    match ends {
        Ends::Runs => End::Ran { cycle: n },
        Ends::Stops {
            cycle,
            ea,
            block,
            status,
        } => End::Offence {
            cycle: *cycle,
            access: Access {
                kind: Kind::Fetch,
                ea: *ea,
                why: Why::Block {
                    block: *block,
                    status: *status,
                },
            },
        },
    }
}

#[test]
fn changed_code_stops_a_run(rt: HostRuntime) -> Result<(), Fail> {
    let alloc = rt.alloc();
    for rows in [WORKED.as_slice(), BESIDE.as_slice()] {
        for row in rows {
            assert!(rt; row.n <= 120000);
            let shown = row.parts;
            let ram = ram_of(alloc, row.parts, row.tables)?;
            match simulate(alloc, ram.slice(0, 0x4_0000), &Script::new(alloc), row.n) {
                Ok(run) => {
                    assert_eq!(rt; run.end, end_of(row.n, &row.end), "{shown:?}");
                    happen(&rt, run.events.as_slice(), row.events, &shown);
                    leaves(&rt, &run, row.contents, row.names, &shown)?;
                }
                Err(fault) => panic!(rt; "{fault:?} at {shown:?}"),
            }
        }
    }
    Ok(())
}
