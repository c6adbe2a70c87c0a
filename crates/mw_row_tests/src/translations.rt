use crate::left::Name::Cia;
use crate::left::{Name, leaves};
use crate::tree::ram_of;
use mw_board::simulate;
use mw_isa::{Access, End, Fresh, Kind, Vector, Why};
use mw_uart::Script;
use std::test::Fail;

/// A program that changes translations, and what its run leaves.
struct Row {
    /// The words with their addresses.
    parts: &'static [(u32, &'static [u32])],
    /// The doublewords of tables, with their addresses, that stand beside those of the tree or in their place.
    tables: &'static [(u32, u64)],
    /// The number of cycles.
    n: u64,
    /// The end.
    end: End,
    /// Register 7 at the end, in which a load shows where its page stood.
    r7: u64,
    /// Others with their contents at the end.
    names: &'static [(Name, u64)],
}

/// A page is used, its leaf is changed, and it is used again: with what makes that known, with parts of it, and with none.
#[rattlefmt::skip]
static WORKED: [Row; 23] = [
    // a stale translation: li r3,1; mtspr 48,r3; lis r3,1; mtspr 720,r3; mfmsr r8; ori r4,r8,16; li r5,0x5000; lis r9,3; ori r9,r9,0x202e; li r10,0x71; mtmsrd r4,0; ld r7,0(r5); mtmsrd r8,0; stb r10,0(r9); mtmsrd r4,0; ld r7,0(r5); b .
    Row { parts: &[(0, &[0x3860_0001, 0x7c70_0ba6, 0x3c60_0001, 0x7c70_b3a6, 0x7d00_00a6, 0x6104_0010, 0x38a0_5000, 0x3d20_0003, 0x6129_202e, 0x3940_0071, 0x7c80_0164, 0xe8e5_0000, 0x7d00_0164, 0x9949_0000, 0x7c80_0164, 0xe8e5_0000, 0x4800_0000]), (0x5000, &[0x55, 0x0]), (0x7000, &[0x77, 0x0])],
        tables: &[], n: 200000,
        end: End::Offence { cycle: 15, access: Access { kind: Kind::Load, ea: 0x5000, why: Why::Page { kept: 0x5000, fresh: Fresh::Page(0x7000) } } },
        r7: 0x55, names: &[(Cia, 0x3c)] },
    // tlbie and ptesync make it known: li r3,1; mtspr 48,r3; lis r3,1; mtspr 720,r3; mfmsr r8; ori r4,r8,16; li r5,0x5000; lis r9,3; ori r9,r9,0x202e; li r10,0x71; mtmsrd r4,0; ld r7,0(r5); mtmsrd r8,0; stb r10,0(r9); li r12,1; rldicr r12,r12,32,31; tlbie r5,r12,0,1,1; ptesync; mtmsrd r4,0; ld r7,0(r5); b .
    Row { parts: &[(0, &[0x3860_0001, 0x7c70_0ba6, 0x3c60_0001, 0x7c70_b3a6, 0x7d00_00a6, 0x6104_0010, 0x38a0_5000, 0x3d20_0003, 0x6129_202e, 0x3940_0071, 0x7c80_0164, 0xe8e5_0000, 0x7d00_0164, 0x9949_0000, 0x3980_0001, 0x798c_07c6, 0x7d83_2a64, 0x7c40_04ac, 0x7c80_0164, 0xe8e5_0000, 0x4800_0000]), (0x5000, &[0x55, 0x0]), (0x7000, &[0x77, 0x0])],
        tables: &[], n: 200000,
        end: End::Ran { cycle: 200000 },
        r7: 0x77, names: &[] },
    // without the ptesync: li r3,1; mtspr 48,r3; lis r3,1; mtspr 720,r3; mfmsr r8; ori r4,r8,16; li r5,0x5000; lis r9,3; ori r9,r9,0x202e; li r10,0x71; mtmsrd r4,0; ld r7,0(r5); mtmsrd r8,0; stb r10,0(r9); li r12,1; rldicr r12,r12,32,31; tlbie r5,r12,0,1,1; mtmsrd r4,0; ld r7,0(r5); b .
    Row { parts: &[(0, &[0x3860_0001, 0x7c70_0ba6, 0x3c60_0001, 0x7c70_b3a6, 0x7d00_00a6, 0x6104_0010, 0x38a0_5000, 0x3d20_0003, 0x6129_202e, 0x3940_0071, 0x7c80_0164, 0xe8e5_0000, 0x7d00_0164, 0x9949_0000, 0x3980_0001, 0x798c_07c6, 0x7d83_2a64, 0x7c80_0164, 0xe8e5_0000, 0x4800_0000]), (0x5000, &[0x55, 0x0]), (0x7000, &[0x77, 0x0])],
        tables: &[], n: 300,
        end: End::Offence { cycle: 18, access: Access { kind: Kind::Load, ea: 0x5000, why: Why::Page { kept: 0x5000, fresh: Fresh::Page(0x7000) } } },
        r7: 0x55, names: &[] },
    // RIC 1 reaches none: li r3,1; mtspr 48,r3; lis r3,1; mtspr 720,r3; mfmsr r8; ori r4,r8,16; li r5,0x5000; lis r9,3; ori r9,r9,0x202e; li r10,0x71; mtmsrd r4,0; ld r7,0(r5); mtmsrd r8,0; stb r10,0(r9); li r12,1; rldicr r12,r12,32,31; tlbie r5,r12,1,1,1; ptesync; mtmsrd r4,0; ld r7,0(r5); b .
    Row { parts: &[(0, &[0x3860_0001, 0x7c70_0ba6, 0x3c60_0001, 0x7c70_b3a6, 0x7d00_00a6, 0x6104_0010, 0x38a0_5000, 0x3d20_0003, 0x6129_202e, 0x3940_0071, 0x7c80_0164, 0xe8e5_0000, 0x7d00_0164, 0x9949_0000, 0x3980_0001, 0x798c_07c6, 0x7d87_2a64, 0x7c40_04ac, 0x7c80_0164, 0xe8e5_0000, 0x4800_0000]), (0x5000, &[0x55, 0x0]), (0x7000, &[0x77, 0x0])],
        tables: &[], n: 300,
        end: End::Offence { cycle: 19, access: Access { kind: Kind::Load, ea: 0x5000, why: Why::Page { kept: 0x5000, fresh: Fresh::Page(0x7000) } } },
        r7: 0x55, names: &[] },
    // another process: li r3,1; mtspr 48,r3; lis r3,1; mtspr 720,r3; mfmsr r8; ori r4,r8,16; li r5,0x5000; lis r9,3; ori r9,r9,0x202e; li r10,0x71; mtmsrd r4,0; ld r7,0(r5); mtmsrd r8,0; stb r10,0(r9); li r12,2; rldicr r12,r12,32,31; tlbie r5,r12,0,1,1; ptesync; mtmsrd r4,0; ld r7,0(r5); b .
    Row { parts: &[(0, &[0x3860_0001, 0x7c70_0ba6, 0x3c60_0001, 0x7c70_b3a6, 0x7d00_00a6, 0x6104_0010, 0x38a0_5000, 0x3d20_0003, 0x6129_202e, 0x3940_0071, 0x7c80_0164, 0xe8e5_0000, 0x7d00_0164, 0x9949_0000, 0x3980_0002, 0x798c_07c6, 0x7d83_2a64, 0x7c40_04ac, 0x7c80_0164, 0xe8e5_0000, 0x4800_0000]), (0x5000, &[0x55, 0x0]), (0x7000, &[0x77, 0x0])],
        tables: &[], n: 300,
        end: End::Offence { cycle: 19, access: Access { kind: Kind::Load, ea: 0x5000, why: Why::Page { kept: 0x5000, fresh: Fresh::Page(0x7000) } } },
        r7: 0x55, names: &[] },
    // ptesync alone: li r3,1; mtspr 48,r3; lis r3,1; mtspr 720,r3; mfmsr r8; ori r4,r8,16; li r5,0x5000; lis r9,3; ori r9,r9,0x202e; li r10,0x71; mtmsrd r4,0; ld r7,0(r5); mtmsrd r8,0; stb r10,0(r9); ptesync; mtmsrd r4,0; ld r7,0(r5); b .
    Row { parts: &[(0, &[0x3860_0001, 0x7c70_0ba6, 0x3c60_0001, 0x7c70_b3a6, 0x7d00_00a6, 0x6104_0010, 0x38a0_5000, 0x3d20_0003, 0x6129_202e, 0x3940_0071, 0x7c80_0164, 0xe8e5_0000, 0x7d00_0164, 0x9949_0000, 0x7c40_04ac, 0x7c80_0164, 0xe8e5_0000, 0x4800_0000]), (0x5000, &[0x55, 0x0]), (0x7000, &[0x77, 0x0])],
        tables: &[], n: 300,
        end: End::Offence { cycle: 16, access: Access { kind: Kind::Load, ea: 0x5000, why: Why::Page { kept: 0x5000, fresh: Fresh::Page(0x7000) } } },
        r7: 0x55, names: &[] },
    // no synchronizing event behind a tlbie of all: li r3,1; mtspr 48,r3; lis r3,1; mtspr 720,r3; mfmsr r8; ori r4,r8,16; li r5,0x5000; lis r9,3; ori r9,r9,0x202e; li r10,0x71; mtmsrd r4,0; ld r7,0(r5); mtmsrd r8,0; stb r10,0(r9); li r11,0xc00; tlbie r11,r11,0,1,1; sync 0; tlbsync; eieio; mtmsrd r4,0; ld r7,0(r5); b .
    Row { parts: &[(0, &[0x3860_0001, 0x7c70_0ba6, 0x3c60_0001, 0x7c70_b3a6, 0x7d00_00a6, 0x6104_0010, 0x38a0_5000, 0x3d20_0003, 0x6129_202e, 0x3940_0071, 0x7c80_0164, 0xe8e5_0000, 0x7d00_0164, 0x9949_0000, 0x3960_0c00, 0x7d63_5a64, 0x7c00_04ac, 0x7c00_046c, 0x7c00_06ac, 0x7c80_0164, 0xe8e5_0000, 0x4800_0000]), (0x5000, &[0x55, 0x0]), (0x7000, &[0x77, 0x0])],
        tables: &[], n: 300,
        end: End::Offence { cycle: 20, access: Access { kind: Kind::Load, ea: 0x5000, why: Why::Page { kept: 0x5000, fresh: Fresh::Page(0x7000) } } },
        r7: 0x55, names: &[] },
    // an isync is one: li r3,1; mtspr 48,r3; lis r3,1; mtspr 720,r3; mfmsr r8; ori r4,r8,16; li r5,0x5000; lis r9,3; ori r9,r9,0x202e; li r10,0x71; mtmsrd r4,0; ld r7,0(r5); mtmsrd r8,0; stb r10,0(r9); li r11,0xc00; tlbie r11,r11,0,1,1; isync; mtmsrd r4,0; ld r7,0(r5); b .
    Row { parts: &[(0, &[0x3860_0001, 0x7c70_0ba6, 0x3c60_0001, 0x7c70_b3a6, 0x7d00_00a6, 0x6104_0010, 0x38a0_5000, 0x3d20_0003, 0x6129_202e, 0x3940_0071, 0x7c80_0164, 0xe8e5_0000, 0x7d00_0164, 0x9949_0000, 0x3960_0c00, 0x7d63_5a64, 0x4c00_012c, 0x7c80_0164, 0xe8e5_0000, 0x4800_0000]), (0x5000, &[0x55, 0x0]), (0x7000, &[0x77, 0x0])],
        tables: &[], n: 300,
        end: End::Ran { cycle: 300 },
        r7: 0x77, names: &[] },
    // a trap is one: li r3,1; mtspr 48,r3; lis r3,1; mtspr 720,r3; mfmsr r8; ori r4,r8,16; li r5,0x5000; lis r9,3; ori r9,r9,0x202e; li r10,0x71; mtmsrd r4,0; ld r7,0(r5); mtmsrd r8,0; stb r10,0(r9); li r11,0xc00; tlbie r11,r11,0,1,1; sc; mtmsrd r4,0; ld r7,0(r5); b .; .org 0xc00; rfid
    Row { parts: &[(0, &[0x3860_0001, 0x7c70_0ba6, 0x3c60_0001, 0x7c70_b3a6, 0x7d00_00a6, 0x6104_0010, 0x38a0_5000, 0x3d20_0003, 0x6129_202e, 0x3940_0071, 0x7c80_0164, 0xe8e5_0000, 0x7d00_0164, 0x9949_0000, 0x3960_0c00, 0x7d63_5a64, 0x4400_0002, 0x7c80_0164, 0xe8e5_0000, 0x4800_0000]), (0xc00, &[0x4c00_0024]), (0x5000, &[0x55, 0x0]), (0x7000, &[0x77, 0x0])],
        tables: &[], n: 300,
        end: End::Ran { cycle: 300 },
        r7: 0x77, names: &[] },
    // tlbiel of a process: li r3,1; mtspr 48,r3; lis r3,1; mtspr 720,r3; mfmsr r8; ori r4,r8,16; li r5,0x5000; lis r9,3; ori r9,r9,0x202e; li r10,0x71; mtmsrd r4,0; ld r7,0(r5); mtmsrd r8,0; stb r10,0(r9); li r12,1; rldicr r12,r12,32,31; li r11,0x400; tlbiel r11,r12,0,1,1; ptesync; mtmsrd r4,0; ld r7,0(r5); b .
    Row { parts: &[(0, &[0x3860_0001, 0x7c70_0ba6, 0x3c60_0001, 0x7c70_b3a6, 0x7d00_00a6, 0x6104_0010, 0x38a0_5000, 0x3d20_0003, 0x6129_202e, 0x3940_0071, 0x7c80_0164, 0xe8e5_0000, 0x7d00_0164, 0x9949_0000, 0x3980_0001, 0x798c_07c6, 0x3960_0400, 0x7d83_5a24, 0x7c40_04ac, 0x7c80_0164, 0xe8e5_0000, 0x4800_0000]), (0x5000, &[0x55, 0x0]), (0x7000, &[0x77, 0x0])],
        tables: &[], n: 300,
        end: End::Ran { cycle: 300 },
        r7: 0x77, names: &[] },
    // 64 KiB around page 0: li r3,1; mtspr 48,r3; lis r3,1; mtspr 720,r3; mfmsr r8; ori r4,r8,16; li r5,0x5000; lis r9,3; ori r9,r9,0x202e; li r10,0x71; mtmsrd r4,0; ld r7,0(r5); mtmsrd r8,0; stb r10,0(r9); li r12,1; rldicr r12,r12,32,31; li r11,0xa0; tlbie r11,r12,0,1,1; ptesync; mtmsrd r4,0; ld r7,0(r5); b .
    Row { parts: &[(0, &[0x3860_0001, 0x7c70_0ba6, 0x3c60_0001, 0x7c70_b3a6, 0x7d00_00a6, 0x6104_0010, 0x38a0_5000, 0x3d20_0003, 0x6129_202e, 0x3940_0071, 0x7c80_0164, 0xe8e5_0000, 0x7d00_0164, 0x9949_0000, 0x3980_0001, 0x798c_07c6, 0x3960_00a0, 0x7d83_5a64, 0x7c40_04ac, 0x7c80_0164, 0xe8e5_0000, 0x4800_0000]), (0x5000, &[0x55, 0x0]), (0x7000, &[0x77, 0x0])],
        tables: &[], n: 300,
        end: End::Ran { cycle: 300 },
        r7: 0x77, names: &[] },
    // another page: li r3,1; mtspr 48,r3; lis r3,1; mtspr 720,r3; mfmsr r8; ori r4,r8,16; li r5,0x5000; lis r9,3; ori r9,r9,0x202e; li r10,0x71; mtmsrd r4,0; ld r7,0(r5); mtmsrd r8,0; stb r10,0(r9); li r12,1; rldicr r12,r12,32,31; li r11,0x6000; tlbie r11,r12,0,1,1; ptesync; mtmsrd r4,0; ld r7,0(r5); b .
    Row { parts: &[(0, &[0x3860_0001, 0x7c70_0ba6, 0x3c60_0001, 0x7c70_b3a6, 0x7d00_00a6, 0x6104_0010, 0x38a0_5000, 0x3d20_0003, 0x6129_202e, 0x3940_0071, 0x7c80_0164, 0xe8e5_0000, 0x7d00_0164, 0x9949_0000, 0x3980_0001, 0x798c_07c6, 0x3960_6000, 0x7d83_5a64, 0x7c40_04ac, 0x7c80_0164, 0xe8e5_0000, 0x4800_0000]), (0x5000, &[0x55, 0x0]), (0x7000, &[0x77, 0x0])],
        tables: &[], n: 300,
        end: End::Offence { cycle: 20, access: Access { kind: Kind::Load, ea: 0x5000, why: Why::Page { kept: 0x5000, fresh: Fresh::Page(0x7000) } } },
        r7: 0x55, names: &[] },
    // a write of PRTBL, of the same value: li r3,1; mtspr 48,r3; lis r3,1; mtspr 720,r3; mfmsr r8; ori r4,r8,16; li r5,0x5000; lis r9,3; ori r9,r9,0x202e; li r10,0x71; mtmsrd r4,0; ld r7,0(r5); mtmsrd r8,0; stb r10,0(r9); lis r3,1; mtspr 720,r3; mtmsrd r4,0; ld r7,0(r5); b .
    Row { parts: &[(0, &[0x3860_0001, 0x7c70_0ba6, 0x3c60_0001, 0x7c70_b3a6, 0x7d00_00a6, 0x6104_0010, 0x38a0_5000, 0x3d20_0003, 0x6129_202e, 0x3940_0071, 0x7c80_0164, 0xe8e5_0000, 0x7d00_0164, 0x9949_0000, 0x3c60_0001, 0x7c70_b3a6, 0x7c80_0164, 0xe8e5_0000, 0x4800_0000]), (0x5000, &[0x55, 0x0]), (0x7000, &[0x77, 0x0])],
        tables: &[], n: 300,
        end: End::Ran { cycle: 300 },
        r7: 0x77, names: &[] },
    // the tree of another process: li r3,1; mtspr 48,r3; lis r3,1; mtspr 720,r3; mfmsr r8; ori r4,r8,16; li r5,0x5000; lis r9,3; ori r9,r9,0x202e; li r10,0x71; mtmsrd r4,0; ld r7,0(r5); mtmsrd r8,0; stb r10,0(r9); li r3,2; mtspr 48,r3; mtmsrd r4,0; ld r7,0(r5); b .
    Row { parts: &[(0, &[0x3860_0001, 0x7c70_0ba6, 0x3c60_0001, 0x7c70_b3a6, 0x7d00_00a6, 0x6104_0010, 0x38a0_5000, 0x3d20_0003, 0x6129_202e, 0x3940_0071, 0x7c80_0164, 0xe8e5_0000, 0x7d00_0164, 0x9949_0000, 0x3860_0002, 0x7c70_0ba6, 0x7c80_0164, 0xe8e5_0000, 0x4800_0000]), (0x5000, &[0x55, 0x0]), (0x7000, &[0x77, 0x0])],
        tables: &[(0x1_0020, 0x4000_0000_0002_00ad)], n: 300,
        end: End::Ran { cycle: 300 },
        r7: 0x77, names: &[] },
    // a store to a stale page: li r3,1; mtspr 48,r3; lis r3,1; mtspr 720,r3; mfmsr r8; ori r4,r8,16; li r5,0x5000; lis r9,3; ori r9,r9,0x202e; li r10,0x71; mtmsrd r4,0; ld r7,0(r5); mtmsrd r8,0; stb r10,0(r9); mtmsrd r4,0; std r7,0(r5); b .
    Row { parts: &[(0, &[0x3860_0001, 0x7c70_0ba6, 0x3c60_0001, 0x7c70_b3a6, 0x7d00_00a6, 0x6104_0010, 0x38a0_5000, 0x3d20_0003, 0x6129_202e, 0x3940_0071, 0x7c80_0164, 0xe8e5_0000, 0x7d00_0164, 0x9949_0000, 0x7c80_0164, 0xf8e5_0000, 0x4800_0000]), (0x5000, &[0x55, 0x0]), (0x7000, &[0x77, 0x0])],
        tables: &[], n: 300,
        end: End::Offence { cycle: 15, access: Access { kind: Kind::Store, ea: 0x5000, why: Why::Page { kept: 0x5000, fresh: Fresh::Page(0x7000) } } },
        r7: 0x55, names: &[] },
    // a page that isn't referenced any more: li r3,1; mtspr 48,r3; lis r3,1; mtspr 720,r3; mfmsr r8; ori r4,r8,16; li r5,0x5000; lis r9,3; ori r9,r9,0x202f; li r10,0x80; mtmsrd r4,0; ld r7,0(r5); mtmsrd r8,0; stb r10,0(r9); mtmsrd r4,0; ld r7,0(r5); b .
    Row { parts: &[(0, &[0x3860_0001, 0x7c70_0ba6, 0x3c60_0001, 0x7c70_b3a6, 0x7d00_00a6, 0x6104_0010, 0x38a0_5000, 0x3d20_0003, 0x6129_202f, 0x3940_0080, 0x7c80_0164, 0xe8e5_0000, 0x7d00_0164, 0x9949_0000, 0x7c80_0164, 0xe8e5_0000, 0x4800_0000]), (0x5000, &[0x55, 0x0]), (0x7000, &[0x77, 0x0])],
        tables: &[], n: 300,
        end: End::Offence { cycle: 15, access: Access { kind: Kind::Load, ea: 0x5000, why: Why::Page { kept: 0x5000, fresh: Fresh::Fault(Vector::DataStorage) } } },
        r7: 0x55, names: &[] },
    // a page that isn't there any more: li r3,1; mtspr 48,r3; lis r3,1; mtspr 720,r3; mfmsr r8; ori r4,r8,16; li r5,0x5000; lis r9,3; ori r9,r9,0x2028; li r10,0; mtmsrd r4,0; ld r7,0(r5); mtmsrd r8,0; stb r10,0(r9); mtmsrd r4,0; ld r7,0(r5); b .
    Row { parts: &[(0, &[0x3860_0001, 0x7c70_0ba6, 0x3c60_0001, 0x7c70_b3a6, 0x7d00_00a6, 0x6104_0010, 0x38a0_5000, 0x3d20_0003, 0x6129_2028, 0x3940_0000, 0x7c80_0164, 0xe8e5_0000, 0x7d00_0164, 0x9949_0000, 0x7c80_0164, 0xe8e5_0000, 0x4800_0000]), (0x5000, &[0x55, 0x0]), (0x7000, &[0x77, 0x0])],
        tables: &[], n: 300,
        end: End::Offence { cycle: 15, access: Access { kind: Kind::Load, ea: 0x5000, why: Why::Page { kept: 0x5000, fresh: Fresh::Fault(Vector::DataStorage) } } },
        r7: 0x55, names: &[] },
    // used again before the ptesync, and so no longer leaving: li r3,1; mtspr 48,r3; lis r3,1; mtspr 720,r3; mfmsr r8; ori r4,r8,16; li r5,0x5000; lis r9,3; ori r9,r9,0x202e; li r10,0x71; mtmsrd r4,0; ld r7,0(r5); mtmsrd r8,0; li r12,1; rldicr r12,r12,32,31; tlbie r5,r12,0,1,1; mtmsrd r4,0; ld r7,0(r5); mtmsrd r8,0; ptesync; stb r10,0(r9); mtmsrd r4,0; ld r7,0(r5); b .
    Row { parts: &[(0, &[0x3860_0001, 0x7c70_0ba6, 0x3c60_0001, 0x7c70_b3a6, 0x7d00_00a6, 0x6104_0010, 0x38a0_5000, 0x3d20_0003, 0x6129_202e, 0x3940_0071, 0x7c80_0164, 0xe8e5_0000, 0x7d00_0164, 0x3980_0001, 0x798c_07c6, 0x7d83_2a64, 0x7c80_0164, 0xe8e5_0000, 0x7d00_0164, 0x7c40_04ac, 0x9949_0000, 0x7c80_0164, 0xe8e5_0000, 0x4800_0000]), (0x5000, &[0x55, 0x0]), (0x7000, &[0x77, 0x0])],
        tables: &[], n: 300,
        end: End::Offence { cycle: 22, access: Access { kind: Kind::Load, ea: 0x5000, why: Why::Page { kept: 0x5000, fresh: Fresh::Page(0x7000) } } },
        r7: 0x55, names: &[] },
    // changed between the two: li r3,1; mtspr 48,r3; lis r3,1; mtspr 720,r3; mfmsr r8; ori r4,r8,16; li r5,0x5000; lis r9,3; ori r9,r9,0x202e; li r10,0x71; mtmsrd r4,0; ld r7,0(r5); mtmsrd r8,0; li r12,1; rldicr r12,r12,32,31; tlbie r5,r12,0,1,1; stb r10,0(r9); ptesync; mtmsrd r4,0; ld r7,0(r5); b .
    Row { parts: &[(0, &[0x3860_0001, 0x7c70_0ba6, 0x3c60_0001, 0x7c70_b3a6, 0x7d00_00a6, 0x6104_0010, 0x38a0_5000, 0x3d20_0003, 0x6129_202e, 0x3940_0071, 0x7c80_0164, 0xe8e5_0000, 0x7d00_0164, 0x3980_0001, 0x798c_07c6, 0x7d83_2a64, 0x9949_0000, 0x7c40_04ac, 0x7c80_0164, 0xe8e5_0000, 0x4800_0000]), (0x5000, &[0x55, 0x0]), (0x7000, &[0x77, 0x0])],
        tables: &[], n: 300,
        end: End::Ran { cycle: 300 },
        r7: 0x77, names: &[] },
    // two are kept, and the least is shown: li r3,1; mtspr 48,r3; lis r3,1; mtspr 720,r3; mfmsr r8; ori r4,r8,16; li r5,0x5000; lis r9,3; ori r9,r9,0x202e; li r10,0x51; li r11,0x86; li r12,0x91; mtmsrd r4,0; ld r7,0(r5); mtmsrd r8,0; stb r10,0(r9); stb r11,1(r9); mtmsrd r4,0; std r7,0(r5); mtmsrd r8,0; stb r12,0(r9); mtmsrd r4,0; ld r7,0(r5); b .
    Row { parts: &[(0, &[0x3860_0001, 0x7c70_0ba6, 0x3c60_0001, 0x7c70_b3a6, 0x7d00_00a6, 0x6104_0010, 0x38a0_5000, 0x3d20_0003, 0x6129_202e, 0x3940_0051, 0x3960_0086, 0x3980_0091, 0x7c80_0164, 0xe8e5_0000, 0x7d00_0164, 0x9949_0000, 0x9969_0001, 0x7c80_0164, 0xf8e5_0000, 0x7d00_0164, 0x9989_0000, 0x7c80_0164, 0xe8e5_0000, 0x4800_0000]), (0x5000, &[0x55, 0x0]), (0x7000, &[0x77, 0x0])],
        tables: &[(0x3_2028, 0xc000_0000_0000_7184)], n: 300,
        end: End::Offence { cycle: 22, access: Access { kind: Kind::Load, ea: 0x5000, why: Why::Page { kept: 0x5000, fresh: Fresh::Page(0x9000) } } },
        r7: 0x77, names: &[] },
    // a right that was added: li r3,1; mtspr 48,r3; lis r3,1; mtspr 720,r3; mfmsr r8; ori r4,r8,16; li r5,0x5000; lis r9,3; ori r9,r9,0x202f; li r10,0x86; mtmsrd r4,0; ld r7,0(r5); mtmsrd r8,0; stb r10,0(r9); mtmsrd r4,0; std r5,0(r5); ld r7,0(r5); b .
    Row { parts: &[(0, &[0x3860_0001, 0x7c70_0ba6, 0x3c60_0001, 0x7c70_b3a6, 0x7d00_00a6, 0x6104_0010, 0x38a0_5000, 0x3d20_0003, 0x6129_202f, 0x3940_0086, 0x7c80_0164, 0xe8e5_0000, 0x7d00_0164, 0x9949_0000, 0x7c80_0164, 0xf8a5_0000, 0xe8e5_0000, 0x4800_0000]), (0x5000, &[0x55, 0x0]), (0x7000, &[0x77, 0x0])],
        tables: &[(0x3_2028, 0xc000_0000_0000_5184)], n: 300,
        end: End::Ran { cycle: 300 },
        r7: 0x5000, names: &[] },
    // code whose page comes to stand elsewhere, made known: li r3,1; mtspr 48,r3; lis r3,1; mtspr 720,r3; mfmsr r8; ori r4,r8,32; lis r9,3; ori r9,r9,0x202e; li r10,0x71; mtmsrd r4,0; bl 0x5000; mtmsrd r8,0; stb r10,0(r9); li r5,0x5000; li r12,1; rldicr r12,r12,32,31; tlbie r5,r12,0,1,1; ptesync; mtmsrd r4,0; bl 0x5000; b .; .org 0x5000; li r7,1; blr; .org 0x7000; li r7,2; blr
    Row { parts: &[(0, &[0x3860_0001, 0x7c70_0ba6, 0x3c60_0001, 0x7c70_b3a6, 0x7d00_00a6, 0x6104_0020, 0x3d20_0003, 0x6129_202e, 0x3940_0071, 0x7c80_0164, 0x4800_4fd9, 0x7d00_0164, 0x9949_0000, 0x38a0_5000, 0x3980_0001, 0x798c_07c6, 0x7d83_2a64, 0x7c40_04ac, 0x7c80_0164, 0x4800_4fb5, 0x4800_0000]), (0x5000, &[0x38e0_0001, 0x4e80_0020]), (0x7000, &[0x38e0_0002, 0x4e80_0020])],
        tables: &[(0x3_2028, 0xc000_0000_0000_5187)], n: 300,
        end: End::Ran { cycle: 300 },
        r7: 0x2, names: &[] },
    // the same without tlbie and ptesync: li r3,1; mtspr 48,r3; lis r3,1; mtspr 720,r3; mfmsr r8; ori r4,r8,32; lis r9,3; ori r9,r9,0x202e; li r10,0x71; mtmsrd r4,0; bl 0x5000; mtmsrd r8,0; stb r10,0(r9); li r5,0x5000; li r12,1; rldicr r12,r12,32,31; mtmsrd r4,0; bl 0x5000; b .; .org 0x5000; li r7,1; blr; .org 0x7000; li r7,2; blr
    Row { parts: &[(0, &[0x3860_0001, 0x7c70_0ba6, 0x3c60_0001, 0x7c70_b3a6, 0x7d00_00a6, 0x6104_0020, 0x3d20_0003, 0x6129_202e, 0x3940_0071, 0x7c80_0164, 0x4800_4fd9, 0x7d00_0164, 0x9949_0000, 0x38a0_5000, 0x3980_0001, 0x798c_07c6, 0x7c80_0164, 0x4800_4fbd, 0x4800_0000]), (0x5000, &[0x38e0_0001, 0x4e80_0020]), (0x7000, &[0x38e0_0002, 0x4e80_0020])],
        tables: &[(0x3_2028, 0xc000_0000_0000_5187)], n: 200000,
        end: End::Offence { cycle: 20, access: Access { kind: Kind::Fetch, ea: 0x5000, why: Why::Page { kept: 0x5000, fresh: Fresh::Page(0x7000) } } },
        r7: 0x1, names: &[] },
];

#[test]
fn changed_translations_stop_a_run(rt: HostRuntime) -> Result<(), Fail> {
    let alloc = rt.alloc();
    for row in WORKED.as_slice() {
        assert!(rt; row.n <= 200000);
        let shown = row.parts;
        let ram = ram_of(alloc, row.parts, row.tables)?;
        match simulate(alloc, ram.slice(0, 0x4_0000), &Script::new(alloc), row.n) {
            Ok(run) => {
                assert_eq!(rt; run.end, row.end, "{shown:?}");
                leaves(&rt, &run, &[(7, row.r7)], row.names, &shown)?;
            }
            Err(fault) => panic!(rt; "{fault:?} at {shown:?}"),
        }
    }
    Ok(())
}
