use crate::left::Name::{Cia, Dec, Msr, Sprg3, Srr0, Srr1, Traps, Xer};
use crate::left::{Name, leaves};
use mw_board::simulate;
use mw_isa::End;
use mw_uart::Script;
use std::alloc::{AllocError as NoMemory, Global};
use std::test::Fail;

/// The words of an image with their addresses, a number of cycles, and the general purpose registers and others with their
/// contents behind them.
struct Row(
    &'static [(usize, &'static [u32])],
    u64,
    &'static [(usize, u64)],
    &'static [(Name, u64)],
);

#[rattlefmt::skip]
static ROWS: [Row; 14] = [
    // sc; .org 0xc00; mfspr r3,26; b .
    Row(&[(0, &[0x4400_0002]), (0xc00, &[0x7c7a_02a6, 0x4800_0000])], 9, &[(3, 4)], &[(Srr0, 4), (Srr1, 0x9000_0000_0000_1001), (Cia, 0xc04), (Traps, 1)]),
    // mfspr r3,4; .org 0x700; b .
    Row(&[(0, &[0x7c64_02a6]), (0x700, &[0x4800_0000])], 9, &[(3, 0)], &[(Srr0, 0), (Srr1, 0x9000_0000_0008_1001), (Cia, 0x700), (Traps, 1)]),
    // mtspr 0,r3; .org 0x700; b .
    Row(&[(0, &[0x7c60_03a6]), (0x700, &[0x4800_0000])], 9, &[(3, 0)], &[(Srr0, 0), (Srr1, 0x9000_0000_0008_1001), (Cia, 0x700), (Traps, 1)]),
    // li r3,7; mfspr r3,1000; mtspr 1000,r3; mfspr r3,811; mtspr 811,r3; mtspr 259,r3; mtspr 268,r3; mtspr 287,r3; mfspr r3,284; mfspr r3,285; mtspr 285,r3; mfspr r3,784; mtspr 4,r3; mfspr r3,5; b .; .org 0x700; b .
    Row(&[(0, &[0x3860_0007, 0x7c68_faa6, 0x7c68_fba6, 0x7c6b_caa6, 0x7c6b_cba6, 0x7c63_43a6, 0x7c6c_43a6, 0x7c7f_43a6, 0x7c7c_42a6, 0x7c7d_42a6, 0x7c7d_43a6, 0x7c70_c2a6, 0x7c64_03a6, 0x7c65_02a6, 0x4800_0000]), (0x700, &[0x4800_0000])], 14, &[(3, 7)], &[(Sprg3, 0), (Srr0, 0x34), (Srr1, 0x9000_0000_0008_1001), (Cia, 0x700), (Traps, 1)]),
    // li r3,-1; mtspr 1,r3; mtspr 18,r3; mtspr 48,r3; mtspr 22,r3; mfspr r4,22; mfspr r5,22; mfspr r6,1; mfspr r7,287; mfspr r8,268; mftb r9,268; mftb r10,269; mtspr 275,r8; mfspr r11,259; mfspr r15,18; mfspr r16,48; b .
    Row(&[(0, &[0x3860_ffff, 0x7c61_03a6, 0x7c72_03a6, 0x7c70_0ba6, 0x7c76_03a6, 0x7c96_02a6, 0x7cb6_02a6, 0x7cc1_02a6, 0x7cff_42a6, 0x7d0c_42a6, 0x7d2c_42e6, 0x7d4d_42e6, 0x7d13_43a6, 0x7d63_42a6, 0x7df2_02a6, 0x7e10_0aa6, 0x4800_0000])], 17, &[(4, 0xffff_ffff_ffff_fffe), (5, 0xffff_ffff_ffff_fffd), (6, 0xe00c_0000), (7, 0x63_0101), (8, 9), (9, 0xa), (10, 0), (11, 9), (15, 0xffff_ffff), (16, 0xffff_ffff)], &[(Xer, 0xe00c_0000), (Traps, 0)]),
    // li r3,3; mtspr 22,r3; mfspr r4,22; mfspr r5,22; mfspr r6,22; mfspr r7,22; b .
    Row(&[(0, &[0x3860_0003, 0x7c76_03a6, 0x7c96_02a6, 0x7cb6_02a6, 0x7cd6_02a6, 0x7cf6_02a6, 0x4800_0000])], 7, &[(4, 2), (5, 1), (6, 0), (7, 0xffff_ffff_ffff_ffff)], &[(Dec, 0xffff_fffd), (Traps, 0)]),
    // li r3,0x43; mtspr 26,r3; li r4,2; mtspr 27,r4; rfid; .org 0x40; mfmsr r5; li r6,0; mtmsrd r6,1; mfmsr r7; mtmsr r4,0; mfmsr r8; darn r9,1; sync 2; isync; b .
    Row(&[(0, &[0x3860_0043, 0x7c7a_03a6, 0x3880_0002, 0x7c9b_03a6, 0x4c00_0024]), (0x40, &[0x7ca0_00a6, 0x38c0_0000, 0x7cc1_0164, 0x7ce0_00a6, 0x7c80_0124, 0x7d00_00a6, 0x7d21_05e6, 0x7c40_04ac, 0x4c00_012c, 0x4800_0000])], 16, &[(5, 0x9000_0000_0000_1003), (7, 0x9000_0000_0000_1001), (8, 0x9000_0000_0000_1003), (9, 0xffff_ffff_ffff_ffff)], &[(Srr0, 0x43), (Msr, 0x9000_0000_0000_1003), (Cia, 0x64), (Traps, 0)]),
    // li r3,2; mtmsrd r3,1; sc; b .; .org 0xc00; mfmsr r4; mfspr r5,27; rfid
    Row(&[(0, &[0x3860_0002, 0x7c61_0164, 0x4400_0002, 0x4800_0000]), (0xc00, &[0x7c80_00a6, 0x7cbb_02a6, 0x4c00_0024])], 7, &[(4, 0x9000_0000_0000_1001), (5, 0x9000_0000_0000_1003)], &[(Msr, 0x9000_0000_0000_1003), (Cia, 0xc), (Traps, 1)]),
    // li r3,0x43; mtspr 314,r3; li r4,0; mtspr 315,r4; hrfid; .org 0x40; b .
    Row(&[(0, &[0x3860_0043, 0x7c7a_4ba6, 0x3880_0000, 0x7c9b_4ba6, 0x4c00_0224]), (0x40, &[0x4800_0000])], 6, &[], &[(Srr0, 0), (Msr, 0x9000_0000_0000_1001), (Cia, 0x40), (Traps, 0)]),
    // eieio; tlbsync; tlbie r3,r4,0,0,0; tlbiel r3,r4,1,0,0; b .
    Row(&[(0, &[0x7c00_06ac, 0x7c00_046c, 0x7c80_1a64, 0x7c84_1a24, 0x4800_0000])], 9, &[], &[(Msr, 0x9000_0000_0000_1001), (Cia, 0x10), (Traps, 0)]),
    // data in quadrant 2: li r6,1; rldicr r6,r6,63,0; li r4,0x10; mtmsrd r4,0; mfmsr r5; ld r7,0(r6); .org 0x380; b .
    Row(&[(0, &[0x38c0_0001, 0x78c6_f806, 0x3880_0010, 0x7c80_0164, 0x7ca0_00a6, 0xe8e6_0000]), (0x380, &[0x4800_0000])], 9, &[(5, 0x9000_0000_0000_1011), (7, 0)], &[(Srr0, 0x14), (Srr1, 0x9000_0000_0000_1011), (Msr, 0x9000_0000_0000_1001), (Cia, 0x380), (Traps, 1)]),
    // li r6,1; rldicr r6,r6,63,0; li r4,0x10; mtmsr r4,0; mfmsr r5; ld r7,0(r6); .org 0x380; b .
    Row(&[(0, &[0x38c0_0001, 0x78c6_f806, 0x3880_0010, 0x7c80_0124, 0x7ca0_00a6, 0xe8e6_0000]), (0x380, &[0x4800_0000])], 9, &[(5, 0x9000_0000_0000_1011), (7, 0)], &[(Srr0, 0x14), (Srr1, 0x9000_0000_0000_1011), (Msr, 0x9000_0000_0000_1001), (Cia, 0x380), (Traps, 1)]),
    // li r6,1; rldicr r6,r6,63,0; li r4,0x10; mtspr 27,r4; li r3,0x40; mtspr 26,r3; rfid; .org 0x40; mfmsr r5; ld r7,0(r6); .org 0x380; b .
    Row(&[(0, &[0x38c0_0001, 0x78c6_f806, 0x3880_0010, 0x7c9b_03a6, 0x3860_0040, 0x7c7a_03a6, 0x4c00_0024]), (0x40, &[0x7ca0_00a6, 0xe8e6_0000]), (0x380, &[0x4800_0000])], 12, &[(5, 0x9000_0000_0000_1011), (7, 0)], &[(Srr0, 0x44), (Srr1, 0x9000_0000_0000_1011), (Msr, 0x9000_0000_0000_1001), (Cia, 0x380), (Traps, 1)]),
    // li r6,1; rldicr r6,r6,63,0; li r4,0x10; mtspr 315,r4; li r3,0x40; mtspr 314,r3; hrfid; .org 0x40; mfmsr r5; ld r7,0(r6); .org 0x380; b .
    Row(&[(0, &[0x38c0_0001, 0x78c6_f806, 0x3880_0010, 0x7c9b_4ba6, 0x3860_0040, 0x7c7a_4ba6, 0x4c00_0224]), (0x40, &[0x7ca0_00a6, 0xe8e6_0000]), (0x380, &[0x4800_0000])], 12, &[(5, 0x9000_0000_0000_1011), (7, 0)], &[(Srr0, 0x44), (Srr1, 0x9000_0000_0000_1011), (Msr, 0x9000_0000_0000_1001), (Cia, 0x380), (Traps, 1)]),
];

/// The bytes of words at rising addresses, in little-endian order, and zeros between them.
pub fn image_of(alloc: Global, parts: &[(usize, &[u32])]) -> Result<Vec<u8>, NoMemory> {
    let mut image = Vec::new(alloc);
    for (address, words) in parts {
        image.resize(*address, 0)?;
        for word in *words {
            image.extend_from_slice(&word.to_le_bytes())?;
        }
    }
    Ok(image)
}

#[test]
fn rows_of_the_system_leave_what_they_should(rt: HostRuntime) -> Result<(), Fail> {
    let alloc = rt.alloc();
    for Row(parts, n, contents, names) in &ROWS {
        assert!(rt; *n <= 20);
        let image = image_of(alloc, *parts)?;
        match simulate(alloc, image.as_slice(), &Script::new(alloc), *n) {
            Ok(run) => {
                assert_eq!(rt; run.end, End::Ran { cycle: *n }, "{parts:?}");
                leaves(&rt, &run, contents, names, parts)?;
            }
            Err(fault) => panic!(rt; "{fault:?} at {parts:?}"),
        }
    }
    Ok(())
}
