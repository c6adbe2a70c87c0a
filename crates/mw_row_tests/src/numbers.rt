use crate::left::traps_in;
use crate::numbers::Register::{
    Ctr, Dar, Dec, Dsisr, Hsprg0, Hsprg1, Hsrr0, Hsrr1, Lr, Pidr, Prtbl, Sprg0, Sprg1, Sprg2,
    Sprg3, Srr0, Srr1, Tar, Xer,
};
use mw_board::{Run, simulate};
use mw_isa::End;
use mw_uart::Script;
use std::alloc::{AllocError as NoMemory, Global};
use std::test::Fail;

/// A register of which a number can be, or where an interrupt is seen.
#[derive(Clone, Copy, Debug, PartialEq, Eq)]
enum Register {
    Xer,
    Lr,
    Ctr,
    Dsisr,
    Dar,
    Dec,
    Srr0,
    Srr1,
    Pidr,
    Sprg0,
    Sprg1,
    Sprg2,
    Sprg3,
    Hsprg0,
    Hsprg1,
    Hsrr0,
    Hsrr1,
    Prtbl,
    Tar,
}

/// All registers that are looked at.
#[rattlefmt::skip]
static REGISTERS: [Register; 19] = [
    Xer, Lr, Ctr, Dsisr, Dar, Dec, Srr0, Srr1, Pidr, Sprg0, Sprg1, Sprg2, Sprg3, Hsprg0, Hsprg1, Hsrr0, Hsrr1, Prtbl, Tar,
];

/// Three words that read a number, write it and read it again; what r4 and r5 hold behind the reads, 7 where the reads
/// leave them; how many of the three trap; and the register that was written, with what it holds at the end.
struct Number([u32; 3], [u64; 2], u64, Option<(Register, u64)>);

/// Each number that stands for a register and its neighbours, with PR=0. What is written is 0x9234_5678_9ABC_DEF0. The
/// first read is made at cycle 2, the write at cycle 3 and the second read at cycle 5; the run ends at cycle 30.
#[rattlefmt::skip]
static NUMBERS: [Number; 79] = [
    // what is read and written, and their neighbours, which aren't there
    Number([0x7c80_02a6, 0x7c60_03a6, 0x7ca0_02a6], [7, 7], 3, None), // mfspr r4,0; mtspr 0,r3; mfspr r5,0
    Number([0x7c81_02a6, 0x7c61_03a6, 0x7ca1_02a6], [0, 0x800c_0000], 0, Some((Xer, 0x800c_0000))), // mfspr r4,1; mtspr 1,r3; mfspr r5,1
    Number([0x7c82_02a6, 0x7c62_03a6, 0x7ca2_02a6], [7, 7], 0, None), // mfspr r4,2; mtspr 2,r3; mfspr r5,2
    Number([0x7c83_02a6, 0x7c63_03a6, 0x7ca3_02a6], [7, 7], 0, None), // mfspr r4,3; mtspr 3,r3; mfspr r5,3
    Number([0x7c84_02a6, 0x7c64_03a6, 0x7ca4_02a6], [7, 7], 2, None), // mfspr r4,4; mtspr 4,r3; mfspr r5,4
    Number([0x7c85_02a6, 0x7c65_03a6, 0x7ca5_02a6], [7, 7], 2, None), // mfspr r4,5; mtspr 5,r3; mfspr r5,5
    Number([0x7c86_02a6, 0x7c66_03a6, 0x7ca6_02a6], [7, 7], 2, None), // mfspr r4,6; mtspr 6,r3; mfspr r5,6
    Number([0x7c87_02a6, 0x7c67_03a6, 0x7ca7_02a6], [7, 7], 0, None), // mfspr r4,7; mtspr 7,r3; mfspr r5,7
    Number([0x7c88_02a6, 0x7c68_03a6, 0x7ca8_02a6], [0, 0x9234_5678_9abc_def0], 0, Some((Lr, 0x9234_5678_9abc_def0))), // mfspr r4,8; mtspr 8,r3; mfspr r5,8
    Number([0x7c89_02a6, 0x7c69_03a6, 0x7ca9_02a6], [0, 0x9234_5678_9abc_def0], 0, Some((Ctr, 0x9234_5678_9abc_def0))), // mfspr r4,9; mtspr 9,r3; mfspr r5,9
    Number([0x7c8a_02a6, 0x7c6a_03a6, 0x7caa_02a6], [7, 7], 0, None), // mfspr r4,10; mtspr 10,r3; mfspr r5,10
    Number([0x7c90_02a6, 0x7c70_03a6, 0x7cb0_02a6], [7, 7], 0, None), // mfspr r4,16; mtspr 16,r3; mfspr r5,16
    Number([0x7c91_02a6, 0x7c71_03a6, 0x7cb1_02a6], [7, 7], 0, None), // mfspr r4,17; mtspr 17,r3; mfspr r5,17
    Number([0x7c92_02a6, 0x7c72_03a6, 0x7cb2_02a6], [0, 0x9abc_def0], 0, Some((Dsisr, 0x9abc_def0))), // mfspr r4,18; mtspr 18,r3; mfspr r5,18
    Number([0x7c93_02a6, 0x7c73_03a6, 0x7cb3_02a6], [0, 0x9234_5678_9abc_def0], 0, Some((Dar, 0x9234_5678_9abc_def0))), // mfspr r4,19; mtspr 19,r3; mfspr r5,19
    Number([0x7c94_02a6, 0x7c74_03a6, 0x7cb4_02a6], [7, 7], 0, None), // mfspr r4,20; mtspr 20,r3; mfspr r5,20
    Number([0x7c95_02a6, 0x7c75_03a6, 0x7cb5_02a6], [7, 7], 0, None), // mfspr r4,21; mtspr 21,r3; mfspr r5,21
    Number([0x7c96_02a6, 0x7c76_03a6, 0x7cb6_02a6], [0x7fff_fffd, 0xffff_ffff_9abc_deee], 0, Some((Dec, 0x9abc_ded5))), // mfspr r4,22; mtspr 22,r3; mfspr r5,22
    Number([0x7c97_02a6, 0x7c77_03a6, 0x7cb7_02a6], [7, 7], 0, None), // mfspr r4,23; mtspr 23,r3; mfspr r5,23
    Number([0x7c99_02a6, 0x7c79_03a6, 0x7cb9_02a6], [7, 7], 0, None), // mfspr r4,25; mtspr 25,r3; mfspr r5,25
    Number([0x7c9a_02a6, 0x7c7a_03a6, 0x7cba_02a6], [0, 0x9234_5678_9abc_def0], 0, Some((Srr0, 0x9234_5678_9abc_def0))), // mfspr r4,26; mtspr 26,r3; mfspr r5,26
    Number([0x7c9b_02a6, 0x7c7b_03a6, 0x7cbb_02a6], [0, 0x9234_5678_9abc_def0], 0, Some((Srr1, 0x9234_5678_9abc_def0))), // mfspr r4,27; mtspr 27,r3; mfspr r5,27
    Number([0x7c9c_02a6, 0x7c7c_03a6, 0x7cbc_02a6], [7, 7], 0, None), // mfspr r4,28; mtspr 28,r3; mfspr r5,28
    Number([0x7c8f_0aa6, 0x7c6f_0ba6, 0x7caf_0aa6], [7, 7], 0, None), // mfspr r4,47; mtspr 47,r3; mfspr r5,47
    Number([0x7c90_0aa6, 0x7c70_0ba6, 0x7cb0_0aa6], [0, 0x9abc_def0], 0, Some((Pidr, 0x9abc_def0))), // mfspr r4,48; mtspr 48,r3; mfspr r5,48
    Number([0x7c91_0aa6, 0x7c71_0ba6, 0x7cb1_0aa6], [7, 7], 0, None), // mfspr r4,49; mtspr 49,r3; mfspr r5,49
    Number([0x7c82_42a6, 0x7c62_43a6, 0x7ca2_42a6], [7, 7], 0, None), // mfspr r4,258; mtspr 258,r3; mfspr r5,258
    Number([0x7c83_42a6, 0x7c63_43a6, 0x7ca3_42a6], [0, 0], 0, None), // mfspr r4,259; mtspr 259,r3; mfspr r5,259
    Number([0x7c83_42a6, 0x7c73_43a6, 0x7ca3_42a6], [0, 0x9234_5678_9abc_def0], 0, Some((Sprg3, 0x9234_5678_9abc_def0))), // mfspr r4,259; mtspr 275,r3; mfspr r5,259
    Number([0x7c84_42a6, 0x7c64_43a6, 0x7ca4_42a6], [7, 7], 0, None), // mfspr r4,260; mtspr 260,r3; mfspr r5,260
    Number([0x7c8b_42a6, 0x7c6b_43a6, 0x7cab_42a6], [7, 7], 0, None), // mfspr r4,267; mtspr 267,r3; mfspr r5,267
    Number([0x7c8c_42a6, 0x7c6c_43a6, 0x7cac_42a6], [2, 5], 0, None), // mfspr r4,268; mtspr 268,r3; mfspr r5,268
    Number([0x7c8d_42a6, 0x7c6d_43a6, 0x7cad_42a6], [0, 0], 0, None), // mfspr r4,269; mtspr 269,r3; mfspr r5,269
    Number([0x7c8e_42a6, 0x7c6e_43a6, 0x7cae_42a6], [7, 7], 0, None), // mfspr r4,270; mtspr 270,r3; mfspr r5,270
    Number([0x7c8f_42a6, 0x7c6f_43a6, 0x7caf_42a6], [7, 7], 0, None), // mfspr r4,271; mtspr 271,r3; mfspr r5,271
    Number([0x7c90_42a6, 0x7c70_43a6, 0x7cb0_42a6], [0, 0x9234_5678_9abc_def0], 0, Some((Sprg0, 0x9234_5678_9abc_def0))), // mfspr r4,272; mtspr 272,r3; mfspr r5,272
    Number([0x7c91_42a6, 0x7c71_43a6, 0x7cb1_42a6], [0, 0x9234_5678_9abc_def0], 0, Some((Sprg1, 0x9234_5678_9abc_def0))), // mfspr r4,273; mtspr 273,r3; mfspr r5,273
    Number([0x7c92_42a6, 0x7c72_43a6, 0x7cb2_42a6], [0, 0x9234_5678_9abc_def0], 0, Some((Sprg2, 0x9234_5678_9abc_def0))), // mfspr r4,274; mtspr 274,r3; mfspr r5,274
    Number([0x7c93_42a6, 0x7c73_43a6, 0x7cb3_42a6], [0, 0x9234_5678_9abc_def0], 0, Some((Sprg3, 0x9234_5678_9abc_def0))), // mfspr r4,275; mtspr 275,r3; mfspr r5,275
    Number([0x7c94_42a6, 0x7c74_43a6, 0x7cb4_42a6], [7, 7], 0, None), // mfspr r4,276; mtspr 276,r3; mfspr r5,276
    Number([0x7c9b_42a6, 0x7c7b_43a6, 0x7cbb_42a6], [7, 7], 0, None), // mfspr r4,283; mtspr 283,r3; mfspr r5,283
    Number([0x7c9c_42a6, 0x7c7c_43a6, 0x7cbc_42a6], [7, 7], 0, None), // mfspr r4,284; mtspr 284,r3; mfspr r5,284
    Number([0x7c9d_42a6, 0x7c7d_43a6, 0x7cbd_42a6], [7, 7], 0, None), // mfspr r4,285; mtspr 285,r3; mfspr r5,285
    Number([0x7c8c_42a6, 0x7c7c_43a6, 0x7cac_42a6], [2, 5], 0, None), // mfspr r4,268; mtspr 284,r3; mfspr r5,268
    Number([0x7c8d_42a6, 0x7c7d_43a6, 0x7cad_42a6], [0, 0], 0, None), // mfspr r4,269; mtspr 285,r3; mfspr r5,269
    Number([0x7c9e_42a6, 0x7c7e_43a6, 0x7cbe_42a6], [7, 7], 0, None), // mfspr r4,286; mtspr 286,r3; mfspr r5,286
    Number([0x7c9f_42a6, 0x7c7f_43a6, 0x7cbf_42a6], [0x63_0101, 0x63_0101], 0, None), // mfspr r4,287; mtspr 287,r3; mfspr r5,287
    Number([0x7c80_4aa6, 0x7c60_4ba6, 0x7ca0_4aa6], [7, 7], 0, None), // mfspr r4,288; mtspr 288,r3; mfspr r5,288
    Number([0x7c8f_4aa6, 0x7c6f_4ba6, 0x7caf_4aa6], [7, 7], 0, None), // mfspr r4,303; mtspr 303,r3; mfspr r5,303
    Number([0x7c90_4aa6, 0x7c70_4ba6, 0x7cb0_4aa6], [0, 0x9234_5678_9abc_def0], 0, Some((Hsprg0, 0x9234_5678_9abc_def0))), // mfspr r4,304; mtspr 304,r3; mfspr r5,304
    Number([0x7c91_4aa6, 0x7c71_4ba6, 0x7cb1_4aa6], [0, 0x9234_5678_9abc_def0], 0, Some((Hsprg1, 0x9234_5678_9abc_def0))), // mfspr r4,305; mtspr 305,r3; mfspr r5,305
    Number([0x7c92_4aa6, 0x7c72_4ba6, 0x7cb2_4aa6], [7, 7], 0, None), // mfspr r4,306; mtspr 306,r3; mfspr r5,306
    Number([0x7c99_4aa6, 0x7c79_4ba6, 0x7cb9_4aa6], [7, 7], 0, None), // mfspr r4,313; mtspr 313,r3; mfspr r5,313
    Number([0x7c9a_4aa6, 0x7c7a_4ba6, 0x7cba_4aa6], [0, 0x9234_5678_9abc_def0], 0, Some((Hsrr0, 0x9234_5678_9abc_def0))), // mfspr r4,314; mtspr 314,r3; mfspr r5,314
    Number([0x7c9b_4aa6, 0x7c7b_4ba6, 0x7cbb_4aa6], [0, 0x9234_5678_9abc_def0], 0, Some((Hsrr1, 0x9234_5678_9abc_def0))), // mfspr r4,315; mtspr 315,r3; mfspr r5,315
    Number([0x7c9c_4aa6, 0x7c7c_4ba6, 0x7cbc_4aa6], [7, 7], 0, None), // mfspr r4,316; mtspr 316,r3; mfspr r5,316
    Number([0x7c8f_b2a6, 0x7c6f_b3a6, 0x7caf_b2a6], [7, 7], 0, None), // mfspr r4,719; mtspr 719,r3; mfspr r5,719
    Number([0x7c90_b2a6, 0x7c70_b3a6, 0x7cb0_b2a6], [0, 0x9234_5678_9abc_def0], 0, Some((Prtbl, 0x9234_5678_9abc_def0))), // mfspr r4,720; mtspr 720,r3; mfspr r5,720
    Number([0x7c91_b2a6, 0x7c71_b3a6, 0x7cb1_b2a6], [7, 7], 0, None), // mfspr r4,721; mtspr 721,r3; mfspr r5,721
    Number([0x7c87_caa6, 0x7c67_cba6, 0x7ca7_caa6], [7, 7], 0, None), // mfspr r4,807; mtspr 807,r3; mfspr r5,807
    // reserved numbers, no operation
    Number([0x7c88_caa6, 0x7c68_cba6, 0x7ca8_caa6], [7, 7], 0, None), // mfspr r4,808; mtspr 808,r3; mfspr r5,808
    Number([0x7c89_caa6, 0x7c69_cba6, 0x7ca9_caa6], [7, 7], 0, None), // mfspr r4,809; mtspr 809,r3; mfspr r5,809
    Number([0x7c8a_caa6, 0x7c6a_cba6, 0x7caa_caa6], [7, 7], 0, None), // mfspr r4,810; mtspr 810,r3; mfspr r5,810
    Number([0x7c8b_caa6, 0x7c6b_cba6, 0x7cab_caa6], [7, 7], 0, None), // mfspr r4,811; mtspr 811,r3; mfspr r5,811
    // numbers above the reserved ones
    Number([0x7c8c_caa6, 0x7c6c_cba6, 0x7cac_caa6], [7, 7], 0, None), // mfspr r4,812; mtspr 812,r3; mfspr r5,812
    Number([0x7c8e_caa6, 0x7c6e_cba6, 0x7cae_caa6], [7, 7], 0, None), // mfspr r4,814; mtspr 814,r3; mfspr r5,814
    Number([0x7c8f_caa6, 0x7c6f_cba6, 0x7caf_caa6], [0, 0x9234_5678_9abc_def0], 0, Some((Tar, 0x9234_5678_9abc_def0))), // mfspr r4,815; mtspr 815,r3; mfspr r5,815
    Number([0x7c90_caa6, 0x7c70_cba6, 0x7cb0_caa6], [7, 7], 0, None), // mfspr r4,816; mtspr 816,r3; mfspr r5,816
    Number([0x7c88_faa6, 0x7c68_fba6, 0x7ca8_faa6], [7, 7], 0, None), // mfspr r4,1000; mtspr 1000,r3; mfspr r5,1000
    Number([0x7c9e_faa6, 0x7c7e_fba6, 0x7cbe_faa6], [7, 7], 0, None), // mfspr r4,1022; mtspr 1022,r3; mfspr r5,1022
    Number([0x7c9f_faa6, 0x7c7f_fba6, 0x7cbf_faa6], [0, 0], 0, None), // mfspr r4,1023; mtspr 1023,r3; mfspr r5,1023
    // the time base's own instruction, which has no other number
    Number([0x7c8c_42e6, 0x7c68_03a6, 0x7cac_42e6], [2, 5], 0, Some((Lr, 0x9234_5678_9abc_def0))), // mftb r4,268; mtspr 8,r3; mftb r5,268
    Number([0x7c8d_42e6, 0x7c68_03a6, 0x7cad_42e6], [0, 0], 0, Some((Lr, 0x9234_5678_9abc_def0))), // mftb r4,269; mtspr 8,r3; mftb r5,269
    Number([0x7c88_02e6, 0x7c68_03a6, 0x7ca8_02e6], [7, 7], 2, Some((Lr, 0x9234_5678_9abc_def0))), // mftb r4,8; mtspr 8,r3; mftb r5,8
    Number([0x7c8b_42e6, 0x7c6b_43a6, 0x7cab_42e6], [7, 7], 2, None), // mftb r4,267; mtspr 267,r3; mftb r5,267
    Number([0x7c8e_42e6, 0x7c6e_43a6, 0x7cae_42e6], [7, 7], 2, None), // mftb r4,270; mtspr 270,r3; mftb r5,270
    Number([0x7c9c_42e6, 0x7c7c_43a6, 0x7cbc_42e6], [7, 7], 2, None), // mftb r4,284; mtspr 284,r3; mftb r5,284
    Number([0x7c9f_42e6, 0x7c7f_43a6, 0x7cbf_42e6], [7, 7], 2, None), // mftb r4,287; mtspr 287,r3; mftb r5,287
    Number([0x7c88_cae6, 0x7c68_cba6, 0x7ca8_cae6], [7, 7], 2, None), // mftb r4,808; mtspr 808,r3; mftb r5,808
];

// ld r3,256(0); li r4,7
const FRONT: [u32; 2] = [0xe860_0100, 0x3880_0007];

// li r5,7
const MIDDLE: u32 = 0x38a0_0007;

// mfspr r7,268; b .
const BEHIND: [u32; 2] = [0x7cec_42a6, 0x4800_0000];

/// At 0x700, where an illegal number traps to, r8 counts, and the run goes on behind it: mfspr r6,26; addi r6,r6,4;
/// mtspr 26,r6; addi r8,r8,1; rfid
#[rattlefmt::skip]
const HANDLER: [u32; 5] = [0x7cda_02a6, 0x38c6_0004, 0x7cda_03a6, 0x3908_0001, 0x4c00_0024];

/// Appends words in little-endian order.
fn push_words(image: &mut Vec<u8>, words: &[u32]) -> Result<(), NoMemory> {
    for word in words {
        image.extend_from_slice(&word.to_le_bytes())?;
    }
    Ok(())
}

/// The image of a run with these three words.
fn image_of(alloc: Global, words: [u32; 3]) -> Result<Vec<u8>, NoMemory> {
    let [read, write, again] = words;
    let mut image = Vec::new(alloc);
    push_words(&mut image, &FRONT)?;
    push_words(&mut image, &[read, write, MIDDLE, again])?;
    push_words(&mut image, &BEHIND)?;
    image.resize(256, 0)?;
    image.extend_from_slice(&0x9234_5678_9ABC_DEF0u64.to_le_bytes())?;
    image.resize(0x700, 0)?;
    push_words(&mut image, &HANDLER)?;
    Ok(image)
}

/// What a run left in a register.
fn content_of(run: &Run, register: Register) -> u64 {
    let regs = &run.state.regs;
    match register {
        Xer => regs.xer,
        Lr => regs.lr,
        Ctr => regs.ctr,
        Dsisr => u64::from(regs.dsisr),
        Dar => regs.dar,
        Dec => u64::from(run.state.devices.dec()),
        Srr0 => regs.srr0,
        Srr1 => regs.srr1,
        Pidr => u64::from(regs.pidr),
        Sprg0 => regs.sprg[0],
        Sprg1 => regs.sprg[1],
        Sprg2 => regs.sprg[2],
        Sprg3 => regs.sprg[3],
        Hsprg0 => regs.hsprg[0],
        Hsprg1 => regs.hsprg[1],
        Hsrr0 => regs.hsrr0,
        Hsrr1 => regs.hsrr1,
        Prtbl => regs.prtbl,
        Tar => regs.tar,
    }
}

/// What a register holds at cycle 30 that isn't written: its start, but that traps, of which the last one is that of the
/// second read, have saved where they stood and went on behind it.
fn start_of(register: Register, traps: u64) -> u64 {
    match register {
        Dec => 0x7FFF_FFE1,
        Srr0 => { if traps == 0 { 0 } else { 0x18 } }
        Srr1 => { if traps == 0 { 0 } else { 0x9000_0000_0008_1001 } }
        _ => 0,
    }
}

/// Whether a run left each register as it should.
fn has_registers(run: &Run, traps: u64, written: Option<(Register, u64)>) -> bool {
    let mut same = true;
    for register in &REGISTERS {
        let mut want = start_of(*register, traps);
        if let Some((other, content)) = written {
            if other == *register {
                want = content;
            }
        }
        same = same && content_of(run, *register) == want;
    }
    same
}

#[test]
fn numbers_are_moved_in_a_run(rt: HostRuntime) -> Result<(), Fail> {
    let alloc = rt.alloc();
    for Number(words, [first, second], traps, written) in &NUMBERS {
        assert!(rt; *traps <= 3);
        let image = image_of(alloc, *words)?;
        match simulate(alloc, image.as_slice(), &Script::new(alloc), 30) {
            Ok(run) => {
                assert_eq!(rt; run.end, End::Ran { cycle: 30 }, "{words:?}");
                let regs = &run.state.regs;
                assert_eq!(rt;
                    [regs.gpr[4], regs.gpr[5]],
                    [*first, *second],
                    "reads of {words:?}"
                );
                assert_eq!(rt;
                    [regs.cia, regs.msr],
                    [0x1c, 0x9000_0000_0000_1001],
                    "{words:?}"
                );
                assert!(rt;
                    has_registers(&run, *traps, *written),
                    "registers of {words:?}"
                );
                assert_eq!(rt;
                    [regs.gpr[8], traps_in(run.events.as_slice())],
                    [*traps, *traps],
                    "traps of {words:?}"
                );
                // a trap and its handler take five cycles more, and nothing moves the time base
                assert_eq!(rt; regs.gpr[7], 6 + 5 * *traps, "the time base of {words:?}");
            }
            Err(fault) => panic!(rt; "{fault:?} at {words:?}"),
        }
    }
    Ok(())
}
