use crate::alone::{OTHER, carried, first};
use crate::tree::{TREE, put_tables};
use mw_isa::Vector::{
    Alignment, DataSegment, DataStorage, FpUnavailable, InstSegment, InstStorage, Program,
    SystemCall, VectorUnavailable, VsxUnavailable,
};
use mw_isa::{Event, Regs, State, Vector};
use std::process::Abort;
use std::test::Fail;

/// A trap: its vector, the bits of SRR1 that tell its cause, and what it leaves in DAR and DSISR.
struct Trap(Vector, u64, u64, u32);

/// An instruction of process 1 with IR and DR: its word and its suffix, if it has one; its effective address, and the real
/// one at which the words stand; what r5 holds; the doublewords of tables, with their addresses, that stand beside those of
/// the tree or in their place; and what comes of it with PR=0, and with PR=1: a trap, or none where it retires.
struct Row(
    u32,
    Option<u32>,
    u64,
    u32,
    u64,
    &'static [(u32, u64)],
    &'static [Option<Trap>],
);

/// MSR with IR and DR, and with PR=0.
const PRIVILEGED_STATE: u64 = 0x9000_0000_0000_1031;

/// The same with PR=1, which has EE with it.
const PROBLEM_STATE: u64 = 0x9000_0000_0000_d031;

/// What stands in DAR before each instruction.
const DAR: u64 = 0xdada_dada_dada_dada;

/// What stands in DSISR before each instruction.
const DSISR: u32 = 0x5151_5151;

/// The instruction is privileged.
const PRIVILEGED: Option<Trap> = Some(Trap(Program, 0x0004_0000, DAR, DSISR));

/// The instruction is illegal.
const ILLEGAL: Option<Trap> = Some(Trap(Program, 0x0008_0000, DAR, DSISR));

/// Each row that is privileged, beside rows that aren't and words that are no instructions in either state.
#[rattlefmt::skip]
static SYSTEM: [Row; 46] = [
    // each row that is privileged, in its forms
    Row(0x7ce0_2e2a, None, 0x40, 0x40, 0x5048, &[], &[None, PRIVILEGED]), // lwzcix r7,0,r5
    Row(0x7ce0_2e6a, None, 0x40, 0x40, 0x5048, &[], &[None, PRIVILEGED]), // lhzcix r7,0,r5
    Row(0x7ce0_2eaa, None, 0x40, 0x40, 0x5048, &[], &[None, PRIVILEGED]), // lbzcix r7,0,r5
    Row(0x7ce0_2eea, None, 0x40, 0x40, 0x5048, &[], &[None, PRIVILEGED]), // ldcix r7,0,r5
    Row(0x7ce0_2f2a, None, 0x40, 0x40, 0x5048, &[], &[None, PRIVILEGED]), // stwcix r7,0,r5
    Row(0x7ce0_2f6a, None, 0x40, 0x40, 0x5048, &[], &[None, PRIVILEGED]), // sthcix r7,0,r5
    Row(0x7ce0_2faa, None, 0x40, 0x40, 0x5048, &[], &[None, PRIVILEGED]), // stbcix r7,0,r5
    Row(0x7ce0_2fea, None, 0x40, 0x40, 0x5048, &[], &[None, PRIVILEGED]), // stdcix r7,0,r5
    Row(0x4c00_0024, None, 0x40, 0x40, 0x5048, &[], &[None, PRIVILEGED]), // rfid
    Row(0x4c00_0224, None, 0x40, 0x40, 0x5048, &[], &[None, PRIVILEGED]), // hrfid
    Row(0x7c40_04ac, None, 0x40, 0x40, 0x5048, &[], &[None, PRIVILEGED]), // sync 2
    Row(0x7c00_046c, None, 0x40, 0x40, 0x5048, &[], &[None, PRIVILEGED]), // tlbsync
    Row(0x7ce0_00a6, None, 0x40, 0x40, 0x5048, &[], &[None, PRIVILEGED]), // mfmsr r7
    Row(0x7ce0_0124, None, 0x40, 0x40, 0x5048, &[], &[None, PRIVILEGED]), // mtmsr r7,0
    Row(0x7ce1_0124, None, 0x40, 0x40, 0x5048, &[], &[None, PRIVILEGED]), // mtmsr r7,1
    Row(0x7ce0_0164, None, 0x40, 0x40, 0x5048, &[], &[None, PRIVILEGED]), // mtmsrd r7,0
    Row(0x7ce1_0164, None, 0x40, 0x40, 0x5048, &[], &[None, PRIVILEGED]), // mtmsrd r7,1
    Row(0x7ce0_2a64, None, 0x40, 0x40, 0x5048, &[], &[None, PRIVILEGED]), // tlbie r5,r7,0,0,0
    Row(0x7ce7_2a64, None, 0x40, 0x40, 0x5048, &[], &[None, PRIVILEGED]), // tlbie r5,r7,1,1,1
    Row(0x7ce9_2a64, None, 0x40, 0x40, 0x5048, &[], &[None, PRIVILEGED]), // tlbie r5,r7,2,0,1
    Row(0x7ce0_2a24, None, 0x40, 0x40, 0x5048, &[], &[None, PRIVILEGED]), // tlbiel r5,r7,0,0,0
    Row(0x7ce7_2a24, None, 0x40, 0x40, 0x5048, &[], &[None, PRIVILEGED]), // tlbiel r5,r7,1,1,1
    Row(0x7ce9_2a24, None, 0x40, 0x40, 0x5048, &[], &[None, PRIVILEGED]), // tlbiel r5,r7,2,0,1
    // their neighbours that aren't privileged
    Row(0x7ce0_282e, None, 0x40, 0x40, 0x5048, &[], &[None, None]), // lwzx r7,0,r5
    Row(0x7ce0_292a, None, 0x40, 0x40, 0x5048, &[], &[None, None]), // stdx r7,0,r5
    Row(0x4c00_012c, None, 0x40, 0x40, 0x5048, &[], &[None, None]), // isync
    Row(0x7c00_04ac, None, 0x40, 0x40, 0x5048, &[], &[None, None]), // sync 0
    Row(0x7c20_04ac, None, 0x40, 0x40, 0x5048, &[], &[None, None]), // sync 1
    Row(0x7c60_04ac, None, 0x40, 0x40, 0x5048, &[], &[None, None]), // .long 0x7c6004ac: sync 3
    Row(0x7c00_06ac, None, 0x40, 0x40, 0x5048, &[], &[None, None]), // eieio
    Row(0x7ce0_05e6, None, 0x40, 0x40, 0x5048, &[], &[None, None]), // darn r7,0
    Row(0x7ce0_0026, None, 0x40, 0x40, 0x5048, &[], &[None, None]), // mfcr r7
    // a privileged row is refused before its page is looked at
    Row(0x7ce0_2e2a, None, 0x40, 0x40, 0x6048, &[], &[Some(Trap(DataStorage, 0, 0x6048, 0x4000_0000)), PRIVILEGED]), // lwzcix r7,0,r5
    Row(0x7ce0_2eea, None, 0x40, 0x40, 0x6048, &[], &[Some(Trap(DataStorage, 0, 0x6048, 0x4000_0000)), PRIVILEGED]), // ldcix r7,0,r5
    Row(0x7ce0_2f2a, None, 0x40, 0x40, 0x6048, &[], &[Some(Trap(DataStorage, 0, 0x6048, 0x4200_0000)), PRIVILEGED]), // stwcix r7,0,r5
    Row(0x7ce0_2fea, None, 0x40, 0x40, 0x6048, &[], &[Some(Trap(DataStorage, 0, 0x6048, 0x4200_0000)), PRIVILEGED]), // stdcix r7,0,r5
    // what is illegal, unavailable, a trap or a call is so in both states
    Row(0x0000_0000, None, 0x40, 0x40, 0x5048, &[], &[ILLEGAL, ILLEGAL]), // .long 0x00000000
    Row(0x7c00_003c, None, 0x40, 0x40, 0x5048, &[], &[ILLEGAL, ILLEGAL]), // .long 0x7c00003c: wait
    Row(0x0000_0200, None, 0x40, 0x40, 0x5048, &[], &[ILLEGAL, ILLEGAL]), // .long 0x00000200: attn
    Row(0x4400_0001, None, 0x40, 0x40, 0x5048, &[], &[ILLEGAL, ILLEGAL]), // .long 0x44000001: scv 0
    Row(0xc820_0000, None, 0x40, 0x40, 0x5048, &[], &[Some(Trap(FpUnavailable, 0, DAR, DSISR)), Some(Trap(FpUnavailable, 0, DAR, DSISR))]), // .long 0xc8200000
    Row(0x1000_0000, None, 0x40, 0x40, 0x5048, &[], &[Some(Trap(VectorUnavailable, 0, DAR, DSISR)), Some(Trap(VectorUnavailable, 0, DAR, DSISR))]), // .long 0x10000000
    Row(0x1900_0000, None, 0x40, 0x40, 0x5048, &[], &[Some(Trap(VsxUnavailable, 0, DAR, DSISR)), Some(Trap(VsxUnavailable, 0, DAR, DSISR))]), // .long 0x19000000
    Row(0x7fe0_0008, None, 0x40, 0x40, 0x5048, &[], &[Some(Trap(Program, 0x0002_0000, DAR, DSISR)), Some(Trap(Program, 0x0002_0000, DAR, DSISR))]), // tw 31,r0,r0
    Row(0x4400_0002, None, 0x40, 0x40, 0x5048, &[], &[Some(Trap(SystemCall, 0, DAR, DSISR)), Some(Trap(SystemCall, 0, DAR, DSISR))]), // sc
    Row(0xba85_0010, None, 0x40, 0x40, 0x5048, &[], &[Some(Trap(Alignment, 0, 0x5058, DSISR)), Some(Trap(Alignment, 0, 0x5058, DSISR))]), // lmw r20,16(r5)
];

/// Each number that stands for a register and its neighbours, read and written.
#[rattlefmt::skip]
static NUMBERS: [Row; 153] = [
    Row(0x7ce0_02a6, None, 0x40, 0x40, 0x5048, &[], &[ILLEGAL, ILLEGAL]), // mfspr r7,0
    Row(0x7ce0_03a6, None, 0x40, 0x40, 0x5048, &[], &[ILLEGAL, ILLEGAL]), // mtspr 0,r7
    Row(0x7ce1_02a6, None, 0x40, 0x40, 0x5048, &[], &[None, None]), // mfspr r7,1
    Row(0x7ce1_03a6, None, 0x40, 0x40, 0x5048, &[], &[None, None]), // mtspr 1,r7
    Row(0x7ce2_02a6, None, 0x40, 0x40, 0x5048, &[], &[None, ILLEGAL]), // mfspr r7,2
    Row(0x7ce2_03a6, None, 0x40, 0x40, 0x5048, &[], &[None, ILLEGAL]), // mtspr 2,r7
    Row(0x7ce3_02a6, None, 0x40, 0x40, 0x5048, &[], &[None, ILLEGAL]), // mfspr r7,3
    Row(0x7ce3_03a6, None, 0x40, 0x40, 0x5048, &[], &[None, ILLEGAL]), // mtspr 3,r7
    Row(0x7ce4_02a6, None, 0x40, 0x40, 0x5048, &[], &[ILLEGAL, ILLEGAL]), // mfspr r7,4
    Row(0x7ce4_03a6, None, 0x40, 0x40, 0x5048, &[], &[None, ILLEGAL]), // mtspr 4,r7
    Row(0x7ce5_02a6, None, 0x40, 0x40, 0x5048, &[], &[ILLEGAL, ILLEGAL]), // mfspr r7,5
    Row(0x7ce5_03a6, None, 0x40, 0x40, 0x5048, &[], &[None, ILLEGAL]), // mtspr 5,r7
    Row(0x7ce6_02a6, None, 0x40, 0x40, 0x5048, &[], &[ILLEGAL, ILLEGAL]), // mfspr r7,6
    Row(0x7ce6_03a6, None, 0x40, 0x40, 0x5048, &[], &[None, ILLEGAL]), // mtspr 6,r7
    Row(0x7ce7_02a6, None, 0x40, 0x40, 0x5048, &[], &[None, ILLEGAL]), // mfspr r7,7
    Row(0x7ce7_03a6, None, 0x40, 0x40, 0x5048, &[], &[None, ILLEGAL]), // mtspr 7,r7
    Row(0x7ce8_02a6, None, 0x40, 0x40, 0x5048, &[], &[None, None]), // mfspr r7,8
    Row(0x7ce8_03a6, None, 0x40, 0x40, 0x5048, &[], &[None, None]), // mtspr 8,r7
    Row(0x7ce9_02a6, None, 0x40, 0x40, 0x5048, &[], &[None, None]), // mfspr r7,9
    Row(0x7ce9_03a6, None, 0x40, 0x40, 0x5048, &[], &[None, None]), // mtspr 9,r7
    Row(0x7cea_02a6, None, 0x40, 0x40, 0x5048, &[], &[None, ILLEGAL]), // mfspr r7,10
    Row(0x7cea_03a6, None, 0x40, 0x40, 0x5048, &[], &[None, ILLEGAL]), // mtspr 10,r7
    Row(0x7cef_02a6, None, 0x40, 0x40, 0x5048, &[], &[None, ILLEGAL]), // mfspr r7,15
    Row(0x7cef_03a6, None, 0x40, 0x40, 0x5048, &[], &[None, ILLEGAL]), // mtspr 15,r7
    Row(0x7cf0_02a6, None, 0x40, 0x40, 0x5048, &[], &[None, PRIVILEGED]), // mfspr r7,16
    Row(0x7cf0_03a6, None, 0x40, 0x40, 0x5048, &[], &[None, PRIVILEGED]), // mtspr 16,r7
    Row(0x7cf1_02a6, None, 0x40, 0x40, 0x5048, &[], &[None, PRIVILEGED]), // mfspr r7,17
    Row(0x7cf1_03a6, None, 0x40, 0x40, 0x5048, &[], &[None, PRIVILEGED]), // mtspr 17,r7
    Row(0x7cf2_02a6, None, 0x40, 0x40, 0x5048, &[], &[None, PRIVILEGED]), // mfspr r7,18
    Row(0x7cf2_03a6, None, 0x40, 0x40, 0x5048, &[], &[None, PRIVILEGED]), // mtspr 18,r7
    Row(0x7cf3_02a6, None, 0x40, 0x40, 0x5048, &[], &[None, PRIVILEGED]), // mfspr r7,19
    Row(0x7cf3_03a6, None, 0x40, 0x40, 0x5048, &[], &[None, PRIVILEGED]), // mtspr 19,r7
    Row(0x7cf4_02a6, None, 0x40, 0x40, 0x5048, &[], &[None, PRIVILEGED]), // mfspr r7,20
    Row(0x7cf4_03a6, None, 0x40, 0x40, 0x5048, &[], &[None, PRIVILEGED]), // mtspr 20,r7
    Row(0x7cf5_02a6, None, 0x40, 0x40, 0x5048, &[], &[None, PRIVILEGED]), // mfspr r7,21
    Row(0x7cf5_03a6, None, 0x40, 0x40, 0x5048, &[], &[None, PRIVILEGED]), // mtspr 21,r7
    Row(0x7cf6_02a6, None, 0x40, 0x40, 0x5048, &[], &[None, PRIVILEGED]), // mfspr r7,22
    Row(0x7cf6_03a6, None, 0x40, 0x40, 0x5048, &[], &[None, PRIVILEGED]), // mtspr 22,r7
    Row(0x7cf7_02a6, None, 0x40, 0x40, 0x5048, &[], &[None, PRIVILEGED]), // mfspr r7,23
    Row(0x7cf7_03a6, None, 0x40, 0x40, 0x5048, &[], &[None, PRIVILEGED]), // mtspr 23,r7
    Row(0x7cf9_02a6, None, 0x40, 0x40, 0x5048, &[], &[None, PRIVILEGED]), // mfspr r7,25
    Row(0x7cf9_03a6, None, 0x40, 0x40, 0x5048, &[], &[None, PRIVILEGED]), // mtspr 25,r7
    Row(0x7cfa_02a6, None, 0x40, 0x40, 0x5048, &[], &[None, PRIVILEGED]), // mfspr r7,26
    Row(0x7cfa_03a6, None, 0x40, 0x40, 0x5048, &[], &[None, PRIVILEGED]), // mtspr 26,r7
    Row(0x7cfb_02a6, None, 0x40, 0x40, 0x5048, &[], &[None, PRIVILEGED]), // mfspr r7,27
    Row(0x7cfb_03a6, None, 0x40, 0x40, 0x5048, &[], &[None, PRIVILEGED]), // mtspr 27,r7
    Row(0x7cfc_02a6, None, 0x40, 0x40, 0x5048, &[], &[None, PRIVILEGED]), // mfspr r7,28
    Row(0x7cfc_03a6, None, 0x40, 0x40, 0x5048, &[], &[None, PRIVILEGED]), // mtspr 28,r7
    Row(0x7cff_02a6, None, 0x40, 0x40, 0x5048, &[], &[None, PRIVILEGED]), // mfspr r7,31
    Row(0x7cff_03a6, None, 0x40, 0x40, 0x5048, &[], &[None, PRIVILEGED]), // mtspr 31,r7
    Row(0x7ce0_0aa6, None, 0x40, 0x40, 0x5048, &[], &[None, ILLEGAL]), // mfspr r7,32
    Row(0x7ce0_0ba6, None, 0x40, 0x40, 0x5048, &[], &[None, ILLEGAL]), // mtspr 32,r7
    Row(0x7cef_0aa6, None, 0x40, 0x40, 0x5048, &[], &[None, ILLEGAL]), // mfspr r7,47
    Row(0x7cef_0ba6, None, 0x40, 0x40, 0x5048, &[], &[None, ILLEGAL]), // mtspr 47,r7
    Row(0x7cf0_0aa6, None, 0x40, 0x40, 0x5048, &[], &[None, PRIVILEGED]), // mfspr r7,48
    Row(0x7cf0_0ba6, None, 0x40, 0x40, 0x5048, &[], &[None, PRIVILEGED]), // mtspr 48,r7
    Row(0x7cf1_0aa6, None, 0x40, 0x40, 0x5048, &[], &[None, PRIVILEGED]), // mfspr r7,49
    Row(0x7cf1_0ba6, None, 0x40, 0x40, 0x5048, &[], &[None, PRIVILEGED]), // mtspr 49,r7
    Row(0x7ce2_42a6, None, 0x40, 0x40, 0x5048, &[], &[None, ILLEGAL]), // mfspr r7,258
    Row(0x7ce2_43a6, None, 0x40, 0x40, 0x5048, &[], &[None, ILLEGAL]), // mtspr 258,r7
    Row(0x7ce3_42a6, None, 0x40, 0x40, 0x5048, &[], &[None, None]), // mfspr r7,259
    Row(0x7ce3_43a6, None, 0x40, 0x40, 0x5048, &[], &[None, ILLEGAL]), // mtspr 259,r7
    Row(0x7ce4_42a6, None, 0x40, 0x40, 0x5048, &[], &[None, ILLEGAL]), // mfspr r7,260
    Row(0x7ce4_43a6, None, 0x40, 0x40, 0x5048, &[], &[None, ILLEGAL]), // mtspr 260,r7
    Row(0x7ceb_42a6, None, 0x40, 0x40, 0x5048, &[], &[None, ILLEGAL]), // mfspr r7,267
    Row(0x7ceb_43a6, None, 0x40, 0x40, 0x5048, &[], &[None, ILLEGAL]), // mtspr 267,r7
    Row(0x7cec_42a6, None, 0x40, 0x40, 0x5048, &[], &[None, None]), // mfspr r7,268
    Row(0x7cec_43a6, None, 0x40, 0x40, 0x5048, &[], &[None, ILLEGAL]), // mtspr 268,r7
    Row(0x7ced_42a6, None, 0x40, 0x40, 0x5048, &[], &[None, None]), // mfspr r7,269
    Row(0x7ced_43a6, None, 0x40, 0x40, 0x5048, &[], &[None, ILLEGAL]), // mtspr 269,r7
    Row(0x7cee_42a6, None, 0x40, 0x40, 0x5048, &[], &[None, ILLEGAL]), // mfspr r7,270
    Row(0x7cee_43a6, None, 0x40, 0x40, 0x5048, &[], &[None, ILLEGAL]), // mtspr 270,r7
    Row(0x7cef_42a6, None, 0x40, 0x40, 0x5048, &[], &[None, ILLEGAL]), // mfspr r7,271
    Row(0x7cef_43a6, None, 0x40, 0x40, 0x5048, &[], &[None, ILLEGAL]), // mtspr 271,r7
    Row(0x7cf0_42a6, None, 0x40, 0x40, 0x5048, &[], &[None, PRIVILEGED]), // mfspr r7,272
    Row(0x7cf0_43a6, None, 0x40, 0x40, 0x5048, &[], &[None, PRIVILEGED]), // mtspr 272,r7
    Row(0x7cf1_42a6, None, 0x40, 0x40, 0x5048, &[], &[None, PRIVILEGED]), // mfspr r7,273
    Row(0x7cf1_43a6, None, 0x40, 0x40, 0x5048, &[], &[None, PRIVILEGED]), // mtspr 273,r7
    Row(0x7cf2_42a6, None, 0x40, 0x40, 0x5048, &[], &[None, PRIVILEGED]), // mfspr r7,274
    Row(0x7cf2_43a6, None, 0x40, 0x40, 0x5048, &[], &[None, PRIVILEGED]), // mtspr 274,r7
    Row(0x7cf3_42a6, None, 0x40, 0x40, 0x5048, &[], &[None, PRIVILEGED]), // mfspr r7,275
    Row(0x7cf3_43a6, None, 0x40, 0x40, 0x5048, &[], &[None, PRIVILEGED]), // mtspr 275,r7
    Row(0x7cf4_42a6, None, 0x40, 0x40, 0x5048, &[], &[None, PRIVILEGED]), // mfspr r7,276
    Row(0x7cf4_43a6, None, 0x40, 0x40, 0x5048, &[], &[None, PRIVILEGED]), // mtspr 276,r7
    Row(0x7cfb_42a6, None, 0x40, 0x40, 0x5048, &[], &[None, PRIVILEGED]), // mfspr r7,283
    Row(0x7cfb_43a6, None, 0x40, 0x40, 0x5048, &[], &[None, PRIVILEGED]), // mtspr 283,r7
    Row(0x7cfc_42a6, None, 0x40, 0x40, 0x5048, &[], &[None, PRIVILEGED]), // mfspr r7,284
    Row(0x7cfc_43a6, None, 0x40, 0x40, 0x5048, &[], &[None, PRIVILEGED]), // mtspr 284,r7
    Row(0x7cfd_42a6, None, 0x40, 0x40, 0x5048, &[], &[None, PRIVILEGED]), // mfspr r7,285
    Row(0x7cfd_43a6, None, 0x40, 0x40, 0x5048, &[], &[None, PRIVILEGED]), // mtspr 285,r7
    Row(0x7cfe_42a6, None, 0x40, 0x40, 0x5048, &[], &[None, PRIVILEGED]), // mfspr r7,286
    Row(0x7cfe_43a6, None, 0x40, 0x40, 0x5048, &[], &[None, PRIVILEGED]), // mtspr 286,r7
    Row(0x7cff_42a6, None, 0x40, 0x40, 0x5048, &[], &[None, PRIVILEGED]), // mfspr r7,287
    Row(0x7cff_43a6, None, 0x40, 0x40, 0x5048, &[], &[None, PRIVILEGED]), // mtspr 287,r7
    Row(0x7ce0_4aa6, None, 0x40, 0x40, 0x5048, &[], &[None, ILLEGAL]), // mfspr r7,288
    Row(0x7ce0_4ba6, None, 0x40, 0x40, 0x5048, &[], &[None, ILLEGAL]), // mtspr 288,r7
    Row(0x7cef_4aa6, None, 0x40, 0x40, 0x5048, &[], &[None, ILLEGAL]), // mfspr r7,303
    Row(0x7cef_4ba6, None, 0x40, 0x40, 0x5048, &[], &[None, ILLEGAL]), // mtspr 303,r7
    Row(0x7cf0_4aa6, None, 0x40, 0x40, 0x5048, &[], &[None, PRIVILEGED]), // mfspr r7,304
    Row(0x7cf0_4ba6, None, 0x40, 0x40, 0x5048, &[], &[None, PRIVILEGED]), // mtspr 304,r7
    Row(0x7cf1_4aa6, None, 0x40, 0x40, 0x5048, &[], &[None, PRIVILEGED]), // mfspr r7,305
    Row(0x7cf1_4ba6, None, 0x40, 0x40, 0x5048, &[], &[None, PRIVILEGED]), // mtspr 305,r7
    Row(0x7cf2_4aa6, None, 0x40, 0x40, 0x5048, &[], &[None, PRIVILEGED]), // mfspr r7,306
    Row(0x7cf2_4ba6, None, 0x40, 0x40, 0x5048, &[], &[None, PRIVILEGED]), // mtspr 306,r7
    Row(0x7cf9_4aa6, None, 0x40, 0x40, 0x5048, &[], &[None, PRIVILEGED]), // mfspr r7,313
    Row(0x7cf9_4ba6, None, 0x40, 0x40, 0x5048, &[], &[None, PRIVILEGED]), // mtspr 313,r7
    Row(0x7cfa_4aa6, None, 0x40, 0x40, 0x5048, &[], &[None, PRIVILEGED]), // mfspr r7,314
    Row(0x7cfa_4ba6, None, 0x40, 0x40, 0x5048, &[], &[None, PRIVILEGED]), // mtspr 314,r7
    Row(0x7cfb_4aa6, None, 0x40, 0x40, 0x5048, &[], &[None, PRIVILEGED]), // mfspr r7,315
    Row(0x7cfb_4ba6, None, 0x40, 0x40, 0x5048, &[], &[None, PRIVILEGED]), // mtspr 315,r7
    Row(0x7cfc_4aa6, None, 0x40, 0x40, 0x5048, &[], &[None, PRIVILEGED]), // mfspr r7,316
    Row(0x7cfc_4ba6, None, 0x40, 0x40, 0x5048, &[], &[None, PRIVILEGED]), // mtspr 316,r7
    Row(0x7cef_b2a6, None, 0x40, 0x40, 0x5048, &[], &[None, ILLEGAL]), // mfspr r7,719
    Row(0x7cef_b3a6, None, 0x40, 0x40, 0x5048, &[], &[None, ILLEGAL]), // mtspr 719,r7
    Row(0x7cf0_b2a6, None, 0x40, 0x40, 0x5048, &[], &[None, PRIVILEGED]), // mfspr r7,720
    Row(0x7cf0_b3a6, None, 0x40, 0x40, 0x5048, &[], &[None, PRIVILEGED]), // mtspr 720,r7
    Row(0x7cf1_b2a6, None, 0x40, 0x40, 0x5048, &[], &[None, PRIVILEGED]), // mfspr r7,721
    Row(0x7cf1_b3a6, None, 0x40, 0x40, 0x5048, &[], &[None, PRIVILEGED]), // mtspr 721,r7
    Row(0x7ce7_caa6, None, 0x40, 0x40, 0x5048, &[], &[None, ILLEGAL]), // mfspr r7,807
    Row(0x7ce7_cba6, None, 0x40, 0x40, 0x5048, &[], &[None, ILLEGAL]), // mtspr 807,r7
    Row(0x7ce8_caa6, None, 0x40, 0x40, 0x5048, &[], &[None, None]), // mfspr r7,808
    Row(0x7ce8_cba6, None, 0x40, 0x40, 0x5048, &[], &[None, None]), // mtspr 808,r7
    Row(0x7ce9_caa6, None, 0x40, 0x40, 0x5048, &[], &[None, None]), // mfspr r7,809
    Row(0x7ce9_cba6, None, 0x40, 0x40, 0x5048, &[], &[None, None]), // mtspr 809,r7
    Row(0x7cea_caa6, None, 0x40, 0x40, 0x5048, &[], &[None, None]), // mfspr r7,810
    Row(0x7cea_cba6, None, 0x40, 0x40, 0x5048, &[], &[None, None]), // mtspr 810,r7
    Row(0x7ceb_caa6, None, 0x40, 0x40, 0x5048, &[], &[None, None]), // mfspr r7,811
    Row(0x7ceb_cba6, None, 0x40, 0x40, 0x5048, &[], &[None, None]), // mtspr 811,r7
    Row(0x7cec_caa6, None, 0x40, 0x40, 0x5048, &[], &[None, ILLEGAL]), // mfspr r7,812
    Row(0x7cec_cba6, None, 0x40, 0x40, 0x5048, &[], &[None, ILLEGAL]), // mtspr 812,r7
    Row(0x7cee_caa6, None, 0x40, 0x40, 0x5048, &[], &[None, ILLEGAL]), // mfspr r7,814
    Row(0x7cee_cba6, None, 0x40, 0x40, 0x5048, &[], &[None, ILLEGAL]), // mtspr 814,r7
    Row(0x7cef_caa6, None, 0x40, 0x40, 0x5048, &[], &[None, None]), // mfspr r7,815
    Row(0x7cef_cba6, None, 0x40, 0x40, 0x5048, &[], &[None, None]), // mtspr 815,r7
    Row(0x7cf0_caa6, None, 0x40, 0x40, 0x5048, &[], &[None, PRIVILEGED]), // mfspr r7,816
    Row(0x7cf0_cba6, None, 0x40, 0x40, 0x5048, &[], &[None, PRIVILEGED]), // mtspr 816,r7
    Row(0x7ce8_faa6, None, 0x40, 0x40, 0x5048, &[], &[None, ILLEGAL]), // mfspr r7,1000
    Row(0x7ce8_fba6, None, 0x40, 0x40, 0x5048, &[], &[None, ILLEGAL]), // mtspr 1000,r7
    Row(0x7cef_faa6, None, 0x40, 0x40, 0x5048, &[], &[None, ILLEGAL]), // mfspr r7,1007
    Row(0x7cef_fba6, None, 0x40, 0x40, 0x5048, &[], &[None, ILLEGAL]), // mtspr 1007,r7
    Row(0x7cf0_faa6, None, 0x40, 0x40, 0x5048, &[], &[None, PRIVILEGED]), // mfspr r7,1008
    Row(0x7cf0_fba6, None, 0x40, 0x40, 0x5048, &[], &[None, PRIVILEGED]), // mtspr 1008,r7
    Row(0x7cfe_faa6, None, 0x40, 0x40, 0x5048, &[], &[None, PRIVILEGED]), // mfspr r7,1022
    Row(0x7cfe_fba6, None, 0x40, 0x40, 0x5048, &[], &[None, PRIVILEGED]), // mtspr 1022,r7
    Row(0x7cff_faa6, None, 0x40, 0x40, 0x5048, &[], &[None, PRIVILEGED]), // mfspr r7,1023
    Row(0x7cff_fba6, None, 0x40, 0x40, 0x5048, &[], &[None, PRIVILEGED]), // mtspr 1023,r7
    // mftb, of two numbers alone
    Row(0x7cec_42e6, None, 0x40, 0x40, 0x5048, &[], &[None, None]), // mftb r7,268
    Row(0x7ced_42e6, None, 0x40, 0x40, 0x5048, &[], &[None, None]), // mftb r7,269
    Row(0x7cee_42e6, None, 0x40, 0x40, 0x5048, &[], &[ILLEGAL, ILLEGAL]), // mftb r7,270
    Row(0x7cf0_42e6, None, 0x40, 0x40, 0x5048, &[], &[ILLEGAL, ILLEGAL]), // mftb r7,272
    Row(0x7cfc_42e6, None, 0x40, 0x40, 0x5048, &[], &[ILLEGAL, ILLEGAL]), // mftb r7,284
    Row(0x7cff_42e6, None, 0x40, 0x40, 0x5048, &[], &[ILLEGAL, ILLEGAL]), // mftb r7,287
    Row(0x7ce8_cae6, None, 0x40, 0x40, 0x5048, &[], &[ILLEGAL, ILLEGAL]), // mftb r7,808
];

/// Each set of rights, by a fetch, a load and a store. Page 5 stands at 0x7000.
#[rattlefmt::skip]
static RIGHTS: [Row; 66] = [
    // R and C are set: each set of bits of EAA, by a fetch, a load and a store
    Row(0x6000_0000, None, 0x5048, 0x7048, 0, &[(0x3_2028, 0xc000_0000_0000_7180)], &[Some(Trap(InstStorage, 0x1000_0000, DAR, DSISR)), Some(Trap(InstStorage, 0x1000_0000, DAR, DSISR))]), // nop: nothing
    Row(0xe8e5_0000, None, 0x40, 0x40, 0x5048, &[(0x3_2028, 0xc000_0000_0000_7180)], &[Some(Trap(DataStorage, 0, 0x5048, 0x0800_0000)), Some(Trap(DataStorage, 0, 0x5048, 0x0800_0000))]), // ld r7,0(r5): nothing
    Row(0xf8e5_0000, None, 0x40, 0x40, 0x5048, &[(0x3_2028, 0xc000_0000_0000_7180)], &[Some(Trap(DataStorage, 0, 0x5048, 0x0a00_0000)), Some(Trap(DataStorage, 0, 0x5048, 0x0a00_0000))]), // std r7,0(r5): nothing
    Row(0x6000_0000, None, 0x5048, 0x7048, 0, &[(0x3_2028, 0xc000_0000_0000_7181)], &[None, None]), // nop: execute
    Row(0xe8e5_0000, None, 0x40, 0x40, 0x5048, &[(0x3_2028, 0xc000_0000_0000_7181)], &[Some(Trap(DataStorage, 0, 0x5048, 0x0800_0000)), Some(Trap(DataStorage, 0, 0x5048, 0x0800_0000))]), // ld r7,0(r5): execute
    Row(0xf8e5_0000, None, 0x40, 0x40, 0x5048, &[(0x3_2028, 0xc000_0000_0000_7181)], &[Some(Trap(DataStorage, 0, 0x5048, 0x0a00_0000)), Some(Trap(DataStorage, 0, 0x5048, 0x0a00_0000))]), // std r7,0(r5): execute
    Row(0x6000_0000, None, 0x5048, 0x7048, 0, &[(0x3_2028, 0xc000_0000_0000_7182)], &[Some(Trap(InstStorage, 0x1000_0000, DAR, DSISR)), Some(Trap(InstStorage, 0x1000_0000, DAR, DSISR))]), // nop: read and write
    Row(0xe8e5_0000, None, 0x40, 0x40, 0x5048, &[(0x3_2028, 0xc000_0000_0000_7182)], &[None, None]), // ld r7,0(r5): read and write
    Row(0xf8e5_0000, None, 0x40, 0x40, 0x5048, &[(0x3_2028, 0xc000_0000_0000_7182)], &[None, None]), // std r7,0(r5): read and write
    Row(0x6000_0000, None, 0x5048, 0x7048, 0, &[(0x3_2028, 0xc000_0000_0000_7183)], &[None, None]), // nop: read and write and execute
    Row(0xe8e5_0000, None, 0x40, 0x40, 0x5048, &[(0x3_2028, 0xc000_0000_0000_7183)], &[None, None]), // ld r7,0(r5): read and write and execute
    Row(0xf8e5_0000, None, 0x40, 0x40, 0x5048, &[(0x3_2028, 0xc000_0000_0000_7183)], &[None, None]), // std r7,0(r5): read and write and execute
    Row(0x6000_0000, None, 0x5048, 0x7048, 0, &[(0x3_2028, 0xc000_0000_0000_7184)], &[Some(Trap(InstStorage, 0x1000_0000, DAR, DSISR)), Some(Trap(InstStorage, 0x1000_0000, DAR, DSISR))]), // nop: read
    Row(0xe8e5_0000, None, 0x40, 0x40, 0x5048, &[(0x3_2028, 0xc000_0000_0000_7184)], &[None, None]), // ld r7,0(r5): read
    Row(0xf8e5_0000, None, 0x40, 0x40, 0x5048, &[(0x3_2028, 0xc000_0000_0000_7184)], &[Some(Trap(DataStorage, 0, 0x5048, 0x0a00_0000)), Some(Trap(DataStorage, 0, 0x5048, 0x0a00_0000))]), // std r7,0(r5): read
    Row(0x6000_0000, None, 0x5048, 0x7048, 0, &[(0x3_2028, 0xc000_0000_0000_7185)], &[None, None]), // nop: read and execute
    Row(0xe8e5_0000, None, 0x40, 0x40, 0x5048, &[(0x3_2028, 0xc000_0000_0000_7185)], &[None, None]), // ld r7,0(r5): read and execute
    Row(0xf8e5_0000, None, 0x40, 0x40, 0x5048, &[(0x3_2028, 0xc000_0000_0000_7185)], &[Some(Trap(DataStorage, 0, 0x5048, 0x0a00_0000)), Some(Trap(DataStorage, 0, 0x5048, 0x0a00_0000))]), // std r7,0(r5): read and execute
    Row(0x6000_0000, None, 0x5048, 0x7048, 0, &[(0x3_2028, 0xc000_0000_0000_7186)], &[Some(Trap(InstStorage, 0x1000_0000, DAR, DSISR)), Some(Trap(InstStorage, 0x1000_0000, DAR, DSISR))]), // nop: read and read and write
    Row(0xe8e5_0000, None, 0x40, 0x40, 0x5048, &[(0x3_2028, 0xc000_0000_0000_7186)], &[None, None]), // ld r7,0(r5): read and read and write
    Row(0xf8e5_0000, None, 0x40, 0x40, 0x5048, &[(0x3_2028, 0xc000_0000_0000_7186)], &[None, None]), // std r7,0(r5): read and read and write
    Row(0x6000_0000, None, 0x5048, 0x7048, 0, &[(0x3_2028, 0xc000_0000_0000_7187)], &[None, None]), // nop: read and read and write and execute
    Row(0xe8e5_0000, None, 0x40, 0x40, 0x5048, &[(0x3_2028, 0xc000_0000_0000_7187)], &[None, None]), // ld r7,0(r5): read and read and write and execute
    Row(0xf8e5_0000, None, 0x40, 0x40, 0x5048, &[(0x3_2028, 0xc000_0000_0000_7187)], &[None, None]), // std r7,0(r5): read and read and write and execute
    Row(0x6000_0000, None, 0x5048, 0x7048, 0, &[(0x3_2028, 0xc000_0000_0000_7188)], &[Some(Trap(InstStorage, 0x1000_0000, DAR, DSISR)), Some(Trap(InstStorage, 0x1000_0000, DAR, DSISR))]), // nop: privileged, nothing
    Row(0xe8e5_0000, None, 0x40, 0x40, 0x5048, &[(0x3_2028, 0xc000_0000_0000_7188)], &[Some(Trap(DataStorage, 0, 0x5048, 0x0800_0000)), Some(Trap(DataStorage, 0, 0x5048, 0x0800_0000))]), // ld r7,0(r5): privileged, nothing
    Row(0xf8e5_0000, None, 0x40, 0x40, 0x5048, &[(0x3_2028, 0xc000_0000_0000_7188)], &[Some(Trap(DataStorage, 0, 0x5048, 0x0a00_0000)), Some(Trap(DataStorage, 0, 0x5048, 0x0a00_0000))]), // std r7,0(r5): privileged, nothing
    Row(0x6000_0000, None, 0x5048, 0x7048, 0, &[(0x3_2028, 0xc000_0000_0000_7189)], &[None, Some(Trap(InstStorage, 0x1000_0000, DAR, DSISR))]), // nop: privileged, execute
    Row(0xe8e5_0000, None, 0x40, 0x40, 0x5048, &[(0x3_2028, 0xc000_0000_0000_7189)], &[Some(Trap(DataStorage, 0, 0x5048, 0x0800_0000)), Some(Trap(DataStorage, 0, 0x5048, 0x0800_0000))]), // ld r7,0(r5): privileged, execute
    Row(0xf8e5_0000, None, 0x40, 0x40, 0x5048, &[(0x3_2028, 0xc000_0000_0000_7189)], &[Some(Trap(DataStorage, 0, 0x5048, 0x0a00_0000)), Some(Trap(DataStorage, 0, 0x5048, 0x0a00_0000))]), // std r7,0(r5): privileged, execute
    Row(0x6000_0000, None, 0x5048, 0x7048, 0, &[(0x3_2028, 0xc000_0000_0000_718a)], &[Some(Trap(InstStorage, 0x1000_0000, DAR, DSISR)), Some(Trap(InstStorage, 0x1000_0000, DAR, DSISR))]), // nop: privileged, read and write
    Row(0xe8e5_0000, None, 0x40, 0x40, 0x5048, &[(0x3_2028, 0xc000_0000_0000_718a)], &[None, Some(Trap(DataStorage, 0, 0x5048, 0x0800_0000))]), // ld r7,0(r5): privileged, read and write
    Row(0xf8e5_0000, None, 0x40, 0x40, 0x5048, &[(0x3_2028, 0xc000_0000_0000_718a)], &[None, Some(Trap(DataStorage, 0, 0x5048, 0x0a00_0000))]), // std r7,0(r5): privileged, read and write
    Row(0x6000_0000, None, 0x5048, 0x7048, 0, &[(0x3_2028, 0xc000_0000_0000_718b)], &[None, Some(Trap(InstStorage, 0x1000_0000, DAR, DSISR))]), // nop: privileged, read and write and execute
    Row(0xe8e5_0000, None, 0x40, 0x40, 0x5048, &[(0x3_2028, 0xc000_0000_0000_718b)], &[None, Some(Trap(DataStorage, 0, 0x5048, 0x0800_0000))]), // ld r7,0(r5): privileged, read and write and execute
    Row(0xf8e5_0000, None, 0x40, 0x40, 0x5048, &[(0x3_2028, 0xc000_0000_0000_718b)], &[None, Some(Trap(DataStorage, 0, 0x5048, 0x0a00_0000))]), // std r7,0(r5): privileged, read and write and execute
    Row(0x6000_0000, None, 0x5048, 0x7048, 0, &[(0x3_2028, 0xc000_0000_0000_718c)], &[Some(Trap(InstStorage, 0x1000_0000, DAR, DSISR)), Some(Trap(InstStorage, 0x1000_0000, DAR, DSISR))]), // nop: privileged, read
    Row(0xe8e5_0000, None, 0x40, 0x40, 0x5048, &[(0x3_2028, 0xc000_0000_0000_718c)], &[None, Some(Trap(DataStorage, 0, 0x5048, 0x0800_0000))]), // ld r7,0(r5): privileged, read
    Row(0xf8e5_0000, None, 0x40, 0x40, 0x5048, &[(0x3_2028, 0xc000_0000_0000_718c)], &[Some(Trap(DataStorage, 0, 0x5048, 0x0a00_0000)), Some(Trap(DataStorage, 0, 0x5048, 0x0a00_0000))]), // std r7,0(r5): privileged, read
    Row(0x6000_0000, None, 0x5048, 0x7048, 0, &[(0x3_2028, 0xc000_0000_0000_718d)], &[None, Some(Trap(InstStorage, 0x1000_0000, DAR, DSISR))]), // nop: privileged, read and execute
    Row(0xe8e5_0000, None, 0x40, 0x40, 0x5048, &[(0x3_2028, 0xc000_0000_0000_718d)], &[None, Some(Trap(DataStorage, 0, 0x5048, 0x0800_0000))]), // ld r7,0(r5): privileged, read and execute
    Row(0xf8e5_0000, None, 0x40, 0x40, 0x5048, &[(0x3_2028, 0xc000_0000_0000_718d)], &[Some(Trap(DataStorage, 0, 0x5048, 0x0a00_0000)), Some(Trap(DataStorage, 0, 0x5048, 0x0a00_0000))]), // std r7,0(r5): privileged, read and execute
    Row(0x6000_0000, None, 0x5048, 0x7048, 0, &[(0x3_2028, 0xc000_0000_0000_718e)], &[Some(Trap(InstStorage, 0x1000_0000, DAR, DSISR)), Some(Trap(InstStorage, 0x1000_0000, DAR, DSISR))]), // nop: privileged, read and read and write
    Row(0xe8e5_0000, None, 0x40, 0x40, 0x5048, &[(0x3_2028, 0xc000_0000_0000_718e)], &[None, Some(Trap(DataStorage, 0, 0x5048, 0x0800_0000))]), // ld r7,0(r5): privileged, read and read and write
    Row(0xf8e5_0000, None, 0x40, 0x40, 0x5048, &[(0x3_2028, 0xc000_0000_0000_718e)], &[None, Some(Trap(DataStorage, 0, 0x5048, 0x0a00_0000))]), // std r7,0(r5): privileged, read and read and write
    Row(0x6000_0000, None, 0x5048, 0x7048, 0, &[(0x3_2028, 0xc000_0000_0000_718f)], &[None, Some(Trap(InstStorage, 0x1000_0000, DAR, DSISR))]), // nop: privileged, read and read and write and execute
    Row(0xe8e5_0000, None, 0x40, 0x40, 0x5048, &[(0x3_2028, 0xc000_0000_0000_718f)], &[None, Some(Trap(DataStorage, 0, 0x5048, 0x0800_0000))]), // ld r7,0(r5): privileged, read and read and write and execute
    Row(0xf8e5_0000, None, 0x40, 0x40, 0x5048, &[(0x3_2028, 0xc000_0000_0000_718f)], &[None, Some(Trap(DataStorage, 0, 0x5048, 0x0a00_0000))]), // std r7,0(r5): privileged, read and read and write and execute
    // C isn't set
    Row(0x6000_0000, None, 0x5048, 0x7048, 0, &[(0x3_2028, 0xc000_0000_0000_7107)], &[None, None]), // nop: read and read and write and execute
    Row(0xe8e5_0000, None, 0x40, 0x40, 0x5048, &[(0x3_2028, 0xc000_0000_0000_7107)], &[None, None]), // ld r7,0(r5): read and read and write and execute
    Row(0xf8e5_0000, None, 0x40, 0x40, 0x5048, &[(0x3_2028, 0xc000_0000_0000_7107)], &[Some(Trap(DataStorage, 0, 0x5048, 0x0204_0000)), Some(Trap(DataStorage, 0, 0x5048, 0x0204_0000))]), // std r7,0(r5): read and read and write and execute
    Row(0x6000_0000, None, 0x5048, 0x7048, 0, &[(0x3_2028, 0xc000_0000_0000_710f)], &[None, Some(Trap(InstStorage, 0x1000_0000, DAR, DSISR))]), // nop: privileged, read and read and write and execute
    Row(0xe8e5_0000, None, 0x40, 0x40, 0x5048, &[(0x3_2028, 0xc000_0000_0000_710f)], &[None, Some(Trap(DataStorage, 0, 0x5048, 0x0800_0000))]), // ld r7,0(r5): privileged, read and read and write and execute
    Row(0xf8e5_0000, None, 0x40, 0x40, 0x5048, &[(0x3_2028, 0xc000_0000_0000_710f)], &[Some(Trap(DataStorage, 0, 0x5048, 0x0204_0000)), Some(Trap(DataStorage, 0, 0x5048, 0x0a00_0000))]), // std r7,0(r5): privileged, read and read and write and execute
    // R isn't set
    Row(0x6000_0000, None, 0x5048, 0x7048, 0, &[(0x3_2028, 0xc000_0000_0000_7087)], &[Some(Trap(InstStorage, 0x0004_0000, DAR, DSISR)), Some(Trap(InstStorage, 0x0004_0000, DAR, DSISR))]), // nop: read and read and write and execute
    Row(0xe8e5_0000, None, 0x40, 0x40, 0x5048, &[(0x3_2028, 0xc000_0000_0000_7087)], &[Some(Trap(DataStorage, 0, 0x5048, 0x0004_0000)), Some(Trap(DataStorage, 0, 0x5048, 0x0004_0000))]), // ld r7,0(r5): read and read and write and execute
    Row(0xf8e5_0000, None, 0x40, 0x40, 0x5048, &[(0x3_2028, 0xc000_0000_0000_7087)], &[Some(Trap(DataStorage, 0, 0x5048, 0x0204_0000)), Some(Trap(DataStorage, 0, 0x5048, 0x0204_0000))]), // std r7,0(r5): read and read and write and execute
    Row(0x6000_0000, None, 0x5048, 0x7048, 0, &[(0x3_2028, 0xc000_0000_0000_708f)], &[Some(Trap(InstStorage, 0x0004_0000, DAR, DSISR)), Some(Trap(InstStorage, 0x1000_0000, DAR, DSISR))]), // nop: privileged, read and read and write and execute
    Row(0xe8e5_0000, None, 0x40, 0x40, 0x5048, &[(0x3_2028, 0xc000_0000_0000_708f)], &[Some(Trap(DataStorage, 0, 0x5048, 0x0004_0000)), Some(Trap(DataStorage, 0, 0x5048, 0x0800_0000))]), // ld r7,0(r5): privileged, read and read and write and execute
    Row(0xf8e5_0000, None, 0x40, 0x40, 0x5048, &[(0x3_2028, 0xc000_0000_0000_708f)], &[Some(Trap(DataStorage, 0, 0x5048, 0x0204_0000)), Some(Trap(DataStorage, 0, 0x5048, 0x0a00_0000))]), // std r7,0(r5): privileged, read and read and write and execute
    // neither is set
    Row(0x6000_0000, None, 0x5048, 0x7048, 0, &[(0x3_2028, 0xc000_0000_0000_7007)], &[Some(Trap(InstStorage, 0x0004_0000, DAR, DSISR)), Some(Trap(InstStorage, 0x0004_0000, DAR, DSISR))]), // nop: read and read and write and execute
    Row(0xe8e5_0000, None, 0x40, 0x40, 0x5048, &[(0x3_2028, 0xc000_0000_0000_7007)], &[Some(Trap(DataStorage, 0, 0x5048, 0x0004_0000)), Some(Trap(DataStorage, 0, 0x5048, 0x0004_0000))]), // ld r7,0(r5): read and read and write and execute
    Row(0xf8e5_0000, None, 0x40, 0x40, 0x5048, &[(0x3_2028, 0xc000_0000_0000_7007)], &[Some(Trap(DataStorage, 0, 0x5048, 0x0204_0000)), Some(Trap(DataStorage, 0, 0x5048, 0x0204_0000))]), // std r7,0(r5): read and read and write and execute
    Row(0x6000_0000, None, 0x5048, 0x7048, 0, &[(0x3_2028, 0xc000_0000_0000_700f)], &[Some(Trap(InstStorage, 0x0004_0000, DAR, DSISR)), Some(Trap(InstStorage, 0x1000_0000, DAR, DSISR))]), // nop: privileged, read and read and write and execute
    Row(0xe8e5_0000, None, 0x40, 0x40, 0x5048, &[(0x3_2028, 0xc000_0000_0000_700f)], &[Some(Trap(DataStorage, 0, 0x5048, 0x0004_0000)), Some(Trap(DataStorage, 0, 0x5048, 0x0800_0000))]), // ld r7,0(r5): privileged, read and read and write and execute
    Row(0xf8e5_0000, None, 0x40, 0x40, 0x5048, &[(0x3_2028, 0xc000_0000_0000_700f)], &[Some(Trap(DataStorage, 0, 0x5048, 0x0204_0000)), Some(Trap(DataStorage, 0, 0x5048, 0x0a00_0000))]), // std r7,0(r5): privileged, read and read and write and execute
];

/// Each fault of a page, by a fetch, a load and a store.
#[rattlefmt::skip]
static FAULTS: [Row; 55] = [
    // segment: quadrant 1
    Row(0x6000_0000, None, 0x4000_0000_0000_5048, 0x5048, 0, &[], &[Some(Trap(InstSegment, 0, DAR, DSISR)), Some(Trap(InstSegment, 0, DAR, DSISR))]), // nop
    Row(0xe8e5_0000, None, 0x40, 0x40, 0x4000_0000_0000_5048, &[], &[Some(Trap(DataSegment, 0, 0x4000_0000_0000_5048, DSISR)), Some(Trap(DataSegment, 0, 0x4000_0000_0000_5048, DSISR))]), // ld r7,0(r5)
    Row(0xf8e5_0000, None, 0x40, 0x40, 0x4000_0000_0000_5048, &[], &[Some(Trap(DataSegment, 0, 0x4000_0000_0000_5048, DSISR)), Some(Trap(DataSegment, 0, 0x4000_0000_0000_5048, DSISR))]), // std r7,0(r5)
    // segment: quadrant 2
    Row(0x6000_0000, None, 0x8000_0000_0000_5048, 0x5048, 0, &[], &[Some(Trap(InstSegment, 0, DAR, DSISR)), Some(Trap(InstSegment, 0, DAR, DSISR))]), // nop
    Row(0xe8e5_0000, None, 0x40, 0x40, 0x8000_0000_0000_5048, &[], &[Some(Trap(DataSegment, 0, 0x8000_0000_0000_5048, DSISR)), Some(Trap(DataSegment, 0, 0x8000_0000_0000_5048, DSISR))]), // ld r7,0(r5)
    Row(0xf8e5_0000, None, 0x40, 0x40, 0x8000_0000_0000_5048, &[], &[Some(Trap(DataSegment, 0, 0x8000_0000_0000_5048, DSISR)), Some(Trap(DataSegment, 0, 0x8000_0000_0000_5048, DSISR))]), // std r7,0(r5)
    // segment: the first address behind the tree
    Row(0x6000_0000, None, 0x10_0000_0000_0000, 0, 0, &[], &[Some(Trap(InstSegment, 0, DAR, DSISR)), Some(Trap(InstSegment, 0, DAR, DSISR))]), // nop
    Row(0xe8e5_0000, None, 0x40, 0x40, 0x10_0000_0000_0000, &[], &[Some(Trap(DataSegment, 0, 0x10_0000_0000_0000, DSISR)), Some(Trap(DataSegment, 0, 0x10_0000_0000_0000, DSISR))]), // ld r7,0(r5)
    Row(0xf8e5_0000, None, 0x40, 0x40, 0x10_0000_0000_0000, &[], &[Some(Trap(DataSegment, 0, 0x10_0000_0000_0000, DSISR)), Some(Trap(DataSegment, 0, 0x10_0000_0000_0000, DSISR))]), // std r7,0(r5)
    // segment: the first address behind process 0's tree of 31 bits
    Row(0x6000_0000, None, 0xc000_0000_8000_0000, 0, 0, &[], &[Some(Trap(InstSegment, 0, DAR, DSISR)), Some(Trap(InstSegment, 0, DAR, DSISR))]), // nop
    Row(0xe8e5_0000, None, 0x40, 0x40, 0xc000_0000_8000_0000, &[], &[Some(Trap(DataSegment, 0, 0xc000_0000_8000_0000, DSISR)), Some(Trap(DataSegment, 0, 0xc000_0000_8000_0000, DSISR))]), // ld r7,0(r5)
    Row(0xf8e5_0000, None, 0x40, 0x40, 0xc000_0000_8000_0000, &[], &[Some(Trap(DataSegment, 0, 0xc000_0000_8000_0000, DSISR)), Some(Trap(DataSegment, 0, 0xc000_0000_8000_0000, DSISR))]), // std r7,0(r5)
    // no translation: no leaf
    Row(0x6000_0000, None, 0x6048, 0x6048, 0, &[], &[Some(Trap(InstStorage, 0x4000_0000, DAR, DSISR)), Some(Trap(InstStorage, 0x4000_0000, DAR, DSISR))]), // nop
    Row(0xe8e5_0000, None, 0x40, 0x40, 0x6048, &[], &[Some(Trap(DataStorage, 0, 0x6048, 0x4000_0000)), Some(Trap(DataStorage, 0, 0x6048, 0x4000_0000))]), // ld r7,0(r5)
    Row(0xf8e5_0000, None, 0x40, 0x40, 0x6048, &[], &[Some(Trap(DataStorage, 0, 0x6048, 0x4200_0000)), Some(Trap(DataStorage, 0, 0x6048, 0x4200_0000))]), // std r7,0(r5)
    // no translation: no directory
    Row(0x6000_0000, None, 0x20_5048, 0x20_5048, 0, &[], &[Some(Trap(InstStorage, 0x4000_0000, DAR, DSISR)), Some(Trap(InstStorage, 0x4000_0000, DAR, DSISR))]), // nop
    Row(0xe8e5_0000, None, 0x40, 0x40, 0x20_5048, &[], &[Some(Trap(DataStorage, 0, 0x20_5048, 0x4000_0000)), Some(Trap(DataStorage, 0, 0x20_5048, 0x4000_0000))]), // ld r7,0(r5)
    Row(0xf8e5_0000, None, 0x40, 0x40, 0x20_5048, &[], &[Some(Trap(DataStorage, 0, 0x20_5048, 0x4200_0000)), Some(Trap(DataStorage, 0, 0x20_5048, 0x4200_0000))]), // std r7,0(r5)
    // no translation: nothing in the root
    Row(0x6000_0000, None, 0x80_0000_5048, 0x5048, 0, &[], &[Some(Trap(InstStorage, 0x4000_0000, DAR, DSISR)), Some(Trap(InstStorage, 0x4000_0000, DAR, DSISR))]), // nop
    Row(0xe8e5_0000, None, 0x40, 0x40, 0x80_0000_5048, &[], &[Some(Trap(DataStorage, 0, 0x80_0000_5048, 0x4000_0000)), Some(Trap(DataStorage, 0, 0x80_0000_5048, 0x4000_0000))]), // ld r7,0(r5)
    Row(0xf8e5_0000, None, 0x40, 0x40, 0x80_0000_5048, &[], &[Some(Trap(DataStorage, 0, 0x80_0000_5048, 0x4200_0000)), Some(Trap(DataStorage, 0, 0x80_0000_5048, 0x4200_0000))]), // std r7,0(r5)
    // no translation: a leaf whose bit 0 is 0
    Row(0x6000_0000, None, 0x5048, 0x5048, 0, &[(0x3_2028, 0x4000_0000_0000_5187)], &[Some(Trap(InstStorage, 0x4000_0000, DAR, DSISR)), Some(Trap(InstStorage, 0x4000_0000, DAR, DSISR))]), // nop
    Row(0xe8e5_0000, None, 0x40, 0x40, 0x5048, &[(0x3_2028, 0x4000_0000_0000_5187)], &[Some(Trap(DataStorage, 0, 0x5048, 0x4000_0000)), Some(Trap(DataStorage, 0, 0x5048, 0x4000_0000))]), // ld r7,0(r5)
    Row(0xf8e5_0000, None, 0x40, 0x40, 0x5048, &[(0x3_2028, 0x4000_0000_0000_5187)], &[Some(Trap(DataStorage, 0, 0x5048, 0x4200_0000)), Some(Trap(DataStorage, 0, 0x5048, 0x4200_0000))]), // std r7,0(r5)
    // not permitted: everything else is
    Row(0x6000_0000, None, 0x5048, 0x5048, 0, &[(0x3_2028, 0xc000_0000_0000_5186)], &[Some(Trap(InstStorage, 0x1000_0000, DAR, DSISR)), Some(Trap(InstStorage, 0x1000_0000, DAR, DSISR))]), // nop
    Row(0xe8e5_0000, None, 0x40, 0x40, 0x5048, &[(0x3_2028, 0xc000_0000_0000_5181)], &[Some(Trap(DataStorage, 0, 0x5048, 0x0800_0000)), Some(Trap(DataStorage, 0, 0x5048, 0x0800_0000))]), // ld r7,0(r5)
    Row(0xf8e5_0000, None, 0x40, 0x40, 0x5048, &[(0x3_2028, 0xc000_0000_0000_5185)], &[Some(Trap(DataStorage, 0, 0x5048, 0x0a00_0000)), Some(Trap(DataStorage, 0, 0x5048, 0x0a00_0000))]), // std r7,0(r5)
    // not permitted: a privileged page of 2 MiB
    Row(0x6000_0000, None, 0x20_5048, 0x40_5048, 0, &[(0x3_1008, 0xc000_0000_0040_018f)], &[None, Some(Trap(InstStorage, 0x1000_0000, DAR, DSISR))]), // nop
    Row(0xe8e5_0000, None, 0x40, 0x40, 0x20_5048, &[(0x3_1008, 0xc000_0000_0040_018f)], &[None, Some(Trap(DataStorage, 0, 0x20_5048, 0x0800_0000))]), // ld r7,0(r5)
    Row(0xf8e5_0000, None, 0x40, 0x40, 0x20_5048, &[(0x3_1008, 0xc000_0000_0040_018f)], &[None, Some(Trap(DataStorage, 0, 0x20_5048, 0x0a00_0000))]), // std r7,0(r5)
    // bad tree: a level of four bits
    Row(0x6000_0000, None, 0x20_5048, 0x20_5048, 0, &[(0x3_1008, 0x8000_0000_0003_3004)], &[Some(Trap(InstStorage, 0x0008_0000, DAR, DSISR)), Some(Trap(InstStorage, 0x0008_0000, DAR, DSISR))]), // nop
    Row(0xe8e5_0000, None, 0x40, 0x40, 0x20_5048, &[(0x3_1008, 0x8000_0000_0003_3004)], &[Some(Trap(DataStorage, 0, 0x20_5048, 0x0008_0000)), Some(Trap(DataStorage, 0, 0x20_5048, 0x0008_0000))]), // ld r7,0(r5)
    Row(0xf8e5_0000, None, 0x40, 0x40, 0x20_5048, &[(0x3_1008, 0x8000_0000_0003_3004)], &[Some(Trap(DataStorage, 0, 0x20_5048, 0x0208_0000)), Some(Trap(DataStorage, 0, 0x20_5048, 0x0208_0000))]), // std r7,0(r5)
    // bad tree: a level of 17 bits
    Row(0x6000_0000, None, 0x20_5048, 0x20_5048, 0, &[(0x3_1008, 0x8000_0000_0003_3011)], &[Some(Trap(InstStorage, 0x0008_0000, DAR, DSISR)), Some(Trap(InstStorage, 0x0008_0000, DAR, DSISR))]), // nop
    Row(0xe8e5_0000, None, 0x40, 0x40, 0x20_5048, &[(0x3_1008, 0x8000_0000_0003_3011)], &[Some(Trap(DataStorage, 0, 0x20_5048, 0x0008_0000)), Some(Trap(DataStorage, 0, 0x20_5048, 0x0008_0000))]), // ld r7,0(r5)
    Row(0xf8e5_0000, None, 0x40, 0x40, 0x20_5048, &[(0x3_1008, 0x8000_0000_0003_3011)], &[Some(Trap(DataStorage, 0, 0x20_5048, 0x0208_0000)), Some(Trap(DataStorage, 0, 0x20_5048, 0x0208_0000))]), // std r7,0(r5)
    // bad tree: a leaf of 2 KiB
    Row(0x6000_0000, None, 0x20_5048, 0x20_5048, 0, &[(0x3_1008, 0x8000_0000_0003_300a), (0x3_3050, 0xc000_0000_0000_5187)], &[Some(Trap(InstStorage, 0x0008_0000, DAR, DSISR)), Some(Trap(InstStorage, 0x0008_0000, DAR, DSISR))]), // nop
    Row(0xe8e5_0000, None, 0x40, 0x40, 0x20_5048, &[(0x3_1008, 0x8000_0000_0003_300a), (0x3_3050, 0xc000_0000_0000_5187)], &[Some(Trap(DataStorage, 0, 0x20_5048, 0x0008_0000)), Some(Trap(DataStorage, 0, 0x20_5048, 0x0008_0000))]), // ld r7,0(r5)
    Row(0xf8e5_0000, None, 0x40, 0x40, 0x20_5048, &[(0x3_1008, 0x8000_0000_0003_300a), (0x3_3050, 0xc000_0000_0000_5187)], &[Some(Trap(DataStorage, 0, 0x20_5048, 0x0208_0000)), Some(Trap(DataStorage, 0, 0x20_5048, 0x0208_0000))]), // std r7,0(r5)
    // bad tree: a root of no bits, process 0's
    Row(0x6000_0000, None, 0xc000_0000_0000_5048, 0x5048, 0, &[], &[Some(Trap(InstStorage, 0x0008_0000, DAR, DSISR)), Some(Trap(InstStorage, 0x0008_0000, DAR, DSISR))]), // nop
    Row(0xe8e5_0000, None, 0x40, 0x40, 0xc000_0000_0000_5048, &[], &[Some(Trap(DataStorage, 0, 0xc000_0000_0000_5048, 0x0008_0000)), Some(Trap(DataStorage, 0, 0xc000_0000_0000_5048, 0x0008_0000))]), // ld r7,0(r5)
    Row(0xf8e5_0000, None, 0x40, 0x40, 0xc000_0000_0000_5048, &[], &[Some(Trap(DataStorage, 0, 0xc000_0000_0000_5048, 0x0208_0000)), Some(Trap(DataStorage, 0, 0xc000_0000_0000_5048, 0x0208_0000))]), // std r7,0(r5)
    // reference or change: a page without R
    Row(0x6000_0000, None, 0x5048, 0x5048, 0, &[(0x3_2028, 0xc000_0000_0000_5087)], &[Some(Trap(InstStorage, 0x0004_0000, DAR, DSISR)), Some(Trap(InstStorage, 0x0004_0000, DAR, DSISR))]), // nop
    Row(0xe8e5_0000, None, 0x40, 0x40, 0x5048, &[(0x3_2028, 0xc000_0000_0000_5087)], &[Some(Trap(DataStorage, 0, 0x5048, 0x0004_0000)), Some(Trap(DataStorage, 0, 0x5048, 0x0004_0000))]), // ld r7,0(r5)
    Row(0xf8e5_0000, None, 0x40, 0x40, 0x5048, &[(0x3_2028, 0xc000_0000_0000_5087)], &[Some(Trap(DataStorage, 0, 0x5048, 0x0204_0000)), Some(Trap(DataStorage, 0, 0x5048, 0x0204_0000))]), // std r7,0(r5)
    // reference or change: a page without C
    Row(0x6000_0000, None, 0x5048, 0x5048, 0, &[(0x3_2028, 0xc000_0000_0000_5107)], &[None, None]), // nop
    Row(0xe8e5_0000, None, 0x40, 0x40, 0x5048, &[(0x3_2028, 0xc000_0000_0000_5107)], &[None, None]), // ld r7,0(r5)
    Row(0xf8e5_0000, None, 0x40, 0x40, 0x5048, &[(0x3_2028, 0xc000_0000_0000_5107)], &[Some(Trap(DataStorage, 0, 0x5048, 0x0204_0000)), Some(Trap(DataStorage, 0, 0x5048, 0x0204_0000))]), // std r7,0(r5)
    // no fault: quadrant 3 is process 0
    Row(0x6000_0000, None, 0xc000_0000_0000_5048, 0x7048, 0, &[(0x1_0000, 0x4000_0000_0002_00ad), (0x3_2028, 0xc000_0000_0000_7187)], &[None, None]), // nop
    Row(0xe8e5_0000, None, 0x40, 0x40, 0xc000_0000_0000_5048, &[(0x1_0000, 0x4000_0000_0002_00ad), (0x3_2028, 0xc000_0000_0000_7187)], &[None, None]), // ld r7,0(r5)
    Row(0xf8e5_0000, None, 0x40, 0x40, 0xc000_0000_0000_5048, &[(0x1_0000, 0x4000_0000_0002_00ad), (0x3_2028, 0xc000_0000_0000_7187)], &[None, None]), // std r7,0(r5)
    // a page behind RAM and one of the UART: a fetch finds all ones, which is a floating-point word
    Row(0xffff_ffff, None, 0x5000, 0x100_0000, 0, &[(0x3_2028, 0xc000_0000_0100_0187)], &[Some(Trap(FpUnavailable, 0, DAR, DSISR)), Some(Trap(FpUnavailable, 0, DAR, DSISR))]), // .long 0xffffffff: behind RAM
    Row(0xe8e5_0000, None, 0x40, 0x40, 0x5048, &[(0x3_2028, 0xc000_0000_0100_0187)], &[None, None]), // ld r7,0(r5)
    Row(0xf8e5_0000, None, 0x40, 0x40, 0x5048, &[(0x3_2028, 0xc000_0000_0100_0187)], &[None, None]), // std r7,0(r5)
    Row(0xffff_ffff, None, 0x5000, 0x100_0000, 0, &[(0x3_2028, 0xc000_0000_c000_2187)], &[Some(Trap(FpUnavailable, 0, DAR, DSISR)), Some(Trap(FpUnavailable, 0, DAR, DSISR))]), // .long 0xffffffff: the UART
];

/// Accesses of other kinds, by their pages.
#[rattlefmt::skip]
static ACCESSES: [Row; 42] = [
    // a page that is privileged, read and written
    Row(0x88e5_0000, None, 0x40, 0x40, 0x5048, &[(0x3_2028, 0xc000_0000_0000_518e)], &[None, Some(Trap(DataStorage, 0, 0x5048, 0x0800_0000))]), // lbz r7,0(r5)
    Row(0xa8e5_0000, None, 0x40, 0x40, 0x5048, &[(0x3_2028, 0xc000_0000_0000_518e)], &[None, Some(Trap(DataStorage, 0, 0x5048, 0x0800_0000))]), // lha r7,0(r5)
    Row(0x84e5_0000, None, 0x40, 0x40, 0x5048, &[(0x3_2028, 0xc000_0000_0000_518e)], &[None, Some(Trap(DataStorage, 0, 0x5048, 0x0800_0000))]), // lwzu r7,0(r5)
    Row(0x7ce0_2aaa, None, 0x40, 0x40, 0x5048, &[(0x3_2028, 0xc000_0000_0000_518e)], &[None, Some(Trap(DataStorage, 0, 0x5048, 0x0800_0000))]), // lwax r7,0,r5
    Row(0x7ce0_2c28, None, 0x40, 0x40, 0x5048, &[(0x3_2028, 0xc000_0000_0000_518e)], &[None, Some(Trap(DataStorage, 0, 0x5048, 0x0800_0000))]), // ldbrx r7,0,r5
    Row(0x7ce0_2828, None, 0x40, 0x40, 0x5048, &[(0x3_2028, 0xc000_0000_0000_518e)], &[None, Some(Trap(DataStorage, 0, 0x5048, 0x0800_0000))]), // lwarx r7,0,r5
    Row(0x7ce0_28a8, None, 0x40, 0x40, 0x5048, &[(0x3_2028, 0xc000_0000_0000_518e)], &[None, Some(Trap(DataStorage, 0, 0x5048, 0x0800_0000))]), // ldarx r7,0,r5
    Row(0x7c00_286c, None, 0x40, 0x40, 0x5048, &[(0x3_2028, 0xc000_0000_0000_518e)], &[None, Some(Trap(DataStorage, 0, 0x5048, 0x0800_0000))]), // dcbst 0,r5
    Row(0x7c00_28ac, None, 0x40, 0x40, 0x5048, &[(0x3_2028, 0xc000_0000_0000_518e)], &[None, Some(Trap(DataStorage, 0, 0x5048, 0x0800_0000))]), // dcbf 0,r5
    Row(0x7c00_2fac, None, 0x40, 0x40, 0x5048, &[(0x3_2028, 0xc000_0000_0000_518e)], &[None, Some(Trap(DataStorage, 0, 0x5048, 0x0800_0000))]), // icbi 0,r5
    Row(0x98e5_0000, None, 0x40, 0x40, 0x5048, &[(0x3_2028, 0xc000_0000_0000_518e)], &[None, Some(Trap(DataStorage, 0, 0x5048, 0x0a00_0000))]), // stb r7,0(r5)
    Row(0x7ce0_2b2e, None, 0x40, 0x40, 0x5048, &[(0x3_2028, 0xc000_0000_0000_518e)], &[None, Some(Trap(DataStorage, 0, 0x5048, 0x0a00_0000))]), // sthx r7,0,r5
    Row(0x94e5_0000, None, 0x40, 0x40, 0x5048, &[(0x3_2028, 0xc000_0000_0000_518e)], &[None, Some(Trap(DataStorage, 0, 0x5048, 0x0a00_0000))]), // stwu r7,0(r5)
    Row(0x7ce0_2d28, None, 0x40, 0x40, 0x5048, &[(0x3_2028, 0xc000_0000_0000_518e)], &[None, Some(Trap(DataStorage, 0, 0x5048, 0x0a00_0000))]), // stdbrx r7,0,r5
    Row(0x7ce0_292d, None, 0x40, 0x40, 0x5048, &[(0x3_2028, 0xc000_0000_0000_518e)], &[None, Some(Trap(DataStorage, 0, 0x5048, 0x0a00_0000))]), // stwcx. r7,0,r5
    Row(0x7ce0_29ad, None, 0x40, 0x40, 0x5048, &[(0x3_2028, 0xc000_0000_0000_518e)], &[None, Some(Trap(DataStorage, 0, 0x5048, 0x0a00_0000))]), // stdcx. r7,0,r5
    Row(0x7c00_2fec, None, 0x40, 0x40, 0x5048, &[(0x3_2028, 0xc000_0000_0000_518e)], &[None, Some(Trap(DataStorage, 0, 0x5040, 0x0a00_0000))]), // dcbz 0,r5
    Row(0x7c00_2a2c, None, 0x40, 0x40, 0x5048, &[(0x3_2028, 0xc000_0000_0000_518e)], &[None, None]), // dcbt 0,r5
    Row(0x7c00_29ec, None, 0x40, 0x40, 0x5048, &[(0x3_2028, 0xc000_0000_0000_518e)], &[None, None]), // dcbtst 0,r5
    Row(0x7ce0_2e2a, None, 0x40, 0x40, 0x5048, &[(0x3_2028, 0xc000_0000_0000_518e)], &[None, PRIVILEGED]), // lwzcix r7,0,r5
    Row(0x7ce0_2f2a, None, 0x40, 0x40, 0x5048, &[(0x3_2028, 0xc000_0000_0000_518e)], &[None, PRIVILEGED]), // stwcix r7,0,r5
    // a page without a leaf
    Row(0x7ce0_2828, None, 0x40, 0x40, 0x6048, &[], &[Some(Trap(DataStorage, 0, 0x6048, 0x4000_0000)), Some(Trap(DataStorage, 0, 0x6048, 0x4000_0000))]), // lwarx r7,0,r5
    Row(0x7c00_286c, None, 0x40, 0x40, 0x6048, &[], &[Some(Trap(DataStorage, 0, 0x6048, 0x4000_0000)), Some(Trap(DataStorage, 0, 0x6048, 0x4000_0000))]), // dcbst 0,r5
    Row(0x7c00_28ac, None, 0x40, 0x40, 0x6048, &[], &[Some(Trap(DataStorage, 0, 0x6048, 0x4000_0000)), Some(Trap(DataStorage, 0, 0x6048, 0x4000_0000))]), // dcbf 0,r5
    Row(0x7c00_2fac, None, 0x40, 0x40, 0x6048, &[], &[Some(Trap(DataStorage, 0, 0x6048, 0x4000_0000)), Some(Trap(DataStorage, 0, 0x6048, 0x4000_0000))]), // icbi 0,r5
    Row(0x7ce0_29ad, None, 0x40, 0x40, 0x6048, &[], &[Some(Trap(DataStorage, 0, 0x6048, 0x4200_0000)), Some(Trap(DataStorage, 0, 0x6048, 0x4200_0000))]), // stdcx. r7,0,r5
    Row(0x7c00_2fec, None, 0x40, 0x40, 0x6048, &[], &[Some(Trap(DataStorage, 0, 0x6040, 0x4200_0000)), Some(Trap(DataStorage, 0, 0x6040, 0x4200_0000))]), // dcbz 0,r5
    Row(0x7c00_2a2c, None, 0x40, 0x40, 0x6048, &[], &[None, None]), // dcbt 0,r5
    Row(0x7c00_29ec, None, 0x40, 0x40, 0x6048, &[], &[None, None]), // dcbtst 0,r5
    // the second of two pages is privileged, or both are
    Row(0xe8e5_0000, None, 0x40, 0x40, 0x5ffc, &[(0x3_2030, 0xc000_0000_0000_618e)], &[None, Some(Trap(DataStorage, 0, 0x6000, 0x0800_0000))]), // ld r7,0(r5)
    Row(0xe8e5_0000, None, 0x40, 0x40, 0x5ffc, &[(0x3_2028, 0xc000_0000_0000_518e), (0x3_2030, 0xc000_0000_0000_618e)], &[None, Some(Trap(DataStorage, 0, 0x5ffc, 0x0800_0000))]), // ld r7,0(r5)
    Row(0xf8e5_0000, None, 0x40, 0x40, 0x5ffc, &[(0x3_2030, 0xc000_0000_0000_618e)], &[None, Some(Trap(DataStorage, 0, 0x6000, 0x0a00_0000))]), // std r7,0(r5)
    Row(0xf8e5_0000, None, 0x40, 0x40, 0x5ffc, &[(0x3_2028, 0xc000_0000_0000_518e), (0x3_2030, 0xc000_0000_0000_618e)], &[None, Some(Trap(DataStorage, 0, 0x5ffc, 0x0a00_0000))]), // std r7,0(r5)
    // the second has no leaf, and the first is privileged: the first that faults
    Row(0xe8e5_0000, None, 0x40, 0x40, 0x5ffc, &[(0x3_2028, 0xc000_0000_0000_518e)], &[Some(Trap(DataStorage, 0, 0x6000, 0x4000_0000)), Some(Trap(DataStorage, 0, 0x5ffc, 0x0800_0000))]), // ld r7,0(r5)
    Row(0xf8e5_0000, None, 0x40, 0x40, 0x5ffc, &[(0x3_2028, 0xc000_0000_0000_518e)], &[Some(Trap(DataStorage, 0, 0x6000, 0x4200_0000)), Some(Trap(DataStorage, 0, 0x5ffc, 0x0a00_0000))]), // std r7,0(r5)
    // a reservation that isn't aligned is seen before its page, and an access behind RAM that isn't behind it
    Row(0x7ce0_2828, None, 0x40, 0x40, 0x504a, &[(0x3_2028, 0xc000_0000_0000_518e)], &[Some(Trap(Alignment, 0, 0x504a, DSISR)), Some(Trap(Alignment, 0, 0x504a, DSISR))]), // lwarx r7,0,r5
    Row(0x7ce0_292d, None, 0x40, 0x40, 0x504a, &[(0x3_2028, 0xc000_0000_0000_518e)], &[Some(Trap(Alignment, 0, 0x504a, DSISR)), Some(Trap(Alignment, 0, 0x504a, DSISR))]), // stwcx. r7,0,r5
    Row(0x80e5_0000, None, 0x40, 0x40, 0x504a, &[(0x3_2028, 0xc000_0000_0100_018e)], &[Some(Trap(Alignment, 0, 0x504a, DSISR)), Some(Trap(DataStorage, 0, 0x504a, 0x0800_0000))]), // lwz r7,0(r5)
    Row(0x90e5_0000, None, 0x40, 0x40, 0x504a, &[(0x3_2028, 0xc000_0000_0100_018e)], &[Some(Trap(Alignment, 0, 0x504a, DSISR)), Some(Trap(DataStorage, 0, 0x504a, 0x0a00_0000))]), // stw r7,0(r5)
    Row(0x7c00_2fec, None, 0x40, 0x40, 0x5048, &[(0x3_2028, 0xc000_0000_0100_018e)], &[Some(Trap(Alignment, 0, 0x5048, DSISR)), Some(Trap(DataStorage, 0, 0x5040, 0x0a00_0000))]), // dcbz 0,r5
    Row(0x7c00_2fec, None, 0x40, 0x40, 0x5048, &[(0x3_2028, 0xc000_0000_0100_0186)], &[Some(Trap(Alignment, 0, 0x5048, DSISR)), Some(Trap(Alignment, 0, 0x5048, DSISR))]), // dcbz 0,r5
    Row(0x7ce0_28a8, None, 0x40, 0x40, 0x5048, &[(0x3_2028, 0xc000_0000_0100_0186)], &[Some(Trap(Alignment, 0, 0x5048, DSISR)), Some(Trap(Alignment, 0, 0x5048, DSISR))]), // ldarx r7,0,r5
];

/// Prefixed instructions: bit 34 of SRR1 stands beside each cause, unless it is the fetch that faults.
#[rattlefmt::skip]
static PREFIXED: [Row; 55] = [
    // no fault; a suffix of pnop isn't an instruction, whatever it is
    Row(0x0600_0000, Some(0x38e0_0005), 0x40, 0x40, 0x5048, &[], &[None, None]), // paddi r7,0,5,0
    Row(0x0700_0000, Some(0x7ce0_00a6), 0x40, 0x40, 0x5048, &[], &[None, None]), // pnop: with the word of mfmsr r7
    Row(0x0700_0000, Some(0x4c00_0024), 0x40, 0x40, 0x5048, &[], &[None, None]), // pnop: with the word of rfid
    Row(0x0400_0000, Some(0xe4e5_0000), 0x40, 0x40, 0x5048, &[], &[None, None]), // pld r7,0(r5),0
    Row(0x0600_0000, Some(0x80e5_0000), 0x40, 0x40, 0x5048, &[], &[None, None]), // plwz r7,0(r5),0
    Row(0x0400_0000, Some(0xf4e5_0000), 0x40, 0x40, 0x5048, &[], &[None, None]), // pstd r7,0(r5),0
    Row(0x0600_0000, Some(0x98e5_0000), 0x40, 0x40, 0x5048, &[], &[None, None]), // pstb r7,0(r5),0
    // no prefix makes a privileged row: illegal, unavailable, cut
    Row(0x0600_0000, Some(0x7ce0_00a6), 0x40, 0x40, 0x5048, &[], &[Some(Trap(Program, 0x2008_0000, DAR, DSISR)), Some(Trap(Program, 0x2008_0000, DAR, DSISR))]), // .long 0x06000000,0x7ce000a6: the word of mfmsr r7
    Row(0x0400_0000, Some(0xc003_0000), 0x40, 0x40, 0x5048, &[], &[Some(Trap(Program, 0x2008_0000, DAR, DSISR)), Some(Trap(Program, 0x2008_0000, DAR, DSISR))]), // .long 0x04000000,0xc0030000
    Row(0x0700_0001, Some(0x6000_0000), 0x40, 0x40, 0x5048, &[], &[Some(Trap(Program, 0x2008_0000, DAR, DSISR)), Some(Trap(Program, 0x2008_0000, DAR, DSISR))]), // .long 0x07000001,0x60000000
    Row(0x0610_0000, Some(0x38e5_0000), 0x40, 0x40, 0x5048, &[], &[Some(Trap(Program, 0x2008_0000, DAR, DSISR)), Some(Trap(Program, 0x2008_0000, DAR, DSISR))]), // .long 0x06100000,0x38e50000: R=1 with RA
    Row(0x0600_0000, Some(0xc003_0000), 0x40, 0x40, 0x5048, &[], &[Some(Trap(FpUnavailable, 0x2000_0000, DAR, DSISR)), Some(Trap(FpUnavailable, 0x2000_0000, DAR, DSISR))]), // .long 0x06000000,0xc0030000
    Row(0x0600_0000, Some(0x38e0_0005), 0x7c, 0x7c, 0x5048, &[], &[Some(Trap(Alignment, 0x3000_0000, DAR, DSISR)), Some(Trap(Alignment, 0x3000_0000, DAR, DSISR))]), // paddi r7,0,5,0
    Row(0x0500_0000, Some(0x6000_0000), 0x7c, 0x7c, 0x5048, &[], &[Some(Trap(Alignment, 0x3000_0000, DAR, DSISR)), Some(Trap(Alignment, 0x3000_0000, DAR, DSISR))]), // .long 0x05000000,0x60000000
    Row(0x0600_0000, Some(0x38e0_0005), 0x503c, 0x703c, 0, &[(0x3_2028, 0xc000_0000_0000_7187)], &[Some(Trap(Alignment, 0x3000_0000, DAR, DSISR)), Some(Trap(Alignment, 0x3000_0000, DAR, DSISR))]), // paddi r7,0,5,0
    Row(0x0600_0000, Some(0x38e0_0005), 0x5038, 0x7038, 0, &[(0x3_2028, 0xc000_0000_0000_7187)], &[None, None]), // paddi r7,0,5,0
    // a segment
    Row(0x0400_0000, Some(0xe4e5_0000), 0x40, 0x40, 0x4000_0000_0000_5048, &[], &[Some(Trap(DataSegment, 0x2000_0000, 0x4000_0000_0000_5048, DSISR)), Some(Trap(DataSegment, 0x2000_0000, 0x4000_0000_0000_5048, DSISR))]), // pld r7,0(r5),0
    Row(0x0600_0000, Some(0xa0e5_0000), 0x40, 0x40, 0x4000_0000_0000_5048, &[], &[Some(Trap(DataSegment, 0x2000_0000, 0x4000_0000_0000_5048, DSISR)), Some(Trap(DataSegment, 0x2000_0000, 0x4000_0000_0000_5048, DSISR))]), // plhz r7,0(r5),0
    Row(0x0400_0000, Some(0xf4e5_0000), 0x40, 0x40, 0x4000_0000_0000_5048, &[], &[Some(Trap(DataSegment, 0x2000_0000, 0x4000_0000_0000_5048, DSISR)), Some(Trap(DataSegment, 0x2000_0000, 0x4000_0000_0000_5048, DSISR))]), // pstd r7,0(r5),0
    Row(0x0600_0000, Some(0x90e5_0000), 0x40, 0x40, 0x4000_0000_0000_5048, &[], &[Some(Trap(DataSegment, 0x2000_0000, 0x4000_0000_0000_5048, DSISR)), Some(Trap(DataSegment, 0x2000_0000, 0x4000_0000_0000_5048, DSISR))]), // pstw r7,0(r5),0
    // no translation
    Row(0x0400_0000, Some(0xe4e5_0000), 0x40, 0x40, 0x6048, &[], &[Some(Trap(DataStorage, 0x2000_0000, 0x6048, 0x4000_0000)), Some(Trap(DataStorage, 0x2000_0000, 0x6048, 0x4000_0000))]), // pld r7,0(r5),0
    Row(0x0600_0000, Some(0xa0e5_0000), 0x40, 0x40, 0x6048, &[], &[Some(Trap(DataStorage, 0x2000_0000, 0x6048, 0x4000_0000)), Some(Trap(DataStorage, 0x2000_0000, 0x6048, 0x4000_0000))]), // plhz r7,0(r5),0
    Row(0x0400_0000, Some(0xf4e5_0000), 0x40, 0x40, 0x6048, &[], &[Some(Trap(DataStorage, 0x2000_0000, 0x6048, 0x4200_0000)), Some(Trap(DataStorage, 0x2000_0000, 0x6048, 0x4200_0000))]), // pstd r7,0(r5),0
    Row(0x0600_0000, Some(0x90e5_0000), 0x40, 0x40, 0x6048, &[], &[Some(Trap(DataStorage, 0x2000_0000, 0x6048, 0x4200_0000)), Some(Trap(DataStorage, 0x2000_0000, 0x6048, 0x4200_0000))]), // pstw r7,0(r5),0
    // not permitted, for a store
    Row(0x0400_0000, Some(0xe4e5_0000), 0x40, 0x40, 0x5048, &[(0x3_2028, 0xc000_0000_0000_5184)], &[None, None]), // pld r7,0(r5),0
    Row(0x0400_0000, Some(0xf4e5_0000), 0x40, 0x40, 0x5048, &[(0x3_2028, 0xc000_0000_0000_5184)], &[Some(Trap(DataStorage, 0x2000_0000, 0x5048, 0x0a00_0000)), Some(Trap(DataStorage, 0x2000_0000, 0x5048, 0x0a00_0000))]), // pstd r7,0(r5),0
    // a privileged page
    Row(0x0400_0000, Some(0xe4e5_0000), 0x40, 0x40, 0x5048, &[(0x3_2028, 0xc000_0000_0000_518e)], &[None, Some(Trap(DataStorage, 0x2000_0000, 0x5048, 0x0800_0000))]), // pld r7,0(r5),0
    Row(0x0600_0000, Some(0xa0e5_0000), 0x40, 0x40, 0x5048, &[(0x3_2028, 0xc000_0000_0000_518e)], &[None, Some(Trap(DataStorage, 0x2000_0000, 0x5048, 0x0800_0000))]), // plhz r7,0(r5),0
    Row(0x0400_0000, Some(0xf4e5_0000), 0x40, 0x40, 0x5048, &[(0x3_2028, 0xc000_0000_0000_518e)], &[None, Some(Trap(DataStorage, 0x2000_0000, 0x5048, 0x0a00_0000))]), // pstd r7,0(r5),0
    Row(0x0600_0000, Some(0x90e5_0000), 0x40, 0x40, 0x5048, &[(0x3_2028, 0xc000_0000_0000_518e)], &[None, Some(Trap(DataStorage, 0x2000_0000, 0x5048, 0x0a00_0000))]), // pstw r7,0(r5),0
    // a bad tree
    Row(0x0400_0000, Some(0xe4e5_0000), 0x40, 0x40, 0x20_5048, &[(0x3_1008, 0x8000_0000_0003_3004)], &[Some(Trap(DataStorage, 0x2000_0000, 0x20_5048, 0x0008_0000)), Some(Trap(DataStorage, 0x2000_0000, 0x20_5048, 0x0008_0000))]), // pld r7,0(r5),0
    Row(0x0600_0000, Some(0xa0e5_0000), 0x40, 0x40, 0x20_5048, &[(0x3_1008, 0x8000_0000_0003_3004)], &[Some(Trap(DataStorage, 0x2000_0000, 0x20_5048, 0x0008_0000)), Some(Trap(DataStorage, 0x2000_0000, 0x20_5048, 0x0008_0000))]), // plhz r7,0(r5),0
    Row(0x0400_0000, Some(0xf4e5_0000), 0x40, 0x40, 0x20_5048, &[(0x3_1008, 0x8000_0000_0003_3004)], &[Some(Trap(DataStorage, 0x2000_0000, 0x20_5048, 0x0208_0000)), Some(Trap(DataStorage, 0x2000_0000, 0x20_5048, 0x0208_0000))]), // pstd r7,0(r5),0
    Row(0x0600_0000, Some(0x90e5_0000), 0x40, 0x40, 0x20_5048, &[(0x3_1008, 0x8000_0000_0003_3004)], &[Some(Trap(DataStorage, 0x2000_0000, 0x20_5048, 0x0208_0000)), Some(Trap(DataStorage, 0x2000_0000, 0x20_5048, 0x0208_0000))]), // pstw r7,0(r5),0
    // a page without R
    Row(0x0400_0000, Some(0xe4e5_0000), 0x40, 0x40, 0x5048, &[(0x3_2028, 0xc000_0000_0000_5087)], &[Some(Trap(DataStorage, 0x2000_0000, 0x5048, 0x0004_0000)), Some(Trap(DataStorage, 0x2000_0000, 0x5048, 0x0004_0000))]), // pld r7,0(r5),0
    Row(0x0600_0000, Some(0xa0e5_0000), 0x40, 0x40, 0x5048, &[(0x3_2028, 0xc000_0000_0000_5087)], &[Some(Trap(DataStorage, 0x2000_0000, 0x5048, 0x0004_0000)), Some(Trap(DataStorage, 0x2000_0000, 0x5048, 0x0004_0000))]), // plhz r7,0(r5),0
    Row(0x0400_0000, Some(0xf4e5_0000), 0x40, 0x40, 0x5048, &[(0x3_2028, 0xc000_0000_0000_5087)], &[Some(Trap(DataStorage, 0x2000_0000, 0x5048, 0x0204_0000)), Some(Trap(DataStorage, 0x2000_0000, 0x5048, 0x0204_0000))]), // pstd r7,0(r5),0
    Row(0x0600_0000, Some(0x90e5_0000), 0x40, 0x40, 0x5048, &[(0x3_2028, 0xc000_0000_0000_5087)], &[Some(Trap(DataStorage, 0x2000_0000, 0x5048, 0x0204_0000)), Some(Trap(DataStorage, 0x2000_0000, 0x5048, 0x0204_0000))]), // pstw r7,0(r5),0
    // a page without C
    Row(0x0400_0000, Some(0xe4e5_0000), 0x40, 0x40, 0x5048, &[(0x3_2028, 0xc000_0000_0000_5107)], &[None, None]), // pld r7,0(r5),0
    Row(0x0400_0000, Some(0xf4e5_0000), 0x40, 0x40, 0x5048, &[(0x3_2028, 0xc000_0000_0000_5107)], &[Some(Trap(DataStorage, 0x2000_0000, 0x5048, 0x0204_0000)), Some(Trap(DataStorage, 0x2000_0000, 0x5048, 0x0204_0000))]), // pstd r7,0(r5),0
    // the second of two pages is privileged
    Row(0x0400_0000, Some(0xe4e5_0000), 0x40, 0x40, 0x5ffe, &[(0x3_2030, 0xc000_0000_0000_618e)], &[None, Some(Trap(DataStorage, 0x2000_0000, 0x6000, 0x0800_0000))]), // pld r7,0(r5),0
    Row(0x0400_0000, Some(0xa4e5_0000), 0x40, 0x40, 0x5ffe, &[(0x3_2030, 0xc000_0000_0000_618e)], &[None, Some(Trap(DataStorage, 0x2000_0000, 0x6000, 0x0800_0000))]), // plwa r7,0(r5),0
    Row(0x0400_0000, Some(0xf4e5_0000), 0x40, 0x40, 0x5ffe, &[(0x3_2030, 0xc000_0000_0000_618e)], &[None, Some(Trap(DataStorage, 0x2000_0000, 0x6000, 0x0a00_0000))]), // pstd r7,0(r5),0
    Row(0x0600_0000, Some(0x90e5_0000), 0x40, 0x40, 0x5ffe, &[(0x3_2030, 0xc000_0000_0000_618e)], &[None, Some(Trap(DataStorage, 0x2000_0000, 0x6000, 0x0a00_0000))]), // pstw r7,0(r5),0
    // an access behind RAM that isn't aligned
    Row(0x0600_0000, Some(0x80e5_0000), 0x40, 0x40, 0x504a, &[(0x3_2028, 0xc000_0000_0100_0186)], &[Some(Trap(Alignment, 0x2000_0000, 0x504a, DSISR)), Some(Trap(Alignment, 0x2000_0000, 0x504a, DSISR))]), // plwz r7,0(r5),0
    Row(0x0600_0000, Some(0xb0e5_0001), 0x40, 0x40, 0x504a, &[(0x3_2028, 0xc000_0000_0100_0186)], &[Some(Trap(Alignment, 0x2000_0000, 0x504b, DSISR)), Some(Trap(Alignment, 0x2000_0000, 0x504b, DSISR))]), // psth r7,1(r5),0
    // a fetch that faults has no prefix
    Row(0x0600_0000, Some(0x38e0_0005), 0x4000_0000_0000_5048, 0x5048, 0, &[], &[Some(Trap(InstSegment, 0, DAR, DSISR)), Some(Trap(InstSegment, 0, DAR, DSISR))]), // paddi r7,0,5,0
    Row(0x0600_0000, Some(0x38e0_0005), 0x8000_0000_0000_503c, 0x503c, 0, &[], &[Some(Trap(InstSegment, 0, DAR, DSISR)), Some(Trap(InstSegment, 0, DAR, DSISR))]), // paddi r7,0,5,0
    Row(0x0600_0000, Some(0x38e0_0005), 0x6048, 0x6048, 0, &[], &[Some(Trap(InstStorage, 0x4000_0000, DAR, DSISR)), Some(Trap(InstStorage, 0x4000_0000, DAR, DSISR))]), // paddi r7,0,5,0
    Row(0x0600_0000, Some(0x38e0_0005), 0x607c, 0x607c, 0, &[], &[Some(Trap(InstStorage, 0x4000_0000, DAR, DSISR)), Some(Trap(InstStorage, 0x4000_0000, DAR, DSISR))]), // paddi r7,0,5,0
    Row(0x0600_0000, Some(0x38e0_0005), 0x5048, 0x5048, 0, &[], &[Some(Trap(InstStorage, 0x1000_0000, DAR, DSISR)), Some(Trap(InstStorage, 0x1000_0000, DAR, DSISR))]), // paddi r7,0,5,0
    Row(0x0600_0000, Some(0x38e0_0005), 0x5048, 0x7048, 0, &[(0x3_2028, 0xc000_0000_0000_718f)], &[None, Some(Trap(InstStorage, 0x1000_0000, DAR, DSISR))]), // paddi r7,0,5,0
    Row(0x0600_0000, Some(0x38e0_0005), 0x20_5048, 0x20_5048, 0, &[(0x3_1008, 0x8000_0000_0003_3004)], &[Some(Trap(InstStorage, 0x0008_0000, DAR, DSISR)), Some(Trap(InstStorage, 0x0008_0000, DAR, DSISR))]), // paddi r7,0,5,0
    Row(0x0600_0000, Some(0x38e0_0005), 0x5048, 0x5048, 0, &[(0x3_2028, 0xc000_0000_0000_5087)], &[Some(Trap(InstStorage, 0x0004_0000, DAR, DSISR)), Some(Trap(InstStorage, 0x0004_0000, DAR, DSISR))]), // paddi r7,0,5,0
    // a prefix that ends its block in a privileged page
    Row(0x0600_0000, Some(0x38e0_0005), 0x503c, 0x703c, 0, &[(0x3_2028, 0xc000_0000_0000_718f)], &[Some(Trap(Alignment, 0x3000_0000, DAR, DSISR)), Some(Trap(InstStorage, 0x1000_0000, DAR, DSISR))]), // paddi r7,0,5,0
];

/// The registers before an instruction in the state of this MSR.
fn regs_before(cia: u64, address: u64, msr: u64) -> Regs {
    let mut regs = Regs::new();
    regs.gpr = [OTHER; 32];
    regs.gpr[5] = address;
    regs.cia = cia;
    regs.msr = msr;
    regs.dar = DAR;
    regs.dsisr = DSISR;
    regs.pidr = 1;
    regs.prtbl = 0x1_0000;
    regs
}

/// The address that an interrupt saves: that of the instruction, for a system call the next one.
fn saved_by(vector: Vector, cia: u64) -> u64 {
    match vector {
        SystemCall => cia.wrapping_add(4),
        _ => cia,
    }
}

/// Fails unless an instruction of a row came to this end, in the state of this MSR.
fn compare(rt: &impl Abort, state: &State, event: Event, row: &Row, msr: u64, end: &Option<Trap>) {
    let Row(word, suffix, cia, _, address, tables, _) = row;
    let (word, suffix, cia, cycle) = (*word, *suffix, *cia, 0);
    let regs = &state.regs;
    match end {
        None => assert_eq!(rt;
            event,
            Event::Retire {
                cycle,
                cia,
                word,
                suffix
            },
            "{word:08x} at {cia:x} under {msr:x}, for {address:x} by {tables:?}"
        ),
        Some(Trap(vector, cause, dar, dsisr)) => {
            let vector = *vector;
            assert_eq!(rt;
                event,
                Event::Trap { cycle, cia, vector },
                "{word:08x} at {cia:x} under {msr:x}, for {address:x} by {tables:?}"
            );
            assert_eq!(rt;
                [
                    regs.srr0,
                    regs.srr1,
                    regs.dar,
                    u64::from(regs.dsisr),
                    regs.cia,
                    regs.msr,
                    regs.gpr[7],
                ],
                [
                    saved_by(vector, cia),
                    msr | *cause,
                    *dar,
                    u64::from(*dsisr),
                    vector.address(),
                    0x9000_0000_0000_1001,
                    OTHER,
                ],
                "{word:08x} at {cia:x} under {msr:x}, for {address:x} by {tables:?}"
            );
        }
    }
}

/// Carries a row's instruction out in the state of this MSR, and fails unless it comes to this end.
fn carry_row(rt: &impl Abort, state: &mut State, row: &Row, msr: u64, end: &Option<Trap>) {
    state.regs = regs_before(row.2, row.4, msr);
    let event = carried(state);
    compare(rt, state, event, row, msr, end);
}

/// Lays a row's words and doublewords where they stand.
fn lay_row(state: &mut State, row: &Row) {
    let Row(word, suffix, _, real, _, tables, _) = row;
    let real = u64::from(*real);
    put_tables(&mut state.ram, tables);
    state.ram.write(real, &word.to_le_bytes());
    state
        .ram
        .write(real + 4, &suffix.unwrap_or(0).to_le_bytes());
}

/// Takes them away again, and puts the tree back.
fn clear_row(state: &mut State, row: &Row) {
    let Row(_, _, _, real, _, tables, _) = row;
    state.ram.write(u64::from(*real), &[0; 8]);
    for (address, _) in *tables {
        state.ram.write(u64::from(*address), &[0; 8]);
    }
    put_tables(&mut state.ram, &TREE);
}

#[test]
fn problem_state_has_its_rights(rt: HostRuntime) -> Result<(), Fail> {
    let mut state = first(rt.alloc())?;
    put_tables(&mut state.ram, &TREE);
    for rows in [
        SYSTEM.as_slice(),
        NUMBERS.as_slice(),
        RIGHTS.as_slice(),
        FAULTS.as_slice(),
        ACCESSES.as_slice(),
        PREFIXED.as_slice(),
    ] {
        for row in rows {
            lay_row(&mut state, row);
            if let [privileged, problem] = row.6 {
                carry_row(&rt, &mut state, row, PRIVILEGED_STATE, privileged);
                carry_row(&rt, &mut state, row, PROBLEM_STATE, problem);
            } else {
                panic!(rt; "{:x} has no two ends", row.0);
            }
            clear_row(&mut state, row);
        }
    }
    Ok(())
}
