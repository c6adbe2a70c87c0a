use crate::left::Name::{Cia, Dec, Msr, Srr0, Srr1, Traps};
use crate::left::{Name, leaves};
use crate::system::image_of;
use mw_board::simulate;
use mw_isa::{End, Event, Vector};
use mw_uart::{Script, read_script};
use std::alloc::Global;
use std::process::Abort;
use std::test::Fail;

/// An interrupt between two instructions: its cycle, the address of the next instruction, and its vector.
type Interrupt = (u64, u64, Vector);

/// The words of an image with their addresses; a script; a number of cycles; the first interrupts between instructions, and
/// how many there are; the general purpose registers and others with their contents behind them.
struct Row(
    &'static [(usize, &'static [u32])],
    &'static str,
    u64,
    &'static [Interrupt],
    usize,
    &'static [(usize, u64)],
    &'static [(Name, u64)],
);

/// What arrives for the echo.
const ECHOED: &str = "1000 48656c6c6f\n5000 2c20\n9000 776f726c640a\n";

#[rattlefmt::skip]
static ROWS: [Row; 19] = [
    // mfmsr 4; ori 4,4,0x8000; mtmsrd 4,1; li 3,0; mtspr 22,3; nop; nop; b .; .org 0x900; b .
    Row(&[(0, &[0x7c80_00a6, 0x6084_8000, 0x7c81_0164, 0x3860_0000, 0x7c76_03a6, 0x6000_0000, 0x6000_0000, 0x4800_0000]), (0x900, &[0x4800_0000])], "", 100000, &[(5, 0x14, Vector::Decrementer)], 1, &[], &[(Srr0, 0x14), (Srr1, 0x9000_0000_0000_9001), (Msr, 0x9000_0000_0000_1001), (Dec, 0xfffe_7964), (Cia, 0x900), (Traps, 0)]),
    // a system call that isn't reached: mfmsr 4; ori 4,4,0x8000; mtmsrd 4,1; li 3,0; mtspr 22,3; sc; nop; b .; .org 0x900; b .
    Row(&[(0, &[0x7c80_00a6, 0x6084_8000, 0x7c81_0164, 0x3860_0000, 0x7c76_03a6, 0x4400_0002, 0x6000_0000, 0x4800_0000]), (0x900, &[0x4800_0000])], "", 9, &[(5, 0x14, Vector::Decrementer)], 1, &[], &[(Srr0, 0x14), (Srr1, 0x9000_0000_0000_9001), (Traps, 0)]),
    // a prefix that isn't reached: bit 34 of SRR1 stays 0: mfmsr 4; ori 4,4,0x8000; mtmsrd 4,1; li 3,0; mtspr 22,3; .long 0x06000000; .long 0x38600005; b .; .org 0x900; b .
    Row(&[(0, &[0x7c80_00a6, 0x6084_8000, 0x7c81_0164, 0x3860_0000, 0x7c76_03a6, 0x0600_0000, 0x3860_0005, 0x4800_0000]), (0x900, &[0x4800_0000])], "", 9, &[(5, 0x14, Vector::Decrementer)], 1, &[(3, 0)], &[(Srr0, 0x14), (Srr1, 0x9000_0000_0000_9001), (Traps, 0)]),
    // an illegal word that isn't reached: mfmsr 4; ori 4,4,0x8000; mtmsrd 4,1; li 3,0; mtspr 22,3; .long 0; b .; .org 0x900; b .
    Row(&[(0, &[0x7c80_00a6, 0x6084_8000, 0x7c81_0164, 0x3860_0000, 0x7c76_03a6, 0, 0x4800_0000]), (0x900, &[0x4800_0000])], "", 9, &[(5, 0x14, Vector::Decrementer)], 1, &[], &[(Srr0, 0x14), (Srr1, 0x9000_0000_0000_9001), (Traps, 0)]),
    // an instruction that translates the fetches behind it and isn't reached: mfmsr 4; ori 8,4,32; ori 4,4,0x8000; li 3,0; mtspr 22,3; mtmsrd 4,1; mtmsrd 8,0; b .; .org 0x900; b .
    Row(&[(0, &[0x7c80_00a6, 0x6088_0020, 0x6084_8000, 0x3860_0000, 0x7c76_03a6, 0x7c81_0164, 0x7d00_0164, 0x4800_0000]), (0x900, &[0x4800_0000])], "", 12, &[(6, 0x18, Vector::Decrementer)], 1, &[], &[(Srr0, 0x18), (Cia, 0x900)]),
    // EE is 0: li 3,-1; mtspr 22,3; b .; .org 0x900; b .
    Row(&[(0, &[0x3860_ffff, 0x7c76_03a6, 0x4800_0000]), (0x900, &[0x4800_0000])], "", 9, &[], 0, &[], &[(Cia, 8), (Msr, 0x9000_0000_0000_1001)]),
    // EE by the other ways of writing it: li 3,-1; mtspr 22,3; mfmsr 4; ori 4,4,0x8000; mtmsrd 4,0; b .; .org 0x900; b .
    Row(&[(0, &[0x3860_ffff, 0x7c76_03a6, 0x7c80_00a6, 0x6084_8000, 0x7c80_0164, 0x4800_0000]), (0x900, &[0x4800_0000])], "", 9, &[(5, 0x14, Vector::Decrementer)], 1, &[], &[(Srr0, 0x14), (Srr1, 0x9000_0000_0000_9001)]),
    // li 3,-1; mtspr 22,3; mfmsr 4; ori 4,4,0x8000; mtmsr 4,0; b .; .org 0x900; b .
    Row(&[(0, &[0x3860_ffff, 0x7c76_03a6, 0x7c80_00a6, 0x6084_8000, 0x7c80_0124, 0x4800_0000]), (0x900, &[0x4800_0000])], "", 9, &[(5, 0x14, Vector::Decrementer)], 1, &[], &[(Srr0, 0x14), (Srr1, 0x9000_0000_0000_9001)]),
    // li 3,-1; mtspr 22,3; mfmsr 4; ori 4,4,0x8000; mtspr 27,4; li 5,0x28; mtspr 26,5; rfid; .org 0x28; b .; .org 0x900; b .
    Row(&[(0, &[0x3860_ffff, 0x7c76_03a6, 0x7c80_00a6, 0x6084_8000, 0x7c9b_03a6, 0x38a0_0028, 0x7cba_03a6, 0x4c00_0024]), (0x28, &[0x4800_0000]), (0x900, &[0x4800_0000])], "", 12, &[(8, 0x28, Vector::Decrementer)], 1, &[], &[(Srr0, 0x28), (Srr1, 0x9000_0000_0000_9001), (Cia, 0x900)]),
    // li 3,-1; mtspr 22,3; mfmsr 4; ori 4,4,0x8000; mtspr 315,4; li 5,0x28; mtspr 314,5; hrfid; .org 0x28; b .; .org 0x900; b .
    Row(&[(0, &[0x3860_ffff, 0x7c76_03a6, 0x7c80_00a6, 0x6084_8000, 0x7c9b_4ba6, 0x38a0_0028, 0x7cba_4ba6, 0x4c00_0224]), (0x28, &[0x4800_0000]), (0x900, &[0x4800_0000])], "", 12, &[(8, 0x28, Vector::Decrementer)], 1, &[], &[(Srr0, 0x28), (Srr1, 0x9000_0000_0000_9001), (Cia, 0x900)]),
    // a write of DEC ends its exception: it is 1 at cycle 5, and 0 at 6: lis 3,0x7fff; mfmsr 4; ori 4,4,0x8000; li 5,2; mtspr 22,5; mtmsrd 4,1; mtspr 22,3; b .; .org 0x900; b .
    Row(&[(0, &[0x3c60_7fff, 0x7c80_00a6, 0x6084_8000, 0x38a0_0002, 0x7cb6_03a6, 0x7c81_0164, 0x7c76_03a6, 0x4800_0000]), (0x900, &[0x4800_0000])], "", 20, &[], 0, &[], &[(Cia, 0x1c)]),
    // lis 3,0x7fff; mfmsr 4; ori 4,4,0x8000; li 5,1; mtspr 22,5; mtmsrd 4,1; mtspr 22,3; b .; .org 0x900; b .
    Row(&[(0, &[0x3c60_7fff, 0x7c80_00a6, 0x6084_8000, 0x38a0_0001, 0x7cb6_03a6, 0x7c81_0164, 0x7c76_03a6, 0x4800_0000]), (0x900, &[0x4800_0000])], "", 20, &[(6, 0x18, Vector::Decrementer)], 1, &[], &[(Srr0, 0x18)]),
    // the external and the decrementer exception at once: li 3,0; oris 3,3,0xc000; ori 5,3,0x2000; li 6,2; std 6,32(5); ori 7,3,0x5800; li 8,5; stwbrx 8,0,7; ori 9,3,0x4004; li 10,255; stb 10,0(9); li 11,-1; mtspr 22,11; mfmsr 4; ori 4,4,0x8000; mtmsrd 4,1; b .; .org 0x500; b .
    Row(&[(0, &[0x3860_0000, 0x6463_c000, 0x6065_2000, 0x38c0_0002, 0xf8c5_0020, 0x6067_5800, 0x3900_0005, 0x7d00_3d2c, 0x6069_4004, 0x3940_00ff, 0x9949_0000, 0x3960_ffff, 0x7d76_03a6, 0x7c80_00a6, 0x6084_8000, 0x7c81_0164, 0x4800_0000]), (0x500, &[0x4800_0000])], "", 200000, &[(16, 0x40, Vector::External)], 1, &[], &[(Srr0, 0x40), (Srr1, 0x9000_0000_0000_9001), (Msr, 0x9000_0000_0000_1001), (Cia, 0x500)]),
    // li 3,0; oris 3,3,0xc000; ori 5,3,0x2000; li 6,2; std 6,32(5); ori 7,3,0x5800; li 8,5; stwbrx 8,0,7; ori 9,3,0x4004; li 10,255; stb 10,0(9); li 11,-1; mtspr 22,11; mfmsr 4; ori 4,4,0x8000; mtmsrd 4,1; b .; .org 0x500; lwbrx 12,0,9; rfid; .org 0x900; lis 11,0x7fff; mtspr 22,11; rfid
    Row(&[(0, &[0x3860_0000, 0x6463_c000, 0x6065_2000, 0x38c0_0002, 0xf8c5_0020, 0x6067_5800, 0x3900_0005, 0x7d00_3d2c, 0x6069_4004, 0x3940_00ff, 0x9949_0000, 0x3960_ffff, 0x7d76_03a6, 0x7c80_00a6, 0x6084_8000, 0x7c81_0164, 0x4800_0000]), (0x500, &[0x7d80_4c2c, 0x4c00_0024]), (0x900, &[0x3d60_7fff, 0x7d76_03a6, 0x4c00_0024])], "", 40, &[(16, 0x40, Vector::External), (19, 0x40, Vector::Decrementer)], 2, &[(12, 0xff00_0010)], &[(Msr, 0x9000_0000_0000_9001), (Cia, 0x40)]),
    // a source of CPPR's own priority: li 3,0; oris 3,3,0xc000; ori 5,3,0x2000; li 6,2; std 6,32(5); ori 7,3,0x5800; li 8,5; stwbrx 8,0,7; ori 9,3,0x4004; li 10,5; stb 10,0(9); mfmsr 4; ori 4,4,0x8000; mtmsrd 4,1; b .; .org 0x500; b .
    Row(&[(0, &[0x3860_0000, 0x6463_c000, 0x6065_2000, 0x38c0_0002, 0xf8c5_0020, 0x6067_5800, 0x3900_0005, 0x7d00_3d2c, 0x6069_4004, 0x3940_0005, 0x9949_0000, 0x7c80_00a6, 0x6084_8000, 0x7c81_0164, 0x4800_0000]), (0x500, &[0x4800_0000])], "", 40, &[], 0, &[], &[(Msr, 0x9000_0000_0000_9001), (Cia, 0x38)]),
    // a source of a priority below CPPR: li 3,0; oris 3,3,0xc000; ori 5,3,0x2000; li 6,2; std 6,32(5); ori 7,3,0x5800; li 8,5; stwbrx 8,0,7; ori 9,3,0x4004; li 10,6; stb 10,0(9); mfmsr 4; ori 4,4,0x8000; mtmsrd 4,1; b .; .org 0x500; b .
    Row(&[(0, &[0x3860_0000, 0x6463_c000, 0x6065_2000, 0x38c0_0002, 0xf8c5_0020, 0x6067_5800, 0x3900_0005, 0x7d00_3d2c, 0x6069_4004, 0x3940_0006, 0x9949_0000, 0x7c80_00a6, 0x6084_8000, 0x7c81_0164, 0x4800_0000]), (0x500, &[0x4800_0000])], "", 40, &[(14, 0x38, Vector::External)], 1, &[], &[(Srr0, 0x38), (Cia, 0x500)]),
    // the reservation stays: li 3,0x1000; mfmsr 4; ori 4,4,0x8000; li 5,0; lis 8,0x7fff; ldarx 6,0,3; mtspr 22,5; mtmsrd 4,1; stdcx. 5,0,3; mfcr 7; b .; .org 0x900; mtspr 22,8; rfid
    Row(&[(0, &[0x3860_1000, 0x7c80_00a6, 0x6084_8000, 0x38a0_0000, 0x3d00_7fff, 0x7cc0_18a8, 0x7cb6_03a6, 0x7c81_0164, 0x7ca0_19ad, 0x7ce0_0026, 0x4800_0000]), (0x900, &[0x7d16_03a6, 0x4c00_0024])], "", 20, &[(8, 0x20, Vector::Decrementer)], 1, &[(7, 0x2000_0000)], &[(Cia, 0x28)]),
    // a clock: li 3,0; oris 3,3,0xc000; ori 3,3,0x2000; li 5,1000; li 7,46; mtspr 22,5; mfmsr 4; ori 4,4,0x8000; mtmsrd 4,1; b .; .org 0x900; mtspr 22,5; addi 6,6,1; stb 7,0(3); rfid
    Row(&[(0, &[0x3860_0000, 0x6463_c000, 0x6063_2000, 0x38a0_03e8, 0x38e0_002e, 0x7cb6_03a6, 0x7c80_00a6, 0x6084_8000, 0x7c81_0164, 0x4800_0000]), (0x900, &[0x7cb6_03a6, 0x38c6_0001, 0x98e3_0000, 0x4c00_0024])], "", 20000, &[(1006, 0x24, Vector::Decrementer), (2008, 0x24, Vector::Decrementer)], 19, &[(6, 0x13)], &[(Msr, 0x9000_0000_0000_9001)]),
    // an echo: li 3,0; oris 3,3,0xc000; ori 4,3,0x2000; ori 5,3,0x4004; ori 6,3,0x5800; li 7,5; stwbrx 7,0,6; li 7,255; stb 7,0(5); li 7,1; std 7,32(4); mfmsr 8; ori 8,8,0x8000; mtmsrd 8,1; b .; .org 0x500; lwbrx 9,0,5; lbz 10,8(4); stb 10,0(4); ld 11,16(4); andi. 11,11,1; bc 12,2,.-16; stwbrx 9,0,5; rfid
    Row(&[(0, &[0x3860_0000, 0x6463_c000, 0x6064_2000, 0x6065_4004, 0x6066_5800, 0x38e0_0005, 0x7ce0_352c, 0x38e0_00ff, 0x98e5_0000, 0x38e0_0001, 0xf8e4_0020, 0x7d00_00a6, 0x6108_8000, 0x7d01_0164, 0x4800_0000]), (0x500, &[0x7d20_2c2c, 0x8944_0008, 0x9944_0000, 0xe964_0010, 0x716b_0001, 0x4182_fff0, 0x7d20_2d2c, 0x4c00_0024])], ECHOED, 20000, &[(1000, 0x38, Vector::External), (5000, 0x38, Vector::External), (9000, 0x38, Vector::External)], 3, &[], &[(Msr, 0x9000_0000_0000_9001), (Cia, 0x38)]),
];

/// Whether these are the first interrupts between instructions of a run's events, and how many it has.
fn interrupts_of(events: &[Event], first: &[Interrupt]) -> (bool, usize) {
    let mut count = 0usize;
    let mut same = true;
    for event in events {
        if let Event::Irq { cycle, nia, vector } = event {
            if count < first.len() {
                same = same && first[count] == (*cycle, *nia, *vector);
            }
            count = count.wrapping_add(1);
        }
    }
    (same && first.len() <= count, count)
}

/// A script of a text that is one.
fn script_of(rt: &impl Abort, alloc: Global, text: &str) -> Script {
    match read_script(alloc, text.as_bytes()) {
        Ok(script) => script,
        Err(fault) => panic!(rt; "{fault:?} of {text}"),
    }
}

#[test]
fn interrupts_are_taken_at_once(rt: HostRuntime) -> Result<(), Fail> {
    let alloc = rt.alloc();
    for Row(parts, text, n, first, count, contents, names) in &ROWS {
        assert!(rt; *n <= 200000);
        let image = image_of(alloc, *parts)?;
        let script = script_of(&rt, alloc, text);
        match simulate(alloc, image.as_slice(), &script, *n) {
            Ok(run) => {
                assert_eq!(rt; run.end, End::Ran { cycle: *n }, "{parts:?}");
                let taken = interrupts_of(run.events.as_slice(), *first);
                assert_eq!(rt; taken, (true, *count), "{parts:?}");
                leaves(&rt, &run, contents, names, parts)?;
            }
            Err(fault) => panic!(rt; "{fault:?} at {parts:?}"),
        }
    }
    Ok(())
}
