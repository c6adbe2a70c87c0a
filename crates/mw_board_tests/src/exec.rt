ghost use Rattle.mw_decode.specs.Decode.{OnInsn, IsInsn};

use mw_decode::{Decoded, decode, is_prefix};
use mw_exec::exec;
use mw_isa::{Operands, Outcome, Slot, Target, Vector};

/// What a word is, with this suffix where it is a prefix.
fn decoded(word: u32, suffix: u32) -> Decoded
    ensures { OnInsn IsInsn result }
{
    if is_prefix(word) {
        decode(word, Some(suffix))
    } else {
        decode(word, None)
    }
}

/// What a word at an address, with this suffix where it is a prefix, comes to where this is read as
/// the first and the second register.
fn outcome(word: u32, suffix: u32, read: [u64; 2], cia: u64) -> Option<Outcome> {
    outcome_in(0, word, suffix, read, cia)
}

/// What a word at an address, with this suffix where it is a prefix, comes to under MSR.
fn outcome_in(msr: u64, word: u32, suffix: u32, [a, b]: [u64; 2], cia: u64) -> Option<Outcome> {
    let operands = Operands {
        a,
        b,
        c: 0,
        cr: 0,
        xer: 0,
        lr: 0,
        ctr: 0,
        tar: 0,
        msr,
    };
    match decoded(word, suffix) {
        Decoded::Insn(insn) => Some(exec(&insn, &operands, cia)),
        Decoded::Unavailable(_) => None,
        Decoded::Alignment { .. } => None,
        Decoded::Illegal => None,
    }
}

/// A word and its suffix, what is read, its address; the register that it writes, with its value; the
/// next address.
struct Written(u32, u32, [u64; 2], u64, u8, u64, u64);

#[rattlefmt::skip]
static WRITTEN: [Written; 14] = [
    Written(0x3860_0005, 0, [7, 0], 0, 3, 5, 4), // addi r3,0,5 while r0 is 7
    Written(0x3864_ffff, 0, [7, 0], 8, 3, 6, 12), // addi r3,r4,-1
    Written(0x3864_ffff, 0, [0, 0], 8, 3, 0xffff_ffff_ffff_ffff, 12), // addi r3,r4,-1
    Written(0x3c60_8000, 0, [7, 0], 0, 3, 0xffff_ffff_8000_0000, 4), // addis r3,0,-32768
    Written(0x3c64_0001, 0, [5, 0], 0, 3, 0x1_0005, 4), // addis r3,r4,1
    Written(0x6083_ffff, 0, [0x8000_0000_0000_00f0, 0], 0, 3, 0x8000_0000_0000_ffff, 4), // ori r3,r4,65535
    Written(0x7ca3_2214, 0, [0xffff_ffff_ffff_ffff, 2], 0, 5, 1, 4), // add r5,r3,r4
    Written(0x7ca0_2214, 0, [9, 2], 0, 5, 11, 4), // add r5,r0,r4
    Written(0x6000_0000, 0, [7, 0], 0xffff_ffff_ffff_fffc, 0, 7, 0), // ori r0,r0,0 at the last word
    Written(0x0612_0000, 0x3860_0000, [7, 0], 0, 3, 0xffff_fffe_0000_0000, 8), // paddi r3,0,-8589934592,1
    Written(0x0600_0000, 0x3860_0005, [7, 0], 0x100, 3, 5, 0x108), // paddi r3,0,5,0 while r0 is 7
    Written(0x0600_0001, 0x3864_8000, [7, 0], 0x100, 3, 0x1_8007, 0x108), // paddi r3,r4,98304,0
    Written(0x0613_ffff, 0x3860_fffc, [7, 0], 0x100, 3, 0xfc, 0x108), // paddi r3,0,-4,1
    Written(0x0610_0000, 0x3860_0008, [7, 0], 0xffff_ffff_ffff_fffc, 3, 4, 4), // paddi r3,0,8,1 at the last word
];

/// A word that writes no register and its suffix, its address, and the next one.
struct Taken(u32, u32, u64, u64);

#[rattlefmt::skip]
static TAKEN: [Taken; 9] = [
    Taken(0x4bff_fffc, 0, 0, 0xffff_ffff_ffff_fffc), // b -4
    Taken(0x4800_0008, 0, 0x100, 0x108), // b 8
    Taken(0x49ff_fffc, 0, 4, 0x200_0000), // b 33554428
    Taken(0x4bff_fffe, 0, 0x100, 0xffff_ffff_ffff_fffc), // ba -4
    Taken(0x4800_000a, 0, 0x100, 8), // ba 8
    Taken(0x7c00_222c, 0, 0x100, 0x104), // dcbt 0,r4
    Taken(0x0700_0000, 0, 0x100, 0x108), // pnop
    Taken(0x0700_0000, 0x4800_0008, 0x100, 0x108), // pnop, whose suffix would be a branch
    Taken(0x0700_0000, 0x0700_0000, 0xffff_ffff_ffff_fff8, 0), // pnop at the last two words
];

#[test]
fn instructions_come_to_what_they_should(rt: HostRuntime) {
    for Written(word, suffix, read, cia, number, value, next_wanted) in &WRITTEN {
        let target = Target {
            slot: Slot::Gpr(*number),
            value: Some(*value),
        };
        match outcome(*word, *suffix, *read, *cia) {
            Some(Outcome::Done { targets, next }) => {
                assert_eq!(rt; targets.as_slice(), [target].as_slice(), "{word:x}");
                assert_eq!(rt; next, *next_wanted, "{word:x}");
            }
            Some(Outcome::Memory(_)) => panic!(rt; "{word:x} is an access"),
            Some(Outcome::Long(_)) => panic!(rt; "{word:x} is a product or quotient"),
            Some(Outcome::System(_)) => panic!(rt; "{word:x} is of the system"),
            Some(Outcome::Trap { .. }) => panic!(rt; "{word:x} raises an interrupt"),
            None => panic!(rt; "{word:x} is no instruction"),
        }
    }
    for Taken(word, suffix, cia, next_wanted) in &TAKEN {
        match outcome(*word, *suffix, [7, 7], *cia) {
            Some(Outcome::Done { targets, next }) => {
                assert_eq!(rt; targets.len(), 0, "{word:x}");
                assert_eq!(rt; next, *next_wanted, "{word:x}");
            }
            Some(Outcome::Memory(_)) => panic!(rt; "{word:x} is an access"),
            Some(Outcome::Long(_)) => panic!(rt; "{word:x} is a product or quotient"),
            Some(Outcome::System(_)) => panic!(rt; "{word:x} is of the system"),
            Some(Outcome::Trap { .. }) => panic!(rt; "{word:x} raises an interrupt"),
            None => panic!(rt; "{word:x} is no instruction"),
        }
    }
}

/// A word whose trap condition holds, and what is read.
struct Trapped(u32, [u64; 2]);

#[rattlefmt::skip]
static TRAPPED: [Trapped; 5] = [
    Trapped(0x7fe0_0008, [5, 5]), // tw 31,r0,r0
    Trapped(0x7c83_2088, [5, 5]), // td 4,r3,r4
    Trapped(0x7e03_2008, [0x1_8000_0000, 0x7fff_ffff]), // tw 16,r3,r4
    Trapped(0x0c43_ffff, [1, 7]), // twi 2,r3,-1
    Trapped(0x0843_ffff, [1, 7]), // tdi 2,r3,-1
];

#[test]
fn a_trap_has_its_cause(rt: HostRuntime) {
    for Trapped(word, read) in &TRAPPED {
        match outcome(*word, 0, *read, 0x100) {
            Some(Outcome::Trap { vector, cause }) => {
                assert_eq!(rt; vector, Vector::Program, "{word:x}");
                // bit 46 of SRR1, counted from the left of 64, and no other
                assert_eq!(rt; cause, 1 << 17, "{word:x}");
            }
            Some(Outcome::Done { .. }) => panic!(rt; "{word:x} is done"),
            Some(Outcome::Memory(_)) => panic!(rt; "{word:x} is an access"),
            Some(Outcome::Long(_)) => panic!(rt; "{word:x} is a product or quotient"),
            Some(Outcome::System(_)) => panic!(rt; "{word:x} is of the system"),
            None => panic!(rt; "{word:x} is no instruction"),
        }
    }
}

/// Whether an outcome is the interrupt of what is privileged.
fn is_refused(outcome: Option<Outcome>) -> bool {
    match outcome {
        Some(Outcome::Trap { vector, cause }) => {
            // bit 45 of SRR1, counted from the left of 64, and no other
            vector == Vector::Program && cause == 1 << 18
        }
        _ => false,
    }
}

#[test]
fn privileged_rows_are_refused_in_problem_state(rt: HostRuntime) {
    // PR is bit 49 of MSR, counted from the left of 64
    let problem = 1 << 14;
    for word in [
        0x7c60_262a, // lwzcix r3,0,r4
        0x7c60_272a, // stwcix r3,0,r4
        0x4c00_0024, // rfid
        0x4c00_0224, // hrfid
        0x7c40_04ac, // sync 2
        0x7c00_046c, // tlbsync
        0x7c60_00a6, // mfmsr r3
        0x7c60_0124, // mtmsr r3,0
        0x7c60_0164, // mtmsrd r3,0
        0x7c80_1a64, // tlbie r3,r4,0,0,0
        0x7c80_1a24, // tlbiel r3,r4,0,0,0
    ] {
        assert!(rt;
            is_refused(outcome_in(problem, word, 0, [0, 8], 0)),
            "{word:x}"
        );
        assert!(rt;
            !is_refused(outcome_in(!problem, word, 0, [0, 8], 0)),
            "{word:x}"
        );
    }
    for word in [
        0x7c60_202e, // lwzx r3,0,r4
        0x7c00_04ac, // sync 0
        0x7c20_04ac, // sync 1
        0x7c60_04ac, // sync 3
        0x7c00_06ac, // eieio
        0x4c00_012c, // isync
        0x7c68_02a6, // mfspr r3,8
        0x7c60_05e6, // darn r3,0
    ] {
        assert!(rt;
            !is_refused(outcome_in(problem, word, 0, [0, 8], 0)),
            "{word:x}"
        );
    }
}
