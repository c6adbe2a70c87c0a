use mw_decode::{Decoded, Facility, decode, is_illegal_form, is_prefix};
use mw_tables::by_name;

/// What a word is, with this suffix where it is a prefix.
fn decoded(word: u32, suffix: u32) -> Decoded {
    if is_prefix(word) {
        decode(word, Some(suffix))
    } else {
        decode(word, None)
    }
}

/// OE, Rc, AA and LK, by the endings of the name.
const PLAIN: [bool; 4] = [false, false, false, false];

const DOT: [bool; 4] = [false, true, false, false];

const O: [bool; 4] = [true, false, false, false];

const O_DOT: [bool; 4] = [true, true, false, false];

const A: [bool; 4] = [false, false, true, false];

const L: [bool; 4] = [false, false, false, true];

const LA: [bool; 4] = [false, false, true, true];

/// A word, the name of its row, its operands and its forms.
struct Case(u32, &'static str, &'static [i64], [bool; 4]);

#[rattlefmt::skip]
static FIXED_POINT: [Case; 42] = [
    Case(0x3860_0005, "addi", &[3, 0, 5], PLAIN), // D
    Case(0x3860_ffff, "addi", &[3, 0, -1], PLAIN),
    Case(0x3c60_8000, "addis", &[3, 0, -32768], PLAIN),
    Case(0x6000_0000, "ori", &[0, 0, 0], PLAIN),
    Case(0x6083_ffff, "ori", &[3, 4, 65535], PLAIN),
    Case(0x2fa3_ffff, "cmpi", &[7, 1, 3, -1], PLAIN),
    Case(0x2fe3_ffff, "cmpi", &[7, 1, 3, -1], PLAIN), // bit 9 is reserved
    Case(0x2803_ffff, "cmpli", &[0, 0, 3, 65535], PLAIN),
    Case(0x0be3_ffff, "tdi", &[31, 3, -1], PLAIN),
    Case(0x4c60_0005, "addpcis", &[3, 1], PLAIN), // DX
    Case(0x4c7a_1204, "addpcis", &[3, 0x1234], PLAIN),
    Case(0x4c7f_ffc5, "addpcis", &[3, -1], PLAIN),
    Case(0x7ca3_2214, "add", &[5, 3, 4], PLAIN), // XO
    Case(0x7ca3_2615, "add", &[5, 3, 4], O_DOT),
    Case(0x7c64_04d0, "neg", &[3, 4], O),
    Case(0x7c64_2893, "mulhd", &[3, 4, 5], DOT),
    Case(0x7c64_2c92, "mulhd", &[3, 4, 5], PLAIN), // bit 21 is reserved
    Case(0x7c64_2954, "addex", &[3, 4, 5, 0], PLAIN), // Z23
    Case(0x5483_298f, "rlwinm", &[3, 4, 5, 6, 7], DOT), // M
    Case(0x5c83_298e, "rlwnm", &[3, 4, 5, 6, 7], PLAIN),
    Case(0x7883_f842, "rldicl", &[3, 4, 63, 1], PLAIN), // MD
    Case(0x7883_0820, "rldicl", &[3, 4, 1, 32], PLAIN),
    Case(0x7883_ffe2, "rldicl", &[3, 4, 63, 63], PLAIN),
    Case(0x7883_07c7, "rldicr", &[3, 4, 32, 31], DOT),
    Case(0x7883_2ff2, "rldcr", &[3, 4, 5, 63], PLAIN), // MDS
    Case(0x1064_29b3, "maddld", &[3, 4, 5, 6], PLAIN), // VA
    Case(0x7c83_fe70, "srawi", &[3, 4, 31], PLAIN), // X
    Case(0x7c83_fe76, "sradi", &[3, 4, 63], PLAIN), // XS
    Case(0x7c83_06f7, "extswsli", &[3, 4, 32], DOT),
    Case(0x7c83_00f5, "popcntb", &[3, 4], PLAIN), // bit 31 is reserved
    Case(0x7c83_2838, "and", &[3, 4, 5], PLAIN),
    Case(0x7c64_2fde, "isel", &[3, 4, 5, 31], PLAIN), // A
    Case(0x7fa3_2000, "cmp", &[7, 1, 3, 4], PLAIN),
    Case(0x7c83_2808, "tw", &[4, 3, 5], PLAIN),
    Case(0x7ca3_2180, "cmprb", &[1, 1, 3, 4], PLAIN),
    Case(0x7f83_21c0, "cmpeqb", &[7, 3, 4], PLAIN),
    Case(0x7c7c_0100, "setb", &[3, 7], PLAIN),
    Case(0x7c7f_0300, "setbc", &[3, 31], PLAIN),
    Case(0x7e80_0480, "mcrxrx", &[5], PLAIN),
    Case(0x7c6f_f826, "mfcr", &[3], PLAIN), // XFX: bits 12 to 20 are reserved
    Case(0x7c70_0026, "mfocrf", &[3, 0], PLAIN),
    Case(0x7c78_0026, "mfocrf", &[3, 128], PLAIN),
];

#[rattlefmt::skip]
static OTHERS: [Case; 48] = [
    Case(0x4800_0000, "b", &[0], PLAIN), // I
    Case(0x4800_0001, "b", &[0], L),
    Case(0x4bff_fffe, "b", &[-4], A),
    Case(0x49ff_fffc, "b", &[33_554_428], PLAIN),
    Case(0x4182_0008, "bc", &[12, 2, 8], PLAIN), // B
    Case(0x429f_0005, "bc", &[20, 31, 4], L),
    Case(0x4182_fffb, "bc", &[12, 2, -8], LA),
    Case(0x4e80_0020, "bclr", &[20, 0, 0], PLAIN), // XL
    Case(0x4e80_0421, "bcctr", &[20, 0, 0], L),
    Case(0x4e80_1c60, "bctar", &[20, 0, 3], PLAIN),
    Case(0x4c22_1a02, "crand", &[1, 2, 3], PLAIN),
    Case(0x4c22_1a03, "crand", &[1, 2, 3], PLAIN), // bit 31 is reserved
    Case(0x4f8c_0000, "mcrf", &[7, 3], PLAIN),
    Case(0x7c6f_f120, "mtcrf", &[255, 3], PLAIN), // XFX
    Case(0x7c70_1120, "mtocrf", &[1, 3], PLAIN),
    Case(0x8064_fff8, "lwz", &[3, -8, 4], PLAIN), // D
    Case(0x8464_0008, "lwzu", &[3, 8, 4], PLAIN),
    Case(0x9463_0008, "stwu", &[3, 8, 3], PLAIN),
    Case(0xe864_fff0, "ld", &[3, -16, 4], PLAIN), // DS
    Case(0xe864_0011, "ldu", &[3, 16, 4], PLAIN),
    Case(0xe864_7ffe, "lwa", &[3, 32764, 4], PLAIN),
    Case(0xf863_8001, "stdu", &[3, -32768, 3], PLAIN),
    Case(0x7c64_282a, "ldx", &[3, 4, 5], PLAIN), // X
    Case(0x7c64_286e, "lwzux", &[3, 4, 5], PLAIN),
    Case(0x7c63_296e, "stwux", &[3, 3, 5], PLAIN),
    Case(0x7c64_2029, "lwarx", &[3, 4, 4], PLAIN), // bit 31 is ignored
    Case(0x7c64_292d, "stwcx.", &[3, 4, 5], PLAIN), // bit 31 is no form
    Case(0x7c00_1fac, "icbi", &[0, 3], PLAIN),
    Case(0x7fe3_27ec, "dcbz", &[3, 4], PLAIN), // bits 6 to 10 are reserved
    Case(0x4400_0002, "sc", &[], PLAIN), // SC
    Case(0x4400_0003, "sc", &[], PLAIN), // bit 31 is reserved
    Case(0x4400_0ee2, "sc", &[], PLAIN), // LEV is ignored
    Case(0x4c00_012c, "isync", &[], PLAIN),
    Case(0x4c00_0024, "rfid", &[], PLAIN),
    Case(0x4c00_0224, "hrfid", &[], PLAIN),
    Case(0x7c40_04ac, "sync", &[2], PLAIN),
    Case(0x7ffe_04ac, "sync", &[7], PLAIN), // bits 6 and 7, and 11 to 20, are reserved
    Case(0x7c60_00a6, "mfmsr", &[3], PLAIN),
    Case(0x7c61_0164, "mtmsrd", &[3, 1], PLAIN),
    Case(0x7c6b_2264, "tlbie", &[4, 3, 2, 1, 1], PLAIN),
    Case(0x7c7b_2264, "tlbie", &[4, 3, 2, 1, 1], PLAIN), // bit 11 is reserved
    Case(0x7c68_02a6, "mfspr", &[3, 8], PLAIN),
    Case(0x7c6f_caa6, "mfspr", &[3, 815], PLAIN),
    Case(0x7c6f_cba6, "mtspr", &[815, 3], PLAIN),
    Case(0x7c6c_42e6, "mftb", &[3, 268], PLAIN),
    Case(0x7c6d_42e6, "mftb", &[3, 269], PLAIN),
    Case(0x7c62_05e6, "darn", &[3, 2], PLAIN),
    Case(0x7c00_06ac, "eieio", &[], PLAIN),
];

/// Whether a word, with this suffix where it is a prefix, is this instruction.
fn is(word: u32, suffix: u32, name: &str, ops: &[i64], forms: [bool; 4]) -> bool {
    match decoded(word, suffix) {
        Decoded::Insn(insn) => {
            by_name(name) == Some(insn.row)
                && insn.ops.as_slice() == ops
                && [insn.oe, insn.rc, insn.aa, insn.lk] == forms
        }
        _ => false,
    }
}

#[test]
fn fixed_point(rt: HostRuntime) {
    for Case(word, name, ops, forms) in &FIXED_POINT {
        assert!(rt; is(*word, 0, name, ops, *forms), "{word:08x} is no {name}");
    }
}

#[test]
fn branches_storage_and_system(rt: HostRuntime) {
    for Case(word, name, ops, forms) in &OTHERS {
        assert!(rt; is(*word, 0, name, ops, *forms), "{word:08x} is no {name}");
    }
}

/// A prefix, a suffix, the name of their row, and the operands.
struct Pair(u32, u32, &'static str, &'static [i64]);

#[rattlefmt::skip]
static PAIRS: [Pair; 12] = [
    Pair(0x0600_0000, 0x3860_0005, "paddi", &[3, 0, 5, 0]),
    Pair(0x0612_0000, 0x3860_0000, "paddi", &[3, 0, -8_589_934_592, 1]), // the sign stands in the prefix
    Pair(0x0601_ffff, 0x3864_ffff, "paddi", &[3, 4, 8_589_934_591, 0]),
    Pair(0x0600_0000, 0x8064_0005, "plwz", &[3, 5, 4, 0]),
    Pair(0x0603_ffff, 0xb064_fffe, "psth", &[3, -2, 4, 0]),
    Pair(0x0400_1234, 0xe485_5678, "pld", &[4, 0x1234_5678, 5, 0]),
    Pair(0x046c_1234, 0xe485_5678, "pld", &[4, 0x1234_5678, 5, 0]), // bits 9, 10, 12 and 13 are reserved
    Pair(0x0403_ffff, 0xf7e1_fff8, "pstd", &[31, -8, 1, 0]),
    Pair(0x0410_0002, 0xa460_0000, "plwa", &[3, 131_072, 0, 1]),
    Pair(0x0700_0000, 0x0000_0000, "pnop", &[]),
    Pair(0x0700_0000, 0x4800_0000, "pnop", &[]), // before a branch
    Pair(0x0700_0000, 0x0600_0000, "pnop", &[]), // before what would be a prefix
];

#[test]
fn prefixed(rt: HostRuntime) {
    for Pair(prefix, suffix, name, ops) in &PAIRS {
        assert!(rt;
            is(*prefix, *suffix, name, ops, PLAIN),
            "{prefix:08x} {suffix:08x} is no {name}"
        );
    }
}

/// Words that are illegal, and the prefixes with their suffixes.
#[rattlefmt::skip]
static ILLEGAL: [(u32, u32); 35] = [
    (0, 0), (0x7ca3_2202, 0), (0x1400_0000, 0), // no row
    (0xe864_0013, 0), (0xf864_0012, 0), // no row of the format DS
    (0x4400_0001, 0), // bit 30 of sc is 1
    (0x7c64_292c, 0), // stwcx. without bit 31
    // load with update: RA is RT, or 0
    (0x8484_0008, 0), (0x8460_0008, 0), (0xe863_0001, 0), (0x7c63_286e, 0), (0x7c60_286e, 0), (0x7c60_2aee, 0),
    // store with update: RA is 0
    (0x9460_0008, 0), (0xf860_0001, 0), (0x7c60_296e, 0),
    (0x4e00_0420, 0), (0x4e40_0421, 0), // bcctr that counts
    (0x7c64_2b54, 0), (0x7c64_2f54, 0), // addex with CY 1 and 3
    (0x7c6b_42e6, 0), (0x7c60_02e6, 0), (0x7c6e_42e6, 0), // mftb of 267, of 0 and of 270
    // R is 1 and RA isn't 0
    (0x0610_0000, 0x3864_0005), (0x0610_0000, 0x8064_0000), (0x0410_0000, 0xf464_0000),
    // no prefix: pnop with another bit, type 1, bit 8, and type 3 that isn't pnop
    (0x0700_0001, 0), (0x0500_0000, 0x3860_0005), (0x0680_0000, 0x3860_0005), (0x0780_0000, 0x3860_0005),
    // no suffix of this prefix
    (0x0600_0000, 0x6000_0000), (0x0600_0000, 0xe485_5678), (0x0400_0000, 0x3860_0005),
    // no suffix of floating-point, and none behind the prefix of a row of its own
    (0x0600_0000, 0xc420_0000), (0x0400_0000, 0xc820_0000),
];

#[test]
fn illegal(rt: HostRuntime) {
    for (word, suffix) in &ILLEGAL {
        assert!(rt;
            matches!(decoded(*word, *suffix), Decoded::Illegal),
            "{word:08x} {suffix:08x}"
        );
    }
}

/// Words of facilities that aren't there, and prefixes with their suffixes.
#[rattlefmt::skip]
static UNAVAILABLE: [(u32, u32, Facility); 23] = [
    (0xc020_0000, 0, Facility::Fp), (0xc820_0000, 0, Facility::Fp), (0xdc20_0000, 0, Facility::Fp),
    (0xec00_0000, 0, Facility::Fp), (0xffff_ffff, 0, Facility::Fp),
    (0x7c00_042e, 0, Facility::Fp), (0x7c00_07ae, 0, Facility::Fp), (0x7c00_07af, 0, Facility::Fp),
    (0x0600_0000, 0xc064_0000, Facility::Fp), (0x0610_0000, 0xc864_0000, Facility::Fp),
    (0x0600_0000, 0xd064_0000, Facility::Fp), (0x0600_0000, 0xd864_0000, Facility::Fp),
    (0x1000_0000, 0, Facility::Vector), (0x1064_29b2, 0, Facility::Vector), (0x13ff_ffff, 0, Facility::Vector),
    (0x7c00_000c, 0, Facility::Vector), (0x7c00_000e, 0, Facility::Vector),
    (0x7c00_02ce, 0, Facility::Vector), (0x7c00_03ce, 0, Facility::Vector),
    (0x1800_0000, 0, Facility::Vsx), (0xe400_0000, 0, Facility::Vsx),
    (0xf000_0000, 0, Facility::Vsx), (0xf7ff_ffff, 0, Facility::Vsx),
];

#[test]
fn unavailable(rt: HostRuntime) {
    for (word, suffix, facility) in &UNAVAILABLE {
        match decoded(*word, *suffix) {
            Decoded::Unavailable(found) => assert_eq!(rt;
                found,
                *facility,
                "{word:08x} {suffix:08x}"
            ),
            _ => panic!(rt; "{word:08x} {suffix:08x} is of {facility:?}"),
        }
    }
}

/// A word, RA, RB and the displacement.
struct Access(u32, u8, Option<u8>, i64);

#[rattlefmt::skip]
static MISALIGNED: [Access; 6] = [
    Access(0xb864_fff8, 4, None, -8), // lmw r3,-8(r4)
    Access(0xbc7f_7fff, 31, None, 32767), // stmw r3,32767(r31)
    Access(0x7c64_2c2a, 4, Some(5), 0), // lswx r3,r4,r5
    Access(0x7c7f_fd2a, 31, Some(31), 0), // stswx r3,r31,r31
    Access(0x7c64_44aa, 4, None, 0), // lswi r3,r4,8
    Access(0x7c60_05aa, 0, None, 0), // stswi r3,0,0
];

#[test]
fn alignment(rt: HostRuntime) {
    for Access(word, base, index, offset) in &MISALIGNED {
        match decoded(*word, 0) {
            Decoded::Alignment { ra, rb, disp } => assert_eq!(rt;
                (ra, rb, disp),
                (*base, *index, *offset),
                "{word:08x}"
            ),
            _ => panic!(rt; "{word:08x} raises alignment"),
        }
    }
}

#[test]
fn illegal_by_row_and_operands(rt: HostRuntime) {
    // mftb, the one row whose rule asks for a number
    let illegal = match by_name("mftb") {
        Some(row) => [
            is_illegal_form(row, &[3, 268]),
            is_illegal_form(row, &[3, 270]),
            is_illegal_form(row, &[]),
        ],
        None => panic!(rt; "mftb has a row"),
    };
    assert_eq!(rt; illegal, [false, true, true]);
    assert!(rt; !is_illegal_form(224, &[0, 0, 0]));
}
