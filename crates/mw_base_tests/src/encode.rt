use mw_decode::{Code, Decoded, decode, encode, is_prefix};

/// The words of the instruction that a word is, or a prefix with its suffix.
fn encoded_again(word: u32, suffix: Option<u32>) -> Option<Code> {
    if suffix.is_some() != is_prefix(word) {
        return None;
    }
    match decode(word, suffix) {
        Decoded::Insn(insn) => Some(encode(&insn)),
        _ => None,
    }
}

/// Words of instructions, and prefixes with their suffixes, whose reserved bits are 0.
#[rattlefmt::skip]
static CODES: [(u32, Option<u32>); 44] = [
    (0x6000_0000, None), // nop: D
    (0x3860_0005, None), // li r3,5
    (0x2fa3_ffff, None), // cmpdi cr7,r3,-1
    (0x8064_fff8, None), // lwz r3,-8(r4)
    (0x7ca3_2214, None), // add r5,r3,r4: XO
    (0x7ca3_2615, None), // addo. r5,r3,r4
    (0x7c64_2893, None), // mulhd. r3,r4,r5
    (0x7c64_04d0, None), // nego r3,r4
    (0x7c64_2954, None), // addex r3,r4,r5,0: Z23
    (0x4c7f_ffc5, None), // addpcis r3,-1: DX
    (0x4800_0000, None), // b .: I
    (0x4bff_fffe, None), // ba -4
    (0x4800_0001, None), // bl .
    (0x4182_fffb, None), // bcla 12,2,-8: B
    (0x4e80_0020, None), // blr: XL
    (0x4e80_0421, None), // bctrl
    (0x4c22_1a02, None), // crand 1,2,3
    (0x4c00_012c, None), // isync
    (0x4c00_0024, None), // rfid
    (0x4400_0002, None), // sc: SC
    (0x5483_298f, None), // rlwinm. r3,r4,5,6,7: M
    (0x7883_ffe2, None), // rldicl r3,r4,63,63: MD
    (0x7883_07c7, None), // rldicr. r3,r4,32,31
    (0x7883_2ff2, None), // rldcr r3,r4,r5,63: MDS
    (0x1064_29b3, None), // maddld r3,r4,r5,r6: VA
    (0x7c83_fe76, None), // sradi r3,r4,63: XS
    (0x7c83_06f7, None), // extswsli. r3,r4,32
    (0x7c64_2fde, None), // isel r3,r4,r5,31: A
    (0xf863_8001, None), // stdu r3,-32768(r3): DS
    (0xe864_7ffe, None), // lwa r3,32764(r4)
    (0x7c00_1fac, None), // icbi 0,r3: X
    (0x7c64_292d, None), // stwcx. r3,r4,r5
    (0x7c40_04ac, None), // sync 2
    (0x7c6b_2264, None), // tlbie r4,r3,2,1,1
    (0x7c61_0164, None), // mtmsrd r3,1
    (0x7c6f_caa6, None), // mfspr r3,815: XFX
    (0x7c6f_f120, None), // mtcrf 255,r3
    (0x7c78_0026, None), // mfocrf r3,128
    (0x0603_ffff, Some(0x3860_ffff)), // pli r3,-1: MLS:D
    (0x0612_0000, Some(0x3860_0000)), // paddi r3,0,-8589934592,1
    (0x0603_ffff, Some(0xb064_fffe)), // psth r3,-2(r4)
    (0x0410_0002, Some(0xa460_0000)), // plwa r3,131072(0),1: 8LS:D
    (0x0403_ffff, Some(0xf7e1_fff8)), // pstd r31,-8(r1)
    (0x0700_0000, Some(0x0000_0000)), // pnop
];

#[test]
fn words_are_encoded_again(rt: HostRuntime) {
    for (word, suffix) in &CODES {
        let code = Code {
            word: *word,
            suffix: *suffix,
        };
        assert_eq!(rt; encoded_again(*word, *suffix), Some(code), "{word:08x}");
    }
}
