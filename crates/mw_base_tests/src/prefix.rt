use mw_prefix::{NotWide, Wide, join, split};

/// A prefix, a suffix, and what they are.
struct Pair(u32, u32, Result<Wide, NotWide>);

#[rattlefmt::skip]
static PAIRS: [Pair; 7] = [
    // paddi r3,0,5
    Pair(0x0600_0000, 0x3860_0005, Ok(Wide::Mls { pcrel: false, disp: 5, suffix: 0x3860_0005 })),
    // paddi r3,0,-1,1: R is 1, and all 34 bits are
    Pair(0x0613_ffff, 0x3860_ffff, Ok(Wide::Mls { pcrel: true, disp: 0x3_ffff_ffff, suffix: 0x3860_ffff })),
    // pld r4,0x12345678(r5)
    Pair(0x0400_1234, 0xe485_5678, Ok(Wide::Eight { pcrel: false, disp: 0x1234_5678, suffix: 0xe485_5678 })),
    // pstd r31,-8(r1)
    Pair(0x0403_ffff, 0xf7e1_fff8, Ok(Wide::Eight { pcrel: false, disp: 0x3_ffff_fff8, suffix: 0xf7e1_fff8 })),
    // pstd r0,0x20000(0),1
    Pair(0x0410_0002, 0xf400_0000, Ok(Wide::Eight { pcrel: true, disp: 0x2_0000, suffix: 0xf400_0000 })),
    // pnop, with a suffix that is no instruction and with one that is a branch
    Pair(0x0700_0000, 0x1234_5678, Ok(Wide::Nop { suffix: 0x1234_5678 })),
    Pair(0x0700_0000, 0x4800_0000, Ok(Wide::Nop { suffix: 0x4800_0000 })),
];

/// Prefixes of no form: another opcode, types 1 and 3, bit 8, and all but the no-operation's.
static OTHERS: [u32; 7] = [
    0x0200_0000,
    0x0a00_0000,
    0x0500_0000,
    0x0780_0000,
    0x0680_0000,
    0x0480_0000,
    0x0700_0001,
];

#[test]
fn words_are_split_and_joined(rt: HostRuntime) {
    for Pair(prefix, suffix, want) in &PAIRS {
        let found = split(*prefix, *suffix);
        assert_eq!(rt; found, *want, "{prefix:08x} {suffix:08x}");
        if let Ok(wide) = found {
            assert_eq!(rt; join(&wide), (*prefix, *suffix), "{prefix:08x}");
        }
    }
}

#[test]
fn other_prefixes_are_refused(rt: HostRuntime) {
    for prefix in &OTHERS {
        assert_eq!(rt; split(*prefix, 0), Err(NotWide), "{prefix:08x}");
    }
}

#[test]
fn reserved_bits_are_dropped(rt: HostRuntime) {
    // bits 9, 10, 12 and 13 of a pld
    let found = split(0x046c_1234, 0xe485_5678);
    assert_eq!(rt; found, split(0x0400_1234, 0xe485_5678));
    if let Ok(wide) = found {
        assert_eq!(rt; join(&wide), (0x0400_1234, 0xe485_5678));
    }
}
