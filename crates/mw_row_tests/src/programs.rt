use crate::left::leaves;
use mw_board::simulate;
use mw_isa::End;
use mw_uart::Script;
use std::alloc::{AllocError as NoMemory, Global};
use std::test::Fail;

/// The words of an image, a number of cycles, XER, CR, and registers with their contents.
struct Program(&'static [u32], u64, u64, u32, &'static [(usize, u64)]);

// li r3,-1; li r4,1; addc. r5,r3,r4; adde r6,r3,r4; subfc r7,r4,r3; subfe r8,r3,r4; addme r9,r4; addze r10,r3; subfic r11,r4,0; subfme r12,r3; b .
const SUM: &[u32] = &[
    0x3860_ffff,
    0x3880_0001,
    0x7ca3_2015,
    0x7cc3_2114,
    0x7ce4_1810,
    0x7d03_2110,
    0x7d24_01d4,
    0x7d43_0194,
    0x2164_0000,
    0x7d83_01d0,
    0x4800_0000,
];

// lis r3,0x7fff; ori r3,r3,0xffff; li r4,1; addo r5,r3,r4; rldicr r6,r4,63,0; addo. r7,r6,r6; addo r8,r4,r4; add. r9,r4,r4; addex r10,r6,r6,0; nego. r11,r6; b .
const OVERFLOW: &[u32] = &[
    0x3c60_7fff,
    0x6063_ffff,
    0x3880_0001,
    0x7ca3_2614,
    0x7886_f806,
    0x7ce6_3615,
    0x7d04_2614,
    0x7d24_2215,
    0x7d46_3154,
    0x7d66_04d1,
    0x4800_0000,
];

// lis r3,0x1234; ori r3,r3,0x5678; rldimi r3,r3,32,0; addis r3,r3,-0x7654; rlwinm r4,r3,8,24,31; rlwinm r5,r3,4,28,3; rlwimi r4,r3,16,0,15; rldicl r6,r3,12,52; rldicr r7,r3,8,15; rldic r8,r3,4,40; li r9,68; rldcl r10,r3,r9,56; rlwnm r11,r3,r9,0,31; rldcr r12,r3,r9,7; b .
const ROTATE: &[u32] = &[
    0x3c60_1234,
    0x6063_5678,
    0x7863_000e,
    0x3c63_89ac,
    0x5464_463e,
    0x5465_2706,
    0x5064_801e,
    0x7866_6520,
    0x7867_43c4,
    0x7868_2228,
    0x3920_0044,
    0x786a_4e30,
    0x5c6b_483e,
    0x786c_49d2,
    0x4800_0000,
];

// lis r3,-0x8000; ori r3,r3,1; li r4,33; srawi r5,r3,1; sraw r6,r3,r4; srad r7,r3,r4; slw r8,r3,r4; srw r9,r3,r4; sld r10,r3,r4; srd r11,r3,r4; sradi. r12,r3,63; extswsli r13,r3,4; srawi r14,r3,0; b .
const SHIFT: &[u32] = &[
    0x3c60_8000,
    0x6063_0001,
    0x3880_0021,
    0x7c65_0e70,
    0x7c66_2630,
    0x7c67_2634,
    0x7c68_2030,
    0x7c69_2430,
    0x7c6a_2036,
    0x7c6b_2436,
    0x7c6c_fe77,
    0x7c6d_26f4,
    0x7c6e_0670,
    0x4800_0000,
];

// li r3,1; rldicr r3,r3,63,0; li r4,-1; divdo r5,r3,r4; li r6,0; divdo r7,r3,r6; b .
const DIVIDE: &[u32] = &[
    0x3860_0001,
    0x7863_f806,
    0x3880_ffff,
    0x7ca3_27d2,
    0x38c0_0000,
    0x7ce3_37d2,
    0x4800_0000,
];

// li r3,-4; rldicl r3,r3,0,1; li r4,2; mulldo. r5,r3,r4; li r6,-7; divwo. r7,r6,r4; b .
const MULTIPLY: &[u32] = &[
    0x3860_fffc,
    0x7863_0040,
    0x3880_0002,
    0x7ca3_25d3,
    0x38c0_fff9,
    0x7ce6_27d7,
    0x4800_0000,
];

#[rattlefmt::skip]
static PROGRAMS: [Program; 17] = [
    Program(SUM, 3, 0x2004_0000, 0x2000_0000, &[(5, 0)]),
    Program(SUM, 6, 0, 0x2000_0000, &[(8, 2)]),
    Program(SUM, 7, 0x2004_0000, 0x2000_0000, &[(9, 0)]),
    Program(SUM, 12, 0, 0x2000_0000, &[(6, 1), (7, 0xffff_ffff_ffff_fffe), (8, 2), (9, 0), (10, 0), (11, 0xffff_ffff_ffff_ffff), (12, 0xffff_ffff_ffff_ffff)]),
    Program(OVERFLOW, 4, 0x0008_0000, 0, &[(5, 0x8000_0000)]),
    Program(OVERFLOW, 6, 0xc000_0000, 0x3000_0000, &[(7, 0)]),
    Program(OVERFLOW, 7, 0x8000_0000, 0x3000_0000, &[(8, 2)]),
    Program(OVERFLOW, 8, 0x8000_0000, 0x5000_0000, &[(9, 2)]),
    Program(OVERFLOW, 9, 0xc000_0000, 0x5000_0000, &[(10, 0)]),
    Program(OVERFLOW, 12, 0xc000_0000, 0x9000_0000, &[(7, 0), (10, 0), (11, 0x8000_0000_0000_0000)]),
    Program(ROTATE, 16, 0, 0, &[(3, 0x1234_5677_9be0_5678), (4, 0x5678_009b), (5, 0xbe05_6789_b000_0009), (6, 0x123),
        (7, 0x3456_0000_0000_0000), (8, 0x5_6780), (10, 0x81), (11, 0xbe05_6789), (12, 0x2300_0000_0000_0000)]),
    Program(DIVIDE, 9, 0xc008_0000, 0, &[(3, 0x8000_0000_0000_0000), (5, 0), (7, 0)]),
    Program(MULTIPLY, 4, 0xc008_0000, 0x9000_0000, &[(5, 0xffff_ffff_ffff_fff8)]),
    Program(MULTIPLY, 6, 0x8000_0000, 0x5000_0000, &[(7, 0xffff_fffd)]),
    Program(SHIFT, 4, 0x2004_0000, 0, &[(5, 0xffff_ffff_c000_0000)]),
    Program(SHIFT, 11, 0x2004_0000, 0x8000_0000, &[(12, 0xffff_ffff_ffff_ffff)]),
    Program(SHIFT, 15, 0, 0x8000_0000, &[(5, 0xffff_ffff_c000_0000), (6, 0xffff_ffff_ffff_ffff), (7, 0xffff_ffff_ffff_ffff), (8, 0), (9, 0), (10, 0x2_0000_0000),
        (11, 0x7fff_ffff), (12, 0xffff_ffff_ffff_ffff), (13, 0xffff_fff8_0000_0010), (14, 0xffff_ffff_8000_0001)]),
];

/// An image of words.
fn image_of(alloc: Global, words: &[u32]) -> Result<Vec<u8>, NoMemory> {
    let mut image = Vec::new(alloc);
    for word in words {
        image.extend_from_slice(&word.to_le_bytes())?;
    }
    Ok(image)
}

#[test]
fn programs_of_results(rt: HostRuntime) -> Result<(), Fail> {
    let alloc = rt.alloc();
    for Program(words, n, xer, cr, contents) in &PROGRAMS {
        assert!(rt; *n <= 16);
        let image = image_of(alloc, *words)?;
        match simulate(alloc, image.as_slice(), &Script::new(alloc), *n) {
            Ok(run) => {
                assert_eq!(rt; run.end, End::Ran { cycle: *n }, "{words:?}");
                assert_eq!(rt; run.state.regs.xer, *xer, "XER after {n} of {words:?}");
                assert_eq!(rt;
                    [run.state.regs.cr, 16],
                    [*cr, 16],
                    "CR after {n} of {words:?}"
                );
                leaves(&rt, &run, contents, &[], &(*n, *words))?;
            }
            Err(fault) => panic!(rt; "{fault:?} at {words:?}"),
        }
    }
    Ok(())
}
