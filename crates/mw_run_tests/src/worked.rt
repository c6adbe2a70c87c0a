use crate::shared::{BEHIND, Cycles, UNSAVED, is_text, push_between, words_of};
use mw_cli::{Status, mw_main};
use mw_io::{SureHost, SureSink};
use std::alloc::{AllocError, Global};
use std::test::Fail;

/// An order, the words of its image, and what its text tells.
struct Worked {
    order: &'static str,
    words: &'static [u32],
    cycles: u64,
    /// The addresses of the events; the last one stays to the end.
    events: &'static [usize],
    /// The registers that aren't 0, with their contents.
    gpr: &'static [(usize, u64)],
    /// CR, XER, LR and CTR.
    special: [u64; 4],
    /// The address and the decrementer.
    behind: [u64; 2],
    /// The lines of the dump.
    dump: &'static str,
}

// li r5,7; li r3,0x1000; ldarx r4,r0,r3; std r3,8(r3); stdcx. r5,r0,r3; mfcr r6; li r8,9; stdcx. r8,r0,r3; mfcr r7; b .
#[rattlefmt::skip]
const RESERVED: &[u32] = &[
    0x38a0_0007, 0x3860_1000, 0x7c80_18a8, 0xf863_0008, 0x7ca0_19ad, 0x7cc0_0026, 0x3900_0009, 0x7d00_19ad,
    0x7ce0_0026, 0x4800_0000,
];

// li r3,0; loop: addi r3,r3,1; bc 18,0,out; bc 16,0,loop; out: b .
#[rattlefmt::skip]
const COUNTING: &[u32] = &[
    0x3860_0000, 0x3863_0001, 0x4240_0008, 0x4200_fff8, 0x4800_0000,
];

// bcl 20,31,next; next: bclrl 20,0,0; b .
#[rattlefmt::skip]
const LINKS: &[u32] = &[
    0x429f_0005, 0x4e80_0021, 0x4800_0000,
];

// li r3,3; loop: addi r4,r4,1; addic. r3,r3,-1; bc 4,2,loop; bl sub; b .; sub: cmpi 1,1,r4,3; crand 31,6,6; mfcr r5; mfocrf r6,0x40; setb r7,0; setbc r8,31; setnbc r9,6; isel r10,r4,r5,6; mcrf 7,1; mtcrf 0x81,r6; bclr 20,0,0
#[rattlefmt::skip]
const SUBROUTINE: &[u32] = &[
    0x3860_0003, 0x3884_0001, 0x3463_ffff, 0x4082_fff8, 0x4800_0009, 0x4800_0000, 0x2ca4_0003, 0x4fe6_3202,
    0x7ca0_0026, 0x7cd4_0026, 0x7ce0_0100, 0x7d1f_0300, 0x7d26_0380, 0x7d44_299e, 0x4f84_0000, 0x7cc8_1120,
    0x4e80_0020,
];

// li r3,-1; li r4,1; ori r5,r5,0xffff; oris r5,r5,0xffff; cmp 0,1,r3,r4; cmpl 1,1,r3,r4; cmp 2,0,r5,r4; cmp 3,1,r5,r4; cmpl 4,0,r5,r3; cmpi 5,1,r3,-1; cmpli 6,0,r3,65535; cmpi 7,0,r5,-1; b .
#[rattlefmt::skip]
const COMPARES: &[u32] = &[
    0x3860_ffff, 0x3880_0001, 0x60a5_ffff, 0x64a5_ffff, 0x7c23_2000, 0x7ca3_2040, 0x7d05_2000, 0x7da5_2000,
    0x7e05_1840, 0x2ea3_ffff, 0x2b03_ffff, 0x2f85_ffff, 0x4800_0000,
];

// li r3,5; mtcrf 0xff,r3; crnor 0,29,30; crandc 1,29,31; crxor 2,29,31; crnand 3,29,31; crand 4,29,31; creqv 5,29,30; crorc 6,30,30; cror 7,30,28; crandc 8,29,30; b .
#[rattlefmt::skip]
const LOGIC: &[u32] = &[
    0x3860_0005, 0x7c6f_f120, 0x4c1d_f042, 0x4c3d_f902, 0x4c5d_f982, 0x4c7d_f9c2, 0x4c9d_fa02, 0x4cbd_f242,
    0x4cde_f342, 0x4cfe_e382, 0x4d1d_f102, 0x4800_0000,
];

// li r3,0x42; lis r4,0x7a61; ori r4,r4,0x5a41; li r5,0x62; li r6,0x5a; cmprb 2,1,r3,r4; cmprb 3,0,r3,r4; cmprb 4,1,r5,r4; cmprb 5,0,r5,r4; cmpeqb 6,r3,r4; cmpeqb 7,r6,r4; cmpl 1,0,r4,r3; addco r7,r4,r4; mcrxrx 0; b .
#[rattlefmt::skip]
const BYTES: &[u32] = &[
    0x3860_0042, 0x3c80_7a61, 0x6084_5a41, 0x38a0_0062, 0x38c0_005a, 0x7d23_2180, 0x7d83_2180, 0x7e25_2180,
    0x7e85_2180, 0x7f03_21c0, 0x7f86_21c0, 0x7c84_1840, 0x7ce4_2414, 0x7c00_0480, 0x4800_0000,
];

// li r3,4; twi 4,r3,5; tdi 3,r3,4; tw 24,r3,r3; td 4,r3,r3
#[rattlefmt::skip]
const TRAPS: &[u32] = &[
    0x3860_0004, 0x0c83_0005, 0x0863_0004, 0x7f03_1808, 0x7c83_1888,
];

#[rattlefmt::skip]
static WORKED: [Worked; 8] = [
    Worked {
        order: "run img --cycles 100000 --dump 4096:16",
        words: RESERVED,
        cycles: 100000,
        events: &[0, 4, 8, 0xc, 0x10, 0x14, 0x18, 0x1c, 0x20, 0x24],
        gpr: &[(3, 0x1000), (5, 7), (6, 0x2000_0000), (8, 9)],
        special: [0, 0, 0, 0],
        behind: [0x24, 0x7ffe_795f],
        dump: "m 0000000000001000 07000000000000000010000000000000\n",
    },
    Worked {
        order: "run img --cycles 9",
        words: COUNTING,
        cycles: 9,
        events: &[0, 4, 8, 0xc, 4, 8, 0xc, 4, 8],
        gpr: &[(3, 3)],
        special: [0, 0, 0, 0xffff_ffff_ffff_fffb],
        behind: [0xc, 0x7fff_fff6],
        dump: "",
    },
    Worked {
        order: "run img --cycles 4",
        words: LINKS,
        cycles: 4,
        events: &[0, 4, 4, 8],
        gpr: &[],
        special: [0, 0, 8, 0],
        behind: [8, 0x7fff_fffb],
        dump: "",
    },
    Worked {
        order: "run img --cycles 30",
        words: SUBROUTINE,
        cycles: 30,
        events: &[0, 4, 8, 0xc, 4, 8, 0xc, 4, 8, 0xc, 0x10, 0x18, 0x1c, 0x20, 0x24, 0x28, 0x2c, 0x30, 0x34, 0x38, 0x3c, 0x40, 0x14],
        gpr: &[(4, 3), (5, 0x2200_0001), (6, 0x200_0000), (8, 1), (9, 0xffff_ffff_ffff_ffff), (10, 3)],
        special: [0x200_0000, 0x2004_0000, 0x14, 0],
        behind: [0x14, 0x7fff_ffe1],
        dump: "",
    },
    Worked {
        order: "run img --cycles 13",
        words: COMPARES,
        cycles: 13,
        events: &[0, 4, 8, 0xc, 0x10, 0x14, 0x18, 0x1c, 0x20, 0x24, 0x28, 0x2c, 0x30],
        gpr: &[(3, 0xffff_ffff_ffff_ffff), (4, 1), (5, 0xffff_ffff)],
        special: [0x8484_2242, 0, 0, 0],
        behind: [0x30, 0x7fff_fff2],
        dump: "",
    },
    Worked {
        order: "run img --cycles 12",
        words: LOGIC,
        cycles: 12,
        events: &[0, 4, 8, 0xc, 0x10, 0x14, 0x18, 0x1c, 0x20, 0x24, 0x28, 0x2c],
        gpr: &[(3, 5)],
        special: [0xa80_0005, 0, 0, 0],
        behind: [0x2c, 0x7fff_fff3],
        dump: "",
    },
    Worked {
        order: "run img --cycles 15",
        words: BYTES,
        cycles: 15,
        events: &[0, 4, 8, 0xc, 0x10, 0x14, 0x18, 0x1c, 0x20, 0x24, 0x28, 0x2c, 0x30, 0x34, 0x38],
        gpr: &[(3, 0x42), (4, 0x7a61_5a41), (5, 0x62), (6, 0x5a), (7, 0xf4c2_b482)],
        special: [0x4444_4004, 0x8_0000, 0, 0],
        behind: [0x38, 0x7fff_fff0],
        dump: "",
    },
    Worked {
        order: "run img --cycles 4",
        words: TRAPS,
        cycles: 4,
        events: &[0, 4, 8, 0xc],
        gpr: &[(3, 4)],
        special: [0, 0, 0, 0],
        behind: [0x10, 0x7fff_fffb],
        dump: "",
    },
];

/// The content of the register of a number: the one given for it, or 0.
fn content_of(set: &[(usize, u64)], number: usize) -> u64 {
    for (register, content) in set {
        if *register == number {
            return *content;
        }
    }
    0
}

/// The word at an address of an image, or 0.
fn word_at(words: &[u32], address: usize) -> u32 {
    let at = address / 4;
    if at < words.len() { words[at] } else { 0 }
}

/// Appends the lines of the events.
fn push_events(text: &mut String, worked: &Worked) -> Result<(), AllocError> {
    let mut cycle = 0u64;
    let mut last = 0;
    for address in worked.events {
        last = *address;
        let word = word_at(worked.words, last);
        writeln!(text, "R {cycle} {last:016x} {word:08x}")?;
        cycle = cycle.wrapping_add(1);
    }
    let word = word_at(worked.words, last);
    for later in cycle..worked.cycles {
        writeln!(text, "R {later} {last:016x} {word:08x}")?;
    }
    Ok(())
}

/// The text of a worked run.
fn text_of(alloc: Global, worked: &Worked) -> Result<String, AllocError> {
    let mut text = String::new(alloc);
    push_events(&mut text, worked)?;
    let cycles = worked.cycles;
    writeln!(text, "end ran {cycles}")?;
    for number in 0..32 {
        let content = content_of(worked.gpr, number);
        writeln!(text, "r{number} {content:016x}")?;
    }
    let [cr, xer, lr, ctr] = worked.special;
    writeln!(text, "cr {cr:08x}")?;
    writeln!(text, "xer {xer:016x}")?;
    writeln!(text, "lr {lr:016x}")?;
    writeln!(text, "ctr {ctr:016x}")?;
    text.push_str("tar 0000000000000000\n")?;
    let [cia, dec] = worked.behind;
    writeln!(text, "cia {cia:016x}")?;
    push_between(&mut text, &UNSAVED)?;
    writeln!(text, "dec {dec:08x}")?;
    text.push_str(BEHIND)?;
    text.push_str("uart -\n")?;
    text.push_str(worked.dump)?;
    Ok(text)
}

/// The bytes of words in little-endian order.
fn image_of(alloc: Global, words: &[u32]) -> Result<Vec<u8>, AllocError> {
    let mut image = Vec::new(alloc);
    for word in words {
        image.extend_from_slice(&word.to_le_bytes())?;
    }
    Ok(image)
}

#[test]
fn worked_runs_are_printed_whole(rt: HostRuntime) -> Result<(), Fail> {
    let alloc = rt.alloc();
    for worked in &WORKED {
        let image = image_of(alloc, worked.words)?;
        let mut host = SureHost::new(alloc);
        host.put("img", image.as_slice())?;
        let mut out = SureSink::new(alloc);
        let mut err = SureSink::new(alloc);
        let words = words_of(alloc, worked.order)?;
        let status = mw_main(alloc, words.as_slice(), &mut host, &mut out, &mut err);
        assert_eq!(rt; status, Status::Done, "{}", worked.order);
        let text = text_of(alloc, worked)?;
        assert!(rt;
            is_text(out.as_slice(), text.as_bytes(), Cycles::Count),
            "{}",
            worked.order
        );
        assert_eq!(rt; err.as_slice(), b"".as_slice(), "{}", worked.order);
    }
    Ok(())
}
