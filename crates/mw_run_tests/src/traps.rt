use crate::shared::{Cycles, Left, is_text, push_left, words_of};
use mw_cli::{Status, mw_main};
use mw_io::{SureHost, SureSink};
use std::alloc::{AllocError, Global};
use std::test::Fail;

/// An order, the words of its image with their addresses, and what its text tells.
struct Trapped {
    order: &'static str,
    image: &'static [(usize, &'static [u32])],
    cycles: u64,
    /// The lines of the first events.
    first: &'static [&'static str],
    /// The kind of each later event, and what its line says behind its cycle.
    later: [&'static str; 2],
    left: Left<'static>,
    dump: &'static str,
}

/// b .
const STAY: &[u32] = &[0x4800_0000];

/// A no-operation.
const NOP: u32 = 0x6000_0000;

#[rattlefmt::skip]
static TRAPPED: [Trapped; 3] = [
    // an illegal word, and zeros at its vector
    Trapped {
        order: "run img --cycles 20000",
        image: &[(0, &[0x0060_0005])],
        cycles: 20000,
        first: &["T 0 0000000000000000 0700"],
        later: ["T", "0000000000000700 0700"],
        left: Left { set: &[], cr: "00000000", cia: "0000000000000700", saved: ["0000000000000700", "9000000000081001", "0000000000000000"], dec: "7fffb1df", uart: "-" },
        dump: "",
    },
    // a prefix that ends its block; .org 0x600; b .
    Trapped {
        order: "run img --cycles 200000",
        image: &[(0, &[NOP, NOP, NOP, NOP, NOP, NOP, NOP, NOP, NOP, NOP, NOP, NOP, NOP, NOP, NOP, 0x0600_0000, 0x3860_0005]), (0x600, STAY)],
        cycles: 200000,
        first: &[
            "R 0 0000000000000000 60000000", "R 1 0000000000000004 60000000", "R 2 0000000000000008 60000000",
            "R 3 000000000000000c 60000000", "R 4 0000000000000010 60000000", "R 5 0000000000000014 60000000",
            "R 6 0000000000000018 60000000", "R 7 000000000000001c 60000000", "R 8 0000000000000020 60000000",
            "R 9 0000000000000024 60000000", "R 10 0000000000000028 60000000", "R 11 000000000000002c 60000000",
            "R 12 0000000000000030 60000000", "R 13 0000000000000034 60000000", "R 14 0000000000000038 60000000",
            "T 15 000000000000003c 0600",
        ],
        later: ["R", "0000000000000600 48000000"],
        left: Left { set: &[], cr: "00000000", cia: "0000000000000600", saved: ["000000000000003c", "9000000030001001", "0000000000000000"], dec: "7ffcf2bf", uart: "-" },
        dump: "",
    },
    // li r3,0x100; lwarx r4,r0,r3; li r5,0x102; stwcx. r5,r0,r5; .org 0x600; stwcx. r3,r0,r3; b .
    Trapped {
        order: "run img --cycles 7 --dump 256:8",
        image: &[(0, &[0x3860_0100, 0x7c80_1828, 0x38a0_0102, 0x7ca0_292d]), (0x600, &[0x7c60_192d, 0x4800_0000])],
        cycles: 7,
        first: &[
            "R 0 0000000000000000 38600100", "R 1 0000000000000004 7c801828", "R 2 0000000000000008 38a00102",
            "T 3 000000000000000c 0600", "R 4 0000000000000600 7c60192d",
        ],
        later: ["R", "0000000000000604 48000000"],
        left: Left { set: &[(3, "0000000000000100"), (5, "0000000000000102")], cr: "20000000", cia: "0000000000000604", saved: ["000000000000000c", "9000000000001001", "0000000000000102"], dec: "7ffffff8", uart: "-" },
        dump: "m 0000000000000100 0001000000000000\n",
    },
];

/// The bytes of words at rising addresses, in little-endian order, and zeros between them.
fn image_of(alloc: Global, parts: &[(usize, &[u32])]) -> Result<Vec<u8>, AllocError> {
    let mut image = Vec::new(alloc);
    for (address, words) in parts {
        image.resize(*address, 0)?;
        for word in *words {
            image.extend_from_slice(&word.to_le_bytes())?;
        }
    }
    Ok(image)
}

/// The text of a run that traps.
fn text_of(alloc: Global, run: &Trapped) -> Result<String, AllocError> {
    let mut text = String::new(alloc);
    for line in run.first {
        writeln!(text, "{line}")?;
    }
    let [kind, rest] = run.later;
    for cycle in run.first.len() as u64..run.cycles {
        writeln!(text, "{kind} {cycle} {rest}")?;
    }
    push_left(&mut text, run.cycles, &run.left)?;
    text.push_str(run.dump)?;
    Ok(text)
}

#[test]
fn traps_are_printed(rt: HostRuntime) -> Result<(), Fail> {
    let alloc = rt.alloc();
    for run in &TRAPPED {
        let image = image_of(alloc, run.image)?;
        let mut host = SureHost::new(alloc);
        host.put("img", image.as_slice())?;
        let mut out = SureSink::new(alloc);
        let mut err = SureSink::new(alloc);
        let words = words_of(alloc, run.order)?;
        let status = mw_main(alloc, words.as_slice(), &mut host, &mut out, &mut err);
        assert_eq!(rt; status, Status::Done, "{}", run.order);
        let text = text_of(alloc, run)?;
        assert!(rt;
            is_text(out.as_slice(), text.as_bytes(), Cycles::Count),
            "{}",
            run.order
        );
        assert_eq!(rt; err.as_slice(), b"".as_slice(), "{}", run.order);
    }
    Ok(())
}

/// Two texts, and whether they are the same with their cycles and without them.
#[rattlefmt::skip]
static TEXTS: [(&str, &str, bool, bool); 5] = [
    ("T 3 000000000000000c 0600\nend ran 7\n", "T 3 000000000000000c 0600\nend ran 7\n", true, true),
    ("T 3 000000000000000c 0600\nend ran 7\n", "T 14 000000000000000c 0600\nend ran 7\n", false, true),
    ("T 3 000000000000000c 0600\nend ran 7\n", "T 3 000000000000000c 0700\nend ran 7\n", false, false),
    ("R 3 000000000000000c 60000000\nr3 1\n", "R 3 000000000000000c 60000000\nr3 2\n", false, false),
    ("R 3 000000000000000c 60000000\n", "R 3 000000000000000c 60000000\nR 4 0000000000000010 60000000\n", false, false),
];

#[test]
fn cycles_can_be_left_out(rt: HostRuntime) {
    for (text, other, same, alike) in &TEXTS {
        let (text, other) = (text.as_bytes(), other.as_bytes());
        assert_eq!(rt; is_text(text, other, Cycles::Count), *same);
        assert_eq!(rt; is_text(text, other, Cycles::LeftOut), *alike);
    }
}
