use mw_board::{RunFault, simulate};
use mw_isa::{End, Event};
use mw_uart::Script;
use std::alloc::{AllocError as NoMemory, Global};
use std::test::Fail;

/// The bytes of words in little-endian order.
fn image_of(alloc: Global, words: &[u32]) -> Result<Vec<u8>, NoMemory> {
    let mut image = Vec::new(alloc);
    for word in words {
        image.extend_from_slice(&word.to_le_bytes())?;
    }
    Ok(image)
}

/// An instruction that retires.
fn retire(cycle: u64, cia: u64, word: u32) -> Event {
    Event::Retire {
        cycle,
        cia,
        word,
        suffix: None,
    }
}

#[test]
fn a_run_has_an_event_a_cycle(rt: HostRuntime) -> Result<(), Fail> {
    let alloc = rt.alloc();
    // addi r3,0,5; b .
    let image = [0x05, 0x00, 0x60, 0x38, 0x00, 0x00, 0x00, 0x48];
    match simulate(alloc, &image, &Script::new(alloc), 20000) {
        Ok(run) => {
            let events = run.events.as_slice();
            assert_eq!(rt; events.len(), 20000);
            assert_eq!(rt; events[0], retire(0, 0, 0x3860_0005));
            assert_eq!(rt; events[1], retire(1, 4, 0x4800_0000));
            assert_eq!(rt; events[19999], retire(19999, 4, 0x4800_0000));
            assert_eq!(rt; run.end, End::Ran { cycle: 20000 });
            assert_eq!(rt; [run.state.regs.gpr[3], run.state.regs.cia], [5, 4]);
            assert_eq!(rt; run.state.devices.dec(), 0x7fff_b1df);
        }
        Err(fault) => panic!(rt; "{fault:?}"),
    }
    match simulate(alloc, &image, &Script::new(alloc), 0) {
        Ok(run) => {
            assert_eq!(rt; run.events.as_slice().len(), 0);
            assert_eq!(rt; run.end, End::Ran { cycle: 0 });
            assert_eq!(rt; [run.state.regs.gpr[3], run.state.regs.cia], [0, 0]);
        }
        Err(fault) => panic!(rt; "{fault:?}"),
    }
    Ok(())
}

#[test]
fn too_large_an_image_is_refused(rt: HostRuntime) -> Result<(), Fail> {
    let alloc = rt.alloc();
    let zeros = vec![in alloc; 0; 16777217]?;
    match simulate(alloc, zeros.as_slice(), &Script::new(alloc), 0) {
        Ok(_) => panic!(rt; "too large an image runs"),
        Err(fault) => assert_eq!(rt; fault, RunFault::ImageTooLarge),
    }
    assert!(rt; simulate(alloc, &zeros.as_slice()[1..], &Script::new(alloc), 0).is_ok());
    Ok(())
}

/// The words of an image, a number of cycles, the last address, and registers with their contents.
struct Program(&'static [u32], u64, u64, &'static [(usize, u64)]);

#[rattlefmt::skip]
static PROGRAMS: [Program; 8] = [
    // addi r3,0,5, and zeros behind it that aren't reached
    Program(&[0x3860_0005], 1, 4, &[(3, 5)]),
    // addis r3,0,4660; ori r3,r3,22136; addi r4,0,-1; add r5,r3,r4; b .
    Program(&[0x3c60_1234, 0x6063_5678, 0x3880_ffff, 0x7ca3_2214, 0x4800_0000], 7, 16,
        &[(3, 0x1234_5678), (4, 0xffff_ffff_ffff_ffff), (5, 0x1234_5677)]),
    // addi r0,0,7; addi r3,0,5; add r4,r0,r3; ba 4
    Program(&[0x3800_0007, 0x3860_0005, 0x7c80_1a14, 0x4800_0006], 4, 4, &[(0, 7), (3, 5), (4, 12)]),
    // b 12; a zero; ba -4; b -4; to a word outside of RAM, which isn't reached
    Program(&[0x4800_000c, 0, 0x4bff_fffe, 0x4bff_fffc], 3, 0xffff_ffff_ffff_fffc, &[(3, 0)]),
    // paddi r3,0,-8589934592,1; b .
    Program(&[0x0612_0000, 0x3860_0000, 0x4800_0000], 5, 8, &[(3, 0xffff_fffe_0000_0000)]),
    // b 52; at 52 paddi r3,0,5,0, which ends the block; addi r4,r3,1; b .
    Program(&[0x4800_0034, 0, 0, 0, 0, 0, 0, 0, 0, 0, 0, 0, 0, 0x0600_0000, 0x3860_0005, 0x3883_0001, 0x4800_0000], 6, 64,
        &[(3, 5), (4, 6)]),
    // paddi r3,0,24,1; pld r4,16(0),1; pnop with a suffix that would be a branch; plwa r5,-4(r3),0; b .
    Program(&[0x0610_0000, 0x3860_0020, 0x0410_0000, 0xe480_0018, 0x0700_0000, 0x4bff_fffc, 0x0403_ffff, 0xa4a3_fffc, 0x4800_0000], 8, 32,
        &[(3, 32), (4, 0x4800_0000), (5, 0xffff_ffff_a4a3_fffc)]),
    // li r4,0x10; mtmsrd r4,0; mfmsr r5; b .
    Program(&[0x3880_0010, 0x7c80_0164, 0x7ca0_00a6, 0x4800_0000], 5, 12, &[(5, 0x9000_0000_0000_1011)]),
];

#[test]
fn programs_leave_their_registers(rt: HostRuntime) -> Result<(), Fail> {
    let alloc = rt.alloc();
    for Program(words, n, cia, contents) in &PROGRAMS {
        assert!(rt; *n <= 9);
        let image = image_of(alloc, *words)?;
        match simulate(alloc, image.as_slice(), &Script::new(alloc), *n) {
            Ok(run) => {
                assert_eq!(rt; run.end, End::Ran { cycle: *n }, "{words:?}");
                assert_eq!(rt; run.state.regs.cia, *cia, "{words:?}");
                for (number, content) in *contents {
                    assert!(rt; *number < 32);
                    assert_eq!(rt;
                        run.state.regs.gpr[*number],
                        *content,
                        "r{number} of {words:?}"
                    );
                }
            }
            Err(fault) => panic!(rt; "{fault:?} at {words:?}"),
        }
    }
    Ok(())
}

/// The words of an image, a number of cycles, and CIA, SRR0 and SRR1 at the end.
struct Astray(&'static [u32], u64, [u64; 3]);

/// Programs that turn the translation of fetches on where the first two words of the image are process 0's entry.
#[rattlefmt::skip]
static ASTRAY: [Astray; 6] = [
    // li r4,0x20; mtmsrd r4,0: a root of 28 bits
    Astray(&[0x3880_0020, 0x7c80_0164], 2, [8, 0, 0]),
    Astray(&[0x3880_0020, 0x7c80_0164], 3, [0x400, 8, 0x9000_0000_0008_1021]),
    // li r4,0x4000; b 12; at 12 mtmsr r4,0: a root of 8 bits behind RAM, where each page is privileged
    Astray(&[0x3880_4000, 0x4800_0008, 0, 0x7c80_0124], 4, [0x400, 0x10, 0x9000_0000_1000_d031]),
    // paddi r4,0,0x20; mtmsrd r4,0: a root of 24 bits
    Astray(&[0x0600_0000, 0x3880_0020, 0x7c80_0164], 3, [0x400, 0xc, 0x9000_0000_0008_1021]),
    // li r4,0x20; mtspr 27,r4; rfid: a root of 28 bits; and the zeros at 0x400 and at 0x700
    Astray(&[0x3880_0020, 0x7c9b_03a6, 0x4c00_0024], 4, [0x400, 0, 0x9000_0000_0008_1021]),
    Astray(&[0x3880_0020, 0x7c9b_03a6, 0x4c00_0024], 9, [0x700, 0x700, 0x9000_0000_0008_1001]),
];

#[test]
fn translation_without_tables_ends_no_run(rt: HostRuntime) -> Result<(), Fail> {
    let alloc = rt.alloc();
    for Astray(words, n, want) in &ASTRAY {
        assert!(rt; *n <= 9);
        let image = image_of(alloc, *words)?;
        match simulate(alloc, image.as_slice(), &Script::new(alloc), *n) {
            Ok(run) => {
                let regs = &run.state.regs;
                assert_eq!(rt;
                    [regs.cia, regs.srr0, regs.srr1],
                    *want,
                    "{n} cycles of {words:?}"
                );
                assert_eq!(rt; run.end, End::Ran { cycle: *n }, "{words:?}");
            }
            Err(fault) => panic!(rt; "{fault:?} at {words:?}"),
        }
    }
    Ok(())
}

#[test]
fn one_word_over_and_over_runs(rt: HostRuntime) -> Result<(), Fail> {
    let alloc = rt.alloc();
    for word in [
        0x0000_0000,
        0xffff_ffff,
        0x0606_0606,
        0x3838_3838,
        0x4c4c_4c4c,
        0x7c7c_7c7c,
        0x4c00_0024, // rfid
        0x7c60_0164, // mtmsrd r3,0
    ] {
        let image = image_of(alloc, &[word; 1024])?;
        match simulate(alloc, image.as_slice(), &Script::new(alloc), 5000) {
            Ok(run) => {
                assert_eq!(rt; run.events.as_slice().len(), 5000, "{word:08x}");
                assert_eq!(rt; run.end, End::Ran { cycle: 5000 }, "{word:08x}");
            }
            Err(fault) => panic!(rt; "{fault:?} at {word:08x}"),
        }
    }
    Ok(())
}
