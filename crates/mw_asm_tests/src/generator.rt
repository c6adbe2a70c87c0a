use mw_asm::disassemble;
use mw_generator::generate;
use sha2::{Digest, Sha256};
use std::test::Fail;

/// What an image of seed 0 starts with.
const START: &str = "\
0000000000000000 38600001 addi r3,r0,1\n\
0000000000000004 7c700ba6 mtspr 48,r3\n\
0000000000000008 3c600001 addis r3,r0,1\n\
000000000000000c 7c70b3a6 mtspr 720,r3\n\
0000000000000010 3c600004 addis r3,r0,4\n\
0000000000000014 3c800010 addis r4,r0,16\n\
0000000000000018 7c9a03a6 mtspr 26,r4\n\
000000000000001c 7ca000a6 mfmsr r5\n\
0000000000000020 60a58030 ori r5,r5,32816\n\
0000000000000024 7cbb03a6 mtspr 27,r5\n\
0000000000000028 39003c11 addi r8,r0,15377\n\
000000000000002c 39200d74 addi r9,r0,3444\n\
0000000000000030 3940a66d addi r10,r0,-22931\n\
0000000000000034 39603f9b addi r11,r0,16283\n\
0000000000000038 398049b8 addi r12,r0,18872\n\
000000000000003c 39a0bbc7 addi r13,r0,-17465\n\
0000000000000040 39c02de0 addi r14,r0,11744\n\
0000000000000044 39e0749b addi r15,r0,29851\n\
0000000000000048 38c00590 addi r6,r0,1424\n\
000000000000004c 7cd603a6 mtspr 22,r6\n\
0000000000000050 4c000024 rfid\n\
";

/// The digest of the image of seed 0, as a script of its own gives it.
const DIGEST: [u8; 32] = [
    0xf5, 0x9d, 0x54, 0x13, 0x7b, 0xa6, 0x24, 0xba, 0xca, 0x47, 0xf8, 0x42, 0x20, 0x15, 0xaf, 0x86,
    0xd3, 0xac, 0xe6, 0xd8, 0xae, 0x39, 0x81, 0xe7, 0x81, 0x50, 0x65, 0xee, 0x00, 0x70, 0x95, 0xbd,
];

#[test]
fn image_of_seed_0_has_its_bytes(rt: HostRuntime) -> Result<(), Fail> {
    let image = generate(rt.alloc(), 0)?;
    let bytes = image.as_slice();
    assert_eq!(rt; bytes.len(), 1_572_864);
    assert_eq!(rt; Sha256::digest(bytes), DIGEST);
    Ok(())
}

#[test]
fn start_of_seed_0_is_printed(rt: HostRuntime) -> Result<(), Fail> {
    let image = generate(rt.alloc(), 0)?;
    let start = image.as_slice().get(..84).expect(&rt, "a start");
    let text = disassemble(rt.alloc(), start)?;
    assert!(rt; text.as_slice() == START.as_bytes());
    Ok(())
}

/// Bytes from a place to another.
struct Part(usize, usize, &'static [u8]);

#[rattlefmt::skip]
static PARTS: [Part; 6] = [
    // The entry of process 1.
    Part(0x1_0010, 0x1_0018, b"\x40\0\0\0\0\x02\0\xad"),
    // Pages 63, 64 and 65: pages 64 to 71 are turned by seven.
    Part(0x3_21f8, 0x3_2200, b"\xc0\0\0\0\0\x03\xf1\x87"),
    Part(0x3_2200, 0x3_2208, b"\xc0\0\0\0\0\x04\x71\x87"),
    Part(0x3_2208, 0x3_2210, b"\xc0\0\0\0\0\x04\x01\x87"),
    // Both ends of the program.
    Part(0x10_0000, 0x10_000c, b"\x34\x69\x43\x91\x23\x59\x2a\x39\x8d\xf5\xaf\x39"),
    Part(0x17_fffc, 0x18_0000, b"\x04\0\xf8\x4b"),
];

#[test]
fn parts_of_seed_0_stand_at_their_places(rt: HostRuntime) -> Result<(), Fail> {
    let image = generate(rt.alloc(), 0)?;
    for Part(from, to, want) in &PARTS {
        assert_eq!(rt; image.as_slice().get(*from..*to), Some(*want), "{from}");
    }
    Ok(())
}

#[test]
fn seeds_have_images_of_their_own(rt: HostRuntime) -> Result<(), Fail> {
    let first = generate(rt.alloc(), 0)?;
    let second = generate(rt.alloc(), u64::MAX)?;
    assert!(rt; first.as_slice() != second.as_slice());
    Ok(())
}
