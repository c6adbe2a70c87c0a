use mw_board::simulate;
use mw_isa::End;
use mw_uart::Script;
use std::alloc::{AllocError as NoMemory, Global};
use std::test::Fail;

/// The words of an image, the doubleword at 256, a number of cycles, the content of r6, and all bytes sent.
struct Program(&'static [u32], u64, u64, u64, &'static [u8]);

/// Where the UART stands.
const UART: u64 = 0xC000_2000;

/// Where the system controller stands.
const SYSTEM: u64 = 0xC000_0000;

/// The programs, each of which begins with ld r3,256(0).
#[rattlefmt::skip]
static PROGRAMS: [Program; 20] = [
    // addi r4,0,65; stb r4,0(r3) in cycle 2; b .: the byte is sent in cycle 162
    Program(&[0xe860_0100, 0x3880_0041, 0x9883_0000, 0x4800_0000], UART, 161, 0, b""),
    Program(&[0xe860_0100, 0x3880_0041, 0x9883_0000, 0x4800_0000], UART, 162, 0, b"A"),
    Program(&[0xe860_0100, 0x3880_0041, 0x9883_0000, 0x4800_0000], UART, 40000, 0, b"A"),
    // addi r4,0,65; stb r4,0(r3); addi r5,0,1; sth r5,24(r3); addi r4,0,66; stb r4,0(r3); b .: the divider moves the later byte alone
    Program(&[0xe860_0100, 0x3880_0041, 0x9883_0000, 0x38a0_0001, 0xb0a3_0018, 0x3880_0042, 0x9883_0000, 0x4800_0000], UART, 481, 0, b"A"),
    Program(&[0xe860_0100, 0x3880_0041, 0x9883_0000, 0x38a0_0001, 0xb0a3_0018, 0x3880_0042, 0x9883_0000, 0x4800_0000], UART, 482, 0, b"AB"),
    // addi r4,0,97; sixteen times stb r4,0(r3); addi r4,0,98; stb r4,0(r3); b .: the last byte finds no place
    Program(&[0xe860_0100, 0x3880_0061, 0x9883_0000, 0x9883_0000, 0x9883_0000, 0x9883_0000, 0x9883_0000, 0x9883_0000, 0x9883_0000, 0x9883_0000, 0x9883_0000, 0x9883_0000, 0x9883_0000, 0x9883_0000, 0x9883_0000, 0x9883_0000, 0x9883_0000, 0x9883_0000, 0x3880_0062, 0x9883_0000, 0x4800_0000], UART, 3000, 0, b"aaaaaaaaaaaaaaaa"),
    // lbz r6,16(r3): both queues are empty
    Program(&[0xe860_0100, 0x88c3_0010], UART, 2, 3, b""),
    // addi r4,0,65; stb r4,0(r3); ld r6,16(r3): the send queue isn't empty
    Program(&[0xe860_0100, 0x3880_0041, 0x9883_0000, 0xe8c3_0010], UART, 4, 1, b""),
    // addi r4,0,65; stb r4,1(r3); b .: the first byte of the slot isn't covered
    Program(&[0xe860_0100, 0x3880_0041, 0x9883_0001, 0x4800_0000], UART, 400, 0, b""),
    // addi r4,0,65; stwbrx r4,0,r3; b .: the byte at the lowest address is 0
    Program(&[0xe860_0100, 0x3880_0041, 0x7c80_1d2c, 0x4800_0000], UART, 162, 0, b"\0"),
    // addi r5,0,4660; stw r5,24(r3) and stb r5,24(r3), which sets the register whole; lwz r6,24(r3)
    Program(&[0xe860_0100, 0x38a0_1234, 0x90a3_0018, 0x80c3_0018], UART, 4, 0x1234, b""),
    Program(&[0xe860_0100, 0x38a0_1234, 0x90a3_0018, 0x98a3_0018, 0x80c3_0018], UART, 5, 0x34, b""),
    // addi r6,0,7; ld r6,8(r3): nothing was received
    Program(&[0xe860_0100, 0x38c0_0007, 0xe8c3_0008], UART, 3, 0, b""),
    // ld r6 at 0, 8, 16, 24 and 32; lwz r6,0(r3)
    Program(&[0xe860_0100, 0xe8c3_0000], SYSTEM, 2, 0xF00D_AA55_0001_0001, b""),
    Program(&[0xe860_0100, 0xe8c3_0008], SYSTEM, 2, 5, b""),
    Program(&[0xe860_0100, 0xe8c3_0010], SYSTEM, 2, 16777216, b""),
    Program(&[0xe860_0100, 0xe8c3_0018], SYSTEM, 2, 0, b""),
    Program(&[0xe860_0100, 0xe8c3_0020], SYSTEM, 2, 100000000, b""),
    Program(&[0xe860_0100, 0x80c3_0000], SYSTEM, 2, 0, b""),
    // lha r6,0(r3) where nothing stands
    Program(&[0xe860_0100, 0xa8c3_0000], 0xC000_1000, 2, 0xffff_ffff_ffff_ffff, b""),
];

/// An image of words with a doubleword at 256.
fn image_of(alloc: Global, words: &[u32], base: u64) -> Result<Vec<u8>, NoMemory> {
    let mut image = Vec::new(alloc);
    for word in words {
        image.extend_from_slice(&word.to_le_bytes())?;
    }
    image.resize(256, 0)?;
    image.extend_from_slice(&base.to_le_bytes())?;
    Ok(image)
}

#[test]
fn programs_of_devices(rt: HostRuntime) -> Result<(), Fail> {
    let alloc = rt.alloc();
    for Program(words, base, n, content, sent) in &PROGRAMS {
        assert!(rt; *n <= 40000);
        let image = image_of(alloc, *words, *base)?;
        match simulate(alloc, image.as_slice(), &Script::new(alloc), *n) {
            Ok(run) => {
                assert_eq!(rt; run.end, End::Ran { cycle: *n }, "{words:?} at {n}");
                assert_eq!(rt; run.state.regs.gpr[6], *content, "r6 of {words:?} at {n}");
                assert_eq!(rt;
                    run.state.devices.output(),
                    *sent,
                    "sent by {words:?} at {n}"
                );
            }
            Err(fault) => panic!(rt; "{fault:?} at {words:?}"),
        }
    }
    Ok(())
}
