use mw_asm::{disassemble, print_statement};
use mw_decode::{Decoded, decode};
use std::test::Fail;

/// An image and its disassembly.
struct Printed(&'static [u8], &'static str);

#[rattlefmt::skip]
static PRINTED: [Printed; 23] = [
    Printed(b"", ""),
    Printed(b"\x05\0\x60", "0000000000000000 00600005 .long 0x00600005\n"),
    Printed(b"\x05\0\x60\x38\0\0\0\x48", "0000000000000000 38600005 addi r3,r0,5\n0000000000000004 48000000 b 0x4\n"),
    Printed(b"\0\0\x12\x06\0\0\x60\x38\0\0\0\x04\x10\0\x80\xe4", "0000000000000000 06120000 38600000 paddi r3,r0,-8589934592,1\n0000000000000008 04000000 e4800010 pld r4,16(r0),0\n"),
    Printed(b"\0\0\x12\x06\0\0\0\x48", "0000000000000000 06120000 .long 0x06120000\n0000000000000004 48000000 b 0x4\n"),
    Printed(b"\0\0\0\x07", "0000000000000000 07000000 .long 0x07000000\n"),
    Printed(b"\0\0\0\x07\0\0\0\x07\0\0\0\x07", "0000000000000000 07000000 07000000 pnop\n0000000000000008 07000000 .long 0x07000000\n"),
    // A prefix in the last word of a block.
    Printed(b"\0\0\0\x60\0\0\0\x60\0\0\0\x60\0\0\0\x60\0\0\0\x60\0\0\0\x60\0\0\0\x60\0\0\0\x60\0\0\0\x60\0\0\0\x60\0\0\0\x60\0\0\0\x60\0\0\0\x60\0\0\0\x60\0\0\0\x60\0\0\x12\x06\0\0\x60\x38", "0000000000000000 60000000 ori r0,r0,0\n0000000000000004 60000000 ori r0,r0,0\n0000000000000008 60000000 ori r0,r0,0\n000000000000000c 60000000 ori r0,r0,0\n0000000000000010 60000000 ori r0,r0,0\n0000000000000014 60000000 ori r0,r0,0\n0000000000000018 60000000 ori r0,r0,0\n000000000000001c 60000000 ori r0,r0,0\n0000000000000020 60000000 ori r0,r0,0\n0000000000000024 60000000 ori r0,r0,0\n0000000000000028 60000000 ori r0,r0,0\n000000000000002c 60000000 ori r0,r0,0\n0000000000000030 60000000 ori r0,r0,0\n0000000000000034 60000000 ori r0,r0,0\n0000000000000038 60000000 ori r0,r0,0\n000000000000003c 06120000 .long 0x06120000\n0000000000000040 38600000 addi r3,r0,0\n"),
    Printed(b"\0\0\0\x07\x05", "0000000000000000 07000000 00000005 pnop\n"),
    Printed(b"\0\0\0\x07\x05\0\x60", "0000000000000000 07000000 00600005 pnop\n"),
    Printed(b"\x15\x2a\x64\x7c\x14\x2e\x64\x7c", "0000000000000000 7c642a15 add. r3,r4,r5\n0000000000000004 7c642e14 addo r3,r4,r5\n"),
    Printed(b"\x15\x2e\x64\x7c\x2d\x29\x64\x7c", "0000000000000000 7c642e15 addo. r3,r4,r5\n0000000000000004 7c64292d stwcx. r3,r4,r5\n"),
    Printed(b"\x03\x01\0\x48\xf8\xff\xff\x4b", "0000000000000000 48000103 bla 0x100\n0000000000000004 4bfffff8 b 0xfffffffffffffffc\n"),
    Printed(b"\xfc\xff\xff\x4b\xfd\xff\xff\x4b", "0000000000000000 4bfffffc b 0xfffffffffffffffc\n0000000000000004 4bfffffd bl 0x0\n"),
    Printed(b"\x05\0\x9f\x42\xfa\xff\x82\x41", "0000000000000000 429f0005 bcl 20,31,0x4\n0000000000000004 4182fffa bca 12,2,0xfffffffffffffff8\n"),
    Printed(b"\xf8\xff\x64\x80\x02\0\0\x44", "0000000000000000 8064fff8 lwz r3,-8(r4)\n0000000000000004 44000002 sc\n"),
    Printed(b"\x64\x22\x6b\x7c\xac\x04\x40\x7c", "0000000000000000 7c6b2264 tlbie r4,r3,2,1,1\n0000000000000004 7c4004ac sync 2\n"),
    Printed(b"\xa6\x03\x7a\x7c\x02\x1a\x22\x4c", "0000000000000000 7c7a03a6 mtspr 26,r3\n0000000000000004 4c221a02 crand 1,2,3\n"),
    Printed(b"\xff\xff\x23\x2c\0\0\0\x60", "0000000000000000 2c23ffff cmpi 0,1,r3,-1\n0000000000000004 60000000 ori r0,r0,0\n"),
    Printed(b"\x08\0\x23\xc8\xce\x20\x23\x7c", "0000000000000000 c8230008 .long 0xc8230008\n0000000000000004 7c2320ce .long 0x7c2320ce\n"),
    Printed(b"\0\0\0\x06\x08\0\x23\xc8", "0000000000000000 06000000 .long 0x06000000\n0000000000000004 c8230008 .long 0xc8230008\n"),
    Printed(b"\x02\0\x23\xe4\0\0\x64\xb8", "0000000000000000 e4230002 .long 0xe4230002\n0000000000000004 b8640000 .long 0xb8640000\n"),
    Printed(b"\x2a\x2c\x64\x7c\x08\0\x63\x84", "0000000000000000 7c642c2a .long 0x7c642c2a\n0000000000000004 84630008 .long 0x84630008\n"),
];

#[test]
fn images_have_their_lines(rt: HostRuntime) -> Result<(), Fail> {
    for Printed(image, text) in &PRINTED {
        let printed = disassemble(rt.alloc(), image)?;
        assert!(rt; printed.as_slice() == text.as_bytes(), "{text}");
    }
    Ok(())
}

#[test]
fn statement_is_printed_alone(rt: HostRuntime) -> Result<(), Fail> {
    match decode(0x4182_fffa, None) {
        Decoded::Insn(insn) => {
            let text = print_statement(rt.alloc(), &insn, 0)?;
            assert!(rt; text.as_slice() == "bca 12,2,0xfffffffffffffff8".as_bytes());
        }
        _ => panic!(rt; "no instruction"),
    }
    Ok(())
}
