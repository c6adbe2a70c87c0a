use mw_asm::{AsmFault, What, assemble};
use std::alloc::{AllocError, Global};
use std::test::Fail;

/// A source and the bytes that it gives.
struct Image(&'static [u8], &'static [u8]);

#[rattlefmt::skip]
static IMAGES: [Image; 22] = [
    Image(b"", b""),
    Image(b"\n \n# text\n", b""),
    Image(b"li r3,5\nb .", b"\x05\x00\x60\x38\x00\x00\x00\x48"),
    Image(b"paddi r3,0,-8589934592,1", b"\x00\x00\x12\x06\x00\x00\x60\x38"),
    Image(b"lis r3,65535", b"\xff\xff\x60\x3c"),
    Image(b"lis r3,-32768", b"\x00\x80\x60\x3c"),
    Image(b"mr r3,r4\nblr", b"\x78\x23\x83\x7c\x20\x00\x80\x4e"),
    // Labels before their definition and behind it, and the statement's own address.
    Image(
        b"start: nop\n b end\n .long end, start, .\nend: b start",
        b"\x00\x00\x00\x60\x10\x00\x00\x48\x14\x00\x00\x00\x00\x00\x00\x00\x08\x00\x00\x00\xec\xff\xff\x4b",
    ),
    Image(b"nop\nx: # alone\n.byte x, x+1, 9-1 # three", b"\x00\x00\x00\x60\x04\x05\x08"),
    // Addresses of targets wrap at 2^64, with AA too.
    Image(b"b 0xfffffffffffffffc", b"\xfc\xff\xff\x4b"),
    Image(b"b -4", b"\xfc\xff\xff\x4b"),
    Image(b"ba -4", b"\xfe\xff\xff\x4b"),
    // The gap that `.org` leaves has zeros.
    Image(b".byte 1\n.org 4\n.byte 2", b"\x01\x00\x00\x00\x02"),
    Image(b".org 3", b"\x00\x00\x00"),
    Image(b"x: .org x+2", b"\x00\x00"),
    // A displacement is a multiple of 4, and a target needn't be one.
    Image(b".byte 1\nb 1", b"\x01\x00\x00\x00\x48"),
    // The least and the greatest value of each unit of data.
    Image(b".byte -128,255", b"\x80\xff"),
    Image(b".long -0x80000000,0xffffffff", b"\x00\x00\x00\x80\xff\xff\xff\xff"),
    Image(b".quad -0x8000000000000000,0xffffffffffffffff", b"\x00\x00\x00\x00\x00\x00\x00\x80\xff\xff\xff\xff\xff\xff\xff\xff"),
    Image(b".be64 -0x8000000000000000,1", b"\x80\x00\x00\x00\x00\x00\x00\x00\x00\x00\x00\x00\x00\x00\x00\x01"),
    Image(b".be64 0xffffffffffffffff", b"\xff\xff\xff\xff\xff\xff\xff\xff"),
    Image(b".quad 0x8000000000000000+0x7fffffffffffffff", b"\xff\xff\xff\xff\xff\xff\xff\xff"),
];

#[test]
fn sources_give_their_bytes(rt: HostRuntime) {
    for Image(source, want) in &IMAGES {
        let image = assemble(rt.alloc(), source).expect(&rt, "a source");
        assert_eq!(rt; image.as_slice(), *want, "{source:?}");
    }
}

/// A source, its first refused line and column, and what is refused there.
struct Refused(&'static [u8], u32, u32, What);

#[rattlefmt::skip]
static REFUSED: [Refused; 38] = [
    Refused(b"nop @", 1, 5, What::Token),
    Refused(b"frob r3", 1, 1, What::Name),
    Refused(b"li r3", 1, 6, What::Operand),
    Refused(b"x: nop\nx: nop", 2, 1, What::Label),
    Refused(b" x:\n\n x:", 3, 2, What::Label),
    Refused(b"b nowhere", 1, 3, What::Label),
    Refused(b".byte 1,nowhere", 1, 9, What::Label),
    Refused(b".quad 1\n.org 4", 2, 6, What::Org),
    Refused(b".org -1", 1, 6, What::Org),
    Refused(b".org x\nx: nop", 1, 6, What::Org),
    Refused(b".org 16777217", 1, 1, What::TooLong),
    Refused(b".org 16777216\nnop", 2, 1, What::TooLong),
    Refused(b".org 16777213\nx: .long 1", 2, 4, What::TooLong),
    Refused(b"mr r3+1,r4", 1, 6, What::Operand),
    Refused(b"b 2", 1, 3, What::Range),
    Refused(b".byte 1\nb 4", 2, 3, What::Range),
    Refused(b"b 0x2000000", 1, 3, What::Range),
    Refused(b"b 0x10000000000000000", 1, 3, What::Token),
    Refused(b"b 0xffffffffffffffff+1", 1, 3, What::Range),
    Refused(b"b -0x8000000000000000-1", 1, 3, What::Range),
    Refused(b"li r3,32768", 1, 7, What::Range),
    Refused(b"lis r3,65536", 1, 8, What::Range),
    Refused(b"lis r3,-32769", 1, 8, What::Range),
    Refused(b"lwzu r3,8(r0)", 1, 1, What::Range),
    Refused(b"x: lwzu r3,8(r0)", 1, 4, What::Range),
    Refused(b".byte 256", 1, 7, What::Range),
    Refused(b".byte -129", 1, 7, What::Range),
    Refused(b".long 0,0x100000000", 1, 9, What::Range),
    Refused(b".quad 0xffffffffffffffff+1", 1, 7, What::Range),
    Refused(b".be64 -0x8000000000000000-1", 1, 7, What::Range),
    Refused(b".long -0x80000001", 1, 7, What::Range),
    Refused(b".quad -0x8000000000000000-1", 1, 7, What::Range),
    Refused(b".be64 0xffffffffffffffff+1", 1, 7, What::Range),
    // The first refused place in a statement, in a line, in a pass.
    Refused(b"addi 99,r0,nolabel", 1, 6, What::Range),
    Refused(b"addi r3,nolabel,99999", 1, 9, What::Label),
    Refused(b"x:\nx: li r3", 2, 9, What::Operand),
    Refused(b"nop @\nfrob", 1, 5, What::Token),
    Refused(b"b nowhere\nfrob", 2, 1, What::Name),
];

#[test]
fn the_first_refused_place_is_told(rt: HostRuntime) {
    for Refused(source, line, column, what) in &REFUSED {
        let want = AsmFault::Bad {
            line: *line,
            column: *column,
            what: *what,
        };
        assert_eq!(rt;
            assemble(rt.alloc(), source).err(),
            Some(want),
            "{source:?}"
        );
    }
}

/// A line of so many blanks.
fn blanks(alloc: Global, count: usize) -> Result<Vec<u8>, AllocError> {
    vec![in alloc; b' '; count]
}

#[test]
fn a_source_has_its_limit(rt: HostRuntime) -> Result<(), Fail> {
    let longest = blanks(rt.alloc(), 4_194_304)?;
    assert!(rt; assemble(rt.alloc(), longest.as_slice()).is_ok());
    let longer = blanks(rt.alloc(), 4_194_305)?;
    let want = AsmFault::Bad {
        line: 1,
        column: 4_194_305,
        what: What::TooLong,
    };
    assert_eq!(rt; assemble(rt.alloc(), longer.as_slice()).err(), Some(want));
    Ok(())
}
