use mw_bits::{Bytes, exts34, field, mask, rotl, sext};
use std::test::Fail;

/// A word, the first and the last bit, and the field between them.
struct Part(u64, u32, u32, u64);

#[rattlefmt::skip]
static PARTS: [Part; 9] = [
    // addi r3,0,5 of Book I: opcode 14, RT 3, RA 0, SI 5
    Part(0x3860_0005, 32, 37, 14),
    Part(0x3860_0005, 38, 42, 3),
    Part(0x3860_0005, 43, 47, 0),
    Part(0x3860_0005, 48, 63, 5),
    Part(0x8000_0000_0000_0001, 0, 0, 1),
    Part(0x8000_0000_0000_0001, 1, 62, 0),
    Part(0x8000_0000_0000_0001, 63, 63, 1),
    Part(0xfedc_ba98_7654_3210, 4, 11, 0xed),
    Part(0xfedc_ba98_7654_3210, 0, 63, 0xfedc_ba98_7654_3210),
];

/// A number, a width, and the number of this width extended to 64 bits.
struct Extension(u64, u32, u64);

#[rattlefmt::skip]
static EXTENSIONS: [Extension; 8] = [
    Extension(0xffff, 16, 0xffff_ffff_ffff_ffff),
    Extension(0x7fff, 16, 0x7fff),
    Extension(0x8000, 16, 0xffff_ffff_ffff_8000),
    Extension(0x1_2345, 16, 0x2345),
    Extension(0x3ff_fffc, 26, 0xffff_ffff_ffff_fffc),
    Extension(0x1ff_fffc, 26, 0x1ff_fffc),
    Extension(1, 1, 0xffff_ffff_ffff_ffff),
    Extension(0x8000_0000_0000_0000, 64, 0x8000_0000_0000_0000),
];

#[test]
fn fields_are_counted_from_the_left(rt: HostRuntime) {
    for Part(word, first, last, want) in &PARTS {
        assert!(rt; *first <= *last && *last <= 63);
        assert_eq!(rt;
            field(*word, *first, *last),
            *want,
            "{word:x} from {first} to {last}"
        );
    }
    for Extension(x, width, want) in &EXTENSIONS {
        assert!(rt; 1 <= *width && *width <= 64);
        assert_eq!(rt; sext(*x, *width), *want, "{x:x} of {width} bits");
    }
}

/// The first and the last bit of a mask, and the mask.
struct Ones(u32, u32, u64);

#[rattlefmt::skip]
static MASKS: [Ones; 6] = [
    Ones(0, 63, 0xffff_ffff_ffff_ffff),
    Ones(32, 63, 0xffff_ffff),
    Ones(0, 0, 0x8000_0000_0000_0000),
    Ones(60, 62, 0xe),
    Ones(60, 3, 0xf000_0000_0000_000f),
    Ones(32, 31, 0xffff_ffff_ffff_ffff),
];

/// A number, a count of places, and the number rotated to the left by them.
struct Turn(u64, u32, u64);

#[rattlefmt::skip]
static TURNS: [Turn; 4] = [
    Turn(0x1234_5678_9abc_def0, 0, 0x1234_5678_9abc_def0),
    Turn(0x1234_5678_9abc_def0, 4, 0x2345_6789_abcd_ef01),
    Turn(0x8000_0000_0000_0001, 1, 3),
    Turn(0x8000_0000_0000_0001, 63, 0xc000_0000_0000_0000),
];

#[test]
fn masks_and_rotations_are_counted_from_the_left(rt: HostRuntime) {
    for Ones(mb, me, want) in &MASKS {
        assert!(rt; *mb <= 63 && *me <= 63);
        assert_eq!(rt; mask(*mb, *me), *want, "from {mb} to {me}");
    }
    for Turn(x, n, want) in &TURNS {
        assert!(rt; *n <= 63);
        assert_eq!(rt; rotl(*x, *n), *want, "{x:x} by {n}");
    }
    assert_eq!(rt; exts34(0x2_0000, 0), 0xffff_fffe_0000_0000);
    assert_eq!(rt; exts34(0x1_ffff, 0xfffe), 0x1_ffff_fffe);
    assert_eq!(rt; exts34(0x3_ffff, 0xfffc), 0xffff_ffff_ffff_fffc);
}

#[test]
fn bytes_grow(rt: HostRuntime) -> Result<(), Fail> {
    let mut bytes = Bytes::new(rt.alloc());
    bytes.add(b"ab")?;
    bytes.add(b"")?;
    bytes.add(b"c")?;
    assert_eq!(rt; bytes.as_slice(), b"abc".as_slice());
    Ok(())
}

#[test]
fn pieces_are_laid_over_zeros(rt: HostRuntime) -> Result<(), Fail> {
    let mut bytes = Bytes::zeros(rt.alloc(), 5)?;
    bytes.lay(1, b"abc");
    bytes.lay(3, b"de");
    bytes.lay(5, b"");
    assert_eq!(rt; bytes.as_slice(), [0, b'a', b'b', b'd', b'e'].as_slice());
    Ok(())
}
