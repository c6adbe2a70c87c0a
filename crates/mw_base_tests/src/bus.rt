use mw_bus::{Ram, number, number_bytes};
use std::test::Fail;

/// A real address, and the word that a fetch reads there.
struct Word(u64, u32);

#[rattlefmt::skip]
static WORDS: [Word; 7] = [
    Word(0, 0x0000_0201),
    Word(1, 0x0000_0002),
    Word(2, 0),
    Word(0xff_fffc, 0xab00_0000),
    Word(0xff_fffe, 0xffff_ab00), // two bytes of RAM, and two behind its end
    Word(0x100_0000, 0xffff_ffff),
    Word(0xfff_ffff_ffff_fffc, 0xffff_ffff),
];

#[test]
fn ram_is_read_and_written(rt: HostRuntime) -> Result<(), Fail> {
    let mut ram = Ram::new(rt.alloc(), &[1, 2])?;
    assert_eq!(rt; [ram.get(0), ram.get(1), ram.get(2)], [1, 2, 0]);
    ram.put(0xff_ffff, 0xab);
    assert_eq!(rt; [ram.get(0xff_fffe), ram.get(0xff_ffff)], [0, 0xab]);
    for Word(at, want) in &WORDS {
        assert!(rt; *at < 0x1000_0000_0000_0000);
        assert_eq!(rt; ram.word(*at), *want, "at {at:x}");
    }
    Ok(())
}

/// A read: its real address, its bytes, and what the array then has.
struct Read(u64, usize, [u8; 8]);

#[rattlefmt::skip]
static READS: [Read; 6] = [
    Read(0x100, 8, [0x11, 0x22, 0x33, 0x44, 0x55, 0x66, 0x77, 0x88]),
    Read(0x102, 3, [0x33, 0x44, 0x55, 0, 0, 0, 0, 0]),
    Read(0x0fe, 4, [0, 0, 0x11, 0x22, 0, 0, 0, 0]),
    Read(0xff_fffe, 4, [0, 0xab, 0xff, 0xff, 0, 0, 0, 0]), // two bytes of RAM, and two behind its end
    Read(0x100_0000, 2, [0xff, 0xff, 0, 0, 0, 0, 0, 0]),
    Read(0xfff_ffff_ffff_ffff, 3, [0xff, 1, 2, 0, 0, 0, 0, 0]), // the last real address, and the first two
];

#[test]
fn operands_are_read_and_stored(rt: HostRuntime) -> Result<(), Fail> {
    let mut ram = Ram::new(rt.alloc(), &[1, 2])?;
    ram.write(0x100, &[0x11, 0x22, 0x33, 0x44, 0x55, 0x66, 0x77, 0x88]);
    ram.write(0xff_ffff, &[0xab, 0xcd]);
    for Read(at, len, want) in &READS {
        assert!(rt; *at < 0x1000_0000_0000_0000 && *len <= 8);
        assert_eq!(rt; ram.read(*at, *len), *want, "at {at:x}");
    }
    assert_eq!(rt; ram.slice(0x101, 3), [0x22, 0x33, 0x44].as_slice());
    Ok(())
}

#[test]
fn numbers_have_two_orders(rt: HostRuntime) {
    assert_eq!(rt; number(true, &[0x12, 0x34]), 0x1234);
    assert_eq!(rt; number(false, &[0x12, 0x34]), 0x3412);
    assert_eq!(rt;
        number(true, &[0x80, 0, 0, 0, 0, 0, 0, 1]),
        0x8000_0000_0000_0001
    );
    assert_eq!(rt;
        number_bytes(true, 4, 0x1234_5678),
        [0x12, 0x34, 0x56, 0x78, 0, 0, 0, 0]
    );
    assert_eq!(rt;
        number_bytes(false, 4, 0x1234_5678),
        [0x78, 0x56, 0x34, 0x12, 0, 0, 0, 0]
    );
    assert_eq!(rt; number_bytes(false, 1, 0xff), [0xff, 0, 0, 0, 0, 0, 0, 0]);
}
