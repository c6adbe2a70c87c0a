use mw_bus::Ram;
use mw_isa::{MemOp, MemWhat, Stretch, Stretches};
use mw_loadstore::{loaded_number, stored_bytes};
use mw_step::{read, write};
use std::alloc::{AllocError as NoMemory, Global};
use std::test::Fail;

/// The last three bytes of a page, and the first five of one that stands elsewhere.
const APART: Stretches = Stretches {
    first: Stretch { at: 0x1ffd, len: 3 },
    second: Some(Stretch { at: 0x5000, len: 5 }),
};

/// The number that is loaded from the stretches, the first byte the most significant one or the least.
fn loaded(reversed: bool, ram: &Ram) -> u64 {
    let op = MemOp {
        what: MemWhat::Load {
            signed: false,
            reversed,
            reserve: false,
        },
        ea: 0x1ffd,
        len: 8,
        value: 0,
        to: 0,
        update: None,
    };
    loaded_number(&op, &read(&APART, ram))
}

/// RAM behind a store to the stretches, the first byte the most significant one or the least.
fn stored(reversed: bool, ram: &mut Ram) {
    let op = MemOp {
        what: MemWhat::Store { reversed },
        ea: 0x1ffd,
        len: 8,
        value: 0x0102_0304_0506_0708,
        to: 0,
        update: None,
    };
    write(&APART, &stored_bytes(&op)[..8], ram);
}

/// RAM with eight bytes of their own on each side of the two places.
fn marked(alloc: Global) -> Result<Ram, NoMemory> {
    let mut image = Vec::new(alloc);
    image.resize(0x1ff8, 0)?;
    for byte in 0x10..0x20 {
        image.push(byte)?;
    }
    image.resize(0x4ff8, 0)?;
    for byte in 0x20..0x30 {
        image.push(byte)?;
    }
    image.resize(0x6000, 0)?;
    Ram::new(alloc, image.as_slice())
}

#[test]
fn two_stretches_are_loaded_one_behind_the_other(rt: HostRuntime) -> Result<(), Fail> {
    let ram = marked(rt.alloc())?;
    assert_eq!(rt; loaded(false, &ram), 0x2c2b_2a29_2817_1615);
    assert_eq!(rt; loaded(true, &ram), 0x1516_1728_292a_2b2c);
    Ok(())
}

#[test]
fn two_stretches_are_stored_one_behind_the_other(rt: HostRuntime) -> Result<(), Fail> {
    for (reversed, front, page, before, back) in [
        (
            false,
            0x0607_0814_1312_1110,
            0x1f1e_1d1c_1b1a_1918,
            0x2726_2524_2322_2120,
            0x2f2e_2d01_0203_0405,
        ),
        (
            true,
            0x0302_0114_1312_1110,
            0x1f1e_1d1c_1b1a_1918,
            0x2726_2524_2322_2120,
            0x2f2e_2d08_0706_0504,
        ),
    ] {
        let mut ram = marked(rt.alloc())?;
        stored(reversed, &mut ram);
        for (at, want) in [
            (0x1ff8, front),
            (0x2000, page),
            (0x4ff8, before),
            (0x5000, back),
        ] {
            assert!(rt; at < 0x6000);
            assert_eq!(rt;
                u64::from_le_bytes(ram.read(at, 8)),
                want,
                "{reversed} {at:x}"
            );
        }
    }
    Ok(())
}
