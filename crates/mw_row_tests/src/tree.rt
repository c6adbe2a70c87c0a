use crate::left::traps_in;
use mw_bus::Ram;
use mw_isa::Event;
use std::alloc::{AllocError as NoMemory, Global};
use std::fmt::Debug;
use std::process::Abort;

// (li 3,PID); mtspr 48,3; lis 3,1; mtspr 720,3
const HEAD: &[u32] = &[0x7c70_0ba6, 0x3c60_0001, 0x7c70_b3a6];

/// Where `b .` stands, unless a program has words of its own there.
const HANDLERS: [u32; 8] = [0x300, 0x380, 0x400, 0x480, 0x600, 0x700, 0x800, 0xc00];

/// The tree of process 1: its entry, the root, two levels below it, and the leaves of page 0, which is read, written and
/// executed, and of page 5, which is read and written.
pub const TREE: [(u32, u64); 6] = [
    (0x1_0010, 0x4000_0000_0002_00ad),
    (0x2_0000, 0x8000_0000_0003_0009),
    (0x3_0000, 0x8000_0000_0003_1009),
    (0x3_1000, 0x8000_0000_0003_2009),
    (0x3_2000, 0xc000_0000_0000_0187),
    (0x3_2028, 0xc000_0000_0000_5186),
];

/// Lays doublewords at their addresses, each big-endian.
pub fn put_tables(ram: &mut Ram, tables: &[(u32, u64)]) {
    for (address, doubleword) in tables {
        ram.write(u64::from(*address), &doubleword.to_be_bytes());
    }
}

/// Lays words from an address on, each little-endian.
fn put_words(alloc: Global, ram: &mut Ram, address: u32, words: &[u32]) -> Result<(), NoMemory> {
    let mut bytes = Vec::new(alloc);
    for word in words {
        bytes.extend_from_slice(&word.to_le_bytes())?;
    }
    ram.write(u64::from(address), bytes.as_slice());
    Ok(())
}

/// RAM with words at their addresses and zeros around them, the tree, and the doublewords of `tables` beside those of the
/// tree or in their place.
pub fn ram_of(
    alloc: Global,
    parts: &[(u32, &[u32])],
    tables: &[(u32, u64)],
) -> Result<Ram, NoMemory> {
    let mut ram = Ram::new(alloc, &[])?;
    for (address, words) in parts {
        put_words(alloc, &mut ram, *address, *words)?;
    }
    put_tables(&mut ram, &TREE);
    put_tables(&mut ram, tables);
    Ok(ram)
}

/// The image of a program of a process, from address 0 on and with zeros behind it: four words that set PIDR and PRTBL, the
/// words of `start` behind them, those of `parts` at their addresses, the tree, and the doublewords of `tables` beside
/// those of the tree or in their place.
pub fn image_of(
    alloc: Global,
    pid: u32,
    start: &[u32],
    parts: &[(u32, &[u32])],
    tables: &[(u32, u64)],
) -> Result<Ram, NoMemory> {
    let mut ram = Ram::new(alloc, &[])?;
    put_words(alloc, &mut ram, 0, &[0x3860_0000 | pid])?;
    put_words(alloc, &mut ram, 4, HEAD)?;
    put_words(alloc, &mut ram, 0x10, start)?;
    for address in HANDLERS {
        put_words(alloc, &mut ram, address, &[0x4800_0000])?;
    }
    for (address, words) in parts {
        put_words(alloc, &mut ram, *address, *words)?;
    }
    put_tables(&mut ram, &TREE);
    put_tables(&mut ram, tables);
    Ok(ram)
}

/// Whether an event is one of a run's.
fn is_among(events: &[Event], event: &Event) -> bool {
    for other in events {
        if *other == *event {
            return true;
        }
    }
    false
}

/// Fails unless each of `some` is among a run's events, and all that are traps among `some`. The messages end with what is
/// shown.
pub fn happen(rt: &impl Abort, events: &[Event], some: &[Event], shown: &impl Debug) {
    for event in some {
        assert!(rt; is_among(events, event), "{event:?} of {shown:?}");
    }
    assert_eq!(rt; traps_in(events), traps_in(some), "the traps of {shown:?}");
}
