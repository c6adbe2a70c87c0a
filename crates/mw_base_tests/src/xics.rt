use mw_xics::Xics;
use std::process::Abort;
use std::test::Fail;

/// What a program does with the controller.
enum Access {
    /// Bytes are stored at an offset.
    Store(u32, &'static [u8]),
    /// So many bytes are loaded at an offset, with line 0 on or off, and give these, which have zeros behind them.
    Load(u32, u8, bool, [u8; 8]),
}

/// Line 0 is on.
const ON: bool = true;

/// Line 0 is off.
const OFF: bool = false;

#[rattlefmt::skip]
static ACCESSES: [Access; 126] = [
    // The start: CPPR is 0, and every source is masked.
    Access::Load(0x0, 4, ON, [0; 8]),
    Access::Load(0x0, 1, ON, [0; 8]),
    Access::Load(0x4, 4, ON, [0; 8]),
    Access::Load(0x4, 1, ON, [0; 8]),
    Access::Load(0xC, 4, ON, [0xff, 0, 0, 0, 0, 0, 0, 0]),
    Access::Load(0xC, 1, ON, [0xff, 0, 0, 0, 0, 0, 0, 0]),
    Access::Load(0x1800, 4, ON, [0, 0, 0, 0xff, 0, 0, 0, 0]),
    Access::Load(0x183C, 4, ON, [0, 0, 0, 0xff, 0, 0, 0, 0]),
    // CPPR is a byte, which a store to offset 0 leaves.
    Access::Store(0x4, &[0x80]),
    Access::Store(0x0, &[0x11]),
    Access::Store(0x0, &[0x11, 0x22, 0x33, 0x44]),
    Access::Load(0x4, 1, ON, [0x80, 0, 0, 0, 0, 0, 0, 0]),
    Access::Load(0x0, 1, ON, [0x80, 0, 0, 0, 0, 0, 0, 0]),
    Access::Load(0x0, 4, ON, [0x80, 0, 0, 0, 0, 0, 0, 0]),
    Access::Load(0x4, 4, ON, [0x80, 0, 0, 0, 0, 0, 0, 0]), // nothing is pending, and CPPR stays
    Access::Load(0x4, 1, ON, [0x80, 0, 0, 0, 0, 0, 0, 0]),
    // Line 0 has the priority of a last byte, and is looked at, accepted and ended.
    Access::Store(0x1800, &[1, 2, 3, 5]),
    Access::Load(0x1800, 4, ON, [0, 0, 0, 5, 0, 0, 0, 0]),
    Access::Load(0x0, 4, OFF, [0x80, 0, 0, 0, 0, 0, 0, 0]),
    Access::Load(0x4, 4, OFF, [0x80, 0, 0, 0, 0, 0, 0, 0]),
    Access::Load(0x0, 4, ON, [0x80, 0, 0, 16, 0, 0, 0, 0]),
    Access::Load(0x0, 4, ON, [0x80, 0, 0, 16, 0, 0, 0, 0]),
    Access::Load(0x0, 1, ON, [0x80, 0, 0, 0, 0, 0, 0, 0]),
    Access::Load(0x4, 1, ON, [0x80, 0, 0, 0, 0, 0, 0, 0]),
    Access::Load(0x4, 4, ON, [0x80, 0, 0, 16, 0, 0, 0, 0]),
    Access::Load(0x4, 1, ON, [5, 0, 0, 0, 0, 0, 0, 0]),
    Access::Load(0x0, 4, ON, [5, 0, 0, 0, 0, 0, 0, 0]), // 5 isn't below 5
    Access::Load(0x4, 4, ON, [5, 0, 0, 0, 0, 0, 0, 0]),
    Access::Load(0x0, 1, ON, [5, 0, 0, 0, 0, 0, 0, 0]),
    Access::Store(0x4, &[0x80, 0, 0, 16]),
    Access::Load(0x0, 4, ON, [0x80, 0, 0, 16, 0, 0, 0, 0]),
    Access::Store(0x4, &[6, 0xff, 0xff, 0xff]),
    Access::Load(0x0, 4, ON, [6, 0, 0, 16, 0, 0, 0, 0]),
    Access::Store(0x4, &[0x80]),
    // The interprocessor interrupt: a byte, or the first of four.
    Access::Store(0xC, &[5]),
    Access::Load(0xC, 1, ON, [5, 0, 0, 0, 0, 0, 0, 0]),
    Access::Load(0xC, 4, ON, [5, 0, 0, 0, 0, 0, 0, 0]),
    Access::Load(0x0, 4, ON, [0x80, 0, 0, 2, 0, 0, 0, 0]), // a tie
    Access::Load(0x4, 4, ON, [0x80, 0, 0, 2, 0, 0, 0, 0]),
    Access::Load(0x0, 4, ON, [5, 0, 0, 0, 0, 0, 0, 0]), // the line of 5 isn't below 5 either
    Access::Store(0x4, &[0x80, 0, 0, 2]),
    Access::Store(0xC, &[6, 1, 2, 3]),
    Access::Load(0xC, 4, ON, [6, 0, 0, 0, 0, 0, 0, 0]),
    Access::Load(0x0, 4, ON, [0x80, 0, 0, 16, 0, 0, 0, 0]),
    Access::Load(0x0, 4, OFF, [0x80, 0, 0, 2, 0, 0, 0, 0]),
    Access::Store(0xC, &[4]),
    Access::Load(0x0, 4, ON, [0x80, 0, 0, 2, 0, 0, 0, 0]),
    Access::Load(0x4, 4, ON, [0x80, 0, 0, 2, 0, 0, 0, 0]),
    Access::Load(0x4, 1, ON, [4, 0, 0, 0, 0, 0, 0, 0]),
    Access::Store(0x4, &[0xff]),
    Access::Load(0x0, 4, ON, [0xff, 0, 0, 2, 0, 0, 0, 0]),
    Access::Store(0xC, &[0xfe]),
    Access::Load(0x0, 4, OFF, [0xff, 0, 0, 2, 0, 0, 0, 0]),
    // A priority of 0xFF masks, with CPPR at its highest too.
    Access::Store(0xC, &[0xff]),
    Access::Load(0x0, 4, OFF, [0xff, 0, 0, 0, 0, 0, 0, 0]),
    Access::Load(0x0, 4, ON, [0xff, 0, 0, 16, 0, 0, 0, 0]),
    Access::Store(0x1800, &[0, 0, 0, 0xff]),
    Access::Load(0x0, 4, ON, [0xff, 0, 0, 0, 0, 0, 0, 0]),
    Access::Load(0x4, 4, ON, [0xff, 0, 0, 0, 0, 0, 0, 0]),
    Access::Load(0x4, 1, ON, [0xff, 0, 0, 0, 0, 0, 0, 0]),
    // The first and the last line have priorities of their own.
    Access::Store(0x1800, &[0, 0, 0, 9]),
    Access::Store(0x183C, &[0, 0, 0, 7]),
    Access::Load(0x1800, 4, ON, [0, 0, 0, 9, 0, 0, 0, 0]),
    Access::Load(0x1804, 4, ON, [0, 0, 0, 0xff, 0, 0, 0, 0]),
    Access::Load(0x1838, 4, ON, [0, 0, 0, 0xff, 0, 0, 0, 0]),
    Access::Load(0x183C, 4, ON, [0, 0, 0, 7, 0, 0, 0, 0]),
    // A store of any other width or at any other offset takes nothing.
    Access::Store(0x0, &[1, 2]),
    Access::Store(0x0, &[1, 2, 3, 4, 5, 6, 7, 8]),
    Access::Store(0x4, &[1, 2]),
    Access::Store(0x3, &[1]),
    Access::Store(0x5, &[1]),
    Access::Store(0x7, &[1]),
    Access::Store(0x2, &[1, 2, 3, 4]),
    Access::Store(0x8, &[1]),
    Access::Store(0x8, &[1, 2, 3, 4]),
    Access::Store(0x8, &[1, 2, 3, 4, 5, 6, 7, 8]),
    Access::Store(0xB, &[1]),
    Access::Store(0xC, &[1, 2]),
    Access::Store(0xD, &[1]),
    Access::Store(0xF, &[1]),
    Access::Store(0x10, &[1, 2, 3, 4]),
    Access::Store(0x800, &[1, 2, 3, 4]),
    Access::Store(0x1000, &[1, 2, 3, 4]),
    Access::Store(0x1004, &[1, 2, 3, 4]),
    Access::Store(0x100C, &[1]),
    Access::Store(0x17FC, &[1, 2, 3, 4]),
    Access::Store(0x1800, &[1]),
    Access::Store(0x1800, &[1, 2]),
    Access::Store(0x1800, &[1, 2, 3, 4, 5, 6, 7, 8]),
    Access::Store(0x1802, &[1, 2, 3, 4]),
    Access::Store(0x1803, &[1]),
    Access::Store(0x183F, &[1]),
    Access::Store(0x1840, &[1, 2, 3, 4]),
    Access::Store(0x1FFC, &[1, 2, 3, 4]),
    Access::Store(0x1FFF, &[1]),
    // A load of any other width or at any other offset gives zeros.
    Access::Load(0x0, 2, ON, [0; 8]),
    Access::Load(0x0, 8, ON, [0; 8]),
    Access::Load(0x4, 2, ON, [0; 8]),
    Access::Load(0x3, 1, ON, [0; 8]),
    Access::Load(0x5, 1, ON, [0; 8]),
    Access::Load(0x7, 1, ON, [0; 8]),
    Access::Load(0x2, 4, ON, [0; 8]),
    Access::Load(0x8, 1, ON, [0; 8]),
    Access::Load(0x8, 4, ON, [0; 8]),
    Access::Load(0x8, 8, ON, [0; 8]),
    Access::Load(0xC, 2, ON, [0; 8]),
    Access::Load(0xD, 1, ON, [0; 8]),
    Access::Load(0x10, 4, ON, [0; 8]),
    Access::Load(0x800, 4, ON, [0; 8]),
    Access::Load(0x1000, 4, ON, [0; 8]),
    Access::Load(0x1004, 4, ON, [0; 8]),
    Access::Load(0x100C, 1, ON, [0; 8]),
    Access::Load(0x17FC, 4, ON, [0; 8]),
    Access::Load(0x1800, 1, ON, [0; 8]),
    Access::Load(0x1800, 2, ON, [0; 8]),
    Access::Load(0x1800, 8, ON, [0; 8]),
    Access::Load(0x1802, 4, ON, [0; 8]),
    Access::Load(0x1803, 1, ON, [0; 8]),
    Access::Load(0x1840, 4, ON, [0; 8]),
    Access::Load(0x1FFC, 4, ON, [0; 8]),
    Access::Load(0x1FFF, 1, ON, [0; 8]),
    // No load or store of any other width or at any other offset has changed a register.
    Access::Load(0xC, 1, ON, [0xff, 0, 0, 0, 0, 0, 0, 0]),
    Access::Load(0x1800, 4, ON, [0, 0, 0, 9, 0, 0, 0, 0]),
    Access::Load(0x1804, 4, ON, [0, 0, 0, 0xff, 0, 0, 0, 0]),
    Access::Load(0x183C, 4, ON, [0, 0, 0, 7, 0, 0, 0, 0]),
    Access::Load(0x0, 4, ON, [0xff, 0, 0, 16, 0, 0, 0, 0]),
];

/// Stores bytes by an access of the board.
fn store(rt: &impl Abort, xics: &mut Xics, at: u32, bytes: &[u8]) {
    assert!(rt; at < 0x2000 && 1 <= bytes.len() && bytes.len() <= 8);
    assert!(rt; at % 8 + bytes.len() as u32 <= 8);
    xics.store(at, bytes);
}

/// Loads so many bytes by an access of the board.
fn load(rt: &impl Abort, xics: &mut Xics, at: u32, width: u8, line: bool) -> [u8; 8] {
    assert!(rt; at < 0x2000 && 1 <= width && at % 8 + u32::from(width) <= 8);
    xics.load(at, width, line)
}

#[test]
fn registers_are_loaded_and_stored(rt: HostRuntime) -> Result<(), Fail> {
    let mut xics = Xics::new();
    for access in &ACCESSES {
        match access {
            Access::Store(at, bytes) => store(&rt, &mut xics, *at, bytes),
            Access::Load(at, width, line, want) => {
                assert_eq!(rt;
                    load(&rt, &mut xics, *at, *width, *line),
                    *want,
                    "at {at:x}"
                )
            }
        }
    }
    Ok(())
}

#[test]
fn best_candidate_is_pending(rt: HostRuntime) -> Result<(), Fail> {
    let mut xics = Xics::new();
    assert_eq!(rt; xics.pending(ON), None);
    xics.store(0x4, &[0xff]);
    assert_eq!(rt; xics.pending(ON), None);
    xics.store(0x1800, &[0, 0, 0, 5]);
    assert_eq!(rt; xics.pending(ON), Some((5, 16)));
    assert_eq!(rt; xics.pending(OFF), None);
    xics.store(0xC, &[6]);
    assert_eq!(rt; xics.pending(ON), Some((5, 16)));
    assert_eq!(rt; xics.pending(OFF), Some((6, 2)));
    xics.store(0xC, &[5]);
    assert_eq!(rt; xics.pending(ON), Some((5, 2)));
    xics.store(0x4, &[5]);
    assert_eq!(rt; xics.pending(ON), None);
    xics.store(0x4, &[6]);
    assert_eq!(rt; xics.pending(OFF), Some((5, 2)));
    Ok(())
}

#[test]
fn line_1_is_never_pending(rt: HostRuntime) -> Result<(), Fail> {
    let mut xics = Xics::new();
    xics.store(0x4, &[0xff]);
    xics.store(0x1804, &[0, 0, 0, 1]);
    assert_eq!(rt; xics.load(0x1804, 4, ON), [0, 0, 0, 1, 0, 0, 0, 0]);
    assert_eq!(rt; xics.pending(ON), None);
    assert_eq!(rt; xics.pending(OFF), None);
    Ok(())
}
