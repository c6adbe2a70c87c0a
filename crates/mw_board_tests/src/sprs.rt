use mw_isa::{Regs, SprRefusal};
use mw_soc::Devices;
use mw_sprs::{read, write, write_refusal};
use mw_uart::Script;
use std::alloc::{AllocError as NoMemory, Global};
use std::test::Fail;

/// What a read gives: a value, nothing where it is no operation, or a refusal.
type Given = Result<Option<u64>, SprRefusal>;

/// A number; what a read and a write of it give with PR=0, and with PR=1.
struct Number(u16, Given, Option<SprRefusal>, Given, Option<SprRefusal>);

/// A read that is no operation.
const NOTHING: Given = Ok(None);

/// A read of a number that is privileged.
const PRIVILEGED: Given = Err(SprRefusal::Privileged);

/// A read of a number that is illegal.
const ILLEGAL: Given = Err(SprRefusal::Illegal);

/// A write that is refused as privileged.
const NO_PRIVILEGE: Option<SprRefusal> = Some(SprRefusal::Privileged);

/// A write that is refused as illegal.
const NO_NUMBER: Option<SprRefusal> = Some(SprRefusal::Illegal);

/// Each number that stands for a register, and its neighbours.
#[rattlefmt::skip]
static NUMBERS: [Number; 72] = [
    Number(0, ILLEGAL, NO_NUMBER, ILLEGAL, NO_NUMBER),
    Number(1, Ok(Some(0xA00C_0000)), None, Ok(Some(0xA00C_0000)), None),
    Number(2, NOTHING, None, ILLEGAL, NO_NUMBER),
    Number(3, NOTHING, None, ILLEGAL, NO_NUMBER),
    Number(4, ILLEGAL, None, ILLEGAL, NO_NUMBER),
    Number(5, ILLEGAL, None, ILLEGAL, NO_NUMBER),
    Number(6, ILLEGAL, None, ILLEGAL, NO_NUMBER),
    Number(7, NOTHING, None, ILLEGAL, NO_NUMBER),
    Number(8, Ok(Some(0x8000_0000_0000_0008)), None, Ok(Some(0x8000_0000_0000_0008)), None),
    Number(9, Ok(Some(0x8000_0000_0000_0009)), None, Ok(Some(0x8000_0000_0000_0009)), None),
    Number(10, NOTHING, None, ILLEGAL, NO_NUMBER),
    Number(16, NOTHING, None, PRIVILEGED, NO_PRIVILEGE),
    Number(17, NOTHING, None, PRIVILEGED, NO_PRIVILEGE),
    Number(18, Ok(Some(0x8000_0018)), None, PRIVILEGED, NO_PRIVILEGE),
    Number(19, Ok(Some(0x8000_0000_0000_0019)), None, PRIVILEGED, NO_PRIVILEGE),
    Number(20, NOTHING, None, PRIVILEGED, NO_PRIVILEGE),
    Number(21, NOTHING, None, PRIVILEGED, NO_PRIVILEGE),
    // DEC is 0x7fffffff at cycle 0
    Number(22, Ok(Some(0x7FFF_FFFA)), None, PRIVILEGED, NO_PRIVILEGE),
    Number(23, NOTHING, None, PRIVILEGED, NO_PRIVILEGE),
    Number(25, NOTHING, None, PRIVILEGED, NO_PRIVILEGE),
    Number(26, Ok(Some(0x8000_0000_0000_0026)), None, PRIVILEGED, NO_PRIVILEGE),
    Number(27, Ok(Some(0x8000_0000_0000_0027)), None, PRIVILEGED, NO_PRIVILEGE),
    Number(28, NOTHING, None, PRIVILEGED, NO_PRIVILEGE),
    Number(47, NOTHING, None, ILLEGAL, NO_NUMBER),
    Number(48, Ok(Some(0x8000_0048)), None, PRIVILEGED, NO_PRIVILEGE),
    Number(49, NOTHING, None, PRIVILEGED, NO_PRIVILEGE),
    Number(258, NOTHING, None, ILLEGAL, NO_NUMBER),
    Number(259, Ok(Some(0x8000_0000_0000_0275)), None, Ok(Some(0x8000_0000_0000_0275)), NO_NUMBER),
    Number(260, NOTHING, None, ILLEGAL, NO_NUMBER),
    Number(267, NOTHING, None, ILLEGAL, NO_NUMBER),
    Number(268, Ok(Some(5)), None, Ok(Some(5)), NO_NUMBER),
    Number(269, Ok(Some(0)), None, Ok(Some(0)), NO_NUMBER),
    Number(270, NOTHING, None, ILLEGAL, NO_NUMBER),
    Number(271, NOTHING, None, ILLEGAL, NO_NUMBER),
    Number(272, Ok(Some(0x8000_0000_0000_0272)), None, PRIVILEGED, NO_PRIVILEGE),
    Number(273, Ok(Some(0x8000_0000_0000_0273)), None, PRIVILEGED, NO_PRIVILEGE),
    Number(274, Ok(Some(0x8000_0000_0000_0274)), None, PRIVILEGED, NO_PRIVILEGE),
    Number(275, Ok(Some(0x8000_0000_0000_0275)), None, PRIVILEGED, NO_PRIVILEGE),
    Number(276, NOTHING, None, PRIVILEGED, NO_PRIVILEGE),
    Number(283, NOTHING, None, PRIVILEGED, NO_PRIVILEGE),
    Number(284, NOTHING, None, PRIVILEGED, NO_PRIVILEGE),
    Number(285, NOTHING, None, PRIVILEGED, NO_PRIVILEGE),
    Number(286, NOTHING, None, PRIVILEGED, NO_PRIVILEGE),
    Number(287, Ok(Some(0x0063_0101)), None, PRIVILEGED, NO_PRIVILEGE),
    Number(288, NOTHING, None, ILLEGAL, NO_NUMBER),
    Number(303, NOTHING, None, ILLEGAL, NO_NUMBER),
    Number(304, Ok(Some(0x8000_0000_0000_0304)), None, PRIVILEGED, NO_PRIVILEGE),
    Number(305, Ok(Some(0x8000_0000_0000_0305)), None, PRIVILEGED, NO_PRIVILEGE),
    Number(306, NOTHING, None, PRIVILEGED, NO_PRIVILEGE),
    Number(313, NOTHING, None, PRIVILEGED, NO_PRIVILEGE),
    Number(314, Ok(Some(0x8000_0000_0000_0314)), None, PRIVILEGED, NO_PRIVILEGE),
    Number(315, Ok(Some(0x8000_0000_0000_0315)), None, PRIVILEGED, NO_PRIVILEGE),
    Number(316, NOTHING, None, PRIVILEGED, NO_PRIVILEGE),
    Number(719, NOTHING, None, ILLEGAL, NO_NUMBER),
    Number(720, Ok(Some(0x8000_0000_0000_0720)), None, PRIVILEGED, NO_PRIVILEGE),
    Number(721, NOTHING, None, PRIVILEGED, NO_PRIVILEGE),
    Number(807, NOTHING, None, ILLEGAL, NO_NUMBER),
    Number(808, NOTHING, None, NOTHING, None),
    Number(809, NOTHING, None, NOTHING, None),
    Number(810, NOTHING, None, NOTHING, None),
    Number(811, NOTHING, None, NOTHING, None),
    Number(812, NOTHING, None, ILLEGAL, NO_NUMBER),
    Number(814, NOTHING, None, ILLEGAL, NO_NUMBER),
    Number(815, Ok(Some(0x8000_0000_0000_0815)), None, Ok(Some(0x8000_0000_0000_0815)), None),
    Number(816, NOTHING, None, PRIVILEGED, NO_PRIVILEGE),
    Number(1000, NOTHING, None, ILLEGAL, NO_NUMBER),
    Number(1022, NOTHING, None, PRIVILEGED, NO_PRIVILEGE),
    Number(1023, Ok(Some(0)), None, PRIVILEGED, NO_PRIVILEGE),
    // numbers of more than 10 bits, which no instruction has
    Number(1024, NOTHING, None, ILLEGAL, NO_NUMBER),
    Number(1025, NOTHING, None, ILLEGAL, NO_NUMBER),
    Number(1040, NOTHING, None, PRIVILEGED, NO_PRIVILEGE),
    Number(65535, NOTHING, None, PRIVILEGED, NO_PRIVILEGE),
];

/// A number, the value that is written to it, and what is then read under another.
struct Written(u16, u64, u16, u64);

/// What writes to registers leave.
#[rattlefmt::skip]
static WRITTEN: [Written; 34] = [
    // XER takes its five bits, and no others
    Written(1, 0xFFFF_FFFF_FFFF_FFFF, 1, 0xE00C_0000),
    Written(1, 0xFFFF_FFFF_1FF3_FFFF, 1, 0),
    Written(1, 0x4008_0000, 1, 0x4008_0000),
    // a register of 32 bits takes the low word
    Written(18, 0xFFFF_FFFF_8765_4321, 18, 0x8765_4321),
    Written(48, 0xFFFF_FFFF_8765_4321, 48, 0x8765_4321),
    // the decrementer takes the low word, which is read with its sign
    Written(22, 0x1234_5678_8000_0000, 22, 0xFFFF_FFFF_8000_0000),
    Written(22, 0xFFFF_FFFF_7FFF_FFFF, 22, 0x7FFF_FFFF),
    Written(22, 0xFFFF_FFFF, 22, 0xFFFF_FFFF_FFFF_FFFF),
    Written(22, 3, 22, 3),
    // the halves of the time base take nothing
    Written(284, 0x1234, 268, 5),
    Written(285, 0x1234, 268, 5),
    Written(285, 0x1234, 269, 0),
    // registers that are only read take nothing
    Written(259, 0x1234, 275, 0x8000_0000_0000_0275),
    Written(259, 0x1234, 259, 0x8000_0000_0000_0275),
    Written(268, 0x1234, 268, 5),
    Written(269, 0x1234, 269, 0),
    Written(287, 0x1234, 287, 0x0063_0101),
    Written(1023, 0x1234, 1023, 0),
    // registers of 64 bits take the whole value
    Written(8, 0x9234_5678_9ABC_DEF0, 8, 0x9234_5678_9ABC_DEF0),
    Written(9, 0x9234_5678_9ABC_DEF1, 9, 0x9234_5678_9ABC_DEF1),
    Written(19, 0x9234_5678_9ABC_DEF2, 19, 0x9234_5678_9ABC_DEF2),
    Written(26, 0x9234_5678_9ABC_DEF3, 26, 0x9234_5678_9ABC_DEF3),
    Written(27, 0x9234_5678_9ABC_DEF4, 27, 0x9234_5678_9ABC_DEF4),
    Written(272, 0x9234_5678_9ABC_DEF5, 272, 0x9234_5678_9ABC_DEF5),
    Written(273, 0x9234_5678_9ABC_DEF6, 273, 0x9234_5678_9ABC_DEF6),
    Written(274, 0x9234_5678_9ABC_DEF7, 274, 0x9234_5678_9ABC_DEF7),
    Written(275, 0x9234_5678_9ABC_DEF8, 275, 0x9234_5678_9ABC_DEF8),
    Written(275, 0x9234_5678_9ABC_DEF9, 259, 0x9234_5678_9ABC_DEF9),
    Written(304, 0x9234_5678_9ABC_DEFA, 304, 0x9234_5678_9ABC_DEFA),
    Written(305, 0x9234_5678_9ABC_DEFB, 305, 0x9234_5678_9ABC_DEFB),
    Written(314, 0x9234_5678_9ABC_DEFC, 314, 0x9234_5678_9ABC_DEFC),
    Written(315, 0x9234_5678_9ABC_DEFD, 315, 0x9234_5678_9ABC_DEFD),
    Written(720, 0x9234_5678_9ABC_DEFE, 720, 0x9234_5678_9ABC_DEFE),
    Written(815, 0x9234_5678_9ABC_DEFF, 815, 0x9234_5678_9ABC_DEFF),
];

/// Registers of which each has a content of its own: the number in its low digits, and the top bit.
fn filled() -> Regs {
    Regs {
        xer: 0xA00C_0000,
        lr: 0x8000_0000_0000_0008,
        ctr: 0x8000_0000_0000_0009,
        dsisr: 0x8000_0018,
        dar: 0x8000_0000_0000_0019,
        srr0: 0x8000_0000_0000_0026,
        srr1: 0x8000_0000_0000_0027,
        pidr: 0x8000_0048,
        sprg: [
            0x8000_0000_0000_0272,
            0x8000_0000_0000_0273,
            0x8000_0000_0000_0274,
            0x8000_0000_0000_0275,
        ],
        hsprg: [0x8000_0000_0000_0304, 0x8000_0000_0000_0305],
        hsrr0: 0x8000_0000_0000_0314,
        hsrr1: 0x8000_0000_0000_0315,
        prtbl: 0x8000_0000_0000_0720,
        tar: 0x8000_0000_0000_0815,
        ..Regs::new()
    }
}

/// The registers of `filled` in problem state: PR is bit 49 of MSR.
fn in_problem_state() -> Regs {
    let regs = filled();
    Regs {
        msr: regs.msr | (1 << 14),
        ..regs
    }
}

/// Devices that stand at cycle 5.
fn devices_at_five(alloc: Global) -> Result<Devices, NoMemory> {
    let mut devices = Devices::new(alloc, Script::new(alloc), 1)?;
    devices.advance(5);
    Ok(devices)
}

#[test]
fn numbers_are_read_and_written(rt: HostRuntime) -> Result<(), Fail> {
    let mut devices = devices_at_five(rt.alloc())?;
    for Number(spr, given, refused, problem_given, problem_refused) in &NUMBERS {
        for (mut regs, given, refused) in [
            (filled(), *given, *refused),
            (in_problem_state(), *problem_given, *problem_refused),
        ] {
            let msr = regs.msr;
            assert!(rt;
                read(&regs, &devices, *spr) == given,
                "read of {spr} under {msr}"
            );
            assert!(rt;
                write_refusal(&regs, *spr) == refused,
                "refusal of {spr} under {msr}"
            );
            let written = write(&mut regs, &mut devices, *spr, 0);
            assert!(rt; written.err() == refused, "write of {spr} under {msr}");
        }
    }
    Ok(())
}

#[test]
fn the_time_base_has_two_halves(rt: HostRuntime) -> Result<(), Fail> {
    // Room for a byte each 160 cycles.
    let mut devices = Devices::new(rt.alloc(), Script::new(rt.alloc()), 26_843_545)?;
    devices.advance(0x1_0000_0005);
    let regs = filled();
    assert!(rt; read(&regs, &devices, 268) == Ok(Some(0x1_0000_0005)));
    assert!(rt; read(&regs, &devices, 269) == Ok(Some(1)));
    // the decrementer went round once, and five cycles on
    assert!(rt; read(&regs, &devices, 22) == Ok(Some(0x7FFF_FFFA)));
    Ok(())
}

#[test]
fn writes_leave(rt: HostRuntime) -> Result<(), Fail> {
    for Written(spr, value, other, content) in &WRITTEN {
        let mut regs = filled();
        let mut devices = devices_at_five(rt.alloc())?;
        assert!(rt;
            write(&mut regs, &mut devices, *spr, *value).is_ok(),
            "write of {spr}"
        );
        let left = read(&regs, &devices, *other);
        assert!(rt;
            left == Ok(Some(*content)),
            "{other} after a write of {spr}"
        );
    }
    Ok(())
}
