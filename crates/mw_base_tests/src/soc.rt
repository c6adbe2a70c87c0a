ghost use Rattle.std.specs.Prelude.{◌≡◌};

use mw_soc::Devices;
use mw_uart::Script;
use std::process::Abort;
use std::test::Fail;

/// How many bytes of output the devices below have memory for: those of 2^32 cycles.
const ROOM: u64 = 26843546;

/// Brings devices to a cycle and looks at the decrementer there.
fn see(rt: &impl Abort, devices: &mut Devices, cycle: u64, want: u32)
    requires { devices.old.room ≡ 26843546 }
    ensures { devices.new.room ≡ 26843546 }
{
    assert!(rt; devices.cycle() <= cycle && cycle / 160 <= ROOM);
    devices.advance(cycle);
    assert_eq!(rt; devices.dec(), want, "at {cycle}");
    assert_eq!(rt; devices.decrementer(), want >= 0x8000_0000, "at {cycle}");
}

#[test]
fn decrementer_counts_down(rt: HostRuntime) -> Result<(), Fail> {
    let mut devices = Devices::new(rt.alloc(), Script::new(rt.alloc()), ROOM)?;
    see(&rt, &mut devices, 0, 0x7fff_ffff);
    see(&rt, &mut devices, 20000, 0x7fff_b1df);
    see(&rt, &mut devices, 0x7fff_ffff, 0);
    see(&rt, &mut devices, 0x8000_0000, 0xffff_ffff);
    see(&rt, &mut devices, 0x1_0000_0000, 0x7fff_ffff);
    devices.set_dec(5);
    see(&rt, &mut devices, 0x1_0000_0007, 0xffff_fffe);
    Ok(())
}

/// A real address, a width, and the bytes that a load there gives with those behind them.
struct Load(u64, u8, [u8; 8]);

#[rattlefmt::skip]
static LOADS: [Load; 29] = [
    Load(0xC000_0000, 8, [1, 0, 1, 0, 0x55, 0xAA, 0x0D, 0xF0]),
    Load(0xC000_0008, 8, [5, 0, 0, 0, 0, 0, 0, 0]),
    Load(0xC000_0010, 8, [0, 0, 0, 1, 0, 0, 0, 0]),
    Load(0xC000_0020, 8, [0x00, 0xE1, 0xF5, 0x05, 0, 0, 0, 0]),
    Load(0xC000_0018, 8, [0; 8]), // an offset that isn't listed
    Load(0xC000_0FF8, 8, [0; 8]),
    Load(0xC000_0000, 4, [0; 8]), // a width that isn't
    Load(0xC000_0004, 4, [0; 8]),
    Load(0xC000_0020, 2, [0; 8]),
    Load(0xC000_0008, 1, [0; 8]),
    Load(0xC000_2010, 1, [3, 0, 0, 0, 0, 0, 0, 0]), // the UART's STATUS: both queues are empty
    Load(0xC000_2028, 8, [0; 8]),
    Load(0xC000_4000, 4, [0; 8]), // XIRR: CPPR is 0, and nothing is pending
    Load(0xC000_4000, 1, [0; 8]),
    Load(0xC000_4004, 4, [0; 8]),
    Load(0xC000_400C, 1, [255, 0, 0, 0, 0, 0, 0, 0]), // MFRR
    Load(0xC000_400C, 4, [255, 0, 0, 0, 0, 0, 0, 0]),
    Load(0xC000_4008, 8, [0; 8]), // a width that isn't listed
    Load(0xC000_4FF8, 8, [0; 8]),
    Load(0xC000_5800, 4, [0, 0, 0, 255, 0, 0, 0, 0]), // the priority of line 0
    Load(0xC000_5FFF, 1, [0; 8]),
    Load(0xC000_3FFF, 1, [255, 0, 0, 0, 0, 0, 0, 0]), // around the interrupt controller
    Load(0xC000_6000, 4, [255, 255, 255, 255, 0, 0, 0, 0]),
    Load(0xC000_1000, 8, [255; 8]), // between the devices, and around them
    Load(0xC000_3000, 4, [255, 255, 255, 255, 0, 0, 0, 0]),
    Load(0xBFFF_FFFE, 2, [255, 255, 0, 0, 0, 0, 0, 0]),
    Load(0x0100_0000, 1, [255, 0, 0, 0, 0, 0, 0, 0]),
    Load(0x1_C000_2010, 1, [255, 0, 0, 0, 0, 0, 0, 0]),
    Load(0xFFF_FFFF_FFFF_FFF8, 8, [255; 8]),
];

#[test]
fn loads_go_by_the_map(rt: HostRuntime) -> Result<(), Fail> {
    let mut devices = Devices::new(rt.alloc(), Script::new(rt.alloc()), 0)?;
    for Load(at, width, want) in &LOADS {
        assert!(rt; 1 <= *width && *at % 8 + u64::from(*width) <= 8);
        assert_eq!(rt; devices.load(*at, *width), *want, "{width} at {at:x}");
    }
    Ok(())
}

/// Brings devices to a cycle and looks there whether the external exception stands.
fn ask(rt: &impl Abort, devices: &mut Devices, cycle: u64, want: bool)
    requires { devices.old.room ≡ 26843546 }
    ensures { devices.new.room ≡ 26843546 }
{
    assert!(rt; devices.cycle() <= cycle && cycle / 160 <= ROOM);
    devices.advance(cycle);
    assert_eq!(rt; devices.external(), want, "at {cycle}");
}

/// An empty send queue keeps the UART's line on, which has priority 5.
#[test]
fn external_follows_the_uarts_line(rt: HostRuntime) -> Result<(), Fail> {
    let mut devices = Devices::new(rt.alloc(), Script::new(rt.alloc()), ROOM)?;
    ask(&rt, &mut devices, 0, false);
    devices.store(0xC000_5800, &[0, 0, 0, 5]);
    ask(&rt, &mut devices, 0, false);
    devices.store(0xC000_4004, &[255]);
    ask(&rt, &mut devices, 0, false);
    devices.store(0xC000_2020, &[2]);
    ask(&rt, &mut devices, 0, true);
    ask(&rt, &mut devices, 13, true);
    devices.store(0xC000_2000, &[0x41]);
    ask(&rt, &mut devices, 13, false);
    ask(&rt, &mut devices, 14, false);
    ask(&rt, &mut devices, 172, false);
    ask(&rt, &mut devices, 173, true);
    assert_eq!(rt; devices.output(), [0x41].as_slice());
    // the interrupt of the UART's line is looked at, accepted and ended
    assert_eq!(rt; devices.load(0xC000_4000, 4), [255, 0, 0, 16, 0, 0, 0, 0]);
    ask(&rt, &mut devices, 173, true);
    assert_eq!(rt; devices.load(0xC000_4004, 4), [255, 0, 0, 16, 0, 0, 0, 0]);
    ask(&rt, &mut devices, 173, false);
    ask(&rt, &mut devices, 4_000_000, false);
    devices.store(0xC000_4004, &[255, 0, 0, 16]);
    ask(&rt, &mut devices, 4_000_000, true);
    // the UART's line goes off
    devices.store(0xC000_2020, &[0]);
    ask(&rt, &mut devices, 4_000_000, false);
    // the interprocessor interrupt needs no line
    devices.store(0xC000_400C, &[254]);
    ask(&rt, &mut devices, 4_000_000, true);
    devices.store(0xC000_4004, &[254]);
    ask(&rt, &mut devices, 4_000_000, false);
    Ok(())
}

#[test]
fn stores_reach_the_uart_alone(rt: HostRuntime) -> Result<(), Fail> {
    let mut devices = Devices::new(rt.alloc(), Script::new(rt.alloc()), ROOM)?;
    devices.store(0xC000_0000, &[0x40]);
    devices.store(0xC000_3000, &[0x40]);
    devices.store(0xC000_2001, &[0x40]);
    devices.store(0x0100_0000, &[0x40]);
    devices.store(0xC000_2000, &[0x41]);
    see(&rt, &mut devices, 160, 0x7fff_ff5f);
    assert_eq!(rt; devices.output(), [0x41].as_slice());
    Ok(())
}
