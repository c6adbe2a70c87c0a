ghost use Rattle.std.specs.Prelude.{◌≡◌};

use mw_uart::{Script, Uart};
use std::process::Abort;
use std::test::Fail;

/// How many bytes of output the UARTs below have memory for.
const ROOM: u64 = 64;

/// Brings a UART to a cycle.
fn bring(rt: &impl Abort, uart: &mut Uart, cycle: u64)
    requires { uart.old.room ≡ 64 }
    ensures { uart.new.room ≡ 64 }
{
    assert!(rt; uart.cycle() <= cycle && cycle / 160 <= ROOM);
    uart.advance(cycle);
}

/// A store to an offset, and then a load of a width at an offset with what it gives.
struct Access(u32, &'static [u8], u32, u8, [u8; 8]);

#[rattlefmt::skip]
static ACCESSES: [Access; 17] = [
    Access(0x18, &[0x34, 0x12], 0x18, 8, [0x34, 0x12, 0, 0, 0, 0, 0, 0]),
    Access(0x1a, &[0xff, 0xff], 0x18, 4, [0x34, 0x12, 0, 0, 0, 0, 0, 0]), // it covers no first byte
    Access(0x1c, &[1, 2, 3, 4], 0x19, 1, [0x12, 0, 0, 0, 0, 0, 0, 0]),
    Access(0x18, &[0x35], 0x18, 2, [0x35, 0, 0, 0, 0, 0, 0, 0]), // the register as a whole
    Access(0x18, &[1, 2, 3, 4, 5, 6, 7, 8], 0x18, 4, [1, 2, 0, 0, 0, 0, 0, 0]), // 16 bits of it
    Access(0x20, &[0xfe, 0xff], 0x20, 1, [2, 0, 0, 0, 0, 0, 0, 0]),
    Access(0x21, &[1], 0x20, 8, [2, 0, 0, 0, 0, 0, 0, 0]),
    Access(0x28, &[1], 0x28, 8, [0; 8]),
    Access(0xff8, &[1], 0xff8, 8, [0; 8]),
    Access(0x118, &[9], 0x18, 1, [1, 0, 0, 0, 0, 0, 0, 0]),
    Access(0x10, &[0xff], 0x10, 8, [3, 0, 0, 0, 0, 0, 0, 0]), // both queues are empty
    Access(0x08, &[0xff], 0x08, 8, [0; 8]),
    Access(0x08, &[0xff], 0x10, 1, [3, 0, 0, 0, 0, 0, 0, 0]),
    Access(0x04, &[1, 2, 3, 4], 0x10, 4, [3, 0, 0, 0, 0, 0, 0, 0]), // TX, without its first byte
    Access(0x00, &[0x41, 0x42, 0x43, 0x44], 0x00, 8, [0; 8]),
    Access(0x08, &[0xff], 0x10, 2, [1, 0, 0, 0, 0, 0, 0, 0]), // a byte waits to be sent
    Access(0x08, &[0xff], 0x12, 2, [0; 8]),
];

#[test]
fn registers_are_loaded_and_stored(rt: HostRuntime) -> Result<(), Fail> {
    let mut uart = Uart::new(rt.alloc(), Script::new(rt.alloc()), ROOM)?;
    for Access(store_at, bytes, load_at, width, want) in &ACCESSES {
        assert!(rt; 1 <= bytes.len() && *store_at % 8 + bytes.len() as u32 <= 8);
        uart.store(*store_at, bytes);
        assert!(rt; 1 <= *width && *load_at % 8 + *width as u32 <= 8);
        assert_eq!(rt; uart.load(*load_at, *width), *want, "at {load_at:x}");
    }
    Ok(())
}

#[test]
fn seventeen_bytes_keep_sixteen(rt: HostRuntime) -> Result<(), Fail> {
    let mut uart = Uart::new(rt.alloc(), Script::new(rt.alloc()), ROOM)?;
    for byte in 1..=17 {
        uart.store(0, &[byte]);
    }
    assert_eq!(rt; uart.load(0x10, 1), [9, 0, 0, 0, 0, 0, 0, 0]);
    assert_eq!(rt; uart.output().len(), 0);
    let first = [1, 2, 3, 4, 5, 6, 7, 8, 9, 10, 11, 12, 13, 14, 15, 16];
    bring(&rt, &mut uart, 16 * 160);
    assert_eq!(rt; uart.output(), first.as_slice());
    bring(&rt, &mut uart, 17 * 160);
    assert_eq!(rt; uart.output(), first.as_slice());
    assert_eq!(rt; uart.load(0x10, 1), [3, 0, 0, 0, 0, 0, 0, 0]);
    Ok(())
}

#[test]
fn clock_divider_moves_the_later_byte(rt: HostRuntime) -> Result<(), Fail> {
    let mut uart = Uart::new(rt.alloc(), Script::new(rt.alloc()), ROOM)?;
    bring(&rt, &mut uart, 2);
    uart.store(0, &[0x41]);
    uart.store(0, &[0x42]);
    bring(&rt, &mut uart, 100);
    uart.store(0x18, &[1]);
    bring(&rt, &mut uart, 161);
    assert_eq!(rt; uart.output().len(), 0);
    bring(&rt, &mut uart, 162);
    assert_eq!(rt; uart.output(), [0x41].as_slice());
    bring(&rt, &mut uart, 481);
    assert_eq!(rt; uart.output(), [0x41].as_slice());
    bring(&rt, &mut uart, 482);
    assert_eq!(rt; uart.output(), [0x41, 0x42].as_slice());
    Ok(())
}

#[test]
fn one_step_is_many(rt: HostRuntime) -> Result<(), Fail> {
    let mut one = Uart::new(rt.alloc(), Script::new(rt.alloc()), ROOM)?;
    let mut many = Uart::new(rt.alloc(), Script::new(rt.alloc()), ROOM)?;
    for byte in 1..=3 {
        one.store(0, &[byte]);
        many.store(0, &[byte]);
    }
    bring(&rt, &mut one, 400);
    for cycle in 1..401 {
        bring(&rt, &mut many, cycle);
    }
    assert_eq!(rt; one.output(), [1, 2].as_slice());
    assert_eq!(rt; many.output(), [1, 2].as_slice());
    assert_eq!(rt; one.load(0x10, 1), many.load(0x10, 1));
    Ok(())
}

#[test]
fn line_follows_the_send_queue(rt: HostRuntime) -> Result<(), Fail> {
    let mut uart = Uart::new(rt.alloc(), Script::new(rt.alloc()), ROOM)?;
    assert!(rt; !uart.line());
    uart.store(0x20, &[1]);
    assert!(rt; !uart.line());
    uart.store(0x20, &[2]);
    assert!(rt; uart.line());
    uart.store(0, &[0x41]);
    assert!(rt; !uart.line());
    bring(&rt, &mut uart, 159);
    assert!(rt; !uart.line());
    bring(&rt, &mut uart, 160);
    assert!(rt; uart.line());
    Ok(())
}
