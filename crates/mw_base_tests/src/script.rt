ghost use Rattle.std.specs.Prelude.{◌≡◌};

use mw_soc::Devices;
use mw_uart::{BadScript, Script, Uart, read_script};
use std::alloc::Global;
use std::process::Abort;
use std::test::Fail;

/// How many bytes of output the devices below have memory for: those of 4,000,000 cycles.
const ROOM: u64 = 25000;

/// A text, and the line and column of its first refused place.
struct Refused(&'static [u8], u32, u32);

#[rattlefmt::skip]
static REFUSED: [Refused; 34] = [
    Refused(b"5", 1, 2), // a space is missing
    Refused(b"5x 41", 1, 2),
    Refused(b"5\t41", 1, 2),
    Refused(b"5\n", 1, 2),
    Refused(b"5 ", 1, 3), // digits are missing
    Refused(b"5 \n4 41", 1, 3),
    Refused(b"5  41", 1, 3),
    Refused(b"5 x", 1, 3),
    Refused(b"5 # x", 1, 3),
    Refused(b"5 41 ", 1, 5),
    Refused(b"5 41\r\n", 1, 5),
    Refused(b"5 41#", 1, 5),
    Refused(b"5 414", 1, 6), // the second digit of a byte is missing
    Refused(b"5 4", 1, 4),
    Refused(b"5 4g", 1, 4),
    Refused(b"5 41g", 1, 5),
    Refused(b"5 4g41", 1, 4),
    Refused(b"5 0x41", 1, 4),
    Refused(b"05 41", 1, 1), // no cycle
    Refused(b"00 41", 1, 1),
    Refused(b"4000001 41", 1, 1),
    Refused(b"4000001x", 1, 1),
    Refused(b"111111111111111111111111111111 41", 1, 1),
    Refused(b"18446744073709551616 41", 1, 1),
    Refused(b" 5 41", 1, 1),
    Refused(b" ", 1, 1),
    Refused(b"-5 41", 1, 1),
    Refused(b"x", 1, 1),
    Refused(b" # x", 1, 1),
    Refused(b"5 41\n# x\n\n4 41", 4, 1), // it falls
    Refused(b"5 41\n# x\n\n4 41\n", 4, 1),
    Refused(b"10 41\n9", 2, 1),
    Refused(b"# x\n5 41\n5 4", 3, 4),
    Refused(b"\n\n5 41\n5 41 42\n6", 4, 5),
];

#[test]
fn texts_are_refused_at_their_places(rt: HostRuntime) -> Result<(), Fail> {
    for Refused(text, line, column) in &REFUSED {
        match read_script(rt.alloc(), *text) {
            Ok(_) => panic!(rt; "{text:?} is read"),
            Err(fault) => {
                let want = BadScript::Bad {
                    line: *line,
                    column: *column,
                };
                assert_eq!(rt; fault, want, "{text:?}");
            }
        }
    }
    Ok(())
}

/// A text, and its bytes, each behind the cycle at which it arrives.
struct Text(&'static [u8], &'static [(u64, u8)]);

#[rattlefmt::skip]
static TEXTS: [Text; 13] = [
    Text(b"", &[]),
    Text(b"\n", &[]),
    Text(b"\n\n\n", &[]),
    Text(b"#", &[]),
    Text(b"# a comment\x00\xff\t\r of any bytes 5 4", &[]),
    Text(b"0 aA\n0 aA\n", &[(0, 0xaa), (0, 0xaa)]),
    Text(b"0 0123456789abcdefABCDEF", &[(0, 0x01), (0, 0x23), (0, 0x45), (0, 0x67), (0, 0x89), (0, 0xab), (0, 0xcd), (0, 0xef), (0, 0xab), (0, 0xcd), (0, 0xef)]),
    Text(b"4000000 00", &[(4000000, 0)]),
    Text(b"4000000 ff\n", &[(4000000, 255)]),
    Text(b"1 41\n#\n\n10 42\n10 43\n200 44", &[(1, 0x41), (10, 0x42), (10, 0x43), (200, 0x44)]),
    Text(b"5 41\n#4 41\n5 42", &[(5, 0x41), (5, 0x42)]),
    Text(b"9 41\n\n9 42\n\n", &[(9, 0x41), (9, 0x42)]),
    Text(b"3999999 30\n4000000 31", &[(3999999, 0x30), (4000000, 0x31)]),
];

#[test]
fn texts_are_read(rt: HostRuntime) -> Result<(), Fail> {
    for Text(text, pairs) in &TEXTS {
        match read_script(rt.alloc(), *text) {
            Ok(script) => {
                assert_eq!(rt; script.as_slice(), *pairs, "{text:?}");
                let copy = script.copy()?;
                assert_eq!(rt; copy.as_slice(), *pairs, "a copy of {text:?}");
            }
            Err(fault) => panic!(rt; "{fault:?} at {text:?}"),
        }
    }
    Ok(())
}

/// Whether a text is refused at this place.
fn is_refused(alloc: Global, text: &[u8], line: u32, column: u32) -> bool {
    match read_script(alloc, text) {
        Ok(_) => false,
        Err(fault) => fault == BadScript::Bad { line, column },
    }
}

/// The first 1,048,576 bytes of a text.
fn mebibyte<'a>(rt: &impl Abort, text: &'a [u8]) -> &'a [u8] {
    assert!(rt; 1048576 <= text.len());
    &text[..1048576]
}

#[test]
fn a_text_has_at_most_a_mebibyte(rt: HostRuntime) -> Result<(), Fail> {
    let mut text = vec![in rt.alloc(); b'#'; 1048577]?;
    assert!(rt; read_script(rt.alloc(), mebibyte(&rt, text.as_slice())).is_ok());
    assert!(rt; is_refused(rt.alloc(), text.as_slice(), 1, 1048577));
    text.as_mut_slice()[1048575] = b'\n';
    assert!(rt; read_script(rt.alloc(), mebibyte(&rt, text.as_slice())).is_ok());
    assert!(rt; is_refused(rt.alloc(), text.as_slice(), 2, 1));
    // a text that is too long is refused before its line that isn't one
    text.as_mut_slice()[0] = b'x';
    assert!(rt; is_refused(rt.alloc(), text.as_slice(), 2, 1));
    assert!(rt; is_refused(rt.alloc(), mebibyte(&rt, text.as_slice()), 1, 1));
    Ok(())
}

/// The script of a text that is read.
fn script_of(rt: &impl Abort, alloc: Global, text: &[u8]) -> Script {
    match read_script(alloc, text) {
        Ok(script) => script,
        Err(fault) => panic!(rt; "{fault:?}"),
    }
}

/// Brings a UART to a cycle.
fn bring(rt: &impl Abort, uart: &mut Uart, cycle: u64)
    requires { uart.old.room ≡ 25000 }
    ensures { uart.new.room ≡ 25000 }
{
    assert!(rt; uart.cycle() <= cycle && cycle / 160 <= ROOM);
    uart.advance(cycle);
}

#[test]
fn bytes_arrive_at_their_cycles(rt: HostRuntime) -> Result<(), Fail> {
    let mut uart = Uart::new(
        rt.alloc(),
        script_of(&rt, rt.alloc(), b"0 41\n4 4243\n5 44\n4000000 45"),
        ROOM,
    )?;
    bring(&rt, &mut uart, 0);
    assert_eq!(rt; uart.load(8, 1)[0], 0x41);
    assert_eq!(rt; uart.load(8, 1)[0], 0);
    bring(&rt, &mut uart, 3);
    assert_eq!(rt; uart.load(0x10, 1)[0], 3);
    uart.store(0x20, &[1]);
    assert!(rt; !uart.line());
    bring(&rt, &mut uart, 4);
    assert!(rt; uart.line());
    assert_eq!(rt; uart.load(0x10, 1)[0], 2);
    assert_eq!(rt; uart.load(9, 1)[0], 0); // it doesn't cover the first byte
    assert_eq!(rt; uart.load(8, 8), [0x42, 0, 0, 0, 0, 0, 0, 0]);
    assert_eq!(rt; uart.load(8, 1)[0], 0x43);
    assert!(rt; !uart.line());
    bring(&rt, &mut uart, 3999999);
    assert_eq!(rt; uart.load(8, 1)[0], 0x44);
    assert_eq!(rt; uart.load(8, 1)[0], 0);
    bring(&rt, &mut uart, 4000000);
    assert_eq!(rt; uart.load(8, 1)[0], 0x45);
    assert_eq!(rt; uart.load(8, 1)[0], 0);
    Ok(())
}

#[test]
fn seventeen_arrivals_keep_sixteen(rt: HostRuntime) -> Result<(), Fail> {
    let text = b"0 000102030405060708090a0b0c0d0e0f10\n1 11\n2 12";
    let mut uart = Uart::new(rt.alloc(), script_of(&rt, rt.alloc(), text), ROOM)?;
    bring(&rt, &mut uart, 0);
    assert_eq!(rt; uart.load(0x10, 1)[0], 6);
    bring(&rt, &mut uart, 1);
    assert_eq!(rt; uart.load(8, 1)[0], 0);
    assert_eq!(rt; uart.load(0x10, 1)[0], 2);
    bring(&rt, &mut uart, 2);
    for want in 1..16 {
        assert_eq!(rt; uart.load(8, 1)[0], want);
    }
    assert_eq!(rt; uart.load(8, 1)[0], 0x12);
    assert_eq!(rt; uart.load(0x10, 1)[0], 3);
    Ok(())
}

#[test]
fn bytes_arrive_at_the_devices(rt: HostRuntime) -> Result<(), Fail> {
    let mut devices = Devices::new(rt.alloc(), script_of(&rt, rt.alloc(), b"2 4142"), 1)?;
    assert_eq!(rt; devices.load(0xC000_2010, 1)[0], 3);
    assert!(rt; devices.cycle() <= 2);
    devices.advance(2);
    assert_eq!(rt; devices.load(0xC000_2008, 1)[0], 0x41);
    assert_eq!(rt; devices.load(0xC000_2008, 4)[0], 0x42);
    assert_eq!(rt; devices.load(0xC000_2010, 1)[0], 3);
    Ok(())
}
