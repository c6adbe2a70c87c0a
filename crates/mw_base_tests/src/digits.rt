use mw_bits::Bytes;
use mw_digits::{add_decimal, add_hex, add_short_hex, add_signed, hexadecimal, write_hex};
use std::test::Fail;

#[test]
fn digits_are_written(rt: HostRuntime) {
    let mut digits = [0; 4];
    write_hex(&mut digits, 0x1_2a0f);
    assert_eq!(rt; digits.as_slice(), b"2a0f".as_slice());
    assert_eq!(rt;
        hexadecimal(0xfedc_ba98_7654_3210).as_slice(),
        b"fedcba9876543210".as_slice()
    );
}

#[test]
fn numbers_are_appended(rt: HostRuntime) -> Result<(), Fail> {
    let mut text = Bytes::new(rt.alloc());
    add_hex(&mut text, 8, 0x4bff_fffc)?;
    text.add(b" ")?;
    add_short_hex(&mut text, 0x1000)?;
    text.add(b" ")?;
    add_short_hex(&mut text, 0)?;
    text.add(b" ")?;
    add_decimal(&mut text, 18_446_744_073_709_551_615)?;
    text.add(b" ")?;
    add_signed(&mut text, -9_223_372_036_854_775_808)?;
    assert_eq!(rt;
        text.as_slice(),
        b"4bfffffc 0x1000 0x0 18446744073709551615 -9223372036854775808".as_slice()
    );
    Ok(())
}
