ghost use Rattle.std.specs.Prelude.{◌≡◌, ◌^◌, ◌<◌, ◌≤◌, IfSome, bytes_eq, decimal};
ghost use Rattle.std.specs.Str.Parse.{IsNumeral, digits_value};
ghost use Rattle.mw_digits.specs.Digits.{hex};
ghost use Rattle.mw_isa.specs.Reading.{vector_at};
ghost use Rattle.mw_trace.specs.Inside.{decimal_in, hex_in, vector_in};

use itoa::Buffer;
use mw_digits::write_hex;
use mw_isa::Vector;

/// The most hexadecimal digits that a number of 64 bits has.
const MOST_DIGITS: usize = 16;

/// The number that digits of a radix write, also behind a plus, if it has 64 bits.
fn number_in(radix: u32, word: &[u8]) -> Option<u64>
    requires low { 2 ≤ radix }
    requires high { radix ≤ 36 }
    ensures { IsNumeral radix word.now → digits_value radix word.now < 2 ^ 64
        → result ≡ Some (digits_value radix word.now) }
{
    let Ok(text) = str::from_utf8(word) else {
        return None;
    };
    u64::from_str_radix(text, radix).ok()
}

/// Whether a word is the decimal digits of a number, without leading zeros.
fn is_decimal(number: u64, word: &[u8]) -> bool
    ensures { result ≡ bytes_eq (decimal number) word.now }
{
    Buffer::new().format(number).as_bytes() == word
}

/// The number whose decimal digits a word is, without leading zeros, if it has 64 bits.
pub fn decimal_in(word: &[u8]) -> Option<u64>
    ensures { result ≡ decimal_in word.now }
{
    let number = number_in(10, word)?;
    if is_decimal(number, word) {
        Some(number)
    } else {
        None
    }
}

/// Whether a word is so many hexadecimal digits of a number, in lower case.
fn is_hex(digits: usize, number: u64, word: &[u8]) -> bool
    requires { digits ≤ 16 }
    ensures { result ≡ bytes_eq (hex digits number) word.now }
{
    let mut written = [b'0'; MOST_DIGITS];
    write_hex(&mut written[..digits], number);
    &written[..digits] == word
}

/// The number whose so many hexadecimal digits a word is, in lower case.
fn hex_in(digits: usize, word: &[u8]) -> Option<u64>
    requires some { 0 < digits }
    requires few { digits ≤ 16 }
    ensures value { result ≡ hex_in digits word.now }
    ensures small { IfSome result (λ number. number < 16 ^ digits) }
{
    let number = number_in(16, word)?;
    if is_hex(digits, number, word) {
        Some(number)
    } else {
        None
    }
}

/// The address whose digits a word is.
pub fn address_in(word: &[u8]) -> Option<u64>
    ensures { result ≡ hex_in 16 word.now }
{
    hex_in(16, word)
}

/// The instruction word whose digits a word is.
pub fn instruction_in(word: &[u8]) -> Option<u32>
    ensures { result ≡ hex_in 8 word.now }
{
    Some(hex_in(8, word)? as u32)
}

/// The interrupt at an address.
fn vector_at(address: u64) -> Option<Vector>
    ensures { result ≡ vector_at address }
{
    match address {
        0x300 => Some(Vector::DataStorage),
        0x380 => Some(Vector::DataSegment),
        0x400 => Some(Vector::InstStorage),
        0x480 => Some(Vector::InstSegment),
        0x500 => Some(Vector::External),
        0x600 => Some(Vector::Alignment),
        0x700 => Some(Vector::Program),
        0x800 => Some(Vector::FpUnavailable),
        0x900 => Some(Vector::Decrementer),
        0xC00 => Some(Vector::SystemCall),
        0xF20 => Some(Vector::VectorUnavailable),
        0xF40 => Some(Vector::VsxUnavailable),
        _ => None,
    }
}

/// The interrupt whose address a word is.
pub fn vector_in(word: &[u8]) -> Option<Vector>
    ensures { result ≡ vector_in word.now }
{
    vector_at(hex_in(4, word)?)
}
