ghost use Rattle.std.specs.Prelude.{◌≡◌, ◌≤◌, ◌++◌, length, OnOk};
ghost use Rattle.mw_digits.specs.Digits.{hex, digits_of, short_hex};

use mw_bits::Bytes;
use std::alloc::AllocError as NoMemory;

/// The most hexadecimal digits that a number of 64 bits has.
const MOST_DIGITS: usize = 16;

/// The two hexadecimal digits of each number below 256, in lower case.
static PAIRS: [u8; 512] = *b"\
    000102030405060708090a0b0c0d0e0f\
    101112131415161718191a1b1c1d1e1f\
    202122232425262728292a2b2c2d2e2f\
    303132333435363738393a3b3c3d3e3f\
    404142434445464748494a4b4c4d4e4f\
    505152535455565758595a5b5c5d5e5f\
    606162636465666768696a6b6c6d6e6f\
    707172737475767778797a7b7c7d7e7f\
    808182838485868788898a8b8c8d8e8f\
    909192939495969798999a9b9c9d9e9f\
    a0a1a2a3a4a5a6a7a8a9aaabacadaeaf\
    b0b1b2b3b4b5b6b7b8b9babbbcbdbebf\
    c0c1c2c3c4c5c6c7c8c9cacbcccdcecf\
    d0d1d2d3d4d5d6d7d8d9dadbdcdddedf\
    e0e1e2e3e4e5e6e7e8e9eaebecedeeef\
    f0f1f2f3f4f5f6f7f8f9fafbfcfdfeff";

/// Writes the number in hexadecimal digits, as many as the slice has bytes: its lowest ones, the highest of
/// them first, in lower case, with leading zeros.
#[inline(always)]
pub fn write_hex(digits: &mut [u8], number: u64)
    ensures { digits.new ≡ hex (length digits.old) number }
{
    let mut rest = number;
    let mut place = digits.len();
    while place > 1 {
        let pair = 2 * (rest % 256) as usize;
        digits[place - 1] = PAIRS[pair + 1];
        digits[place - 2] = PAIRS[pair];
        rest /= 256;
        place -= 2;
    }
    if place > 0 {
        digits[0] = PAIRS[2 * (rest % 16) as usize + 1];
    }
}

/// The sixteen hexadecimal digits of a number of 64 bits, the highest of them first, in lower case.
pub fn hexadecimal(number: u64) -> [u8; MOST_DIGITS]
    ensures { result ≡ hex 16 number }
{
    let mut digits = [0; MOST_DIGITS];
    write_hex(&mut digits, number);
    digits
}

/// Appends the number in so many hexadecimal digits, at most 16: its lowest ones, the highest of them first,
/// in lower case, with leading zeros. The only error is want of memory.
pub fn add_hex(text: &mut Bytes, digits: usize, number: u64) -> Result<(), NoMemory>
    requires { digits ≤ 16 }
    ensures { OnOk result (text.new ≡ text.old ++ hex digits number) }
{
    let mut word = [b'0'; MOST_DIGITS];
    write_hex(&mut word[..digits], number);
    text.add(&word[..digits])
}

/// How many hexadecimal digits a number has, one at least.
fn count_digits(number: u64) -> usize
    ensures value { result ≡ digits_of 15 number }
    ensures few { result ≤ 16 }
{
    let mut most: usize = 15;
    let mut least: u64 = 1 << 60;
    while most > 0 && number < least {
        most -= 1;
        least /= 16;
    }
    most + 1
}

/// Appends the number in hexadecimal digits behind `0x`, in lower case, without leading zeros, one digit at
/// least. The only error is want of memory; the list may then have grown by `0x`.
pub fn add_short_hex(text: &mut Bytes, number: u64) -> Result<(), NoMemory>
    ensures { OnOk result (text.new ≡ text.old ++ short_hex number) }
{
    text.add(b"0x")?;
    add_hex(text, count_digits(number), number)
}
