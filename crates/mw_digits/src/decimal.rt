ghost use Rattle.std.specs.Prelude.{◌≡◌, ◌++◌, decimal, OnOk};
ghost use Rattle.mw_digits.specs.Digits.{signed_decimal};

use itoa::Buffer;
use mw_bits::Bytes;
use std::alloc::AllocError as NoMemory;

/// Appends the number in decimal digits, without leading zeros. The only error is want of memory.
pub fn add_decimal(text: &mut Bytes, number: u64) -> Result<(), NoMemory>
    ensures { OnOk result (text.new ≡ text.old ++ decimal number) }
{
    text.add(Buffer::new().format(number).as_bytes())
}

/// Appends the number in decimal digits, without leading zeros, behind `-` where it is negative. The only
/// error is want of memory.
pub fn add_signed(text: &mut Bytes, number: i64) -> Result<(), NoMemory>
    ensures { OnOk result (text.new ≡ text.old ++ signed_decimal number) }
{
    let mut digits = Buffer::new();
    text.add(digits.format(number).as_bytes())
}
