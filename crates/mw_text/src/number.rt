ghost use Rattle.std.specs.Prelude.{◌≡◌, ◌+◌, ◌*◌, ◌^◌, ◌<◌, ◌≤◌};
ghost use Rattle.std.specs.Char.{digit_value};
ghost use Rattle.std.specs.Option.{SomeIff};
ghost use Rattle.std.specs.Str.Parse.{digits_value};

/// The value of a digit or a letter, from 0 for `0` to 35 for `z` and `Z`, and 36 for any other byte.
fn digit_value(byte: u8) -> u64
    ensures value { result ≡ digit_value byte }
    ensures small { result ≤ 36 }
{
    match byte {
        b'0'..=b'9' => u64::from(byte - b'0'),
        b'A'..=b'Z' => u64::from(byte - b'A') + 10,
        b'a'..=b'z' => u64::from(byte - b'a') + 10,
        _ => 36,
    }
}

/// The value of a number with one digit more, where it has at most 64 bits.
fn with_digit(value: u64, base: u64, digit: u64) -> Option<u64>
    ensures { SomeIff result (value * base + digit < 2 ^ 64) (value * base + digit) }
{
    match value.checked_mul(base) {
        Some(shifted) => shifted.checked_add(digit),
        None => None,
    }
}

/// The number that the digits write in this base, where it has at most 64 bits.
pub fn number_of(digits: &[u8], base: u64) -> Option<u64>
    requires { 1 ≤ base }
    ensures { SomeIff result (digits_value base digits.now < 2 ^ 64) (digits_value base digits.now) }
{
    let mut value = 0;
    for digit in digits {
        match with_digit(value, base, digit_value(*digit)) {
            Some(longer) => value = longer,
            None => return None,
        }
    }
    Some(value)
}
