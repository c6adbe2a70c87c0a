ghost use Rattle.std.specs.Prelude.{◌≡◌, ◌*◌, ◌/◌, ◌%◌, ◌<◌};
ghost use Rattle.mw_muldiv.specs.DivInside.{with_bit};

/// What a division has found so far, without signs.
#[derive(Clone, Copy, Debug, PartialEq, Eq)]
pub struct Partial {
    /// What is left of the dividend's bits that were taken.
    pub rest: u64,
    /// The dividend's bits that weren't taken yet, and to their right the quotient's bits.
    pub low: u64,
}

/// How often the divisor is in a number below twice the divisor.
fn count_in(number: u128, divisor: u64) -> u64
    requires { number < 2 * divisor }
    ensures value { result ≡ number / divisor }
    ensures bit { result < 2 }
{
    if number < u128::from(divisor) { 0 } else { 1 }
}

/// What is left of a number below twice the divisor once the divisor is taken out.
fn reduced(number: u128, divisor: u64) -> u64
    requires { number < 2 * divisor }
    ensures { result ≡ number % divisor }
{
    if number < u128::from(divisor) {
        number as u64
    } else {
        (number - u128::from(divisor)) as u64
    }
}

/// Takes the dividend's next bit, by one subtraction where the divisor is in it, and puts a bit of the
/// quotient behind the others. Where the rest isn't below the divisor, the quotient has more than 64 bits, and
/// nothing is done.
pub fn with_bit(so_far: Partial, divisor: u64) -> Partial
    ensures { result ≡ with_bit so_far divisor }
{
    if so_far.rest >= divisor {
        return so_far;
    }
    let number = u128::from(so_far.rest) * 2 + u128::from(so_far.low >> 63);
    Partial {
        rest: reduced(number, divisor),
        low: (so_far.low << 1) + count_in(number, divisor),
    }
}
