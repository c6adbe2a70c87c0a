ghost use Rattle.std.specs.Prelude.{◌≡◌, ◌^◌, ◌<◌};
ghost use Rattle.mw_muldiv.specs.Wide.{halves_of, number_of};

/// A number of 128 bits by its halves, as two registers hold it.
#[derive(Clone, Copy, Debug, PartialEq, Eq)]
pub struct Wide128 {
    /// The high 64 bits.
    pub high: u64,
    /// The low 64 bits.
    pub low: u64,
}

/// How a multiplication reads its factors (Book I, fixed-point arithmetic instructions).
#[derive(Clone, Copy, Debug, PartialEq, Eq)]
pub enum MulKind {
    /// Both factors are signed.
    Signed,
    /// Neither factor is signed.
    Unsigned,
}

/// How a division reads its numbers, and how many bits quotient and rest have (Book I, fixed-point
/// arithmetic instructions).
#[derive(Clone, Copy, Debug, PartialEq, Eq)]
pub enum DivKind {
    /// Signed: a dividend of 128 bits, all else of 64.
    Signed64,
    /// Unsigned: a dividend of 128 bits, all else of 64.
    Unsigned64,
    /// Signed: the dividend is the low 64 bits, the divisor the low 32, all else has 32.
    Signed32,
    /// Unsigned: the dividend is the low 64 bits, the divisor the low 32, all else has 32.
    Unsigned32,
}

/// What a division gives.
#[derive(Clone, Copy, Debug, PartialEq, Eq)]
pub enum DivOut {
    /// There is a quotient.
    Done {
        /// The quotient, truncated toward 0, in the kind's bits with zeros above.
        quotient: u64,
        /// The rest, with the dividend's sign, in the kind's bits with zeros above.
        rest: u64,
    },
    /// The divisor is 0, or the quotient doesn't fit its width and sign.
    NoQuotient,
}

/// The number that two halves make.
pub fn number_of(wide: Wide128) -> u128
    ensures { result ≡ number_of wide }
{
    u128::from(wide.high) << 64 | u128::from(wide.low)
}

/// The two halves of a number.
pub fn halves_of(number: u128) -> Wide128
    ensures { result ≡ halves_of number }
{
    Wide128 {
        high: (number >> 64) as u64,
        low: (number & 0xffff_ffff_ffff_ffff) as u64,
    }
}
