ghost use Rattle.std.specs.Prelude.{◌≡◌, ◌<◌, ◌^◌};
ghost use Rattle.std.specs.Int.{bit_at};
ghost use Rattle.mw_alu.specs.Places.{byte_at, halfword_at};

/// The bit at a place that is counted from the right.
pub fn bit_at(x: u64, place: u64) -> u64
    requires { place < 64 }
    ensures value { result ≡ bit_at x place }
    ensures bit { result < 2 }
{
    x >> place & 1
}

/// The byte at a place that is counted from the right.
pub fn byte_at(x: u64, place: u64) -> u8
    requires { place < 8 }
    ensures { result ≡ byte_at x place }
{
    (x >> (8 * place) & 0xff) as u8
}

/// The halfword at a place that is counted from the right.
pub fn halfword_at(x: u64, place: u64) -> u16
    requires { place < 4 }
    ensures { result ≡ halfword_at x place }
{
    (x >> (16 * place) & 0xffff) as u16
}
