ghost use Rattle.std.specs.Prelude.{◌≡◌};
ghost use Rattle.mw_decode.specs.Unavailable.{extended_of, opcode_of, ra_of, rb_of};

use mw_bits::field;

/// The primary opcode of a word, bits 0 to 5.
pub fn opcode_of(word: u32) -> u64
    ensures { result ≡ opcode_of word }
{
    field(u64::from(word), 32, 37)
}

/// The extended code of the format X, bits 21 to 30.
pub fn extended_of(word: u32) -> u64
    ensures { result ≡ extended_of word }
{
    field(u64::from(word), 53, 62)
}

/// The field of RA, bits 11 to 15.
pub fn ra_of(word: u32) -> u8
    ensures { result ≡ ra_of word }
{
    field(u64::from(word), 43, 47) as u8
}

/// The field of RB, bits 16 to 20.
pub fn rb_of(word: u32) -> u8
    ensures { result ≡ rb_of word }
{
    field(u64::from(word), 48, 52) as u8
}
