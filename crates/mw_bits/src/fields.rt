ghost use Rattle.std.specs.Prelude.{◌≡◌, ℕ, ◌+◌, ◌-◌, ◌^◌, ◌<◌, ◌≤◌};
ghost use Rattle.mw_bits.specs.Fields.{exts34_of, field_of, mask_of, rotl_of, sext_of};

/// The bits of `word` from `first` to `last`, both included, as a number of `last - first + 1` bits.
/// Bits are numbered from the left, 0 to 63, so a 32-bit word has the bits 32 to 63 (Book I,
/// instruction fields).
pub fn field(word: u64, first: u32, last: u32) -> u64
    requires ordered { first ≤ last }
    requires in_word { last ≤ 63 }
    ensures value { result ≡ field_of word first last }
    ensures bound { result < 2 ^ (last - first + 1) }
{
    (word >> (63 - last)) & (u64::MAX >> (63 - (last - first)))
}

/// Ones from the bit `mb` to the bit `me`, both included, and zeros elsewhere; where `mb` is behind
/// `me` the ones go from `mb` round the end to `me` (Book I, MASK).
pub fn mask(mb: u32, me: u32) -> u64
    requires starts { mb ≤ 63 }
    requires ends { me ≤ 63 }
    ensures { result ≡ mask_of mb me }
{
    let right = u64::MAX >> mb;
    let left = u64::MAX << (63 - me);
    if mb <= me { right & left } else { right | left }
}

/// The bits of `x` moved to the left by `n` places, where those that leave on the left come in on
/// the right (Book I, ROTL64).
pub fn rotl(x: u64, n: u32) -> u64
    requires in_word { n ≤ 63 }
    ensures { result ≡ rotl_of x n }
{
    x.rotate_left(n)
}

/// The low `width` bits of `x` read as a signed number and written in 64 bits; the bits above them
/// don't count (Book I, EXTS).
pub fn sext(x: u64, width: u32) -> u64
    requires wide { 1 ≤ width }
    requires in_word { width ≤ 64 }
    ensures { result ≡ sext_of x width }
{
    let ones = u64::MAX >> (64 - width);
    let low = x & ones;
    if low <= ones >> 1 { low } else { low | !ones }
}

/// The displacement of a prefixed instruction: `d0`, the 18 bits in the prefix, and behind them
/// `d1`, the 16 bits in the suffix, read as one signed number and written in 64 bits (Book I,
/// prefixed instruction formats, MLS:D and 8LS:D).
pub fn exts34(d0: u32, d1: u32) -> u64
    requires high { d0 < 2 ^ 18 }
    requires low { d1 < 2 ^ 16 }
    ensures { result ≡ exts34_of d0 d1 }
{
    sext(u64::from(d0) * 0x1_0000 + u64::from(d1), 34)
}
