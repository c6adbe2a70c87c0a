ghost use Rattle.std.specs.Prelude.{◌≡◌, ◌%◌, ◌^◌, ◌<◌, ◌≤◌, count_ones};
ghost use Rattle.std.specs.Int.{leading_zeros, trailing_zeros, w32, w64};
ghost use Rattle.mw_alu.specs.Bits.{valued};
ghost use Rattle.mw_alu.specs.Counts.{cntlzdm_of, cnttzdm_of, parity_of, popcntb_of, popcntw_of, prtyw_of};

use crate::logic::valued;
use crate::op::AluOut;
use crate::places::byte_at;
use crate::shift::{shifted_out, shifted_right};

/// How many zeros the low word has at the left (Book I, fixed-point logical instructions).
pub fn zeros_left_word(x: u64) -> AluOut
    ensures { result ≡ valued (leading_zeros w32 (x % 2 ^ 32)) }
{
    let low = (x % 0x1_0000_0000) as u32;
    valued(u64::from(low.leading_zeros()))
}

/// How many zeros a number has at the left.
pub fn zeros_left(x: u64) -> AluOut
    ensures { result ≡ valued (leading_zeros w64 x) }
{
    valued(u64::from(x.leading_zeros()))
}

/// How many zeros the low word has at the right.
pub fn zeros_right_word(x: u64) -> AluOut
    ensures { result ≡ valued (trailing_zeros w32 (x % 2 ^ 32)) }
{
    let low = (x % 0x1_0000_0000) as u32;
    valued(u64::from(low.trailing_zeros()))
}

/// How many zeros a number has at the right.
pub fn zeros_right(x: u64) -> AluOut
    ensures { result ≡ valued (trailing_zeros w64 x) }
{
    valued(u64::from(x.trailing_zeros()))
}

/// How many ones a number has.
pub fn ones(x: u64) -> AluOut
    ensures { result ≡ valued (count_ones x) }
{
    valued(u64::from(x.count_ones()))
}

/// Of the bits of `s` where the mask has ones, how many are 0 before the first 1 from the left.
#[tactic(auto, using(std::proofs::lemmas::Nat::leading_le))]
pub fn cntlzdm_of(s: u64, mask: u64) -> u64
    ensures { result ≡ cntlzdm_of s mask }
{
    let right = 64 - u64::from((s & mask).leading_zeros());
    u64::from(shifted_right(mask, right).count_ones())
}

/// Of the bits of `s` where the mask has ones, how many are 0 before the first 1 from the right.
pub fn cnttzdm_of(s: u64, mask: u64) -> u64
    ensures { result ≡ cnttzdm_of s mask }
{
    let right = u64::from((s & mask).trailing_zeros());
    u64::from(shifted_out(mask, right).count_ones())
}

/// How many ones each byte has, as a number in that byte.
pub fn popcntb_of(s: u64) -> u64
    ensures { result ≡ popcntb_of s }
{
    let mut counts = 0;
    for place in 0..8 {
        counts |= u64::from(byte_at(s, place).count_ones()) << (8 * place);
    }
    counts
}

/// How many ones each word has, as a number in that word.
pub fn popcntw_of(s: u64) -> u64
    ensures { result ≡ popcntw_of s }
{
    let high = u64::from((s >> 32).count_ones());
    high << 32 | u64::from((s & 0xffff_ffff).count_ones())
}

/// The exclusive or of the last bits of the low word's four bytes.
#[tactic(auto, using(crate::proofs::ParityLemmas::parity_folded))]
fn parity_of_word(s: u64) -> u64
    ensures value { result ≡ parity_of 4 s }
    ensures bit { result < 2 }
{
    let pairs = s ^ s >> 16;
    (pairs ^ pairs >> 8) & 1
}

/// The exclusive or of the last bits of each word's bytes, in that word.
pub fn prtyw_of(s: u64) -> u64
    ensures { result ≡ prtyw_of s }
{
    parity_of_word(s >> 32) << 32 | parity_of_word(s)
}

/// The exclusive or of the last bits of all bytes.
#[tactic(auto, using(crate::proofs::ParityLemmas::parity_halves))]
pub fn prtyd_of(s: u64) -> u64
    ensures { result ≡ parity_of 8 s }
{
    parity_of_word(s ^ s >> 32)
}
