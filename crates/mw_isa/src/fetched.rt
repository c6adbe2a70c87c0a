ghost use Rattle.std.specs.Prelude.{◌≡◌};
ghost use Rattle.mw_isa.specs.Fetch.{is_cut};

use mw_decode::is_prefix;

/// The words that an instruction is made of: one, or a prefix and the word behind it.
#[derive(Clone, Copy, Debug, PartialEq, Eq)]
pub struct Fetched {
    /// The word.
    pub word: u32,
    /// The word behind a prefix; a prefix that ends its block of 64 bytes has none.
    pub suffix: Option<u32>,
}

/// Whether words are a prefix alone, whose suffix would stand in the next block of 64 bytes (Book I, prefixed
/// instructions). It can't fail.
pub fn is_cut(words: &Fetched) -> bool
    ensures { result ≡ is_cut words.now }
{
    is_prefix(words.word) && words.suffix.is_none()
}
