ghost use Rattle.std.specs.Prelude.{◌≡◌, ◌+◌, ◌*◌, ◌^◌, ◌<◌, ◌≤◌, length};
ghost use Rattle.mw_generator.specs.Generated.{with_doubleword, with_word, with_words};

use mw_bits::Bytes;

/// Lays a word at a place, its least significant byte first.
#[tactic(auto, unfolding(crate::specs::Generated::with_word))]
pub(crate) fn lay_word(image: &mut Bytes, at: usize, word: u32)
    requires { at + 4 ≤ length image.old }
    ensures image { image.new ≡ with_word at word image.old }
    ensures whole { length image.new ≡ length image.old }
{
    image.lay(at, &word.to_le_bytes());
}

/// Lays a doubleword at a place, its most significant byte first.
#[tactic(auto, unfolding(crate::specs::Generated::with_doubleword))]
pub(crate) fn lay_doubleword(image: &mut Bytes, at: usize, doubleword: u64)
    requires { at + 8 ≤ length image.old }
    ensures image { image.new ≡ with_doubleword at doubleword image.old }
    ensures whole { length image.new ≡ length image.old }
{
    image.lay(at, &doubleword.to_be_bytes());
}

/// Lays words one behind the other from a place on.
#[tactic(auto, unfolding(crate::specs::Generated::with_words))]
pub(crate) fn lay_words(image: &mut Bytes, at: usize, words: &[u32])
    requires room { at + 4 * length words.now ≤ length image.old }
    requires small { at + 4 * length words.now < 2 ^ 64 }
    ensures image { image.new ≡ with_words at words.now image.old }
    ensures whole { length image.new ≡ length image.old }
{
    let mut next = at;
    for word in words {
        lay_word(image, next, *word);
        next += 4;
    }
}
