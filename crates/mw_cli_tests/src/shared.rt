use std::alloc::{AllocError, Global};

/// `addi r3,0,5` at 0, and `b .` at 4, little-endian.
pub const LOOP: &[u8] = b"\x05\x00\x60\x38\x00\x00\x00\x48";

/// paddi r3,0,-8589934592,1 and behind it `b .`: a prefix and its suffix, and a word.
pub const PREFIXED: &[u8] = b"\x00\x00\x12\x06\x00\x00\x60\x38\x00\x00\x00\x48";

/// The line of words that are in no command's grammar.
pub const USAGE: &str =
    "mw: usage: mw run IMAGE --cycles N [--script FILE] [--dump A:L] | asm SOURCE | dis IMAGE | gen SEED --cycles N\n";

/// The words between separators.
pub fn words_by(alloc: Global, line: &str, separator: char) -> Result<Vec<String>, AllocError> {
    let mut words = Vec::new(alloc);
    for word in line.split(separator) {
        words.push(String::from_str(alloc, word)?)?;
    }
    Ok(words)
}

/// The words between blanks.
pub fn words_of(alloc: Global, line: &str) -> Result<Vec<String>, AllocError> {
    words_by(alloc, line, ' ')
}
