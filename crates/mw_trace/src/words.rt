ghost use Rattle.std.specs.Prelude.{◌≡◌, ◌≤◌, ◌*◌, ◌∷◌, ◌++◌, length, OnOk};
ghost use Rattle.mw_digits.specs.Digits.{hex};
ghost use Rattle.mw_isa.specs.Text.{hex_bytes};

use hex::encode_to_slice;
use mw_bits::Bytes;
use mw_digits::{add_hex as add_digits, write_hex};
use std::alloc::AllocError as NoMemory;

/// The most hexadecimal digits that a number of 64 bits has.
const MOST_DIGITS: usize = 16;

/// How many bytes an address takes on a line, with the blank before it.
const ADDRESS: usize = 17;

/// How many bytes an instruction's word takes on a line, with the blank before it.
const WORD: usize = 9;

/// The most bytes of a dump that stand in one word.
const MOST_BYTES: usize = 32;

/// Appends a blank and the number in so many hexadecimal digits.
pub fn add_hex(text: &mut Bytes, digits: usize, number: u64) -> Result<(), NoMemory>
    requires { digits ≤ 16 }
    ensures { OnOk result (text.new ≡ text.old ++ 32 ∷ hex digits number) }
{
    let mut word = [b' '; MOST_DIGITS + 1];
    write_hex(&mut word[1..=digits], number);
    text.add(&word[..=digits])
}

/// An instruction's address and its word in hexadecimal digits, a blank before each.
#[tactic(auto, unfolding(mw_digits::specs::Digits::hex))]
// Inlined, each digit would be moved by itself and not with the other of its pair.
#[inline(never)]
pub fn instruction(at: u64, word: u32) -> [u8; ADDRESS + WORD]
    ensures { result ≡ 32 ∷ hex 16 at ++ 32 ∷ hex 8 word }
{
    let mut words = [b' '; ADDRESS + WORD];
    write_hex(&mut words[1..ADDRESS], at);
    write_hex(&mut words[ADDRESS + 1..], u64::from(word));
    words
}

/// Writes the bytes in two hexadecimal digits each.
fn write_hex_bytes(digits: &mut [u8], bytes: &[u8])
    requires { length digits.old ≡ 2 * length bytes.now }
    ensures { digits.new ≡ hex_bytes bytes.now }
{
    let Ok(()) = encode_to_slice(bytes, digits) else {
        unreachable!();
    };
}

/// Appends a blank and at most 32 bytes in two hexadecimal digits each.
pub fn add_hex_bytes(text: &mut Bytes, bytes: &[u8]) -> Result<(), NoMemory>
    requires { length bytes.now ≤ 32 }
    ensures { OnOk result (text.new ≡ text.old ++ 32 ∷ hex_bytes bytes.now) }
{
    let mut word = [b' '; 2 * MOST_BYTES + 1];
    let last = 2 * bytes.len();
    write_hex_bytes(&mut word[1..=last], bytes);
    text.add(&word[..=last])
}

/// Appends bytes in two hexadecimal digits each, however many they are.
#[tactic(auto, unfolding(mw_isa::specs::Text::hex_bytes))]
pub fn add_all_bytes(text: &mut Bytes, bytes: &[u8]) -> Result<(), NoMemory>
    ensures { OnOk result (text.new ≡ text.old ++ hex_bytes bytes.now) }
{
    for byte in bytes {
        add_digits(text, 2, u64::from(*byte))?;
    }
    Ok(())
}
