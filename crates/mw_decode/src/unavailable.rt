ghost use Rattle.std.specs.Prelude.{◌≡◌};
ghost use Rattle.mw_prefix.specs.Wide.{is_mls};
ghost use Rattle.mw_tables.specs.Layouts.{d, operand_in};
ghost use Rattle.mw_decode.specs.Unavailable.{float_codes, float_opcodes, float_suffixes, indexed_string_codes, is_extended, is_float, is_in, is_vector, is_vsx, multiple_opcodes, opcode_of, string_codes, vector_codes, vsx_opcodes, without_row, without_row_prefixed};

use crate::insn::{Decoded, Facility};
use crate::word::{extended_of, opcode_of, ra_of, rb_of};
use mw_prefix::{Wide, split};
use mw_tables::{Layout, fields_of, operand_in};

/// The displacement of the format D, in bytes.
fn displacement(word: u32) -> i64
    ensures { result ≡ operand_in word d }
{
    operand_in(u64::from(word), &fields_of(Layout::DRtDRa)[1])
}

/// Floating-point: loads and stores, arithmetic.
fn is_float_opcode(opcode: u64) -> bool
    ensures { result ≡ is_in float_opcodes opcode }
{
    matches!(opcode, 48 | 49 | 50 | 51 | 52 | 53 | 54 | 55 | 59 | 63)
}

/// Floating-point loads and stores of the format X.
fn is_float_code(code: u64) -> bool
    ensures { result ≡ is_in float_codes code }
{
    matches!(
        code,
        535 | 567 | 599 | 631 | 663 | 695 | 727 | 759 | 855 | 887 | 983
    )
}

/// The suffixes of prefixed floating-point loads and stores.
fn is_float_suffix(opcode: u64) -> bool
    ensures { result ≡ is_in float_suffixes opcode }
{
    matches!(opcode, 48 | 50 | 52 | 54)
}

/// Vector loads and stores of the format X.
fn is_vector_code(code: u64) -> bool
    ensures { result ≡ is_in vector_codes code }
{
    matches!(
        code,
        6 | 7 | 38 | 39 | 71 | 103 | 135 | 167 | 199 | 231 | 359 | 487
    )
}

/// Vector-scalar words.
fn is_vsx_opcode(opcode: u64) -> bool
    ensures { result ≡ is_in vsx_opcodes opcode }
{
    matches!(opcode, 6 | 57 | 60 | 61)
}

/// Load and store multiple.
fn is_multiple_opcode(opcode: u64) -> bool
    ensures { result ≡ is_in multiple_opcodes opcode }
{
    matches!(opcode, 46 | 47)
}

/// Moves of strings with their length in XER.
fn is_indexed_string_code(code: u64) -> bool
    ensures { result ≡ is_in indexed_string_codes code }
{
    matches!(code, 533 | 661)
}

/// Moves of strings with their length in the word.
fn is_string_code(code: u64) -> bool
    ensures { result ≡ is_in string_codes code }
{
    matches!(code, 597 | 725)
}

/// A word of the floating-point facility.
fn is_float(word: u32) -> bool
    ensures { result ≡ is_float word }
{
    is_float_opcode(opcode_of(word)) || opcode_of(word) == 31 && is_float_code(extended_of(word))
}

/// A word of the vector facility; those of opcode 4 that have a row aren't asked.
fn is_vector(word: u32) -> bool
    ensures { result ≡ is_vector word }
{
    opcode_of(word) == 4 || opcode_of(word) == 31 && is_vector_code(extended_of(word))
}

/// A word of the vector-scalar facility.
fn is_vsx(word: u32) -> bool
    ensures { result ≡ is_vsx word }
{
    is_vsx_opcode(opcode_of(word))
}

/// Load and store multiple, which have a displacement.
fn is_multiple(word: u32) -> bool
    ensures { result ≡ is_in multiple_opcodes (opcode_of word) }
{
    is_multiple_opcode(opcode_of(word))
}

/// A move of a string at RA|0 and RB.
fn is_indexed_string(word: u32) -> bool
    ensures { result ≡ is_extended indexed_string_codes word }
{
    opcode_of(word) == 31 && is_indexed_string_code(extended_of(word))
}

/// A move of a string at RA|0.
fn is_string(word: u32) -> bool
    ensures { result ≡ is_extended string_codes word }
{
    opcode_of(word) == 31 && is_string_code(extended_of(word))
}

/// What a word is that has no row, or an illegal form of one: of a facility that isn't there, an access
/// that raises an alignment interrupt, or illegal.
pub fn without_row(word: u32) -> Decoded
    ensures { result ≡ without_row word }
{
    if is_float(word) {
        Decoded::Unavailable(Facility::Fp)
    } else if is_vector(word) {
        Decoded::Unavailable(Facility::Vector)
    } else if is_vsx(word) {
        Decoded::Unavailable(Facility::Vsx)
    } else if is_multiple(word) {
        Decoded::Alignment {
            ra: ra_of(word),
            rb: None,
            disp: displacement(word),
        }
    } else if is_indexed_string(word) {
        Decoded::Alignment {
            ra: ra_of(word),
            rb: Some(rb_of(word)),
            disp: 0,
        }
    } else if is_string(word) {
        Decoded::Alignment {
            ra: ra_of(word),
            rb: None,
            disp: 0,
        }
    } else {
        Decoded::Illegal
    }
}

/// Whether a prefix is of type 2.
fn is_mls(prefix: u32, suffix: u32) -> bool
    ensures { result ≡ is_mls prefix }
{
    matches!(split(prefix, suffix), Ok(Wide::Mls { .. }))
}

/// What a prefix and its suffix are where they have no row, or an illegal form of one.
pub fn without_row_prefixed(prefix: u32, suffix: u32) -> Decoded
    ensures { result ≡ without_row_prefixed prefix suffix }
{
    if is_mls(prefix, suffix) && is_float_suffix(opcode_of(suffix)) {
        Decoded::Unavailable(Facility::Fp)
    } else {
        Decoded::Illegal
    }
}
