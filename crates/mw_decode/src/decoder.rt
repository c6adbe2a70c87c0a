ghost use Rattle.std.specs.Prelude.{◌≡◌, ◌<◌, ◌≤◌, ◌↔◌, IfSome, IsTrue, None, Some, is_some, length, true};
ghost use Rattle.std.specs.List.{list_all};
ghost use Rattle.mw_prefix.specs.Wide.{split_of};
ghost use Rattle.mw_tables.specs.Row.{row_of};
ghost use Rattle.mw_tables.specs.Rows.{row_count, table};
ghost use Rattle.mw_tables.specs.Layouts.{is_readable, operands_in};
ghost use Rattle.mw_tables.specs.Matching.{MatchesAt, matches, row_place};
ghost use Rattle.mw_decode.specs.Decode.{Decodes, Finds, IsInsn, OnInsn, decode_of, found_of, insn_at, is_prefix, is_set, otherwise, place_behind};

use crate::groups::leading_place;
use crate::insn::{Decoded, Insn};
use crate::rule::is_illegal_form;
use crate::unavailable::{without_row, without_row_prefixed};
use crate::word::opcode_of;
use arrayvec::ArrayVec;
use mw_prefix::{Wide, split};
use mw_tables::{Field, PrefixKind, Row, fields_of, layout_at, operand_in, row_at, rows};

/// Whether `word` is a prefix, which has a suffix behind it (Book I, instruction formats).
pub fn is_prefix(word: u32) -> bool
    ensures { result ≡ is_prefix word }
{
    opcode_of(word) == 1
}

/// Whether the word, or the suffix behind this kind of prefix, has the row's fixed bits.
fn matches(row: &Row, kind: PrefixKind, word: u32) -> bool
    ensures { result ≡ matches kind word (row_of row.now) }
{
    row.prefix == kind && word & row.mask == row.value
}

/// Whether there is a row at a place and it matches.
fn is_at(kind: PrefixKind, word: u32, place: usize) -> bool
    ensures { IsTrue result ↔ MatchesAt table kind word place }
{
    place < rows().len() && matches(&rows()[place], kind, word)
}

/// The place in the table of the row that matches a word, or the suffix behind this kind of prefix.
fn row_place(kind: PrefixKind, word: u32) -> Option<u16>
    ensures value { result ≡ row_place kind word }
    ensures within { IfSome result (λ place. place < row_count) }
{
    let place = usize::from(leading_place(kind, word));
    if is_at(kind, word, place) {
        Some(place as u16)
    } else if is_at(kind, word, place + 1) {
        Some((place + 1) as u16)
    } else {
        None
    }
}

/// The place in the table of the row of a prefix and its suffix.
fn place_behind(prefix: u32, suffix: u32) -> Option<u16>
    ensures value { result ≡ place_behind (split_of prefix suffix) suffix }
    ensures within { IfSome result (λ place. place < row_count) }
{
    match split(prefix, suffix) {
        Ok(Wide::Mls { .. }) => row_place(PrefixKind::Mls, suffix),
        Ok(Wide::Eight { .. }) => row_place(PrefixKind::Eight, suffix),
        Ok(Wide::Nop { .. }) => row_place(PrefixKind::Nop, suffix),
        Err(_) => None,
    }
}

/// A bit of a word, or of a suffix, numbered from the left of its 32.
fn is_set(code: u64, at: u32) -> bool
    requires { at < 32 }
    ensures { result ≡ is_set code at }
{
    code / (1 << (31 - at)) % 2 == 1
}

/// The operands that a code has in these fields, written over `found`.
fn operands_in(code: u64, fields: &[Field], found: &mut ArrayVec<i64, 6>)
    requires readable { IsTrue (list_all is_readable fields.now) }
    requires few { length fields.now ≤ 6 }
    ensures { found.new.items ≡ operands_in code fields.now }
{
    found.clear();
    for field in fields {
        found.push(operand_in(code, field));
    }
}

/// The instruction of the row at a place of the table, written over `insn`, and `false` where its operands are
/// an illegal form.
fn insn_at(code: u64, place: u16, insn: &mut Insn) -> bool
    requires { place < row_count }
    ensures { Finds result insn.new (insn_at code (Some place)) }
{
    operands_in(code, fields_of(layout_at(place)), &mut insn.ops);
    if is_illegal_form(place, insn.ops.as_slice()) {
        return false;
    }
    let row = row_at(place);
    insn.row = place;
    insn.oe = row.oe && is_set(code, 21);
    insn.rc = row.rc && is_set(code, 31);
    insn.aa = row.absolute && is_set(code, 30);
    insn.lk = row.links && is_set(code, 31);
    true
}

/// The instruction that a word is which isn't a prefix, written over `insn`, if it is one.
fn find_word(word: u32, insn: &mut Insn) -> bool
    ensures { Finds result insn.new (found_of word None) }
{
    match row_place(PrefixKind::Plain, word) {
        Some(place) => insn_at(u64::from(word), place, insn),
        None => false,
    }
}

/// The instruction that a prefix with its suffix is, written over `insn`, if it is one.
#[inline(never)]
fn find_pair(prefix: u32, suffix: u32, insn: &mut Insn) -> bool
    ensures { Finds result insn.new (found_of prefix (Some suffix)) }
{
    match place_behind(prefix, suffix) {
        Some(place) => {
            let code = u64::from(prefix) * 0x1_0000_0000 + u64::from(suffix);
            insn_at(code, place, insn)
        }
        None => false,
    }
}

/// The instruction that `word` is, a plain word or a prefix with its suffix (Book I, instruction formats),
/// written over `insn`; `false` where it is none: `insn` is then of no use but to be written over. It can't
/// fail.
pub fn decode_into(word: u32, suffix: Option<u32>, insn: &mut Insn) -> bool
    requires { is_some suffix ≡ is_prefix word }
    ensures value { Decodes result insn.new (decode_of word suffix) }
    ensures insn { result ≡ true → IsInsn insn.new }
{
    match suffix {
        Some(suffix) => find_pair(word, suffix, insn),
        None => find_word(word, insn),
    }
}

/// What a word is where it isn't an instruction.
fn otherwise(word: u32, suffix: Option<u32>) -> Decoded
    ensures { result ≡ otherwise word suffix }
{
    match suffix {
        Some(suffix) => without_row_prefixed(word, suffix),
        None => without_row(word),
    }
}

/// What `word` is, a plain word or a prefix with its suffix (Book I, instruction formats).
///
/// An instruction is the row that matches, with its operands and forms. A word that no row matches,
/// and one whose operands its row forbids, is of a facility that isn't there, an access that raises an
/// alignment interrupt, or illegal.
pub fn decode(word: u32, suffix: Option<u32>) -> Decoded
    requires { is_some suffix ≡ is_prefix word }
    ensures value { result ≡ decode_of word suffix }
    ensures insn { OnInsn IsInsn result }
{
    let mut insn = Insn::new();
    if decode_into(word, suffix, &mut insn) {
        Decoded::Insn(insn)
    } else {
        otherwise(word, suffix)
    }
}
