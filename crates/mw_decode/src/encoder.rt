ghost use Rattle.std.specs.Prelude.{◌≡◌, ◌^◌, ◌<◌, IsTrue, is_some, length};
ghost use Rattle.std.specs.List.{list_all};
ghost use Rattle.mw_tables.specs.Row.{prefix_value, row_of};
ghost use Rattle.mw_tables.specs.Layouts.{code_with_all, is_readable};
ghost use Rattle.mw_tables.specs.Sound.{bits_of_kind, fixed_value};
ghost use Rattle.mw_decode.specs.declared.insn.Decoded.TheVariants.{Insn as Is};
ghost use Rattle.mw_decode.specs.Decode.{IsInsn, decode_of, is_prefix};
ghost use Rattle.mw_decode.specs.Encode.{HasNoReserved, encode_of, flag_operand, flag_operands, words_of};

use crate::insn::{Code, Insn};
use mw_tables::{Field, PrefixKind, Row, code_with, fields_of, flags_of, layout_at, row_at};

/// The bits that a prefix of this kind fixes, and 0 without one (Book I, prefixed instruction formats).
fn prefix_value(kind: PrefixKind) -> u32
    ensures { result ≡ prefix_value kind }
{
    match kind {
        PrefixKind::Plain => 0,
        PrefixKind::Mls => 0x0600_0000,
        PrefixKind::Eight => 0x0400_0000,
        PrefixKind::Nop => 0x0700_0000,
    }
}

/// The bits that a row fixes in a code.
fn fixed_value(row: &Row) -> u64
    ensures { result ≡ fixed_value (row_of row.now) }
{
    u64::from(prefix_value(row.prefix)) * 0x1_0000_0000 + u64::from(row.value)
}

/// A form as an operand: 1 where it is chosen.
fn flag_operand(chosen: bool) -> i64
    ensures { result ≡ flag_operand chosen }
{
    if chosen { 1 } else { 0 }
}

/// The forms OE, Rc, AA and LK of an instruction as operands.
fn flag_operands(insn: &Insn) -> [i64; 4]
    ensures { result ≡ flag_operands insn.now }
{
    [
        flag_operand(insn.oe),
        flag_operand(insn.rc),
        flag_operand(insn.aa),
        flag_operand(insn.lk),
    ]
}

/// A code that has the operands in the fields, one for one, and 0 elsewhere.
fn code_with_all(fields: &[Field], operands: &[i64]) -> u64
    requires readable { IsTrue (list_all is_readable fields.now) }
    requires each { length operands.now ≡ length fields.now }
    ensures { result ≡ code_with_all fields.now operands.now }
{
    let mut code = 0;
    for (place, field) in fields.iter().enumerate() {
        code |= code_with(operands[place], field);
    }
    code
}

/// A code as a word, or as a prefix and a suffix.
fn words_of(kind: PrefixKind, code: u64) -> Code
    requires { code < 2 ^ bits_of_kind kind }
    ensures { result ≡ words_of kind code }
{
    match kind {
        PrefixKind::Plain => Code {
            word: code as u32,
            suffix: None,
        },
        PrefixKind::Mls | PrefixKind::Eight | PrefixKind::Nop => Code {
            word: (code / 0x1_0000_0000) as u32,
            suffix: Some((code % 0x1_0000_0000) as u32),
        },
    }
}

/// The word of an instruction, or its prefix and its suffix (Book I, instruction formats).
///
/// They hold the fixed bits of its row, each operand in its field, and the forms; the other bits are 0.
/// `decode` gives the instruction again.
pub fn encode(insn: &Insn) -> Code
    requires { IsInsn insn.now }
    ensures value { result ≡ encode_of insn.now }
    ensures decodes { decode_of result.word result.suffix ≡ Is insn.now }
    ensures prefix { is_some result.suffix ≡ is_prefix result.word }
    ensures reserved { HasNoReserved insn.now result }
{
    let row = row_at(insn.row);
    let operands = code_with_all(fields_of(layout_at(insn.row)), insn.ops.as_slice());
    let forms = code_with_all(&flags_of(row), &flag_operands(insn));
    words_of(row.prefix, fixed_value(row) | (operands | forms))
}
