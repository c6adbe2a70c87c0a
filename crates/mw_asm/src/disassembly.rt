ghost use Rattle.std.specs.Prelude.{◌≡◌, ℕ, ◌+◌, ◌<◌, ◌≤◌, ◌^◌, Bool, false, if◌then◌else◌, pos, ◌+ℤ◌, [], ◌∷◌, ◌++◌, length, is_some, All, Ok, IfOk, IfSome, IsTrue, OnOk};
ghost use Rattle.std.specs.Int.{w64, cast_unsigned};
ghost use Rattle.mw_decode.specs.declared.insn.Code.{Code};
ghost use Rattle.mw_decode.specs.Decode.{decode_of, is_prefix, IsInsn};
ghost use Rattle.mw_decode.specs.Encode.{encode_of};
ghost use Rattle.mw_syntax.specs.Items.{items_of};
ghost use Rattle.mw_syntax.specs.Lines.{shape_at};
ghost use Rattle.mw_syntax.specs.Mnemonics.{ending, spelled};
ghost use Rattle.mw_asm.specs.Values.{code_bytes};
ghost use Rattle.mw_asm.specs.Assembled.{assembled, code_size, image_limit, source_limit};
ghost use Rattle.mw_asm.specs.Again.{encoded_image, statements_of, filled_image, AssemblesAgain, AssemblesTo, IsClear, IsClearCode, IsExactIfClear};
ghost use Rattle.mw_asm.specs.Disassembly.{operand_text, operands_text, behind_name, name_at, statement_text, image_byte, image_word, suffix_in, words_text, line_text, entry_text, long_entry, entry_by, entry_with, entry_at, entries_of, disassembly};

use mw_bits::Bytes;
use mw_decode::{Decoded, Insn, decode, is_prefix};
use mw_digits::{add_hex, add_short_hex, add_signed};
use mw_syntax::{Item, Kind, items_of, shape_at};
use mw_tables::rows;
use std::alloc::{AllocError as NoMemory, Global};

/// A block, in bytes: a prefix and its suffix stand in one.
const BLOCK: usize = 64;

/// The name of the row at a place of the table, without endings.
fn name_at(place: u16) -> &'static str
    ensures { result.now ≡ name_at place }
{
    match rows().get(usize::from(place)) {
        Some(row) => row.name,
        None => "",
    }
}

/// What is written for the operands of the row at a place of the table.
fn items_of_row(place: u16) -> &'static [Item]
    ensures { result.now ≡ items_of (shape_at place) }
{
    items_of(shape_at(place))
}

/// Appends the ending of a form, where it is chosen.
fn add_ending(text: &mut Bytes, chosen: bool, piece: &[u8]) -> Result<(), NoMemory>
    ensures { OnOk result (text.new ≡ text.old ++ ending chosen piece.now) }
{
    if chosen { text.add(piece) } else { Ok(()) }
}

/// Appends the name of an instruction with the endings of its forms.
fn add_name(text: &mut Bytes, insn: &Insn) -> Result<(), NoMemory>
    ensures { OnOk result (text.new ≡ text.old
        ++ (spelled (name_at insn.now.row) insn.now.row insn.now.oe insn.now.lk insn.now.aa insn.now.rc).name) }
{
    text.add(name_at(insn.row).as_bytes())?;
    add_ending(text, insn.oe, b"o")?;
    add_ending(text, insn.lk, b"l")?;
    add_ending(text, insn.aa, b"a")?;
    add_ending(text, insn.rc, b".")
}

/// The address that a branch at an address goes to: its displacement in bytes, from 0 where it is absolute,
/// and from the branch where it isn't. Sums wrap at 2^64.
fn target(displacement: i64, absolute: bool, at: u64) -> u64
    requires { at < 2 ^ 63 }
    ensures { result ≡ cast_unsigned w64 (displacement +ℤ pos (if absolute then 0 else at)) }
{
    if absolute {
        displacement.cast_unsigned()
    } else {
        at.wrapping_add(displacement.cast_unsigned())
    }
}

/// Appends an operand.
fn add_operand(
    text: &mut Bytes,
    kind: Kind,
    absolute: bool,
    at: u64,
    operand: i64,
) -> Result<(), NoMemory>
    requires { at < 2 ^ 63 }
    ensures { OnOk result (text.new ≡ text.old ++ operand_text kind absolute at operand) }
{
    match kind {
        Kind::Register => {
            text.add(b"r")?;
            add_signed(text, operand)
        }
        Kind::Target => add_short_hex(text, target(operand, absolute, at)),
        Kind::Value => add_signed(text, operand),
        Kind::Upper => add_signed(text, operand),
    }
}

/// Appends operands as an operand list writes them, up to the first that isn't there.
fn add_operands(
    text: &mut Bytes,
    items: &[Item],
    absolute: bool,
    at: u64,
    operands: &[i64],
) -> Result<(), NoMemory>
    requires { at < 2 ^ 63 }
    ensures { OnOk result
        (text.new ≡ text.old ++ operands_text items.now absolute at operands.now) }
{
    let mut place = 0;
    for item in items {
        match item {
            Item::Operand(kind) => {
                let Some(operand) = operands.get(place) else {
                    return Ok(());
                };
                add_operand(text, *kind, absolute, at, *operand)?;
                place += 1;
            }
            Item::Comma => text.add(b",")?,
            Item::Open => text.add(b"(")?,
            Item::Close => text.add(b")")?,
        }
    }
    Ok(())
}

/// Whether an operand list writes anything for these operands.
fn has_text(items: &[Item], operands: &[i64]) -> bool
    ensures { (absolute : Bool) (at : ℕ) →
        behind_name (operands_text items.now absolute at operands.now)
        ≡ (if result then 32 ∷ operands_text items.now absolute at operands.now else []) }
{
    match items.first() {
        Some(Item::Operand(_)) => !operands.is_empty(),
        Some(Item::Comma) => true,
        Some(Item::Open) => true,
        Some(Item::Close) => true,
        None => false,
    }
}

/// Appends a blank and the operands of an instruction at an address, where there are any.
fn add_behind_name(text: &mut Bytes, insn: &Insn, at: u64) -> Result<(), NoMemory>
    requires { at < 2 ^ 63 }
    ensures { OnOk result (text.new ≡ text.old
        ++ behind_name (operands_text (items_of (shape_at insn.now.row)) insn.now.aa at insn.now.ops.items)) }
{
    let items = items_of_row(insn.row);
    let operands = insn.ops.as_slice();
    if !has_text(items, operands) {
        return Ok(());
    }
    text.add(b" ")?;
    add_operands(text, items, insn.aa, at, operands)
}

/// Appends the statement of an instruction at an address: its name with the endings of its forms, and its
/// operands.
fn add_statement(text: &mut Bytes, insn: &Insn, at: u64) -> Result<(), NoMemory>
    requires { at < 2 ^ 63 }
    ensures { OnOk result (text.new ≡ text.old ++ statement_text insn.now at) }
{
    add_name(text, insn)?;
    add_behind_name(text, insn, at)
}

/// Appends a word or two, as they are printed.
fn add_words(text: &mut Bytes, word: u32, suffix: Option<u32>) -> Result<(), NoMemory>
    ensures { OnOk result (text.new ≡ text.old ++ words_text word suffix) }
{
    add_hex(text, 8, u64::from(word))?;
    match suffix {
        Some(suffix) => {
            text.add(b" ")?;
            add_hex(text, 8, u64::from(suffix))
        }
        None => Ok(()),
    }
}

/// Appends the line of an instruction at an address, and says whether it has two words.
fn add_insn(
    text: &mut Bytes,
    at: u64,
    word: u32,
    suffix: Option<u32>,
    insn: &Insn,
) -> Result<bool, NoMemory>
    requires { at < 2 ^ 63 }
    ensures line { OnOk result
        (text.new ≡ text.old ++ line_text at word suffix (statement_text insn.now at)) }
    ensures pair { IfOk result (λ pair. pair ≡ is_some suffix) }
{
    add_hex(text, 16, at)?;
    text.add(b" ")?;
    add_words(text, word, suffix)?;
    text.add(b" ")?;
    add_statement(text, insn, at)?;
    text.add(b"\n")?;
    Ok(suffix.is_some())
}

/// Appends the line of a word at an address that is no instruction; it has one word.
fn add_long(text: &mut Bytes, at: u64, word: u32) -> Result<bool, NoMemory>
    ensures line { OnOk result (text.new ≡ text.old ++ entry_text (long_entry at word)) }
    ensures pair { IfOk result (λ pair. pair ≡ false) }
{
    add_hex(text, 16, at)?;
    text.add(b" ")?;
    add_hex(text, 8, u64::from(word))?;
    text.add(b" .long 0x")?;
    add_hex(text, 8, u64::from(word))?;
    text.add(b"\n")?;
    Ok(false)
}

/// Appends the line of a word at an address, with its suffix, and says whether it has two words.
fn add_decoded(text: &mut Bytes, at: u64, word: u32, suffix: Option<u32>) -> Result<bool, NoMemory>
    requires low { at < 2 ^ 63 }
    requires whole { is_some suffix ≡ is_prefix word }
    ensures line { OnOk result
        (text.new ≡ text.old ++ entry_text (entry_by at word suffix (decode_of word suffix))) }
    ensures pair { IfOk result
        (λ pair. pair ≡ is_some (entry_by at word suffix (decode_of word suffix)).suffix) }
{
    match decode(word, suffix) {
        Decoded::Insn(insn) => add_insn(text, at, word, suffix, &insn),
        Decoded::Unavailable(_) => add_long(text, at, word),
        Decoded::Alignment { .. } => add_long(text, at, word),
        Decoded::Illegal => add_long(text, at, word),
    }
}

/// Appends the line of a word at an address, with the suffix that a prefix has there, and says whether it
/// has two words.
fn add_word(text: &mut Bytes, at: u64, word: u32, suffix: Option<u32>) -> Result<bool, NoMemory>
    requires low { at < 2 ^ 63 }
    requires prefix { IfSome suffix (λ _. IsTrue (is_prefix word)) }
    ensures line { OnOk result (text.new ≡ text.old ++ entry_text (entry_with at word suffix)) }
    ensures pair { IfOk result (λ pair. pair ≡ is_some (entry_with at word suffix).suffix) }
{
    match suffix {
        Some(suffix) => add_decoded(text, at, word, Some(suffix)),
        None => {
            if is_prefix(word) {
                add_long(text, at, word)
            } else {
                add_decoded(text, at, word, None)
            }
        }
    }
}

/// The byte of an image at an address, or 0 behind its end.
fn image_byte(image: &[u8], at: usize) -> u8
    ensures { result ≡ image_byte image.now at }
{
    match image.get(at) {
        Some(byte) => *byte,
        None => 0,
    }
}

/// The word of an image at an address, filled with zeros where the image ends.
fn image_word(image: &[u8], at: usize) -> u32
    requires { at < length image.now }
    ensures { result ≡ image_word image.now at }
{
    u32::from(image_byte(image, at))
        + 256
            * (u32::from(image_byte(image, at + 1))
                + 256
                    * (u32::from(image_byte(image, at + 2))
                        + 256 * u32::from(image_byte(image, at + 3))))
}

/// The suffix of the word of an image at an address, if it is a prefix that has one: in the image, and in its
/// block.
fn suffix_in(image: &[u8], at: usize) -> Option<u32>
    requires { at < length image.now }
    ensures value { result ≡ suffix_in image.now at }
    ensures prefix { IfSome result (λ _. IsTrue (is_prefix (image_word image.now at))) }
{
    if is_prefix(image_word(image, at)) && at % BLOCK != BLOCK - 4 && at + 4 < image.len() {
        Some(image_word(image, at + 4))
    } else {
        None
    }
}

/// Appends the line at an address of an image, and says whether it has two words.
#[tactic(auto, unfolding(crate::specs::Disassembly::entry_at))]
fn add_line(text: &mut Bytes, image: &[u8], at: usize) -> Result<bool, NoMemory>
    requires { at < length image.now }
    ensures line { OnOk result (text.new ≡ text.old ++ entry_text (entry_at image.now at)) }
    ensures pair { IfOk result (λ pair. pair ≡ is_some (entry_at image.now at).suffix) }
{
    add_word(text, at as u64, image_word(image, at), suffix_in(image, at))
}

/// The lines of an image: one for each word or pair.
fn print_lines(alloc: Global, image: &[u8]) -> Result<Bytes, NoMemory>
    ensures { IfOk result (λ text. text ≡ disassembly image.now) }
{
    let mut text = Bytes::new(alloc);
    let mut is_suffix = false;
    for place in 0..image.len().div_ceil(4) {
        if is_suffix {
            is_suffix = false;
        } else {
            is_suffix = add_line(&mut text, image, 4 * place)?;
        }
    }
    Ok(text)
}

/// The disassembly of an image from address 0 on, in bytes: a line for each word or pair, with its address,
/// its words and its statement as the assembler reads it. A word that is no instruction, and a prefix
/// whose pair is none or that has no suffix in the image and in its block of 64 bytes, has a `.long` line
/// with that one word. The last word is filled with zeros. The only error is want of memory.
///
/// Each statement of an image of at most 16,777,216 bytes, assembled behind `.org` with its address, gives
/// its words again but for reserved bits, which become 0; so do all of them in one source, if that has at
/// most 4 MiB. The clauses behind `text` are these laws of the definition that `text` names.
pub fn disassemble(alloc: Global, image: &[u8]) -> Result<Bytes, NoMemory>
    ensures text { IfOk result (λ text. text ≡ disassembly image.now) }
    ensures again { length image.now ≤ image_limit → All AssemblesAgain (entries_of image.now) }
    ensures source { length image.now ≤ image_limit → length (statements_of image.now) ≤ source_limit →
        assembled (statements_of image.now) ≡ Ok (encoded_image image.now) }
    ensures exact { All IsExactIfClear (entries_of image.now) }
    ensures whole { All IsClear (entries_of image.now) → encoded_image image.now ≡ filled_image image.now }
{
    print_lines(alloc, image)
}

/// The statement of an instruction at an address, as its line of a disassembly has it. The instruction is
/// one of the table, and its words end at or below 16,777,216. Assembled behind `.org` with the address, the
/// statement gives `encode`'s words of the instruction; if it was decoded from words without set reserved
/// bits, these. The only error is want of memory.
pub fn print_statement(alloc: Global, insn: &Insn, at: u64) -> Result<Bytes, NoMemory>
    requires insn { IsInsn insn.now }
    requires room { at + code_size insn.now.row ≤ image_limit }
    ensures text { IfOk result (λ text. text ≡ statement_text insn.now at) }
    ensures again { IfOk result (λ text. AssemblesTo text at (code_bytes (encode_of insn.now))) }
    ensures words { (code : Code) → IsClearCode code insn.now →
        IfOk result (λ text. AssemblesTo text at (code_bytes code)) }
{
    let mut text = Bytes::new(alloc);
    add_statement(&mut text, insn, at)?;
    Ok(text)
}
