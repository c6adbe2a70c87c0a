ghost use Rattle.std.specs.Prelude.{◌≡◌, ◌*◌, ◌^◌, ◌<◌, ◌≤◌, pos, neg_ℤ, [], ◌∷◌, codes};
ghost use Rattle.mw_decode.specs.Decode.{IsInsn};
ghost use Rattle.mw_decode.specs.Encode.{encode_of};
ghost use Rattle.mw_generator.specs.Generated.{access, chosen, of_three};
ghost use Rattle.mw_generator.specs.Instructions.{insn_at, li, lis, mtspr, si_of, word};

use arrayvec::ArrayVec;
use mw_decode::{Insn, encode};

// Places of rows in the table of instructions; the lemmas of the words below say that they have these names.
const ADDI: u16 = 0;

const ADDIS: u16 = 1;

const ORI: u16 = 10;

const B: u16 = 17;

const ADD: u16 = 43;

const MULLD: u16 = 55;

const DIVD: u16 = 60;

const XOR: u16 = 77;

const STW: u16 = 133;

const LD: u16 = 143;

const STD: u16 = 146;

const RFID: u16 = 197;

const MFMSR: u16 = 203;

const MTSPR: u16 = 209;

/// A register as an operand.
fn register(x: u8) -> ArrayVec<i64, 6>
    ensures { result.items ≡ pos x ∷ [] }
{
    let mut operands = ArrayVec::new();
    operands.push(i64::from(x));
    operands
}

/// The displacement of a branch back by so many words as an operand.
fn backwards(words: u32) -> ArrayVec<i64, 6>
    ensures { result.items ≡ neg_ℤ (pos (4 * words)) ∷ [] }
{
    let mut operands = ArrayVec::new();
    operands.push(-(4 * i64::from(words)));
    operands
}

/// A special-purpose register and a register as operands.
fn special(spr: u16, x: u8) -> ArrayVec<i64, 6>
    ensures { result.items ≡ pos spr ∷ pos x ∷ [] }
{
    let mut operands = ArrayVec::new();
    operands.push(i64::from(spr));
    operands.push(i64::from(x));
    operands
}

/// Three registers as operands.
fn registers(x: u8, y: u8, z: u8) -> ArrayVec<i64, 6>
    ensures { result.items ≡ pos x ∷ pos y ∷ pos z ∷ [] }
{
    let mut operands = ArrayVec::new();
    operands.push(i64::from(x));
    operands.push(i64::from(y));
    operands.push(i64::from(z));
    operands
}

/// Two registers and a signed number as operands.
fn with_si(x: u8, y: u8, si: i16) -> ArrayVec<i64, 6>
    ensures { result.items ≡ pos x ∷ pos y ∷ si ∷ [] }
{
    let mut operands = ArrayVec::new();
    operands.push(i64::from(x));
    operands.push(i64::from(y));
    operands.push(i64::from(si));
    operands
}

/// Two registers and an unsigned number as operands.
fn with_ui(x: u8, y: u8, ui: u16) -> ArrayVec<i64, 6>
    ensures { result.items ≡ pos x ∷ pos y ∷ pos ui ∷ [] }
{
    let mut operands = ArrayVec::new();
    operands.push(i64::from(x));
    operands.push(i64::from(y));
    operands.push(i64::from(ui));
    operands
}

/// A register, a displacement and the register that it counts from as operands.
fn place(x: u8, displacement: u16, base: u8) -> ArrayVec<i64, 6>
    ensures { result.items ≡ pos x ∷ pos displacement ∷ pos base ∷ [] }
{
    let mut operands = ArrayVec::new();
    operands.push(i64::from(x));
    operands.push(i64::from(displacement));
    operands.push(i64::from(base));
    operands
}

/// The word of the row at a place of the table, with these operands and no form.
fn word_of(row: u16, operands: ArrayVec<i64, 6>) -> u32
    requires { IsInsn (insn_at row operands.items) }
    ensures { result ≡ (encode_of (insn_at row operands.items)).word }
{
    let insn = Insn {
        row,
        ops: operands,
        oe: false,
        rc: false,
        aa: false,
        lk: false,
    };
    encode(&insn).word
}

/// `addi`: RT becomes RA|0 and SI.
pub(crate) fn addi(rt: u8, ra: u8, si: i16) -> u32
    requires target { rt < 32 }
    requires source { ra < 32 }
    ensures { result ≡ word (codes "addi") (pos rt ∷ pos ra ∷ si ∷ []) }
{
    word_of(ADDI, with_si(rt, ra, si))
}

/// `li`: RT becomes SI.
pub(crate) fn li(rt: u8, si: i16) -> u32
    requires { rt < 32 }
    ensures { result ≡ li rt si }
{
    addi(rt, 0, si)
}

/// `lis`: RT becomes SI * 65536.
pub(crate) fn lis(rt: u8, si: i16) -> u32
    requires { rt < 32 }
    ensures { result ≡ lis rt si }
{
    word_of(ADDIS, with_si(rt, 0, si))
}

/// `ori`: RA becomes RS with the ones of UI.
pub(crate) fn ori(ra: u8, rs: u8, ui: u16) -> u32
    requires target { ra < 32 }
    requires source { rs < 32 }
    ensures { result ≡ word (codes "ori") (pos ra ∷ pos rs ∷ pos ui ∷ []) }
{
    word_of(ORI, with_ui(ra, rs, ui))
}

/// `mtspr`: a special-purpose register becomes RS.
pub(crate) fn mtspr(spr: u16, rs: u8) -> u32
    requires special { spr < 1024 }
    requires source { rs < 32 }
    ensures { result ≡ mtspr spr rs }
{
    word_of(MTSPR, special(spr, rs))
}

/// `mfmsr`: RT becomes MSR.
pub(crate) fn mfmsr(rt: u8) -> u32
    requires { rt < 32 }
    ensures { result ≡ word (codes "mfmsr") (pos rt ∷ []) }
{
    word_of(MFMSR, register(rt))
}

/// `rfid`: return from an interrupt.
pub(crate) fn rfid() -> u32
    ensures { result ≡ word (codes "rfid") [] }
{
    word_of(RFID, ArrayVec::new())
}

/// `b` back by so many words, counted from itself.
pub(crate) fn branch_back(words: u32) -> u32
    requires { words ≤ 2 ^ 23 }
    ensures { result ≡ word (codes "b") (neg_ℤ (pos (4 * words)) ∷ []) }
{
    word_of(B, backwards(words))
}

/// `add`: RT becomes the sum of RA and RB.
fn add(t: u8, a: u8, b: u8) -> u32
    requires registers { (t < 32) × (a < 32) × (b < 32) }
    ensures { result ≡ of_three (codes "add") t a b }
{
    word_of(ADD, registers(t, a, b))
}

/// `xor`: RA becomes RS xor RB.
fn xor(t: u8, a: u8, b: u8) -> u32
    requires registers { (t < 32) × (a < 32) × (b < 32) }
    ensures { result ≡ of_three (codes "xor") t a b }
{
    word_of(XOR, registers(t, a, b))
}

/// `mulld`: RT becomes the low 64 bits of the product of RA and RB.
fn mulld(t: u8, a: u8, b: u8) -> u32
    requires registers { (t < 32) × (a < 32) × (b < 32) }
    ensures { result ≡ of_three (codes "mulld") t a b }
{
    word_of(MULLD, registers(t, a, b))
}

/// `divd`: RT becomes the quotient of RA and RB.
fn divd(t: u8, a: u8, b: u8) -> u32
    requires registers { (t < 32) × (a < 32) × (b < 32) }
    ensures { result ≡ of_three (codes "divd") t a b }
{
    word_of(DIVD, registers(t, a, b))
}

/// `ld`: RT becomes the doubleword at this displacement behind register 3.
fn ld(t: u8, doubleword: u16) -> u32
    requires register { t < 32 }
    requires near { doubleword < 4096 }
    ensures { result ≡ access (codes "ld") t (8 * doubleword) }
{
    word_of(LD, place(t, 8 * doubleword, 3))
}

/// `std`: the doubleword at this displacement behind register 3 becomes RS.
fn std(t: u8, doubleword: u16) -> u32
    requires register { t < 32 }
    requires near { doubleword < 4096 }
    ensures { result ≡ access (codes "std") t (8 * doubleword) }
{
    word_of(STD, place(t, 8 * doubleword, 3))
}

/// `stw`: the word at this displacement behind register 3 becomes the low half of RS.
fn stw(t: u8, displacement: u16) -> u32
    requires register { t < 32 }
    requires near { displacement < 32768 }
    ensures { result ≡ access (codes "stw") t displacement }
{
    word_of(STW, place(t, displacement, 3))
}

/// The SI that has these bits.
pub(crate) fn si_of(bits: u16) -> i16
    ensures { result ≡ si_of bits }
{
    bits.cast_signed()
}

/// The instruction that a number below 8 chooses, of a target, two other registers and a number.
#[tactic(auto, unfolding(crate::specs::Generated::chosen))]
pub(crate) fn chosen(k: u64, t: u8, a: u8, b: u8, i: u16) -> u32
    requires registers { (t < 32) × (a < 32) × (b < 32) }
    ensures { result ≡ chosen k t a b i }
{
    match k {
        0 => add(t, a, b),
        1 => xor(t, a, b),
        2 => mulld(t, a, b),
        3 => divd(t, a, b),
        4 => ld(t, i % 4096),
        5 => std(t, i % 4096),
        6 => addi(t, a, si_of(i)),
        _ => stw(t, i % 32764),
    }
}
