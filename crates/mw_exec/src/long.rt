ghost use Rattle.std.specs.Prelude.{◌≡◌};
ghost use Rattle.mw_isa.specs.Execute.{multiplication_of, product_by, quotient_by};
ghost use Rattle.mw_isa.specs.Long.{IsStarted, added_by, dividend_by, divides_words, extended_dividend, factor_in, plain_dividend, sign_extended, word_factor, zero_extended};
ghost use Rattle.mw_isa.specs.Places.{HasRegisters, places_of};

use crate::inputs::b_of;
use mw_bits::sext;
use mw_decode::Insn;
use mw_isa::{
    Addend, LongOp, Operands, Operation, Places, ProductRow, QuotientRow, places_of, written_of,
};
use mw_muldiv::{Div, DivKind, Mul, MulKind, Wide128};

/// A number in 128 bits, with zeros above.
fn zero_extended(number: u64) -> Wide128
    ensures { result ≡ zero_extended number }
{
    Wide128 {
        high: 0,
        low: number,
    }
}

/// A number in 128 bits, with its sign above.
fn sign_extended(number: u64) -> Wide128
    ensures { result ≡ sign_extended number }
{
    Wide128 {
        high: if number.cast_signed() < 0 {
            u64::MAX
        } else {
            0
        },
        low: number,
    }
}

/// The low word of a number in 64 bits, as a multiplication reads its factors.
fn word_factor(kind: MulKind, number: u64) -> u64
    ensures { result ≡ word_factor kind number }
{
    match kind {
        MulKind::Signed => sext(number, 32),
        MulKind::Unsigned => number % 0x1_0000_0000,
    }
}

/// A factor: a number, or its low word.
fn factor_in(kind: MulKind, word: bool, number: u64) -> u64
    ensures { result ≡ factor_in kind word number }
{
    if word {
        word_factor(kind, number)
    } else {
        number
    }
}

/// What is added to a product.
fn added_by(addend: Addend, c: u64) -> Wide128
    ensures { result ≡ added_by addend c }
{
    match addend {
        Addend::NoAddend => zero_extended(0),
        Addend::PlainAddend => zero_extended(c),
        Addend::SignedAddend => sign_extended(c),
    }
}

/// The dividend a, as a division reads it.
fn plain_dividend(kind: DivKind, a: u64) -> Wide128
    ensures { result ≡ plain_dividend kind a }
{
    match kind {
        DivKind::Signed64 => sign_extended(a),
        DivKind::Unsigned64 => zero_extended(a),
        DivKind::Signed32 => zero_extended(sext(a, 32)),
        DivKind::Unsigned32 => zero_extended(a % 0x1_0000_0000),
    }
}

/// The dividend a with as many zeros behind it as it has bits.
fn extended_dividend(kind: DivKind, a: u64) -> Wide128
    ensures { result ≡ extended_dividend kind a }
{
    match kind {
        DivKind::Signed64 => Wide128 { high: a, low: 0 },
        DivKind::Unsigned64 => Wide128 { high: a, low: 0 },
        DivKind::Signed32 => zero_extended(a % 0x1_0000_0000 * 0x1_0000_0000),
        DivKind::Unsigned32 => zero_extended(a % 0x1_0000_0000 * 0x1_0000_0000),
    }
}

/// The dividend.
fn dividend_by(kind: DivKind, extended: bool, a: u64) -> Wide128
    ensures { result ≡ dividend_by kind extended a }
{
    if extended {
        extended_dividend(kind, a)
    } else {
        plain_dividend(kind, a)
    }
}

/// Whether a division reads low words.
fn divides_words(kind: DivKind) -> bool
    ensures { result ≡ divides_words kind }
{
    match kind {
        DivKind::Signed64 => false,
        DivKind::Unsigned64 => false,
        DivKind::Signed32 => true,
        DivKind::Unsigned32 => true,
    }
}

/// The multiplier of a row, started.
fn multiplier(row: ProductRow, places: Places, insn: &Insn, operands: &Operands) -> Mul
    ensures { result ≡ multiplication_of row places insn.now operands.now }
{
    Mul::start(
        row.kind,
        factor_in(row.kind, row.word, operands.a),
        factor_in(row.kind, row.word, b_of(places, insn, operands)),
        added_by(row.addend, operands.c),
    )
}

/// The rows that multiply (Book I, fixed-point arithmetic instructions): the multiplier, started, and what is
/// done with its answer.
pub fn product_by(row: ProductRow, insn: &Insn, operands: &Operands) -> LongOp
    requires { HasRegisters insn.now (places_of (Operation.Product row)) }
    ensures value { result ≡ product_by row insn.now operands.now }
    ensures started { IsStarted result }
{
    let places = places_of(Operation::Product(row));
    LongOp::Mul {
        unit: multiplier(row, places, insn, operands),
        high: row.high,
        word: row.word,
        to: written_of(insn, places),
        oe: insn.oe,
        rc: insn.rc,
    }
}

/// The rows that divide (Book I, fixed-point arithmetic instructions): the divider, started, and what is done
/// with its answer.
pub fn quotient_by(row: QuotientRow, insn: &Insn, operands: &Operands) -> LongOp
    requires { HasRegisters insn.now (places_of (Operation.Quotient row)) }
    ensures value { result ≡ quotient_by row insn.now operands.now }
    ensures started { IsStarted result }
{
    let dividend = dividend_by(row.kind, row.extended, operands.a);
    LongOp::Div {
        unit: Div::start(row.kind, dividend, operands.b),
        rest: row.rest,
        word: divides_words(row.kind),
        to: written_of(insn, places_of(Operation::Quotient(row))),
        oe: insn.oe,
        rc: insn.rc,
    }
}
