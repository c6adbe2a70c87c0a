ghost use Rattle.std.specs.Prelude.{◌≡◌};
ghost use Rattle.mw_muldiv.specs.Wide.{number_of};
ghost use Rattle.mw_isa.specs.Finish.{bits_behind, finished, finished_by};
ghost use Rattle.mw_isa.specs.Long.{given, half_of, high_of, is_too_wide, overflows_product, product_out, quotient_out};

use crate::ending::{push_field, push_xer, with_overflows, with_summary};
use arrayvec::ArrayVec;
use mw_alu::AluOut;
use mw_isa::{LongOp, Slot, Target, XerBits, xer_bits};
use mw_muldiv::{DivOut, Wide128};

/// A result, with OV and OV32.
fn given(value: u64, overflow: bool) -> AluOut
    ensures { result ≡ given value overflow }
{
    AluOut {
        value,
        ca: false,
        ca32: false,
        ov: overflow,
        ov32: overflow,
    }
}

/// The high 64 bits of a product; of words the high 32 of its 64.
fn high_of(word: bool, wide: Wide128) -> u64
    ensures { result ≡ high_of word wide }
{
    if word { wide.low >> 32 } else { wide.high }
}

/// The half that is the result; of words the low half is the product whole.
fn half_of(high: bool, word: bool, wide: Wide128) -> u64
    ensures { result ≡ half_of high word wide }
{
    if high { high_of(word, wide) } else { wide.low }
}

/// Whether a signed number doesn't fit 64 bits, or where words are asked 32.
fn is_too_wide(word: bool, number: i128) -> bool
    ensures { result ≡ is_too_wide word number }
{
    if word {
        !(-0x8000_0000 <= number && number <= 0x7fff_ffff)
    } else {
        !(-0x8000_0000_0000_0000 <= number && number <= 0x7fff_ffff_ffff_ffff)
    }
}

/// Two halves as one number.
fn number_of(wide: Wide128) -> u128
    ensures { result ≡ number_of wide }
{
    u128::from(wide.high) * 0x1_0000_0000_0000_0000 + u128::from(wide.low)
}

/// Whether a signed product doesn't fit 64 bits, and one of words 32.
fn overflows_product(word: bool, wide: Wide128) -> bool
    ensures { result ≡ overflows_product word wide }
{
    is_too_wide(word, number_of(wide).cast_signed())
}

/// What a product row gives, from what the multiplier answered, by the fields of its `LongOp` (Book I,
/// fixed-point arithmetic instructions): the half that it takes, and whether the signed product overflows. It
/// can't fail.
pub fn product_out(high: bool, word: bool, wide: Wide128) -> AluOut
    ensures { result ≡ product_out high word wide }
{
    given(half_of(high, word, wide), overflows_product(word, wide))
}

/// What a quotient row gives, from what the divider answered (Book I, fixed-point arithmetic instructions):
/// the quotient or the rest; without a quotient 0, and an overflow. It can't fail.
pub fn quotient_out(rest: bool, answer: DivOut) -> AluOut
    ensures { result ≡ quotient_out rest answer }
{
    match answer {
        DivOut::Done {
            quotient,
            rest: left,
        } => given(if rest { left } else { quotient }, false),
        DivOut::NoQuotient => given(0, true),
    }
}

/// The bits of XER as they stand after a long operation.
fn bits_behind(oe: bool, out: AluOut, bits: XerBits) -> XerBits
    ensures { result ≡ bits_behind oe out bits }
{
    with_summary(oe, out, with_overflows(oe, out, bits))
}

/// What is written at the end, in order: the result, with OE XER, and with Rc CR field 0.
fn finished_by(to: u8, oe: bool, rc: bool, out: AluOut, xer: u64) -> ArrayVec<Target, 8>
    ensures { result.items ≡ finished_by to oe rc out xer }
{
    let after = bits_behind(oe, out, xer_bits(xer));
    let mut targets = ArrayVec::new();
    targets.push(Target {
        slot: Slot::Gpr(to),
        value: Some(out.value),
    });
    push_xer(&mut targets, oe, after);
    push_field(&mut targets, rc, out.value, after.so);
    targets
}

/// The registers that a long operation writes, in order, with their values, from what it gives and XER as it
/// is before (Book I, fixed-point arithmetic instructions): its result; with OE XER, whose OV and OV32 tell
/// whether it overflows, and whose SO stays once it is set; with Rc CR field 0. Its unit isn't looked at. It
/// can't fail.
pub fn finished(op: &LongOp, out: AluOut, xer: u64) -> ArrayVec<Target, 8>
    ensures { result.items ≡ finished op.now out xer }
{
    match op {
        LongOp::Mul { to, oe, rc, .. } => finished_by(*to, *oe, *rc, out, xer),
        LongOp::Div { to, oe, rc, .. } => finished_by(*to, *oe, *rc, out, xer),
    }
}
