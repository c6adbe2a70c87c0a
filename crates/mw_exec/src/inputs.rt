ghost use Rattle.std.specs.Prelude.{◌≡◌};
ghost use Rattle.mw_isa.specs.Execute.{a_of, b_of, is_operand};

use mw_decode::Insn;
use mw_isa::{Operands, Places, operand_of};

/// Whether the operand at a place, if there is one, is this number.
fn is_operand(insn: &Insn, place: Option<u8>, number: u64) -> bool
    ensures { result ≡ is_operand insn.now place number }
{
    match place {
        None => false,
        Some(at) => operand_of(insn, at) == number,
    }
}

/// The number that a unit takes as a: the content that was read; 0 where RA|0 is register 0; the
/// instruction's own address where R is 1.
pub fn a_of(places: Places, insn: &Insn, operands: &Operands, cia: u64) -> u64
    ensures { result ≡ a_of places insn.now operands.now cia }
{
    if is_operand(insn, places.own, 1) {
        cia
    } else if is_operand(insn, places.base, 0) {
        0
    } else {
        operands.a
    }
}

/// The number that a unit takes as b: the one among the operands, or the content that was read.
pub fn b_of(places: Places, insn: &Insn, operands: &Operands) -> u64
    ensures { result ≡ b_of places insn.now operands.now }
{
    match places.number {
        None => operands.b,
        Some(at) => operand_of(insn, at),
    }
}
