ghost use Rattle.std.specs.Prelude.{◌≡◌, ◌%◌, ◌^◌, ◌<◌};
ghost use Rattle.mw_isa.specs.Execute.{a_by, b_by, c_by, left_mask, middle_mask, number_at, right_mask, word_mask};
ghost use Rattle.mw_isa.specs.Places.{AreLimited, input_roles, places_in};

use crate::inputs::{a_of, b_of};
use mw_alu::rotl32_of;
use mw_bits::{mask, rotl};
use mw_decode::Insn;
use mw_isa::{Inputs, Operands, Places, operand_of};

/// The operand at a place as a number; 0 where there is none.
fn number_at(insn: &Insn, place: Option<u8>) -> u64
    ensures { result ≡ number_at insn.now place }
{
    match place {
        None => 0,
        Some(at) => operand_of(insn, at),
    }
}

/// The mask from MB to ME of the low word (Book I, fixed-point rotate instructions).
fn word_mask(places: Places, insn: &Insn) -> u64
    requires start { number_at insn.now places.start < 32 }
    requires end { number_at insn.now places.end < 32 }
    ensures { result ≡ word_mask places insn.now }
{
    mask(
        number_at(insn, places.start) as u32 + 32,
        number_at(insn, places.end) as u32 + 32,
    )
}

/// The mask from MB to the end.
fn left_mask(places: Places, insn: &Insn) -> u64
    requires { number_at insn.now places.start < 64 }
    ensures { result ≡ left_mask places insn.now }
{
    mask(number_at(insn, places.start) as u32, 63)
}

/// The mask from the start to ME.
fn right_mask(places: Places, insn: &Insn) -> u64
    requires { number_at insn.now places.end < 64 }
    ensures { result ≡ right_mask places insn.now }
{
    mask(0, number_at(insn, places.end) as u32)
}

/// The mask from MB to 63 - SH, in front of the places that a rotation fills from behind the start.
fn middle_mask(places: Places, insn: &Insn) -> u64
    requires start { number_at insn.now places.start < 64 }
    requires count { number_at insn.now places.number < 64 }
    ensures { result ≡ middle_mask places insn.now }
{
    mask(
        number_at(insn, places.start) as u32,
        63 - number_at(insn, places.number) as u32,
    )
}

/// The number that the unit takes as a: of addpcis the address behind it, of rlwimi and rldimi the content
/// of RS, rotated; else as for every row.
pub fn a_by(inputs: Inputs, places: Places, insn: &Insn, operands: &Operands, cia: u64) -> u64
    requires places { places ≡ places_in (input_roles inputs) }
    requires limits { AreLimited insn.now 0 (input_roles inputs) }
    ensures { result ≡ a_by inputs places insn.now operands.now cia }
{
    match inputs {
        Inputs::Next => cia.wrapping_add(4),
        Inputs::WordInsert => rotl32_of(operands.a, number_at(insn, places.number)),
        Inputs::Insert => rotl(operands.a, number_at(insn, places.number) as u32),
        _ => a_of(places, insn, operands, cia),
    }
}

/// The number that the unit takes as b: of rlwimi and rldimi the mask; else as for every row.
pub fn b_by(inputs: Inputs, places: Places, insn: &Insn, operands: &Operands) -> u64
    requires places { places ≡ places_in (input_roles inputs) }
    requires limits { AreLimited insn.now 0 (input_roles inputs) }
    ensures { result ≡ b_by inputs places insn.now operands.now }
{
    match inputs {
        Inputs::WordInsert => word_mask(places, insn),
        Inputs::Insert => middle_mask(places, insn),
        _ => b_of(places, insn, operands),
    }
}

/// The number that the unit takes as c: the mask, the number of places, or the content that was read.
pub fn c_by(inputs: Inputs, places: Places, insn: &Insn, operands: &Operands) -> u64
    requires places { places ≡ places_in (input_roles inputs) }
    requires limits { AreLimited insn.now 0 (input_roles inputs) }
    ensures { result ≡ c_by inputs places insn.now operands.now }
{
    match inputs {
        Inputs::WordShift => number_at(insn, places.amount),
        Inputs::Shift => number_at(insn, places.amount),
        Inputs::WordMask => word_mask(places, insn),
        Inputs::WordMaskBy => word_mask(places, insn),
        Inputs::Left => left_mask(places, insn),
        Inputs::Right => right_mask(places, insn),
        Inputs::Middle => middle_mask(places, insn),
        Inputs::LeftBy => left_mask(places, insn),
        Inputs::RightBy => right_mask(places, insn),
        _ => operands.c,
    }
}
