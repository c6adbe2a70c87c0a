ghost use Rattle.std.specs.Prelude.{◌≡◌, ◌<◌};
ghost use Rattle.mw_tables.specs.Rows.{row_count};
ghost use Rattle.mw_isa.specs.Execute.{number_if, pick_of, picked_of, sign_of};
ghost use Rattle.mw_isa.specs.Places.{AreLimited, HasRegisters, pick_roles, places_of};

use crate::bits::{cr_bit, cr_field};
use crate::ending::push_result;
use crate::inputs::a_of;
use crate::outcome::{behind_insn, branch_to};
use mw_decode::Insn;
use mw_isa::{Operands, Operation, Outcome, PickRow, code, field, places_of};

/// A number where a bit is 1, or where it is 0, and else 0.
fn number_if(negative: bool, reversed: bool, bit: bool) -> u64
    ensures { result ≡ number_if negative reversed bit }
{
    let set = if reversed { !bit } else { bit };
    if !set {
        0
    } else if negative {
        u64::MAX
    } else {
        1
    }
}

/// The sign that a field of the condition register tells: LT, GT or neither.
fn sign_of(digit: u64) -> u64
    ensures { result ≡ sign_of digit }
{
    if 8 <= digit {
        u64::MAX
    } else if 4 <= digit {
        1
    } else {
        0
    }
}

/// What a row gives the register that it sets.
fn picked_of(row: PickRow, insn: &Insn, operands: &Operands, cia: u64) -> u64
    requires { AreLimited insn.now 0 (pick_roles row) }
    ensures { result ≡ picked_of row insn.now operands.now cia }
{
    let a = a_of(places_of(Operation::Pick(row)), insn, operands, cia);
    match row {
        PickRow::Select => {
            if cr_bit(operands.cr, code(insn, 3)) {
                a
            } else {
                operands.b
            }
        }
        PickRow::All => u64::from(operands.cr),
        PickRow::Chosen => u64::from(operands.cr),
        PickRow::Sign => sign_of(cr_field(u64::from(operands.cr), field(insn, 1))),
        PickRow::Bit { negative, reversed } => {
            number_if(negative, reversed, cr_bit(operands.cr, code(insn, 1)))
        }
    }
}

/// What the rows that set a register by the condition register come to (Book I, fixed-point select, move
/// from condition register and set instructions).
pub fn pick_of(row: PickRow, insn: &Insn, operands: &Operands, cia: u64, outcome: &mut Outcome)
    requires row { insn.now.row < row_count }
    requires registers { HasRegisters insn.now (places_of (Operation.Pick row)) }
    requires limits { AreLimited insn.now 0 (pick_roles row) }
    ensures { outcome.new ≡ pick_of row insn.now operands.now cia }
{
    let places = places_of(Operation::Pick(row));
    let value = picked_of(row, insn, operands, cia);
    branch_to(behind_insn(insn, cia), outcome);
    if let Outcome::Done { targets, .. } = outcome {
        push_result(targets, places.written, insn, value);
    }
}
