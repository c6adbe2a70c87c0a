ghost use Rattle.std.specs.Prelude.{◌≡◌, ◌<◌, []};
ghost use Rattle.mw_tables.specs.Rows.{row_count};
ghost use Rattle.mw_isa.specs.Execute.{digit_of, field_of, field_targets, fields_of, is_long, logic_field};
ghost use Rattle.mw_isa.specs.Places.{AreLimited, field_roles, fields_roles, operand_of};

use crate::bits::{
    compare_field, cr_bit, cr_field, flags_field, has_byte, is_in_range, logic_of, match_field,
    with_bit,
};
use crate::inputs::b_of;
use crate::outcome::{behind_insn, branch_to};
use arrayvec::ArrayVec;
use mw_decode::Insn;
use mw_isa::{
    BitLogic, FieldRow, Operands, Operation, Outcome, Slot, Target, code, field, field_written,
    is_chosen, mask, operand_of, places_of, xer_bits,
};

/// Whether whole registers are compared: L.
fn is_long(insn: &Insn) -> bool
    ensures { result ≡ is_long insn.now }
{
    operand_of(insn, 1) == 1
}

/// The bit BT of its field, made of the bits BA and BB.
fn logic_field(logic: BitLogic, cr: u32, bt: u8, ba: u8, bb: u8) -> u64
    requires target { bt < 32 }
    requires first { ba < 32 }
    requires second { bb < 32 }
    ensures { result ≡ logic_field logic cr bt ba bb }
{
    let bit = logic_of(logic, cr_bit(cr, ba), cr_bit(cr, bb));
    with_bit(cr_field(u64::from(cr), bt / 4), bt % 4, bit)
}

/// What a row gives the field of the condition register that it sets.
fn digit_of(row: FieldRow, insn: &Insn, operands: &Operands) -> u64
    requires { AreLimited insn.now 0 (field_roles row) }
    ensures { result ≡ digit_of row insn.now operands.now }
{
    let b = b_of(places_of(Operation::Field(row)), insn, operands);
    let bits = xer_bits(operands.xer);
    match row {
        FieldRow::CompareNumber { signed } => {
            compare_field(signed, is_long(insn), operands.a, b, bits.so)
        }
        FieldRow::Compare { signed } => {
            compare_field(signed, is_long(insn), operands.a, operands.b, bits.so)
        }
        FieldRow::InRange => match_field(is_in_range(is_long(insn), operands.a, operands.b)),
        FieldRow::EqualsByte => match_field(has_byte(operands.a, operands.b)),
        FieldRow::FromXer => flags_field(bits),
        FieldRow::FromField => cr_field(u64::from(operands.cr), field(insn, 1)),
        FieldRow::Logic(logic) => logic_field(
            logic,
            operands.cr,
            code(insn, 0),
            code(insn, 1),
            code(insn, 2),
        ),
    }
}

/// What the rows that set a field of the condition register come to (Book I, fixed-point compare, move and
/// condition register instructions).
pub fn field_of(row: FieldRow, insn: &Insn, operands: &Operands, cia: u64, outcome: &mut Outcome)
    requires row { insn.now.row < row_count }
    requires limits { AreLimited insn.now 0 (field_roles row) }
    ensures { outcome.new ≡ field_of row insn.now operands.now cia }
{
    branch_to(behind_insn(insn, cia), outcome);
    if let Outcome::Done { targets, .. } = outcome {
        targets.push(Target {
            slot: Slot::CrField(field_written(row, insn)),
            value: Some(digit_of(row, insn, operands)),
        });
    }
}

/// The fields of the condition register that a mask chooses, lowest number first, from a low word. They are
/// put into `targets`, which has to be empty.
fn field_targets(mask: u8, value: u64, targets: &mut ArrayVec<Target, 8>)
    requires { targets.old.items ≡ [] }
    ensures { targets.new.items ≡ field_targets mask value 8 }
{
    for number in 0..8u8 {
        if is_chosen(mask, number) {
            targets.push(Target {
                slot: Slot::CrField(number),
                value: Some(cr_field(value, number)),
            });
        }
    }
}

/// What the rows that set the fields of a mask come to (Book I, move to condition register instructions).
pub fn fields_of(insn: &Insn, operands: &Operands, cia: u64, outcome: &mut Outcome)
    requires row { insn.now.row < row_count }
    requires limits { AreLimited insn.now 0 fields_roles }
    ensures { outcome.new ≡ fields_of insn.now operands.now cia }
{
    branch_to(behind_insn(insn, cia), outcome);
    if let Outcome::Done { targets, .. } = outcome {
        field_targets(mask(insn, 0), operands.a, targets);
    }
}
