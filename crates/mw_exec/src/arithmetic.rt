ghost use Rattle.std.specs.Prelude.{◌≡◌, ◌<◌};
ghost use Rattle.mw_isa.specs.Execute.{arithmetic_of, carry_of, out_of};
ghost use Rattle.mw_isa.specs.Places.{AreLimited, HasRegisters, input_roles, places_of};
ghost use Rattle.mw_tables.specs.Rows.{row_count};

use crate::ending::ended;
use crate::numbers::{a_by, b_by, c_by};
use crate::outcome::{behind_insn, branch_to};
use mw_alu::{AluOut, alu};
use mw_decode::Insn;
use mw_isa::{AluRow, Carry, Operands, Operation, Outcome, Places, places_of, xer_bits};

/// The carry that the unit takes.
fn carry_of(carry: Carry, operands: &Operands) -> bool
    ensures { result ≡ carry_of carry operands.now }
{
    match carry {
        Carry::NoCarry => false,
        Carry::Ca => xer_bits(operands.xer).ca,
        Carry::Ov => xer_bits(operands.xer).ov,
    }
}

/// What the unit gives for an arithmetic row.
fn out_of(row: AluRow, places: Places, insn: &Insn, operands: &Operands, cia: u64) -> AluOut
    requires places { places ≡ places_of (Operation.Alu row) }
    requires limits { AreLimited insn.now 0 (input_roles row.inputs) }
    ensures { result ≡ out_of row insn.now operands.now cia }
{
    alu(
        row.op,
        a_by(row.inputs, places, insn, operands, cia),
        b_by(row.inputs, places, insn, operands),
        c_by(row.inputs, places, insn, operands),
        carry_of(row.carry, operands),
    )
}

/// What a row comes to whose result is there in one cycle (Book I, fixed-point arithmetic, logical, rotate
/// and shift instructions).
pub fn arithmetic_of(row: AluRow, insn: &Insn, operands: &Operands, cia: u64, outcome: &mut Outcome)
    requires row { insn.now.row < row_count }
    requires registers { HasRegisters insn.now (places_of (Operation.Alu row)) }
    requires limits { AreLimited insn.now 0 (input_roles row.inputs) }
    ensures { outcome.new ≡ arithmetic_of row insn.now operands.now cia }
{
    let places = places_of(Operation::Alu(row));
    let out = out_of(row, places, insn, operands, cia);
    branch_to(behind_insn(insn, cia), outcome);
    if let Outcome::Done { targets, .. } = outcome {
        ended(row.ending, places, insn, out, operands.xer, targets);
    }
}
