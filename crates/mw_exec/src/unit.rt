ghost use Rattle.std.specs.Prelude.{◌≡◌, Some};
ghost use Rattle.mw_decode.specs.Decode.{IsInsn};
ghost use Rattle.mw_isa.specs.Storage.{IsSized, OnMemory};
ghost use Rattle.mw_isa.specs.Execute.{exec_of};
ghost use Rattle.mw_isa.specs.Long.{IsStarted};
ghost use Rattle.mw_isa.specs.Step.{OnLong, OnTrap};
ghost use Rattle.mw_isa.specs.Take.{IsUnmarked};

use crate::arithmetic::arithmetic_of;
use crate::branching::branch_of;
use crate::fields::{field_of, fields_of};
use crate::long::{product_by, quotient_by};
use crate::outcome::{behind_insn, branch_to};
use crate::picking::pick_of;
use crate::storage::storage_of;
use crate::system::system_of;
use crate::trapping::{call, trap_of};
use arrayvec::ArrayVec;
use mw_decode::Insn;
use mw_isa::{Operands, Operation, Outcome, operation_at};

/// What an instruction at the effective address `cia` comes to, from the registers that it reads: what
/// it writes and the address of the next one, or the interrupt that it raises (Book I), written over
/// `outcome`, whatever that was. It can't fail.
#[tactic(auto, unfolding(mw_isa::specs::Execute::exec_of))]
pub fn exec_into(insn: &Insn, operands: &Operands, cia: u64, outcome: &mut Outcome)
    requires { IsInsn insn.now }
    ensures outcome { exec_of insn.now operands.now cia ≡ Some outcome.new }
    ensures sized { OnMemory IsSized outcome.new }
    ensures started { OnLong IsStarted outcome.new }
    ensures cause { OnTrap IsUnmarked outcome.new }
{
    match operation_at(insn.row) {
        Operation::Alu(row) => arithmetic_of(row, insn, operands, cia, outcome),
        Operation::Product(row) => *outcome = Outcome::Long(product_by(row, insn, operands)),
        Operation::Quotient(row) => *outcome = Outcome::Long(quotient_by(row, insn, operands)),
        Operation::Branch(row) => branch_of(row, insn, operands, cia, outcome),
        Operation::Field(row) => field_of(row, insn, operands, cia, outcome),
        Operation::Fields => fields_of(insn, operands, cia, outcome),
        Operation::Pick(row) => pick_of(row, insn, operands, cia, outcome),
        Operation::Trap(row) => trap_of(row, insn, operands, cia, outcome),
        Operation::Storage(row) => storage_of(row, insn, operands, cia, outcome),
        Operation::Hint => branch_to(behind_insn(insn, cia), outcome),
        Operation::Call => call(outcome),
        Operation::System(row) => system_of(row, insn, operands, cia, outcome),
    }
}

/// What `exec_into` writes, as a value of its own.
pub fn exec(insn: &Insn, operands: &Operands, cia: u64) -> Outcome
    requires { IsInsn insn.now }
    ensures outcome { exec_of insn.now operands.now cia ≡ Some result }
    ensures sized { OnMemory IsSized result }
    ensures started { OnLong IsStarted result }
    ensures cause { OnTrap IsUnmarked result }
{
    let mut outcome = Outcome::Done {
        targets: ArrayVec::new(),
        next: 0,
    };
    exec_into(insn, operands, cia, &mut outcome);
    outcome
}
