ghost use Rattle.std.specs.Prelude.{◌≡◌, ◌<◌};
ghost use Rattle.mw_tables.specs.Rows.{row_count};
ghost use Rattle.mw_isa.specs.Execute.{gives, system_effect, system_of};
ghost use Rattle.mw_isa.specs.Places.{AreLimited, HasRegisters, places_in, places_of, system_roles};
ghost use Rattle.mw_isa.specs.Step.{OnTrap};
ghost use Rattle.mw_isa.specs.Take.{IsUnmarked};

use crate::ending::push_result;
use crate::outcome::{behind_insn, branch_to};
use crate::privilege::{is_refused, refusal};
use crate::scopes::scope_of;
use mw_decode::Insn;
use mw_isa::{
    Operands, Operation, Outcome, Places, SysOp, SystemRow, SystemWhat, field, operand_of,
    places_of, spr, written_of,
};

/// A register gets a number at once.
fn gives(places: Places, insn: &Insn, value: u64, cia: u64, outcome: &mut Outcome)
    requires row { insn.now.row < row_count }
    requires registers { HasRegisters insn.now places }
    ensures { outcome.new ≡ gives places insn.now value cia }
{
    branch_to(behind_insn(insn, cia), outcome);
    if let Outcome::Done { targets, .. } = outcome {
        push_result(targets, places.written, insn, value);
    }
}

/// What a row of the system asks for, where its operands stand at these places.
fn system_effect(
    what: SystemWhat,
    places: Places,
    insn: &Insn,
    operands: &Operands,
    cia: u64,
    outcome: &mut Outcome,
)
    requires row { insn.now.row < row_count }
    requires places { places ≡ places_in (system_roles what) }
    requires registers { HasRegisters insn.now places }
    requires limits { AreLimited insn.now 0 (system_roles what) }
    ensures { outcome.new ≡ system_effect what places insn.now operands.now cia }
{
    match what {
        SystemWhat::Return { hypervisor } => {
            *outcome = Outcome::System(SysOp::Return { hypervisor });
        }
        SystemWhat::Isync => *outcome = Outcome::System(SysOp::Isync),
        SystemWhat::Sync => *outcome = Outcome::System(SysOp::Sync { l: field(insn, 0) }),
        SystemWhat::Order => branch_to(behind_insn(insn, cia), outcome),
        SystemWhat::ReadMsr => gives(places, insn, operands.msr, cia, outcome),
        SystemWhat::WriteMsr => {
            *outcome = Outcome::System(SysOp::WriteMsr {
                value: operands.a,
                l: operand_of(insn, 1) == 1,
            });
        }
        SystemWhat::Tlbie => {
            *outcome = Outcome::System(SysOp::Tlbie {
                scope: scope_of(operand_of(insn, 2), operands.b, operands.a),
            });
        }
        SystemWhat::ReadSpr => {
            *outcome = Outcome::System(SysOp::ReadSpr {
                to: written_of(insn, places),
                spr: spr(insn, 1),
            });
        }
        SystemWhat::WriteSpr => {
            *outcome = Outcome::System(SysOp::WriteSpr {
                spr: spr(insn, 0),
                value: operands.a,
            });
        }
        SystemWhat::Random => gives(places, insn, u64::MAX, cia, outcome),
    }
}

/// What the rows of the system come to (Book II, synchronization; Book III, interrupts, registers by number,
/// translation): what they ask for, or an interrupt where they are privileged.
pub fn system_of(row: SystemRow, insn: &Insn, operands: &Operands, cia: u64, outcome: &mut Outcome)
    requires row { insn.now.row < row_count }
    requires registers { HasRegisters insn.now (places_of (Operation.System row)) }
    requires limits { AreLimited insn.now 0 (system_roles row.what) }
    ensures { outcome.new ≡ system_of row insn.now operands.now cia }
{
    if is_refused(row.privilege, insn, operands.msr) {
        *outcome = refusal();
    } else {
        let places = places_of(Operation::System(row));
        system_effect(row.what, places, insn, operands, cia, outcome);
    }
}
