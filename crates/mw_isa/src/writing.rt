ghost use Rattle.std.specs.Prelude.{◌≡◌, ◌<◌, IfSome};
ghost use Rattle.mw_decode.specs.Decode.{IsInsn};
ghost use Rattle.mw_isa.specs.Execute.{field_written, updated_of, written_of};
ghost use Rattle.mw_isa.specs.Places.{AreLimited, HasLimits, HasRegisters, branch_roles, field_roles, fields_roles, operand_of, places_of};
ghost use Rattle.mw_isa.specs.Slots.{IsSlot, bits_of};
ghost use Rattle.mw_isa.specs.Special.{fields_in, slots_in};
ghost use Rattle.mw_isa.specs.Targets.{access_slots, branch_slots, end_slots, ending_slots, targets_by, targets_of, update_slots};

use crate::condition::falls;
use crate::ending::{slot_if, writes_field, writes_xer};
use crate::memory::MemWhat;
use crate::operation::{BranchRow, Ending, FieldRow, Operation, StorageRow, operation_at};
use crate::place::Places;
use crate::placing::{code, field, mask, places_of, register};
use crate::reading::{register_at, with_fields};
use crate::slot::Slot;
use crate::slot_set::SlotSet;
use crate::special::bo_of;
use mw_decode::Insn;

/// The register that is written, or 0 where none is.
pub fn written_of(insn: &Insn, places: Places) -> u8
    requires { HasRegisters insn.now places }
    ensures value { result ≡ written_of places insn.now }
    ensures bound { result < 32 }
{
    match places.written {
        None => 0,
        Some(at) => register(insn, at),
    }
}

/// The register that gets the effective address, where the row updates it.
pub fn updated_of(insn: &Insn, row: StorageRow, places: Places) -> Option<u8>
    requires { HasRegisters insn.now places }
    ensures value { result ≡ updated_of row places insn.now }
    ensures bound { IfSome result (λ n. n < 32) }
{
    match places.base {
        None => None,
        Some(at) => {
            if row.update {
                Some(register(insn, at))
            } else {
                None
            }
        }
    }
}

/// The set of one register, if there is one.
fn only(slot: Option<Slot>) -> SlotSet
    requires { IfSome slot IsSlot }
    ensures { result.bits ≡ bits_of (slots_in slot) }
{
    SlotSet::NONE.with(slot)
}

/// The register that is updated.
fn update_set(update: Option<u8>) -> SlotSet
    requires { IfSome update (λ n. n < 32) }
    ensures { result.bits ≡ bits_of (update_slots update) }
{
    match update {
        None => SlotSet::NONE,
        Some(number) => only(Some(Slot::Gpr(number))),
    }
}

/// The registers that an access writes.
fn access_set(what: MemWhat, to: u8, update: Option<u8>) -> SlotSet
    requires to { to < 32 }
    requires update { IfSome update (λ n. n < 32) }
    ensures { result.bits ≡ bits_of (access_slots what to update) }
{
    match what {
        MemWhat::Load { .. } => update_set(update).with(Some(Slot::Gpr(to))),
        MemWhat::Store { .. } => update_set(update),
        MemWhat::Conditional { .. } => only(Some(Slot::CrField(0))),
        MemWhat::Zero => SlotSet::NONE,
        MemWhat::Clean => SlotSet::NONE,
        MemWhat::Icbi => SlotSet::NONE,
    }
}

/// The registers that are written at the end of an arithmetic row.
fn ending_set(ending: Ending, insn: &Insn, places: Places) -> SlotSet
    requires { HasRegisters insn.now places }
    ensures { result.bits ≡ bits_of (ending_slots ending places insn.now) }
{
    SlotSet::NONE
        .with(slot_if(writes_field(ending, insn), Slot::CrField(0)))
        .with(slot_if(writes_xer(ending, insn), Slot::Xer))
        .with(register_at(insn, places.written))
}

/// The registers that are written at the end of a product or a quotient.
fn end_set(insn: &Insn, places: Places) -> SlotSet
    requires { HasRegisters insn.now places }
    ensures { result.bits ≡ bits_of (end_slots (written_of places insn.now) insn.now.oe insn.now.rc) }
{
    SlotSet::NONE
        .with(slot_if(insn.rc, Slot::CrField(0)))
        .with(slot_if(insn.oe, Slot::Xer))
        .with(Some(Slot::Gpr(written_of(insn, places))))
}

/// The registers that a branch writes.
fn branch_set(row: BranchRow, insn: &Insn) -> SlotSet
    requires { AreLimited insn.now 0 (branch_roles row) }
    ensures { result.bits ≡ bits_of (branch_slots row insn.now) }
{
    SlotSet::NONE
        .with(slot_if(insn.lk, Slot::Lr))
        .with(slot_if(falls(bo_of(row, insn)), Slot::Ctr))
}

/// The field of the condition register that a row sets.
pub fn field_written(row: FieldRow, insn: &Insn) -> u8
    requires { AreLimited insn.now 0 (field_roles row) }
    ensures value { result ≡ field_written row insn.now }
    ensures bound { result < 8 }
{
    match row {
        FieldRow::CompareNumber { .. } => field(insn, 0),
        FieldRow::Compare { .. } => field(insn, 0),
        FieldRow::InRange => field(insn, 0),
        FieldRow::EqualsByte => field(insn, 0),
        FieldRow::FromXer => field(insn, 0),
        FieldRow::FromField => field(insn, 0),
        FieldRow::Logic(_) => code(insn, 0) / 4,
    }
}

/// The fields of the condition register that the mask of an instruction chooses.
fn fields_set(insn: &Insn) -> SlotSet
    requires { AreLimited insn.now 0 fields_roles }
    ensures { result.bits ≡ bits_of (fields_in (operand_of insn.now 0) 8) }
{
    with_fields(mask(insn, 0), SlotSet::NONE)
}

/// The registers that an operation writes.
fn operation_set(operation: Operation, insn: &Insn) -> SlotSet
    requires registers { HasRegisters insn.now (places_of operation) }
    requires limits { HasLimits insn.now operation }
    ensures { result.bits ≡ bits_of (targets_by operation insn.now) }
{
    let places = places_of(operation);
    match operation {
        Operation::Alu(row) => ending_set(row.ending, insn, places),
        Operation::Product(_) => end_set(insn, places),
        Operation::Quotient(_) => end_set(insn, places),
        Operation::Branch(row) => branch_set(row, insn),
        Operation::Field(row) => only(Some(Slot::CrField(field_written(row, insn)))),
        Operation::Fields => fields_set(insn),
        Operation::Pick(_) => only(register_at(insn, places.written)),
        Operation::Trap(_) => SlotSet::NONE,
        Operation::Storage(row) => access_set(
            row.what,
            written_of(insn, places),
            updated_of(insn, row, places),
        ),
        Operation::Hint => SlotSet::NONE,
        Operation::Call => SlotSet::NONE,
        Operation::System(_) => only(register_at(insn, places.written)),
    }
}

/// The registers that an instruction writes, as a set, known before their values. It can't fail.
#[tactic(auto, unfolding(crate::specs::Targets::targets_of))]
pub fn targets(insn: &Insn) -> SlotSet
    requires { IsInsn insn.now }
    ensures { result.bits ≡ bits_of (targets_of insn.now) }
{
    operation_set(operation_at(insn.row), insn)
}
