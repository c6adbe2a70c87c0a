ghost use Rattle.std.specs.Prelude.{◌≡◌, true};
ghost use Rattle.mw_isa.specs.Execute.{access_of, effective_of, storage_of};
ghost use Rattle.mw_isa.specs.Places.{HasRegisters, places_of};
ghost use Rattle.mw_isa.specs.Step.{OnTrap};
ghost use Rattle.mw_isa.specs.Storage.{IsSized, OnMemory, is_sized_by};
ghost use Rattle.mw_isa.specs.Take.{IsUnmarked};

use crate::inputs::{a_of, b_of};
use crate::privilege::{is_refused, refusal};
use mw_decode::Insn;
use mw_isa::{
    MemOp, Operands, Operation, Outcome, Places, StorageRow, places_of, updated_of, written_of,
};

/// The effective address.
fn effective_of(places: Places, insn: &Insn, operands: &Operands, cia: u64) -> u64
    ensures { result ≡ effective_of places insn.now operands.now cia }
{
    a_of(places, insn, operands, cia).wrapping_add(b_of(places, insn, operands))
}

/// The access of a row.
fn access_of(row: StorageRow, insn: &Insn, operands: &Operands, cia: u64) -> MemOp
    requires { HasRegisters insn.now (places_of (Operation.Storage row)) }
    ensures { result ≡ access_of row insn.now operands.now cia }
{
    let places = places_of(Operation::Storage(row));
    MemOp {
        what: row.what,
        ea: effective_of(places, insn, operands, cia),
        len: row.len,
        value: operands.c,
        to: written_of(insn, places),
        update: updated_of(insn, row, places),
    }
}

/// The rows that access storage (Book I, fixed-point storage access; Book II, atomic update and cache
/// management): an access, or an interrupt where they are privileged.
pub fn storage_of(
    row: StorageRow,
    insn: &Insn,
    operands: &Operands,
    cia: u64,
    outcome: &mut Outcome,
)
    requires registers { HasRegisters insn.now (places_of (Operation.Storage row)) }
    requires sized { is_sized_by row.what row.len ≡ true }
    ensures value { outcome.new ≡ storage_of row insn.now operands.now cia }
    ensures sized { OnMemory IsSized outcome.new }
    ensures cause { OnTrap IsUnmarked outcome.new }
{
    if is_refused(row.privilege, insn, operands.msr) {
        *outcome = refusal();
    } else {
        *outcome = Outcome::Memory(access_of(row, insn, operands, cia));
    }
}
