ghost use Rattle.std.specs.Prelude.{◌≡◌, ◌<◌, ◌^◌, Some, if◌then◌else◌, false, true};
ghost use Rattle.mw_isa.specs.Storage.{IsSized, access_targets, block_of, finding, is_exclusive, is_reserved, raises_alignment, regs_behind, reserve_behind, success_field, update_targets};
ghost use Rattle.mw_isa.specs.Slots.{set_slot, set_targets};
ghost use Rattle.mw_isa.specs.declared.slot.Slot.TheVariants.{CrField};

use crate::address::block_of;
use mw_isa::{MemOp, MemWhat, Regs, Slot, Stretches, set_slot, xer_bits};

/// Whether a reservation stands for the block of an access (Book II, reservations). It can't fail.
pub fn is_reserved(at: &Stretches, reserve: Option<u32>) -> bool
    ensures { result ≡ is_reserved at.now reserve }
{
    match reserve {
        None => false,
        Some(block) => u64::from(block) == block_of(at),
    }
}

/// Puts the effective address into RA, where the access updates it.
fn update(op: &MemOp, regs: &mut Regs)
    ensures { regs.new ≡ set_targets (update_targets op.now op.now.update) regs.old }
{
    if let Some(number) = op.update {
        set_slot(regs, Slot::Gpr(number), op.ea);
    }
}

/// CR field 0 of a store-conditional.
fn success_field(success: bool, xer: u64) -> u64
    ensures { result ≡ success_field success xer }
{
    let stored = if success { 2 } else { 0 };
    stored + u64::from(xer_bits(xer).so)
}

/// Writes the registers that an access writes.
fn write_registers(op: &MemOp, number: u64, reserved: bool, regs: &mut Regs)
    ensures { regs.new ≡ set_targets (access_targets op.now.what op.now number reserved regs.old.xer) regs.old }
{
    match op.what {
        MemWhat::Load { .. } => {
            set_slot(regs, Slot::Gpr(op.to), number);
            update(op, regs);
        }
        MemWhat::Store { .. } => update(op, regs),
        MemWhat::Conditional { .. } => {
            let field = success_field(reserved, regs.xer);
            set_slot(regs, Slot::CrField(0), field);
        }
        MemWhat::Zero => {}
        MemWhat::Clean => {}
        MemWhat::Icbi => {}
    }
}

/// The reservation behind an access.
fn reserve_behind(what: MemWhat, at: &Stretches, before: Option<u32>) -> Option<u32>
    requires { is_exclusive what ≡ true → block_of at.now < 2 ^ 32 }
    ensures { result ≡ reserve_behind what at.now before }
{
    match what {
        MemWhat::Load { reserve, .. } => {
            if reserve {
                Some(block_of(at) as u32)
            } else {
                before
            }
        }
        MemWhat::Conditional { .. } => None,
        MemWhat::Store { .. } => before,
        MemWhat::Zero => before,
        MemWhat::Clean => before,
        MemWhat::Icbi => before,
    }
}

/// What an access to these stretches makes of the registers: RT of a load, given the number that it loads,
/// RA with update, CR field 0 of a store-conditional, given whether its block is reserved, and the
/// reservation (Book I, fixed-point storage access; Book II, atomic update). The access raises no alignment
/// interrupt. It can't fail.
pub fn regs_behind(op: &MemOp, at: &Stretches, number: u64, reserved: bool, regs: &mut Regs)
    requires sized { IsSized op.now }
    requires calm { raises_alignment op.now at.now ≡ false }
    ensures { regs.new ≡ regs_behind op.now.what op.now at.now (finding number reserved) regs.old }
{
    let before = regs.reserve;
    write_registers(op, number, reserved, regs);
    regs.reserve = reserve_behind(op.what, at, before);
}
