ghost use Rattle.std.specs.Prelude.{◌≡◌, ◌^◌, ◌<◌, ◌≤◌};
ghost use Rattle.mw_isa.specs.Slots.{field_unit, get_slot, set_slot, set_target, set_targets, with_digit};

use crate::outcome::Target;
use crate::regs::Regs;
use crate::slot::Slot;

/// The unit that a field of the condition register counts in: 2^28 for field 0, 1 for field 7.
fn field_unit(number: u8) -> u64
    ensures { result ≡ field_unit number }
{
    1 << 28u32.saturating_sub(4 * u32::from(number))
}

/// The condition register with another content of one field.
fn with_field(cr: u32, number: u8, digit: u64) -> u32
    requires { digit < 16 }
    ensures { result ≡ with_digit cr (field_unit number) digit }
{
    let unit = field_unit(number);
    let cr = u64::from(cr);
    ((cr / (unit * 16) * 16 + digit) * unit + cr % unit) as u32
}

/// The content of a register, or of a field of the condition register, which has four bits (Book I, branch
/// and fixed-point facility registers). Of a general purpose register that there isn't it is 0.
pub fn get_slot(regs: &Regs, slot: Slot) -> u64
    ensures { result ≡ get_slot regs.now slot }
{
    match slot {
        Slot::Gpr(number) => {
            if number < 32 {
                regs.gpr[usize::from(number)]
            } else {
                0
            }
        }
        Slot::CrField(number) => u64::from(regs.cr) / field_unit(number) % 16,
        Slot::Xer => regs.xer,
        Slot::Lr => regs.lr,
        Slot::Ctr => regs.ctr,
        Slot::Tar => regs.tar,
    }
}

/// Sets a register, or a field of the condition register, which takes the low four bits. A general purpose
/// register that there isn't is left.
pub fn set_slot(regs: &mut Regs, slot: Slot, value: u64)
    ensures { regs.new ≡ set_slot regs.old slot value }
{
    match slot {
        Slot::Gpr(number) => {
            if number < 32 {
                regs.gpr[usize::from(number)] = value;
            }
        }
        Slot::CrField(number) => regs.cr = with_field(regs.cr, number, value % 16),
        Slot::Xer => regs.xer = value,
        Slot::Lr => regs.lr = value,
        Slot::Ctr => regs.ctr = value,
        Slot::Tar => regs.tar = value,
    }
}

/// Sets a register to the value of a target, if that is known.
fn set_target(target: &Target, regs: &mut Regs)
    ensures { regs.new ≡ set_target target.now regs.old }
{
    if let Some(value) = target.value {
        set_slot(regs, target.slot, value);
    }
}

/// Sets the registers of targets to their values, in order; one whose value isn't known is left.
pub fn set_targets(targets: &[Target], regs: &mut Regs)
    ensures { regs.new ≡ set_targets targets.now regs.old }
{
    for target in targets {
        set_target(target, regs);
    }
}
