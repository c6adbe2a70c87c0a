ghost use Rattle.std.specs.Prelude.{◌≡◌, IfErr, IfOk, OnErr, Ok, Err, option_map};
ghost use Rattle.std.specs.Result.{result_err};
ghost use Rattle.mw_isa.specs.declared.numbered.Use.TheVariants.{Read, Write};
ghost use Rattle.mw_isa.specs.Sprs.{content_of, held, is_problem, read_of, refusal_of, register_for, write_of};

use crate::content::{content_of, set_content};
use crate::numbers::{refusal_of, register_for};
use mw_isa::{PR, Regs, SprRefusal, Use, has_bit};
use mw_soc::Devices;

/// The machine is in problem state.
fn is_problem(regs: &Regs) -> bool
    ensures { result ≡ is_problem regs.now }
{
    has_bit(regs.msr, PR)
}

/// What the register holds that a number stands for.
fn content_at(regs: &Regs, devices: &Devices, spr: u16) -> Option<u64>
    ensures { result ≡ option_map (λ register. content_of register regs.now devices.now.devices) (register_for Read spr) }
{
    match register_for(Use::Read, spr) {
        Some(register) => Some(content_of(register, regs, devices)),
        None => None,
    }
}

/// Reads a register by its number (Book III, special purpose registers): `None` where that is no
/// operation, as it is of 808 to 811 in every state. The time base is in cycles; the decrementer is extended
/// with its sign from 32 bits. The errors are `Privileged`, of a number with the bit 0x10 in problem state,
/// and `Illegal`, of another outside the list, in problem state or where it is 0, 4, 5 or 6. The devices stand
/// at the cycle of the read.
#[tactic(auto, unfolding(mw_isa::specs::Sprs::read_of))]
pub fn read(regs: &Regs, devices: &Devices, spr: u16) -> Result<Option<u64>, SprRefusal>
    ensures { result ≡ read_of spr regs.now devices.now.devices }
{
    match refusal_of(Use::Read, spr, is_problem(regs)) {
        Some(refusal) => Err(refusal),
        None => Ok(content_at(regs, devices, spr)),
    }
}

/// The refusal that `write` of a number gives (Book III, special purpose registers), which the number and PR
/// tell; `None` exactly where `write` gives `Ok`. It can't fail.
pub fn write_refusal(regs: &Regs, spr: u16) -> Option<SprRefusal>
    ensures { result ≡ refusal_of Write spr (is_problem regs.now) }
{
    refusal_of(Use::Write, spr, is_problem(regs))
}

/// Writes a register by its number (Book III, special purpose registers): XER keeps its five bits, and a
/// register of 32 bits takes the low word. A write that is no operation changes nothing, as one of 808 to 811
/// in every state. The errors are `Privileged`, of a number with the bit 0x10 in problem state, and `Illegal`,
/// of another outside the list, in problem state or where it is 0; nothing changes then. The devices stand at
/// the cycle of the write.
#[tactic(auto, unfolding(mw_isa::specs::Sprs::write_of))]
pub fn write(regs: &mut Regs, devices: &mut Devices, spr: u16, value: u64) -> Result<(), SprRefusal>
    ensures refusal { result_err result ≡ refusal_of Write spr (is_problem regs.old) }
    ensures written { IfOk result (λ done. write_of spr value regs.old devices.old.devices ≡ Ok (held regs.new devices.new.devices)) }
    ensures refused { IfErr result (λ refusal. write_of spr value regs.old devices.old.devices ≡ Err refusal) }
    ensures regs_stay { OnErr result (regs.new ≡ regs.old) }
    ensures devices_stay { OnErr result (devices.new ≡ devices.old) }
    ensures room { devices.new.room ≡ devices.old.room }
{
    if let Some(refusal) = write_refusal(regs, spr) {
        return Err(refusal);
    }
    if let Some(register) = register_for(Use::Write, spr) {
        set_content(register, value, regs, devices);
    }
    Ok(())
}
