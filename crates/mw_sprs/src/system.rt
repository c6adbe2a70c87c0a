ghost use Rattle.std.specs.Prelude.{◌≡◌, IfSome, option_map};
ghost use Rattle.mw_isa.specs.Msr.{pr_place};
ghost use Rattle.mw_isa.specs.Sprs.{held, read_of, refusal_of, write_of};
ghost use Rattle.mw_isa.specs.Xer.{has_bit};
ghost use Rattle.mw_isa.specs.System.{held_or, msr_behind, is_table, refused_by, regs_reading, system_deed, system_held, system_raises};
ghost use Rattle.mw_isa.specs.Take.{IsUnmarked};

use crate::moving::{read, write};
use crate::numbers::{refusal_of, register_for};
use mw_isa::{
    Deed, ILLEGAL, Numbered, PR, PRIVILEGED, Raised, Regs, Slot, SprRefusal, SysOp, Use, Vector,
    bit_at, has_bit, msr_from, msr_partly_from, raising, set_slot,
};
use mw_soc::Devices;

/// The interrupt of a refusal by number.
fn refused_by(refusal: SprRefusal) -> Raised
    ensures value { result ≡ refused_by refusal }
    ensures cause { IsUnmarked result.cause }
{
    match refusal {
        SprRefusal::Privileged => raising(Vector::Program, bit_at(PRIVILEGED)),
        SprRefusal::Illegal => raising(Vector::Program, bit_at(ILLEGAL)),
    }
}

/// The interrupt of a use of a number under MSR, if it is refused.
fn use_raises(way: Use, spr: u16, msr: u64) -> Option<Raised>
    ensures value { result ≡ option_map refused_by (refusal_of way spr (has_bit msr pr_place)) }
    ensures cause { IfSome result (λ raised. IsUnmarked raised.cause) }
{
    match refusal_of(way, spr, has_bit(msr, PR)) {
        None => None,
        Some(refusal) => Some(refused_by(refusal)),
    }
}

/// The interrupt that an instruction of the system raises under MSR, by the number of a register (Book III,
/// program interrupt). It can't fail.
pub fn system_raises(op: &SysOp, msr: u64) -> Option<Raised>
    ensures value { result ≡ system_raises op.now msr }
    ensures cause { IfSome result (λ raised. IsUnmarked raised.cause) }
{
    match op {
        SysOp::ReadSpr { spr, .. } => use_raises(Use::Read, *spr, msr),
        SysOp::WriteSpr { spr, .. } => use_raises(Use::Write, *spr, msr),
        SysOp::WriteMsr { .. } => None,
        SysOp::Return { .. } => None,
        SysOp::Tlbie { .. } => None,
        SysOp::Sync { .. } => None,
        SysOp::Isync => None,
    }
}

/// MSR that an instruction of the system leaves.
fn msr_behind(op: &SysOp, regs: &Regs) -> u64
    ensures { result ≡ msr_behind op.now regs.now }
{
    match op {
        SysOp::WriteMsr { value, l } => {
            if *l {
                msr_partly_from(*value, regs.msr)
            } else {
                msr_from(*value, regs.msr)
            }
        }
        SysOp::Return { hypervisor } => {
            msr_from(if *hypervisor { regs.hsrr1 } else { regs.srr1 }, regs.msr)
        }
        SysOp::ReadSpr { .. } => regs.msr,
        SysOp::WriteSpr { .. } => regs.msr,
        SysOp::Tlbie { .. } => regs.msr,
        SysOp::Sync { .. } => regs.msr,
        SysOp::Isync => regs.msr,
    }
}

/// Reads a register by its number into another one.
fn read_into(to: u8, spr: u16, regs: &mut Regs, devices: &Devices)
    ensures { regs.new ≡ regs_reading to (read_of spr regs.old devices.now.devices) regs.old }
{
    if let Ok(Some(value)) = read(regs, devices, spr) {
        set_slot(regs, Slot::Gpr(to), value);
    }
}

/// Writes a register by its number, unless that is refused.
fn write_from(spr: u16, value: u64, regs: &mut Regs, devices: &mut Devices)
    ensures regs { regs.new ≡ (held_or (write_of spr value regs.old devices.old.devices) (held regs.old devices.old.devices)).regs }
    ensures devices { devices.new ≡ record devices.old { devices = (held_or (write_of spr value regs.old devices.old.devices) (held regs.old devices.old.devices)).devices } }
{
    match write(regs, devices, spr, value) {
        Ok(()) => {}
        Err(_) => {}
    }
}

/// Does to registers and devices what an instruction of the system does where it takes effect: a register is
/// read or written by its number, MSR is written, or nothing changes (Book III). A use of a number that is
/// refused changes nothing. The devices stand at its cycle. It can't fail.
pub fn carry(op: &SysOp, regs: &mut Regs, devices: &mut Devices)
    ensures regs { regs.new ≡ (system_held op.now regs.old devices.old.devices).regs }
    ensures devices { devices.new ≡ record devices.old { devices = (system_held op.now regs.old devices.old.devices).devices } }
{
    match op {
        SysOp::ReadSpr { to, spr } => read_into(*to, *spr, regs, devices),
        SysOp::WriteSpr { spr, value } => {
            write_from(*spr, *value, regs, devices);
        }
        _ => regs.msr = msr_behind(op, regs),
    }
}

/// Whether a register is that of the table of translations.
fn is_table(register: Option<Numbered>) -> bool
    ensures { result ≡ is_table register }
{
    matches!(register, Some(Numbered::Prtbl))
}

/// What an instruction of the system does to changed code and changed translations where it takes effect (Book II,
/// synchronization; Book III, translation invalidation). It can't fail.
pub fn system_deed(op: &SysOp) -> Deed
    ensures { result ≡ system_deed op.now }
{
    match op {
        SysOp::WriteSpr { spr, .. } => {
            if is_table(register_for(Use::Write, *spr)) {
                Deed::NewTable
            } else {
                Deed::Plain
            }
        }
        SysOp::Tlbie { scope } => Deed::Tlbie(*scope),
        SysOp::Sync { l } => { if *l == 2 { Deed::Sync } else { Deed::Plain } }
        SysOp::Return { .. } => Deed::Sync,
        SysOp::Isync => Deed::Sync,
        SysOp::ReadSpr { .. } => Deed::Plain,
        SysOp::WriteMsr { .. } => Deed::Plain,
    }
}
