ghost use Rattle.std.specs.Prelude.{◌≡◌, slice_index};
ghost use Rattle.mw_isa.specs.Sprs.{content_of, devices_with, low_word, regs_with};

use mw_bits::sext;
use mw_isa::{Numbered, Regs, xer_bits, xer_of};
use mw_soc::Devices;

/// The number of a software-use register, or 0 where there is none.
fn number_at(numbers: &[u64], place: u8) -> u64
    ensures { result ≡ slice_index numbers.now place }
{
    match numbers.get(usize::from(place)) {
        Some(number) => *number,
        None => 0,
    }
}

/// What a read of a register gives.
pub fn content_of(register: Numbered, regs: &Regs, devices: &Devices) -> u64
    ensures { result ≡ content_of register regs.now devices.now.devices }
{
    match register {
        Numbered::Xer => regs.xer,
        Numbered::Lr => regs.lr,
        Numbered::Ctr => regs.ctr,
        Numbered::Dsisr => u64::from(regs.dsisr),
        Numbered::Dar => regs.dar,
        Numbered::Dec => sext(u64::from(devices.dec()), 32),
        Numbered::Srr0 => regs.srr0,
        Numbered::Srr1 => regs.srr1,
        Numbered::Pidr => u64::from(regs.pidr),
        Numbered::Sprg(place) => number_at(&regs.sprg, place),
        Numbered::TimeBase => devices.cycle(),
        Numbered::TimeBaseUpper => devices.cycle() >> 32,
        Numbered::TimeBaseHalf => 0,
        Numbered::Pvr => 0x0063_0101,
        Numbered::Hsprg(place) => number_at(&regs.hsprg, place),
        Numbered::Hsrr0 => regs.hsrr0,
        Numbered::Hsrr1 => regs.hsrr1,
        Numbered::Prtbl => regs.prtbl,
        Numbered::Tar => regs.tar,
        Numbered::Pir => 0,
    }
}

/// The low 32 bits of a number.
fn low_word(value: u64) -> u32
    ensures { result ≡ low_word value }
{
    (value % 0x1_0000_0000) as u32
}

/// Writes a value to a register: XER keeps its five bits, and one of 32 bits takes the low word.
pub fn set_content(register: Numbered, value: u64, regs: &mut Regs, devices: &mut Devices)
    ensures regs { regs.new ≡ regs_with register value regs.old }
    ensures devices { devices.new ≡ record devices.old { devices = devices_with register value devices.old.devices } }
{
    match register {
        Numbered::Xer => regs.xer = xer_of(xer_bits(value)),
        Numbered::Lr => regs.lr = value,
        Numbered::Ctr => regs.ctr = value,
        Numbered::Dsisr => regs.dsisr = low_word(value),
        Numbered::Dar => regs.dar = value,
        Numbered::Dec => devices.set_dec(low_word(value)),
        Numbered::Srr0 => regs.srr0 = value,
        Numbered::Srr1 => regs.srr1 = value,
        Numbered::Pidr => regs.pidr = low_word(value),
        Numbered::Sprg(place) => {
            if place < 4 {
                regs.sprg[usize::from(place)] = value;
            }
        }
        Numbered::TimeBase => {}
        Numbered::TimeBaseUpper => {}
        Numbered::TimeBaseHalf => {}
        Numbered::Pvr => {}
        Numbered::Hsprg(place) => {
            if place < 2 {
                regs.hsprg[usize::from(place)] = value;
            }
        }
        Numbered::Hsrr0 => regs.hsrr0 = value,
        Numbered::Hsrr1 => regs.hsrr1 = value,
        Numbered::Prtbl => regs.prtbl = value,
        Numbered::Tar => regs.tar = value,
        Numbered::Pir => {}
    }
}
