ghost use Rattle.std.specs.Prelude.{◌≡◌};
ghost use Rattle.mw_isa.specs.Choose.{choice_of, exception_of};

use mw_isa::{EE, Vector, has_bit};
use mw_soc::Devices;

/// The exception of the devices that is served first, of those that stand: the external one, then the
/// decrementer's.
fn exception_of(devices: &Devices) -> Option<Vector>
    ensures { result ≡ exception_of devices.now.devices }
{
    if devices.external() {
        Some(Vector::External)
    } else if devices.decrementer() {
        Some(Vector::Decrementer)
    } else {
        None
    }
}

/// The interrupt that is taken in place of the next instruction at the devices' cycle, if one is (Book III,
/// external and decrementer interrupts): none where EE of MSR is 0, which is looked at first; else the external
/// one where a source is pending at the controller; else the decrementer's where its top bit is 1. It can't fail.
#[tactic(auto, unfolding(mw_isa::specs::Choose::choice_of))]
pub fn choose(devices: &Devices, msr: u64) -> Option<Vector>
    ensures { result ≡ choice_of devices.now.devices msr }
{
    if has_bit(msr, EE) {
        exception_of(devices)
    } else {
        None
    }
}
