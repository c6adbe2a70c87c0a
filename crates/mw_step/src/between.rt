ghost use Rattle.std.specs.Prelude.{◌≡◌};
ghost use Rattle.mw_soc.specs.Devices.{cycle_of};
ghost use Rattle.mw_isa.specs.Choose.{chosen, interrupted};
ghost use Rattle.mw_isa.specs.State.{seen};

use mw_irq::{choose, take};
use mw_isa::{Event, State, Vector};

/// The interrupt that is taken in place of the next instruction at the devices' cycle, if one is (Book III,
/// external and decrementer interrupts). It can't fail.
pub fn chosen(state: &State) -> Option<Vector>
    ensures { result ≡ chosen (seen state.now) }
{
    choose(&state.devices, state.regs.msr)
}

/// Takes an interrupt in place of the next instruction, whose address it saves, at the devices' cycle: SRR0,
/// SRR1, MSR and the address change, and nothing else (Book III, interrupt processing). It can't fail and takes
/// no memory.
pub fn interrupt(state: &mut State, vector: Vector) -> Event
    ensures event { result ≡ Event.Irq (cycle_of state.old.devices.devices) state.old.regs.cia vector }
    ensures after { seen state.new ≡ interrupted vector (seen state.old) }
    ensures room { state.new.devices.room ≡ state.old.devices.room }
{
    let cycle = state.devices.cycle();
    let nia = state.regs.cia;
    take(&mut state.regs, vector, 0, nia);
    Event::Irq { cycle, nia, vector }
}
