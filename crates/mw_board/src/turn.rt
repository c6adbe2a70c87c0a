ghost use Rattle.std.specs.Prelude.{◌≡◌, ◌+◌, ◌≤◌, IfErr, IfOk, None, OnOk};
ghost use Rattle.mw_isa.specs.Choose.{chosen};
ghost use Rattle.mw_isa.specs.State.{seen};
ghost use Rattle.mw_board.specs.Turns.{IsHalted, IsTurned};

use mw_discipline::{Monitor, RamTables};
use mw_isa::{Access, Event, State};
use mw_step::{Prepared, carry_out, chosen, interrupt, prepare};

/// Why a cycle has no event.
#[derive(Clone, Copy, Debug, PartialEq, Eq)]
pub enum Halt {
    /// The next instruction has this access, its first that breaks the update discipline.
    Offence(Access),
    /// Memory is wanting.
    NoMemory,
}

/// Carries out the next instruction at the devices' cycle, in whose place no interrupt is taken, unless it breaks the
/// update discipline. What is known of it is written over `prepared`, and the monitor records it before it takes effect.
fn instructed(
    state: &mut State,
    prepared: &mut Prepared,
    monitor: &mut Monitor,
) -> Result<Event, Halt>
    requires calm { chosen (seen state.old) ≡ None }
    requires few { monitor.old.added ≤ 100000000 }
    ensures ok { IfOk result (λ event. IsTurned event monitor.old.kept (seen state.old) monitor.new.kept (seen state.new)) }
    ensures halt { IfErr result (λ halt. IsHalted halt monitor.old.kept (seen state.old) (seen state.new)) }
    ensures added { OnOk result (monitor.new.added ≤ monitor.old.added + 6) }
    ensures room { state.new.devices.room ≡ state.old.devices.room }
{
    prepare(state, prepared);
    let packet = &prepared.packet;
    if let Err(access) = monitor.check(packet, &mut RamTables::new(&state.ram), &state.regs) {
        return Err(Halt::Offence(access));
    }
    let Ok(()) = monitor.record(packet, &mut RamTables::new(&state.ram), &state.regs) else {
        return Err(Halt::NoMemory);
    };
    Ok(carry_out(state, prepared))
}

/// What happens in the devices' cycle: the interrupt that is chosen, or else the next instruction, unless it breaks the
/// update discipline.
pub fn turned(
    state: &mut State,
    prepared: &mut Prepared,
    monitor: &mut Monitor,
) -> Result<Event, Halt>
    requires few { monitor.old.added ≤ 100000000 }
    ensures ok { IfOk result (λ event. IsTurned event monitor.old.kept (seen state.old) monitor.new.kept (seen state.new)) }
    ensures halt { IfErr result (λ halt. IsHalted halt monitor.old.kept (seen state.old) (seen state.new)) }
    ensures added { OnOk result (monitor.new.added ≤ monitor.old.added + 6) }
    ensures room { state.new.devices.room ≡ state.old.devices.room }
{
    match chosen(state) {
        Some(vector) => {
            monitor.interrupted();
            Ok(interrupt(state, vector))
        }
        None => instructed(state, prepared, monitor),
    }
}
