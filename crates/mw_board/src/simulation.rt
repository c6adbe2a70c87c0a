ghost use Rattle.std.specs.Prelude.{◌≡◌, ◌/◌, ◌≤◌, ◌<◌, ◌↔◌, length, IfOk, IfErr, Err};
ghost use Rattle.std.specs.List.{range_with_len};
ghost use Rattle.mw_bus.specs.Memory.{ram_size};
ghost use Rattle.mw_soc.specs.Devices.{cycle_of};
ghost use Rattle.mw_isa.specs.State.{seen, brought};
ghost use Rattle.mw_isa.specs.Replay.{cycles_of};
ghost use Rattle.mw_isa.specs.Runs.{Runs};
ghost use Rattle.mw_isa.specs.Stops.{stop_of};
ghost use Rattle.mw_board.specs.Faults.{HasCause};

use crate::run::{Run, RunFault};
use crate::turn::{Halt, turned};
use mw_bus::{RAM_SIZE, Ram};
use mw_discipline::Monitor;
use mw_isa::{Access, End, Events, State};
use mw_soc::Devices;
use mw_step::Prepared;
use mw_uart::Script;
use std::alloc::Global;

/// The run that reached its number of cycles with these events and in this state, whose devices are brought to that
/// cycle. It takes no memory, and can't fail.
fn stopped(events: Events, mut state: State, n: u64) -> Run
    requires later { cycle_of state.devices.devices ≤ n }
    requires room { n / 160 ≤ state.devices.room }
    ensures events { result.events ≡ events }
    ensures end { result.end ≡ End.Ran n }
    ensures last { seen result.state ≡ brought n (seen state) }
{
    state.devices.advance(n);
    Run {
        events,
        end: End::Ran { cycle: n },
        state,
    }
}

/// The run that stopped with these events and in this state, whose devices stand at the cycle, before an access that breaks
/// the update discipline.
fn offended(events: Events, state: State, cycle: u64, access: Access) -> Run
    ensures events { result.events ≡ events }
    ensures end { result.end ≡ End.Offence cycle access }
    ensures last { seen result.state ≡ seen state }
{
    Run {
        events,
        end: End::Offence { cycle, access },
        state,
    }
}

/// Runs an image for `n` cycles, an instruction a cycle, from the machine's start with the image at real address 0; the
/// bytes of the script arrive at the UART, each at its cycle. Where the next instruction has an access that breaks the
/// update discipline the run ends with that, before it. `Err` says why there is no run: `ImageTooLarge` exactly where the
/// image is longer than RAM, and else `NoMemory`, where memory is wanting.
pub fn simulate(alloc: Global, image: &[u8], script: &Script, n: u64) -> Result<Run, RunFault>
    requires { n ≤ 4000000 }
    ensures runs { IfOk result (λ run. Runs (record { image = image.now; script = script.now }) n run.events run.end (seen run.state)) }
    ensures each_cycle { IfOk result (λ run. cycles_of run.events ≡ range_with_len 0 (stop_of run.end)) }
    ensures cause { IfErr result (HasCause image.now) }
    ensures too_large { (result ≡ Err RunFault.ImageTooLarge) ↔ (ram_size < length image.now) }
{
    if image.len() > RAM_SIZE {
        return Err(RunFault::ImageTooLarge);
    }
    let Ok(ram) = Ram::new(alloc, image) else {
        return Err(RunFault::NoMemory);
    };
    let Ok(script) = script.copy() else {
        return Err(RunFault::NoMemory);
    };
    let Ok(devices) = Devices::new(alloc, script, n / 160) else {
        return Err(RunFault::NoMemory);
    };
    let mut state = State::new(ram, devices);
    let mut events = Events::new(alloc);
    let Ok(mut monitor) = Monitor::new(alloc) else {
        return Err(RunFault::NoMemory);
    };
    let mut prepared = Prepared::new();
    for cycle in 0..n {
        state.devices.advance(cycle);
        let event = match turned(&mut state, &mut prepared, &mut monitor) {
            Ok(event) => event,
            Err(Halt::NoMemory) => return Err(RunFault::NoMemory),
            Err(Halt::Offence(access)) => return Ok(offended(events, state, cycle, access)),
        };
        let Ok(()) = events.push(event) else {
            return Err(RunFault::NoMemory);
        };
    }
    Ok(stopped(events, state, n))
}
