use mw_bus::Ram;
use mw_isa::{Event, Regs, State};
use mw_soc::Devices;
use mw_step::{Prepared, carry_out, prepare};
use mw_uart::Script;
use std::alloc::{AllocError as NoMemory, Global};

/// What stands in each general purpose register that a line doesn't name.
pub const OTHER: u64 = 0xdead_beef_0bad_f00d;

/// The state in which an instruction is carried out first.
pub fn first(alloc: Global) -> Result<State, NoMemory> {
    Ok(State::new(
        Ram::new(alloc, &[])?,
        Devices::new(alloc, Script::new(alloc), 0)?,
    ))
}

/// Lays a word and the one behind it at an address, where the run goes on. All registers are at their start, but that
/// the general purpose ones hold [`OTHER`].
pub fn lay(state: &mut State, word: u32, suffix: u32, cia: u32) {
    let at = u64::from(cia);
    state.ram.write(at, &word.to_le_bytes());
    state.ram.write(at + 4, &suffix.to_le_bytes());
    state.regs = Regs::new();
    state.regs.gpr = [OTHER; 32];
    state.regs.cia = at;
}

/// Carries out the next instruction.
pub fn carried(state: &mut State) -> Event {
    let mut prepared = Prepared::new();
    prepare(state, &mut prepared);
    carry_out(state, &mut prepared)
}

/// Carries out the next instruction; whether it retired.
pub fn retires(state: &mut State) -> bool {
    match carried(state) {
        Event::Retire { .. } => true,
        Event::Trap { .. } => false,
        Event::Irq { .. } => false,
    }
}
