ghost use Rattle.std.specs.Prelude.{◌≡◌};
ghost use Rattle.mw_isa.specs.Start.{start_regs};

use crate::regs::Regs;
use mw_bus::Ram;
use mw_soc::Devices;

/// The whole state of the machine: registers, RAM and devices.
#[derive(Drop)]
pub struct State {
    /// The registers.
    pub regs: Regs,
    /// The RAM.
    pub ram: Ram,
    /// The devices, at the cycle that the state is of.
    pub devices: Devices,
}

impl State {
    /// A state with the registers of the machine's start, and this RAM and these devices as they are. It takes no
    /// memory, and can't fail.
    pub fn new(ram: Ram, devices: Devices) -> State
        ensures { result ≡ record { regs = start_regs; ram = ram; devices = devices } }
    {
        State {
            regs: Regs::new(),
            ram,
            devices,
        }
    }

    /// The effective address of the next instruction, in bytes.
    pub fn cia(&self) -> u64
        ensures { result ≡ self.now.regs.cia }
    {
        self.regs.cia
    }
}
