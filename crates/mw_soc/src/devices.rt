ghost use Rattle.std.specs.Prelude.{◌≡◌, ◌+◌, ◌-◌, ◌/◌, ◌%◌, ◌^◌, ◌≤◌, ◌++◌, length, replicate, IfOk};
ghost use Rattle.mw_soc.specs.Devices.{cycle_of, dec_of, dec_stands, devices_at, external_stands, start_devices, with_dec};
ghost use Rattle.mw_soc.specs.Map.{after_device_load, after_device_store, device_loaded, is_system, is_uart, is_xics};

use crate::system::system_loaded;
use mw_uart::{Script, Uart};
use mw_xics::Xics;
use std::alloc::{AllocError as NoMemory, Global};
use std::marker::Model;

/// The devices of the board and the cycle that they stand at: the UART, the interrupt controller, the system
/// controller and the decrementer. Clauses see their data and how many bytes of output they have memory for.
#[derive(Drop)]
pub struct Devices {
    /// The UART, at the cycle that all stand at.
    uart: Uart,
    /// The interrupt controller, whose line 0 is the UART's.
    xics: Xics,
    /// The decrementer as it was last written.
    dec: u32,
    /// The cycle at which the decrementer was last written.
    dec_at: u64,
}

impl Model for Devices {
    ghost use Rattle.std.specs.Prelude.{◌≤◌};
    ghost use Rattle.mw_soc.specs.DeviceData.{Housed};

    ghost Value = { Housed };

    ghost view = { λ d. record { devices = record { uart = d.uart.uart; xics = d.xics; dec = d.dec; dec_at = d.dec_at }; room = d.uart.room } };

    ghost invariant = { λ d. d.dec_at ≤ d.uart.uart.cycle };
}

/// The UART stands at a real address.
fn is_uart(at: u64) -> bool
    ensures { result ≡ is_uart at }
{
    0xC000_2000 <= at && at < 0xC000_3000
}

/// The interrupt controller stands at a real address.
fn is_xics(at: u64) -> bool
    ensures { result ≡ is_xics at }
{
    0xC000_4000 <= at && at < 0xC000_6000
}

/// The system controller stands at a real address.
fn is_system(at: u64) -> bool
    ensures { result ≡ is_system at }
{
    0xC000_0000 <= at && at < 0xC000_1000
}

/// So many bytes of all ones, with zeros behind them.
fn ones(width: u8) -> [u8; 8]
    requires { width ≤ 8 }
    ensures { result ≡ replicate width 255 ++ replicate (8 - width) 0 }
{
    let mut bytes = [0; 8];
    bytes[..usize::from(width)].fill(255);
    bytes
}

impl Devices {
    /// The devices at cycle 0, with a script of which no byte has arrived at the UART, with memory for `room`
    /// bytes of output, the interrupt controller letting nothing through, and the decrementer at its largest
    /// positive number. The only error is want of memory.
    pub fn new(alloc: Global, script: Script, room: u64) -> Result<Devices, NoMemory>
        requires { room ≤ 2 ^ 32 }
        ensures { IfOk result (λ d. d ≡ record { devices = start_devices script; room = room }) }
    {
        Ok(Devices {
            uart: Uart::new(alloc, script, room)?,
            xics: Xics::new(),
            dec: 0x7FFF_FFFF,
            dec_at: 0,
        })
    }

    /// Brings the devices to a cycle that isn't before theirs.
    pub fn advance(&mut self, cycle: u64)
        requires later { cycle_of self.old.devices ≤ cycle }
        requires room { cycle / 160 ≤ self.old.room }
        ensures { self.new ≡ record self.old { devices = devices_at self.old.devices cycle } }
    {
        self.uart.advance(cycle);
    }

    /// Loads `width` bytes from a real address outside RAM, with zeros behind them: once, at the devices'
    /// cycle. Where no device is, they are all ones. The interrupt controller sees the UART's line at that cycle.
    #[tactic(auto, unfolding(crate::specs::Map::device_loaded, crate::specs::Map::after_device_load))]
    pub fn load(&mut self, at: u64, width: u8) -> [u8; 8]
        requires some { 1 ≤ width }
        requires one_slot { at % 8 + width ≤ 8 }
        ensures value { result ≡ device_loaded self.old.devices at width ++ replicate (8 - width) 0 }
        ensures after { self.new ≡ record self.old { devices = after_device_load self.old.devices at width } }
    {
        if is_uart(at) {
            self.uart.load((at - 0xC000_2000) as u32, width)
        } else if is_xics(at) {
            self.xics
                .load((at - 0xC000_4000) as u32, width, self.uart.line())
        } else if is_system(at) {
            system_loaded(at - 0xC000_0000, width)
        } else {
            ones(width)
        }
    }

    /// Stores bytes at a real address outside RAM: once, at the devices' cycle. They vanish where no device
    /// takes them.
    #[tactic(auto, unfolding(crate::specs::Map::after_device_store))]
    pub fn store(&mut self, at: u64, bytes: &[u8])
        requires some { 1 ≤ length bytes.now }
        requires one_slot { at % 8 + length bytes.now ≤ 8 }
        ensures { self.new ≡ record self.old { devices = after_device_store self.old.devices at bytes.now } }
    {
        if is_uart(at) {
            self.uart.store((at - 0xC000_2000) as u32, bytes);
        } else if is_xics(at) {
            self.xics.store((at - 0xC000_4000) as u32, bytes);
        }
    }

    /// The cycle that the devices stand at, counted from 0. It is the time base.
    pub fn cycle(&self) -> u64
        ensures { result ≡ cycle_of self.now.devices }
    {
        self.uart.cycle()
    }

    /// The decrementer at this cycle: as it was last written, less one for each cycle since, in 32
    /// bits (Book III, decrementer).
    pub fn dec(&self) -> u32
        ensures { result ≡ dec_of self.now.devices }
    {
        let since = (self.cycle() - self.dec_at) % 0x1_0000_0000;
        self.dec.wrapping_sub(since as u32)
    }

    /// Writes the decrementer (Book III, decrementer).
    pub fn set_dec(&mut self, value: u32)
        ensures { self.new ≡ record self.old { devices = with_dec self.old.devices value } }
    {
        self.dec = value;
        self.dec_at = self.cycle();
    }

    /// Whether the decrementer's exception stands: its top bit is 1 (Book III, decrementer interrupt).
    pub fn decrementer(&self) -> bool
        ensures { result ≡ dec_stands self.now.devices }
    {
        self.dec() >= 0x8000_0000
    }

    /// Whether the external exception stands: an interrupt is pending at the controller, whose line 0 is the
    /// UART's (Book III, external interrupt).
    pub fn external(&self) -> bool
        ensures { result ≡ external_stands self.now.devices }
    {
        self.xics.pending(self.uart.line()).is_some()
    }

    /// All bytes that the UART sent.
    pub fn output(&self) -> &[u8]
        ensures { result.now ≡ self.now.devices.uart.output }
    {
        self.uart.output()
    }
}
