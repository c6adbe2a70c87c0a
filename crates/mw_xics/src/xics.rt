ghost use Rattle.std.specs.Prelude.{◌≡◌, ◌+◌, ◌-◌, ◌%◌, ◌^◌, ◌<◌, ◌≤◌, [], ◌∷◌, ◌++◌, length, replicate, if◌then◌else◌, nat_lt, None, Some, slice_index};
ghost use Rattle.mw_xics.specs.XicsData.{start_xics};
ghost use Rattle.mw_xics.specs.Pending.{accepted, below, pending_of, pending_source, source_of, xirr};
ghost use Rattle.mw_xics.specs.Registers.{after_word, after_xics_load, after_xics_store, byte_of, bytes_of, with_byte, with_word, word_of, xics_loaded};
ghost use Rattle.mw_xics.specs.Inside.{IsLine, better, wired};

use crate::register::{LINES, Register, register_at};
use std::marker::Model;

/// The priority that masks.
const MASKED: u8 = 0xFF;

/// The source of the interprocessor interrupt.
const INTERPROCESSOR: u32 = 2;

/// The source of line 0.
const FIRST_LINE: u32 = 16;

/// The interrupt controller of one processor. Clauses see its data.
#[derive(Drop)]
pub struct Xics {
    /// CPPR, the priority of what the processor does.
    cppr: u8,
    /// MFRR, the priority of the interprocessor interrupt.
    mfrr: u8,
    /// The priorities of the lines.
    priorities: [u8; LINES],
}

impl Model for Xics {
    ghost use Rattle.mw_xics.specs.XicsData.{XicsData};

    ghost Value = { XicsData };

    ghost view = { λ x. record { cppr = x.cppr; mfrr = x.mfrr; priorities = x.priorities } };
}

/// Four bytes with four zeros behind them.
fn widened(word: [u8; 4]) -> [u8; 8]
    ensures { result ≡ word ++ replicate 4 0 }
{
    let mut bytes = [0; 8];
    bytes[..4].copy_from_slice(&word);
    bytes
}

impl Xics {
    /// The controller at the start: CPPR is 0, and MFRR and every priority 0xFF. It can't fail and takes no
    /// memory.
    pub fn new() -> Xics
        ensures { result ≡ start_xics }
    {
        Xics {
            cppr: 0,
            mfrr: MASKED,
            priorities: [MASKED; LINES],
        }
    }

    /// The priority of line 0, which is masked where the line is off.
    fn wired(&self, line: bool) -> u8
        ensures { result ≡ wired self.now line }
    {
        if line { self.priorities[0] } else { MASKED }
    }

    /// The better of the interprocessor interrupt and line 0, each its priority and its source.
    fn better(&self, line: bool) -> (u8, u32)
        ensures { result ≡ better self.now line }
    {
        let wired = self.wired(line);
        if self.mfrr <= wired {
            (self.mfrr, INTERPROCESSOR)
        } else {
            (wired, FIRST_LINE)
        }
    }

    /// A candidate where its priority is below CPPR.
    fn below(&self, candidate: (u8, u32)) -> Option<(u8, u32)>
        ensures value { result ≡ below self.now.cppr (Some candidate) }
        ensures byte { self.now.cppr ≤ 255 }
    {
        if candidate.0 < self.cppr {
            Some(candidate)
        } else {
            None
        }
    }

    /// The priority and the source of the pending interrupt, with line 0, the UART's, on or off: 2 is the
    /// interprocessor interrupt, and 16 is line 0 (LoPAR, interrupt presentation layer). It can't fail and takes
    /// no memory.
    pub fn pending(&self, line: bool) -> Option<(u8, u32)>
        ensures { result ≡ pending_of self.now line }
    {
        self.below(self.better(line))
    }

    /// The pending source, or 0 where nothing is pending.
    fn pending_source(&self, line: bool) -> u32
        ensures value { result ≡ pending_source self.now line }
        ensures small { result ≤ source_of 0 }
    {
        match self.pending(line) {
            Some(candidate) => candidate.1,
            None => 0,
        }
    }

    /// XIRR: CPPR in its top byte, and the pending source below.
    fn xirr(&self, line: bool) -> u32
        ensures { result ≡ xirr self.now line }
    {
        u32::from(self.cppr) * 0x100_0000 + self.pending_source(line)
    }

    /// What a load of 4 bytes gives.
    fn word_of(&self, line: bool, register: Register) -> [u8; 4]
        requires { IsLine register }
        ensures { result ≡ word_of self.now line register }
    {
        match register {
            Register::Poll | Register::Xirr => self.xirr(line).to_be_bytes(),
            Register::Mfrr => [self.mfrr, 0, 0, 0],
            Register::Priority { number } => [0, 0, 0, self.priorities[number]],
            Register::Unused => [0; 4],
        }
    }

    /// What a load of one byte gives.
    fn byte_of(&self, register: Register) -> u8
        ensures { result ≡ byte_of self.now register }
    {
        match register {
            Register::Poll | Register::Xirr => self.cppr,
            Register::Mfrr => self.mfrr,
            Register::Priority { .. } | Register::Unused => 0,
        }
    }

    /// What a load of a register gives, with zeros behind it.
    fn bytes_of(&self, line: bool, register: Register, width: u8) -> [u8; 8]
        requires within { IsLine register }
        requires small { width ≤ 8 }
        ensures { result ≡ bytes_of self.now line register width ++ replicate (8 - width) 0 }
    {
        if width == 4 {
            widened(self.word_of(line, register))
        } else if width == 1 {
            [self.byte_of(register), 0, 0, 0, 0, 0, 0, 0]
        } else {
            [0; 8]
        }
    }

    /// Accepts the pending interrupt: CPPR is its priority, and stays where nothing is pending.
    fn accept(&mut self, line: bool)
        ensures { self.new ≡ accepted self.old line }
    {
        if let Some((priority, _)) = self.pending(line) {
            self.cppr = priority;
        }
    }

    /// Accepts where the register is one that a load of 4 bytes accepts from.
    fn accept_from(&mut self, line: bool, register: Register)
        ensures { self.new ≡ after_word self.old line register }
    {
        match register {
            Register::Xirr => self.accept(line),
            Register::Poll | Register::Mfrr | Register::Priority { .. } | Register::Unused => {}
        }
    }

    /// Loads `width` bytes at an offset, in bytes, with line 0, the UART's, on or off, and gives them with zeros
    /// behind them; numbers are big-endian. A load of 4 bytes at offset 0x4 accepts the pending interrupt (LoPAR,
    /// interrupt presentation layer, XIRR). It can't fail and takes no memory.
    #[tactic(auto, unfolding(crate::specs::Registers::xics_loaded, crate::specs::Registers::after_xics_load))]
    pub fn load(&mut self, at: u32, width: u8, line: bool) -> [u8; 8]
        requires inside { at < 0x2000 }
        requires some { 1 ≤ width }
        requires one_slot { at % 8 + width ≤ 8 }
        ensures value { result ≡ xics_loaded self.old at width line ++ replicate (8 - width) 0 }
        ensures after { self.new ≡ after_xics_load self.old at width line }
    {
        let register = register_at(at);
        let bytes = self.bytes_of(line, register, width);
        if width == 4 {
            self.accept_from(line, register);
        }
        bytes
    }

    /// Stores one byte, which CPPR or MFRR takes.
    fn store_byte(&mut self, register: Register, byte: u8)
        ensures { self.new ≡ with_byte self.old register byte }
    {
        match register {
            Register::Xirr => self.cppr = byte,
            Register::Mfrr => self.mfrr = byte,
            Register::Poll | Register::Priority { .. } | Register::Unused => {}
        }
    }

    /// Stores 4 bytes: CPPR and MFRR take the first, a priority the last.
    fn store_word(&mut self, register: Register, first: u8, last: u8)
        requires { IsLine register }
        ensures { self.new ≡ with_word self.old register first last }
    {
        match register {
            Register::Xirr => self.cppr = first,
            Register::Mfrr => self.mfrr = first,
            Register::Priority { number } => self.priorities[number] = last,
            Register::Poll | Register::Unused => {}
        }
    }

    /// Stores bytes at an offset, in bytes; numbers are big-endian. A store of 4 bytes at offset 0x4 ends an
    /// interrupt (LoPAR, interrupt presentation layer, XIRR). It can't fail and takes no memory.
    #[tactic(auto, unfolding(crate::specs::Registers::after_xics_store))]
    pub fn store(&mut self, at: u32, bytes: &[u8])
        requires inside { at < 0x2000 }
        requires some { 1 ≤ length bytes.now }
        requires one_slot { at % 8 + length bytes.now ≤ 8 }
        ensures { self.new ≡ after_xics_store self.old at bytes.now }
    {
        let register = register_at(at);
        if bytes.len() == 4 {
            self.store_word(register, bytes[0], bytes[3]);
        } else if bytes.len() == 1 {
            self.store_byte(register, bytes[0]);
        }
    }
}
