ghost use Rattle.std.specs.Prelude.{◌≡◌, ◌<◌};
ghost use Rattle.mw_xics.specs.Registers.{is_priority, register_at};
ghost use Rattle.mw_xics.specs.Inside.{IsLine};

/// A register of the controller, by the offset at which an access begins.
#[derive(Clone, Copy)]
pub enum Register {
    /// XIRR, which is only looked at.
    Poll,
    /// XIRR: a load accepts the pending interrupt, and a store ends one.
    Xirr,
    /// MFRR, the priority of the interprocessor interrupt.
    Mfrr,
    /// The priority of a line.
    Priority {
        /// The line's number, from 0 to 15.
        number: usize,
    },
    /// No register: a load gives zeros, and a store vanishes.
    Unused,
}

/// How many lines there are.
pub const LINES: usize = 16;

/// The offset at which the priorities of the lines begin, 4 bytes each.
const PRIORITIES: u32 = 0x1800;

/// Whether the priority of a line begins at an offset.
fn is_priority(at: u32) -> bool
    ensures { result ≡ is_priority at }
{
    PRIORITIES <= at && at < PRIORITIES + 4 * LINES as u32 && at % 4 == 0
}

/// The register that begins at an offset.
pub fn register_at(at: u32) -> Register
    ensures value { result ≡ register_at at }
    ensures within { IsLine result }
{
    if at == 0x0 {
        Register::Poll
    } else if at == 0x4 {
        Register::Xirr
    } else if at == 0xC {
        Register::Mfrr
    } else if is_priority(at) {
        Register::Priority {
            number: ((at - PRIORITIES) / 4) as usize,
        }
    } else {
        Register::Unused
    }
}
