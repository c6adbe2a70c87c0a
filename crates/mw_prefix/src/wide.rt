ghost use Rattle.std.specs.Prelude.{◌≡◌, ◌^◌, ◌<◌, ◌↔◌, IsTrue, IsErr, IfOk, Ok, not};
ghost use Rattle.mw_prefix.specs.Wide.{IsWide, disp_of, is_unreserved, has_form, pcrel_of, prefix_of, prefix_with, split_of, suffix_of};

/// A prefixed instruction: what its prefix says, and its suffix.
#[derive(Clone, Copy, Debug, PartialEq, Eq)]
pub enum Wide {
    /// The suffix's own instruction, its displacement or immediate widened to 34 bits (MLS).
    Mls {
        /// R=1: the address counts from the prefix's own.
        pcrel: bool,
        /// The displacement's 34 bits, without its sign.
        disp: u64,
        /// The suffix word.
        suffix: u32,
    },
    /// A load or store with a suffix opcode of its own (8LS).
    Eight {
        /// R=1: the address counts from the prefix's own.
        pcrel: bool,
        /// The displacement's 34 bits, without its sign.
        disp: u64,
        /// The suffix word.
        suffix: u32,
    },
    /// The prefixed no-operation, with any suffix.
    Nop {
        /// The suffix word.
        suffix: u32,
    },
}

/// The prefix has none of the three forms.
#[derive(Clone, Copy, Debug, PartialEq, Eq)]
pub struct NotWide;

/// Bits 0 to 8 of an MLS prefix: primary opcode 1, type 2, and a 0.
const MLS: u32 = 0b000001_10_0;

/// Bits 0 to 8 of an 8LS prefix: primary opcode 1, type 0, and a 0.
const EIGHT: u32 = 0b000001_00_0;

/// The prefix of the no-operation.
const NOP: u32 = 0x0700_0000;

/// R of a prefix, bit 11.
fn pcrel_of(prefix: u32) -> bool
    ensures { result ≡ pcrel_of prefix }
{
    prefix / (1 << 20) % 2 == 1
}

/// The displacement of 34 bits of two words.
fn disp_of(prefix: u32, suffix: u32) -> u64
    ensures { result ≡ disp_of prefix suffix }
{
    u64::from(prefix % (1 << 18)) * (1 << 16) + u64::from(suffix % (1 << 16))
}

/// What a prefix and its suffix are; the prefix's reserved bits don't count.
pub fn split(prefix: u32, suffix: u32) -> Result<Wide, NotWide>
    ensures value { result ≡ split_of prefix suffix }
    ensures none { IsErr result ↔ IsTrue (not (has_form prefix)) }
    ensures fits { IfOk result IsWide }
    ensures suffix { IfOk result (λ wide. suffix_of wide ≡ suffix) }
    ensures back { IfOk result (λ wide. IsTrue (is_unreserved prefix) → prefix_of wide ≡ prefix) }
{
    let opening = prefix / (1 << 23);
    let pcrel = pcrel_of(prefix);
    let disp = disp_of(prefix, suffix);
    if opening == MLS {
        Ok(Wide::Mls {
            pcrel,
            disp,
            suffix,
        })
    } else if opening == EIGHT {
        Ok(Wide::Eight {
            pcrel,
            disp,
            suffix,
        })
    } else if prefix == NOP {
        Ok(Wide::Nop { suffix })
    } else {
        Err(NotWide)
    }
}

/// A prefix with these bits 0 to 8, its reserved bits 0.
fn prefix_with(opening: u32, pcrel: bool, disp: u64) -> u32
    requires opening { opening < 2 ^ 9 }
    requires disp { disp < 2 ^ 34 }
    ensures { result ≡ prefix_with opening pcrel disp }
{
    let relative = if pcrel { 1 << 20 } else { 0 };
    opening * (1 << 23) + relative + (disp / (1 << 16)) as u32
}

/// The prefix and the suffix of a prefixed instruction, the prefix's reserved bits 0.
pub fn join(wide: &Wide) -> (u32, u32)
    requires { IsWide wide.now }
    ensures prefix { result.0 ≡ prefix_of wide.now }
    ensures suffix { result.1 ≡ suffix_of wide.now }
    ensures reserved { IsTrue (is_unreserved result.0) }
    ensures back { split_of result.0 result.1 ≡ Ok wide.now }
{
    match wide {
        Wide::Mls {
            pcrel,
            disp,
            suffix,
        } => (prefix_with(MLS, *pcrel, *disp), *suffix),
        Wide::Eight {
            pcrel,
            disp,
            suffix,
        } => (prefix_with(EIGHT, *pcrel, *disp), *suffix),
        Wide::Nop { suffix } => (NOP, *suffix),
    }
}
