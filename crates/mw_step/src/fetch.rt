ghost use Rattle.std.specs.Prelude.{◌≡◌, ◌<◌, ◌^◌, IfOk, false, is_some};
ghost use Rattle.mw_decode.specs.Decode.{is_prefix};
ghost use Rattle.mw_isa.specs.Fetch.{fetch_at, fetched_at, has_room, is_cut, suffix_at};

use crate::place::page_real;
use mw_bus::Ram;
use mw_decode::is_prefix;
use mw_isa::{Fetched, Kind, Page, Regs, StorageFault};

/// The real address of the word at the registers' address, by the tables in RAM, or what is wrong with its page.
pub fn fetch_at(ram: &Ram, regs: &Regs) -> Result<u64, StorageFault>
    ensures value { result ≡ fetch_at ram.now regs.now }
    ensures bound { IfOk result (λ at. at < 2 ^ 60) }
{
    page_real(
        ram,
        regs,
        &Page {
            kind: Kind::Fetch,
            ea: regs.cia,
            len: 4,
        },
    )
}

/// Whether the block of 64 bytes that a word stands in has the word behind it too.
fn has_room(real: u64) -> bool
    ensures { result ≡ has_room real }
{
    real % 64 + 8 <= 64
}

/// The suffix of a word at a real address, where that is a prefix and doesn't end its block.
fn suffix_at(ram: &Ram, real: u64, word: u32) -> Option<u32>
    requires { real < 2 ^ 60 }
    ensures { result ≡ suffix_at ram.now real word }
{
    if is_prefix(word) && has_room(real) {
        Some(ram.word(real + 4))
    } else {
        None
    }
}

/// What is fetched at a real address.
#[tactic(auto, unfolding(mw_isa::specs::Fetch::fetched_at))]
pub fn fetched_at(ram: &Ram, real: u64) -> Fetched
    requires { real < 2 ^ 60 }
    ensures value { result ≡ fetched_at ram.now real }
    ensures whole { is_cut result ≡ false → is_some result.suffix ≡ is_prefix result.word }
{
    let word = ram.word(real);
    Fetched {
        word,
        suffix: suffix_at(ram, real, word),
    }
}
