ghost use Rattle.std.specs.Prelude.{◌≡◌, [], ◌+◌, ◌≤◌, ◌∷◌, ◌++◌, length, codes, IfSome, OnOk};
ghost use Rattle.std.specs.List.{flat_map};
ghost use Rattle.mw_bus.specs.Memory.{ram_size};
ghost use Rattle.mw_digits.specs.Digits.{hex};
ghost use Rattle.mw_isa.specs.Text.{hex_bytes, line, dump_words, asked_words};

use crate::words::{add_hex, add_hex_bytes};
use mw_bits::Bytes;
use mw_bus::Ram;
use mw_isa::Span;
use std::alloc::AllocError as NoMemory;

/// How many bytes of a dump stand on a line.
const ROW: u32 = 32;

/// Appends a line of a dump: an address and the bytes from it on.
#[tactic(auto, unfolding(mw_isa::specs::Text::line))]
fn add_row(text: &mut Bytes, at: u64, bytes: &[u8]) -> Result<(), NoMemory>
    requires { length bytes.now ≤ 32 }
    ensures { OnOk result
        (text.new ≡ text.old ++ line (codes "m" ∷ hex 16 at ∷ hex_bytes bytes.now ∷ [])) }
{
    text.add(b"m")?;
    add_hex(text, 16, at)?;
    add_hex_bytes(text, bytes)?;
    text.add(b"\n")
}

/// Appends the lines of a dump of RAM.
fn add_rows(text: &mut Bytes, ram: &Ram, span: Span) -> Result<(), NoMemory>
    requires { span.at + span.len ≤ ram_size }
    ensures { OnOk result (text.new ≡ text.old ++ flat_map line (dump_words ram.now span)) }
{
    for row in 0..(span.len + (ROW - 1)) / ROW {
        let at = span.at + ROW * row;
        let len = ROW.min(span.len - ROW * row);
        add_row(text, u64::from(at), ram.slice(at as usize, len as usize))?;
    }
    Ok(())
}

/// Appends the lines of the dump of RAM, if one is asked for.
pub fn add_dump(text: &mut Bytes, ram: &Ram, dump: Option<Span>) -> Result<(), NoMemory>
    requires { IfSome dump (λ span. span.at + span.len ≤ ram_size) }
    ensures { OnOk result (text.new ≡ text.old ++ flat_map line (asked_words ram.now dump)) }
{
    match dump {
        Some(span) => add_rows(text, ram, span),
        None => Ok(()),
    }
}
