ghost use Rattle.std.specs.Prelude.{◌≡◌, ◌≤◌};
ghost use Rattle.mw_isa.specs.Pages.{is_in_ram, is_ram, pages_from};
ghost use Rattle.mw_isa.specs.Storage.{block_of, first_byte, kind_of, pages_of};

use mw_bus::RAM_SIZE;
use mw_isa::{Kind, MemOp, MemWhat, Page, Pages, Stretch, Stretches};

/// How many bytes a page has.
const PAGE_SIZE: u64 = 4096;

/// The effective address of an access's first byte: that of the aligned block for zeros.
fn first_byte(op: &MemOp) -> u64
    ensures { result ≡ first_byte op.now }
{
    match op.what {
        MemWhat::Zero => op.ea - op.ea % 64,
        MemWhat::Load { .. } => op.ea,
        MemWhat::Store { .. } => op.ea,
        MemWhat::Conditional { .. } => op.ea,
        MemWhat::Clean => op.ea,
        MemWhat::Icbi => op.ea,
    }
}

/// What an access is for.
fn kind_of(what: MemWhat) -> Kind
    ensures { result ≡ kind_of what }
{
    match what {
        MemWhat::Load { .. } => Kind::Load,
        MemWhat::Clean => Kind::Load,
        MemWhat::Icbi => Kind::Load,
        MemWhat::Store { .. } => Kind::Store,
        MemWhat::Conditional { .. } => Kind::Store,
        MemWhat::Zero => Kind::Store,
    }
}

/// The pages of so many bytes from an address on.
fn pages_from(kind: Kind, ea: u64, len: u8) -> Pages
    requires { len ≤ 64 }
    ensures { result ≡ pages_from kind ea len }
{
    let left = PAGE_SIZE - ea % PAGE_SIZE;
    if u64::from(len) <= left {
        Pages {
            first: Page { kind, ea, len },
            second: None,
        }
    } else {
        let front = left as u8;
        Pages {
            first: Page {
                kind,
                ea,
                len: front,
            },
            second: Some(Page {
                kind,
                ea: ea.wrapping_add(left),
                len: len - front,
            }),
        }
    }
}

/// The pages of 4 KiB of an access, at most two, in rising order of its bytes, which go on at 0 behind the
/// last address: each with its kind, the effective address of its first byte there and how many bytes lie
/// there. It can't fail.
pub fn pages_of(op: &MemOp) -> Pages
    requires { op.now.len ≤ 64 }
    ensures { result ≡ pages_of op.now }
{
    pages_from(kind_of(op.what), first_byte(op), op.len)
}

/// Whether a stretch lies in RAM, the 16,777,216 bytes from real address 0 on.
fn is_ram(stretch: &Stretch) -> bool
    ensures { result ≡ is_ram stretch.now }
{
    stretch.at <= RAM_SIZE as u64 - u64::from(stretch.len)
}

/// Whether all bytes of an access lie in RAM. It can't fail.
pub fn is_in_ram(at: &Stretches) -> bool
    ensures { result ≡ is_in_ram at.now }
{
    match at.second {
        None => is_ram(&at.first),
        Some(second) => is_ram(&at.first) && is_ram(&second),
    }
}

/// The number of the real 64-byte block in which an access begins (Book II, reservations). It can't fail.
pub fn block_of(at: &Stretches) -> u64
    ensures { result ≡ block_of at.now }
{
    at.first.at / 64
}
