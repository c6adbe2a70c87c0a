ghost use Rattle.std.specs.Prelude.{◌≡◌, ◌+◌, ◌≤◌};
ghost use Rattle.mw_bus.specs.Memory.{ram_size};
ghost use Rattle.mw_isa.specs.Pages.{span_of, touch_of, touches_of};
ghost use Rattle.mw_isa.specs.Raises.{reached};
ghost use Rattle.mw_isa.specs.Storage.{IsSized, deed_by, store_deed};

use crate::address::{block_of, is_in_ram, pages_of};
use crate::raised::is_unaligned_exclusive;
use crate::registers::is_reserved;
use arrayvec::ArrayVec;
use mw_isa::{Deed, MemOp, MemWhat, Page, Pages, Span, Stretch, Stretches, Touch};

/// A stretch as one of RAM.
fn span_of(stretch: &Stretch) -> Span
    requires { stretch.now.at + stretch.now.len ≤ ram_size }
    ensures { result ≡ span_of stretch.now }
{
    Span {
        at: stretch.at as u32,
        len: u32::from(stretch.len),
    }
}

/// What a store to these stretches does to changed code.
fn store_deed(at: &Stretches) -> Deed
    ensures { result ≡ store_deed at.now }
{
    if !is_in_ram(at) {
        return Deed::Plain;
    }
    let mut spans = ArrayVec::new();
    spans.push(span_of(&at.first));
    if let Some(second) = at.second {
        spans.push(span_of(&second));
    }
    Deed::Store { spans }
}

/// What an access that takes effect does to changed code, a block being reserved or not (Book II, storage
/// synchronization; that the deed of a store is the bytes that it stores is this board's own choice): a store, zeros and a
/// store-conditional that stores have the stretches of RAM that they store to, icbi its block, and anything else, and what
/// isn't in RAM, nothing. It can't fail.
pub fn deed_by(what: MemWhat, at: &Stretches, reserve: Option<u32>) -> Deed
    ensures { result ≡ deed_by what at.now reserve }
{
    match what {
        MemWhat::Store { .. } => store_deed(at),
        MemWhat::Zero => store_deed(at),
        MemWhat::Conditional { .. } => {
            if is_reserved(at, reserve) {
                store_deed(at)
            } else {
                Deed::Plain
            }
        }
        MemWhat::Icbi => {
            if is_in_ram(at) {
                Deed::Icbi {
                    block: block_of(at) as u32,
                }
            } else {
                Deed::Plain
            }
        }
        MemWhat::Load { .. } => Deed::Plain,
        MemWhat::Clean => Deed::Plain,
    }
}

/// An access to a page.
fn touch_of(page: &Page) -> Touch
    ensures { result ≡ touch_of page.now }
{
    Touch {
        kind: page.kind,
        ea: page.ea,
    }
}

/// The accesses to pages, in order.
fn touches_of(pages: &Pages) -> ArrayVec<Touch, 2>
    ensures { result.items ≡ touches_of pages.now }
{
    let mut touches = ArrayVec::new();
    touches.push(touch_of(&pages.first));
    if let Some(second) = pages.second {
        touches.push(touch_of(&second));
    }
    touches
}

/// The accesses to pages that an access comes to, in order of its bytes: each page that it has, and none where it is an
/// exclusive one that isn't aligned, whose pages aren't looked at. It can't fail.
pub fn reached(op: &MemOp) -> ArrayVec<Touch, 2>
    requires { IsSized op.now }
    ensures { result.items ≡ reached op.now }
{
    if is_unaligned_exclusive(op) {
        ArrayVec::new()
    } else {
        touches_of(&pages_of(op))
    }
}
