ghost use Rattle.std.specs.Prelude.{◌≡◌, ◌≤◌, IfSome, [], ◌∷◌};
ghost use Rattle.mw_isa.specs.Raises.{access_raises, first_raised, pages_raise, place_raises};
ghost use Rattle.mw_isa.specs.Storage.{IsSized, is_aligned, is_exclusive, is_misplaced, is_unaligned_exclusive, needs_ram};
ghost use Rattle.mw_isa.specs.Take.{IsUnmarked};

use crate::address::is_in_ram;
use mw_isa::{
    MemOp, MemWhat, Outcome, PageFault, Raised, Stretches, fault_raises, misaligned, raising,
};

/// Whether the address of an access is a multiple of its length.
fn is_aligned(op: &MemOp) -> bool
    requires { 1 ≤ op.now.len }
    ensures { result ≡ is_aligned op.now }
{
    op.ea % u64::from(op.len) == 0
}

/// Whether an access reserves its block, or stores where it is reserved.
fn is_exclusive(what: MemWhat) -> bool
    ensures { result ≡ is_exclusive what }
{
    match what {
        MemWhat::Load { reserve, .. } => reserve,
        MemWhat::Conditional { .. } => true,
        MemWhat::Store { .. } => false,
        MemWhat::Zero => false,
        MemWhat::Clean => false,
        MemWhat::Icbi => false,
    }
}

/// Whether an access isn't allowed outside RAM.
fn needs_ram(what: MemWhat) -> bool
    ensures { result ≡ needs_ram what }
{
    match what {
        MemWhat::Zero => true,
        MemWhat::Load { reserve, .. } => reserve,
        MemWhat::Conditional { .. } => true,
        MemWhat::Store { .. } => false,
        MemWhat::Clean => false,
        MemWhat::Icbi => false,
    }
}

/// Whether an access is an exclusive one that isn't aligned.
pub fn is_unaligned_exclusive(op: &MemOp) -> bool
    requires { 1 ≤ op.now.len }
    ensures { result ≡ is_unaligned_exclusive op.now }
{
    is_exclusive(op.what) && !is_aligned(op)
}

/// Whether an access has a byte outside RAM, and isn't aligned or needs RAM.
fn is_misplaced(op: &MemOp, at: &Stretches) -> bool
    requires { 1 ≤ op.now.len }
    ensures { result ≡ is_misplaced op.now at.now }
{
    !is_in_ram(at) && (!is_aligned(op) || needs_ram(op.what))
}

/// The interrupt of an access by its pages: that of a page's fault, or else the alignment interrupt of one that is
/// misplaced.
fn stands_raise(op: &MemOp, placed: &Result<Stretches, PageFault>) -> Option<Raised>
    requires { 1 ≤ op.now.len }
    ensures value { result ≡ first_raised (pages_raise placed.now ∷ place_raises op.now placed.now ∷ []) }
    ensures cause { IfSome result (λ raised. IsUnmarked raised.cause) }
{
    match placed {
        Err(wrong) => Some(fault_raises(wrong.fault, wrong.page.kind, wrong.page.ea)),
        Ok(at) => {
            if is_misplaced(op, at) {
                Some(misaligned(op.ea))
            } else {
                None
            }
        }
    }
}

/// The interrupt that an access raises where it stands, if it does: an exclusive one that isn't aligned an
/// alignment interrupt, before its pages are looked at, then the fault of a page, and then one that is misplaced
/// (Book III, data storage, data segment and alignment interrupts; which accesses have to be aligned is this board's own choice). It can't fail.
pub fn access_raises(op: &MemOp, placed: &Result<Stretches, PageFault>) -> Option<Raised>
    requires { IsSized op.now }
    ensures value { result ≡ access_raises op.now placed.now }
    ensures cause { IfSome result (λ raised. IsUnmarked raised.cause) }
{
    if is_unaligned_exclusive(op) {
        Some(misaligned(op.ea))
    } else {
        stands_raise(op, placed)
    }
}
