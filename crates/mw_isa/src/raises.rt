ghost use Rattle.std.specs.Prelude.{◌≡◌, ◌<◌, IfSome, Some};
ghost use Rattle.mw_isa.specs.Raises.{cut_raised, decoded_raises, misaligned, raising, unavailable};
ghost use Rattle.mw_isa.specs.Step.{marked};
ghost use Rattle.mw_isa.specs.Take.{IsCause, IsUnmarked};
ghost use Rattle.mw_isa.specs.Words.{alignment_address, alignment_sources};

use crate::fetched::Fetched;
use crate::msr::{CROSSING, ILLEGAL, PREFIXED, bit_at};
use crate::raised::Raised;
use crate::reading::{SlotView, held};
use crate::slot::Slot;
use crate::sources::Sources;
use crate::vector::Vector;
use mw_decode::{Decoded, Facility, is_prefix};

/// An interrupt that leaves DAR and DSISR. It can't fail.
pub fn raising(vector: Vector, cause: u64) -> Raised
    ensures { result ≡ raising vector cause }
{
    Raised {
        vector,
        cause,
        dar: None,
        dsisr: None,
    }
}

/// The alignment interrupt of an access at the effective address `ea`, which DAR gets (Book III, alignment
/// interrupt). It can't fail.
pub fn misaligned(ea: u64) -> Raised
    ensures value { result ≡ misaligned ea }
    ensures cause { IsUnmarked result.cause }
{
    Raised {
        vector: Vector::Alignment,
        cause: 0,
        dar: Some(ea),
        dsisr: None,
    }
}

/// The interrupt of a prefix that ends its block of 64 bytes (Book I, prefixed instructions; Book III,
/// alignment interrupt). It can't fail.
pub fn cut_raised() -> Raised
    ensures value { result ≡ cut_raised }
    ensures cause { IsUnmarked result.cause }
{
    raising(Vector::Alignment, bit_at(CROSSING))
}

/// The vector of a facility that isn't there.
fn unavailable(facility: Facility) -> Vector
    ensures { result ≡ unavailable facility }
{
    match facility {
        Facility::Fp => Vector::FpUnavailable,
        Facility::Vector => Vector::VectorUnavailable,
        Facility::Vsx => Vector::VsxUnavailable,
    }
}

/// The registers that a move of several words or of a string reads.
fn alignment_sources(ra: u8, rb: Option<u8>) -> Sources
    ensures { result ≡ alignment_sources ra rb }
{
    Sources {
        a: if ra == 0 { None } else { Some(Slot::Gpr(ra)) },
        b: match rb {
            None => None,
            Some(rb) => Some(Slot::Gpr(rb)),
        },
        c: None,
    }
}

/// The address of a move of several words or of a string, where registers are seen so. It wraps at 2^64.
fn alignment_address<V: SlotView>(ra: u8, rb: Option<u8>, disp: i64, view: &V) -> u64
    ensures { result ≡ alignment_address ra rb disp (V.view view.now) }
{
    let sources = alignment_sources(ra, rb);
    held(view, sources.a)
        .wrapping_add(held(view, sources.b))
        .wrapping_add(disp.cast_unsigned())
}

/// The interrupt that words raise by what they are, where registers are seen so: none if they are an
/// instruction (Book III, program, unavailable and alignment interrupts). It can't fail.
pub fn decoded_raises<V: SlotView>(decoded: &Decoded, view: &V) -> Option<Raised>
    ensures value { result ≡ decoded_raises decoded.now (V.view view.now) }
    ensures cause { IfSome result (λ raised. IsUnmarked raised.cause) }
{
    match decoded {
        Decoded::Insn(_) => None,
        Decoded::Unavailable(facility) => Some(raising(unavailable(*facility), 0)),
        Decoded::Alignment { ra, rb, disp } => {
            Some(misaligned(alignment_address(*ra, *rb, *disp, view)))
        }
        Decoded::Illegal => Some(raising(Vector::Program, bit_at(ILLEGAL))),
    }
}

/// The interrupt with the bit of SRR1 that tells of a prefix, where the words that were fetched have one. It
/// can't fail.
pub fn marked(words: &Fetched, raised: Raised) -> Raised
    requires { IsUnmarked raised.cause }
    ensures value { result ≡ marked (Some words.now) raised }
    ensures cause { IsCause result.cause }
{
    if is_prefix(words.word) {
        Raised {
            cause: raised.cause + bit_at(PREFIXED),
            ..raised
        }
    } else {
        raised
    }
}
