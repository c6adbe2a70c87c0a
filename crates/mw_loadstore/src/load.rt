ghost use Rattle.std.specs.Prelude.{◌≡◌, ◌≤◌, length, take};
ghost use Rattle.mw_bus.specs.Memory.{number_of};
ghost use Rattle.mw_isa.specs.Storage.{IsSized, extended, loaded_number};

use mw_bits::sext;
use mw_bus::number;
use mw_isa::{MemOp, MemWhat};

/// A number of so many bytes, extended to 64 bits with its sign or with zeros.
fn extended(signed: bool, len: u8, number: u64) -> u64
    requires some { 1 ≤ len }
    requires few { len ≤ 8 }
    ensures { result ≡ extended signed len number }
{
    if signed {
        sext(number, 8 * u32::from(len))
    } else {
        number
    }
}

/// The number that a load gives, from its bytes in the order of storage, which stand in front: in the
/// access's own byte order, extended to 64 bits with its sign or with zeros (Book I, fixed-point load
/// instructions). Of any other access it is 0. It can't fail.
pub fn loaded_number(op: &MemOp, bytes: &[u8; 8]) -> u64
    requires { IsSized op.now }
    ensures { result ≡ loaded_number op.now.what op.now.len (take op.now.len bytes.now) }
{
    match op.what {
        MemWhat::Load {
            signed,
            reversed,
            ..
        } => extended(
            signed,
            op.len,
            number(reversed, &bytes[..usize::from(op.len)]),
        ),
        MemWhat::Store { .. } => 0,
        MemWhat::Conditional { .. } => 0,
        MemWhat::Zero => 0,
        MemWhat::Clean => 0,
        MemWhat::Icbi => 0,
    }
}
