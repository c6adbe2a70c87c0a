ghost use Rattle.std.specs.Prelude.{◌≡◌, ◌≤◌};
ghost use Rattle.mw_bits.specs.Fields.{sext_of};
ghost use Rattle.mw_alu.specs.Bits.{valued};

use crate::logic::valued;
use crate::op::AluOut;
use mw_bits::sext;

/// The low bits of this width as a signed number, in 64 bits (Book I, fixed-point logical instructions).
pub fn extended(x: u64, width: u32) -> AluOut
    requires wide { 1 ≤ width }
    requires in_word { width ≤ 64 }
    ensures { result ≡ valued (sext_of x width) }
{
    valued(sext(x, width))
}
