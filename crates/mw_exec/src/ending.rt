ghost use Rattle.std.specs.Prelude.{◌≡◌, ◌+◌, ◌++◌, ◌<◌, ◌≤◌, IfSome, [], length};
ghost use Rattle.mw_isa.specs.Execute.{ended, field_target, result_at, xer_target};
ghost use Rattle.mw_isa.specs.Places.{HasRegisters, IsRegister};
ghost use Rattle.mw_isa.specs.Reads.{register_at};
ghost use Rattle.mw_isa.specs.Xer.{bits_after, result_field, sign_field, with_carries, with_overflows, with_summary};

use arrayvec::ArrayVec;
use mw_alu::AluOut;
use mw_decode::Insn;
use mw_isa::{
    Ending, Places, Slot, Target, XerBits, register, sets_carries, writes_field, writes_overflows,
    writes_xer, xer_bits, xer_of,
};

/// The bits with the carries of a result, where they are written.
fn with_carries(written: bool, out: AluOut, bits: XerBits) -> XerBits
    ensures { result ≡ with_carries written out bits }
{
    if written {
        XerBits {
            ca: out.ca,
            ca32: out.ca32,
            ..bits
        }
    } else {
        bits
    }
}

/// The bits with the overflows of a result, where they are written.
pub fn with_overflows(written: bool, out: AluOut, bits: XerBits) -> XerBits
    ensures { result ≡ with_overflows written out bits }
{
    if written {
        XerBits {
            ov: out.ov,
            ov32: out.ov32,
            ..bits
        }
    } else {
        bits
    }
}

/// The bits with SO set where OE is asked and there is an overflow.
pub fn with_summary(oe: bool, out: AluOut, bits: XerBits) -> XerBits
    ensures { result ≡ with_summary oe out bits }
{
    XerBits {
        so: bits.so || (oe && out.ov),
        ..bits
    }
}

/// The bits of XER as they stand after an instruction.
fn bits_after(ending: Ending, insn: &Insn, out: AluOut, bits: XerBits) -> XerBits
    ensures { result ≡ bits_after ending insn.now out bits }
{
    let carried = with_carries(sets_carries(ending), out, bits);
    let overflowed = with_overflows(writes_overflows(ending, insn), out, carried);
    with_summary(insn.oe, out, overflowed)
}

/// LT, GT or EQ of a signed number and 0, as the value of a field of CR.
fn sign_field(z: i64) -> u64
    ensures value { result ≡ sign_field z }
    ensures bound { result < 16 }
{
    if z < 0 {
        8
    } else if 0 < z {
        4
    } else {
        2
    }
}

/// What CR field 0 gets of a result: its sign in 64 bits, and SO.
fn result_field(value: u64, so: bool) -> u64
    ensures { result ≡ result_field value so }
{
    sign_field(value.cast_signed()) + u64::from(so)
}

/// Adds the register at a place, with the result.
pub fn push_result(targets: &mut ArrayVec<Target, 8>, place: Option<u8>, insn: &Insn, value: u64)
    requires place { IfSome place (IsRegister insn.now) }
    requires room { length targets.old.items < 8 }
    ensures items { targets.new.items ≡ targets.old.items ++ result_at (register_at insn.now place) value }
    ensures few { length targets.new.items ≤ length targets.old.items + 1 }
{
    if let Some(at) = place {
        targets.push(Target {
            slot: Slot::Gpr(register(insn, at)),
            value: Some(value),
        });
    }
}

/// Adds XER with its bits, where it is written.
pub fn push_xer(targets: &mut ArrayVec<Target, 8>, written: bool, bits: XerBits)
    requires { length targets.old.items < 8 }
    ensures items { targets.new.items ≡ targets.old.items ++ xer_target written bits }
    ensures few { length targets.new.items ≤ length targets.old.items + 1 }
{
    if written {
        targets.push(Target {
            slot: Slot::Xer,
            value: Some(xer_of(bits)),
        });
    }
}

/// Adds CR field 0 with the sign of a result and SO, where it is written.
pub fn push_field(targets: &mut ArrayVec<Target, 8>, written: bool, value: u64, so: bool)
    requires { length targets.old.items < 8 }
    ensures { targets.new.items ≡ targets.old.items ++ field_target written value so }
{
    if written {
        targets.push(Target {
            slot: Slot::CrField(0),
            value: Some(result_field(value, so)),
        });
    }
}

/// What is written at the end of an arithmetic row, in order: the result, XER and CR field 0, with the bits
/// of XER as they stand after the instruction. It is put into `targets`, which has to be empty.
pub fn ended(
    ending: Ending,
    places: Places,
    insn: &Insn,
    out: AluOut,
    xer: u64,
    targets: &mut ArrayVec<Target, 8>,
)
    requires registers { HasRegisters insn.now places }
    requires empty { targets.old.items ≡ [] }
    ensures { targets.new.items ≡ ended ending places insn.now out xer }
{
    push_result(targets, places.written, insn, out.value);
    let before = xer_bits(xer);
    let after = bits_after(ending, insn, out, before);
    push_xer(targets, writes_xer(ending, insn), after);
    push_field(targets, writes_field(ending, insn), out.value, after.so);
}
