ghost use Rattle.std.specs.Prelude.{◌≡◌, IfSome};
ghost use Rattle.mw_isa.specs.Endings.{long_reads_xer, reads_xer, sets_carries, sets_field, sets_overflows, slot_if, takes_carry, writes_field, writes_overflows, writes_xer};
ghost use Rattle.mw_isa.specs.Slots.{IsSlot};

use crate::operation::{AluRow, Carry, Ending};
use crate::slot::Slot;
use mw_decode::Insn;

/// Whether an ending writes CA and CA32.
pub fn sets_carries(ending: Ending) -> bool
    ensures { result ≡ sets_carries ending }
{
    match ending {
        Ending::Plain => false,
        Ending::Carries => true,
        Ending::Records => false,
        Ending::CarriesAndRecords => true,
        Ending::Overflows => false,
    }
}

/// Whether an ending writes OV and OV32 where OE isn't asked.
fn sets_overflows(ending: Ending) -> bool
    ensures { result ≡ sets_overflows ending }
{
    match ending {
        Ending::Plain => false,
        Ending::Carries => false,
        Ending::Records => false,
        Ending::CarriesAndRecords => false,
        Ending::Overflows => true,
    }
}

/// Whether an ending writes CR field 0 where Rc isn't asked.
fn sets_field(ending: Ending) -> bool
    ensures { result ≡ sets_field ending }
{
    match ending {
        Ending::Plain => false,
        Ending::Carries => false,
        Ending::Records => true,
        Ending::CarriesAndRecords => true,
        Ending::Overflows => false,
    }
}

/// Whether OV and OV32 are written.
pub fn writes_overflows(ending: Ending, insn: &Insn) -> bool
    ensures { result ≡ writes_overflows ending insn.now }
{
    insn.oe || sets_overflows(ending)
}

/// Whether XER is written.
pub fn writes_xer(ending: Ending, insn: &Insn) -> bool
    ensures { result ≡ writes_xer ending insn.now }
{
    writes_overflows(ending, insn) || sets_carries(ending)
}

/// Whether CR field 0 is written.
pub fn writes_field(ending: Ending, insn: &Insn) -> bool
    ensures { result ≡ writes_field ending insn.now }
{
    insn.rc || sets_field(ending)
}

/// Whether the carry that the unit takes stands in XER.
fn takes_carry(carry: Carry) -> bool
    ensures { result ≡ takes_carry carry }
{
    match carry {
        Carry::NoCarry => false,
        Carry::Ca => true,
        Carry::Ov => true,
    }
}

/// Whether XER is read: for the carry, for what is kept of it where a part is written, or for SO.
pub fn reads_xer(row: AluRow, insn: &Insn) -> bool
    ensures { result ≡ reads_xer row insn.now }
{
    takes_carry(row.carry) || (writes_xer(row.ending, insn) || writes_field(row.ending, insn))
}

/// Whether XER is read by a product or a quotient: for what is kept of it, or for SO.
pub fn long_reads_xer(insn: &Insn) -> bool
    ensures { result ≡ long_reads_xer insn.now }
{
    insn.oe || insn.rc
}

/// A register, where it is asked.
pub fn slot_if(asked: bool, slot: Slot) -> Option<Slot>
    requires { IsSlot slot }
    ensures value { result ≡ slot_if asked slot }
    ensures there { IfSome result IsSlot }
{
    if asked { Some(slot) } else { None }
}
