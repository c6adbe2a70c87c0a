ghost use Rattle.std.specs.Prelude.{◌≡◌, ◌<◌, ◌==◌, not, bit_and, IfSome};
ghost use Rattle.mw_isa.specs.Slots.{IsSlot, bits_with, slot_number};

use crate::slot::Slot;

/// A set of registers and fields of the condition register, by a bit for each of the 44.
#[derive(Clone, Copy, Debug, PartialEq, Eq)]
pub struct SlotSet {
    /// Bits 0 to 31 for the general purpose registers, 32 to 39 for the fields, then XER, LR, CTR and TAR;
    /// bit 0 is the least significant.
    pub bits: u64,
}

/// The number of a register's bit.
fn slot_number(slot: Slot) -> u8
    requires { IsSlot slot }
    ensures value { result ≡ slot_number slot }
    ensures bound { result < 44 }
{
    match slot {
        Slot::Gpr(n) => n,
        Slot::CrField(n) => 32 + n,
        Slot::Xer => 40,
        Slot::Lr => 41,
        Slot::Ctr => 42,
        Slot::Tar => 43,
    }
}

impl SlotSet {
    /// The set without a register.
    pub const NONE: SlotSet = SlotSet { bits: 0 };

    /// The set with one more register, if there is one.
    pub fn with(self, slot: Option<Slot>) -> SlotSet
        requires { IfSome slot IsSlot }
        ensures { result.bits ≡ bits_with slot self.bits }
    {
        match slot {
            None => self,
            Some(slot) => SlotSet {
                bits: 1 << slot_number(slot) | self.bits,
            },
        }
    }

    /// Whether a register is in both sets. Where this is false no register is in both lists whose bits
    /// these are.
    pub fn meets(self, other: SlotSet) -> bool
        ensures { result ≡ not (bit_and self.bits other.bits == 0) }
    {
        self.bits & other.bits != 0
    }
}
