ghost use Rattle.std.specs.Prelude.{◌≡◌, ℕ, IfSome};
ghost use Rattle.mw_decode.specs.Decode.{IsInsn};
ghost use Rattle.mw_isa.specs.declared.slot.Slot.{Slot};
ghost use Rattle.mw_isa.specs.Places.{HasRegisters, IsRegister};
ghost use Rattle.mw_isa.specs.Reads.{base_at, chosen_digits, first_source, held, operands_by, operands_in, part_if, reads_of, register_at, sources_at};
ghost use Rattle.mw_isa.specs.Slots.{IsSlot, bits_of, bits_upon, get_slot};
ghost use Rattle.mw_isa.specs.Special.{fields_in, special_slots};

use crate::condition::is_chosen;
use crate::ending::slot_if;
use crate::operation::operation_at;
use crate::outcome::Operands;
use crate::place::Places;
use crate::placing::{operand_of, places_of, register};
use crate::regs::Regs;
use crate::slot::Slot;
use crate::slot_set::SlotSet;
use crate::slots::get_slot;
use crate::sources::{Sources, Special};
use crate::special::special_of;
use mw_decode::Insn;

/// Where the contents of registers come from: the registers themselves, or what older instructions that
/// are still under way leave in them.
pub trait SlotView {
    ghost view: { Self → Slot → ℕ };

    /// What a register is seen to hold; of a field of the condition register its four bits.
    fn slot(&self, slot: Slot) -> u64
        ensures { result ≡ view self.now slot };
}

impl SlotView for Regs {
    ghost view = { get_slot };

    fn slot(&self, slot: Slot) -> u64 {
        get_slot(self, slot)
    }
}

/// The register at a place, if there is one.
pub fn register_at(insn: &Insn, place: Option<u8>) -> Option<Slot>
    requires { IfSome place (IsRegister insn.now) }
    ensures value { result ≡ register_at insn.now place }
    ensures there { IfSome result IsSlot }
{
    match place {
        None => None,
        Some(at) => Some(Slot::Gpr(register(insn, at))),
    }
}

/// The register at a place, but register 0 (RA|0).
fn base_at(insn: &Insn, place: Option<u8>) -> Option<Slot>
    requires { IfSome place (IsRegister insn.now) }
    ensures value { result ≡ base_at insn.now place }
    ensures there { IfSome result IsSlot }
{
    match place {
        None => None,
        Some(at) => {
            if operand_of(insn, at) == 0 {
                None
            } else {
                Some(Slot::Gpr(register(insn, at)))
            }
        }
    }
}

/// The register that is read as a.
fn first_source(insn: &Insn, first: Option<u8>, base: Option<u8>) -> Option<Slot>
    requires first { IfSome first (IsRegister insn.now) }
    requires base { IfSome base (IsRegister insn.now) }
    ensures value { result ≡ first_source insn.now first base }
    ensures there { IfSome result IsSlot }
{
    match first {
        None => base_at(insn, base),
        Some(at) => Some(Slot::Gpr(register(insn, at))),
    }
}

/// The registers among the operands that are read.
fn sources_at(insn: &Insn, places: Places) -> Sources
    requires { HasRegisters insn.now places }
    ensures value { result ≡ sources_at places insn.now }
    ensures a { IfSome result.a IsSlot }
    ensures b { IfSome result.b IsSlot }
    ensures c { IfSome result.c IsSlot }
{
    Sources {
        a: first_source(insn, places.first, places.base),
        b: register_at(insn, places.second),
        c: register_at(insn, places.third),
    }
}

/// What a register is seen to hold, or 0 where none is read.
pub fn held<V: SlotView>(view: &V, slot: Option<Slot>) -> u64
    ensures { result ≡ held (V.view view.now) slot }
{
    match slot {
        None => 0,
        Some(slot) => view.slot(slot),
    }
}

/// What a register is seen to hold, or 0 where it isn't read.
fn part_if<V: SlotView>(asked: bool, view: &V, slot: Slot) -> u64
    ensures { result ≡ part_if asked (V.view view.now) slot }
{
    if asked { view.slot(slot) } else { 0 }
}

/// The fields of the condition register that a mask chooses, as they are seen, and 0 for the others.
fn chosen_digits<V: SlotView>(view: &V, mask: u8) -> u32
    ensures { result ≡ chosen_digits (V.view view.now) mask 8 }
{
    let mut cr = 0;
    for number in 0..8u8 {
        let digit = part_if(is_chosen(mask, number), view, Slot::CrField(number)) % 16;
        cr = cr * 16 + digit as u32;
    }
    cr
}

/// The fields of the condition register that a mask chooses, without a look where it chooses none.
fn seen_fields<V: SlotView>(view: &V, mask: u8) -> u32
    ensures { result ≡ chosen_digits (V.view view.now) mask 8 }
{
    if mask == 0 {
        0
    } else {
        chosen_digits(view, mask)
    }
}

/// The operands that are made of these registers, as they are seen.
fn operands_by<V: SlotView>(sources: Sources, special: Special, view: &V, msr: u64) -> Operands
    ensures { result ≡ operands_by sources special (V.view view.now) msr }
{
    Operands {
        a: held(view, sources.a),
        b: held(view, sources.b),
        c: held(view, sources.c),
        cr: seen_fields(view, special.fields),
        xer: part_if(special.xer, view, Slot::Xer),
        lr: part_if(special.lr, view, Slot::Lr),
        ctr: part_if(special.ctr, view, Slot::Ctr),
        tar: part_if(special.tar, view, Slot::Tar),
        msr,
    }
}

/// The operands of an instruction, where registers are seen so and `msr` is the machine state register: the
/// content of each register that it reads, and 0 in every part that it doesn't read. It can't fail.
#[tactic(auto, unfolding(crate::specs::Reads::operands_in))]
pub fn operands<V: SlotView>(insn: &Insn, view: &V, msr: u64) -> Operands
    requires { IsInsn insn.now }
    ensures { result ≡ operands_in insn.now (V.view view.now) msr }
{
    let operation = operation_at(insn.row);
    operands_by(
        sources_at(insn, places_of(operation)),
        special_of(operation, insn),
        view,
        msr,
    )
}

/// A set with the fields of the condition register that a mask chooses.
pub fn with_fields(mask: u8, set: SlotSet) -> SlotSet
    ensures { result.bits ≡ bits_upon (fields_in mask 8) set.bits }
{
    let mut set = set;
    let mut number = 8;
    while number > 0 {
        number -= 1;
        set = set.with(slot_if(is_chosen(mask, number), Slot::CrField(number)));
    }
    set
}

/// The registers that are read beside the operands, as a set.
fn special_set(special: Special) -> SlotSet
    ensures { result.bits ≡ bits_of (special_slots special) }
{
    let named = SlotSet::NONE
        .with(slot_if(special.tar, Slot::Tar))
        .with(slot_if(special.ctr, Slot::Ctr))
        .with(slot_if(special.lr, Slot::Lr))
        .with(slot_if(special.xer, Slot::Xer));
    with_fields(special.fields, named)
}

/// The registers that an instruction reads, as a set, known from the instruction alone. It can't fail.
pub fn reads(insn: &Insn) -> SlotSet
    requires { IsInsn insn.now }
    ensures { result.bits ≡ bits_of (reads_of insn.now) }
{
    let operation = operation_at(insn.row);
    let sources = sources_at(insn, places_of(operation));
    special_set(special_of(operation, insn))
        .with(sources.c)
        .with(sources.b)
        .with(sources.a)
}
