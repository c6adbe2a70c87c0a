/// A register, or a field of the condition register, that an instruction reads or writes.
#[derive(Clone, Copy, Debug, PartialEq, Eq)]
pub enum Slot {
    /// A general purpose register, by its number, 0 to 31.
    Gpr(u8),
    /// A field of the condition register, by its number, 0 to 7: four bits, of which 0 is the leftmost.
    CrField(u8),
    /// The fixed-point exception register.
    Xer,
    /// The link register.
    Lr,
    /// The count register.
    Ctr,
    /// The target address register.
    Tar,
}

impl Default for Slot {
    ghost use Rattle.std.specs.Prelude.{◌≡◌};
    ghost use Rattle.mw_isa.specs.declared.slot.Slot.TheVariants.{Gpr};

    ghost is_default = { λ slot. slot ≡ Gpr 0 };

    fn default() -> Slot {
        Slot::Gpr(0)
    }
}
