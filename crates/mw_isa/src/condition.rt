ghost use Rattle.std.specs.Prelude.{◌≡◌, ◌≤◌, ◌<◌};
ghost use Rattle.mw_isa.specs.Branches.{bo_bit, falls};
ghost use Rattle.mw_isa.specs.Condition.{field_mask, is_chosen};

/// The mask that chooses one field of the condition register, by its number.
pub fn field_mask(number: u8) -> u8
    requires { number < 8 }
    ensures { result ≡ field_mask number }
{
    128 >> number
}

/// Whether a mask chooses a field of the condition register.
pub fn is_chosen(mask: u8, number: u8) -> bool
    requires { number < 8 }
    ensures { result ≡ is_chosen mask number }
{
    (mask >> (7 - number)) % 2 == 1
}

/// A bit of BO, counted from the left of five.
pub fn bo_bit(bo: u8, number: u8) -> bool
    requires { number ≤ 4 }
    ensures { result ≡ bo_bit bo number }
{
    (bo >> (4 - number)) % 2 == 1
}

/// Whether a branch on BO lets CTR fall by 1 (Book I, branch instructions).
pub fn falls(bo: u8) -> bool
    ensures { result ≡ falls bo }
{
    !bo_bit(bo, 2)
}
