ghost use Rattle.std.specs.Prelude.{◌≡◌, ◌<◌, ◌^◌};
ghost use Rattle.mw_isa.specs.Pages.{real_of};

/// The real address of an effective one while addresses of its kind aren't translated: its low 60 bits (Book III, real
/// addressing). It can't fail.
pub fn real_of(effective: u64) -> u64
    ensures value { result ≡ real_of effective }
    ensures bound { result < 2 ^ 60 }
{
    effective % 0x1000_0000_0000_0000
}
