ghost use Rattle.std.specs.Prelude.{◌≡◌, IfSome};
ghost use Rattle.mw_isa.specs.Step.{OnTrap, end_raises};
ghost use Rattle.mw_isa.specs.Storage.{IsSized, OnMemory};
ghost use Rattle.mw_isa.specs.Take.{IsUnmarked};

use mw_isa::{Outcome, PageFault, Raised, Stretches, raising};
use mw_loadstore::access_raises;
use mw_sprs::system_raises;

/// The interrupt that an outcome raises under MSR, if it does: by itself, by the number of a register, or by
/// its access where it stands.
pub fn end_raises(
    outcome: &Outcome,
    placed: &Option<Result<Stretches, PageFault>>,
    msr: u64,
) -> Option<Raised>
    requires sized { OnMemory IsSized outcome.now }
    requires cause { OnTrap IsUnmarked outcome.now }
    ensures value { result ≡ end_raises outcome.now placed.now msr }
    ensures cause { IfSome result (λ raised. IsUnmarked raised.cause) }
{
    match outcome {
        Outcome::Done { .. } => None,
        Outcome::Long(_) => None,
        Outcome::Trap { vector, cause } => Some(raising(*vector, *cause)),
        Outcome::System(op) => system_raises(op, msr),
        Outcome::Memory(op) => match placed {
            None => None,
            Some(placed) => access_raises(op, placed),
        },
    }
}
