ghost use Rattle.std.specs.Prelude.{◌≡◌};
ghost use Rattle.mw_isa.specs.Execute.{is_privileged, is_refused, refusal};
ghost use Rattle.mw_isa.specs.Step.{OnTrap};
ghost use Rattle.mw_isa.specs.Take.{IsUnmarked};

use mw_decode::Insn;
use mw_isa::{Outcome, PR, PRIVILEGED, Privilege, Vector, bit_at, has_bit, operand_of};

/// Whether an instruction is privileged.
fn is_privileged(privilege: Privilege, insn: &Insn) -> bool
    ensures { result ≡ is_privileged privilege insn.now }
{
    match privilege {
        Privilege::Never => false,
        Privilege::Always => true,
        Privilege::Heavy => operand_of(insn, 0) == 2,
    }
}

/// Whether an instruction is refused under MSR: it is privileged, and the machine in problem state.
pub fn is_refused(privilege: Privilege, insn: &Insn, msr: u64) -> bool
    ensures { result ≡ is_refused privilege insn.now msr }
{
    is_privileged(privilege, insn) && has_bit(msr, PR)
}

/// The interrupt of a privileged instruction in problem state (Book III, program interrupt).
pub fn refusal() -> Outcome
    ensures value { result ≡ refusal }
    ensures cause { OnTrap IsUnmarked result }
{
    Outcome::Trap {
        vector: Vector::Program,
        cause: bit_at(PRIVILEGED),
    }
}
