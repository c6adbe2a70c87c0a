ghost use Rattle.std.specs.Prelude.{◌≡◌};
ghost use Rattle.mw_isa.specs.Take.{IsCause, interrupted_msr, saved_msr, taken};

use mw_bits::field;
use mw_isa::{DR, EE, IR, PR, RI, Regs, Vector, without_bit};

/// What SRR1 saves of MSR, and the cause between.
fn saved_msr(msr: u64, cause: u64) -> u64
    requires { IsCause cause }
    ensures { result ≡ saved_msr msr cause }
{
    field(msr, 0, 32) * 0x8000_0000 + field(msr, 37, 41) * 0x40_0000 + field(msr, 48, 63) + cause
}

/// MSR behind an interrupt: EE, PR, IR, DR and RI are 0.
fn interrupted_msr(msr: u64) -> u64
    ensures { result ≡ interrupted_msr msr }
{
    let msr = without_bit(EE, msr);
    let msr = without_bit(PR, msr);
    let msr = without_bit(IR, msr);
    let msr = without_bit(DR, msr);
    without_bit(RI, msr)
}

/// Takes an interrupt (Book III, interrupt processing): SRR0 becomes `save`, the address to go on at behind
/// it; SRR1 takes bits of MSR, and at 33 to 36 and 42 to 47 the cause; EE, PR, IR, DR and RI become 0; the
/// next instruction is at the vector's address. The cause has no other bits. DAR and DSISR are left, and so
/// are all other registers and the reservation. It can't fail.
#[tactic(auto, unfolding(mw_isa::specs::Take::taken))]
pub fn take(regs: &mut Regs, vector: Vector, cause: u64, save: u64)
    requires { IsCause cause }
    ensures { regs.new ≡ taken vector cause save regs.old }
{
    regs.srr0 = save;
    regs.srr1 = saved_msr(regs.msr, cause);
    regs.msr = interrupted_msr(regs.msr);
    regs.cia = vector.address();
}
