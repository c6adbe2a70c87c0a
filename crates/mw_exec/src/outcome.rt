ghost use Rattle.std.specs.Prelude.{◌≡◌, ◌<◌};
ghost use Rattle.mw_tables.specs.Rows.{row_count};
ghost use Rattle.mw_isa.specs.Execute.{behind_insn, branch_to};
ghost use Rattle.mw_isa.specs.Step.{next_of};
ghost use Rattle.mw_isa.specs.System.{system_next};

use crate::branching::word_address;
use arrayvec::ArrayVec;
use mw_decode::Insn;
use mw_isa::{Outcome, Regs, SysOp};
use mw_tables::{PrefixKind, row_at};

/// The address behind an instruction: 4 bytes on, or 8 where it has a prefix.
pub fn behind_insn(insn: &Insn, cia: u64) -> u64
    requires { insn.now.row < row_count }
    ensures { result ≡ behind_insn insn.now cia }
{
    match row_at(insn.row).prefix {
        PrefixKind::Plain => cia.wrapping_add(4),
        PrefixKind::Mls => cia.wrapping_add(4).wrapping_add(4),
        PrefixKind::Eight => cia.wrapping_add(4).wrapping_add(4),
        PrefixKind::Nop => cia.wrapping_add(4).wrapping_add(4),
    }
}

/// The address of the instruction that follows one of the system: that of a return is in SRR0 or HSRR0, its
/// low two bits 0; else it is the one behind.
fn system_next(op: &SysOp, regs: &Regs, behind: u64) -> u64
    ensures { result ≡ system_next op.now regs.now behind }
{
    match op {
        SysOp::Return { hypervisor } => {
            word_address(if *hypervisor { regs.hsrr0 } else { regs.srr0 })
        }
        SysOp::ReadSpr { .. } => behind,
        SysOp::WriteSpr { .. } => behind,
        SysOp::WriteMsr { .. } => behind,
        SysOp::Tlbie { .. } => behind,
        SysOp::Sync { .. } => behind,
        SysOp::Isync => behind,
    }
}

/// The address of the instruction that follows one with this outcome, from the registers that it finds: its
/// own next one, or that behind it; one that raises an interrupt isn't behind itself.
pub fn next_of(insn: &Insn, outcome: &Outcome, regs: &Regs, cia: u64) -> u64
    requires { insn.now.row < row_count }
    ensures { result ≡ next_of insn.now outcome.now regs.now cia }
{
    match outcome {
        Outcome::Done { next, .. } => *next,
        Outcome::Long(_) => behind_insn(insn, cia),
        Outcome::Memory(_) => behind_insn(insn, cia),
        Outcome::System(op) => system_next(op, regs, behind_insn(insn, cia)),
        Outcome::Trap { .. } => cia,
    }
}

/// No register is written, and the instruction at this address follows.
pub fn branch_to(next: u64, outcome: &mut Outcome)
    ensures { outcome.new ≡ branch_to next }
{
    *outcome = Outcome::Done {
        targets: ArrayVec::new(),
        next,
    };
}
