ghost use Rattle.std.specs.Prelude.{◌≡◌, ◌+◌, ◌++◌, ◌≤◌, ◌<◌, false, length};
ghost use Rattle.mw_isa.specs.Branches.{bit_permits, count_of, ctr_permits, is_taken, word_address};
ghost use Rattle.mw_isa.specs.Execute.{branch_by, branch_of, count_target, goal_of, link_target, target_of};
ghost use Rattle.mw_isa.specs.Places.{AreLimited, branch_roles};

use crate::bits::cr_bit;
use crate::outcome::branch_to;
use arrayvec::ArrayVec;
use mw_decode::Insn;
use mw_isa::{BranchRow, Operands, Outcome, Slot, Target, bi_of, bo_bit, bo_of, falls, operand_of};

/// The address that a branch goes to: its displacement in bytes, from 0 where AA is 1, and from the
/// branch where it is 0. Sums wrap at 2^64.
fn target_of(displacement: u64, insn: &Insn, cia: u64) -> u64
    ensures { result ≡ target_of displacement insn.now cia }
{
    if insn.aa {
        displacement
    } else {
        cia.wrapping_add(displacement)
    }
}

/// An address in a register as a target: its low two bits count as 0.
pub fn word_address(number: u64) -> u64
    ensures { result ≡ word_address number }
{
    number / 4 * 4
}

/// Where a branch goes if it is taken.
fn goal_of(row: BranchRow, insn: &Insn, operands: &Operands, cia: u64) -> u64
    ensures { result ≡ goal_of row insn.now operands.now cia }
{
    match row {
        BranchRow::B => target_of(operand_of(insn, 0), insn, cia),
        BranchRow::Bc => target_of(operand_of(insn, 2), insn, cia),
        BranchRow::Bclr => word_address(operands.lr),
        BranchRow::Bcctr => word_address(operands.ctr),
        BranchRow::Bctar => word_address(operands.tar),
    }
}

/// CTR as a branch tests it, from what it was.
fn count_of(bo: u8, ctr: u64) -> u64
    ensures { result ≡ count_of bo ctr }
{
    if falls(bo) { ctr.wrapping_sub(1) } else { ctr }
}

/// Whether BO permits the branch by CTR as it tests it.
fn ctr_permits(bo: u8, count: u64) -> bool
    ensures { result ≡ ctr_permits bo count }
{
    bo_bit(bo, 2)
        || (if bo_bit(bo, 3) {
            count == 0
        } else {
            count != 0
        })
}

/// Whether BO permits the branch by the bit.
fn bit_permits(bo: u8, bit: bool) -> bool
    ensures { result ≡ bit_permits bo bit }
{
    bo_bit(bo, 0) || (if bo_bit(bo, 1) { bit } else { !bit })
}

/// Whether the branch is taken.
fn is_taken(bo: u8, count: u64, bit: bool) -> bool
    ensures { result ≡ is_taken bo count bit }
{
    ctr_permits(bo, count) && bit_permits(bo, bit)
}

/// Adds CTR, where it falls.
fn push_count(targets: &mut ArrayVec<Target, 8>, bo: u8, ctr: u64)
    requires { length targets.old.items < 8 }
    ensures items { targets.new.items ≡ targets.old.items ++ count_target bo ctr }
    ensures few { length targets.new.items ≤ length targets.old.items + 1 }
{
    if falls(bo) {
        targets.push(Target {
            slot: Slot::Ctr,
            value: Some(count_of(bo, ctr)),
        });
    }
}

/// Adds LR, with LK: the address behind the branch.
fn push_link(targets: &mut ArrayVec<Target, 8>, lk: bool, cia: u64)
    requires { length targets.old.items < 8 }
    ensures { targets.new.items ≡ targets.old.items ++ link_target lk cia }
{
    if lk {
        targets.push(Target {
            slot: Slot::Lr,
            value: Some(cia.wrapping_add(4)),
        });
    }
}

/// What a branch on BO and a bit of the condition register comes to: CTR falls or not, LR is set with LK
/// whether it is taken or not, and it is taken where both permit it.
fn branch_by(bo: u8, bit: bool, goal: u64, lk: bool, ctr: u64, cia: u64, outcome: &mut Outcome)
    ensures { outcome.new ≡ branch_by bo bit goal lk ctr cia }
{
    let next = if is_taken(bo, count_of(bo, ctr), bit) {
        goal
    } else {
        cia.wrapping_add(4)
    };
    branch_to(next, outcome);
    if let Outcome::Done { targets, .. } = outcome {
        push_count(targets, bo, ctr);
        push_link(targets, lk, cia);
    }
}

/// What b comes to: it is always taken, and LR is set with LK.
fn always(goal: u64, lk: bool, cia: u64, outcome: &mut Outcome)
    ensures { outcome.new ≡ branch_by 20 false goal lk 0 cia }
{
    branch_to(goal, outcome);
    if let Outcome::Done { targets, .. } = outcome {
        push_link(targets, lk, cia);
    }
}

/// What the rows that branch come to (Book I, branch instructions).
pub fn branch_of(row: BranchRow, insn: &Insn, operands: &Operands, cia: u64, outcome: &mut Outcome)
    requires { AreLimited insn.now 0 (branch_roles row) }
    ensures { outcome.new ≡ branch_of row insn.now operands.now cia }
{
    let goal = goal_of(row, insn, operands, cia);
    match row {
        BranchRow::B => always(goal, insn.lk, cia, outcome),
        _ => branch_by(
            bo_of(row, insn),
            cr_bit(operands.cr, bi_of(row, insn)),
            goal,
            insn.lk,
            operands.ctr,
            cia,
            outcome,
        ),
    }
}
