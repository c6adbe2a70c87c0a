ghost use Rattle.std.specs.Prelude.{◌≡◌, ℕ, ◌<◌};
ghost use Rattle.mw_alu.specs.declared.op.AluOut.{AluOut};
ghost use Rattle.mw_isa.specs.Finish.{finished};
ghost use Rattle.mw_isa.specs.Long.{IsStarted, result_of};
ghost use Rattle.mw_isa.specs.Step.{regs_after};
ghost use Rattle.mw_muldiv.specs.Division.{quotient_of};
ghost use Rattle.mw_muldiv.specs.Multiplication.{product_of};

use mw_alu::AluOut;
use mw_exec::{finished, product_out, quotient_out};
use mw_isa::{LongOp, Regs, set_targets};
use mw_muldiv::{Div, DivOut, Mul, Wide128};

/// The product that a multiplier comes to: all its ticks, one after the other.
fn product_of(unit: &mut Mul) -> Wide128
    requires { unit.old.ticks < 4 }
    ensures { result ≡ product_of unit.old }
{
    loop {
        if let Some(answer) = unit.tick() {
            return answer;
        }
    }
}

/// The quotient and the rest that a divider comes to: all its ticks, one after the other.
fn quotient_of(unit: &mut Div) -> DivOut
    requires { unit.old.ticks < 65 }
    ensures { result ≡ quotient_of unit.old }
{
    loop {
        if let Some(answer) = unit.tick() {
            return answer;
        }
    }
}

/// What a long operation gives, once its unit has done all its ticks.
fn result_of(op: &mut LongOp) -> AluOut
    requires { IsStarted op.old }
    ensures value { result ≡ result_of op.old }
    ensures kept { (out : AluOut) → (xer : ℕ) → finished op.new out xer ≡ finished op.old out xer }
{
    match op {
        LongOp::Mul {
            unit,
            high,
            word,
            ..
        } => product_out(*high, *word, product_of(unit)),
        LongOp::Div { unit, rest, .. } => quotient_out(*rest, quotient_of(unit)),
    }
}

/// Sets the registers that a long operation writes, once its unit has done all its ticks.
#[inline(never)]
pub fn finish_long(op: &mut LongOp, regs: &mut Regs)
    requires { IsStarted op.old }
    ensures { regs.new ≡ regs_after op.old regs.old }
{
    let out = result_of(op);
    let targets = finished(op, out, regs.xer);
    set_targets(targets.as_slice(), regs);
}
