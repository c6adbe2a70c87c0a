ghost use Rattle.std.specs.Prelude.{◌≡◌, ◌≤◌, ◌<◌};
ghost use Rattle.mw_tables.specs.Rows.{row_count};
ghost use Rattle.mw_isa.specs.Condition.{is_trapping, to_bit, traps_equal, traps_signed, traps_unsigned};
ghost use Rattle.mw_isa.specs.Execute.{call, trap_of, traps};
ghost use Rattle.mw_isa.specs.Places.{AreLimited, trap_roles};
ghost use Rattle.mw_isa.specs.Step.{OnTrap};
ghost use Rattle.mw_isa.specs.Take.{IsUnmarked};

use crate::bits::{is_below, plain_part};
use crate::inputs::b_of;
use crate::outcome::{behind_insn, branch_to};
use mw_decode::Insn;
use mw_isa::{Operands, Operation, Outcome, TRAP, TrapRow, Vector, bit_at, code, places_of};

/// A bit of TO, counted from the left of five.
fn to_bit(to: u8, number: u8) -> bool
    requires { number ≤ 4 }
    ensures { result ≡ to_bit to number }
{
    (to >> (4 - number)) % 2 == 1
}

/// Whether TO asks for less or greater as signed numbers, and it is so.
fn traps_signed(to: u8, long: bool, x: u64, y: u64) -> bool
    ensures { result ≡ traps_signed to long x y }
{
    (to_bit(to, 0) && is_below(true, long, x, y)) || (to_bit(to, 1) && is_below(true, long, y, x))
}

/// Whether TO asks for equal, and it is so.
fn traps_equal(to: u8, long: bool, x: u64, y: u64) -> bool
    ensures { result ≡ traps_equal to long x y }
{
    to_bit(to, 2) && plain_part(long, x) == plain_part(long, y)
}

/// Whether TO asks for less or greater as unsigned numbers, and it is so.
fn traps_unsigned(to: u8, long: bool, x: u64, y: u64) -> bool
    ensures { result ≡ traps_unsigned to long x y }
{
    (to_bit(to, 3) && is_below(false, long, x, y)) || (to_bit(to, 4) && is_below(false, long, y, x))
}

/// Whether a condition of TO holds.
fn is_trapping(to: u8, long: bool, x: u64, y: u64) -> bool
    ensures { result ≡ is_trapping to long x y }
{
    traps_signed(to, long, x, y) || (traps_equal(to, long, x, y) || traps_unsigned(to, long, x, y))
}

/// Whether a row's trap condition holds.
fn traps(row: TrapRow, insn: &Insn, operands: &Operands) -> bool
    requires { AreLimited insn.now 0 (trap_roles row) }
    ensures { result ≡ traps row insn.now operands.now }
{
    let b = b_of(places_of(Operation::Trap(row)), insn, operands);
    match row {
        TrapRow::TrapNumber { long } => is_trapping(code(insn, 0), long, operands.a, b),
        TrapRow::TrapRegister { long } => {
            is_trapping(code(insn, 0), long, operands.a, operands.b)
        }
    }
}

/// What the rows that trap come to (Book I, fixed-point trap instructions): an interrupt where the
/// condition holds, and else nothing.
pub fn trap_of(row: TrapRow, insn: &Insn, operands: &Operands, cia: u64, outcome: &mut Outcome)
    requires row { insn.now.row < row_count }
    requires limits { AreLimited insn.now 0 (trap_roles row) }
    ensures value { outcome.new ≡ trap_of row insn.now operands.now cia }
    ensures cause { OnTrap IsUnmarked outcome.new }
{
    if traps(row, insn, operands) {
        *outcome = Outcome::Trap {
            vector: Vector::Program,
            cause: bit_at(TRAP),
        };
    } else {
        branch_to(behind_insn(insn, cia), outcome);
    }
}

/// What a system call comes to (Book III, system call interrupt).
pub fn call(outcome: &mut Outcome)
    ensures value { outcome.new ≡ call }
    ensures cause { OnTrap IsUnmarked outcome.new }
{
    *outcome = Outcome::Trap {
        vector: Vector::SystemCall,
        cause: 0,
    };
}
