ghost use Rattle.std.specs.Prelude.{◌≡◌, ◌+◌, ◌<◌};
ghost use Rattle.mw_muldiv.specs.Division.{quotient_at};

use crate::numbers::{DivKind, DivOut, Wide128, halves_of};
use crate::signs::{dividend_size, divisor_size, outcome_of};
use crate::steps::{Partial, with_bit};
use std::marker::Model;

/// A division under way. Clauses see the numbers that it was started with, and the ticks done.
#[derive(Drop)]
pub struct Div {
    /// How the numbers are read, and how many bits the results have.
    kind: DivKind,
    /// The dividend.
    dividend: Wide128,
    /// The divisor.
    divisor: u64,
    /// How many ticks were done.
    ticks: u32,
    /// The divisor as a number, without its sign.
    divisor_size: u64,
    /// What was found so far.
    so_far: Partial,
}

impl Model for Div {
    ghost use Rattle.mw_muldiv.specs.Division.{Division};

    ghost Value = { Division };

    ghost use Rattle.mw_muldiv.specs.DivInside.{division_of, IsDivided};

    ghost view = { division_of };

    ghost invariant = { IsDivided };
}

impl Div {
    /// Begins a division (Book I, Divide and Modulo instructions). The kinds of 32 bits read the low 64 bits
    /// of the dividend and the low 32 of the divisor, the others all of both. No tick is done yet. It can't
    /// fail and takes no memory.
    pub fn start(kind: DivKind, dividend: Wide128, divisor: u64) -> Div
        ensures { result ≡ record { kind = kind; dividend = dividend; divisor = divisor; ticks = 0 } }
    {
        let size = halves_of(dividend_size(kind, dividend));
        Div {
            kind,
            dividend,
            divisor,
            ticks: 0,
            divisor_size: divisor_size(kind, divisor),
            so_far: Partial {
                rest: size.high,
                low: size.low,
            },
        }
    }

    /// One clock cycle: finds a bit of the quotient, or behind the last of them settles the signs. There is
    /// no answer before the 65th tick, for every kind. The 65th gives the quotient, truncated toward 0, and
    /// the rest, which has the dividend's sign; or `NoQuotient` where the divisor is 0 or the quotient
    /// doesn't fit. It can't fail and takes no memory.
    pub fn tick(&mut self) -> Option<DivOut>
        requires { self.old.ticks < 65 }
        ensures answer { result ≡ quotient_at self.old }
        ensures counts { self.new ≡ record self.old { ticks = self.old.ticks + 1 } }
    {
        if self.ticks < 64 {
            self.so_far = with_bit(self.so_far, self.divisor_size);
            self.ticks += 1;
            None
        } else {
            self.ticks += 1;
            Some(outcome_of(self.kind, self.dividend, self.divisor, self.so_far))
        }
    }
}
