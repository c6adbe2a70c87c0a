ghost use Rattle.std.specs.Prelude.{◌≡◌, ◌+◌, ◌*◌, ◌<◌, ◌≤◌};
ghost use Rattle.mw_muldiv.specs.Multiplication.{product_at};
ghost use Rattle.mw_muldiv.specs.MulInside.{answered, extended, piece_of};

use crate::numbers::{MulKind, Wide128, halves_of, number_of};
use std::marker::Model;

/// A multiplication under way. Clauses see the numbers that it was started with, and the ticks done.
#[derive(Drop)]
pub struct Mul {
    /// How the factors are read.
    kind: MulKind,
    /// The first factor.
    a: u64,
    /// The second factor.
    b: u64,
    /// What is added to the product.
    add: Wide128,
    /// How many ticks were done.
    ticks: u32,
    /// What is added, and the product with the bits of the second factor so far, modulo 2^128.
    total: u128,
}

impl Model for Mul {
    ghost use Rattle.mw_muldiv.specs.Multiplication.{Multiplication};

    ghost Value = { Multiplication };

    ghost use Rattle.mw_muldiv.specs.MulInside.{multiplication_of, IsMultiplied};

    ghost view = { multiplication_of };

    ghost invariant = { IsMultiplied };
}

/// A factor in 128 bits, with its sign above it.
fn extended(kind: MulKind, factor: u64) -> u128
    ensures { result ≡ extended kind factor }
{
    match kind {
        MulKind::Signed => i128::from(factor.cast_signed()).cast_unsigned(),
        MulKind::Unsigned => u128::from(factor),
    }
}

/// The sixteen bits of the second factor that a tick takes, and in the fourth its sign above them.
fn piece_of(kind: MulKind, b: u64, ticks: u32) -> u128
    requires { ticks < 4 }
    ensures { result ≡ piece_of kind b ticks }
{
    let rest = extended(kind, b) >> (16 * ticks);
    if ticks < 3 { rest & 0xffff } else { rest }
}

/// What a tick answers when so many are done: the total behind the fourth, nothing before.
fn answered(ticks: u32, total: u128) -> Option<Wide128>
    requires { ticks ≤ 4 }
    ensures { result ≡ answered ticks total }
{
    if ticks < 4 {
        None
    } else {
        Some(halves_of(total))
    }
}

impl Mul {
    /// Begins `a * b + add`, with `a` and `b` read by the kind (Book I, Multiply and Multiply-Add
    /// instructions). What is added has 128 bits, with its sign above it where it is signed. No tick is done
    /// yet. It can't fail and takes no memory.
    pub fn start(kind: MulKind, a: u64, b: u64, add: Wide128) -> Mul
        ensures { result ≡ record { kind = kind; a = a; b = b; add = add; ticks = 0 } }
    {
        Mul {
            kind,
            a,
            b,
            add,
            ticks: 0,
            total: number_of(add),
        }
    }

    /// One clock cycle: takes the next sixteen bits of `b`. There is no answer before the fourth tick, which
    /// gives `a * b + add` modulo 2^128. It can't fail and takes no memory.
    pub fn tick(&mut self) -> Option<Wide128>
        requires { self.old.ticks < 4 }
        ensures answer { result ≡ product_at self.old }
        ensures counts { self.new ≡ record self.old { ticks = self.old.ticks + 1 } }
    {
        let piece = piece_of(self.kind, self.b, self.ticks);
        let part = extended(self.kind, self.a).wrapping_mul(piece) << (16 * self.ticks);
        self.total = self.total.wrapping_add(part);
        self.ticks += 1;
        answered(self.ticks, self.total)
    }
}
