ghost use Rattle.std.specs.Prelude.{◌≡◌, ℕ, ◌<◌};
ghost use Rattle.mw_generator.specs.Draws.{below, next_number};

use std::marker::Model;

/// Draws: a number of 64 bits, which each draw changes.
#[derive(Drop)]
pub(crate) struct Draws {
    number: u64,
}

impl Model for Draws {
    ghost Value = { ℕ };

    ghost view = { λ d. d.number };
}

impl Draws {
    /// Draws that begin behind a seed.
    pub(crate) fn new(seed: u64) -> Draws
        ensures { result ≡ seed }
    {
        Draws { number: seed }
    }

    /// The next draw: a number below `limit`, by the high bits of the number that is kept.
    #[tactic(auto, unfolding(crate::specs::Draws::next_number, crate::specs::Draws::below))]
    pub(crate) fn below(&mut self, limit: u64) -> u64
        requires { 0 < limit }
        ensures number { self.new ≡ next_number self.old }
        ensures value { result ≡ below limit (next_number self.old) }
        ensures bound { result < limit }
    {
        self.number = self
            .number
            .wrapping_mul(6_364_136_223_846_793_005)
            .wrapping_add(1_442_695_040_888_963_407);
        (self.number >> 33) % limit
    }
}
