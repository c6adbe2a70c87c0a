ghost use Rattle.std.specs.Prelude.{◌≡◌, ◌%◌, ◌^◌, ◌<◌, IfSome, IfOk, IsSome};
ghost use Rattle.mw_isa.specs.Walk.{IsLeaf};
ghost use Rattle.mw_radix.specs.Walking.{end_of, given, start_of, wanted};

use crate::entry::{REAL_SIZE, entry_at, table_base, table_bytes};
use crate::stage::{Stage, behind, in_tree};
use mw_isa::{Leaf, WalkFault};
use std::marker::Model;

/// A walk through the radix tree of a process (Book III, radix tree translation) that asks for one doubleword of a
/// table at a time and is given it. Clauses see its address and where it stands.
#[derive(Drop)]
pub struct Walker {
    /// The effective address that is translated.
    ea: u64,
    /// Where the walk stands.
    stage: Stage,
}

impl Model for Walker {
    ghost use Rattle.mw_radix.specs.Walking.{IsSound, Walking};

    ghost Value = { Walking };

    ghost view = { λ w. record { ea = w.ea; stage = w.stage } };

    ghost invariant = { λ w. IsSound w.stage };
}

impl Walker {
    /// The walk of the effective address `ea` in the tree of the process `pid`, whose table PRTBL tells. It can't fail
    /// and takes no memory.
    pub fn start(prtbl: u64, pid: u32, ea: u64) -> Walker
        ensures { result ≡ start_of prtbl pid ea }
    {
        let place = 16 * u64::from(pid);
        let stage = if place < table_bytes(prtbl) {
            Stage::Process((table_base(prtbl) + place) % REAL_SIZE)
        } else {
            Stage::Ended(Err(WalkFault::NoEntry))
        };
        Walker { ea, stage }
    }

    /// The real address of the doubleword that the walk wants, a multiple of 8 below 2^60; none exactly where it has
    /// ended.
    pub fn want(&self) -> Option<u64>
        ensures value { result ≡ wanted self.now }
        ensures real { IfSome result (λ at. (at < 2 ^ 60) × (at % 8 ≡ 0)) }
    {
        match self.stage {
            Stage::Process(at) => Some(at),
            Stage::At(level) => Some(entry_at(self.ea, &level)),
            Stage::Ended(_) => None,
        }
    }

    /// Hands the walk the doubleword that it wants, as a number, most significant byte first.
    pub fn give(&mut self, doubleword: u64)
        requires { IsSome (wanted self.old) }
        ensures { self.new ≡ given doubleword self.old }
    {
        self.stage = match self.stage {
            Stage::Process(_) => in_tree(self.ea, doubleword),
            Stage::At(level) => behind(&level, doubleword),
            Stage::Ended(end) => Stage::Ended(end),
        };
    }

    /// The leaf that the walk ended in, or why it found none; none exactly where a doubleword is wanted.
    pub fn done(&self) -> Option<Result<Leaf, WalkFault>>
        ensures value { result ≡ end_of self.now }
        ensures leaf { IfSome result (λ end. IfOk end IsLeaf) }
    {
        match self.stage {
            Stage::Process(_) => None,
            Stage::At(_) => None,
            Stage::Ended(end) => Some(end),
        }
    }
}
