ghost use Rattle.std.specs.Prelude.{◌≡◌, ◌^◌, ◌<◌, ◌≤◌, ◌%◌};
ghost use Rattle.mw_radix.specs.Walking.{begun, in_tree, behind, IsSound};

use crate::entry::{is_leaf, is_level, is_there, leaf_of, next_level, root_of};
use mw_isa::{Leaf, Level, WalkFault};

/// Where a walk stands.
#[derive(Clone, Copy, Debug, PartialEq, Eq)]
pub enum Stage {
    /// It wants the first doubleword of a process's entry, at a real address.
    Process(u64),
    /// It wants the entry of a level's table.
    At(Level),
    /// It has ended.
    Ended(Result<Leaf, WalkFault>),
}

/// A walk that comes to a level: it goes on where a tree can have such a one.
fn begun(level: Level) -> Stage
    requires left { level.left ≤ 62 }
    requires bound { level.base < 2 ^ 60 }
    requires whole { level.base % 8 ≡ 0 }
    ensures value { result ≡ begun level }
    ensures sound { IsSound result }
{
    if is_level(&level) {
        Stage::At(level)
    } else {
        Stage::Ended(Err(WalkFault::BadTree))
    }
}

/// A walk that was given a process entry: it goes on at its root where the tree has the address.
pub fn in_tree(ea: u64, entry: u64) -> Stage
    ensures value { result ≡ in_tree ea entry }
    ensures sound { IsSound result }
{
    let root = root_of(entry);
    if ea % 0x4000_0000_0000_0000 < 1 << root.left {
        begun(root)
    } else {
        Stage::Ended(Err(WalkFault::Segment))
    }
}

/// A walk that was given an entry of a level's table: it ends, or goes on where a directory leads.
pub fn behind(level: &Level, entry: u64) -> Stage
    requires { IsSound (Stage.At level.now) }
    ensures value { result ≡ behind level.now entry }
    ensures sound { IsSound result }
{
    if !is_there(entry) {
        Stage::Ended(Err(WalkFault::NoEntry))
    } else if is_leaf(entry) {
        Stage::Ended(leaf_of(entry, level.left - level.bits))
    } else {
        begun(next_level(entry, level))
    }
}
