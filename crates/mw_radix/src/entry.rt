ghost use Rattle.std.specs.Prelude.{◌≡◌, ◌+◌, ◌-◌, ◌*◌, ◌%◌, ◌^◌, ◌<◌, ◌≤◌, IfOk};
ghost use Rattle.mw_isa.specs.Tables.{table_base, table_bytes, tree_bits, is_there, is_leaf, next_base, page_base, rights_of};
ghost use Rattle.mw_isa.specs.Walk.{root_of, is_level, entry_at, left_behind, next_level, page_in, leaf_of, IsLeaf};

use mw_bits::{Rights, field};
use mw_isa::{Leaf, Level, WalkFault, has_bit};

/// How many real addresses there are.
pub const REAL_SIZE: u64 = 0x1000_0000_0000_0000;

/// The real address at which the process table begins.
pub fn table_base(prtbl: u64) -> u64
    ensures value { result ≡ table_base prtbl }
    ensures bound { result < 2 ^ 60 }
    ensures whole { result % 8 ≡ 0 }
{
    field(prtbl, 4, 51) * 0x1000
}

/// How many bytes the process table has.
pub fn table_bytes(prtbl: u64) -> u64
    ensures { result ≡ table_bytes prtbl }
{
    1 << (12 + field(prtbl, 59, 63))
}

/// How many address bits the tree of a process translates.
fn tree_bits(entry: u64) -> u32
    ensures value { result ≡ tree_bits entry }
    ensures bound { result ≤ 62 }
{
    31 + (field(entry, 1, 2) * 8 + field(entry, 56, 58)) as u32
}

/// Where a table begins, by a process entry or a directory.
fn next_base(entry: u64) -> u64
    ensures value { result ≡ next_base entry }
    ensures bound { result < 2 ^ 60 }
    ensures whole { result % 8 ≡ 0 }
{
    field(entry, 4, 55) * 0x100
}

/// The root that a process entry tells.
pub fn root_of(entry: u64) -> Level
    ensures value { result ≡ root_of entry }
    ensures left { result.left ≤ 62 }
    ensures bound { result.base < 2 ^ 60 }
    ensures whole { result.base % 8 ≡ 0 }
{
    Level {
        base: next_base(entry),
        bits: field(entry, 59, 63) as u32,
        left: tree_bits(entry),
    }
}

/// Whether a level is one that a tree can have: 5 to 16 bits, no more than are left.
pub fn is_level(level: &Level) -> bool
    ensures { result ≡ is_level level.now }
{
    5 <= level.bits && level.bits <= 16 && level.bits <= level.left
}

/// The real address of the entry in a level's table.
pub fn entry_at(ea: u64, level: &Level) -> u64
    requires bits { level.now.bits ≤ 16 }
    requires within { level.now.bits ≤ level.now.left }
    requires left { level.now.left ≤ 62 }
    requires bound { level.now.base < 2 ^ 60 }
    requires whole { level.now.base % 8 ≡ 0 }
    ensures value { result ≡ entry_at ea level.now }
    ensures bound { result < 2 ^ 60 }
    ensures whole { result % 8 ≡ 0 }
{
    let index = (ea >> (level.left - level.bits)) % (1 << level.bits);
    (level.base + 8 * index) % REAL_SIZE
}

/// Whether an entry is there.
pub fn is_there(entry: u64) -> bool
    ensures { result ≡ is_there entry }
{
    has_bit(entry, 0)
}

/// Whether an entry is a leaf.
pub fn is_leaf(entry: u64) -> bool
    ensures { result ≡ is_leaf entry }
{
    has_bit(entry, 1)
}

/// The level that a directory leads to.
pub fn next_level(entry: u64, level: &Level) -> Level
    requires within { level.now.bits ≤ level.now.left }
    requires left { level.now.left ≤ 62 }
    ensures value { result ≡ next_level entry level.now }
    ensures left { result.left ≤ 62 }
    ensures bound { result.base < 2 ^ 60 }
    ensures whole { result.base % 8 ≡ 0 }
{
    Level {
        base: next_base(entry),
        bits: field(entry, 59, 63) as u32,
        left: level.left - level.bits,
    }
}

/// What a leaf permits, and whether it is marked as changed.
fn rights_of(entry: u64) -> Rights
    ensures { result ≡ rights_of entry }
{
    Rights {
        privileged: has_bit(entry, 60),
        read: has_bit(entry, 61),
        write: has_bit(entry, 62),
        execute: has_bit(entry, 63),
        changed: has_bit(entry, 56),
    }
}

/// The real address of a leaf's page, but for the bits that are the page's own.
fn page_base(entry: u64) -> u64
    ensures value { result ≡ page_base entry }
    ensures bound { result < 2 ^ 57 }
{
    field(entry, 7, 51) * 0x1000
}

/// The page that a leaf tells, of which so many low address bits are its own.
fn page_in(entry: u64, left: u32) -> Leaf
    requires { left ≤ 57 }
    ensures { result ≡ page_in entry left }
{
    let base = page_base(entry);
    Leaf {
        base: base - base % (1 << left),
        left,
        rights: rights_of(entry),
        referenced: has_bit(entry, 55),
    }
}

/// The end at a leaf behind which so many address bits are left: a page has 12 at least.
pub fn leaf_of(entry: u64, left: u32) -> Result<Leaf, WalkFault>
    requires { left ≤ 57 }
    ensures { result ≡ leaf_of entry left }
{
    if left < 12 {
        Err(WalkFault::BadTree)
    } else {
        Ok(page_in(entry, left))
    }
}
