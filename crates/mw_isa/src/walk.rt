use mw_bits::Rights;

/// The entry that a walk through a radix tree ends in (Book III, radix tree translation).
#[derive(Clone, Copy, Debug, PartialEq, Eq)]
pub struct Leaf {
    /// The real address of its page, a multiple of the page's size.
    pub base: u64,
    /// How many low bits of an address are the page's own: the page has `2^left` bytes.
    pub left: u32,
    /// What it permits, and whether it is marked as changed.
    pub rights: Rights,
    /// Whether it is marked as referenced.
    pub referenced: bool,
}

/// A level of a radix tree.
#[derive(Clone, Copy, Debug, PartialEq, Eq)]
pub struct Level {
    /// The real address at which its table begins.
    pub base: u64,
    /// How many address bits index the table.
    pub bits: u32,
    /// How many address bits are left, those of the index among them.
    pub left: u32,
}

/// Why a walk through a radix tree finds no leaf (Book III, radix tree translation).
#[derive(Clone, Copy, Debug, PartialEq, Eq)]
pub enum WalkFault {
    /// The address lies beyond the tree.
    Segment,
    /// An entry isn't there.
    NoEntry,
    /// The tree isn't formed as it has to be.
    BadTree,
}

/// A translation of a page of 4 KiB that may be kept.
#[derive(Clone, Copy, Debug, PartialEq, Eq)]
pub struct KeptEntry {
    /// The process whose tree has it.
    pub pid: u32,
    /// The page's number: its effective address divided by 4096.
    pub page: u64,
    /// The real page's number: its real address divided by 4096.
    pub real: u64,
    /// What it permits, and whether it is marked as changed.
    pub rights: Rights,
    /// Whether it was given up, and only waits for what is under way.
    pub leaving: bool,
}

/// Where an effective address stands in real storage.
#[derive(Clone, Copy, Debug, PartialEq, Eq)]
pub struct Translated {
    /// The real address.
    pub real: u64,
    /// The entry that may be kept of it; none while translation is off.
    pub kept: Option<KeptEntry>,
}
