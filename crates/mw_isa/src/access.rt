use arrayvec::ArrayVec;
use mw_bits::Scope;

/// What an access to storage is for.
#[derive(Clone, Copy, Debug, PartialEq, Eq)]
pub enum Kind {
    /// A word of the program is fetched.
    Fetch,
    /// Data is loaded.
    Load,
    /// Data is stored.
    Store,
}

impl Default for Kind {
    /// The fetch, to fill places that aren't used.
    fn default() -> Kind {
        Kind::Fetch
    }
}

/// An access to one page of storage.
#[derive(Clone, Copy, Debug, Default, PartialEq, Eq)]
pub struct Touch {
    /// What the access is for.
    pub kind: Kind,
    /// The effective address of the access's first byte in the page.
    pub ea: u64,
}

/// What an instruction does to changed code and changed translations.
#[derive(Debug, Drop)]
pub enum Deed {
    /// Nothing is done to code and translations.
    Plain,
    /// Bytes of RAM are stored to.
    Store {
        /// The stretches of these bytes, in the order of the access, a stretch a page.
        spans: ArrayVec<Span, 2>,
    },
    /// The copy of a block among the instructions is given up.
    Icbi {
        /// The block's number: its real address divided by 64.
        block: u32,
    },
    /// Kept translations are given up.
    Tlbie(Scope),
    /// What was given up before is gone, and what was changed is fetched anew.
    Sync,
    /// Another table of translations is used.
    NewTable,
}

/// A stretch of RAM: `len` bytes from the real address `at` on.
#[derive(Clone, Copy, Debug, Default, PartialEq, Eq)]
pub struct Span {
    /// The first byte's real address.
    pub at: u32,
    /// How many bytes the stretch has.
    pub len: u32,
}
