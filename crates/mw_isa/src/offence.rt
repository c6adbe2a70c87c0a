use crate::access::Kind;
use crate::vector::Vector;

/// What was done to a block of 64 bytes of RAM that isn't as instructions of it may have been fetched.
#[derive(Clone, Copy, Debug, PartialEq, Eq)]
pub enum BlockStatus {
    /// It was stored to.
    Changed,
    /// It was stored to, and then its copy among the instructions was given up.
    Invalidated,
}

/// What a page that is kept comes to by the tables as they are.
#[derive(Clone, Copy, Debug, PartialEq, Eq)]
pub enum Fresh {
    /// A page at this real address, a multiple of 4096.
    Page(u64),
    /// The interrupt of a fault.
    Fault(Vector),
}

/// Why an access breaks the update discipline.
#[derive(Clone, Copy, Debug, PartialEq, Eq)]
pub enum Why {
    /// Its page is kept otherwise than the tables have it.
    Page {
        /// The real address of the page that is kept, a multiple of 4096.
        kept: u64,
        /// What the page comes to by the tables.
        fresh: Fresh,
    },
    /// Its block was changed.
    Block {
        /// The real address of the block, a multiple of 64.
        block: u64,
        /// What was done to the block.
        status: BlockStatus,
    },
}

/// An access that breaks the update discipline.
#[derive(Clone, Copy, Debug, PartialEq, Eq)]
pub struct Access {
    /// What the access is for.
    pub kind: Kind,
    /// The effective address of its first byte in its page.
    pub ea: u64,
    /// Why it breaks the discipline.
    pub why: Why,
}
