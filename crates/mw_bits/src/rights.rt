/// What a page may be used for, and whether a store into it still has to set its change bit (Book III,
/// radix page table entry).
#[derive(Clone, Copy, Debug, PartialEq, Eq)]
pub struct Rights {
    /// Whether only privileged states may use the page.
    pub privileged: bool,
    /// Whether the page may be loaded from.
    pub read: bool,
    /// Whether the page may be loaded from and stored into.
    pub write: bool,
    /// Whether instructions may be fetched from the page.
    pub execute: bool,
    /// Whether the page's change bit is set.
    pub changed: bool,
}
