use crate::access::Kind;

/// What of an access lies in one page of 4 KiB.
#[derive(Clone, Copy, Debug, PartialEq, Eq)]
pub struct Page {
    /// What the access is for.
    pub kind: Kind,
    /// The effective address of its first byte in the page.
    pub ea: u64,
    /// How many of the access's bytes lie in the page.
    pub len: u8,
}

/// The pages of an access, in rising order of its bytes.
#[derive(Clone, Copy, Debug, PartialEq, Eq)]
pub struct Pages {
    /// The page of the first byte.
    pub first: Page,
    /// The page behind the first one, if bytes lie there.
    pub second: Option<Page>,
}

/// What is wrong with a page that an access goes to (Book III, address translation).
#[derive(Clone, Copy, Debug, PartialEq, Eq)]
pub enum StorageFault {
    /// The page's address belongs to no tree of translations.
    Segment,
    /// The page's tree has no entry for it.
    NoTranslation,
    /// The page's entry doesn't permit the access.
    NotPermitted,
    /// The page's tree isn't formed as it has to be.
    BadTree,
    /// The page's entry wasn't marked as referenced, or for a store as changed.
    ReferenceOrChange,
}

/// A page of an access with what is wrong with it.
#[derive(Clone, Copy, Debug, PartialEq, Eq)]
pub struct PageFault {
    /// The page.
    pub page: Page,
    /// What is wrong with the page.
    pub fault: StorageFault,
}

/// A stretch of real storage.
#[derive(Clone, Copy, Debug, PartialEq, Eq)]
pub struct Stretch {
    /// The real address of the stretch's first byte.
    pub at: u64,
    /// How many bytes the stretch has.
    pub len: u8,
}

/// Where an access stands in real storage: a stretch a page, in rising order of its bytes.
#[derive(Clone, Copy, Debug, PartialEq, Eq)]
pub struct Stretches {
    /// The stretch of the first page.
    pub first: Stretch,
    /// The stretch of the second page, if there is one.
    pub second: Option<Stretch>,
}
