/// Where an instruction's operands stand among the words of its list, counted from 0, by what they are to it.
#[derive(Clone, Copy, Debug, PartialEq, Eq)]
pub struct Places {
    /// The register that is written.
    pub written: Option<u8>,
    /// The register that is read as a.
    pub first: Option<u8>,
    /// The register that is read as a, where register 0 stands for 0 (RA|0).
    pub base: Option<u8>,
    /// The register that is read as b.
    pub second: Option<u8>,
    /// The register that is read as c; the one that is written, where its old content counts.
    pub third: Option<u8>,
    /// The number that stands as b, or the count of a rotation.
    pub number: Option<u8>,
    /// The number of places that stands as c.
    pub amount: Option<u8>,
    /// The first bit of a mask.
    pub start: Option<u8>,
    /// The last bit of a mask.
    pub end: Option<u8>,
    /// R, which is 1 where the instruction's own address stands as a.
    pub own: Option<u8>,
}
