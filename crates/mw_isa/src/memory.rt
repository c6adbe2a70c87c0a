/// What an access to storage does with the bytes there.
#[derive(Clone, Copy, Debug, PartialEq, Eq)]
pub enum MemWhat {
    /// The bytes are loaded into a register.
    Load {
        /// Whether the number is extended with its sign.
        signed: bool,
        /// Whether the first byte is the most significant one.
        reversed: bool,
        /// Whether the block is reserved.
        reserve: bool,
    },
    /// A register is stored over the bytes.
    Store {
        /// Whether the first byte is the most significant one.
        reversed: bool,
    },
    /// A register is stored over the bytes where their block is reserved.
    Conditional {
        /// Whether the first byte is the most significant one.
        reversed: bool,
    },
    /// Zeros are stored over the block.
    Zero,
    /// The block is written back; that changes nothing here.
    Clean,
    /// The block's copy among the instructions is given up.
    Icbi,
}

/// An access to storage, with all that it takes of the registers.
#[derive(Clone, Copy, Debug, PartialEq, Eq)]
pub struct MemOp {
    /// What the access does.
    pub what: MemWhat,
    /// The effective address.
    pub ea: u64,
    /// How many bytes: 1, 2, 4 or 8; 64 for zeros, and 1 where nothing is loaded or stored.
    pub len: u8,
    /// The content that is stored, or 0.
    pub value: u64,
    /// The register that is loaded, or 0.
    pub to: u8,
    /// The register that gets the effective address.
    pub update: Option<u8>,
}
