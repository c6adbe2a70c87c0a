ghost use Rattle.std.specs.Prelude.{◌≡◌, ◌+◌, ◌≤◌, ℕ, List, [], ◌++◌, length, replicate, OnOk, OnErr, IfOk};
ghost use Rattle.mw_bits.specs.Pieces.{with_piece};

use std::alloc::{AllocError as NoMemory, Global};
use std::marker::Model;

/// A list of bytes that grows at its end.
#[derive(Drop)]
pub struct Bytes {
    items: Vec<u8>,
}

impl Model for Bytes {
    ghost Value = { List ℕ };

    ghost view = { λ b. b.items.items };
}

impl Bytes {
    /// A list with no byte. It takes no memory.
    pub fn new(alloc: Global) -> Bytes
        ensures { result ≡ [] }
    {
        Bytes {
            items: Vec::new(alloc),
        }
    }

    /// A list of `len` zeros, for which memory is taken once. The only error is want of memory.
    pub fn zeros(alloc: Global, len: usize) -> Result<Bytes, NoMemory>
        ensures { IfOk result (λ bytes. bytes ≡ replicate len 0) }
    {
        let mut items = Vec::new(alloc);
        items.resize(len, 0)?;
        Ok(Bytes { items })
    }

    /// Appends the bytes of `piece` in order. Where memory is wanting the list stays as it was.
    pub fn add(&mut self, piece: &[u8]) -> Result<(), NoMemory>
        ensures ok { OnOk result (self.new ≡ self.old ++ piece.now) }
        ensures err { OnErr result (self.new ≡ self.old) }
    {
        self.items.extend_from_slice(piece)
    }

    /// Writes the bytes of `piece` in order over those from place `at` on, 0 for the first. All of these places are in the
    /// list. It takes no memory and can't fail.
    pub fn lay(&mut self, at: usize, piece: &[u8])
        requires { at + length piece.now ≤ length self.now }
        ensures { self.new ≡ with_piece self.old at piece.now }
    {
        self.items[at..at + piece.len()].copy_from_slice(piece);
    }

    /// The bytes, from the first one on.
    pub fn as_slice(&self) -> &[u8]
        ensures { result.now ≡ self.now }
    {
        self.items.as_slice()
    }
}
