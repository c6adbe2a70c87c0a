ghost use Rattle.std.specs.Prelude.{◌≡◌, ℕ, ◌+◌, ◌^◌, ◌<◌, ◌≤◌, List, length, take, drop, slice_index, slice_set, IfOk, false};
ghost use Rattle.mw_bus.specs.Memory.{ram_of, ram_size, word_at, byte_at, bytes_at, byte_put, laid, padded};

use byteorder::{ByteOrder, LittleEndian};
use std::alloc::{AllocError as NoMemory, Global};
use std::marker::Model;

/// How many bytes of RAM there are: 16 MiB, at the real addresses from 0 on.
pub const RAM_SIZE: usize = 16777216;

/// How many real addresses there are. An operand goes on at 0 behind the last one.
const REAL_SIZE: u64 = 0x1000_0000_0000_0000;

/// The board's RAM, seen as the list of its bytes from real address 0 on, always 16,777,216 of them.
#[derive(Drop)]
pub struct Ram {
    bytes: Vec<u8>,
}

impl Model for Ram {
    ghost Value = { List ℕ };

    ghost view = { λ r. r.bytes.items };

    ghost invariant = { λ r. length r.bytes.items ≡ ram_size };
}

impl Ram {
    /// The image from real address 0 on, with zeros behind it. The only error is want of memory.
    pub fn new(alloc: Global, image: &[u8]) -> Result<Ram, NoMemory>
        requires { length image.now ≤ ram_size }
        ensures { IfOk result (λ r. r ≡ ram_of image.now) }
    {
        let mut bytes = Vec::from_slice(alloc, image)?;
        bytes.resize(RAM_SIZE, 0)?;
        Ok(Ram { bytes })
    }

    /// The byte at a real address in RAM.
    pub fn get(&self, at: u32) -> u8
        requires { at < 2 ^ 24 }
        ensures { result ≡ slice_index self.now at }
    {
        self.bytes[at as usize]
    }

    /// Sets the byte at a real address in RAM, and no other.
    pub fn put(&mut self, at: u32, byte: u8)
        requires { at < 2 ^ 24 }
        ensures { self.new ≡ slice_set self.old at byte }
    {
        self.bytes[at as usize] = byte;
    }

    /// The byte at a real address, all ones where RAM isn't.
    fn byte_at(&self, at: u64) -> u8
        ensures { result ≡ byte_at self.now at }
    {
        if at < RAM_SIZE as u64 {
            self.bytes[at as usize]
        } else {
            255
        }
    }

    /// The 32-bit word at a real address, as a fetch with MSR.LE=1 reads it: the byte at `at` is the
    /// least significant one (Book I, storage operands). A byte where RAM isn't reads as all ones.
    #[tactic(auto, unfolding(crate::specs::Memory::word_at, crate::specs::Memory::number_of))]
    pub fn word(&self, at: u64) -> u32
        requires { at < 2 ^ 60 }
        ensures { result ≡ word_at false self.now at }
    {
        LittleEndian::read_u32(&[
            self.byte_at(at),
            self.byte_at(at + 1),
            self.byte_at(at + 2),
            self.byte_at(at + 3),
        ])
    }

    /// The bytes of RAM from an index on, as a dump reads them.
    pub fn slice(&self, at: usize, len: usize) -> &[u8]
        requires { at + len ≤ ram_size }
        ensures { result.now ≡ take len (drop at self.now) }
    {
        &self.bytes[at..at + len]
    }

    /// The bytes of an operand of 0 to 8 bytes from a real address on, in the order of storage, and
    /// zeros behind them (Book I, storage operands). The address is in bytes, below 2^60; behind the
    /// last one the operand goes on at 0. A byte where RAM isn't reads as all ones. It can't fail.
    pub fn read(&self, at: u64, len: usize) -> [u8; 8]
        requires real { at < 2 ^ 60 }
        requires short { len ≤ 8 }
        ensures { result ≡ padded (bytes_at self.now at len) }
    {
        let mut bytes = [0; 8];
        for i in 0..len {
            bytes[i] = self.byte_at((at + i as u64) % REAL_SIZE);
        }
        bytes
    }

    /// Sets the byte at a real address, where RAM is.
    fn byte_put(&mut self, at: u64, byte: u8)
        ensures { self.new ≡ byte_put self.old at byte }
    {
        if at < RAM_SIZE as u64 {
            self.put(at as u32, byte);
        }
    }

    /// Stores an operand's bytes, in the order of storage, from a real address on, and changes no other
    /// byte (Book I, storage operands). The address is in bytes, below 2^60; behind the last one the
    /// operand goes on at 0. A byte is lost where RAM isn't. It can't fail.
    pub fn write(&mut self, at: u64, piece: &[u8])
        requires { at < 2 ^ 60 }
        ensures { self.new ≡ laid self.old at piece.now }
    {
        let mut place = at;
        for byte in piece {
            self.byte_put(place, *byte);
            place = (place + 1) % REAL_SIZE;
        }
    }
}
