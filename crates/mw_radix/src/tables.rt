ghost use Rattle.std.specs.Prelude.{◌≡◌, ◌%◌, ◌^◌, ◌<◌, ◌≤◌, ℕ, List};
ghost use Rattle.mw_isa.specs.Tables.{doubleword};

use byteorder::{BigEndian, ByteOrder};
use mw_bus::Ram;

/// Where the doublewords of tables come from.
pub trait Tables {
    ghost ram: { Self → List ℕ };

    ghost reads: { Self → ℕ };

    /// The doubleword at a real address, a multiple of 8 below 2^60: big-endian in every mode, and all ones where RAM
    /// isn't. RAM stays, and the count of reads never falls.
    fn doubleword(&mut self, at: u64) -> u64
        requires real { at < 2 ^ 60 }
        requires whole { at % 8 ≡ 0 }
        ensures value { result ≡ doubleword (ram self.old) at }
        ensures stays { ram self.new ≡ ram self.old }
        ensures counted { reads self.old ≤ reads self.new };
}

/// The tables that stand in RAM, with a count of what was read of them.
#[derive(Drop)]
pub struct RamTables<'a> {
    ram: &'a Ram,
    count: u64,
}

impl<'a> RamTables<'a> {
    /// The tables of this RAM, of which nothing was read. It can't fail and takes no memory.
    pub fn new(ram: &'a Ram) -> RamTables<'a>
        ensures value { result.ram.now ≡ ram.now }
        ensures count { result.count ≡ 0 }
    {
        RamTables { ram, count: 0 }
    }
}

impl<'a> Tables for RamTables<'a> {
    ghost ram = { λ t. t.ram.now };

    ghost reads = { λ t. t.count };

    #[tactic(auto, unfolding(mw_isa::specs::Tables::doubleword, mw_bus::specs::Memory::number_of, mw_bus::specs::Memory::bytes_at))]
    fn doubleword(&mut self, at: u64) -> u64 {
        self.count = self.count.saturating_add(1);
        BigEndian::read_u64(&self.ram.read(at, 8))
    }
}
