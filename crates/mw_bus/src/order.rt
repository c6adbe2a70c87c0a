ghost use Rattle.std.specs.Prelude.{◌≡◌, ◌<◌, ◌≤◌, ◌^◌, length};
ghost use Rattle.mw_bus.specs.Memory.{number_of, bytes_of, padded};

use byteorder::{BigEndian, ByteOrder, LittleEndian};

/// The number that an operand of 1 to 8 bytes holds (Book I, byte order): where `big`, its first byte
/// is the most significant one, and otherwise the least significant one. It can't fail.
#[tactic(auto, unfolding(crate::specs::Memory::number_of))]
pub fn number(big: bool, bytes: &[u8]) -> u64
    requires some { 1 ≤ length bytes.now }
    requires few { length bytes.now ≤ 8 }
    ensures { result ≡ number_of big (length bytes.now) bytes.now }
{
    if big {
        BigEndian::read_uint(bytes, bytes.len())
    } else {
        LittleEndian::read_uint(bytes, bytes.len())
    }
}

/// The `len` bytes, 1 to 8, of a number below 256^len, in the order of storage, and zeros behind them
/// (Book I, byte order): where `big`, the most significant byte comes first, and otherwise the least
/// significant one. It can't fail.
#[tactic(auto, unfolding(crate::specs::Memory::bytes_of))]
pub fn number_bytes(big: bool, len: usize, value: u64) -> [u8; 8]
    requires some { 1 ≤ len }
    requires few { len ≤ 8 }
    requires fits { value < 256 ^ len }
    ensures { result ≡ padded (bytes_of big len value) }
{
    let mut bytes = [0; 8];
    if big {
        BigEndian::write_uint(&mut bytes, value, len);
    } else {
        LittleEndian::write_uint(&mut bytes, value, len);
    }
    bytes
}
