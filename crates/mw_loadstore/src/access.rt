ghost use Rattle.std.specs.Prelude.{◌≡◌, ◌+◌, ◌<◌, ◌≤◌, ◌++◌, length};
ghost use Rattle.std.specs.List.{All, sum_by, flat_map};
ghost use Rattle.mw_bus.specs.Memory.{padded};
ghost use Rattle.mw_loadstore.specs.Pieces.{IsInOneBlock, piece_addresses, addresses_from, piece_len, pieces_of};

use arrayvec::ArrayVec;

/// A part of an access that lies in one block of 64 bytes.
#[derive(Clone, Copy, Debug, Default, PartialEq, Eq)]
pub struct Piece {
    /// The effective address of the piece's first byte.
    pub ea: u64,
    /// How many bytes the piece has.
    pub len: u8,
}

/// The access of `len` bytes from an effective address on, cut where a block of 64 bytes ends. Effective
/// addresses go on at 0 behind the last one (Book I, effective address calculation).
pub fn pieces(ea: u64, len: u8) -> ArrayVec<Piece, 2>
    requires some { 1 ≤ len }
    requires few { len ≤ 64 }
    ensures value { result.items ≡ pieces_of ea len }
    ensures whole { sum_by piece_len result.items ≡ len }
    ensures joined { flat_map piece_addresses result.items ≡ addresses_from ea len }
    ensures each { All IsInOneBlock result.items }
    ensures short { All (λ piece. piece.len ≤ len) result.items }
    ensures at_most_two { length result.items ≤ 2 }
{
    let mut pieces = ArrayVec::new();
    let room = 64 - (ea % 64) as u8;
    if len <= room {
        pieces.push(Piece { ea, len });
    } else {
        pieces.push(Piece { ea, len: room });
        pieces.push(Piece {
            ea: ea.wrapping_add(u64::from(room)),
            len: len - room,
        });
    }
    pieces
}

/// The bytes of two pieces, one after the other, and zeros behind them.
pub fn merge(first: &[u8], second: &[u8]) -> [u8; 8]
    requires { length first.now + length second.now ≤ 8 }
    ensures { result ≡ padded (first.now ++ second.now) }
{
    let mut bytes = [0; 8];
    let (front, back) = bytes.split_at_mut(first.len());
    front.copy_from_slice(first);
    back[..second.len()].copy_from_slice(second);
    bytes
}
