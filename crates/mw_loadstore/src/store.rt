ghost use Rattle.std.specs.Prelude.{◌≡◌, ◌%◌, ◌^◌, ◌<◌, ◌≤◌, IfSome, length, take, true};
ghost use Rattle.mw_isa.specs.Pages.{MeetAtPage, is_in_ram, size_of};
ghost use Rattle.mw_isa.specs.Storage.{IsSized, store_bytes, stored_bytes, stores};
ghost use Rattle.mw_loadstore.specs.Pieces.{IsInBlock, pieces_in};

use mw_bus::number_bytes;
use mw_isa::{MemOp, MemWhat, Stretch, Stretches};

/// The low bytes of a number.
fn low_bytes(value: u64, len: u8) -> u64
    requires some { 1 ≤ len }
    requires few { len ≤ 8 }
    ensures { result ≡ value % 256 ^ len }
{
    match len {
        1 => value % 0x100,
        2 => value % 0x1_0000,
        3 => value % 0x100_0000,
        4 => value % 0x1_0000_0000,
        5 => value % 0x100_0000_0000,
        6 => value % 0x1_0000_0000_0000,
        7 => value % 0x100_0000_0000_0000,
        _ => value,
    }
}

/// The low bytes of the register that is stored, with zeros behind them.
fn store_bytes(reversed: bool, op: &MemOp) -> [u8; 8]
    requires some { 1 ≤ op.now.len }
    requires few { op.now.len ≤ 8 }
    ensures bytes { take op.now.len result ≡ store_bytes reversed op.now }
    ensures len { length result ≡ 8 }
{
    number_bytes(reversed, usize::from(op.len), low_bytes(op.value, op.len))
}

/// Eight bytes with zeros behind them.
fn widened(bytes: &[u8; 8]) -> [u8; 64]
    ensures { take 8 result ≡ bytes.now }
{
    let mut wide = [0; 64];
    let (front, _) = wide.split_at_mut(8);
    front.copy_from_slice(bytes);
    wide
}

/// The bytes that an access stores, in the order of storage, which stand in front: the low bytes of the
/// register in the access's own byte order, or 64 zeros (Book I, fixed-point store instructions; Book II,
/// dcbz). Of an access that stores nothing they say nothing. It can't fail.
pub fn stored_bytes(op: &MemOp) -> [u8; 64]
    requires { IsSized op.now }
    ensures { stores op.now.what true ≡ true → take op.now.len result ≡ stored_bytes op.now.what op.now }
{
    match op.what {
        MemWhat::Store { reversed } => widened(&store_bytes(reversed, op)),
        MemWhat::Conditional { reversed } => widened(&store_bytes(reversed, op)),
        MemWhat::Zero => [0; 64],
        MemWhat::Load { .. } => [0; 64],
        MemWhat::Clean => [0; 64],
        MemWhat::Icbi => [0; 64],
    }
}

/// Whether an access stores its bytes: a store-conditional where its block is reserved. It can't fail.
pub fn stores(what: MemWhat, reserved: bool) -> bool
    ensures { result ≡ stores what reserved }
{
    match what {
        MemWhat::Store { .. } => true,
        MemWhat::Conditional { .. } => reserved,
        MemWhat::Zero => true,
        MemWhat::Load { .. } => false,
        MemWhat::Clean => false,
        MemWhat::Icbi => false,
    }
}

/// Stretches of RAM cut where a block of 64 bytes ends: at most two pieces, in order, each in one block. It
/// can't fail.
#[tactic(auto, unfolding(crate::specs::Pieces::pieces_in))]
pub fn pieces_in(at: &Stretches) -> Stretches
    requires few { size_of at.now ≤ 64 }
    requires in_ram { is_in_ram at.now ≡ true }
    requires pagewise { IfSome at.now.second (MeetAtPage at.now.first) }
    ensures value { result ≡ pieces_in at.now }
    ensures size { size_of result ≡ size_of at.now }
    ensures real { result.first.at < 2 ^ 60 }
    ensures other { IfSome result.second (λ second. second.at < 2 ^ 60) }
    ensures first { IsInBlock result.first }
    ensures second { IfSome result.second IsInBlock }
{
    if at.second.is_some() {
        return *at;
    }
    let room = 64 - at.first.at % 64;
    if u64::from(at.first.len) <= room {
        return *at;
    }
    let front = room as u8;
    Stretches {
        first: Stretch {
            at: at.first.at,
            len: front,
        },
        second: Some(Stretch {
            at: at.first.at + room,
            len: at.first.len - front,
        }),
    }
}
