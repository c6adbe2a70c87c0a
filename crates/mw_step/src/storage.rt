ghost use Rattle.std.specs.Prelude.{◌≡◌, ◌+◌, ◌^◌, ◌<◌, ◌≤◌, IfSome, length, take, false, true};
ghost use Rattle.mw_bus.specs.Memory.{padded};
ghost use Rattle.mw_isa.specs.Pages.{bytes_in, is_in_ram, laid_in, size_of};
ghost use Rattle.mw_isa.specs.State.{seen};
ghost use Rattle.mw_isa.specs.Storage.{IsPlaced, IsSized, accessed, devices_loaded, devices_stored, load_bytes, loaded_number, raises_alignment, ram_behind};

use mw_bus::Ram;
use mw_isa::{MemOp, MemWhat, State, Stretches};
use mw_loadstore::{
    is_in_ram, is_reserved, loaded_number, merge, pieces_in, regs_behind, stored_bytes, stores,
};
use mw_soc::Devices;

/// The bytes of stretches of at most 8 bytes, one behind the other, and zeros behind them up to 8. A byte
/// where RAM isn't reads as all ones. It can't fail.
pub fn read(at: &Stretches, ram: &Ram) -> [u8; 8]
    requires few { size_of at.now ≤ 8 }
    requires real { at.now.first.at < 2 ^ 60 }
    requires other { IfSome at.now.second (λ second. second.at < 2 ^ 60) }
    ensures { result ≡ padded (bytes_in ram.now at.now) }
{
    let front = ram.read(at.first.at, usize::from(at.first.len));
    match at.second {
        None => front,
        Some(second) => {
            let back = ram.read(second.at, usize::from(second.len));
            merge(
                &front[..usize::from(at.first.len)],
                &back[..usize::from(second.len)],
            )
        }
    }
}

/// Stores bytes to stretches, one behind the other, and changes no other byte. A byte is lost where RAM
/// isn't. It can't fail.
pub fn write(at: &Stretches, bytes: &[u8], ram: &mut Ram)
    requires size { length bytes.now ≡ size_of at.now }
    requires real { at.now.first.at < 2 ^ 60 }
    requires other { IfSome at.now.second (λ second. second.at < 2 ^ 60) }
    ensures { ram.new ≡ laid_in ram.old at.now bytes.now }
{
    match at.second {
        None => ram.write(at.first.at, bytes),
        Some(second) => {
            let (front, back) = bytes.split_at(usize::from(at.first.len));
            ram.write(at.first.at, front);
            ram.write(second.at, back);
        }
    }
}

/// The bytes that a load gives, with something behind them: RAM's, or a device's, which is loaded once.
fn load_bytes(op: &MemOp, at: &Stretches, ram: &Ram, devices: &mut Devices) -> [u8; 8]
    requires sized { IsSized op.now }
    requires few { op.now.len ≤ 8 }
    requires stands { IsPlaced op.now at.now }
    requires calm { raises_alignment op.now at.now ≡ false }
    ensures bytes { take op.now.len result ≡ load_bytes at.now ram.now devices.old.devices }
    ensures after { devices.new ≡ record devices.old { devices = devices_loaded (MemWhat.Load true true true) at.now devices.old.devices } }
{
    if is_in_ram(at) {
        read(at, ram)
    } else {
        devices.load(at.first.at, at.first.len)
    }
}

/// The number that an access loads, and 0 where it loads nothing.
fn load(op: &MemOp, at: &Stretches, ram: &Ram, devices: &mut Devices) -> u64
    requires sized { IsSized op.now }
    requires stands { IsPlaced op.now at.now }
    requires calm { raises_alignment op.now at.now ≡ false }
    ensures value { result ≡ loaded_number op.now.what op.now.len (load_bytes at.now ram.now devices.old.devices) }
    ensures after { devices.new ≡ record devices.old { devices = devices_loaded op.now.what at.now devices.old.devices } }
{
    match op.what {
        MemWhat::Load { .. } => {
            let bytes = load_bytes(op, at, ram, devices);
            loaded_number(op, &bytes)
        }
        MemWhat::Store { .. } => 0,
        MemWhat::Conditional { .. } => 0,
        MemWhat::Zero => 0,
        MemWhat::Clean => 0,
        MemWhat::Icbi => 0,
    }
}

/// Lays bytes in stretches of RAM, a piece for each block of 64 bytes.
fn lay(op: &MemOp, at: &Stretches, bytes: &[u8], ram: &mut Ram)
    requires size { length bytes.now ≡ op.now.len }
    requires few { op.now.len ≤ 64 }
    requires stands { IsPlaced op.now at.now }
    requires in_ram { is_in_ram at.now ≡ true }
    ensures { ram.new ≡ laid_in ram.old at.now bytes.now }
{
    write(&pieces_in(at), bytes, ram);
}

/// Stores an access's bytes to RAM, or where RAM isn't to the device that stands there, once.
fn store(op: &MemOp, at: &Stretches, reserved: bool, ram: &mut Ram, devices: &mut Devices)
    requires sized { IsSized op.now }
    requires stands { IsPlaced op.now at.now }
    requires calm { raises_alignment op.now at.now ≡ false }
    ensures ram { ram.new ≡ ram_behind op.now.what op.now at.now reserved ram.old }
    ensures devices { devices.new ≡ record devices.old { devices = devices_stored op.now.what op.now at.now reserved devices.old.devices } }
{
    if stores(op.what, reserved) {
        let bytes = stored_bytes(op);
        let bytes = &bytes[..usize::from(op.len)];
        if is_in_ram(at) {
            lay(op, at, bytes, ram);
        } else {
            devices.store(at.first.at, bytes);
        }
    }
}

/// Carries out an access to these stretches that raises no interrupt.
#[tactic(auto, unfolding(mw_isa::specs::Storage::accessed))]
pub fn access(op: &MemOp, at: &Stretches, state: &mut State)
    requires sized { IsSized op.now }
    requires stands { IsPlaced op.now at.now }
    requires calm { raises_alignment op.now at.now ≡ false }
    ensures value { seen state.new ≡ accessed op.now at.now (seen state.old) }
    ensures room { state.new.devices.room ≡ state.old.devices.room }
{
    let reserved = is_reserved(at, state.regs.reserve);
    let number = load(op, at, &state.ram, &mut state.devices);
    store(op, at, reserved, &mut state.ram, &mut state.devices);
    regs_behind(op, at, number, reserved, &mut state.regs);
}
