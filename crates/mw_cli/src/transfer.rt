ghost use Rattle.std.specs.Prelude.{◌≡◌, ◌+◌, ◌^◌, ◌<◌, ◌≤◌, [], ◌∷◌, length, OnOk, IfOk, IfErr, IsTrue, vec_len};
ghost use Rattle.mw_bus.specs.Memory.{ram_size};
ghost use Rattle.mw_io.specs.Outside.{Counts};
ghost use Rattle.mw_cli.specs.declared.status.Status.TheVariants.{ReadFault as ReadStatus, WriteFault, NoMemory};
ghost use Rattle.mw_cli.specs.Outside.{change, Opens, Took};
ghost use Rattle.mw_cli.specs.Stages.{ending, IsContent, IsFront, IsReadRefusal, IsLoadRefusal, IsWriteRefusal};

use crate::refusal::Refusal;
use mw_bus::RAM_SIZE;
use mw_io::{Host, ReadFault, Sink, SinkFault, read_up_to, write_all};
use std::alloc::Global;

/// The most bytes that an image may have.
const MOST_IMAGE_BYTES: usize = RAM_SIZE;

/// Reads the file of a name to its end, or to one byte past a limit where it goes on so long.
pub fn read_file<'a, H: Host>(
    alloc: Global,
    name: &'a str,
    host: &mut H,
    most: usize,
) -> Result<Vec<u8>, Refusal<'a>>
    requires { most + 1 < 2 ^ 64 }
    ensures front { IfOk result (λ bytes. IsFront (change (H.state host.old) (H.state host.new)) (record { name = name.now; most = most }) bytes.items) }
    ensures within { IfOk result (λ bytes. vec_len bytes ≤ most + 1) }
    ensures refused { IfErr result (IsReadRefusal (change (H.state host.old) (H.state host.new)) name.now) }
    ensures faults { Counts (H.state host.old).faults (H.state host.new).faults (ending result ≡ ReadStatus) }
    ensures opens { Opens (change (H.state host.old) (H.state host.new)) (record { name = name.now; most = most } ∷ []) }
    ensures same_files { (H.state host.new).files ≡ (H.state host.old).files }
    ensures stays_sound { IsTrue (H.state host.old).is_sound → IsTrue (H.state host.new).is_sound }
{
    let Ok(()) = host.open(name) else {
        return Err(Refusal::Unreadable { name });
    };
    match read_up_to(alloc, host, most) {
        Ok(bytes) => Ok(bytes),
        Err(ReadFault::Failed) => Err(Refusal::Unreadable { name }),
        Err(ReadFault::NoMemory) => Err(Refusal::OutOfMemory),
    }
}

/// Reads the image of a name, if it isn't longer than RAM.
pub fn read_image<'a, H: Host>(
    alloc: Global,
    name: &'a str,
    host: &mut H,
) -> Result<Vec<u8>, Refusal<'a>>
    ensures image { IfOk result (λ bytes. IsContent (change (H.state host.old) (H.state host.new)) name.now bytes.items) }
    ensures fits { IfOk result (λ bytes. length bytes.items ≤ ram_size) }
    ensures refused { IfErr result (IsLoadRefusal (change (H.state host.old) (H.state host.new)) name.now) }
    ensures faults { Counts (H.state host.old).faults (H.state host.new).faults (ending result ≡ ReadStatus) }
    ensures opens { Opens (change (H.state host.old) (H.state host.new)) (record { name = name.now; most = ram_size } ∷ []) }
    ensures same_files { (H.state host.new).files ≡ (H.state host.old).files }
    ensures stays_sound { IsTrue (H.state host.old).is_sound → IsTrue (H.state host.new).is_sound }
{
    let bytes = match read_file(alloc, name, host, MOST_IMAGE_BYTES) {
        Ok(bytes) => bytes,
        Err(refusal) => return Err(refusal),
    };
    if bytes.len() > MOST_IMAGE_BYTES {
        return Err(Refusal::TooLarge);
    }
    Ok(bytes)
}

/// Writes all the bytes. After an `Err` out has taken a front of them, and not all.
pub fn write_out<'a, S: Sink>(out: &mut S, bytes: &[u8]) -> Result<(), Refusal<'a>>
    ensures took { OnOk result (Took (change (S.state out.old) (S.state out.new)) bytes.now) }
    ensures refused { IfErr result (IsWriteRefusal (change (S.state out.old) (S.state out.new)) bytes.now) }
    ensures faults { Counts (S.state out.old).faults (S.state out.new).faults (ending result ≡ WriteFault) }
    ensures wants { Counts (S.state out.old).wants (S.state out.new).wants (ending result ≡ NoMemory) }
{
    match write_all(out, bytes) {
        Ok(()) => Ok(()),
        Err(SinkFault::Failed) => Err(Refusal::Unwritable),
        Err(SinkFault::NoMemory) => Err(Refusal::OutOfMemory),
    }
}
