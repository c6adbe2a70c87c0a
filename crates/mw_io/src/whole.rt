// Whole pieces, by calls that may each do a part.
ghost use Rattle.std.specs.Prelude.{◌≡◌, ◌+◌, ◌-◌, ◌^◌, ◌<◌, ◌≤◌, ◌↔◌, ◌++◌, ℕ, [], length, take, drop, IsTrue, OnOk, OnErr, IfOk, OnSome, IsErrOf, vec_len};
ghost use Rattle.mw_io.specs.declared.sink.SinkFault.TheVariants.{Failed, NoMemory};
ghost use Rattle.mw_io.specs.declared.whole.ReadFault.TheVariants.{Failed as ReadFailed, NoMemory as ReadNoMemory};
ghost use Rattle.mw_io.specs.Outside.{Counts, RoseBy, IsReadOn, with_more};

use crate::host::{Host, HostFailed};
use crate::sink::{Sink, SinkFault};
use std::alloc::{AllocError, Global};

/// Writes all the bytes. After an `Err` the sink has taken a front of them, and not all.
#[tactic(auto, using(crate::proofs::Pieces::with_more_behind, crate::proofs::Pieces::with_more_all, crate::proofs::Pieces::with_more_none))]
pub fn write_all<S: Sink>(sink: &mut S, bytes: &[u8]) -> Result<(), SinkFault>
    ensures all { OnOk result ((S.state sink.new).taken ≡ with_more (S.state sink.old).taken bytes.now) }
    ensures front { OnErr result ((k : ℕ) × (k < length bytes.now) × ((S.state sink.new).taken ≡ with_more (S.state sink.old).taken (take k bytes.now))) }
    ensures fault { Counts (S.state sink.old).faults (S.state sink.new).faults (IsErrOf result Failed) }
    ensures want { Counts (S.state sink.old).wants (S.state sink.new).wants (IsErrOf result NoMemory) }
{
    let mut at = 0;
    while at < bytes.len() {
        at += sink.write(&bytes[at..])?;
    }
    Ok(())
}

/// Why a file was not read.
#[derive(Clone, Copy, Debug, PartialEq, Eq)]
pub enum ReadFault {
    /// A read of the host failed, and its count of faults rose.
    Failed,
    /// There was no memory for the bytes.
    NoMemory,
}

impl From<HostFailed> for ReadFault {
    ghost from_gives = { λ _ e. e ≡ ReadFailed };

    fn from(_: HostFailed) -> ReadFault {
        ReadFault::Failed
    }
}

impl From<AllocError> for ReadFault {
    ghost from_gives = { λ _ e. e ≡ ReadNoMemory };

    fn from(_: AllocError) -> ReadFault {
        ReadFault::NoMemory
    }
}

// The most bytes that one read asks for.
const PIECE: usize = 65_536;

// Reads up to `most` bytes and adds them to `bytes`. The answer 0 says that the file has ended.
fn read_piece<H: Host>(
    host: &mut H,
    buf: &mut [u8],
    most: usize,
    bytes: &mut Vec<u8>,
) -> Result<usize, ReadFault>
    requires opened { IsTrue (H.state host.old).is_open }
    requires room { 0 < length buf.old }
    requires some { 0 < most }
    ensures within { IfOk result (λ n. n ≤ most) }
    ensures len { IfOk result (λ n. vec_len bytes.new ≡ vec_len bytes.old + n) }
    ensures adds { IfOk result (λ n. OnSome (H.state host.old).files (bytes.new.items ≡ bytes.old.items ++ take n (H.state host.old).rest)) }
    ensures left { IfOk result (λ n. OnSome (H.state host.old).files ((H.state host.new).rest ≡ drop n (H.state host.old).rest)) }
    ensures end { IfOk result (λ n. OnSome (H.state host.old).files ((n ≡ 0) ↔ ((H.state host.old).rest ≡ []))) }
    ensures passed { OnSome (H.state host.old).files (IsReadOn most (H.state host.old).rest (H.state host.new).rest) }
    ensures still_open { IsTrue (H.state host.new).is_open }
    ensures same_files { (H.state host.new).files ≡ (H.state host.old).files }
    ensures cause { Counts (H.state host.old).faults (H.state host.new).faults (IsErrOf result ReadFailed) }
    ensures opened { (H.state host.new).opened ≡ (H.state host.old).opened }
    ensures counted { IfOk result (λ n. RoseBy n (H.state host.old).given (H.state host.new).given) }
    ensures given { (H.state host.new).given ≤ (H.state host.old).given + most }
    ensures stays_sound { IsTrue (H.state host.old).is_sound → IsTrue (H.state host.new).is_sound }
    ensures sure { IsTrue (H.state host.old).is_sound → IsErrOf result ReadFailed → ⊥ }
{
    let room = buf.len().min(most);
    let count = host.read(&mut buf[..room])?;
    bytes.extend_from_slice(&buf[..count])?;
    Ok(count)
}

/// Reads the open file from where it is to its end, or to one byte past the limit where it goes on so long. The limit
/// is in bytes, so at most `limit + 1` of them are read and answered. The error is `Failed` where a read of the host
/// failed, which over a sound host none does, and `NoMemory` where memory is wanting; some bytes may be read by then.
/// The file stays open.
pub fn read_up_to<H: Host>(alloc: Global, host: &mut H, limit: usize) -> Result<Vec<u8>, ReadFault>
    requires opened { IsTrue (H.state host.old).is_open }
    requires limit { limit + 1 < 2 ^ 64 }
    ensures bytes { IfOk result (λ bytes. OnSome (H.state host.old).files (bytes.items ≡ take (limit + 1) (H.state host.old).rest)) }
    ensures within { IfOk result (λ bytes. vec_len bytes ≤ limit + 1) }
    ensures rest { IfOk result (λ bytes. OnSome (H.state host.old).files (bytes.items ++ (H.state host.new).rest ≡ (H.state host.old).rest)) }
    ensures passed { OnSome (H.state host.old).files (IsReadOn (limit + 1) (H.state host.old).rest (H.state host.new).rest) }
    ensures still_open { IsTrue (H.state host.new).is_open }
    ensures same_files { (H.state host.new).files ≡ (H.state host.old).files }
    ensures cause { Counts (H.state host.old).faults (H.state host.new).faults (IsErrOf result ReadFailed) }
    ensures opened { (H.state host.new).opened ≡ (H.state host.old).opened }
    ensures given { (H.state host.new).given ≤ (H.state host.old).given + (limit + 1) }
    ensures stays_sound { IsTrue (H.state host.old).is_sound → IsTrue (H.state host.new).is_sound }
    ensures sure { IsTrue (H.state host.old).is_sound → IsErrOf result ReadFailed → ⊥ }
{
    let mut buf = [0; PIECE];
    let mut bytes = Vec::new(alloc);
    while bytes.len() <= limit {
        let most = limit + 1 - bytes.len();
        if read_piece(host, &mut buf, most, &mut bytes)? == 0 {
            break;
        }
    }
    Ok(bytes)
}
