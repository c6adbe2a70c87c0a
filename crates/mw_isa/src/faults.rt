ghost use Rattle.std.specs.Prelude.{◌≡◌, ◌<◌, ◌^◌};
ghost use Rattle.mw_isa.specs.Faults.{data_cause, data_fault, fault_raises, fetch_cause, fetch_fault, store_cause};
ghost use Rattle.mw_isa.specs.Take.{IsUnmarked};

use crate::access::Kind;
use crate::msr::{BAD_TREE, DATA_REFUSED, FETCH_REFUSED, NO_TRANSLATION, STORE, UNMARKED, bit_at};
use crate::pages::StorageFault;
use crate::raised::Raised;
use crate::vector::Vector;

/// The bit of SRR1 that tells why a fetch failed.
fn fetch_cause(fault: StorageFault) -> u64
    ensures value { result ≡ fetch_cause fault }
    ensures cause { IsUnmarked result }
{
    match fault {
        StorageFault::Segment => 0,
        StorageFault::NoTranslation => bit_at(NO_TRANSLATION),
        StorageFault::NotPermitted => bit_at(FETCH_REFUSED),
        StorageFault::BadTree => bit_at(BAD_TREE),
        StorageFault::ReferenceOrChange => bit_at(UNMARKED),
    }
}

/// The interrupt of a fetch that failed.
fn fetch_fault(fault: StorageFault) -> Raised
    ensures value { result ≡ fetch_fault fault }
    ensures cause { IsUnmarked result.cause }
{
    let vector = match fault {
        StorageFault::Segment => Vector::InstSegment,
        _ => Vector::InstStorage,
    };
    Raised {
        vector,
        cause: fetch_cause(fault),
        dar: None,
        dsisr: None,
    }
}

/// The bit of DSISR that tells why an access to data failed.
fn data_cause(fault: StorageFault) -> u32
    ensures value { result ≡ data_cause fault }
    ensures bound { result < 2 ^ 31 }
{
    match fault {
        StorageFault::Segment => 0,
        StorageFault::NoTranslation => bit_at(NO_TRANSLATION) as u32,
        StorageFault::NotPermitted => bit_at(DATA_REFUSED) as u32,
        StorageFault::BadTree => bit_at(BAD_TREE) as u32,
        StorageFault::ReferenceOrChange => bit_at(UNMARKED) as u32,
    }
}

/// The bit of DSISR that tells of a store.
fn store_cause(kind: Kind) -> u32
    ensures value { result ≡ store_cause kind }
    ensures bound { result < 2 ^ 31 }
{
    match kind {
        Kind::Fetch => 0,
        Kind::Load => 0,
        Kind::Store => bit_at(STORE) as u32,
    }
}

/// The interrupt of an access to data that failed at a page's first byte.
fn data_fault(fault: StorageFault, kind: Kind, ea: u64) -> Raised
    ensures value { result ≡ data_fault fault kind ea }
    ensures cause { IsUnmarked result.cause }
{
    match fault {
        StorageFault::Segment => Raised {
            vector: Vector::DataSegment,
            cause: 0,
            dar: Some(ea),
            dsisr: None,
        },
        _ => Raised {
            vector: Vector::DataStorage,
            cause: 0,
            dar: Some(ea),
            dsisr: Some(data_cause(fault) + store_cause(kind)),
        },
    }
}

/// The interrupt of an access of a kind that failed at a page's first byte, the effective address `ea` (Book III, data
/// storage, data segment, instruction storage and instruction segment interrupts): of data DAR gets the address, and
/// DSISR is set whole but for a segment's fault; of a fetch SRR1 tells the cause. It can't fail.
pub fn fault_raises(fault: StorageFault, kind: Kind, ea: u64) -> Raised
    ensures value { result ≡ fault_raises fault kind ea }
    ensures cause { IsUnmarked result.cause }
{
    match kind {
        Kind::Fetch => fetch_fault(fault),
        Kind::Load => data_fault(fault, kind, ea),
        Kind::Store => data_fault(fault, kind, ea),
    }
}
