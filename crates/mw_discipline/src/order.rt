ghost use Rattle.std.specs.Prelude.{◌≡◌, ◌^◌, ◌<◌};
ghost use Rattle.mw_isa.specs.Entries.{fresh_by, is_elsewhere, is_for, is_ready, is_stale, lets, order_of, page_why, rights_number};
ghost use Rattle.mw_discipline.specs.Inside.{is_before};

use mw_bits::Rights;
use mw_isa::{Fresh, KeptEntry, Kind, StorageFault, Translated, Why, fault_raises};
use mw_radix::permits;
use std::cmp::Ordering;

/// How many bytes a page has.
pub const PAGE_SIZE: u64 = 4096;

/// Rights as a number, by which they are ordered.
fn rights_number(rights: Rights) -> u64
    ensures { result ≡ rights_number rights }
{
    16 * u64::from(rights.changed)
        + 8 * u64::from(rights.privileged)
        + 4 * u64::from(rights.read)
        + 2 * u64::from(rights.write)
        + u64::from(rights.execute)
}

/// How a translation stands to another in their order.
pub fn order_of(entry: &KeptEntry, other: &KeptEntry) -> Ordering
    ensures { result ≡ order_of entry.now other.now }
{
    let by_pid = entry.pid.cmp(&other.pid);
    if by_pid != Ordering::Equal {
        return by_pid;
    }
    let by_page = entry.page.cmp(&other.page);
    if by_page != Ordering::Equal {
        return by_page;
    }
    let by_real = entry.real.cmp(&other.real);
    if by_real != Ordering::Equal {
        return by_real;
    }
    rights_number(entry.rights).cmp(&rights_number(other.rights))
}

/// A translation stands before those of a page for a process.
pub fn is_before(entry: &KeptEntry, pid: u32, page: u64) -> bool
    ensures { result ≡ is_before pid page entry.now }
{
    entry.pid < pid || entry.pid == pid && entry.page < page
}

/// A translation is one of a page for a process.
pub fn is_for(entry: &KeptEntry, pid: u32, page: u64) -> bool
    ensures { result ≡ is_for pid page entry.now }
{
    entry.pid == pid && entry.page == page
}

/// Rights are marked for an access of a kind: for a store as changed.
fn is_ready(kind: Kind, rights: Rights) -> bool
    ensures { result ≡ is_ready kind rights }
{
    match kind {
        Kind::Fetch => true,
        Kind::Load => true,
        Kind::Store => rights.changed,
    }
}

/// A translation permits an access of a kind, in problem state or not.
fn lets(entry: &KeptEntry, kind: Kind, problem: bool) -> bool
    ensures { result ≡ lets kind problem entry.now }
{
    permits(&entry.rights, kind, problem) && is_ready(kind, entry.rights)
}

/// A translation has another real page than what its page comes to now.
fn is_elsewhere(entry: &KeptEntry, now: &Result<Translated, StorageFault>) -> bool
    ensures { result ≡ is_elsewhere now.now entry.now }
{
    match now {
        Ok(there) => there.real / PAGE_SIZE != entry.real,
        Err(_) => true,
    }
}

/// A translation of a page for a process permits an access of a kind and has another real page than that comes to now.
pub fn is_stale(
    entry: &KeptEntry,
    now: &Result<Translated, StorageFault>,
    kind: Kind,
    problem: bool,
    pid: u32,
    page: u64,
) -> bool
    ensures { result ≡ is_stale now.now kind problem pid page entry.now }
{
    is_for(entry, pid, page) && lets(entry, kind, problem) && is_elsewhere(entry, now)
}

/// What a page comes to now, for an access of a kind.
fn fresh_by(kind: Kind, now: &Result<Translated, StorageFault>) -> Fresh
    ensures { result ≡ fresh_by kind now.now }
{
    match now {
        Ok(there) => Fresh::Page(there.real / PAGE_SIZE * PAGE_SIZE),
        Err(fault) => Fresh::Fault(fault_raises(*fault, kind, 0).vector),
    }
}

/// Why an access of a kind breaks the discipline, by the translation that is kept and what its page comes to now.
pub fn page_why(kind: Kind, now: &Result<Translated, StorageFault>, entry: &KeptEntry) -> Why
    requires { entry.now.real < 2 ^ 52 }
    ensures { result ≡ page_why kind now.now entry.now }
{
    Why::Page {
        kept: entry.real * PAGE_SIZE,
        fresh: fresh_by(kind, now),
    }
}
