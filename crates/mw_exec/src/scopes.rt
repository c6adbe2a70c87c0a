ghost use Rattle.std.specs.Prelude.{◌≡◌, ◌<◌};
ghost use Rattle.mw_isa.specs.Scopes.{pages_by, region_of, scope_by, scope_of};

use mw_bits::{Scope, field};

/// How many pages of 4 KiB AP of tlbie tells.
fn pages_by(ap: u64) -> u64
    ensures value { result ≡ pages_by ap }
    ensures some { 0 < result }
{
    if ap == 0 {
        1
    } else if ap == 5 {
        16
    } else if ap == 1 {
        512
    } else {
        0x4_0000
    }
}

/// The kept translations of one process in the aligned region around a page.
fn region_of(pid: u32, page: u64, pages: u64) -> Scope
    requires { 0 < pages }
    ensures { result ≡ region_of pid page pages }
{
    Scope::Region {
        pid,
        page: page - page % pages,
        pages,
    }
}

/// The kept translations that IS of tlbie tells, from RB and the process.
fn scope_by(is: u64, rb: u64, pid: u32) -> Scope
    ensures { result ≡ scope_by is rb pid }
{
    if is == 0 {
        region_of(pid, field(rb, 0, 51), pages_by(field(rb, 56, 58)))
    } else if is == 1 {
        Scope::Pid(pid)
    } else {
        Scope::All
    }
}

/// The kept translations that tlbie gives up, by RIC, RB and RS (Book III, tlbie).
pub fn scope_of(ric: u64, rb: u64, rs: u64) -> Scope
    ensures { result ≡ scope_of ric rb rs }
{
    if ric == 1 {
        Scope::Nothing
    } else {
        scope_by(field(rb, 52, 53), rb, (rs >> 32) as u32)
    }
}
