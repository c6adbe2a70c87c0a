ghost use Rattle.std.specs.Prelude.{◌+◌, ◌≤◌, OnOk};
ghost use Rattle.mw_isa.specs.Discipline.{IsInRam};

use arrayvec::ArrayVec;
use mw_bits::Scope;
use mw_bus::Ram;
use mw_discipline::{Monitor, RamTables};
use mw_isa::{Access, DR, Deed, Fresh, Kind, PR, Packet, Regs, Touch, Vector, Why, bit_at};
use std::alloc::{AllocError as NoMemory, Global};
use std::test::Fail;

/// The tables of processes 0 and 1, which have one tree: its root and two levels below it.
const TREE: [(u32, u64); 5] = [
    (0x1_0000, 0x4000_0000_0002_00ad),
    (0x1_0010, 0x4000_0000_0002_00ad),
    (0x2_0000, 0x8000_0000_0003_0009),
    (0x3_0000, 0x8000_0000_0003_1009),
    (0x3_1000, 0x8000_0000_0003_2009),
];
/// Leaves by what they permit, at a page whose number is added: loads and stores, marked as changed and not; the same of
/// privileged states alone.
const CHANGED: u64 = 0xc000_0000_0000_0186;

const UNCHANGED: u64 = 0xc000_0000_0000_0106;

const PRIVILEGED: u64 = 0xc000_0000_0000_018e;
/// An address of quadrant 3.
const HIGH: u64 = 0xc000_0000_0000_0000;

/// The leaf of a page of the tree is this from here on.
fn set_leaf(ram: &mut Ram, page: u8, leaf: u64) {
    ram.write(0x3_2000 + 8 * u64::from(page), &leaf.to_be_bytes());
}

/// RAM with the tree, in which page 5 stands at real page 5, and page 6 at 6.
fn tree(alloc: Global) -> Result<Ram, NoMemory> {
    let mut ram = Ram::new(alloc, &[])?;
    for (address, doubleword) in TREE {
        ram.write(u64::from(address), &doubleword.to_be_bytes());
    }
    set_leaf(&mut ram, 5, CHANGED + 0x5000);
    set_leaf(&mut ram, 6, CHANGED + 0x6000);
    Ok(ram)
}

/// Registers of process 1 with DR, in problem state or not.
fn regs_in(problem: bool) -> Regs {
    let mut regs = Regs::new();
    regs.prtbl = 0x1_0000;
    regs.pidr = 1;
    regs.msr |= bit_at(DR);
    if problem {
        regs.msr |= bit_at(PR);
    }
    regs
}

/// An access to data.
fn access(kind: Kind, ea: u64) -> Touch {
    Touch { kind, ea }
}

/// An instruction at address 0, which isn't translated, with accesses to data, of which there are two at most, and a deed.
fn packet(touches: &[Touch], deed: Deed) -> Packet
    requires { IsInRam deed }
    ensures { IsInRam result.deed }
{
    let mut list = ArrayVec::new();
    for touch in touches {
        let _ = list.try_push(*touch);
    }
    Packet {
        cia: 0,
        word: 0,
        suffix: None,
        touches: list,
        deed,
        trap: None,
    }
}

/// What the check of such accesses gives.
fn checked(monitor: &Monitor, ram: &Ram, problem: bool, touches: &[Touch]) -> Result<(), Access> {
    monitor.check(
        &packet(touches, Deed::Plain),
        &mut RamTables::new(ram),
        &regs_in(problem),
    )
}

/// Records an instruction with such accesses and this deed, if none offends.
fn record(monitor: &mut Monitor, ram: &Ram, touches: &[Touch], deed: Deed) -> Result<(), NoMemory>
    requires within { IsInRam deed }
    requires room { monitor.old.added ≤ 1000 }
    ensures { OnOk result (monitor.new.added ≤ monitor.old.added + 6) }
{
    let packet = packet(touches, deed);
    let mut tables = RamTables::new(ram);
    let regs = regs_in(false);
    if monitor.check(&packet, &mut tables, &regs).is_ok() {
        monitor.record(&packet, &mut tables, &regs)?;
    }
    Ok(())
}

/// The offence of an access whose page is kept at one real page and comes to another.
fn moved(kind: Kind, ea: u64, kept: u64, fresh: u64) -> Result<(), Access> {
    Err(Access {
        kind,
        ea,
        why: Why::Page {
            kept,
            fresh: Fresh::Page(fresh),
        },
    })
}

/// The offence of an access whose page is kept and has a fault.
fn faulting(kind: Kind, ea: u64, kept: u64, vector: Vector) -> Result<(), Access> {
    Err(Access {
        kind,
        ea,
        why: Why::Page {
            kept,
            fresh: Fresh::Fault(vector),
        },
    })
}

#[test]
fn a_page_that_moved_offends(rt: HostRuntime) -> Result<(), Fail> {
    let mut ram = tree(rt.alloc())?;
    let mut monitor = Monitor::new(rt.alloc())?;
    let load = access(Kind::Load, 0x5008);
    record(&mut monitor, &ram, &[load], Deed::Plain)?;
    record(&mut monitor, &ram, &[load], Deed::Plain)?;
    assert_eq!(rt; checked(&monitor, &ram, false, &[load]), Ok(()));
    set_leaf(&mut ram, 5, CHANGED + 0x7000);
    assert_eq!(rt;
        checked(&monitor, &ram, false, &[load]),
        moved(Kind::Load, 0x5008, 0x5000, 0x7000)
    );
    set_leaf(&mut ram, 5, 0);
    assert_eq!(rt;
        checked(&monitor, &ram, false, &[load]),
        faulting(Kind::Load, 0x5008, 0x5000, Vector::DataStorage)
    );
    // another page of the tree was never used
    set_leaf(&mut ram, 6, CHANGED + 0x7000);
    assert_eq!(rt;
        checked(&monitor, &ram, false, &[access(Kind::Load, 0x6000)]),
        Ok(())
    );
    Ok(())
}

#[test]
fn an_entry_permits_by_its_rights(rt: HostRuntime) -> Result<(), Fail> {
    let mut ram = tree(rt.alloc())?;
    set_leaf(&mut ram, 5, PRIVILEGED + 0x5000);
    set_leaf(&mut ram, 6, UNCHANGED + 0x6000);
    let mut monitor = Monitor::new(rt.alloc())?;
    let load = access(Kind::Load, 0x5000);
    let other = access(Kind::Load, 0x6000);
    record(&mut monitor, &ram, &[load, other], Deed::Plain)?;
    set_leaf(&mut ram, 5, CHANGED + 0x7000);
    set_leaf(&mut ram, 6, CHANGED + 0x7000);
    // in problem state a privileged entry permits nothing
    assert_eq!(rt; checked(&monitor, &ram, true, &[load]), Ok(()));
    assert_eq!(rt;
        checked(&monitor, &ram, false, &[load]),
        moved(Kind::Load, 0x5000, 0x5000, 0x7000)
    );
    // and one that isn't marked as changed no store
    assert_eq!(rt;
        checked(&monitor, &ram, false, &[access(Kind::Store, 0x6000)]),
        Ok(())
    );
    assert_eq!(rt;
        checked(&monitor, &ram, false, &[other]),
        moved(Kind::Load, 0x6000, 0x6000, 0x7000)
    );
    // the same page with other rights is no offence
    set_leaf(&mut ram, 6, CHANGED + 0x6000);
    assert_eq!(rt; checked(&monitor, &ram, false, &[other]), Ok(()));
    Ok(())
}

#[test]
fn accesses_are_examined_in_order(rt: HostRuntime) -> Result<(), Fail> {
    let mut ram = tree(rt.alloc())?;
    let mut monitor = Monitor::new(rt.alloc())?;
    let first = access(Kind::Store, 0x5ffc);
    let second = access(Kind::Store, 0x6000);
    record(&mut monitor, &ram, &[first, second], Deed::Plain)?;
    set_leaf(&mut ram, 6, CHANGED + 0x8000);
    assert_eq!(rt;
        checked(&monitor, &ram, false, &[first, second]),
        moved(Kind::Store, 0x6000, 0x6000, 0x8000)
    );
    // a first that has a fault, of a page that isn't kept, is the last that is looked at
    let fault = access(Kind::Store, 0x4ff8);
    assert_eq!(rt; checked(&monitor, &ram, false, &[fault, second]), Ok(()));
    // one of a page that is kept is looked at itself
    set_leaf(&mut ram, 5, 0);
    assert_eq!(rt;
        checked(&monitor, &ram, false, &[first, second]),
        faulting(Kind::Store, 0x5ffc, 0x5000, Vector::DataStorage)
    );
    Ok(())
}

#[test]
fn quadrants_have_their_processes(rt: HostRuntime) -> Result<(), Fail> {
    let mut ram = tree(rt.alloc())?;
    let mut monitor = Monitor::new(rt.alloc())?;
    let low = access(Kind::Load, 0x5000);
    let high = access(Kind::Load, HIGH + 0x5000);
    record(&mut monitor, &ram, &[low, high], Deed::Plain)?;
    // the entries of the low page are those of process 1, and go
    record(&mut monitor, &ram, &[], Deed::Tlbie(Scope::Pid(1)))?;
    monitor.interrupted();
    set_leaf(&mut ram, 5, CHANGED + 0x7000);
    assert_eq!(rt; checked(&monitor, &ram, false, &[low]), Ok(()));
    assert_eq!(rt;
        checked(&monitor, &ram, false, &[high]),
        moved(Kind::Load, HIGH + 0x5000, 0x5000, 0x7000)
    );
    // quadrants 1 and 2 belong to none, and are a fault
    assert_eq!(rt;
        checked(
            &monitor,
            &ram,
            false,
            &[access(Kind::Load, 0x4000_0000_0000_5000), high]
        ),
        Ok(())
    );
    assert_eq!(rt;
        checked(
            &monitor,
            &ram,
            false,
            &[access(Kind::Load, 0x8000_0000_0000_5000), high]
        ),
        Ok(())
    );
    Ok(())
}

/// Whether page 5 is kept behind an invalidation of this scope and a synchronizing event.
fn outlasts(alloc: Global, scope: Scope) -> Result<bool, NoMemory> {
    let mut ram = tree(alloc)?;
    let mut monitor = Monitor::new(alloc)?;
    let load = access(Kind::Load, 0x5000);
    record(&mut monitor, &ram, &[load], Deed::Plain)?;
    record(&mut monitor, &ram, &[], Deed::Tlbie(scope))?;
    record(&mut monitor, &ram, &[], Deed::Sync)?;
    set_leaf(&mut ram, 5, CHANGED + 0x7000);
    Ok(checked(&monitor, &ram, false, &[load]).is_err())
}

/// Whether it is behind an invalidation of pages of process 1.
fn outlasts_region(alloc: Global, page: u64, pages: u64) -> Result<bool, NoMemory> {
    outlasts(
        alloc,
        Scope::Region {
            pid: 1,
            page,
            pages,
        },
    )
}

#[test]
fn scopes_reach_their_pages(rt: HostRuntime) -> Result<(), Fail> {
    let alloc = rt.alloc();
    assert_eq!(rt; outlasts(alloc, Scope::Nothing)?, true);
    assert_eq!(rt; outlasts(alloc, Scope::All)?, false);
    assert_eq!(rt; outlasts(alloc, Scope::Pid(1))?, false);
    assert_eq!(rt; outlasts(alloc, Scope::Pid(2))?, true);
    // the first page of a region, its last, the one behind it and the one before it
    assert_eq!(rt; outlasts_region(alloc, 5, 16)?, false);
    assert_eq!(rt; outlasts_region(alloc, 2, 4)?, false);
    assert_eq!(rt; outlasts_region(alloc, 1, 4)?, true);
    assert_eq!(rt; outlasts_region(alloc, 6, 16)?, true);
    assert_eq!(rt; outlasts_region(alloc, 5, 1)?, false);
    assert_eq!(rt;
        outlasts(
            alloc,
            Scope::Region {
                pid: 2,
                page: 5,
                pages: 1
            }
        )?,
        true
    );
    Ok(())
}

#[test]
fn what_is_used_again_stays(rt: HostRuntime) -> Result<(), Fail> {
    let mut ram = tree(rt.alloc())?;
    let mut monitor = Monitor::new(rt.alloc())?;
    let load = access(Kind::Load, 0x5000);
    record(&mut monitor, &ram, &[load], Deed::Plain)?;
    record(&mut monitor, &ram, &[], Deed::Tlbie(Scope::All))?;
    record(&mut monitor, &ram, &[load], Deed::Plain)?;
    monitor.interrupted();
    set_leaf(&mut ram, 5, CHANGED + 0x7000);
    assert_eq!(rt;
        checked(&monitor, &ram, false, &[load]),
        moved(Kind::Load, 0x5000, 0x5000, 0x7000)
    );
    // another table leaves none
    record(&mut monitor, &ram, &[], Deed::NewTable)?;
    assert_eq!(rt; checked(&monitor, &ram, false, &[load]), Ok(()));
    Ok(())
}
