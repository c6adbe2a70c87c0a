ghost use Rattle.std.specs.Prelude.{◌+◌, ◌≤◌, OnOk};
ghost use Rattle.mw_isa.specs.Discipline.{IsInRam};

use arrayvec::ArrayVec;
use mw_bus::Ram;
use mw_discipline::{Monitor, RamTables};
use mw_isa::{Access, BlockStatus, Deed, Kind, Packet, Regs, Span, Why};
use std::alloc::AllocError as NoMemory;
use std::test::Fail;

/// What is seen of an instruction at an address that does this.
fn packet(cia: u64, deed: Deed) -> Packet
    requires { IsInRam deed }
    ensures { IsInRam result.deed }
{
    Packet {
        cia,
        word: 0,
        suffix: None,
        touches: ArrayVec::new(),
        deed,
        trap: None,
    }
}

/// What a store of four bytes at real address 64 does.
fn store() -> Deed
    ensures { IsInRam result }
{
    let mut spans = ArrayVec::new();
    spans.push(Span { at: 64, len: 4 });
    Deed::Store { spans }
}

/// Records an instruction at address 0 that does this, if its fetch doesn't offend.
fn record(monitor: &mut Monitor, ram: &Ram, deed: Deed) -> Result<(), NoMemory>
    requires within { IsInRam deed }
    requires room { monitor.old.added ≤ 1000 }
    ensures { OnOk result (monitor.new.added ≤ monitor.old.added + 6) }
{
    let packet = packet(0, deed);
    let mut tables = RamTables::new(ram);
    let regs = Regs::new();
    if monitor.check(&packet, &mut tables, &regs).is_ok() {
        monitor.record(&packet, &mut tables, &regs)?;
    }
    Ok(())
}

/// What the check of a fetch from real address 64 gives.
fn fetched(monitor: &Monitor, ram: &Ram) -> Result<(), Access> {
    monitor.check(
        &packet(64, Deed::Plain),
        &mut RamTables::new(ram),
        &Regs::new(),
    )
}

/// The offence of such a fetch, its block having a status.
fn offence(status: BlockStatus) -> Result<(), Access> {
    Err(Access {
        kind: Kind::Fetch,
        ea: 64,
        why: Why::Block { block: 64, status },
    })
}

#[test]
fn a_block_is_changed_given_up_and_cleaned(rt: HostRuntime) -> Result<(), Fail> {
    let ram = Ram::new(rt.alloc(), &[])?;
    let mut monitor = Monitor::new(rt.alloc())?;
    assert_eq!(rt; fetched(&monitor, &ram), Ok(()));
    record(&mut monitor, &ram, store())?;
    assert_eq!(rt; fetched(&monitor, &ram), offence(BlockStatus::Changed));
    record(&mut monitor, &ram, Deed::Icbi { block: 1 })?;
    assert_eq!(rt; fetched(&monitor, &ram), offence(BlockStatus::Invalidated));
    monitor.interrupted();
    assert_eq!(rt; fetched(&monitor, &ram), Ok(()));
    Ok(())
}
