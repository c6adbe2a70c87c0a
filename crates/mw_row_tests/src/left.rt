use crate::left::Name::{Cia, Dar, Dec, Dsisr, Msr, Sprg3, Srr0, Srr1, Traps, Xer};
use mw_board::Run;
use mw_isa::Event;
use std::fmt::Debug;
use std::process::Abort;
use std::test::Fail;

/// What is looked at behind a run, beside the general purpose registers.
#[derive(Clone, Copy, Debug)]
pub enum Name {
    Cia,
    Msr,
    Srr0,
    Srr1,
    Dar,
    Dsisr,
    Sprg3,
    Xer,
    Dec,
    /// The number of events that are traps.
    Traps,
}

/// How many events are traps.
pub fn traps_in(events: &[Event]) -> u64 {
    let mut count = 0u64;
    for event in events {
        if let Event::Trap { .. } = event {
            count = count.wrapping_add(1);
        }
    }
    count
}

/// What a run left of this name.
fn content_of(run: &Run, name: Name) -> u64 {
    let regs = &run.state.regs;
    match name {
        Cia => regs.cia,
        Msr => regs.msr,
        Srr0 => regs.srr0,
        Srr1 => regs.srr1,
        Dar => regs.dar,
        Dsisr => u64::from(regs.dsisr),
        Sprg3 => regs.sprg[3],
        Xer => regs.xer,
        Dec => u64::from(run.state.devices.dec()),
        Traps => traps_in(run.events.as_slice()),
    }
}

/// Fails unless a run left these contents in the general purpose registers of these numbers and in what bears these
/// names. The message ends with what is shown.
pub fn leaves(
    rt: &impl Abort,
    run: &Run,
    numbers: &[(usize, u64)],
    names: &[(Name, u64)],
    shown: &impl Debug,
) -> Result<(), Fail> {
    for (number, content) in numbers {
        assert!(rt; *number < 32);
        assert_eq!(rt;
            run.state.regs.gpr[*number],
            *content,
            "r{number} of {shown:?}"
        );
    }
    for (name, content) in names {
        assert_eq!(rt; content_of(run, *name), *content, "{name:?} of {shown:?}");
    }
    Ok(())
}
