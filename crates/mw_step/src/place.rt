ghost use Rattle.std.specs.Prelude.{◌≡◌, ◌<◌, ◌^◌, IfOk};
ghost use Rattle.mw_isa.specs.Pages.{stretch_of, stretches_of};
ghost use Rattle.mw_isa.specs.Step.{OnPlaced, placed_of};
ghost use Rattle.mw_isa.specs.Storage.{IsPlaced, IsSized, OnMemory};
ghost use Rattle.mw_isa.specs.Translate.{page_real};

use mw_bus::Ram;
use mw_isa::{Outcome, Page, PageFault, Pages, Regs, StorageFault, Stretch, Stretches, real_of};
use mw_loadstore::pages_of;
use mw_radix::{RamTables, is_translated, translate};

/// The real address of a page's first byte, or what is wrong with the page.
#[tactic(auto, unfolding(mw_isa::specs::Translate::translate_of))]
pub fn page_real(ram: &Ram, regs: &Regs, page: &Page) -> Result<u64, StorageFault>
    ensures value { result ≡ page_real ram.now regs.now page.now }
    ensures bound { IfOk result (λ at. at < 2 ^ 60) }
{
    if !is_translated(page.kind, regs.msr) {
        return Ok(real_of(page.ea));
    }
    match translate(&mut RamTables::new(ram), regs, page.kind, page.ea) {
        Ok(there) => Ok(there.real),
        Err(fault) => Err(fault),
    }
}

/// A page's stretch, or what is wrong with the page.
fn stretch_of(ram: &Ram, regs: &Regs, page: &Page) -> Result<Stretch, PageFault>
    ensures { result ≡ stretch_of page.now (page_real ram.now regs.now page.now) }
{
    match page_real(ram, regs, page) {
        Ok(at) => Ok(Stretch { at, len: page.len }),
        Err(fault) => Err(PageFault { page: *page, fault }),
    }
}

/// The stretches of pages, or the first page with which something is wrong.
fn stretches_of(ram: &Ram, regs: &Regs, pages: &Pages) -> Result<Stretches, PageFault>
    ensures { result ≡ stretches_of (page_real ram.now regs.now) pages.now }
{
    match stretch_of(ram, regs, &pages.first) {
        Err(fault) => Err(fault),
        Ok(first) => match pages.second {
            None => Ok(Stretches {
                first,
                second: None,
            }),
            Some(page) => match stretch_of(ram, regs, &page) {
                Err(fault) => Err(fault),
                Ok(second) => Ok(Stretches {
                    first,
                    second: Some(second),
                }),
            },
        },
    }
}

/// Where the access of an outcome stands, if it has one, by the registers and the tables in RAM, written over `placed`.
pub fn placed_of(
    outcome: &Outcome,
    ram: &Ram,
    regs: &Regs,
    placed: &mut Option<Result<Stretches, PageFault>>,
)
    requires { OnMemory IsSized outcome.now }
    ensures value { placed.new ≡ placed_of (page_real ram.now regs.now) outcome.now }
    ensures stands { OnPlaced IsPlaced outcome.now placed.new }
{
    match outcome {
        Outcome::Done { .. } => *placed = None,
        Outcome::Long(_) => *placed = None,
        Outcome::System(_) => *placed = None,
        Outcome::Trap { .. } => *placed = None,
        Outcome::Memory(op) => *placed = Some(stretches_of(ram, regs, &pages_of(op))),
    }
}
