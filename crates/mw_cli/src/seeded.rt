ghost use Rattle.std.specs.Prelude.{◌≤◌, IfOk, IfErr};
ghost use Rattle.mw_cli.specs.Headline.{SumsUp};
ghost use Rattle.mw_cli.specs.Products.{bytes_of};
ghost use Rattle.mw_cli.specs.Stages.{IsRunRefusal};

use crate::product::Product;
use crate::refusal::Refusal;
use mw_board::{RunFault, simulate};
use mw_generator::generate;
use mw_isa::Events;
use mw_trace::summary;
use mw_uart::Script;
use std::alloc::Global;

/// Makes the image of a seed and runs it, without a byte that arrives: the summary of the run, and the run's end. An `Err`
/// says that memory is wanting.
pub fn run_of_seed<'a>(alloc: Global, seed: u64, cycles: u64) -> Result<Product, Refusal<'a>>
    requires few { cycles ≤ 4000000 }
    ensures sums { IfOk result (λ product. SumsUp (record { seed = seed; cycles = cycles }) (bytes_of product) product.end) }
    ensures refused { IfErr result IsRunRefusal }
{
    let Ok(image) = generate(alloc, seed) else {
        return Err(Refusal::OutOfMemory);
    };
    let run = match simulate(alloc, image.as_slice(), &Script::new(alloc), cycles) {
        Ok(run) => run,
        Err(RunFault::ImageTooLarge) => return Err(Refusal::TooLarge),
        Err(RunFault::NoMemory) => return Err(Refusal::OutOfMemory),
    };
    match summary(
        alloc,
        seed,
        cycles,
        run.events.as_slice(),
        &run.end,
        &run.state.regs.gpr,
    ) {
        Ok(rest) => Ok(Product {
            events: Events::new(alloc),
            rest,
            end: Some(run.end),
        }),
        Err(_) => Err(Refusal::OutOfMemory),
    }
}
